/// What a line of a word and a number sets in a script.
#[derive(Clone, Copy, PartialEq, Eq)]
pub enum Setting {
    /// The greatest size of a field section.
    Section,
    /// The greatest length of a request's body.
    RequestBody,
    /// The greatest length of a response's body.
    Response,
    /// How many requests there may be.
    Cap,
    /// How many two-way streams the peer may have open.
    Bidi,
    /// How many bytes may come before they are read, on all streams and on each.
    Window,
    /// How long an end waits for a packet, in milliseconds; 0 is for ever.
    Idle,
    /// The round-trip time that counts before one was measured, in milliseconds.
    Rtt,
    /// How many rounds the exchange has at most.
    Rounds,
    /// How many milliseconds a round lasts.
    Step,
}

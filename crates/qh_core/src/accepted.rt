/// The frames of a packet that was accepted.
#[derive(Clone, Copy)]
pub struct Accepted<'a> {
    /// The bytes of all its frames.
    pub frames: &'a [u8],
    /// How many of them were taken, from the first on. One that closes is the last of them; one that is refused isn't among them.
    pub taken: usize,
}

/// One call: who made it, the number that it added, and the sum before it.
#[derive(Drop)]
pub(crate) struct Added {
    /// The thread that made the call.
    pub(crate) thread: u32,
    /// What it added.
    pub(crate) number: u32,
    /// The sum before it, which was the reply.
    pub(crate) reply: u64,
}

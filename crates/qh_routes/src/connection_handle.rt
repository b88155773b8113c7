/// The number of a connection at its endpoint, as long as the connection is live. A later one may get the same number.
#[derive(Clone, Copy, PartialEq, Eq)]
pub struct ConnectionHandle(pub usize);

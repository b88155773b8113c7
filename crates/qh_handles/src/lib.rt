//! What users of a connection hold in their hands, as `quinn` has it: the connection, its streams, the calls on them that wait, and its driver. Each call is
//! made at a connection's state, which is handed in, or at one that is shared (the trait `At`). What it does there, and whether it is one step of a book that
//! can be read (`qh_book`), is as whoever implements `At` says.
#![tactic(auto)]

mod ask;
mod at;
mod connecting;
mod connection;
mod driver;
mod error;
mod recv_stream;
mod send_stream;
mod told;

pub use at::{At, DriverPart};
pub use connecting::{Connecting, HandshakeData};
pub use connection::{
    AcceptBi, AcceptUni, Closed, Connection, OpenBi, OpenUni, ReadDatagram, SendDatagram,
};
pub use driver::ConnectionDriver;
pub use error::{
    ReadError, ReadExactError, ReadToEndError, ResetError, SendDatagramError, StoppedError,
    WriteError,
};
pub use recv_stream::{
    Read, ReadChunk, ReadChunks, ReadExact, ReadToEnd, ReceivedReset, RecvStream,
};
pub use send_stream::{SendStream, Stopped, Write, WriteAll, WriteAllChunks, WriteChunks};
pub use told::Told;

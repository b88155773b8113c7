//! Makes packets by hand.
use crate::row::Row;
use qh_base::{ConnectionId, Memory, Side, Space};
use qh_packet::{PlainSession, Session, put_header, put_initial};
use row_text::RowFault;

// Lengths in these rows are below this.
const END: usize = 1 << 14;

// What an Initial packet has in its body beside its frames.
const NUMBER_AND_TAG: usize = 36;

/// The parts of a packet that have no memory of their own. PADDING fills an Initial packet up to the size.
#[derive(Clone, Copy)]
pub(crate) struct Parts {
    pub(crate) destination: ConnectionId,
    pub(crate) source: ConnectionId,
    pub(crate) number: u64,
    pub(crate) size: u64,
    pub(crate) tag: [u8; 32],
}

/// Appends an Initial packet.
pub(crate) fn write_initial(
    bytes: &mut Vec<u8>,
    parts: &Parts,
    token: &[u8],
    frames: &[u8],
    row: &mut Row<'_>,
) {
    if token.len() >= END || frames.len() >= END - NUMBER_AND_TAG || parts.size >= END as u64 {
        return row.fail(RowFault::Form);
    }
    row.note(put_initial(
        bytes,
        &parts.destination,
        &parts.source,
        token,
        parts.number,
        frames,
        parts.size as usize,
        &parts.tag,
    ));
}

/// Appends a 1-RTT packet.
pub(crate) fn write_data(bytes: &mut Vec<u8>, parts: &Parts, frames: &[u8], row: &mut Row<'_>) {
    row.note(put_data(bytes, parts, frames));
}

fn put_data(bytes: &mut Vec<u8>, parts: &Parts, frames: &[u8]) -> Result<(), Memory> {
    put_header(bytes, &parts.destination, parts.number)?;
    bytes.extend_from_slice(frames)?;
    bytes.extend_from_slice(&parts.tag)?;
    Ok(())
}

/// The tag of a client's first packet, of which the key is this id.
pub(crate) fn client_tag(key: ConnectionId, row: &mut Row<'_>) -> [u8; 32] {
    match PlainSession::new(key, b"") {
        Ok(session) => session.tag(Side::Client, Space::Initial, 0),
        Err(Memory) => {
            row.fail(RowFault::Memory);
            [0; 32]
        }
    }
}

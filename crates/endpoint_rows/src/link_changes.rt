//! Rows of one connection that change it, and are answered by `ok`: it closes, gets ids and tokens, or has another limit.
use crate::link::Link;
use crate::row::{Row, find};
use qh_base::{Dir, Moment, Reason, ResetToken, VarInt};
use qh_conn::{ConnectionEvent, IssuedCid};
use row_text::RowFault;

// Sequence numbers of ids are below this.
const SEQUENCE_END: u64 = 1 << 62;

// The word of a row.
#[derive(Clone, Copy)]
enum Change {
    Close,
    CloseEvent,
    Rebind,
    Issue,
    Bear,
    Token,
    SetBidi,
    SetUni,
    SetSend,
    SetReceive,
    Log,
}

const CHANGES: [(&str, Change); 12] = [
    ("close", Change::Close),
    ("close-event", Change::CloseEvent),
    ("rebind", Change::Rebind),
    ("issue", Change::Issue),
    ("bear", Change::Bear),
    ("token", Change::Token),
    ("queue", Change::Token),
    ("set-bidi", Change::SetBidi),
    ("set-uni", Change::SetUni),
    ("set-send", Change::SetSend),
    ("set-receive", Change::SetReceive),
    ("log", Change::Log),
];

/// Makes the change that a word says.
pub(crate) fn make_change(now: Moment, link: &mut Link, word: &str, row: &mut Row<'_>) {
    let Some(change) = find(&CHANGES, word) else {
        return row.fail(RowFault::Form);
    };
    row.put("ok");
    match change {
        Change::Close => {
            let (code, reason) = read_close(row);
            link.connection.close(now, code, reason);
        }
        Change::CloseEvent => link.hand_in(close_event(now, row), row),
        Change::Rebind => link.hand_in(ConnectionEvent::Rebind, row),
        Change::Issue => link.hand_in(issue_event(now, row), row),
        Change::Bear => link.bear(row.payload(), row),
        Change::Token => link.queue_token(row.payload(), row),
        Change::Log => link.start_log(row),
        Change::SetSend => link.connection.set_send_window(row.number()),
        Change::SetReceive => link.connection.set_receive_window(row.varint()),
        Change::SetBidi => link
            .connection
            .set_max_concurrent_streams(Dir::Bi, row.varint()),
        Change::SetUni => link
            .connection
            .set_max_concurrent_streams(Dir::Uni, row.varint()),
    }
}

// [CODE REASON]: code 0 and no reason where nothing is said.
fn read_close(row: &mut Row<'_>) -> (VarInt, Reason) {
    if row.is_at_end() {
        return (VarInt::from_u32(0), Reason::of(b""));
    }
    let code = row.varint();
    (code, Reason::of(&row.bytes()))
}

fn close_event(now: Moment, row: &mut Row<'_>) -> ConnectionEvent {
    let (error_code, reason) = read_close(row);
    ConnectionEvent::Close {
        now,
        error_code,
        reason,
    }
}

// SEQUENCE ID TOKEN ..: the endpoint issued these ids.
fn issue_event(now: Moment, row: &mut Row<'_>) -> ConnectionEvent {
    let mut ids = Vec::new(row.alloc);
    for _id in 0..u64::MAX {
        if row.is_at_end() {
            break;
        }
        if ids.push(issued(row)).is_err() {
            row.fail(RowFault::Memory);
        }
    }
    ConnectionEvent::NewIdentifiers(ids, now)
}

fn issued(row: &mut Row<'_>) -> IssuedCid {
    let sequence = row.number();
    if sequence >= SEQUENCE_END {
        row.fail(RowFault::Form);
    }
    IssuedCid {
        sequence: sequence.min(SEQUENCE_END - 1),
        id: row.id(),
        reset_token: reset_token(row),
    }
}

// The next word as a token of stateless resets.
fn reset_token(row: &mut Row<'_>) -> ResetToken {
    match row.bytes().first_chunk::<16>() {
        Some(token) => ResetToken(*token),
        None => {
            row.fail(RowFault::Form);
            ResetToken([0; 16])
        }
    }
}

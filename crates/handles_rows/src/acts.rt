//! Calls that never wait.
use crate::end::{End, Hands};
use crate::row::{MILLISECOND, Row};
use crate::state::Rows;
use crate::tell::{put_done, put_lost, put_queued};
use qh_base::{Moment, Side};
use qh_handles::{At, Connecting, Connection};
use row_text::RowFault;

/// The word of such a call.
#[derive(Clone, Copy)]
pub(crate) enum Act {
    Get,
    Set,
    Datagram,
    Close,
    Reason,
    Clone,
    End,
    Finish,
    Reset,
    SetPriority,
    Priority,
    Stop,
    Early,
}

pub(crate) const ACTS: [(&str, Act); 13] = [
    ("get", Act::Get),
    ("set", Act::Set),
    ("datagram", Act::Datagram),
    ("close", Act::Close),
    ("reason", Act::Reason),
    ("clone", Act::Clone),
    ("end", Act::End),
    ("finish", Act::Finish),
    ("reset", Act::Reset),
    ("set-priority", Act::SetPriority),
    ("priority", Act::Priority),
    ("stop", Act::Stop),
    ("early", Act::Early),
];

// The word of a getter.
#[derive(Clone, Copy)]
enum Getter {
    Max,
    Space,
    Side,
    Remote,
    Local,
    Rtt,
    MinRtt,
    Stats,
    Congestion,
    Id,
    Data,
}

const GETTERS: [(&str, Getter); 11] = [
    ("max", Getter::Max),
    ("space", Getter::Space),
    ("side", Getter::Side),
    ("remote", Getter::Remote),
    ("local", Getter::Local),
    ("rtt", Getter::Rtt),
    ("min-rtt", Getter::MinRtt),
    ("stats", Getter::Stats),
    ("congestion", Getter::Congestion),
    ("id", Getter::Id),
    ("data", Getter::Data),
];

// The word of a setter.
#[derive(Clone, Copy)]
enum Setter {
    Bidi,
    Uni,
    Send,
    Receive,
}

const SETTERS: [(&str, Setter); 4] = [
    ("bidi", Setter::Bidi),
    ("uni", Setter::Uni),
    ("send", Setter::Send),
    ("receive", Setter::Receive),
];

// What ends.
#[derive(Clone, Copy)]
enum Ended {
    Connecting,
    Connection,
    Send,
    Recv,
}

const HANDLES: [(&str, Ended); 4] = [
    ("connecting", Ended::Connecting),
    ("connection", Ended::Connection),
    ("send", Ended::Send),
    ("recv", Ended::Recv),
];

/// Makes a call.
pub(crate) fn make_call<A: Rows>(end: &mut End<A>, act: Act, now: Moment, row: &mut Row<'_>) {
    let at = &mut end.state;
    let hands = &mut end.hands;
    match act {
        Act::Get => get(at, &hands.connection, row),
        Act::Set => set(at, &hands.connection, row),
        Act::Datagram => {
            let queued = hands.connection.send_datagram(at, row.payload());
            put_queued(&queued, row);
        }
        Act::Close => close(at, &hands.connection, now, row),
        Act::Reason => put_reason(at, &hands.connection, row),
        Act::Clone => clone(at, hands, row),
        Act::End => end_handle(at, hands, row),
        Act::Early => put_early(at, hands.connecting.as_ref(), row),
        other => act_on_stream(at, hands, other, row),
    }
}

// Makes a call on a stream.
fn act_on_stream<A: At>(at: &mut A, hands: &mut Hands, act: Act, row: &mut Row<'_>) {
    if let Act::Stop = act {
        if let Some(stream) = hands.recv(row) {
            put_done(stream.stop(at, row.varint()), row);
        }
        return;
    }
    let Some(stream) = hands.send(row) else {
        return;
    };
    match act {
        Act::Finish => put_done(stream.finish(at), row),
        Act::Reset => put_done(stream.reset(at, row.varint()), row),
        Act::SetPriority => put_done(stream.set_priority(at, row.signed()), row),
        _ => {
            if let Some(told) = row.took(stream.priority(at)) {
                match told {
                    Ok(priority) => row.put_signed(priority),
                    Err(_) => row.put("closed"),
                }
            }
        }
    }
}

// NAME: a value of the connection.
fn get<A: Rows>(at: &mut A, connection: &Connection, row: &mut Row<'_>) {
    let Some(getter) = row.find(&GETTERS) else {
        return;
    };
    match getter {
        Getter::Max => match row.took(connection.max_datagram_size(at)) {
            Some(Some(size)) => row.put_count("", size as u64),
            _ => row.put("none"),
        },
        Getter::Space => {
            let space = row.took(connection.datagram_send_buffer_space(at));
            row.put_count("", space.unwrap_or(0) as u64);
        }
        Getter::Side => match row.took(connection.side(at)) {
            Some(Side::Client) => row.put("client"),
            _ => row.put("server"),
        },
        Getter::Remote => {
            if let Some(address) = row.took(connection.remote_address(at)) {
                row.put_address(address);
            }
        }
        Getter::Local => match row.took(connection.local_ip(at)) {
            Some(Some(ip)) => row.put_ip(ip),
            _ => row.put("none"),
        },
        other => get_told(at, connection, other, row),
    }
}

// The same of values that the book doesn't have.
fn get_told<A: Rows>(at: &mut A, connection: &Connection, getter: Getter, row: &mut Row<'_>) {
    match getter {
        Getter::Rtt => {
            if let Some(span) = row.took(connection.rtt(at)) {
                row.put_count("", span.0 / MILLISECOND);
            }
        }
        Getter::MinRtt => {
            if let Some(span) = row.took(connection.min_rtt(at)) {
                row.put_count("", span.0 / MILLISECOND);
            }
        }
        Getter::Stats => put_stats(at, connection, row),
        Getter::Congestion => {
            if let Some(metrics) = row.took(connection.congestion_state(at)) {
                row.put_count("window ", metrics.congestion_window);
                row.put_count(" threshold ", metrics.ssthresh.unwrap_or(0));
            }
        }
        Getter::Data => match row.took(connection.handshake_data(at)) {
            Some(Some(data)) => A::put_data(&data, row),
            _ => row.put("none"),
        },
        _ => {
            if let Some(id) = row.took(connection.stable_id(at)) {
                row.put_count("", id);
            }
        }
    }
}

fn put_stats<A: At>(at: &mut A, connection: &Connection, row: &mut Row<'_>) {
    if let Some(stats) = row.took(connection.stats(at)) {
        row.put_counts("sent ", stats.datagrams_sent, stats.bytes_sent);
        row.put_counts(" received ", stats.datagrams_received, stats.bytes_received);
        row.put_counts(" lost ", stats.packets_lost, stats.probes);
    }
}

// NAME NUMBER: changes a setting of the connection.
fn set<A: At>(at: &mut A, connection: &Connection, row: &mut Row<'_>) {
    row.put("ok");
    let Some(setter) = row.find(&SETTERS) else {
        return;
    };
    let value = row.varint();
    let done = match setter {
        Setter::Bidi => connection.set_max_concurrent_bi_streams(at, value),
        Setter::Uni => connection.set_max_concurrent_uni_streams(at, value),
        Setter::Send => connection.set_send_window(at, value.into_inner()),
        Setter::Receive => connection.set_receive_window(at, value),
    };
    row.note(done);
}

// CODE REASON: closes the connection.
fn close<A: At>(at: &mut A, connection: &Connection, now: Moment, row: &mut Row<'_>) {
    row.put("ok");
    let code = row.varint();
    let reason = row.bytes();
    row.note(connection.close(at, now, code, &reason));
}

// Puts why the connection is lost.
fn put_reason<A: At>(at: &mut A, connection: &Connection, row: &mut Row<'_>) {
    match row.took(connection.close_reason(at)) {
        Some(Some(cause)) => put_lost(&cause, row),
        _ => row.put("none"),
    }
}

// Another handle of the connection.
fn clone<A: At>(at: &mut A, hands: &mut Hands, row: &mut Row<'_>) {
    if let Some(connection) = row.took(hands.connection.try_clone(at)) {
        row.put("connection");
        hands.hold(connection, row);
    }
}

// connecting|connection|send STREAM|recv STREAM: ends a handle.
fn end_handle<A: At>(at: &mut A, hands: &mut Hands, row: &mut Row<'_>) {
    let Some(ended) = row.find(&HANDLES) else {
        return;
    };
    let is_there = match ended {
        Ended::Connecting => end_connecting(at, hands.connecting.take()),
        Ended::Connection => end_connection(at, hands.held.pop()),
        Ended::Send => match hands.take_send(row.stream()) {
            Some(stream) => {
                stream.end(at);
                true
            }
            None => false,
        },
        Ended::Recv => match hands.take_recv(row.stream()) {
            Some(stream) => {
                stream.end(at);
                true
            }
            None => false,
        },
    };
    if is_there {
        row.put("ok");
    } else {
        row.fail(RowFault::Form);
    }
}

fn end_connecting<A: At>(at: &mut A, connecting: Option<Connecting>) -> bool {
    match connecting {
        Some(connecting) => {
            connecting.end(at);
            true
        }
        None => false,
    }
}

fn end_connection<A: At>(at: &mut A, connection: Option<Connection>) -> bool {
    match connection {
        Some(connection) => {
            connection.end(at);
            true
        }
        None => false,
    }
}

// Both addresses, as a connection tells them whose handshake isn't complete.
fn put_early<A: At>(at: &mut A, connecting: Option<&Connecting>, row: &mut Row<'_>) {
    let Some(connecting) = connecting else {
        return row.put("none");
    };
    if let Some(address) = row.took(connecting.remote_address(at)) {
        row.put_address(address);
    }
    match row.took(connecting.local_ip(at)) {
        Some(Some(ip)) => row.put_ip(ip),
        _ => row.put(" none"),
    }
}

//! Describes packets, and what a connection tells.
use crate::row::Row;
use qh_base::{ConnectionError, Side, TransportErrorCode};
use qh_conn::{EndpointEvent, Event};
use qh_packet::{InitialForm, PlainSession, open_initial, open_packet};
use qh_streams::StreamEvent;

/// Puts the packets of a datagram that the end of a session sent to an end whose ids have this length.
pub(crate) fn put_datagram(
    session: &PlainSession,
    from: Side,
    id_len: usize,
    payload: &[u8],
    row: &mut Row<'_>,
) {
    let Some(form) = InitialForm::read(payload) else {
        return put_data(session, from, id_len, payload, row);
    };
    match open_initial(session, &form, from, 0) {
        Some(packet) => {
            row.put_count(" initial ", packet.number);
            row.put_part(" to ", form.destination);
            if !form.token.is_empty() {
                row.put_part(" token ", form.token);
            }
            row.put_part(" frames ", packet.frames);
        }
        None => row.put(" unknown"),
    }
    if !form.rest.is_empty() {
        row.put(" and");
        put_data(session, from, id_len, form.rest, row);
    }
}

fn put_data(session: &PlainSession, from: Side, id_len: usize, payload: &[u8], row: &mut Row<'_>) {
    let id_len = id_len.min(20);
    let Some(packet) = open_packet(session, payload, id_len, from, 0) else {
        return row.put(" unknown");
    };
    row.put_count(" data ", packet.number);
    row.put_part(
        " to ",
        payload.get(1..id_len.saturating_add(1)).unwrap_or(&[]),
    );
    row.put_part(" frames ", packet.frames);
}

/// Puts what a connection tells the application.
pub(crate) fn put_event(event: &Event, row: &mut Row<'_>) {
    match event {
        Event::HandshakeDataReady => row.put("data"),
        Event::Connected => row.put("connected"),
        Event::ConnectionLost { reason } => {
            row.put("lost ");
            put_cause(reason, row);
        }
        Event::Stream(event) => put_stream_event(*event, row),
        Event::DatagramReceived => row.put("datagram"),
        Event::DatagramsUnblocked => row.put("unblocked"),
    }
}

fn put_stream_event(event: StreamEvent, row: &mut Row<'_>) {
    match event {
        StreamEvent::Opened { dir } => row.put_dir("opened ", dir),
        StreamEvent::Available { dir } => row.put_dir("available ", dir),
        StreamEvent::Readable { id } => row.put_count("readable ", id.0),
        StreamEvent::Writable { id } => row.put_count("writable ", id.0),
        StreamEvent::Finished { id } => row.put_count("finished ", id.0),
        StreamEvent::Stopped { id, code } => {
            row.put_count("stopped ", id.0);
            row.put_count(" code ", code.into_inner());
        }
    }
}

/// Puts what a connection asks of its endpoint.
pub(crate) fn put_endpoint_event(event: &EndpointEvent, row: &mut Row<'_>) {
    match event {
        EndpointEvent::NeedIdentifiers(_, count) => row.put_count("need ", *count),
        EndpointEvent::ResetToken(_, token) => row.put_part("token ", &token.0),
        EndpointEvent::RetireConnectionId(_, sequence, allow_more) => {
            row.put_count("retire ", *sequence);
            row.put(if *allow_more { " more" } else { " full" });
        }
        EndpointEvent::Drained => row.put("drained"),
    }
}

/// Puts why a connection is lost, or isn't made.
pub(crate) fn put_cause(cause: &ConnectionError, row: &mut Row<'_>) {
    match cause {
        ConnectionError::VersionMismatch => row.put("mismatch"),
        ConnectionError::TransportError(error) => put_code("error ", error.code, error.frame, row),
        ConnectionError::ConnectionClosed(close) => {
            put_code("closed ", close.code, close.frame, row);
            row.put_part(" ", close.reason.bytes());
        }
        ConnectionError::ApplicationClosed(close) => {
            row.put_count("application ", close.error_code.into_inner());
            row.put_part(" ", close.reason.bytes());
        }
        ConnectionError::Reset => row.put("reset"),
        ConnectionError::TimedOut => row.put("timed-out"),
        ConnectionError::LocallyClosed => row.put("by-this-end"),
        ConnectionError::CidsExhausted => row.put("exhausted"),
        ConnectionError::Memory => row.put("memory"),
    }
}

// Puts a code, and the type of a frame.
fn put_code(name: &str, code: TransportErrorCode, frame: Option<u64>, row: &mut Row<'_>) {
    row.put_code(name, code.0);
    if let Some(kind) = frame {
        row.put_code(" frame ", kind);
    }
}

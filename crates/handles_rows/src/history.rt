//! How the entries of a history are written.
use crate::row::Row;
use crate::tell::put_lost;
use qh_base::ConnectionError;
use qh_conn::{ConnectionItem, Item, LogEntry};
use qh_quinn::{Call, Getter, Reply, Setting};

/// Puts a call, what it replied, and of a turn what it brought.
pub(crate) fn put_entry<T>(
    call: &Call,
    reply: (&Reply<T>, &[u8]),
    items: (&[LogEntry], Option<&ConnectionError>),
    row: &mut Row<'_>,
) {
    row.put_comma();
    put_call(call, row);
    row.put(": ");
    put_reply(reply.0, reply.1, row);
    for entry in items.0 {
        put_log_entry(entry, row);
    }
    if let Some(error) = items.1 {
        row.put("; ");
        put_lost(error, row);
    }
}

fn put_call(call: &Call, row: &mut Row<'_>) {
    match call {
        Call::Connecting => row.put("connecting"),
        Call::HandshakeData => row.put("data"),
        Call::Open(dir) => row.put_dir("open ", *dir),
        Call::Accept(dir) => row.put_dir("accept ", *dir),
        Call::ReadDatagram => row.put("read-datagram"),
        Call::SendDatagram { payload, wait } => {
            row.put(if *wait { "send-wait " } else { "datagram " });
            row.put_part("", payload);
        }
        Call::CloseReason => row.put("reason"),
        Call::Closed => row.put("closed"),
        Call::Close { error_code, .. } => row.put_count("close ", error_code.into_inner()),
        Call::CloneHandle => row.put("clone"),
        Call::EndHandle => row.put("end"),
        Call::Get(getter) => put_getter(*getter, row),
        Call::Set(setting) => put_setting(*setting, row),
        Call::Drive { now } => row.put_count("turn ", now.0 / crate::row::MILLISECOND),
        other => put_stream_call(other, row),
    }
}

fn put_stream_call(call: &Call, row: &mut Row<'_>) {
    match call {
        Call::Read {
            id,
            max_length,
            is_ordered,
        } => {
            row.put(if *is_ordered { "read " } else { "read-any " });
            row.put_counts("", id.0, *max_length as u64);
        }
        Call::Write { id, payload } => {
            row.put_count("write ", id.0);
            row.put_part(" ", payload);
        }
        Call::Finish(id) => row.put_count("finish ", id.0),
        Call::Reset { id, code } => row.put_counts("reset ", id.0, code.into_inner()),
        Call::Stop { id, code } => row.put_counts("stop ", id.0, code.into_inner()),
        Call::Stopped(id) => row.put_count("stopped ", id.0),
        Call::ReceivedReset(id) => row.put_count("received-reset ", id.0),
        Call::SetPriority { id, priority } => {
            row.put_count("set-priority ", id.0);
            row.put(" ");
            row.put_signed(*priority);
        }
        Call::Priority(id) => row.put_count("priority ", id.0),
        Call::EndSend(id) => row.put_count("end-send ", id.0),
        Call::EndRecv(id) => row.put_count("end-recv ", id.0),
        _ => row.put("?"),
    }
}

fn put_getter(getter: Getter, row: &mut Row<'_>) {
    row.put(match getter {
        Getter::MaxDatagramSize => "get max",
        Getter::DatagramSendBufferSpace => "get space",
        Getter::Side => "get side",
        Getter::RemoteAddress => "get remote",
        Getter::LocalIp => "get local",
        Getter::Rtt => "get rtt",
        Getter::MinRtt => "get min-rtt",
        Getter::Stats => "get stats",
        Getter::CongestionState => "get congestion",
        Getter::StableId => "get id",
        Getter::HandshakeData => "get data",
    });
}

fn put_setting(setting: Setting, row: &mut Row<'_>) {
    match setting {
        Setting::MaxConcurrentUniStreams(count) => row.put_count("set uni ", count.into_inner()),
        Setting::MaxConcurrentBiStreams(count) => row.put_count("set bi ", count.into_inner()),
        Setting::SendWindow(bytes) => row.put_count("set send ", bytes),
        Setting::ReceiveWindow(bytes) => row.put_count("set receive ", bytes.into_inner()),
    }
}

fn put_reply<T>(reply: &Reply<T>, bytes: &[u8], row: &mut Row<'_>) {
    match reply {
        Reply::Pending => row.put("pending"),
        Reply::Opened(id) => row.put_count("stream ", id.0),
        Reply::Bytes { offset, .. } => {
            row.put_count("bytes ", *offset);
            row.put_part(" ", bytes);
        }
        Reply::Ended => row.put("end"),
        Reply::Count(count) => row.put_count("taken ", *count as u64),
        Reply::Code(code) => row.put_code_or_none("code ", *code),
        Reply::Number(number) => row.put_count("", *number),
        Reply::Priority(priority) => row.put_signed(*priority),
        Reply::Done => row.put("ok"),
        Reply::Datagram(_) => row.put_part("datagram ", bytes),
        Reply::MaxDatagramSize(Some(size)) => row.put_count("", *size),
        Reply::MaxDatagramSize(None) => row.put("none"),
        Reply::Side(_) => row.put("side"),
        Reply::RemoteAddress(address) => row.put_address(*address),
        Reply::LocalIp(_) => row.put("ip"),
        Reply::Told(_) => row.put("told"),
        other => put_refusal(other, row),
    }
}

fn put_refusal<T>(reply: &Reply<T>, row: &mut Row<'_>) {
    match reply {
        Reply::ConnectionLost(error) => put_lost(error, row),
        Reply::Reset(code) => row.put_count("reset ", code.into_inner()),
        Reply::Stopped(code) => row.put_count("stopped ", code.into_inner()),
        Reply::ClosedStream => row.put("closed"),
        Reply::IllegalOrderedRead => row.put("illegal"),
        Reply::UnsupportedByPeer => row.put("unsupported"),
        Reply::Disabled => row.put("disabled"),
        Reply::TooLarge => row.put("too-large"),
        Reply::Failed => row.put("failed"),
        _ => row.put("memory"),
    }
}

fn put_log_entry(entry: &LogEntry, row: &mut Row<'_>) {
    match entry {
        LogEntry::Own(item) => put_item(item, row),
        LogEntry::Streams(items) => {
            for item in items {
                put_stream_item(item, row);
            }
        }
    }
}

fn put_item(item: &ConnectionItem, row: &mut Row<'_>) {
    match item {
        ConnectionItem::Connected => row.put("; connected"),
        ConnectionItem::Stream(item) => put_stream_item(item, row),
        ConnectionItem::Datagram(payload) => row.put_part("; datagram ", payload),
        ConnectionItem::DatagramsSent(count) => row.put_count("; sent ", *count as u64),
        ConnectionItem::MaxDatagramSize(Some(size)) => row.put_count("; max ", *size),
        ConnectionItem::MaxDatagramSize(None) => row.put("; max none"),
        ConnectionItem::Lost(error) => {
            row.put("; ");
            put_lost(error, row);
        }
    }
}

fn put_stream_item(item: &Item, row: &mut Row<'_>) {
    row.put("; ");
    match item {
        Item::FirstCredits { bidi, uni } => {
            row.put_counts("credits ", bidi.into_inner(), uni.into_inner());
        }
        Item::Arrived { id, credit } => row.put_counts("arrived ", id.0, credit.into_inner()),
        Item::Run { id, offset, bytes } => {
            row.put_counts("run ", id.0, offset.into_inner());
            row.put_part(" ", bytes);
        }
        Item::End { id, size } => row.put_counts("end ", id.0, *size),
        Item::Reset { id, code, size } => {
            row.put_counts("reset ", id.0, code.into_inner());
            row.put_count(" ", size.into_inner());
        }
        Item::Stop { id, code } => row.put_counts("stop ", id.0, code.into_inner()),
        Item::StreamCredit { id, limit } => {
            row.put_counts("stream-credit ", id.0, limit.into_inner());
        }
        Item::Credit(limit) => row.put_count("credit ", limit.into_inner()),
        Item::Count { dir, count } => {
            row.put_dir("", *dir);
            row.put_count(" ", *count);
        }
        Item::Confirmed { id, to, has_end } => {
            row.put_counts("confirmed ", id.0, *to);
            row.put(if *has_end { " end" } else { "" });
        }
        Item::ResetConfirmed { id } => row.put_count("reset-confirmed ", id.0),
    }
}

//! Describes what the log of a connection has.
use crate::row::Row;
use crate::tell::put_cause;
use qh_conn::{ConnectionItem, Item};

/// Puts the items, `-` if there is none, and `off` if there is no log.
pub(crate) fn put_items(items: &Option<Vec<ConnectionItem>>, row: &mut Row<'_>) {
    let Some(items) = items else {
        return row.put("off");
    };
    for item in items {
        row.put_comma();
        put_item(item, row);
    }
    if items.is_empty() {
        row.put("-");
    }
}

fn put_item(item: &ConnectionItem, row: &mut Row<'_>) {
    match item {
        ConnectionItem::Connected => row.put("connected"),
        ConnectionItem::Stream(item) => put_stream_item(item, row),
        ConnectionItem::Datagram(payload) => row.put_part("datagram ", payload),
        ConnectionItem::DatagramsSent(count) => row.put_count("sent ", *count as u64),
        ConnectionItem::MaxDatagramSize(Some(size)) => row.put_count("max ", *size),
        ConnectionItem::MaxDatagramSize(None) => row.put("max none"),
        ConnectionItem::Lost(error) => {
            row.put("lost ");
            put_cause(error, row);
        }
    }
}

fn put_stream_item(item: &Item, row: &mut Row<'_>) {
    match item {
        Item::FirstCredits { bidi, uni } => {
            row.put_counts("credits ", bidi.into_inner(), uni.into_inner());
        }
        Item::Arrived { id, credit } => row.put_counts("arrived ", id.0, credit.into_inner()),
        Item::Run { id, offset, bytes } => {
            row.put_counts("run ", id.0, offset.into_inner());
            row.put_part(" ", bytes);
        }
        Item::End { id, size } => row.put_counts("end ", id.0, *size),
        Item::Reset { id, code, size } => {
            row.put_counts("reset ", id.0, code.into_inner());
            row.put_count(" ", size.into_inner());
        }
        Item::Stop { id, code } => row.put_counts("stop ", id.0, code.into_inner()),
        Item::StreamCredit { id, limit } => {
            row.put_counts("stream-credit ", id.0, limit.into_inner());
        }
        Item::Credit(limit) => row.put_count("credit ", limit.into_inner()),
        Item::Count { dir, count } => {
            row.put_dir("", *dir);
            row.put_count(" ", *count);
        }
        Item::Confirmed { id, to, has_end } => {
            row.put_counts("confirmed ", id.0, *to);
            row.put(if *has_end { " end" } else { "" });
        }
        Item::ResetConfirmed { id } => row.put_count("reset-confirmed ", id.0),
    }
}

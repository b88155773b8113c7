//! What a log of items keeps.
use crate::answers::{put_dir, put_either, put_form, put_named, put_text};
use qh_base::Dir;
use qh_streams::Item;
use row_text::RowFault;

/// Appends items in their order, `none` where there is none.
pub(crate) fn put_items(out: &mut Vec<u8>, items: &[Item]) -> Result<(), RowFault> {
    if items.is_empty() {
        return put_text(out, "none");
    }
    for (place, item) in items.iter().enumerate() {
        put_next_item(out, place, item)?;
    }
    Ok(())
}

fn put_next_item(out: &mut Vec<u8>, place: usize, item: &Item) -> Result<(), RowFault> {
    put_either(out, place > 0, "; ", "")?;
    put_item(out, item)
}

fn put_item(out: &mut Vec<u8>, item: &Item) -> Result<(), RowFault> {
    match item {
        Item::FirstCredits { bidi, uni } => {
            put_form(
                out,
                "first-credits # #",
                &[bidi.into_inner(), uni.into_inner()],
            )
        }
        Item::Credit(limit) => put_form(out, "credit #", &[limit.into_inner()]),
        Item::Count { dir, count } => put_count(out, *dir, *count),
        other => put_stream_item(out, other),
    }
}

fn put_count(out: &mut Vec<u8>, dir: Dir, count: u64) -> Result<(), RowFault> {
    put_dir(out, "count ", dir)?;
    put_form(out, " #", &[count])
}

// An item of one stream.
fn put_stream_item(out: &mut Vec<u8>, item: &Item) -> Result<(), RowFault> {
    match item {
        Item::Arrived { id, credit } => {
            put_form(out, "arrived # #", &[id.0, credit.into_inner()])
        }
        Item::Run { id, offset, bytes } => put_run(out, id.0, offset.into_inner(), bytes),
        Item::End { id, size } => put_form(out, "end # #", &[id.0, *size]),
        Item::Reset { id, code, size } => {
            let numbers = [id.0, code.into_inner(), size.into_inner()];
            put_form(out, "reset # # #", &numbers)
        }
        Item::Stop { id, code } => put_form(out, "stop # #", &[id.0, code.into_inner()]),
        Item::StreamCredit { id, limit } => {
            put_form(out, "stream-credit # #", &[id.0, limit.into_inner()])
        }
        Item::Confirmed { id, to, has_end } => put_confirmed(out, id.0, *to, *has_end),
        Item::ResetConfirmed { id } => put_form(out, "reset-confirmed #", &[id.0]),
        _ => Err(RowFault::Form),
    }
}

fn put_run(out: &mut Vec<u8>, id: u64, offset: u64, bytes: &[u8]) -> Result<(), RowFault> {
    put_form(out, "run # # ", &[id, offset])?;
    put_named(out, "", bytes)
}

fn put_confirmed(out: &mut Vec<u8>, id: u64, to: u64, has_end: bool) -> Result<(), RowFault> {
    put_form(out, "confirmed # #", &[id, to])?;
    put_either(out, has_end, " end", "")
}

ghost use Rattle.std.specs.Prelude.{◌≡◌, ◌++◌, ℕ, map, codes, decimal, flat_map, option_copied, IfOk, IfSome, OnOk, OnErr};
ghost use Rattle.std.specs.BTreeMap.{get};
ghost use Rattle.std.specs.Ordering.{nat_cmp};
ghost use Rattle.http_header.specs.HeaderMap.{keys, IsHeaderMap};
ghost use Rattle.qh_spec.specs.Echoed.{HasMaps};
ghost use Rattle.qh_spec.specs.Report.{block, entry_block, answer_block, ok_line, newline, head_text, map_lines, name_lines, value_line, body_lines, in_byte_order};
ghost use Rattle.qh_spec.specs.TokenScript.{token_line};
ghost use Rattle.qh_service.specs.Message.{head_of};
ghost use Rattle.qh_script.specs.Report.{HasGrown, HaveMaps, entry_blocks, entry_on, report_by};

use http_header::{HeaderMap, HeaderName};
use qh_base::Memory;
use qh_service::{Entry, Head, Message};
use std::alloc::Global;
use std::collections::BTreeMap;

/// Appends the report of an exchange: for each answer the block of the first entry on its stream, which is `4*i` for the `i`-th
/// answer, wherever that stands in the record, and the block of the answer; then `ok N`. Where a stream has no entry, its answer
/// stands alone. Want of memory, here and below, may leave a part behind what stood there.
pub fn put_report(
    alloc: Global,
    out: &mut Vec<u8>,
    entries: &[Entry],
    answers: &[Message],
) -> Result<(), Memory>
    ensures ok { IfOk result (λ _. out.new.items ≡ out.old.items ++ report_by entries.now answers.now) }
    ensures maps { IfOk result (λ _. HaveMaps entries.now answers.now) }
    ensures err { OnErr result (HasGrown out.old.items out.new.items) }
{
    let firsts = first_entries(alloc, entries)?;
    let mut stream = 0;
    for answer in answers {
        put_exchange(alloc, out, firsts.get(&stream).copied(), stream, answer)?;
        stream += 4;
    }
    put_ok_line(alloc, out, answers.len() as u64)
}

/// Appends the blocks of these entries, in their order.
pub fn put_entries(alloc: Global, out: &mut Vec<u8>, entries: &[Entry]) -> Result<(), Memory>
    ensures ok { IfOk result (λ _. out.new.items ≡ out.old.items ++ flat_map entry_block entries.now) }
    ensures err { OnErr result (HasGrown out.old.items out.new.items) }
{
    for entry in entries {
        put_entry(alloc, out, entry)?;
    }
    Ok(())
}

/// Appends the line `ok N`.
pub fn put_ok_line(alloc: Global, out: &mut Vec<u8>, count: u64) -> Result<(), Memory>
    ensures ok { IfOk result (λ _. out.new.items ≡ out.old.items ++ ok_line count) }
    ensures err { OnErr result (HasGrown out.old.items out.new.items) }
{
    let line = format!(in alloc; "ok {count}\n")?;
    put_text(out, line.as_str())
}

/// Appends a block: its first line, a line for each field, the body's length, the body and a newline, a line for each trailer.
pub fn put_block(
    alloc: Global,
    out: &mut Vec<u8>,
    word: &str,
    stream: u64,
    message: &Message,
) -> Result<(), Memory>
    ensures ok { IfOk result (λ _. out.new.items ≡ out.old.items ++ block word.now stream message.now) }
    ensures maps { IfOk result (λ _. HasMaps message.now) }
    ensures err { OnErr result (HasGrown out.old.items out.new.items) }
{
    put_first_line(alloc, out, word, stream, message.head())?;
    put_map(alloc, out, "field", message.fields())?;
    put_body(alloc, out, message.body())?;
    match message.trailers() {
        Some(trailers) => put_map(alloc, out, "trailer", trailers),
        None => Ok(()),
    }
}

/// Appends the line of a token: `ok` where it counts, else `reused`.
pub fn put_token_line(out: &mut Vec<u8>, counts: bool) -> Result<(), Memory>
    ensures ok { IfOk result (λ _. out.new.items ≡ out.old.items ++ token_line counts) }
    ensures err { OnErr result (HasGrown out.old.items out.new.items) }
{
    put_text(out, if counts { "ok\n" } else { "reused\n" })
}

// The first entry of each stream.
fn first_entries(alloc: Global, entries: &[Entry]) -> Result<BTreeMap<u64, &Entry>, Memory>
    ensures { IfOk result (λ firsts. (stream : ℕ) → option_copied (get nat_cmp firsts stream) ≡ entry_on stream entries.now) }
{
    let mut firsts = BTreeMap::new(alloc);
    let mut left = entries.len();
    while left > 0 {
        left -= 1;
        let entry = &entries[left];
        firsts.insert(entry.stream, entry)?;
    }
    Ok(firsts)
}

// The block of an entry, where there is one, and that of the answer on its stream.
fn put_exchange(
    alloc: Global,
    out: &mut Vec<u8>,
    entry: Option<&Entry>,
    stream: u64,
    answer: &Message,
) -> Result<(), Memory>
    ensures ok { OnOk result (out.new.items ≡ out.old.items ++ (entry_blocks (option_copied entry.entry) ++ answer_block stream answer.now)) }
    ensures maps { IfOk result (λ _. IfSome (option_copied entry.entry) (λ e. HasMaps e.request) × HasMaps answer.now) }
    ensures err { OnErr result (HasGrown out.old.items out.new.items) }
{
    put_entry_of(alloc, out, entry)?;
    put_block(alloc, out, "answer", stream, answer)
}

// The block of an entry, where there is one.
fn put_entry_of(alloc: Global, out: &mut Vec<u8>, entry: Option<&Entry>) -> Result<(), Memory>
    ensures ok { OnOk result (out.new.items ≡ out.old.items ++ entry_blocks (option_copied entry.entry)) }
    ensures maps { IfOk result (λ _. IfSome (option_copied entry.entry) (λ e. HasMaps e.request)) }
    ensures err { OnErr result (HasGrown out.old.items out.new.items) }
{
    match entry {
        Some(entry) => put_entry(alloc, out, entry),
        None => Ok(()),
    }
}

// The block of an entry.
fn put_entry(alloc: Global, out: &mut Vec<u8>, entry: &Entry) -> Result<(), Memory>
    ensures ok { OnOk result (out.new.items ≡ out.old.items ++ entry_block entry.now) }
    ensures maps { IfOk result (λ _. HasMaps entry.now.request) }
    ensures err { OnErr result (HasGrown out.old.items out.new.items) }
{
    put_block(alloc, out, "entry", entry.stream, &entry.request)
}

// The line that begins a block.
fn put_first_line(
    alloc: Global,
    out: &mut Vec<u8>,
    word: &str,
    stream: u64,
    head: &Head,
) -> Result<(), Memory>
    ensures ok { OnOk result (out.new.items ≡ out.old.items ++ (word.now ++ (codes " " ++ (decimal stream ++ (codes " " ++ (head_text (head_of head.now) ++ newline)))))) }
    ensures err { OnErr result (HasGrown out.old.items out.new.items) }
{
    let line = match head {
        Head::Request { method, uri } => { format!(in alloc; "{word} {stream} {method} {uri}\n")? }
        Head::Response { status } => {
            let status = status.as_u16();
            format!(in alloc; "{word} {stream} {status}\n")?
        }
    };
    put_text(out, line.as_str())
}

// The line with the body's length, the body, and a newline.
fn put_body(alloc: Global, out: &mut Vec<u8>, body: &[u8]) -> Result<(), Memory>
    ensures ok { OnOk result (out.new.items ≡ out.old.items ++ body_lines body.now) }
    ensures err { OnErr result (HasGrown out.old.items out.new.items) }
{
    let len = body.len();
    let line = format!(in alloc; "body {len}\n")?;
    put_text(out, line.as_str())?;
    out.extend_from_slice(body)?;
    put_text(out, "\n")
}

// A line for each value, by names in byte order, each name's values in order.
fn put_map(alloc: Global, out: &mut Vec<u8>, word: &str, fields: &HeaderMap) -> Result<(), Memory>
    ensures ok { OnOk result (out.new.items ≡ out.old.items ++ map_lines word.now fields.now) }
    ensures valid { IsHeaderMap fields.now }
    ensures err { OnErr result (HasGrown out.old.items out.new.items) }
{
    if fields.keys_len() == 0 {
        return Ok(());
    }
    let names = names_in_order(alloc, fields)?;
    for name in &names {
        put_values(out, word, name, fields)?;
    }
    Ok(())
}

// A line for each value of this name, in order.
fn put_values(
    out: &mut Vec<u8>,
    word: &str,
    name: &HeaderName,
    fields: &HeaderMap,
) -> Result<(), Memory>
    ensures ok { OnOk result (out.new.items ≡ out.old.items ++ name_lines word.now fields.now name.now) }
    ensures err { OnErr result (HasGrown out.old.items out.new.items) }
{
    for value in fields.get_all(name) {
        put_value(out, word, name.as_str(), value.as_bytes())?;
    }
    Ok(())
}

// The line of a value.
fn put_value(out: &mut Vec<u8>, word: &str, name: &str, value: &[u8]) -> Result<(), Memory>
    ensures ok { OnOk result (out.new.items ≡ out.old.items ++ value_line word.now name.now value.now) }
    ensures err { OnErr result (HasGrown out.old.items out.new.items) }
{
    put_text(out, word)?;
    put_text(out, " ")?;
    put_text(out, name)?;
    put_text(out, " ")?;
    out.extend_from_slice(value)?;
    put_text(out, "\n")
}

// The names of these fields, in byte order.
fn names_in_order(alloc: Global, fields: &HeaderMap) -> Result<Vec<&HeaderName>, Memory>
    ensures { IfOk result (λ names. map (λ name. name.now) names.items ≡ in_byte_order (keys fields.now)) }
{
    let mut names: Vec<&HeaderName> = fields.keys().collect(alloc)?;
    names.sort_by(|a, b| a.as_str().cmp(&b.as_str()))?;
    Ok(names)
}

fn put_text(out: &mut Vec<u8>, text: &str) -> Result<(), Memory>
    ensures ok { OnOk result (out.new.items ≡ out.old.items ++ text.now) }
    ensures err { OnErr result (HasGrown out.old.items out.new.items) }
{
    out.extend_from_slice(text.as_bytes())?;
    Ok(())
}

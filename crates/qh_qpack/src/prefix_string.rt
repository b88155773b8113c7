//! Strings that aren't compressed (RFC 9204, section 4.1.2): a bit H of 0, a length in seven bits, and the bytes.

ghost use Rattle.std.specs.Prelude.{◌≡◌, ◌++◌, OnOk, OnErr};
ghost use Rattle.std.specs.Option.{option_map};
ghost use Rattle.std.specs.Result.{result_map_both};
ghost use Rattle.qh_spec.specs.Section.{string_bytes};
ghost use Rattle.qh_qpack.specs.Grown.{HasGrown};
ghost use Rattle.qh_qpack.specs.SectionAt.{counted, plain_at, string_at};

use crate::{DecoderError, prefix_int};
use qh_base::Memory;

/// So many bytes, and what follows them.
pub(crate) fn counted(count: u64, bytes: &[u8]) -> Option<(&[u8], &[u8])>
    ensures { option_map (λ f. (f.0.now, f.1.now)) result ≡ counted count bytes.now }
{
    if (bytes.len() as u64) < count {
        return None;
    }
    Some(bytes.split_at(count as usize))
}

/// The string that begins the bytes, and what follows it. Its bit H decides before what else may be wrong with it.
pub(crate) fn decode(bytes: &[u8]) -> Result<(&[u8], &[u8]), DecoderError>
    ensures { result_map_both (λ f. (f.0.now, f.1.now)) (λ e. e) result ≡ string_at bytes.now }
{
    match bytes.first() {
        Some(first) if *first >= 128 => Err(DecoderError::Huffman),
        _ => plain(bytes).ok_or(DecoderError::Malformed),
    }
}

/// The same of a bit H of 0.
fn plain(bytes: &[u8]) -> Option<(&[u8], &[u8])>
    ensures { option_map (λ f. (f.0.now, f.1.now)) result ≡ plain_at bytes.now }
{
    let (count, rest) = prefix_int::decode(0, 128, bytes)?;
    counted(count, rest)
}

/// Appends the string. Want of memory may leave a part of it.
pub(crate) fn encode(out: &mut Vec<u8>, text: &[u8]) -> Result<(), Memory>
    ensures ok { OnOk result (out.new.items ≡ out.old.items ++ string_bytes text.now) }
    ensures err { OnErr result (HasGrown out.old.items out.new.items) }
{
    prefix_int::encode(out, 0, 7, text.len() as u64)?;
    out.extend_from_slice(text)?;
    Ok(())
}

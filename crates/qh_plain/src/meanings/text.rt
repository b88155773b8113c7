//! Cuts of a text at a byte.
ghost use Rattle.std.specs.Prelude.{◌≡◌, option_copied};
ghost use Rattle.http_uri.specs.ByteClasses.{index_of, split_once_front, split_once_back};

// Where the byte first stands, or the length.
fn index_of(text: &[u8], byte: u8) -> usize
    ensures { result ≡ index_of byte text.now }
{
    text.iter().take_while(|b| **b != byte).count()
}

/// What lies before the byte, or all of the text where it lacks the byte.
pub(super) fn front(text: &[u8], byte: u8) -> &[u8]
    ensures { result.now ≡ split_once_front byte text.now }
{
    let end = index_of(text, byte);
    match text.get(..end) {
        Some(front) => front,
        None => text,
    }
}

/// What follows the byte, where the text has it.
pub(super) fn back(text: &[u8], byte: u8) -> Option<&[u8]>
    ensures { option_copied result ≡ split_once_back byte text.now }
{
    let end = index_of(text, byte);
    if end < text.len() {
        Some(&text[end + 1..])
    } else {
        None
    }
}

//! Names and values of fields.
ghost use Rattle.std.specs.Prelude.{◌≡◌, ◌↔◌, IsTrue};
ghost use Rattle.http_header.specs.FieldName.{IsFieldName};
ghost use Rattle.http_header.specs.FieldValue.{IsFieldValue};
ghost use Rattle.http_header.specs.Token.{is_value_byte};

use http_header::{MAX_HEADER_NAME_LEN, is_token};

/// Whether the text is a field's name, in any case (RFC 9110, section 5.1).
pub fn is_field_name(text: &[u8]) -> bool
    ensures { IsTrue result ↔ IsFieldName text.now }
{
    text.len() <= MAX_HEADER_NAME_LEN && is_token(text)
}

/// Whether the text is a field's value (RFC 9110, section 5.5). It may be empty.
pub fn is_field_value(text: &[u8]) -> bool
    ensures { IsTrue result ↔ IsFieldValue text.now }
{
    text.iter().all(|b| is_value_byte(*b))
}

fn is_value_byte(b: u8) -> bool
    ensures { result ≡ is_value_byte b }
{
    b == b'\t' || (b >= b' ' && b != 0x7f)
}

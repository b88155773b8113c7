//! The static table (RFC 9204, appendix A).

ghost use Rattle.std.specs.Prelude.{◌≡◌, ◌<◌, map, slice_get, position, IfSome};
ghost use Rattle.std.specs.Option.{option_map};
ghost use Rattle.qh_spec.specs.Section.{same_name, same_field};
ghost use Rattle.qh_spec.specs.StaticTable.{static_table};
ghost use Rattle.qh_qpack.specs.Lines.{line_field};
ghost use Rattle.qh_qpack.specs.Places.{passes, has_name, has_value, places, first_has, rows_among, rows_by_length, row_with};

use crate::HeaderField;
use crate::line::Line;

/// The names and values, by index.
const ROWS: [(&str, &str); 99] = [
    (":authority", ""),
    (":path", "/"),
    ("age", "0"),
    ("content-disposition", ""),
    ("content-length", "0"),
    ("cookie", ""),
    ("date", ""),
    ("etag", ""),
    ("if-modified-since", ""),
    ("if-none-match", ""),
    ("last-modified", ""),
    ("link", ""),
    ("location", ""),
    ("referer", ""),
    ("set-cookie", ""),
    (":method", "CONNECT"),
    (":method", "DELETE"),
    (":method", "GET"),
    (":method", "HEAD"),
    (":method", "OPTIONS"),
    (":method", "POST"),
    (":method", "PUT"),
    (":scheme", "http"),
    (":scheme", "https"),
    (":status", "103"),
    (":status", "200"),
    (":status", "304"),
    (":status", "404"),
    (":status", "503"),
    ("accept", "*/*"),
    ("accept", "application/dns-message"),
    ("accept-encoding", "gzip, deflate, br"),
    ("accept-ranges", "bytes"),
    ("access-control-allow-headers", "cache-control"),
    ("access-control-allow-headers", "content-type"),
    ("access-control-allow-origin", "*"),
    ("cache-control", "max-age=0"),
    ("cache-control", "max-age=2592000"),
    ("cache-control", "max-age=604800"),
    ("cache-control", "no-cache"),
    ("cache-control", "no-store"),
    ("cache-control", "public, max-age=31536000"),
    ("content-encoding", "br"),
    ("content-encoding", "gzip"),
    ("content-type", "application/dns-message"),
    ("content-type", "application/javascript"),
    ("content-type", "application/json"),
    ("content-type", "application/x-www-form-urlencoded"),
    ("content-type", "image/gif"),
    ("content-type", "image/jpeg"),
    ("content-type", "image/png"),
    ("content-type", "text/css"),
    ("content-type", "text/html; charset=utf-8"),
    ("content-type", "text/plain"),
    ("content-type", "text/plain;charset=utf-8"),
    ("range", "bytes=0-"),
    ("strict-transport-security", "max-age=31536000"),
    (
        "strict-transport-security",
        "max-age=31536000; includesubdomains",
    ),
    (
        "strict-transport-security",
        "max-age=31536000; includesubdomains; preload",
    ),
    ("vary", "accept-encoding"),
    ("vary", "origin"),
    ("x-content-type-options", "nosniff"),
    ("x-xss-protection", "1; mode=block"),
    (":status", "100"),
    (":status", "204"),
    (":status", "206"),
    (":status", "302"),
    (":status", "400"),
    (":status", "403"),
    (":status", "421"),
    (":status", "425"),
    (":status", "500"),
    ("accept-language", ""),
    ("access-control-allow-credentials", "FALSE"),
    ("access-control-allow-credentials", "TRUE"),
    ("access-control-allow-headers", "*"),
    ("access-control-allow-methods", "get"),
    ("access-control-allow-methods", "get, post, options"),
    ("access-control-allow-methods", "options"),
    ("access-control-expose-headers", "content-length"),
    ("access-control-request-headers", "content-type"),
    ("access-control-request-method", "get"),
    ("access-control-request-method", "post"),
    ("alt-svc", "clear"),
    ("authorization", ""),
    (
        "content-security-policy",
        "script-src 'none'; object-src 'none'; base-uri 'none'",
    ),
    ("early-data", "1"),
    ("expect-ct", ""),
    ("forwarded", ""),
    ("if-range", ""),
    ("origin", ""),
    ("purpose", "prefetch"),
    ("server", ""),
    ("timing-allow-origin", "*"),
    ("upgrade-insecure-requests", "1"),
    ("user-agent", ""),
    ("x-forwarded-for", ""),
    ("x-frame-options", "deny"),
    ("x-frame-options", "sameorigin"),
];

/// The indexes of the rows of each name, by the length of the name.
const BY_LENGTH: [&[&[u8]]; 33] = [
    &[],
    &[],
    &[],
    &[&[2]],
    &[&[6], &[7], &[11], &[59, 60]],
    &[&[1], &[55]],
    &[&[5], &[29, 30], &[90], &[92]],
    &[
        &[13],
        &[15, 16, 17, 18, 19, 20, 21],
        &[22, 23],
        &[24, 25, 26, 27, 28, 63, 64, 65, 66, 67, 68, 69, 70, 71],
        &[83],
        &[91],
    ],
    &[&[12], &[89]],
    &[&[87], &[88]],
    &[&[0], &[14], &[86], &[95]],
    &[],
    &[&[44, 45, 46, 47, 48, 49, 50, 51, 52, 53, 54]],
    &[&[9], &[10], &[32], &[36, 37, 38, 39, 40, 41], &[84]],
    &[&[4]],
    &[&[31], &[72], &[96], &[97, 98]],
    &[&[42, 43], &[62]],
    &[&[8]],
    &[],
    &[&[3], &[93]],
    &[],
    &[],
    &[&[61]],
    &[&[85]],
    &[],
    &[&[56, 57, 58], &[94]],
    &[],
    &[&[35]],
    &[&[33, 34, 75], &[76, 77, 78]],
    &[&[79], &[81, 82]],
    &[&[80]],
    &[],
    &[&[73, 74]],
];

/// The row at an index.
pub(crate) fn get(index: u64) -> Option<Line<'static>>
    ensures { option_map line_field result ≡ slice_get static_table index }
{
    get_in(&ROWS, index as usize)
}

/// The row at an index of such a table.
fn get_in<'a>(rows: &[(&'a str, &'a str)], index: usize) -> Option<Line<'a>>
    ensures { option_map line_field result ≡ slice_get (map (λ r. record { name = r.0.now; value = r.1.now }) rows.now) index }
{
    let (name, value) = *rows.get(index)?;
    Some(Line {
        name: name.as_bytes(),
        value: value.as_bytes(),
    })
}

/// The least index of a row with the field's name and value.
pub(crate) fn find(field: &HeaderField) -> Option<u64>
    ensures least { result ≡ position (same_field field.now) static_table }
    ensures bound { IfSome result (λ index. index < 99) }
{
    row_with(rows_named(field.name.as_slice()), field.value.as_slice())
}

/// The least index of a row with the field's name.
pub(crate) fn find_name(field: &HeaderField) -> Option<u64>
    ensures least { result ≡ position (same_name field.now) static_table }
    ensures bound { IfSome result (λ index. index < 99) }
{
    first_of(rows_named(field.name.as_slice()))
}

/// The first of these rows.
fn first_of(rows: &[u8]) -> Option<u64>
    ensures { result ≡ slice_get rows.now 0 }
{
    rows.first().map(|index| u64::from(*index))
}

/// The first of these rows that has this value.
fn row_with(rows: &[u8], value: &[u8]) -> Option<u64>
    ensures { result ≡ row_with rows.now value.now }
{
    for index in rows {
        if has_value(*index, value) {
            return Some(u64::from(*index));
        }
    }
    None
}

/// All rows that have this name.
fn rows_named(name: &[u8]) -> &'static [u8]
    ensures { result.now ≡ places (has_name name.now) 0 static_table }
{
    rows_of(&BY_LENGTH, name)
}

/// The rows of this name, among those of names of its length.
fn rows_of<'a>(by_length: &[&[&'a [u8]]], name: &[u8]) -> &'a [u8]
    ensures { result.now ≡ rows_by_length (map (λ names. map (λ rows. rows.now) names.now) by_length.now) name.now }
{
    match by_length.get(name.len()) {
        Some(names) => rows_in(names, name),
        None => &[],
    }
}

/// The rows of this name, among those of several names.
fn rows_in<'a>(names: &[&'a [u8]], name: &[u8]) -> &'a [u8]
    ensures { result.now ≡ rows_among (map (λ rows. rows.now) names.now) name.now }
{
    for rows in names {
        if first_has(rows, name) {
            return rows;
        }
    }
    &[]
}

/// Whether the first of these rows has this name.
fn first_has(rows: &[u8], name: &[u8]) -> bool
    ensures { result ≡ first_has rows.now name.now }
{
    match rows.first() {
        Some(index) => match get(u64::from(*index)) {
            Some(row) => row.name == name,
            None => false,
        },
        None => false,
    }
}

/// Whether the row has this value.
fn has_value(index: u8, value: &[u8]) -> bool
    ensures { result ≡ passes (has_value value.now) (slice_get static_table index) }
{
    match get(u64::from(index)) {
        Some(row) => row.value == value,
        None => false,
    }
}

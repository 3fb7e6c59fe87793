ghost use Rattle.std.specs.Prelude.{◌≡◌, ◌≤◌, ◌<◌, ◌+◌, [], ◌∷◌, All, map, drop, length, MatchOption, ⊤};
ghost use Rattle.std.specs.Option.{option_map};
ghost use Rattle.std.specs.Str.Parse.{digits_value};
ghost use Rattle.httparse.specs.Spans.{header_bytes, IsHeaderWithin};
ghost use Rattle.desk_http.specs.Fields.{content_length, transfer_encoding, desk_token, has_name};
ghost use Rattle.desk_http.specs.Fields.{values_of, is_any, first_of, is_length, length_in, announced};
ghost use Rattle.desk_http.specs.Fields.{length_after, length_by_fields, is_get, is_post};

use crate::HttpFault;
use httparse::spans::HeaderSpan;

/// The most bytes of a body.
const BODY_LIMIT: u64 = 67_108_864;

#[tactic(auto, unfolding(crate::specs::Fields::content_length))]
pub(crate) fn content_length() -> &'static [u8]
    ensures { result.now ≡ content_length }
{
    b"content-length"
}

#[tactic(auto, unfolding(crate::specs::Fields::transfer_encoding))]
fn transfer_encoding() -> &'static [u8]
    ensures { result.now ≡ transfer_encoding }
{
    b"transfer-encoding"
}

#[tactic(auto, unfolding(crate::specs::Fields::desk_token))]
fn desk_token() -> &'static [u8]
    ensures { result.now ≡ desk_token }
{
    b"x-desk-token"
}

#[tactic(auto, unfolding(crate::specs::Fields::is_get))]
pub(crate) fn is_get(method: &[u8]) -> bool
    ensures { result ≡ is_get method.now }
{
    method == b"GET".as_slice()
}

#[tactic(auto, unfolding(crate::specs::Fields::is_post))]
pub(crate) fn is_post(method: &[u8]) -> bool
    ensures { result ≡ is_post method.now }
{
    method == b"POST".as_slice()
}

/// Whether a field has this name.
fn has_name(bytes: &[u8], field: &HeaderSpan, name: &[u8]) -> bool
    requires { IsHeaderWithin (length bytes.now) field.now }
    ensures { result ≡ has_name name.now (header_bytes bytes.now field.now) }
{
    field.name.of(bytes).eq_ignore_ascii_case(name)
}

/// The value of the first field of this name, and the fields behind it.
fn first_named<'b, 'f>(
    bytes: &'b [u8],
    fields: &'f [HeaderSpan],
    name: &[u8],
) -> Option<(&'b [u8], &'f [HeaderSpan])>
    requires { All (IsHeaderWithin (length bytes.now)) fields.now }
    ensures values { MatchOption result (values_of name.now (map (header_bytes bytes.now) fields.now) ≡ [])
        (λ found. values_of name.now (map (header_bytes bytes.now) fields.now) ≡ found.0.now ∷ values_of name.now
        (map (header_bytes bytes.now) found.1.now)) }
    ensures within { MatchOption result ⊤ (λ found. All (IsHeaderWithin (length bytes.now)) found.1.now) }
{
    for (place, field) in fields.iter().enumerate() {
        if has_name(bytes, field, name) {
            return Some((field.value.of(bytes), &fields[place + 1..]));
        }
    }
    None
}

/// The number that one to ten decimal digits write.
fn length_in(value: &[u8]) -> Result<u64, HttpFault>
    ensures { result ≡ length_in value.now }
{
    if value.is_empty() || value.len() > 10 {
        return Err(HttpFault::Bad);
    }
    let mut number = 0u64;
    for digit in value {
        if !digit.is_ascii_digit() {
            return Err(HttpFault::Bad);
        }
        number = number * 10 + u64::from(*digit - b'0');
    }
    Ok(number)
}

/// What the fields announce as the length of the body.
fn announced(bytes: &[u8], fields: &[HeaderSpan]) -> Result<Option<u64>, HttpFault>
    requires { All (IsHeaderWithin (length bytes.now)) fields.now }
    ensures { result ≡ announced (values_of content_length (map (header_bytes bytes.now) fields.now)) }
{
    let Some((value, behind)) = first_named(bytes, fields, content_length()) else {
        return Ok(None);
    };
    if first_named(bytes, behind, content_length()).is_some() {
        return Err(HttpFault::Bad);
    }
    Ok(Some(length_in(value)?))
}

/// Whether the fields announce a coding of the body.
fn is_coded(bytes: &[u8], fields: &[HeaderSpan]) -> bool
    requires { All (IsHeaderWithin (length bytes.now)) fields.now }
    ensures { result ≡ is_any (values_of transfer_encoding (map (header_bytes bytes.now) fields.now)) }
{
    first_named(bytes, fields, transfer_encoding()).is_some()
}

/// The length of the body that comes with these fields.
pub(crate) fn length_by_fields(
    bytes: &[u8],
    fields: &[HeaderSpan],
    post: bool,
) -> Result<u64, HttpFault>
    requires { All (IsHeaderWithin (length bytes.now)) fields.now }
    ensures { result ≡ length_by_fields post (map (header_bytes bytes.now) fields.now) }
{
    let coded = is_coded(bytes, fields);
    match announced(bytes, fields)? {
        None if post || coded => Err(HttpFault::NoLength),
        None => Ok(0),
        Some(_) if coded => Err(HttpFault::NoLength),
        Some(length) if length > BODY_LIMIT => Err(HttpFault::TooLong),
        Some(length) => Ok(length),
    }
}

/// The token that comes with these fields.
pub(crate) fn token<'b>(bytes: &'b [u8], fields: &[HeaderSpan]) -> Option<&'b [u8]>
    requires { All (IsHeaderWithin (length bytes.now)) fields.now }
    ensures { option_map (λ value. value.now) result
        ≡ first_of (values_of desk_token (map (header_bytes bytes.now) fields.now)) }
{
    match first_named(bytes, fields, desk_token()) {
        None => None,
        Some((value, _)) => Some(value),
    }
}

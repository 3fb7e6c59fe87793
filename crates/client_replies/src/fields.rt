ghost use Rattle.std.specs.Prelude.{◌≡◌, ◌<◌, ◌+◌, [], ◌∷◌, All, map, length, MatchOption, ⊤};
ghost use Rattle.httparse.specs.Spans.{header_bytes, IsHeaderWithin};
ghost use Rattle.desk_http.specs.Fields.{content_length, has_name, values_of};
ghost use Rattle.client_replies.specs.Replies.{number_in, length_after};

use crate::ReplyFault;
use httparse::spans::HeaderSpan;

/// The most bytes of a body.
const BODY_LIMIT: u64 = 1_048_576;

#[tactic(auto, unfolding(desk_http::specs::Fields::content_length))]
fn content_length() -> &'static [u8]
    ensures { result.now ≡ content_length }
{
    b"content-length"
}

/// Whether a field is a Content-Length.
fn is_named(bytes: &[u8], field: &HeaderSpan) -> bool
    requires { IsHeaderWithin (length bytes.now) field.now }
    ensures { result ≡ has_name content_length (header_bytes bytes.now field.now) }
{
    field.name.of(bytes).eq_ignore_ascii_case(content_length())
}

/// The value of the first Content-Length, and the fields behind it.
fn first_length<'b, 'f>(
    bytes: &'b [u8],
    fields: &'f [HeaderSpan],
) -> Option<(&'b [u8], &'f [HeaderSpan])>
    requires { All (IsHeaderWithin (length bytes.now)) fields.now }
    ensures values { MatchOption result (values_of content_length (map (header_bytes bytes.now) fields.now) ≡ [])
        (λ found. values_of content_length (map (header_bytes bytes.now) fields.now) ≡ found.0.now ∷ values_of
        content_length (map (header_bytes bytes.now) found.1.now)) }
    ensures within { MatchOption result ⊤ (λ found. All (IsHeaderWithin (length bytes.now)) found.1.now) }
{
    for (place, field) in fields.iter().enumerate() {
        if is_named(bytes, field) {
            return Some((field.value.of(bytes), &fields[place + 1..]));
        }
    }
    None
}

/// The number that one to ten decimal digits write.
fn number_in(value: &[u8]) -> Option<u64>
    ensures { result ≡ number_in value.now }
{
    if value.is_empty() || value.len() > 10 {
        return None;
    }
    let mut number = 0u64;
    for digit in value {
        if !digit.is_ascii_digit() {
            return None;
        }
        number = number * 10 + u64::from(*digit - b'0');
    }
    Some(number)
}

/// The length of the body that comes with these fields.
pub(crate) fn reply_length(bytes: &[u8], fields: &[HeaderSpan]) -> Result<u64, ReplyFault>
    requires { All (IsHeaderWithin (length bytes.now)) fields.now }
    ensures { result ≡ length_after (values_of content_length (map (header_bytes bytes.now) fields.now)) }
{
    let Some((value, behind)) = first_length(bytes, fields) else {
        return Err(ReplyFault::BadReply);
    };
    if first_length(bytes, behind).is_some() {
        return Err(ReplyFault::BadReply);
    }
    match number_in(value) {
        None => Err(ReplyFault::BadReply),
        Some(length) if length > BODY_LIMIT => Err(ReplyFault::TooLong),
        Some(length) => Ok(length),
    }
}

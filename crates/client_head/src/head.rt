ghost use Rattle.std.specs.Prelude.{◌≡◌, ◌≤◌, ◌++◌, IsTrue, IfOk, OnOk};
ghost use Rattle.form_fields.specs.Spelling.{is_token};
ghost use Rattle.desk_http.specs.Fields.{desk_token, content_length};
ghost use Rattle.desk_http.specs.Replies.{colon, crlf, field};
ghost use Rattle.client_head.specs.Heads.{request_line, host, this_machine, request_head, IsHeadOf};

use std::alloc::{AllocError, Global};

#[tactic(auto, unfolding(crate::specs::Heads::request_line))]
fn request_line() -> &'static [u8]
    ensures { result.now ≡ request_line }
{
    b"POST /cases HTTP/1.1"
}

#[tactic(auto, unfolding(crate::specs::Heads::host))]
fn host() -> &'static [u8]
    ensures { result.now ≡ host }
{
    b"host"
}

#[tactic(auto, unfolding(crate::specs::Heads::this_machine))]
fn this_machine() -> &'static [u8]
    ensures { result.now ≡ this_machine }
{
    b"127.0.0.1"
}

#[tactic(auto, unfolding(desk_http::specs::Fields::desk_token))]
fn desk_token() -> &'static [u8]
    ensures { result.now ≡ desk_token }
{
    b"x-desk-token"
}

#[tactic(auto, unfolding(desk_http::specs::Fields::content_length))]
fn content_length() -> &'static [u8]
    ensures { result.now ≡ content_length }
{
    b"content-length"
}

#[tactic(auto, unfolding(desk_http::specs::Replies::colon))]
fn colon() -> &'static [u8]
    ensures { result.now ≡ colon }
{
    b": "
}

/// The end of a line.
#[tactic(auto, unfolding(desk_http::specs::Replies::crlf))]
fn crlf() -> &'static [u8]
    ensures { result.now ≡ crlf }
{
    b"\r\n"
}

/// Puts a field behind a head.
#[tactic(auto, unfolding(desk_http::specs::Replies::field))]
fn add_field(head: &mut Vec<u8>, name: &[u8], value: &[u8]) -> Result<(), AllocError>
    ensures { OnOk result (head.new.items ≡ head.old.items ++ field name.now value.now) }
{
    head.extend_from_slice(name)?;
    head.extend_from_slice(colon())?;
    head.extend_from_slice(value)?;
    head.extend_from_slice(crlf())
}

/// The bytes of the head.
#[tactic(auto, unfolding(crate::specs::Heads::request_head))]
fn head_bytes(alloc: Global, token: &[u8], count: usize) -> Result<Vec<u8>, AllocError>
    ensures { IfOk result (λ head. head.items ≡ request_head token.now count) }
{
    let number = count.to_string(alloc)?;
    let mut head = Vec::from_slice(alloc, request_line())?;
    head.extend_from_slice(crlf())?;
    add_field(&mut head, host(), this_machine())?;
    add_field(&mut head, desk_token(), token)?;
    add_field(&mut head, content_length(), number.as_bytes())?;
    head.extend_from_slice(crlf())?;
    Ok(head)
}

/// The request line and the fields of a submission with this token and a body of so many bytes, which the desk reads as
/// the head of that.
#[tactic(auto, using(crate::proofs::HeadRead::is_head_of))]
pub fn request_head(alloc: Global, token: &[u8], count: usize) -> Result<Vec<u8>, AllocError>
    requires token { IsTrue (is_token token.now) }
    requires count { count ≤ 67108864 }
    ensures bytes { IfOk result (λ head. head.items ≡ request_head token.now count) }
    ensures read { IfOk result (λ head. IsHeadOf token.now count head.items) }
{
    let head = head_bytes(alloc, token, count)?;
    Ok(head)
}

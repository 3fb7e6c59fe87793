ghost use Rattle.std.specs.Prelude.{◌≡◌, ◌≤◌, ◌++◌, ℕ, length, take, IfOk, OnOk, OnErr, Err};
ghost use Rattle.vet_base.specs.Outside.{HasRisen};
ghost use Rattle.http.specs.StatusCode.{IsStatusCode};
ghost use Rattle.desk_http.specs.Replies.{phrase_of, type_of, version, content_type, connection, close, colon};
ghost use Rattle.desk_http.specs.Replies.{space, crlf, status_line, field, reply_head, reply_bytes, Wrote, Sends};

use crate::fields::content_length;
use desk_links::{Link, LinkFault};
use http::StatusCode;
use std::alloc::{AllocError, Global};
use vet_base::Shared;

/// Why a reply was not sent.
#[derive(Clone, Copy, Debug, PartialEq, Eq)]
pub enum SendFault {
    /// The link failed; its count of faults rose.
    Failed,
    Memory,
}

/// What is replied: the status, whether the body is plain text and not JSON, and the body.
#[derive(Drop)]
pub struct Answer {
    pub status: u16,
    pub is_text: bool,
    pub body: Shared<u8>,
}

/// The phrase behind a status.
fn phrase_of(status: u16) -> &'static str
    requires { IsStatusCode status }
    ensures { result.now ≡ phrase_of status }
{
    let Ok(code) = StatusCode::from_u16(status) else {
        return "";
    };
    code.canonical_reason().unwrap_or("")
}

/// The media type of a body.
#[tactic(auto, unfolding(crate::specs::Replies::type_of))]
fn type_of(is_text: bool) -> &'static str
    ensures { result.now ≡ type_of is_text }
{
    if is_text {
        "text/plain"
    } else {
        "application/json"
    }
}

#[tactic(auto, unfolding(crate::specs::Replies::version))]
fn version() -> &'static [u8]
    ensures { result.now ≡ version }
{
    b"HTTP/1.1 "
}

#[tactic(auto, unfolding(crate::specs::Replies::content_type))]
fn content_type() -> &'static [u8]
    ensures { result.now ≡ content_type }
{
    b"content-type"
}

#[tactic(auto, unfolding(crate::specs::Replies::connection))]
fn connection() -> &'static [u8]
    ensures { result.now ≡ connection }
{
    b"connection"
}

#[tactic(auto, unfolding(crate::specs::Replies::close))]
fn close() -> &'static [u8]
    ensures { result.now ≡ close }
{
    b"close"
}

#[tactic(auto, unfolding(crate::specs::Replies::colon))]
fn colon() -> &'static [u8]
    ensures { result.now ≡ colon }
{
    b": "
}

#[tactic(auto, unfolding(crate::specs::Replies::space))]
fn space() -> &'static [u8]
    ensures { result.now ≡ space }
{
    b" "
}

/// The end of a line.
#[tactic(auto, unfolding(crate::specs::Replies::crlf))]
fn crlf() -> &'static [u8]
    ensures { result.now ≡ crlf }
{
    b"\r\n"
}

/// The first line of a reply.
#[tactic(auto, unfolding(crate::specs::Replies::status_line))]
fn status_line(alloc: Global, status: u16) -> Result<Vec<u8>, AllocError>
    requires { IsStatusCode status }
    ensures { IfOk result (λ line. line.items ≡ status_line status) }
{
    let number = status.to_string(alloc)?;
    let mut line = Vec::from_slice(alloc, version())?;
    line.extend_from_slice(number.as_bytes())?;
    line.extend_from_slice(space())?;
    line.extend_from_slice(phrase_of(status).as_bytes())?;
    line.extend_from_slice(crlf())?;
    Ok(line)
}

/// Puts a field behind a head.
#[tactic(auto, unfolding(crate::specs::Replies::field))]
fn add_field(head: &mut Vec<u8>, name: &[u8], value: &[u8]) -> Result<(), AllocError>
    ensures { OnOk result (head.new.items ≡ head.old.items ++ field name.now value.now) }
{
    head.extend_from_slice(name)?;
    head.extend_from_slice(colon())?;
    head.extend_from_slice(value)?;
    head.extend_from_slice(crlf())
}

/// The status line and the fields of a reply with a body of so many bytes.
#[tactic(auto, unfolding(crate::specs::Replies::reply_head))]
fn reply_head(
    alloc: Global,
    status: u16,
    is_text: bool,
    count: usize,
) -> Result<Vec<u8>, AllocError>
    requires { IsStatusCode status }
    ensures { IfOk result (λ head. head.items ≡ reply_head status is_text count) }
{
    let number = count.to_string(alloc)?;
    let mut head = status_line(alloc, status)?;
    add_field(&mut head, content_type(), type_of(is_text).as_bytes())?;
    add_field(&mut head, content_length(), number.as_bytes())?;
    add_field(&mut head, connection(), close())?;
    head.extend_from_slice(crlf())?;
    Ok(head)
}

/// Writes all the bytes, or a front of them where the link fails.
fn write_all<L: Link>(link: &mut L, bytes: &[u8]) -> Result<(), LinkFault>
    ensures all { OnOk result (Wrote (L.told link.old) (L.told link.new) bytes.now) }
    ensures front { OnErr result ((n : ℕ) × (n ≤ length bytes.now) × Wrote (L.told link.old) (L.told link.new)
        (take n bytes.now)) }
    ensures cause { OnErr result (HasRisen (L.fault_count link.old) (L.fault_count link.new)) }
    ensures never_falls { L.fault_count link.old ≤ L.fault_count link.new }
{
    let mut done = 0;
    while done < bytes.len() {
        match link.write(&bytes[done..]) {
            Ok(count) => done += count,
            Err(fault) => return Err(fault),
        }
    }
    Ok(())
}

/// Writes one after the other, or a front of both where the link fails.
fn write_both<L: Link>(link: &mut L, head: &[u8], body: &[u8]) -> Result<(), LinkFault>
    ensures all { OnOk result (Wrote (L.told link.old) (L.told link.new) (head.now ++ body.now)) }
    ensures front { OnErr result ((n : ℕ) × Wrote (L.told link.old) (L.told link.new) (take n (head.now ++ body.now))) }
    ensures cause { OnErr result (HasRisen (L.fault_count link.old) (L.fault_count link.new)) }
    ensures never_falls { L.fault_count link.old ≤ L.fault_count link.new }
{
    if let Err(fault) = write_all(link, head) {
        return Err(fault);
    }
    if let Err(fault) = write_all(link, body) {
        return Err(fault);
    }
    Ok(())
}

/// Writes a reply, after which the connection is to be closed. After `Failed` a front of its bytes was written, and
/// after `Memory` nothing.
pub fn write_reply<L: Link>(alloc: Global, link: &mut L, answer: &Answer) -> Result<(), SendFault>
    requires { IsStatusCode answer.now.status }
    ensures written { Sends (L.told link.old) (L.told link.new) (reply_bytes answer.now.status answer.now.is_text
        answer.now.body) result }
    ensures cause { result ≡ Err SendFault.Failed → HasRisen (L.fault_count link.old) (L.fault_count link.new) }
    ensures never_falls { L.fault_count link.old ≤ L.fault_count link.new }
{
    let Ok(head) = reply_head(alloc, answer.status, answer.is_text, answer.body.len()) else {
        return Err(SendFault::Memory);
    };
    match write_both(link, &head, answer.body.as_slice()) {
        Ok(()) => Ok(()),
        Err(_) => Err(SendFault::Failed),
    }
}

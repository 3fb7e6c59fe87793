ghost use Rattle.std.specs.Prelude.{◌≡◌, ◌≢◌, ◌⊎◌, ◌≤◌, ◌<◌, ◌+◌, ◌++◌, ℕ, List, [], true, false};
ghost use Rattle.std.specs.Prelude.{drop, IfSome, IfOk, IfErr, OnOk, Ok, Err, length, vec_len};
ghost use Rattle.vet_base.specs.Outside.{HasRisen};
ghost use Rattle.desk_http.specs.Came.{Takes, IsAtEnd, TakesSome};
ghost use Rattle.desk_http.specs.Heads.{HasNoEnd, IsHeadEnd};
ghost use Rattle.client_replies.specs.Replies.{Answers};

use crate::head::head_of;
use crate::{Answered, ReplyFault};
use desk_http::{HttpFault, head_end, read_piece};
use desk_links::Link;
use std::alloc::Global;

/// The most bytes of a head.
const HEAD_LIMIT: usize = 16_384;

/// Reads one piece of at most `most` bytes to the end of the buffer. False at the end of the input.
fn read_more<L: Link>(link: &mut L, bytes: &mut Vec<u8>, most: usize) -> Result<bool, ReplyFault>
    requires { 0 < most }
    ensures takes { Takes (L.told link.old) bytes.old.items (L.told link.new) bytes.new.items }
    ensures appended { (piece : List ℕ) × (bytes.new.items ≡ bytes.old.items ++ piece) }
    ensures within { vec_len bytes.new ≤ vec_len bytes.old + most }
    ensures more { result ≡ Ok true → vec_len bytes.old < vec_len bytes.new }
    ensures end { result ≡ Ok false → (bytes.new.items ≡ bytes.old.items) × IsAtEnd (L.told link.new) }
    ensures fault { IfErr result (λ fault. (fault ≡ ReplyFault.ReadFault) ⊎ (fault ≡ ReplyFault.Memory)) }
    ensures cause { result ≡ Err ReplyFault.ReadFault → HasRisen (L.fault_count link.old) (L.fault_count link.new) }
    ensures never_falls { L.fault_count link.old ≤ L.fault_count link.new }
{
    match read_piece(link, bytes, most) {
        Ok(more) => Ok(more),
        Err(HttpFault::ReadFault) => Err(ReplyFault::ReadFault),
        Err(_) => Err(ReplyFault::Memory),
    }
}

/// Reads until the head is there, and gives where it ends.
fn read_head<L: Link>(link: &mut L, bytes: &mut Vec<u8>) -> Result<usize, ReplyFault>
    requires { bytes.old.items ≡ [] }
    ensures takes { Takes (L.told link.old) [] (L.told link.new) bytes.new.items }
    ensures ok { IfOk result (λ end. IsHeadEnd bytes.new.items end × (end ≤ HEAD_LIMIT)) }
    ensures ended { result ≡ Err ReplyFault.Ended → (length bytes.new.items < HEAD_LIMIT) × HasNoEnd bytes.new.items
        (length bytes.new.items) × IsAtEnd (L.told link.new) }
    ensures big { result ≡ Err ReplyFault.TooLong → (length bytes.new.items ≡ HEAD_LIMIT)
        × HasNoEnd bytes.new.items HEAD_LIMIT }
    ensures cause { result ≡ Err ReplyFault.ReadFault → HasRisen (L.fault_count link.old) (L.fault_count link.new) }
    ensures other { IfErr result (λ fault. fault ≢ ReplyFault.BadReply) }
    ensures never_falls { L.fault_count link.old ≤ L.fault_count link.new }
{
    while bytes.len() < HEAD_LIMIT {
        let seen = bytes.len();
        match read_more(link, bytes, HEAD_LIMIT - seen) {
            Ok(true) => {}
            Ok(false) => return Err(ReplyFault::Ended),
            Err(fault) => return Err(fault),
        }
        if let Some(end) = head_end(bytes, seen) {
            return Ok(end);
        }
    }
    Err(ReplyFault::TooLong)
}

/// Reads until the body has so many bytes.
fn read_body<L: Link>(link: &mut L, body: &mut Vec<u8>, count: usize) -> Result<(), ReplyFault>
    ensures takes { Takes (L.told link.old) body.old.items (L.told link.new) body.new.items }
    ensures ok { OnOk result (count ≤ length body.new.items) }
    ensures ended { result ≡ Err ReplyFault.Ended → (length body.new.items < count) × IsAtEnd (L.told link.new) }
    ensures cause { result ≡ Err ReplyFault.ReadFault → HasRisen (L.fault_count link.old) (L.fault_count link.new) }
    ensures other { IfErr result (λ fault. (fault ≡ ReplyFault.Ended) ⊎ (fault ≡ ReplyFault.ReadFault)
        ⊎ (fault ≡ ReplyFault.Memory)) }
    ensures never_falls { L.fault_count link.old ≤ L.fault_count link.new }
{
    while body.len() < count {
        let missing = count - body.len();
        match read_more(link, body, missing) {
            Ok(true) => {}
            Ok(false) => return Err(ReplyFault::Ended),
            Err(fault) => return Err(fault),
        }
    }
    Ok(())
}

/// A copy of the bytes behind a place.
fn behind(alloc: Global, bytes: &[u8], place: usize) -> Result<Vec<u8>, ReplyFault>
    requires { place ≤ length bytes.now }
    ensures ok { IfOk result (λ copied. copied.items ≡ drop place bytes.now) }
    ensures err { IfErr result (λ fault. fault ≡ ReplyFault.Memory) }
{
    Ok(bytes[place..].to_vec(alloc)?)
}

/// Reads one reply (RFC 9112): a head of at most 16,384 bytes and 64 fields, and a body of as many
/// bytes as its one Content-Length says, at most 1,048,576. However the input is cut into pieces,
/// the answer is that of the bytes that come: the reply with which they begin, or their first fault
/// in the order `TooLong` of the head, `BadReply`, `TooLong` of the length, `Ended`. `ReadFault`
/// comes only where the link failed in this call. Memory grows with the bytes that came and not with
/// the length that is announced. What is read behind the reply is lost, so a connection serves one.
pub fn read_reply<L: Link>(alloc: Global, link: &mut L) -> Result<Answered, ReplyFault>
    ensures answer { IfSome (L.told link.old) (λ told. Answers told.coming result) }
    ensures taken { TakesSome (L.told link.old) (L.told link.new) }
    ensures cause { result ≡ Err ReplyFault.ReadFault → HasRisen (L.fault_count link.old) (L.fault_count link.new) }
    ensures never_falls { L.fault_count link.old ≤ L.fault_count link.new }
{
    let mut bytes = Vec::new(alloc);
    let end = match read_head(link, &mut bytes) {
        Ok(end) => end,
        Err(fault) => return Err(fault),
    };
    let head = match head_of(alloc, &bytes[..end]) {
        Ok(head) => head,
        Err(fault) => return Err(fault),
    };
    let mut body = behind(alloc, &bytes, end)?;
    let length = head.length as usize;
    if let Err(fault) = read_body(link, &mut body, length) {
        return Err(fault);
    }
    body.truncate(length);
    Ok(Answered {
        status: head.status,
        body,
    })
}

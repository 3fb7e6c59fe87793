ghost use Rattle.std.specs.Prelude.{◌≡◌, ◌≢◌, ◌⊎◌, ◌≤◌, ◌<◌, [], drop, IfSome, IfOk, IfErr, OnOk, Ok, Err, length};
ghost use Rattle.vet_base.specs.Outside.{HasRisen};
ghost use Rattle.desk_http.specs.Came.{Takes, IsAtEnd, TakesSome};
ghost use Rattle.desk_http.specs.Heads.{HasNoEnd, IsHeadEnd};
ghost use Rattle.desk_http.specs.Requests.{Answers};

use crate::empty_line::head_end;
use crate::head::head_of;
use crate::piece::read_piece;
use crate::{Asked, HttpFault};
use desk_links::Link;
use std::alloc::Global;

/// The most bytes of a head.
const HEAD_LIMIT: usize = 16_384;

/// Reads until the head is there, and gives where it ends.
fn read_head<L: Link>(link: &mut L, bytes: &mut Vec<u8>) -> Result<usize, HttpFault>
    requires { bytes.old.items ≡ [] }
    ensures takes { Takes (L.told link.old) [] (L.told link.new) bytes.new.items }
    ensures ok { IfOk result (λ end. IsHeadEnd bytes.new.items end × (end ≤ HEAD_LIMIT)) }
    ensures ended { result ≡ Err HttpFault.Ended → (length bytes.new.items < HEAD_LIMIT) × HasNoEnd bytes.new.items
        (length bytes.new.items) × IsAtEnd (L.told link.new) }
    ensures big { result ≡ Err HttpFault.BigHead → (length bytes.new.items ≡ HEAD_LIMIT)
        × HasNoEnd bytes.new.items HEAD_LIMIT }
    ensures cause { result ≡ Err HttpFault.ReadFault → HasRisen (L.fault_count link.old) (L.fault_count link.new) }
    ensures other { IfErr result (λ fault. (fault ≢ HttpFault.Bad) × (fault ≢ HttpFault.NoLength)
        × (fault ≢ HttpFault.TooLong)) }
    ensures never_falls { L.fault_count link.old ≤ L.fault_count link.new }
{
    while bytes.len() < HEAD_LIMIT {
        let seen = bytes.len();
        match read_piece(link, bytes, HEAD_LIMIT - seen) {
            Ok(true) => {}
            Ok(false) => return Err(HttpFault::Ended),
            Err(fault) => return Err(fault),
        }
        if let Some(end) = head_end(bytes, seen) {
            return Ok(end);
        }
    }
    Err(HttpFault::BigHead)
}

/// Reads until the body has so many bytes.
fn read_body<L: Link>(link: &mut L, body: &mut Vec<u8>, count: usize) -> Result<(), HttpFault>
    ensures takes { Takes (L.told link.old) body.old.items (L.told link.new) body.new.items }
    ensures ok { OnOk result (count ≤ length body.new.items) }
    ensures ended { result ≡ Err HttpFault.Ended → (length body.new.items < count) × IsAtEnd (L.told link.new) }
    ensures cause { result ≡ Err HttpFault.ReadFault → HasRisen (L.fault_count link.old) (L.fault_count link.new) }
    ensures other { IfErr result (λ fault. (fault ≡ HttpFault.Ended) ⊎ (fault ≡ HttpFault.ReadFault)
        ⊎ (fault ≡ HttpFault.Memory)) }
    ensures never_falls { L.fault_count link.old ≤ L.fault_count link.new }
{
    while body.len() < count {
        let missing = count - body.len();
        match read_piece(link, body, missing) {
            Ok(true) => {}
            Ok(false) => return Err(HttpFault::Ended),
            Err(fault) => return Err(fault),
        }
    }
    Ok(())
}

/// A copy of the bytes behind a place.
fn behind(alloc: Global, bytes: &[u8], place: usize) -> Result<Vec<u8>, HttpFault>
    requires { place ≤ length bytes.now }
    ensures ok { IfOk result (λ copied. copied.items ≡ drop place bytes.now) }
    ensures err { IfErr result (λ fault. fault ≡ HttpFault.Memory) }
{
    Ok(bytes[place..].to_vec(alloc)?)
}

/// Reads one request. However the input is cut into pieces, the answer is that of the bytes that come: the request with
/// which they begin, or their first fault in the order `BigHead`, `Bad`, `NoLength`, `TooLong`, `Ended`. Memory grows
/// with the bytes that came and not with the length that is announced. What is read behind the request is lost, so a
/// connection serves one.
pub fn read_request<L: Link>(alloc: Global, link: &mut L) -> Result<Asked, HttpFault>
    ensures answer { IfSome (L.told link.old) (λ told. Answers told.coming result) }
    ensures taken { TakesSome (L.told link.old) (L.told link.new) }
    ensures cause { result ≡ Err HttpFault.ReadFault → HasRisen (L.fault_count link.old) (L.fault_count link.new) }
    ensures never_falls { L.fault_count link.old ≤ L.fault_count link.new }
{
    let mut bytes = Vec::new(alloc);
    let end = match read_head(link, &mut bytes) {
        Ok(end) => end,
        Err(fault) => return Err(fault),
    };
    let head = match head_of(alloc, &bytes[..end]) {
        Ok(head) => head,
        Err(fault) => return Err(fault),
    };
    let mut body = behind(alloc, &bytes, end)?;
    let length = head.length as usize;
    if let Err(fault) = read_body(link, &mut body, length) {
        return Err(fault);
    }
    body.truncate(length);
    Ok(Asked {
        post: head.post,
        path: head.path,
        token: head.token,
        body,
    })
}

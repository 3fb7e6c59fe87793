ghost use Rattle.std.specs.Prelude.{◌≡◌, ◌≤◌, ◌<◌, ◌⊎◌, length, IfOk, IfErr, Err};
ghost use Rattle.httparse.specs.Grammar.{RequestHead};
ghost use Rattle.httparse.specs.Spans.{IsRequestAt, IsRequestWithin};
ghost use Rattle.desk_http.specs.Heads.{IsWholeHead, IsNoHead};
ghost use Rattle.desk_http.specs.Requests.{AnswersHead};

use crate::HttpFault;
use crate::fields::{is_get, is_post, length_by_fields, token};
use httparse::Status;
use httparse::spans::{EMPTY_HEADER_SPAN, HeaderSpan, RequestSpans, parse_request};
use std::alloc::Global;
use vet_base::Name;

/// The most fields of a head.
const FIELD_LIMIT: usize = 64;

/// What a head says: whether it is a POST, its target, its token, and the length of the body behind it.
#[derive(Drop)]
pub(crate) struct Head {
    pub(crate) post: bool,
    pub(crate) path: Name,
    pub(crate) token: Option<Name>,
    pub(crate) length: u64,
}

/// Where the parts of a head lie.
#[derive(Drop)]
struct Parts {
    spans: RequestSpans,
    fields: Vec<HeaderSpan>,
}

/// Parses bytes that are to be a head as a whole, with room for every field that they can hold.
fn parts_of(alloc: Global, bytes: &[u8]) -> Result<Parts, HttpFault>
    requires { length bytes.now ≤ 16384 }
    ensures ok { IfOk result (λ parts. (head : RequestHead) × IsWholeHead bytes.now head × (length head.fields ≤ 64)
        × IsRequestAt bytes.now parts.fields.items parts.spans head) }
    ensures within { IfOk result (λ parts. IsRequestWithin bytes.now parts.fields.items parts.spans
        × (parts.spans.len ≡ length bytes.now)) }
    ensures bad { result ≡ Err HttpFault.Bad → IsNoHead bytes.now }
    ensures big { result ≡ Err HttpFault.BigHead → (head : RequestHead) × IsWholeHead bytes.now head
        × (64 < length head.fields) }
    ensures other { IfErr result (λ fault. (fault ≡ HttpFault.Bad) ⊎ (fault ≡ HttpFault.BigHead)
        ⊎ (fault ≡ HttpFault.Memory)) }
{
    let mut fields = vec![in alloc; EMPTY_HEADER_SPAN; bytes.len()]?;
    match parse_request(bytes, fields.as_mut_slice()) {
        Ok(Status::Complete(spans)) => {
            if spans.len < bytes.len() {
                return Err(HttpFault::Bad);
            }
            if spans.headers > FIELD_LIMIT {
                return Err(HttpFault::BigHead);
            }
            Ok(Parts { spans, fields })
        }
        Ok(Status::Partial) => Err(HttpFault::Bad),
        Err(_) => Err(HttpFault::Bad),
    }
}

/// What bytes that are to be a head as a whole say.
pub(crate) fn head_of(alloc: Global, bytes: &[u8]) -> Result<Head, HttpFault>
    requires { length bytes.now ≤ 16384 }
    ensures { AnswersHead bytes.now result }
{
    let Parts { spans, fields } = parts_of(alloc, bytes)?;
    let fields = &fields[..spans.headers];
    let method = spans.method.of(bytes);
    let post = is_post(method);
    if !post && !is_get(method) {
        return Err(HttpFault::Bad);
    }
    let length = length_by_fields(bytes, fields, post)?;
    let path = Name::from_bytes(alloc, spans.path.of(bytes))?;
    let token = match token(bytes, fields) {
        None => None,
        Some(value) => Some(Name::from_bytes(alloc, value)?),
    };
    Ok(Head {
        post,
        path,
        token,
        length,
    })
}

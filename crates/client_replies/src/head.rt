ghost use Rattle.std.specs.Prelude.{◌≡◌, ◌≤◌, ◌<◌, ◌⊎◌, length, IfOk, IfErr, Err};
ghost use Rattle.httparse.specs.Grammar.{ResponseHead};
ghost use Rattle.httparse.specs.Spans.{IsResponseAt, IsResponseWithin};
ghost use Rattle.client_replies.specs.Replies.{IsWholeHead, IsNoHead, AnswersHead};

use crate::ReplyFault;
use crate::fields::reply_length;
use httparse::Status;
use httparse::spans::{EMPTY_HEADER_SPAN, HeaderSpan, ResponseSpans, parse_response};
use std::alloc::Global;

/// The most fields of a head.
const FIELD_LIMIT: usize = 64;

/// What a head says: its status, and the length of the body behind it.
#[derive(Clone, Copy)]
pub(crate) struct Head {
    pub(crate) status: u16,
    pub(crate) length: u64,
}

/// Where the parts of a head lie.
#[derive(Drop)]
struct Parts {
    spans: ResponseSpans,
    fields: Vec<HeaderSpan>,
}

/// Parses bytes that are to be a head as a whole, with room for every field that they can hold.
fn parts_of(alloc: Global, bytes: &[u8]) -> Result<Parts, ReplyFault>
    requires { length bytes.now ≤ 16384 }
    ensures ok { IfOk result (λ parts. (head : ResponseHead) × IsWholeHead bytes.now head × (length head.fields ≤ 64)
        × IsResponseAt bytes.now parts.fields.items parts.spans head) }
    ensures within { IfOk result (λ parts. IsResponseWithin bytes.now parts.fields.items parts.spans
        × (parts.spans.len ≡ length bytes.now)) }
    ensures bad { result ≡ Err ReplyFault.BadReply → IsNoHead bytes.now }
    ensures big { result ≡ Err ReplyFault.TooLong → (head : ResponseHead) × IsWholeHead bytes.now head
        × (64 < length head.fields) }
    ensures other { IfErr result (λ fault. (fault ≡ ReplyFault.BadReply) ⊎ (fault ≡ ReplyFault.TooLong)
        ⊎ (fault ≡ ReplyFault.Memory)) }
{
    let mut fields = vec![in alloc; EMPTY_HEADER_SPAN; bytes.len()]?;
    match parse_response(bytes, fields.as_mut_slice()) {
        Ok(Status::Complete(spans)) => {
            if spans.len < bytes.len() {
                return Err(ReplyFault::BadReply);
            }
            if spans.headers > FIELD_LIMIT {
                return Err(ReplyFault::TooLong);
            }
            Ok(Parts { spans, fields })
        }
        Ok(Status::Partial) => Err(ReplyFault::BadReply),
        Err(_) => Err(ReplyFault::BadReply),
    }
}

/// What bytes that are to be a head as a whole say.
pub(crate) fn head_of(alloc: Global, bytes: &[u8]) -> Result<Head, ReplyFault>
    requires { length bytes.now ≤ 16384 }
    ensures { AnswersHead bytes.now result }
{
    let Parts { spans, fields } = parts_of(alloc, bytes)?;
    let length = reply_length(bytes, &fields[..spans.headers])?;
    Ok(Head {
        status: spans.code,
        length,
    })
}

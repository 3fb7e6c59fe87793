ghost use Rattle.std.specs.Prelude.{◌≡◌, IfOk, IfSome};
ghost use Rattle.http.specs.StatusCode.{IsStatusCode};
ghost use Rattle.desk_answers.specs.Answers.{json_answer, text_answer, error_answer, answer_of, answer_to_fault};
ghost use Rattle.desk_answers.specs.Texts.{refusal_status, refusal_text, no_memory, store_failed};

use crate::bodies::{decided_body, error_body, no_memory_body, ruled_body, state_body};
use crate::lines::lines_body;
use crate::refused::{refusal_status, refusal_text};
use crate::shown::shown_body;
use case_rules::{Refusal, Reply, State};
use desk_http::{Answer, HttpFault};
use std::alloc::Global;
use store_office::Role;
use vet_base::{Memory, Shared};

fn json_answer(alloc: Global, status: u16, body: Vec<u8>) -> Result<Answer, Memory>
    ensures { IfOk result (λ answer. answer ≡ json_answer status body.items) }
{
    Ok(Answer {
        status,
        is_text: false,
        body: Shared::from_vec(alloc, body)?,
    })
}

/// The answer with this status that says why nothing was done: `{"error":TEXT}`. Each byte of the text stands for the
/// character of that number.
pub fn error_answer(alloc: Global, status: u16, text: &[u8]) -> Result<Answer, Memory>
    ensures { IfOk result (λ answer. answer ≡ error_answer status text.now) }
{
    json_answer(alloc, status, error_body(alloc, text)?)
}

fn refusal_answer(alloc: Global, refusal: Refusal) -> Result<Answer, Memory>
    ensures { IfOk result (λ answer. answer ≡ error_answer (refusal_status refusal) (refusal_text refusal)) }
{
    let text = refusal_text(alloc, refusal)?;
    error_answer(alloc, refusal_status(refusal), text.as_bytes())
}

fn text_answer(report: &Shared<u8>) -> Result<Answer, Memory>
    ensures { IfOk result (λ answer. answer ≡ text_answer report.now) }
{
    Ok(Answer {
        status: 200,
        is_text: true,
        body: report.copy()?,
    })
}

fn told(alloc: Global, role: Role, reply: &Reply) -> Result<Answer, Memory>
    ensures { IfOk result (λ answer. answer ≡ answer_of role reply.now) }
{
    match reply {
        Reply::Added(reference) => {
            let body = state_body(alloc, reference.as_bytes(), State::Queued)?;
            json_answer(alloc, 201, body)
        }
        Reply::Kept(reference, state) => {
            let body = state_body(alloc, reference.as_bytes(), *state)?;
            json_answer(alloc, 200, body)
        }
        Reply::Decided(developer, reference, outcome) => {
            let body = decided_body(alloc, developer.as_bytes(), reference.as_bytes(), *outcome)?;
            json_answer(alloc, 200, body)
        }
        Reply::Shown(case) => json_answer(alloc, 200, shown_body(alloc, case)?),
        Reply::Text(report) => text_answer(report),
        Reply::Appealed(reference) => {
            let body = state_body(alloc, reference.as_bytes(), State::Appealed)?;
            json_answer(alloc, 200, body)
        }
        Reply::Ruled(developer, reference, ruling) => {
            let body = ruled_body(alloc, developer.as_bytes(), reference.as_bytes(), *ruling)?;
            json_answer(alloc, 200, body)
        }
        Reply::Lines(lines) => {
            json_answer(alloc, 200, lines_body(alloc, role, lines.as_slice())?)
        }
        Reply::No(refusal) => refusal_answer(alloc, *refusal),
    }
}

/// What a party in this role is told of a reply: 201 for a case that was added, 403, 404 or 409 for a refusal, else
/// 200. The body is JSON, compact and with keys in byte order, and for a report its own bytes, which are not copied.
/// Days count from 1 January 1970, and each byte of a name stands for the character of that number.
pub fn answer_of(alloc: Global, role: Role, reply: &Reply) -> Result<Answer, Memory>
    ensures told { IfOk result (λ answer. answer ≡ answer_of role reply.now) }
    ensures coded { IfOk result (λ answer. IsStatusCode answer.status) }
{
    let answer = told(alloc, role, reply)?;
    Ok(answer)
}

/// What is told of a fault of a head, and nothing where the connection ended or failed.
#[tactic(auto, unfolding(crate::specs::Texts::bad_request, crate::specs::Texts::length_required, crate::specs::Texts::body_too_long, crate::specs::Texts::head_too_long))]
pub fn answer_to_fault(alloc: Global, fault: HttpFault) -> Result<Option<Answer>, Memory>
    ensures told { IfOk result (λ answer. answer ≡ answer_to_fault fault) }
    ensures coded { IfOk result (λ answer. IfSome answer (λ a. IsStatusCode a.status)) }
{
    match fault {
        HttpFault::Ended | HttpFault::ReadFault => Ok(None),
        HttpFault::Bad => Ok(Some(error_answer(alloc, 400, b"bad request")?)),
        HttpFault::NoLength => Ok(Some(error_answer(alloc, 411, b"length required")?)),
        HttpFault::TooLong => Ok(Some(error_answer(alloc, 413, b"body too long")?)),
        HttpFault::BigHead => Ok(Some(error_answer(alloc, 431, b"head too long")?)),
        HttpFault::Memory => Ok(Some(no_memory(alloc)?)),
    }
}

/// What is told where the store failed.
#[tactic(auto, unfolding(crate::specs::Texts::store_failed))]
pub fn store_failed(alloc: Global) -> Result<Answer, Memory>
    ensures told { IfOk result (λ answer. answer ≡ error_answer 503 store_failed) }
    ensures coded { IfOk result (λ answer. IsStatusCode answer.status) }
{
    error_answer(alloc, 503, b"store failed")
}

/// What is told where memory ran out. It takes the bytes of its body and no more.
pub fn no_memory(alloc: Global) -> Result<Answer, Memory>
    ensures told { IfOk result (λ answer. answer ≡ error_answer 507 no_memory) }
    ensures coded { IfOk result (λ answer. IsStatusCode answer.status) }
{
    json_answer(alloc, 507, no_memory_body(alloc)?)
}

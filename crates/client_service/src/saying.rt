//! What a run comes to before it prints.
ghost use Rattle.std.specs.Prelude.{◌≡◌, IfOk};
ghost use Rattle.client_service.specs.Saying.{EndSays, HaltSays, SaysAs, Says};
ghost use Rattle.client_service.specs.Submitting.{outside, reply_status, reply_text};
ghost use Rattle.client_service.specs.Words.{asked_words, IsWithin};

use crate::outside::Status;
use crate::ready::{Halt, ready_in};
use crate::texts::{accepted, desk_answered, no_answer, read_fault, refused};
use crate::words::Submitting;
use client_replies::Answered;
use desk_callers::Caller;
use desk_client::{SubmitFault, submit};
use heard_files::Files;
use std::alloc::Global;
use vet_base::Memory;

/// The status and the text where nothing is sent.
fn halted(alloc: Global, halt: Halt) -> Result<(Status, Vec<u8>), Memory>
    ensures { SaysAs (HaltSays halt) result }
{
    match halt {
        Halt::Refused(refusal) => Ok((Status(3), refused(alloc, refusal)?)),
        Halt::ReadFault(name) => Ok((Status(5), read_fault(alloc, name.as_bytes())?)),
        Halt::Memory => Err(Memory),
    }
}

/// The status and the text where the desk answered with this status of HTTP.
fn replied(alloc: Global, reference: &str, status: u16) -> Result<(Status, Vec<u8>), Memory>
    ensures status { IfOk result (λ said. said.0.0 ≡ reply_status status) }
    ensures text { IfOk result (λ said. said.1.items ≡ reply_text reference.now status) }
{
    if status == 200 || status == 201 {
        Ok((Status(0), accepted(alloc, reference)?))
    } else {
        Ok((Status(3), desk_answered(alloc, status)?))
    }
}

/// The status and the text where the request was sent.
fn ended(
    alloc: Global,
    reference: &str,
    tries: u8,
    end: Result<Answered, SubmitFault>,
) -> Result<(Status, Vec<u8>), Memory>
    ensures { SaysAs (EndSays reference.now tries end) result }
{
    match end {
        Ok(answered) => replied(alloc, reference, answered.status),
        Err(SubmitFault::NoReply) => Ok((Status(10), no_answer(alloc, tries)?)),
        Err(SubmitFault::Memory) => Err(Memory),
    }
}

/// What a run comes to before it prints: its status and its text.
pub(crate) fn said<F: Files, N: Caller>(
    alloc: Global,
    asked: &Submitting,
    files: &mut F,
    caller: &mut N,
) -> Result<(Status, Vec<u8>), Memory>
    requires { IsWithin asked.now }
    ensures { Says (asked_words asked.now)
        (outside (F.told files.old) (F.fault_count files.old) (N.told caller.old) (N.fault_count caller.old))
        (outside (F.told files.new) (F.fault_count files.new) (N.told caller.new) (N.fault_count caller.new)) result }
{
    match ready_in(alloc, files, asked) {
        Ok(ready) => {
            let end = submit(alloc, &ready.client, &ready.request, caller);
            ended(alloc, asked.reference, ready.client.tries, end)
        }
        Err(halt) => halted(alloc, halt),
    }
}

ghost use Rattle.std.specs.Prelude.{◌≡◌, MatchOption};
ghost use Rattle.desk_client.specs.Tries.{is_final, IsInVain, Ends, Runs};

use crate::one_try::{TryFault, one_try};
use client_form::Client;
use client_replies::{Answered, ReplyFault};
use desk_callers::Caller;
use std::alloc::Global;

/// Why a submission was not answered.
#[derive(Clone, Copy, Debug, PartialEq, Eq)]
pub enum SubmitFault {
    /// Each try ended without a final reply.
    NoReply,
    Memory,
}

/// Whether one is not asked to come again: 503 and 507 are answers of a desk that is busy or full.
fn is_final(status: u16) -> bool
    ensures { result ≡ is_final status }
{
    status != 503 && status != 507
}

/// What a try ends a submission with; `None` where it was in vain.
fn end_of(tried: Result<Answered, TryFault>) -> Option<Result<Answered, SubmitFault>>
    ensures { MatchOption result (IsInVain tried) (Ends tried) }
{
    match tried {
        Ok(answered) => {
            if is_final(answered.status) {
                return Some(Ok(answered));
            }
            None
        }
        Err(TryFault::NotAnswered(ReplyFault::Memory)) => Some(Err(SubmitFault::Memory)),
        Err(_) => None,
    }
}

/// Sends the request to the client's port of this machine, and again on a new connection while no final reply came, at
/// most as often as the client says. The answer is the first whole reply whose status is neither 503 nor 507. `NoReply`
/// comes exactly where as many tries were made as the client says, and each ended in a failed dial, write or read, in
/// bytes that are no whole reply, or in a 503 or 507. `Memory` comes where memory ran out while a reply was read. Each
/// try writes these bytes, and less than all of them only where the caller failed in that try; after a fault the dials
/// that were made and the bytes that were written stay.
#[tactic(auto, using(crate::proofs::Trying::begins, crate::proofs::Trying::goes_on, crate::proofs::Trying::stops, crate::proofs::Trying::runs_out))]
pub fn submit<N: Caller>(
    alloc: Global,
    client: &Client,
    request: &[u8],
    caller: &mut N,
) -> Result<Answered, SubmitFault>
    ensures { Runs request.now client.now.tries (record { told = N.told caller.old; faults = N.fault_count caller.old })
        result (record { told = N.told caller.new; faults = N.fault_count caller.new }) }
{
    for _ in 0..client.tries {
        if let Some(end) = end_of(one_try(alloc, client.port, request, caller)) {
            return end;
        }
    }
    Err(SubmitFault::NoReply)
}

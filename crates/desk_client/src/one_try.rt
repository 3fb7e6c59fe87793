//! One try.
ghost use Rattle.std.specs.Prelude.{◌≤◌, ℕ, length, take, OnOk, OnErr};
ghost use Rattle.vet_base.specs.Outside.{HasRisen};
ghost use Rattle.desk_http.specs.Replies.{Wrote};
ghost use Rattle.desk_client.specs.Tries.{IsTry};

use client_replies::{Answered, ReplyFault, read_reply};
use desk_callers::{Caller, DialFault};
use desk_links::{Link, LinkFault};
use std::alloc::Global;

/// Why a try gave no reply.
#[derive(Clone, Copy)]
pub enum TryFault {
    /// The dial failed.
    NotDialled,
    /// The request was not written as a whole.
    NotWritten,
    /// No whole reply was read, and this is why.
    NotAnswered(ReplyFault),
}

/// Writes all the bytes, or a front of them where the link fails.
fn write_all<L: Link>(link: &mut L, bytes: &[u8]) -> Result<(), LinkFault>
    ensures all { OnOk result (Wrote (L.told link.old) (L.told link.new) bytes.now) }
    ensures front { OnErr result ((n : ℕ) × (n ≤ length bytes.now) × Wrote (L.told link.old) (L.told link.new)
        (take n bytes.now)) }
    ensures cause { OnErr result (HasRisen (L.fault_count link.old) (L.fault_count link.new)) }
    ensures never_falls { L.fault_count link.old ≤ L.fault_count link.new }
{
    let mut done = 0;
    while done < bytes.len() {
        match link.write(&bytes[done..]) {
            Ok(count) => done += count,
            Err(fault) => return Err(fault),
        }
    }
    Ok(())
}

/// Dials, writes the request and reads the reply.
pub(crate) fn one_try<N: Caller>(
    alloc: Global,
    port: u16,
    request: &[u8],
    caller: &mut N,
) -> Result<Answered, TryFault>
    ensures { IsTry request.now (record { told = N.told caller.old; faults = N.fault_count caller.old })
        (record { told = N.told caller.new; faults = N.fault_count caller.new }) result }
{
    match caller.dial(port) {
        Ok(()) => {}
        Err(DialFault::Failed) => return Err(TryFault::NotDialled),
    }
    match write_all(caller, request) {
        Ok(()) => {}
        Err(_) => return Err(TryFault::NotWritten),
    }
    match read_reply(alloc, caller) {
        Ok(answered) => Ok(answered),
        Err(fault) => Err(TryFault::NotAnswered(fault)),
    }
}

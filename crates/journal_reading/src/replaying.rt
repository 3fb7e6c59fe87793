//! How the changes of a log are made again, one after another.
ghost use Rattle.std.specs.Prelude.{◌≡◌, ◌≤◌, true, [], IfOk, IfSome, OnOk, OnErr};
ghost use Rattle.case_rules.specs.Cases.{after};
ghost use Rattle.case_rules.specs.Docket.{Fits};
ghost use Rattle.disks.specs.Disks.{Measures};
ghost use Rattle.gated_log.specs.Known.{IsKnown};
ghost use Rattle.journal_reading.specs.Opening.{OpenCause, HasChange, MakesFitting, Takes, Replays};

use crate::OpenFault;
use crate::fitting::fits;
use case_keeper::{Keeper, MemKeeper};
use case_records::change_of;
use case_rules::Change;
use disks::Disk;
use gated_log::record_at;
use std::alloc::Global;
use vet_base::{Memory, Stop};

/// Where the records of a log end, and the cases that their changes make.
#[derive(Drop)]
pub(crate) struct Replayed {
    pub(crate) end: u64,
    pub(crate) held: MemKeeper,
}

/// The change of a payload, where it is one.
fn change_in(alloc: Global, payload: &[u8]) -> Result<Option<Change>, Memory>
    ensures { IfOk result (HasChange payload.now) }
{
    match change_of(alloc, payload) {
        Ok(change) => Ok(Some(change)),
        Err(Stop::Fault(_)) => Ok(None),
        Err(Stop::Memory) => Err(Memory),
    }
}

/// Makes a change that fits.
pub fn make(alloc: Global, held: &mut MemKeeper, change: &Change) -> Result<(), Memory>
    requires unfailing { held.old.failing ≡ [] }
    requires fits { Fits change.now held.old.cases }
    ensures made { OnOk result (held.new.cases ≡ after change.now held.old.cases) }
    ensures left { OnErr result (held.new.cases ≡ held.old.cases) }
    ensures unfailing { held.new.failing ≡ [] }
{
    match held.apply(alloc, change) {
        Ok(()) => Ok(()),
        Err(_) => Err(Memory),
    }
}

/// Makes a change where it fits; its record has its gate at the offset.
fn make_fitting(
    alloc: Global,
    held: &mut MemKeeper,
    at: u64,
    change: &Change,
) -> Result<(), OpenFault>
    requires { held.old.failing ≡ [] }
    ensures made { MakesFitting change.now held.old.cases held.new.cases at result }
    ensures unfailing { held.new.failing ≡ [] }
{
    let Ok(yes) = fits(alloc, held, change) else {
        return Err(OpenFault::Memory);
    };
    if !yes {
        return Err(OpenFault::Bad(at));
    }
    make(alloc, held, change)?;
    Ok(())
}

/// Makes the change of a record whose gate is at the offset.
fn take_in(alloc: Global, held: &mut MemKeeper, at: u64, payload: &[u8]) -> Result<(), OpenFault>
    requires { held.old.failing ≡ [] }
    ensures takes { Takes payload.now held.old.cases held.new.cases at result }
    ensures unfailing { held.new.failing ≡ [] }
{
    let Some(change) = change_in(alloc, payload)? else {
        return Err(OpenFault::Bad(at));
    };
    make_fitting(alloc, held, at, &change)
}

/// Makes the changes of all records of a disk of so many bytes that begins as a log.
pub(crate) fn replay<D: Disk>(alloc: Global, disk: &mut D, len: u64) -> Result<Replayed, OpenFault>
    requires within { 8 ≤ len }
    requires long { IfSome (D.told disk.old) (Measures len) }
    requires known { IfSome (D.told disk.old) (λ t. IsKnown true t.now.bytes) }
    ensures replays { IfSome (D.told disk.old) (λ t. Replays t.now.bytes result) }
    ensures unfailing { IfOk result (λ replayed. replayed.held.failing ≡ []) }
    ensures inside { IfOk result (λ replayed. replayed.end ≤ len) }
    ensures told { D.told disk.new ≡ D.told disk.old }
    ensures cause { OpenCause (D.fault_count disk.old) (D.fault_count disk.new) result }
{
    let mut held = MemKeeper::new(alloc);
    let mut end = 8;
    while end < len {
        let Some(payload) = record_at(alloc, disk, end, len)? else {
            return Ok(Replayed { end, held });
        };
        take_in(alloc, &mut held, end, &payload)?;
        end += payload.len() as u64 + 9;
    }
    Ok(Replayed { end, held })
}

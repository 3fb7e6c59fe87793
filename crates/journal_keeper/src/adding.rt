//! A change is added to an open journal.
ghost use Rattle.std.specs.Prelude.{◌≡◌, [], Some, IfSome, OnOk};
ghost use Rattle.case_keeper.specs.Keeper.{KeepCause, told_after};
ghost use Rattle.case_rules.specs.Docket.{Fits};
ghost use Rattle.journal_reading.specs.Keeping.{IsKept, IsOpen, IsReady, LeavesCases, StaysSafe, told_by};
ghost use Rattle.journal_keeper.specs.Adding.{WritesChange, HasMade, Follows};
ghost use Rattle.journal_keeper.specs.Causes.{CountsBy, Misfits};

use crate::readying::kept_fault;
use case_keeper::KeepFault;
use case_records::put_change;
use case_rules::Change;
use disks::Disk;
use journal_reading::{Opened, fits, make};
use std::alloc::Global;
use vet_base::Memory;

/// Writes the record of a change that fits. From Ok on it stays; the cases in memory are as before.
fn write<D: Disk>(
    alloc: Global,
    disk: &mut D,
    opened: &mut Opened,
    change: &Change,
) -> Result<(), KeepFault>
    requires kept { IsOpen (D.told disk.old) opened.old }
    requires ready { IsReady (Some opened.old) }
    requires fits { Fits change.now opened.old.held.cases }
    ensures written { WritesChange change.now opened.old opened.new (D.told disk.new) result }
    ensures any_moment { LeavesCases (λ c. c ≡ change.now) (Some opened.old) (D.told disk.old) (D.told disk.new) }
    ensures cause { KeepCause (D.fault_count disk.old) (D.fault_count disk.new) result }
{
    let mut payload = Vec::new(alloc);
    put_change(&mut payload, change)?;
    match opened.log.append(alloc, disk, &payload) {
        Ok(()) => Ok(()),
        Err(fault) => Err(kept_fault(fault)),
    }
}

/// Writes the record of a change where it fits; one that does not is counted. The cases in memory are as before.
fn write_fitting<D: Disk>(
    alloc: Global,
    disk: &mut D,
    opened: &mut Opened,
    own: &mut u64,
    change: &Change,
) -> Result<(), KeepFault>
    requires kept { IsOpen (D.told disk.old) opened.old }
    requires ready { IsReady (Some opened.old) }
    ensures written { WritesChange change.now opened.old opened.new (D.told disk.new) result }
    ensures any_moment { LeavesCases (λ c. c ≡ change.now) (Some opened.old) (D.told disk.old) (D.told disk.new) }
    ensures counts { CountsBy (Misfits change.now (Some opened.new))
        (D.fault_count disk.old) (D.fault_count disk.new) own.old own.new result }
{
    if !fits(alloc, &mut opened.held, change)? {
        *own = own.saturating_add(1);
        return Err(KeepFault::Failed);
    }
    write(alloc, disk, opened, change)
}

/// Makes a change that was written in memory too.
fn make_held(alloc: Global, opened: &mut Opened, change: &Change) -> Result<(), Memory>
    requires unfailing { opened.old.held.failing ≡ [] }
    requires fits { Fits change.now opened.old.held.cases }
    ensures { OnOk result (HasMade change.now opened.old opened.new) }
{
    make(alloc, &mut opened.held, change)
}

/// Makes a change that was written in memory too. Where that wants memory the journal is closed, and read again at the
/// next call: the change stays all the same.
fn follow(alloc: Global, opened: &mut Option<Opened>, change: &Change)
    requires unfailing { IfSome opened.old (λ o. o.held.failing ≡ []) }
    requires fits { IfSome opened.old (λ o. Fits change.now o.held.cases) }
    ensures { Follows change.now opened.old opened.new }
{
    let Some(journal) = opened else {
        return;
    };
    let Ok(()) = make_held(alloc, journal, change) else {
        *opened = None;
        return;
    };
}

/// Adds a change to a journal that is ready, where it fits; one that does not is counted. After a fault the cases are
/// as before.
pub(crate) fn add<D: Disk>(
    alloc: Global,
    disk: &mut D,
    opened: &mut Option<Opened>,
    own: &mut u64,
    change: &Change,
) -> Result<(), KeepFault>
    requires kept { IsKept (D.told disk.old) opened.old }
    requires ready { IsReady opened.old }
    ensures kept { IsKept (D.told disk.new) opened.new }
    ensures told { told_by opened.new (D.told disk.new)
        ≡ told_after change.now (told_by opened.old (D.told disk.old)) result }
    ensures any_moment { LeavesCases (λ c. c ≡ change.now) opened.old (D.told disk.old) (D.told disk.new) }
    ensures safe { StaysSafe opened.old opened.new (D.told disk.old) (D.told disk.new) }
    ensures counts { CountsBy (Misfits change.now opened.new)
        (D.fault_count disk.old) (D.fault_count disk.new) own.old own.new result }
{
    let Some(journal) = opened else {
        return Err(KeepFault::Memory);
    };
    write_fitting(alloc, disk, journal, own, change)?;
    follow(alloc, opened, change);
    Ok(())
}

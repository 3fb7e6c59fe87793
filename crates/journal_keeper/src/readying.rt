//! What each call of the journal does first: it opens the journal, or mends its end.
ghost use Rattle.std.specs.Prelude.{◌≡◌, Some, None, IfOk, IfSome, OnOk, OnErr};
ghost use Rattle.case_keeper.specs.Keeper.{KeepCause};
ghost use Rattle.journal_reading.specs.Keeping.{IsKept, IsOpen, IsReady, NoOther, LeavesCases, StaysSafe, told_by};
ghost use Rattle.journal_reading.specs.Opening.{HoldsCases, Spares};
ghost use Rattle.journal_keeper.specs.Causes.{keep_fault_of, total, Counts, CountsBy, IsUnopenable};

use case_keeper::KeepFault;
use disks::{Disk, DiskFault};
use journal_reading::{OpenFault, Opened, opened_journal};
use std::alloc::Global;

/// The failures of the disk and those of the journal, as one number.
pub(crate) fn total(disk: u64, own: u64) -> u64
    ensures { result ≡ total disk own }
{
    disk.saturating_add(own)
}

/// Counts bytes that are foreign or bad.
fn counted(own: &mut u64, fault: OpenFault) -> KeepFault
    ensures { Counts fault own.old own.new result }
{
    match fault {
        OpenFault::Magic => {
            *own = own.saturating_add(1);
            KeepFault::Failed
        }
        OpenFault::Bad(_) => {
            *own = own.saturating_add(1);
            KeepFault::Failed
        }
        OpenFault::Failed => KeepFault::Failed,
        OpenFault::Memory => KeepFault::Memory,
    }
}

/// Opens the journal of a disk.
fn open_counted<D: Disk>(alloc: Global, disk: &mut D, own: &mut u64) -> Result<Opened, KeepFault>
    ensures kept { IfOk result (IsOpen (D.told disk.new)) }
    ensures ready { IfOk result (λ o. IsReady (Some o)) }
    ensures same { IfOk result (λ o. told_by (Some o) (D.told disk.new) ≡ told_by None (D.told disk.old)) }
    ensures as_before { OnErr result (told_by None (D.told disk.new) ≡ told_by None (D.told disk.old)) }
    ensures any_moment { LeavesCases NoOther None (D.told disk.old) (D.told disk.new) }
    ensures safe { OnErr result (StaysSafe None None (D.told disk.old) (D.told disk.new)) }
    ensures held { OnOk result (IfSome (D.told disk.old) HoldsCases) }
    ensures spares { Spares (D.told disk.old) (D.told disk.new) }
    ensures counts { CountsBy (IsUnopenable None (D.told disk.old))
        (D.fault_count disk.old) (D.fault_count disk.new) own.old own.new result }
{
    match opened_journal(alloc, disk) {
        Ok(opened) => Ok(opened),
        Err(fault) => Err(counted(own, fault)),
    }
}

/// A failure of a disk, as one of a keeper.
pub(crate) fn kept_fault(fault: DiskFault) -> KeepFault
    ensures { result ≡ keep_fault_of fault }
{
    match fault {
        DiskFault::Failed => KeepFault::Failed,
        DiskFault::Memory => KeepFault::Memory,
    }
}

/// Makes the end of an open journal one closed gate.
fn mend<D: Disk>(disk: &mut D, opened: &mut Opened) -> Result<(), KeepFault>
    requires { IsOpen (D.told disk.old) opened.old }
    ensures kept { IsOpen (D.told disk.new) opened.new }
    ensures ready { OnOk result (IsReady (Some opened.new)) }
    ensures same { told_by (Some opened.new) (D.told disk.new) ≡ told_by (Some opened.old) (D.told disk.old) }
    ensures any_moment { LeavesCases NoOther (Some opened.old) (D.told disk.old) (D.told disk.new) }
    ensures cause { KeepCause (D.fault_count disk.old) (D.fault_count disk.new) result }
{
    match opened.log.mend(disk) {
        Ok(()) => Ok(()),
        Err(fault) => Err(kept_fault(fault)),
    }
}

/// Opens the journal, or mends the end of one that is open. After a fault its cases are as before, and bytes that are
/// no journal are left alone.
pub(crate) fn make_ready<D: Disk>(
    alloc: Global,
    disk: &mut D,
    opened: &mut Option<Opened>,
    own: &mut u64,
) -> Result<(), KeepFault>
    requires { IsKept (D.told disk.old) opened.old }
    ensures kept { IsKept (D.told disk.new) opened.new }
    ensures ready { OnOk result (IsReady opened.new) }
    ensures same { told_by opened.new (D.told disk.new) ≡ told_by opened.old (D.told disk.old) }
    ensures any_moment { LeavesCases NoOther opened.old (D.told disk.old) (D.told disk.new) }
    ensures safe { StaysSafe opened.old opened.new (D.told disk.old) (D.told disk.new) }
    ensures held { OnOk result (IfSome (D.told disk.old) HoldsCases) }
    ensures spares { Spares (D.told disk.old) (D.told disk.new) }
    ensures counts { CountsBy (IsUnopenable opened.old (D.told disk.old))
        (D.fault_count disk.old) (D.fault_count disk.new) own.old own.new result }
{
    if let Some(journal) = opened {
        return mend(disk, journal);
    }
    let journal = open_counted(alloc, disk, own)?;
    *opened = Some(journal);
    Ok(())
}

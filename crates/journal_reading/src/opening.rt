//! How a journal is opened: its disk is synced, its records are read, and its end is made one closed gate.
ghost use Rattle.std.specs.Prelude.{◌≡◌, ◌<◌, Some, None, [], IfOk, IfSome, OnErr};
ghost use Rattle.gated_log.specs.Ends.{IsShort};
ghost use Rattle.journal_reading.specs.Opening.{Answers, LeavesAlone, OpenCause, IsSettled, Spares};
ghost use Rattle.journal_reading.specs.Keeping.{IsOpen, NoOther, LeavesCases, StaysSafe, told_by};

use crate::OpenFault;
use crate::replaying::replay;
use case_keeper::MemKeeper;
use disks::Disk;
use gated_log::{Gate, Log, begins_as_log, begun_log, closed_log, settled_length};
use std::alloc::Global;

/// An open journal: where its records end, and the cases that they make.
#[derive(Drop)]
pub struct Opened {
    pub log: Log,
    pub held: MemKeeper,
}

/// Begins a journal in at most nine bytes.
fn begin<D: Disk>(alloc: Global, disk: &mut D) -> Result<Opened, OpenFault>
    requires { IfSome (D.told disk.old) IsShort }
    ensures answer { IfSome (D.told disk.old) (λ t. Answers t.now.bytes result) }
    ensures kept { IfOk result (IsOpen (D.told disk.new)) }
    ensures ready { IfOk result (λ o. o.log.gate ≡ Gate.Closed) }
    ensures same { IfOk result (λ o. told_by (Some o) (D.told disk.new) ≡ told_by None (D.told disk.old)) }
    ensures as_before { OnErr result (told_by None (D.told disk.new) ≡ told_by None (D.told disk.old)) }
    ensures any_moment { LeavesCases NoOther None (D.told disk.old) (D.told disk.new) }
    ensures safe { OnErr result (StaysSafe None None (D.told disk.old) (D.told disk.new)) }
    ensures cause { OpenCause (D.fault_count disk.old) (D.fault_count disk.new) result }
{
    let log = begun_log(alloc, disk)?;
    Ok(Opened {
        log,
        held: MemKeeper::new(alloc),
    })
}

/// Reads a journal of more than nine bytes, all of which stay.
fn read_in<D: Disk>(alloc: Global, disk: &mut D, len: u64) -> Result<Opened, OpenFault>
    requires long { 9 < len }
    requires settled { IfSome (D.told disk.old) (IsSettled len) }
    ensures answer { IfSome (D.told disk.old) (λ t. Answers t.now.bytes result) }
    ensures kept { IfOk result (IsOpen (D.told disk.new)) }
    ensures ready { IfOk result (λ o. o.log.gate ≡ Gate.Closed) }
    ensures same { IfOk result (λ o. told_by (Some o) (D.told disk.new) ≡ told_by None (D.told disk.old)) }
    ensures as_before { OnErr result (told_by None (D.told disk.new) ≡ told_by None (D.told disk.old)) }
    ensures any_moment { LeavesCases NoOther None (D.told disk.old) (D.told disk.new) }
    ensures safe { OnErr result (StaysSafe None None (D.told disk.old) (D.told disk.new)) }
    ensures alone { LeavesAlone (D.told disk.old) (D.told disk.new) }
    ensures cause { OpenCause (D.fault_count disk.old) (D.fault_count disk.new) result }
{
    let known = begins_as_log(alloc, disk)?;
    if !known {
        return Err(OpenFault::Magic);
    }
    let replayed = replay(alloc, disk, len)?;
    if replayed.end >= u64::MAX - 2 {
        return Err(OpenFault::Memory);
    }
    let log = closed_log(alloc, disk, replayed.end)?;
    Ok(Opened {
        log,
        held: replayed.held,
    })
}

/// Opens the journal of a disk. After a fault its cases are as before, and bytes that are no journal are left alone.
pub fn opened_journal<D: Disk>(alloc: Global, disk: &mut D) -> Result<Opened, OpenFault>
    ensures answer { IfSome (D.told disk.old) (λ t. Answers t.now.bytes result) }
    ensures kept { IfOk result (IsOpen (D.told disk.new)) }
    ensures ready { IfOk result (λ o. o.log.gate ≡ Gate.Closed) }
    ensures same { IfOk result (λ o. told_by (Some o) (D.told disk.new) ≡ told_by None (D.told disk.old)) }
    ensures as_before { OnErr result (told_by None (D.told disk.new) ≡ told_by None (D.told disk.old)) }
    ensures any_moment { LeavesCases NoOther None (D.told disk.old) (D.told disk.new) }
    ensures safe { OnErr result (StaysSafe None None (D.told disk.old) (D.told disk.new)) }
    ensures spares { Spares (D.told disk.old) (D.told disk.new) }
    ensures cause { OpenCause (D.fault_count disk.old) (D.fault_count disk.new) result }
{
    let len = settled_length(disk)?;
    if len <= 9 {
        return begin(alloc, disk);
    }
    read_in(alloc, disk, len)
}

//! How the end of a log that was read becomes one closed gate, and how a log is begun.
ghost use Rattle.std.specs.Prelude.{◌≡◌, ◌<◌, ◌∷◌, take, drop, IfOk, OnOk, IfSome};
ghost use Rattle.disks.specs.Disks.{DiskCause};
ghost use Rattle.gated_log.specs.Ends.{IsEnd, HasNothing, HasClosed, HasOpen, HasOther};
ghost use Rattle.gated_log.specs.Ends.{LeavesFront, LeavesShort, IsShort, IsEmptyLog, ClosesAt};

use crate::reading::piece;
use crate::staying::{cut_to_stay, write_to_stay};
use crate::{Gate, Log};
use disks::{Disk, DiskFault};
use std::alloc::Global;

/// VETJRNL1 and a closed gate: the bytes of a log without records.
const EMPTY: [u8; 9] = [86, 69, 84, 74, 82, 78, 76, 49, 0];

/// Puts a closed gate where nothing stands.
fn add_gate<D: Disk>(disk: &mut D, end: u64) -> Result<(), DiskFault>
    requires ends { IfSome (D.told disk.old) (HasNothing end) }
    ensures closes { ClosesAt end (D.told disk.new) result }
    ensures any_moment { LeavesFront end (D.told disk.old) (D.told disk.new) }
    ensures cause { DiskCause (D.fault_count disk.old) (D.fault_count disk.new) result }
{
    write_to_stay(disk, end, &[0])
}

/// Cuts off what stands behind a closed gate.
fn cut_rest<D: Disk>(disk: &mut D, end: u64) -> Result<(), DiskFault>
    requires ends { IfSome (D.told disk.old) (HasClosed end) }
    requires room { end < 18446744073709551615 }
    ensures closes { ClosesAt end (D.told disk.new) result }
    ensures any_moment { LeavesFront end (D.told disk.old) (D.told disk.new) }
    ensures cause { DiskCause (D.fault_count disk.old) (D.fault_count disk.new) result }
{
    cut_to_stay(disk, end + 1)
}

/// Closes a gate behind which a record does not end, and then cuts that off.
fn shut<D: Disk>(disk: &mut D, end: u64) -> Result<(), DiskFault>
    requires ends { IfSome (D.told disk.old) (HasOpen end) }
    requires room { end < 18446744073709551615 }
    ensures closes { ClosesAt end (D.told disk.new) result }
    ensures any_moment { LeavesFront end (D.told disk.old) (D.told disk.new) }
    ensures cause { DiskCause (D.fault_count disk.old) (D.fault_count disk.new) result }
{
    write_to_stay(disk, end, &[0])?;
    cut_to_stay(disk, end + 1)
}

/// Cuts off what stands behind a byte that is no gate, and then makes it a closed one.
fn replace<D: Disk>(disk: &mut D, end: u64) -> Result<(), DiskFault>
    requires ends { IfSome (D.told disk.old) (HasOther end) }
    requires room { end < 18446744073709551615 }
    ensures closes { ClosesAt end (D.told disk.new) result }
    ensures any_moment { LeavesFront end (D.told disk.old) (D.told disk.new) }
    ensures cause { DiskCause (D.fault_count disk.old) (D.fault_count disk.new) result }
{
    cut_to_stay(disk, end + 1)?;
    write_to_stay(disk, end, &[0])
}

/// Closes the end by the first byte that stands there, and by what stands behind it of the first two.
fn close_by<D: Disk>(disk: &mut D, end: u64, gate: u8, rest: &[u8]) -> Result<(), DiskFault>
    requires ends { IfSome (D.told disk.old) (IsEnd end) }
    requires found { IfSome (D.told disk.old) (λ t. gate ∷ rest.now ≡ take 2 (drop end t.now.bytes)) }
    requires room { end < 18446744073709551615 }
    ensures closes { ClosesAt end (D.told disk.new) result }
    ensures any_moment { LeavesFront end (D.told disk.old) (D.told disk.new) }
    ensures cause { DiskCause (D.fault_count disk.old) (D.fault_count disk.new) result }
{
    if gate == 1 {
        return shut(disk, end);
    }
    if gate != 0 {
        return replace(disk, end);
    }
    if rest.is_empty() {
        return Ok(());
    }
    cut_rest(disk, end)
}

/// Closes the end by the first two bytes that stand there.
fn close<D: Disk>(disk: &mut D, end: u64, found: &[u8]) -> Result<(), DiskFault>
    requires ends { IfSome (D.told disk.old) (IsEnd end) }
    requires found { IfSome (D.told disk.old) (λ t. found.now ≡ take 2 (drop end t.now.bytes)) }
    requires room { end < 18446744073709551615 }
    ensures closes { ClosesAt end (D.told disk.new) result }
    ensures any_moment { LeavesFront end (D.told disk.old) (D.told disk.new) }
    ensures cause { DiskCause (D.fault_count disk.old) (D.fault_count disk.new) result }
{
    match found {
        [] => add_gate(disk, end),
        [gate, rest @ ..] => close_by(disk, end, *gate, rest),
    }
}

/// Makes a log whose records end at an offset end there in one closed gate. After a fault the records are those
/// that they were. At every moment a crash leaves the bytes before the offset and no whole record behind them.
pub fn closed_log<D: Disk>(alloc: Global, disk: &mut D, end: u64) -> Result<Log, DiskFault>
    requires ends { IfSome (D.told disk.old) (IsEnd end) }
    requires room { end < 18446744073709551613 }
    ensures log { IfOk result (λ log. log ≡ record { end = end; gate = Gate.Closed }) }
    ensures closes { ClosesAt end (D.told disk.new) result }
    ensures any_moment { LeavesFront end (D.told disk.old) (D.told disk.new) }
    ensures cause { DiskCause (D.fault_count disk.old) (D.fault_count disk.new) result }
{
    let found = piece(alloc, disk, end, 2)?;
    close(disk, end, &found)?;
    Ok(Log {
        end,
        gate: Gate::Closed,
    })
}

/// Writes the bytes of a log without records, unless they are found.
fn begin_by<D: Disk>(disk: &mut D, found: &[u8]) -> Result<(), DiskFault>
    requires short { IfSome (D.told disk.old) IsShort }
    requires found { IfSome (D.told disk.old) (λ t. found.now ≡ take 10 (drop 0 t.now.bytes)) }
    ensures begun { OnOk result (IfSome (D.told disk.new) IsEmptyLog) }
    ensures any_moment { LeavesShort (D.told disk.old) (D.told disk.new) }
    ensures cause { DiskCause (D.fault_count disk.old) (D.fault_count disk.new) result }
{
    if found == EMPTY.as_slice() {
        return Ok(());
    }
    write_to_stay(disk, 0, &EMPTY)
}

/// Begins a log in a disk of at most nine bytes: its eight bytes and a closed gate. A disk
/// that has just these stays as it is. At every moment a crash leaves at most nine bytes.
pub fn begun_log<D: Disk>(alloc: Global, disk: &mut D) -> Result<Log, DiskFault>
    requires short { IfSome (D.told disk.old) IsShort }
    ensures log { IfOk result (λ log. log ≡ record { end = 8; gate = Gate.Closed }) }
    ensures begun { OnOk result (IfSome (D.told disk.new) IsEmptyLog) }
    ensures any_moment { LeavesShort (D.told disk.old) (D.told disk.new) }
    ensures cause { DiskCause (D.fault_count disk.old) (D.fault_count disk.new) result }
{
    let found = piece(alloc, disk, 0, 10)?;
    begin_by(disk, &found)?;
    Ok(Log {
        end: 8,
        gate: Gate::Closed,
    })
}

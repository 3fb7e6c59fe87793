//! What is read of a log.
ghost use Rattle.std.specs.Prelude.{◌≡◌, ◌≤◌, ◌<◌, ◌+◌, ◌^◌, length, take, drop, IfOk, IfSome};
ghost use Rattle.std.specs.Option.{option_map};
ghost use Rattle.disks.specs.Disks.{DiskCause, Measures};
ghost use Rattle.gated_log.specs.Reading.{ReadsOn, items_of};
ghost use Rattle.gated_log.specs.Calls.{Settles};
ghost use Rattle.gated_log.specs.Format.{record_length, first_record};
ghost use Rattle.gated_log.specs.Known.{IsKnown};

use disks::{Disk, DiskFault};
use std::alloc::Global;

/// VETJRNL1: the bytes by which a log is known.
const MAGIC: [u8; 8] = [86, 69, 84, 74, 82, 78, 76, 49];

/// Reads once, into the room behind its first bytes, and gives
/// how many came: what stands behind as many from the offset on.
fn read_behind<D: Disk>(
    disk: &mut D,
    at: u64,
    from: usize,
    room: &mut [u8],
) -> Result<usize, DiskFault>
    requires from { from ≤ length room.old }
    requires small { at + length room.old < 2 ^ 64 }
    ensures within { IfOk result (λ n. from + n ≤ length room.old) }
    ensures read { IfOk result (λ n. IfSome (D.told disk.old) (λ t. ReadsOn t.now.bytes at from n room.old room.new)) }
    ensures told { D.told disk.new ≡ D.told disk.old }
    ensures cause { DiskCause (D.fault_count disk.old) (D.fault_count disk.new) result }
{
    disk.read(at + from as u64, &mut room[from..])
}

/// Reads into the room from an offset on until it is full or the disk ends, and gives how many bytes.
fn fill<D: Disk>(disk: &mut D, at: u64, room: &mut [u8]) -> Result<usize, DiskFault>
    requires { at + length room.old < 2 ^ 64 }
    ensures within { IfOk result (λ n. n ≤ length room.old) }
    ensures filled { IfOk result (λ n. IfSome (D.told disk.old) (λ t.
        take n room.new ≡ take (length room.old) (drop at t.now.bytes))) }
    ensures told { D.told disk.new ≡ D.told disk.old }
    ensures cause { DiskCause (D.fault_count disk.old) (D.fault_count disk.new) result }
{
    let mut count = 0;
    while count < room.len() {
        let some = read_behind(disk, at, count, room)?;
        if some == 0 {
            return Ok(count);
        }
        count += some;
    }
    Ok(count)
}

/// So many bytes from an offset on, or fewer where the disk ends.
pub(crate) fn piece<D: Disk>(
    alloc: Global,
    disk: &mut D,
    at: u64,
    count: usize,
) -> Result<Vec<u8>, DiskFault>
    requires { at + count < 2 ^ 64 }
    ensures piece { IfOk result (λ v. IfSome (D.told disk.old) (λ t. v.items ≡ take count (drop at t.now.bytes))) }
    ensures told { D.told disk.new ≡ D.told disk.old }
    ensures cause { DiskCause (D.fault_count disk.old) (D.fault_count disk.new) result }
{
    let mut room = vec![in alloc; 0u8; count]?;
    let some = fill(disk, at, room.as_mut_slice())?;
    room.truncate(some);
    Ok(room)
}

/// The length of the record that begins so; none where it does not begin with an open gate and eight bytes.
fn length_in(head: &[u8]) -> Option<u64>
    ensures { result ≡ record_length head.now }
{
    match head {
        [1, a, b, c, d, e, f, g, h, ..] => {
            Some(u64::from_le_bytes([*a, *b, *c, *d, *e, *f, *g, *h]))
        }
        _ => None,
    }
}

/// The payload of the record whose gate is at the offset, where a whole one stands there in a disk of `len` bytes.
pub fn record_at<D: Disk>(
    alloc: Global,
    disk: &mut D,
    at: u64,
    len: u64,
) -> Result<Option<Vec<u8>>, DiskFault>
    requires within { at ≤ len }
    requires long { IfSome (D.told disk.old) (Measures len) }
    ensures answer { IfOk result (λ found. IfSome (D.told disk.old) (λ t.
        option_map items_of found ≡ first_record (drop at t.now.bytes))) }
    ensures inside { IfOk result (λ found. IfSome found (λ payload. at + 9 + length payload.items ≤ len)) }
    ensures told { D.told disk.new ≡ D.told disk.old }
    ensures cause { DiskCause (D.fault_count disk.old) (D.fault_count disk.new) result }
{
    if len - at < 9 {
        return Ok(None);
    }
    let head = piece(alloc, disk, at, 9)?;
    let Some(count) = length_in(&head) else {
        return Ok(None);
    };
    if count > len - at - 9 {
        return Ok(None);
    }
    let payload = piece(alloc, disk, at + 9, count as usize)?;
    if payload.len() as u64 != count {
        return Ok(None);
    }
    Ok(Some(payload))
}

/// Whether the disk begins with the bytes by which a log is known.
pub fn begins_as_log<D: Disk>(alloc: Global, disk: &mut D) -> Result<bool, DiskFault>
    ensures answer { IfOk result (λ yes. IfSome (D.told disk.old) (λ t. IsKnown yes t.now.bytes)) }
    ensures told { D.told disk.new ≡ D.told disk.old }
    ensures cause { DiskCause (D.fault_count disk.old) (D.fault_count disk.new) result }
{
    let found = piece(alloc, disk, 0, 8)?;
    Ok(found.as_slice() == MAGIC.as_slice())
}

/// Makes what the disk holds stay, and gives how many bytes that is.
pub fn settled_length<D: Disk>(disk: &mut D) -> Result<u64, DiskFault>
    ensures length { IfOk result (λ len. IfSome (D.told disk.new) (Measures len)) }
    ensures settles { Settles (D.told disk.old) (D.told disk.new) result }
    ensures cause { DiskCause (D.fault_count disk.old) (D.fault_count disk.new) result }
{
    disk.sync()?;
    disk.len()
}

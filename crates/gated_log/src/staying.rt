//! Changes of a disk that stay.
ghost use Rattle.std.specs.Prelude.{IfSome};
ghost use Rattle.disks.specs.Disks.{DiskCause, Reaches};
ghost use Rattle.gated_log.specs.Calls.{WriteStays, CutStays};

use disks::{Disk, DiskFault};

/// Writes, and makes it stay.
pub(crate) fn write_to_stay<D: Disk>(disk: &mut D, at: u64, bytes: &[u8]) -> Result<(), DiskFault>
    requires { IfSome (D.told disk.now) (Reaches at) }
    ensures told { WriteStays (D.told disk.old) (D.told disk.new) at bytes.now result }
    ensures cause { DiskCause (D.fault_count disk.old) (D.fault_count disk.new) result }
{
    disk.write_at(at, bytes)?;
    disk.sync()
}

/// Cuts, and makes it stay.
pub(crate) fn cut_to_stay<D: Disk>(disk: &mut D, len: u64) -> Result<(), DiskFault>
    requires { IfSome (D.told disk.now) (Reaches len) }
    ensures told { CutStays (D.told disk.old) (D.told disk.new) len result }
    ensures cause { DiskCause (D.fault_count disk.old) (D.fault_count disk.new) result }
{
    disk.cut(len)?;
    disk.sync()
}

ghost use Rattle.std.specs.Prelude.{◌≡◌, ◌≤◌, ℕ, Option, length, IfOk, IfSome};
ghost use Rattle.disks.specs.declared.disk.DiskFault.TheVariants.{Memory as OutOfMemory};
ghost use Rattle.disks.specs.Disks.{Told, DiskCause, Measures, Reaches, Gives, Writes, Cuts, Syncs};

use std::alloc::{AllocError, AllocFailed};
use vet_base::Memory;

/// Why a call of a disk gave nothing.
#[derive(Clone, Copy, Debug, PartialEq, Eq)]
pub enum DiskFault {
    /// The outside failed; the count of faults rose.
    Failed,
    Memory,
}

/// Bytes that stay, save for what a crash takes: until the next `sync` whatever was written, cut or put behind the end
/// may be there in part, or be other bytes.
pub trait Disk {
    /// What it held at each moment so far, and what a crash might have left then, where the disk tells that.
    ghost told: { Self → Option Told };

    /// How often a call failed. At 2^64 - 1 it stays.
    ghost fault_count: { Self → ℕ };

    /// How many bytes there are.
    fn len(&mut self) -> Result<u64, DiskFault>
        ensures answer { IfOk result (λ n. IfSome (told self.old) (Measures n)) }
        ensures told { told self.new ≡ told self.old }
        ensures cause { DiskCause (fault_count self.old) (fault_count self.new) result };

    /// Reads from an offset on into the front of the room and gives how many bytes: one at least where there is room
    /// and a byte, or 0 at the end and past it. After a fault nothing is said of the room.
    fn read(&mut self, at: u64, room: &mut [u8]) -> Result<usize, DiskFault>
        ensures within { IfOk result (λ n. n ≤ length room.old) }
        ensures answer { IfOk result (λ n. IfSome (told self.old) (λ t. Gives t.now.bytes at n room.old room.new)) }
        ensures told { told self.new ≡ told self.old }
        ensures cause { DiskCause (fault_count self.old) (fault_count self.new) result };

    /// Writes over what is there from an offset on, and past the end. After `Failed` the range may hold any bytes, and
    /// the end is between the old one and that of a whole write; after `Memory` nothing has changed.
    fn write_at(&mut self, at: u64, bytes: &[u8]) -> Result<(), DiskFault>
        requires { IfSome (told self.now) (Reaches at) }
        ensures told { Writes (told self.old) (told self.new) at bytes.now result }
        ensures cause { DiskCause (fault_count self.old) (fault_count self.new) result };

    /// Cuts the disk to its first `len` bytes. After `Failed` what stands behind them may be any bytes, and the end is
    /// between the old one and the new one; after `Memory` nothing has changed.
    fn cut(&mut self, len: u64) -> Result<(), DiskFault>
        requires { IfSome (told self.now) (Reaches len) }
        ensures told { Cuts (told self.old) (told self.new) len result }
        ensures cause { DiskCause (fault_count self.old) (fault_count self.new) result };

    /// Makes what a read gives stay: from Ok on a crash leaves just that. After a fault nothing has changed.
    fn sync(&mut self) -> Result<(), DiskFault>
        ensures told { Syncs (told self.old) (told self.new) result }
        ensures cause { DiskCause (fault_count self.old) (fault_count self.new) result };

    fn faults(&self) -> u64
        ensures { result ≡ fault_count self.now };
}

impl From<AllocError> for DiskFault {
    ghost from_gives = { λ _ e. e ≡ OutOfMemory };

    fn from(_e: AllocError) -> DiskFault {
        DiskFault::Memory
    }
}

impl<T: Drop> From<AllocFailed<T>> for DiskFault {
    ghost from_gives = { λ _ e. e ≡ OutOfMemory };

    fn from(_e: AllocFailed<T>) -> DiskFault {
        DiskFault::Memory
    }
}

impl From<Memory> for DiskFault {
    ghost from_gives = { λ _ e. e ≡ OutOfMemory };

    fn from(_e: Memory) -> DiskFault {
        DiskFault::Memory
    }
}

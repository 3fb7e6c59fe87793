ghost use Rattle.std.specs.Prelude.{◌≡◌};
ghost use Rattle.journal_reading.specs.declared.fault.OpenFault.TheVariants.{Memory as OutOfMemory};
ghost use Rattle.journal_reading.specs.Faults.{open_fault_of};

use disks::DiskFault;
use std::alloc::{AllocError, AllocFailed};
use vet_base::Memory;

/// Why a journal was not opened.
#[derive(Clone, Copy, Debug, PartialEq, Eq)]
pub enum OpenFault {
    /// More than nine bytes that do not begin as a journal.
    Magic,
    /// The first record that is no change, or whose change does not fit, has its gate at this offset.
    Bad(u64),
    /// The disk failed; its count of faults rose.
    Failed,
    Memory,
}

impl From<DiskFault> for OpenFault {
    ghost from_gives = { λ fault e. e ≡ open_fault_of fault };

    fn from(fault: DiskFault) -> OpenFault {
        match fault {
            DiskFault::Failed => OpenFault::Failed,
            DiskFault::Memory => OpenFault::Memory,
        }
    }
}

impl From<AllocError> for OpenFault {
    ghost from_gives = { λ _ e. e ≡ OutOfMemory };

    fn from(_e: AllocError) -> OpenFault {
        OpenFault::Memory
    }
}

impl<T: Drop> From<AllocFailed<T>> for OpenFault {
    ghost from_gives = { λ _ e. e ≡ OutOfMemory };

    fn from(_e: AllocFailed<T>) -> OpenFault {
        OpenFault::Memory
    }
}

impl From<Memory> for OpenFault {
    ghost from_gives = { λ _ e. e ≡ OutOfMemory };

    fn from(_e: Memory) -> OpenFault {
        OpenFault::Memory
    }
}

ghost use Rattle.std.specs.Prelude.{◌≡◌, ◌≤◌, ℕ, List, Option, length, IfOk};
ghost use Rattle.vet_base.specs.declared.outside.FileFault.TheVariants.{Memory as file_memory};
ghost use Rattle.vet_base.specs.declared.outside.PutFault.TheVariants.{Memory as put_memory};
ghost use Rattle.vet_base.specs.Outside.{Told, AnswersRead, told_after_read};
ghost use Rattle.vet_base.specs.Outside.{WritesFile, FileCause, PutsBytes, PutCause};

use crate::{Memory, Name};
use std::alloc::{AllocError, AllocFailed, Global};

/// Why a call of files gave nothing.
#[derive(Clone, Copy, Debug, PartialEq, Eq)]
pub enum FileFault {
    /// There is no such file.
    Absent,
    /// The file has more bytes than the limit.
    TooLong,
    /// The outside failed; the count of faults rose.
    Failed,
    Memory,
}

/// A call of files that failed, with the name of the file.
#[derive(Drop)]
pub enum FailedCall {
    Read(Name),
    Write(Name),
}

/// Files by name.
pub trait Files {
    /// What the files hold and which call failed last, where they tell it.
    ghost told: { Self → Option Told };

    /// How often a call failed. At 2^64 - 1 it stays.
    ghost fault_count: { Self → ℕ };

    /// The bytes of a file of at most `limit` bytes. It changes no file.
    fn read(&mut self, alloc: Global, name: &str, limit: u64) -> Result<Vec<u8>, FileFault>
        ensures answer { AnswersRead (told self.old) name.now limit result }
        ensures told { told self.new ≡ told_after_read (told self.old) name.now result }
        ensures limit { IfOk result (λ v. length v.items ≤ limit) }
        ensures cause { FileCause (fault_count self.old) (fault_count self.new) result };

    /// Gives a file these bytes. After `Failed` it has its old bytes or a prefix of these; other files stay.
    fn write(&mut self, alloc: Global, name: &str, bytes: &[u8]) -> Result<(), FileFault>
        ensures told { WritesFile (told self.old) (told self.new) name.now bytes.now result }
        ensures cause { FileCause (fault_count self.old) (fault_count self.new) result };

    fn faults(&self) -> u64
        ensures { result ≡ fault_count self.now };
}

/// Why a sink did not take all bytes.
#[derive(Clone, Copy, Debug, PartialEq, Eq)]
pub enum PutFault {
    /// The outside failed; the count of faults rose.
    Failed,
    Memory,
}

/// Where printed bytes go.
pub trait Sink {
    /// The bytes that it took so far, where it tells them.
    ghost taken: { Self → Option (List ℕ) };

    /// How often a call failed. At 2^64 - 1 it stays.
    ghost fault_count: { Self → ℕ };

    /// Appends the bytes. After `Failed` a prefix of them was appended.
    fn put(&mut self, alloc: Global, bytes: &[u8]) -> Result<(), PutFault>
        ensures taken { PutsBytes (taken self.old) (taken self.new) bytes.now result }
        ensures cause { PutCause (fault_count self.old) (fault_count self.new) result };

    fn faults(&self) -> u64
        ensures { result ≡ fault_count self.now };
}

impl From<AllocError> for FileFault {
    ghost from_gives = { λ _ e. e ≡ file_memory };

    fn from(_e: AllocError) -> FileFault {
        FileFault::Memory
    }
}

impl<T: Drop> From<AllocFailed<T>> for FileFault {
    ghost from_gives = { λ _ e. e ≡ file_memory };

    fn from(_e: AllocFailed<T>) -> FileFault {
        FileFault::Memory
    }
}

impl From<AllocError> for PutFault {
    ghost from_gives = { λ _ e. e ≡ put_memory };

    fn from(_e: AllocError) -> PutFault {
        PutFault::Memory
    }
}

impl<T: Drop> From<AllocFailed<T>> for PutFault {
    ghost from_gives = { λ _ e. e ≡ put_memory };

    fn from(_e: AllocFailed<T>) -> PutFault {
        PutFault::Memory
    }
}

impl From<Memory> for FileFault {
    ghost from_gives = { λ _ e. e ≡ file_memory };

    fn from(_e: Memory) -> FileFault {
        FileFault::Memory
    }
}

impl From<Memory> for PutFault {
    ghost from_gives = { λ _ e. e ≡ put_memory };

    fn from(_e: Memory) -> PutFault {
        PutFault::Memory
    }
}

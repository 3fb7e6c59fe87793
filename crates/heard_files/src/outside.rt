ghost use Rattle.std.specs.Prelude.{◌≡◌, ◌≤◌, ℕ, List, Option, length, IfOk};
ghost use Rattle.vet_base.specs.Outside.{Told, AnswersRead, told_after_read};
ghost use Rattle.vet_base.specs.Outside.{WritesFile, FileCause, PutsBytes, PutCause};
ghost use Rattle.heard_files.specs.Outside.{Entry, heard_after, handed_after};

use std::alloc::Global;
use vet_base::{FileFault, PutFault};

/// Files by name, as those of `vet_base`, which remember what each read gave.
pub trait Files {
    /// What the files hold and which call failed last, where they tell it.
    ghost told: { Self → Option Told };

    /// How often a call failed. At 2^64 - 1 it stays.
    ghost fault_count: { Self → ℕ };

    /// The reads so far in their order, each by the name of the file, the most bytes that were asked for, and what it
    /// gave: the bytes, or why there are none.
    ghost heard: { Self → List Entry };

    /// The bytes of a file of at most `limit` bytes. It changes no file.
    fn read(&mut self, alloc: Global, name: &str, limit: u64) -> Result<Vec<u8>, FileFault>
        ensures answer { AnswersRead (told self.old) name.now limit result }
        ensures told { told self.new ≡ told_after_read (told self.old) name.now result }
        ensures limit { IfOk result (λ v. length v.items ≤ limit) }
        ensures cause { FileCause (fault_count self.old) (fault_count self.new) result }
        ensures heard { heard self.new ≡ heard_after (heard self.old) name.now limit result };

    /// Gives a file these bytes. After `Failed` it has its old bytes or a prefix of these; other files stay.
    fn write(&mut self, alloc: Global, name: &str, bytes: &[u8]) -> Result<(), FileFault>
        ensures told { WritesFile (told self.old) (told self.new) name.now bytes.now result }
        ensures cause { FileCause (fault_count self.old) (fault_count self.new) result }
        ensures heard { heard self.new ≡ heard self.old };

    fn faults(&self) -> u64
        ensures { result ≡ fault_count self.now };
}

/// Where printed bytes go, as a sink of `vet_base`, which remembers what was handed over.
pub trait Sink {
    /// The bytes that it took so far, where it tells them.
    ghost taken: { Self → Option (List ℕ) };

    /// How often a call failed. At 2^64 - 1 it stays.
    ghost fault_count: { Self → ℕ };

    /// The bytes that were handed over so far.
    ghost handed: { Self → List ℕ };

    /// Appends the bytes. After `Failed` a prefix of them was appended.
    fn put(&mut self, alloc: Global, bytes: &[u8]) -> Result<(), PutFault>
        ensures taken { PutsBytes (taken self.old) (taken self.new) bytes.now result }
        ensures cause { PutCause (fault_count self.old) (fault_count self.new) result }
        ensures handed { handed self.new ≡ handed_after (handed self.old) bytes.now result };

    fn faults(&self) -> u64
        ensures { result ≡ fault_count self.now };
}

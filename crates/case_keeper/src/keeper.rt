ghost use Rattle.std.specs.Prelude.{◌≡◌, ℕ, List, Option, Some, true, find, IfOk, IfSome};
ghost use Rattle.case_rules.specs.Cases.{is_named, is_queued, queued_of, own_lines, open_lines};
ghost use Rattle.case_rules.specs.declared.case.Case.{Case};
ghost use Rattle.case_rules.specs.Docket.{Fits};
ghost use Rattle.case_keeper.specs.declared.keeper.KeepFault.TheVariants.{Memory as OutOfMemory};
ghost use Rattle.case_keeper.specs.Keeper.{Tells, history_of, told_after, KeepCause};

use case_rules::{Case, Change, Entry, Line};
use std::alloc::{AllocError, AllocFailed, Global};
use vet_base::{Memory, Name, Shared};

/// Why a keeper gave nothing.
#[derive(Clone, Copy, Debug, PartialEq, Eq)]
pub enum KeepFault {
    /// The outside failed; the count of faults rose.
    Failed,
    Memory,
}

/// The cases of the desk, in the order of submission.
pub trait Keeper {
    /// The cases, where the keeper tells them.
    ghost told: { Self → Option (List Case) };

    /// How often a call failed. At 2^64 - 1 it stays.
    ghost fault_count: { Self → ℕ };

    /// The case of this developer and reference.
    fn find(
        &mut self,
        alloc: Global,
        party: &Name,
        reference: &Name,
    ) -> Result<Option<Case>, KeepFault>
        ensures answer { Tells (find (is_named party.now reference.now)) (told self.old) result }
        ensures told { told self.new ≡ told self.old }
        ensures cause { KeepCause (fault_count self.old) (fault_count self.new) result };

    /// The entries of the case of this developer and reference: all that a keeper has to tell of it but its content.
    fn history(
        &mut self,
        alloc: Global,
        party: &Name,
        reference: &Name,
    ) -> Result<Option<Shared<Entry>>, KeepFault>
        ensures answer { Tells (history_of party.now reference.now) (told self.old) result }
        ensures told { told self.new ≡ told self.old }
        ensures cause { KeepCause (fault_count self.old) (fault_count self.new) result };

    /// The first case without an entry.
    fn first_queued(&mut self, alloc: Global) -> Result<Option<Case>, KeepFault>
        ensures answer { Tells (find is_queued) (told self.old) result }
        ensures queued { IfOk result (λ found. IfSome found (λ case. is_queued case ≡ true)) }
        ensures told { told self.new ≡ told self.old }
        ensures cause { KeepCause (fault_count self.old) (fault_count self.new) result };

    /// How many cases of the developer have no entry.
    fn queued(&mut self, alloc: Global, party: &Name) -> Result<u64, KeepFault>
        ensures answer { Tells (queued_of party.now) (told self.old) result }
        ensures told { told self.new ≡ told self.old }
        ensures cause { KeepCause (fault_count self.old) (fault_count self.new) result };

    /// The cases of the developer, by reference.
    fn list(&mut self, alloc: Global, party: &Name) -> Result<Shared<Line>, KeepFault>
        ensures answer { Tells (own_lines party.now) (told self.old) result }
        ensures told { told self.new ≡ told self.old }
        ensures cause { KeepCause (fault_count self.old) (fault_count self.new) result };

    /// The cases whose last entry has an appeal and no ruling, by developer and reference.
    fn appeals(&mut self, alloc: Global) -> Result<Shared<Line>, KeepFault>
        ensures answer { Tells open_lines (told self.old) result }
        ensures told { told self.new ≡ told self.old }
        ensures cause { KeepCause (fault_count self.old) (fault_count self.new) result };

    /// Makes a change that fits the cases. After a fault they are as before.
    fn apply(&mut self, alloc: Global, change: &Change) -> Result<(), KeepFault>
        requires { (cases : List Case) → told self.old ≡ Some cases → Fits change.now cases }
        ensures told { told self.new ≡ told_after change.now (told self.old) result }
        ensures cause { KeepCause (fault_count self.old) (fault_count self.new) result };

    fn faults(&self) -> u64
        ensures { result ≡ fault_count self.now };
}

impl From<AllocError> for KeepFault {
    ghost from_gives = { λ _ e. e ≡ OutOfMemory };

    fn from(_e: AllocError) -> KeepFault {
        KeepFault::Memory
    }
}

impl<T: Drop> From<AllocFailed<T>> for KeepFault {
    ghost from_gives = { λ _ e. e ≡ OutOfMemory };

    fn from(_e: AllocFailed<T>) -> KeepFault {
        KeepFault::Memory
    }
}

impl From<Memory> for KeepFault {
    ghost from_gives = { λ _ e. e ≡ OutOfMemory };

    fn from(_e: Memory) -> KeepFault {
        KeepFault::Memory
    }
}

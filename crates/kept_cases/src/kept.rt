ghost use Rattle.kept_cases.specs.Kept.{of_kept};

use case_keeper::{KeepFault, Keeper};
use case_rules::{Case, Change, Entry, Line};
use std::alloc::Global;
use vet_base::{Name, Shared};

/// The keeper of the cases: tables of a database, or a journal. It tells what that keeper tells.
#[derive(Drop)]
pub enum KeptCases<T: Drop, J: Drop> {
    Tables(T),
    Journal(J),
}

impl<T: Keeper + Drop, J: Keeper + Drop> Keeper for KeptCases<T, J> {
    ghost told = { of_kept T.told J.told };

    ghost fault_count = { of_kept T.fault_count J.fault_count };

    fn find(
        &mut self,
        alloc: Global,
        party: &Name,
        reference: &Name,
    ) -> Result<Option<Case>, KeepFault> {
        match self {
            KeptCases::Tables(keeper) => keeper.find(alloc, party, reference),
            KeptCases::Journal(keeper) => keeper.find(alloc, party, reference),
        }
    }

    fn history(
        &mut self,
        alloc: Global,
        party: &Name,
        reference: &Name,
    ) -> Result<Option<Shared<Entry>>, KeepFault> {
        match self {
            KeptCases::Tables(keeper) => keeper.history(alloc, party, reference),
            KeptCases::Journal(keeper) => keeper.history(alloc, party, reference),
        }
    }

    fn first_queued(&mut self, alloc: Global) -> Result<Option<Case>, KeepFault> {
        match self {
            KeptCases::Tables(keeper) => keeper.first_queued(alloc),
            KeptCases::Journal(keeper) => keeper.first_queued(alloc),
        }
    }

    fn queued(&mut self, alloc: Global, party: &Name) -> Result<u64, KeepFault> {
        match self {
            KeptCases::Tables(keeper) => keeper.queued(alloc, party),
            KeptCases::Journal(keeper) => keeper.queued(alloc, party),
        }
    }

    fn list(&mut self, alloc: Global, party: &Name) -> Result<Shared<Line>, KeepFault> {
        match self {
            KeptCases::Tables(keeper) => keeper.list(alloc, party),
            KeptCases::Journal(keeper) => keeper.list(alloc, party),
        }
    }

    fn appeals(&mut self, alloc: Global) -> Result<Shared<Line>, KeepFault> {
        match self {
            KeptCases::Tables(keeper) => keeper.appeals(alloc),
            KeptCases::Journal(keeper) => keeper.appeals(alloc),
        }
    }

    fn apply(&mut self, alloc: Global, change: &Change) -> Result<(), KeepFault> {
        match self {
            KeptCases::Tables(keeper) => keeper.apply(alloc, change),
            KeptCases::Journal(keeper) => keeper.apply(alloc, change),
        }
    }

    fn faults(&self) -> u64 {
        match self {
            KeptCases::Tables(keeper) => keeper.faults(),
            KeptCases::Journal(keeper) => keeper.faults(),
        }
    }
}

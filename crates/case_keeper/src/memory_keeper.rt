ghost use Rattle.std.specs.Prelude.{◌≡◌, [], Some, true, find, IfOk, IfSome};
ghost use Rattle.case_rules.specs.Cases.{is_named, is_queued, queued_of, own_lines, open_lines};
ghost use Rattle.case_rules.specs.Docket.{Fits};
ghost use Rattle.case_keeper.specs.Keeper.{Tells, history_of, told_after, KeepCause};
ghost use Rattle.case_keeper.specs.MemoryKeeper.{fails_next, FailsAsNumbered, CountsCall};

use crate::holding::{add, case_at, case_named, first_queued_from, replace};
use crate::listing::{lines_at, lines_of_set};
use crate::placing::{CaseIndex, places_of, waiting_of};
use crate::{KeepFault, Keeper};
use case_rules::{Case, Change, Entry, Line};
use std::alloc::Global;
use std::collections::{BTreeMap, BTreeSet};
use std::marker::Model;
use vet_base::{Name, Shared};

/// A keeper in memory. It tells its cases, and fails at the calls whose numbers it was given.
#[derive(Drop)]
pub struct MemKeeper {
    cases: Vec<Case>,
    index: CaseIndex,
    /// No case before this place is queued.
    decided: usize,
    failing: Vec<u64>,
    calls: u64,
    faults: u64,
}

impl Model for MemKeeper {
    ghost use Rattle.case_keeper.specs.MemoryKeeper.{Kept, IsHeld};

    ghost Value = { Kept };

    ghost view = { λ m. record {
      cases = m.cases.items;
      failing = m.failing.items;
      calls = m.calls;
      faults = m.faults;
    } };

    ghost invariant = { λ m. IsHeld m.cases.items m.index m.decided };
}

impl MemKeeper {
    /// A keeper without cases that never fails.
    pub fn new(alloc: Global) -> Self
        ensures { result ≡ record { cases = []; failing = []; calls = 0; faults = 0 } }
    {
        MemKeeper::failing(alloc, Vec::new(alloc))
    }

    /// A keeper without cases. Its calls but `faults` are numbered
    /// from 1, and the n-th fails exactly where n is in `calls`.
    pub fn failing(alloc: Global, calls: Vec<u64>) -> Self
        ensures { result ≡ record { cases = []; failing = calls.items; calls = 0; faults = 0 } }
    {
        MemKeeper {
            cases: Vec::new(alloc),
            index: CaseIndex {
                places: BTreeMap::new(alloc),
                owned: BTreeMap::new(alloc),
                waiting: BTreeMap::new(alloc),
                appealed: BTreeSet::new(alloc),
            },
            decided: 0,
            failing: calls,
            calls: 0,
            faults: 0,
        }
    }

    /// Counts a call, and fails where its number is listed.
    fn begin(&mut self) -> Result<(), KeepFault>
        ensures cases { self.new.cases ≡ self.old.cases }
        ensures numbered { FailsAsNumbered (fails_next self.old) result }
        ensures counted { CountsCall self.old self.new }
        ensures cause { KeepCause self.old.faults self.new.faults result }
    {
        self.calls = self.calls.saturating_add(1);
        if self.failing.contains(&self.calls) {
            self.faults = self.faults.saturating_add(1);
            return Err(KeepFault::Failed);
        }
        Ok(())
    }
}

impl Keeper for MemKeeper {
    ghost told = { λ m. Some m.cases };

    ghost fault_count = { λ m. m.faults };

    fn find(
        &mut self,
        _alloc: Global,
        party: &Name,
        reference: &Name,
    ) -> Result<Option<Case>, KeepFault>
        ensures answer { Tells (find (is_named party.now reference.now)) (Some self.old.cases) result }
        ensures told { Some self.new.cases ≡ Some self.old.cases }
        ensures cause { KeepCause self.old.faults self.new.faults result }
        ensures numbered { FailsAsNumbered (fails_next self.old) result }
        ensures counted { CountsCall self.old self.new }
    {
        self.begin()?;
        let Some(case) = case_named(&self.cases, &self.index.places, party, reference)? else {
            return Ok(None);
        };
        Ok(Some(case.copy()?))
    }

    fn history(
        &mut self,
        _alloc: Global,
        party: &Name,
        reference: &Name,
    ) -> Result<Option<Shared<Entry>>, KeepFault>
        ensures answer { Tells (history_of party.now reference.now) (Some self.old.cases) result }
        ensures told { Some self.new.cases ≡ Some self.old.cases }
        ensures cause { KeepCause self.old.faults self.new.faults result }
        ensures numbered { FailsAsNumbered (fails_next self.old) result }
        ensures counted { CountsCall self.old self.new }
    {
        self.begin()?;
        let Some(case) = case_named(&self.cases, &self.index.places, party, reference)? else {
            return Ok(None);
        };
        Ok(Some(case.entries.copy()?))
    }

    fn first_queued(&mut self, _alloc: Global) -> Result<Option<Case>, KeepFault>
        ensures answer { Tells (find is_queued) (Some self.old.cases) result }
        ensures queued { IfOk result (λ found. IfSome found (λ case. is_queued case ≡ true)) }
        ensures told { Some self.new.cases ≡ Some self.old.cases }
        ensures cause { KeepCause self.old.faults self.new.faults result }
        ensures numbered { FailsAsNumbered (fails_next self.old) result }
        ensures counted { CountsCall self.old self.new }
    {
        self.begin()?;
        self.decided = first_queued_from(&self.cases, self.decided);
        let Some(case) = case_at(&self.cases, self.decided) else {
            return Ok(None);
        };
        Ok(Some(case.copy()?))
    }

    fn queued(&mut self, _alloc: Global, party: &Name) -> Result<u64, KeepFault>
        ensures answer { Tells (queued_of party.now) (Some self.old.cases) result }
        ensures told { Some self.new.cases ≡ Some self.old.cases }
        ensures cause { KeepCause self.old.faults self.new.faults result }
        ensures numbered { FailsAsNumbered (fails_next self.old) result }
        ensures counted { CountsCall self.old self.new }
    {
        self.begin()?;
        Ok(waiting_of(&self.index.waiting, party))
    }

    fn list(&mut self, alloc: Global, party: &Name) -> Result<Shared<Line>, KeepFault>
        ensures answer { Tells (own_lines party.now) (Some self.old.cases) result }
        ensures told { Some self.new.cases ≡ Some self.old.cases }
        ensures cause { KeepCause self.old.faults self.new.faults result }
        ensures numbered { FailsAsNumbered (fails_next self.old) result }
        ensures counted { CountsCall self.old self.new }
    {
        self.begin()?;
        let places = places_of(&self.index.owned, party);
        Ok(lines_at(alloc, &self.cases, places)?)
    }

    fn appeals(&mut self, alloc: Global) -> Result<Shared<Line>, KeepFault>
        ensures answer { Tells open_lines (Some self.old.cases) result }
        ensures told { Some self.new.cases ≡ Some self.old.cases }
        ensures cause { KeepCause self.old.faults self.new.faults result }
        ensures numbered { FailsAsNumbered (fails_next self.old) result }
        ensures counted { CountsCall self.old self.new }
    {
        self.begin()?;
        Ok(lines_of_set(alloc, &self.cases, &self.index.appealed)?)
    }

    fn apply(&mut self, alloc: Global, change: &Change) -> Result<(), KeepFault>
        requires { Fits change.now self.old.cases }
        ensures told { Some self.new.cases ≡ told_after change.now (Some self.old.cases) result }
        ensures cause { KeepCause self.old.faults self.new.faults result }
        ensures numbered { FailsAsNumbered (fails_next self.old) result }
        ensures counted { CountsCall self.old self.new }
    {
        self.begin()?;
        match change {
            Change::Add(case) => {
                add(alloc, &mut self.cases, &mut self.index, case)?;
            }
            Change::Decide(party, reference, _)
            | Change::Appeal(party, reference, _)
            | Change::Rule(party, reference, _) => {
                replace(
                    alloc,
                    &mut self.cases,
                    &mut self.index,
                    party,
                    reference,
                    change,
                )?;
            }
        }
        Ok(())
    }

    fn faults(&self) -> u64 {
        self.faults
    }
}

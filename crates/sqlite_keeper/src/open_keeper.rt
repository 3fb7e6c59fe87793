ghost use Rattle.std.specs.Prelude.{◌≡◌, true, find, IfOk, IfSome};
ghost use Rattle.case_rules.specs.Cases.{is_named, is_queued, queued_of, own_lines, open_lines};
ghost use Rattle.case_keeper.specs.Keeper.{Tells, history_of, told_after, KeepCause};
ghost use Rattle.sqlite_keeper.specs.Counting.{untold, counted};

use crate::asking::{named, queued};
use crate::counting::counting;
use case_keeper::{KeepFault, Keeper};
use case_rules::{Case, Change, Entry, Line};
use case_tables::Database;
use sqlite::{Alter, Connection};
use std::alloc::Global;
use vet_base::{Name, Shared};

/// A keeper over a connection that is open. It tells no cases.
#[derive(Drop)]
pub struct OpenKeeper<S: Alter + Drop> {
    database: Database<S>,
    faults: u64,
}

impl<S: Alter + Drop> OpenKeeper<S> {
    /// Takes the connection, and asks nothing of it. The first call of the keeper makes the tables.
    pub fn adopt(connection: Connection<S>) -> OpenKeeper<S>
        ensures connection { result.database.connection ≡ connection }
        ensures faults { result.faults ≡ 0 }
    {
        OpenKeeper {
            database: Database::over(connection),
            faults: 0,
        }
    }

    /// Whether an earlier failure closed the connection, so that each call fails.
    pub fn is_closed(&mut self) -> bool
        ensures { self.new.faults ≡ self.old.faults }
    {
        self.database.is_closed()
    }

    /// Hands the connection back.
    pub fn give_back(self) -> Connection<S>
        ensures { result ≡ self.database.connection }
    {
        self.database.give_back()
    }
}

impl<S: Alter + Drop> Keeper for OpenKeeper<S> {
    ghost told = { λ _. untold };

    ghost fault_count = { λ k. k.faults };

    fn find(
        &mut self,
        alloc: Global,
        party: &Name,
        reference: &Name,
    ) -> Result<Option<Case>, KeepFault>
        ensures answer { Tells (find (is_named party.now reference.now)) untold result }
        ensures named { IfOk result (λ found. IfSome found (λ case. is_named party.now reference.now case ≡ true)) }
        ensures told { untold ≡ untold }
        ensures cause { KeepCause self.old.faults self.new.faults result }
        ensures counted { self.new.faults ≡ counted self.old.faults result }
    {
        let found = self.database.find(alloc, party, reference);
        counting(&mut self.faults, named(found, party, reference))
    }

    fn history(
        &mut self,
        alloc: Global,
        party: &Name,
        reference: &Name,
    ) -> Result<Option<Shared<Entry>>, KeepFault>
        ensures answer { Tells (history_of party.now reference.now) untold result }
        ensures told { untold ≡ untold }
        ensures cause { KeepCause self.old.faults self.new.faults result }
        ensures counted { self.new.faults ≡ counted self.old.faults result }
    {
        let found = self.database.history(alloc, party, reference);
        counting(&mut self.faults, found)
    }

    fn first_queued(&mut self, alloc: Global) -> Result<Option<Case>, KeepFault>
        ensures answer { Tells (find is_queued) untold result }
        ensures queued { IfOk result (λ found. IfSome found (λ case. is_queued case ≡ true)) }
        ensures told { untold ≡ untold }
        ensures cause { KeepCause self.old.faults self.new.faults result }
        ensures counted { self.new.faults ≡ counted self.old.faults result }
    {
        let found = self.database.first_queued(alloc);
        counting(&mut self.faults, queued(found))
    }

    fn queued(&mut self, alloc: Global, party: &Name) -> Result<u64, KeepFault>
        ensures answer { Tells (queued_of party.now) untold result }
        ensures told { untold ≡ untold }
        ensures cause { KeepCause self.old.faults self.new.faults result }
        ensures counted { self.new.faults ≡ counted self.old.faults result }
    {
        let count = self.database.queued(alloc, party);
        counting(&mut self.faults, count)
    }

    fn list(&mut self, alloc: Global, party: &Name) -> Result<Shared<Line>, KeepFault>
        ensures answer { Tells (own_lines party.now) untold result }
        ensures told { untold ≡ untold }
        ensures cause { KeepCause self.old.faults self.new.faults result }
        ensures counted { self.new.faults ≡ counted self.old.faults result }
    {
        let lines = self.database.list(alloc, party);
        counting(&mut self.faults, lines)
    }

    fn appeals(&mut self, alloc: Global) -> Result<Shared<Line>, KeepFault>
        ensures answer { Tells open_lines untold result }
        ensures told { untold ≡ untold }
        ensures cause { KeepCause self.old.faults self.new.faults result }
        ensures counted { self.new.faults ≡ counted self.old.faults result }
    {
        let lines = self.database.appeals(alloc);
        counting(&mut self.faults, lines)
    }

    fn apply(&mut self, alloc: Global, change: &Change) -> Result<(), KeepFault>
        ensures told { untold ≡ told_after change.now untold result }
        ensures cause { KeepCause self.old.faults self.new.faults result }
        ensures counted { self.new.faults ≡ counted self.old.faults result }
    {
        let done = self.database.apply(alloc, change);
        counting(&mut self.faults, done)
    }

    fn faults(&self) -> u64 {
        self.faults
    }
}

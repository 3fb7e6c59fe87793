ghost use Rattle.std.specs.Prelude.{◌≡◌, true, find, IfOk, IfSome};
ghost use Rattle.case_rules.specs.Cases.{is_named, is_queued, queued_of, own_lines, open_lines};
ghost use Rattle.case_keeper.specs.Keeper.{Tells, history_of, told_after, KeepCause};
ghost use Rattle.sqlite_keeper.specs.Counting.{untold, counted};

use crate::asking::{named, queued};
use crate::counting::counting;
use case_keeper::{KeepFault, Keeper};
use case_rules::{Case, Change, Entry, Line};
use case_tables::{Database, Refusal};
use sqlite::{Alter, Connection, Error};
use std::alloc::Global;
use vet_base::{Name, Shared};

/// What opens the connection of a keeper.
pub trait Opener {
    type Store: Alter + Drop;

    /// Opens the connection. Where it is refused, it may be asked again.
    fn open(&mut self) -> Result<Connection<Self::Store>, Error>;
}

/// A keeper that opens its connection at its first call; where that is refused, the next call tries again. A connection
/// that a failure closed is opened anew at the next call. It tells no cases.
#[derive(Drop)]
pub struct LateKeeper<O: Opener + Drop> {
    opener: O,
    database: Option<Database<O::Store>>,
    faults: u64,
}

impl<O: Opener + Drop> LateKeeper<O> {
    /// A keeper that has opened nothing.
    pub fn over(opener: O) -> LateKeeper<O>
        ensures { result.faults ≡ 0 }
    {
        LateKeeper {
            opener,
            database: None,
            faults: 0,
        }
    }
}

/// The database that is there, where it is open. One that a failure closed is let go, since a file is open once at a time.
fn still_open<S: Alter + Drop>(database: Option<Database<S>>) -> Option<Database<S>> {
    let mut database = database?;
    if database.is_closed() {
        return None;
    }
    Some(database)
}

/// The database, which is opened where it is not open.
fn opened<'a, O: Opener>(
    opener: &mut O,
    database: &'a mut Option<Database<O::Store>>,
) -> Result<&'a mut Database<O::Store>, Refusal> {
    let found = match still_open(database.take()) {
        Some(found) => found,
        None => Database::over(opener.open()?),
    };
    Ok(database.insert(found))
}

impl<O: Opener + Drop> Keeper for LateKeeper<O> {
    ghost told = { λ _. untold };

    ghost fault_count = { λ k. k.faults };

    fn find(
        &mut self,
        alloc: Global,
        party: &Name,
        reference: &Name,
    ) -> Result<Option<Case>, KeepFault>
        ensures answer { Tells (find (is_named party.now reference.now)) untold result }
        ensures named { IfOk result (λ found. IfSome found (λ case. is_named party.now reference.now case ≡ true)) }
        ensures told { untold ≡ untold }
        ensures cause { KeepCause self.old.faults self.new.faults result }
        ensures counted { self.new.faults ≡ counted self.old.faults result }
    {
        let found = match opened(&mut self.opener, &mut self.database) {
            Ok(database) => database.find(alloc, party, reference),
            Err(refusal) => Err(refusal),
        };
        counting(&mut self.faults, named(found, party, reference))
    }

    fn history(
        &mut self,
        alloc: Global,
        party: &Name,
        reference: &Name,
    ) -> Result<Option<Shared<Entry>>, KeepFault>
        ensures answer { Tells (history_of party.now reference.now) untold result }
        ensures told { untold ≡ untold }
        ensures cause { KeepCause self.old.faults self.new.faults result }
        ensures counted { self.new.faults ≡ counted self.old.faults result }
    {
        let found = match opened(&mut self.opener, &mut self.database) {
            Ok(database) => database.history(alloc, party, reference),
            Err(refusal) => Err(refusal),
        };
        counting(&mut self.faults, found)
    }

    fn first_queued(&mut self, alloc: Global) -> Result<Option<Case>, KeepFault>
        ensures answer { Tells (find is_queued) untold result }
        ensures queued { IfOk result (λ found. IfSome found (λ case. is_queued case ≡ true)) }
        ensures told { untold ≡ untold }
        ensures cause { KeepCause self.old.faults self.new.faults result }
        ensures counted { self.new.faults ≡ counted self.old.faults result }
    {
        let found = match opened(&mut self.opener, &mut self.database) {
            Ok(database) => database.first_queued(alloc),
            Err(refusal) => Err(refusal),
        };
        counting(&mut self.faults, queued(found))
    }

    fn queued(&mut self, alloc: Global, party: &Name) -> Result<u64, KeepFault>
        ensures answer { Tells (queued_of party.now) untold result }
        ensures told { untold ≡ untold }
        ensures cause { KeepCause self.old.faults self.new.faults result }
        ensures counted { self.new.faults ≡ counted self.old.faults result }
    {
        let count = match opened(&mut self.opener, &mut self.database) {
            Ok(database) => database.queued(alloc, party),
            Err(refusal) => Err(refusal),
        };
        counting(&mut self.faults, count)
    }

    fn list(&mut self, alloc: Global, party: &Name) -> Result<Shared<Line>, KeepFault>
        ensures answer { Tells (own_lines party.now) untold result }
        ensures told { untold ≡ untold }
        ensures cause { KeepCause self.old.faults self.new.faults result }
        ensures counted { self.new.faults ≡ counted self.old.faults result }
    {
        let lines = match opened(&mut self.opener, &mut self.database) {
            Ok(database) => database.list(alloc, party),
            Err(refusal) => Err(refusal),
        };
        counting(&mut self.faults, lines)
    }

    fn appeals(&mut self, alloc: Global) -> Result<Shared<Line>, KeepFault>
        ensures answer { Tells open_lines untold result }
        ensures told { untold ≡ untold }
        ensures cause { KeepCause self.old.faults self.new.faults result }
        ensures counted { self.new.faults ≡ counted self.old.faults result }
    {
        let lines = match opened(&mut self.opener, &mut self.database) {
            Ok(database) => database.appeals(alloc),
            Err(refusal) => Err(refusal),
        };
        counting(&mut self.faults, lines)
    }

    fn apply(&mut self, alloc: Global, change: &Change) -> Result<(), KeepFault>
        ensures told { untold ≡ told_after change.now untold result }
        ensures cause { KeepCause self.old.faults self.new.faults result }
        ensures counted { self.new.faults ≡ counted self.old.faults result }
    {
        let done = match opened(&mut self.opener, &mut self.database) {
            Ok(database) => database.apply(alloc, change),
            Err(refusal) => Err(refusal),
        };
        counting(&mut self.faults, done)
    }

    fn faults(&self) -> u64 {
        self.faults
    }
}

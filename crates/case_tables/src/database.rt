ghost use Rattle.std.specs.Prelude.{◌≡◌, true, false, IsOk};

use crate::changing::make_change;
use crate::index::Index;
use crate::opening::known;
use crate::reading::{case_numbered, entries_of, first_queued};
use crate::refusal::Refusal;
use crate::tables::make_tables;
use case_rules::{Case, Change, Entry, Line};
use sqlite::{Alter, Connection, Error, ErrorCode};
use std::alloc::Global;
use vet_base::{Name, Shared};

/// A connection whose first call makes the tables, and asks them what is known of the cases without their contents;
/// where that is refused, the next call tries again.
#[derive(Drop)]
pub struct Database<S: Alter + Drop> {
    connection: Connection<S>,
    has_tables: bool,
    index: Option<Index>,
}

impl<S: Alter + Drop> Database<S> {
    /// The database of a connection, of which nothing is asked yet.
    pub fn over(connection: Connection<S>) -> Database<S>
        ensures connection { result.connection ≡ connection }
        ensures tables { result.has_tables ≡ false }
    {
        Database {
            connection,
            has_tables: false,
            index: None,
        }
    }

    /// Hands the connection back.
    pub fn give_back(self) -> Connection<S>
        ensures { result ≡ self.connection }
    {
        let Database { connection, .. } = self;
        connection
    }

    /// Whether an earlier failure closed the connection, so that it refuses whatever it is asked. Only its compiler is
    /// asked, which reads and changes nothing.
    pub fn is_closed(&mut self) -> bool
        ensures { self.new.has_tables ≡ self.old.has_tables }
    {
        matches!(
            self.connection.prepare("SELECT 1"),
            Err(Error::SqliteFailure(ErrorCode::Closed))
        )
    }

    /// Makes the tables where they are not there.
    fn ready(&mut self) -> Result<(), Refusal>
        ensures { IsOk result → self.new.has_tables ≡ true }
    {
        if !self.has_tables {
            make_tables(&mut self.connection)?;
            self.has_tables = true;
        }
        Ok(())
    }

    /// The case that the database has of this developer and
    /// reference. Whether it has their name is for the caller to ask.
    pub fn find(
        &mut self,
        alloc: Global,
        party: &Name,
        reference: &Name,
    ) -> Result<Option<Case>, Refusal>
        // It answers only once the tables are there.
        ensures { IsOk result → self.new.has_tables ≡ true }
    {
        self.ready()?;
        let index = known(alloc, &mut self.connection, &mut self.index)?;
        match index.standing(party, reference) {
            None => Ok(None),
            Some(found) => Ok(Some(case_numbered(alloc, &mut self.connection, found.number)?)),
        }
    }

    /// The entries of the case that the database has of this developer and reference, oldest first. No content is read.
    pub fn history(
        &mut self,
        alloc: Global,
        party: &Name,
        reference: &Name,
    ) -> Result<Option<Shared<Entry>>, Refusal>
        ensures { IsOk result → self.new.has_tables ≡ true }
    {
        self.ready()?;
        let index = known(alloc, &mut self.connection, &mut self.index)?;
        match index.standing(party, reference) {
            None => Ok(None),
            Some(found) => Ok(Some(entries_of(alloc, &mut self.connection, found.number)?)),
        }
    }

    /// The case of the least number of those that the database tells to be without an entry, and that can be read.
    /// Whether it has none is for the caller to ask.
    pub fn first_queued(&mut self, alloc: Global) -> Result<Option<Case>, Refusal>
        ensures { IsOk result → self.new.has_tables ≡ true }
    {
        self.ready()?;
        let index = known(alloc, &mut self.connection, &mut self.index)?;
        first_queued(alloc, &mut self.connection, index.queue())
    }

    /// How many cases of the developer have no entry.
    pub fn queued(&mut self, alloc: Global, party: &Name) -> Result<u64, Refusal>
        ensures { IsOk result → self.new.has_tables ≡ true }
    {
        self.ready()?;
        let index = known(alloc, &mut self.connection, &mut self.index)?;
        Ok(index.queued(party))
    }

    /// The cases of the developer, by reference.
    pub fn list(&mut self, alloc: Global, party: &Name) -> Result<Shared<Line>, Refusal>
        ensures { IsOk result → self.new.has_tables ≡ true }
    {
        self.ready()?;
        let index = known(alloc, &mut self.connection, &mut self.index)?;
        Ok(index.lines_of(alloc, party)?)
    }

    /// The cases with an open appeal, by developer and reference.
    pub fn appeals(&mut self, alloc: Global) -> Result<Shared<Line>, Refusal>
        ensures { IsOk result → self.new.has_tables ≡ true }
    {
        self.ready()?;
        let index = known(alloc, &mut self.connection, &mut self.index)?;
        Ok(index.open_lines(alloc)?)
    }

    /// Makes a change in one transaction.
    pub fn apply(&mut self, alloc: Global, change: &Change) -> Result<(), Refusal>
        ensures { IsOk result → self.new.has_tables ≡ true }
    {
        self.ready()?;
        make_change(alloc, &mut self.connection, &mut self.index, change)
    }
}

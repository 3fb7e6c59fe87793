//! Keepers over databases in files. The tests are written for whatever keeper of a kind, since
//! a function that hands on the keeper over its store as a keeper is dear to prove: there is one.

ghost use Rattle.std.specs.Prelude.{IfOk};
ghost use Rattle.desk_serving.specs.Obeying.{TellsDocket};

use crate::faults::{Faults, LASTING};
use crate::store::Filed;
use case_keeper::{KeepFault, Keeper};
use case_rules::Change;
use sqlite::{Alter, Connection, Error, ErrorCode, Row};
use sqlite_keeper::{LateKeeper, OpenKeeper, Opener};
use std::alloc::Global;
use std::io;

/// A keeper over a database in files that are closed and opened again.
pub trait FileKeeper: Keeper + Drop + Sized {
    /// A keeper over an empty database, of which log and file fail so. Where they stop, the machine comes back when
    /// they are opened again; and where the database can't be made at first, it comes back then.
    fn blank(alloc: Global, faults: Faults) -> io::Result<Self>
        ensures { IfOk result (λ keeper. TellsDocket (Self.told keeper)) };

    /// A keeper over a database whose file has these bytes.
    fn of_bytes(alloc: Global, bytes: &[u8]) -> io::Result<Self>
        ensures { IfOk result (λ keeper. TellsDocket (Self.told keeper)) };

    /// The keeper over the same files, which are closed and opened again. Where they may have failed, the machine
    /// comes back in between, by which what was not synced is lost.
    fn reopened(self, alloc: Global, may_have_failed: bool) -> io::Result<Self>
        ensures { IfOk result (λ keeper. TellsDocket (Self.told keeper)) };

    /// The keeper once the statements have run.
    fn after(self, statements: &str) -> io::Result<Self>
        ensures { IfOk result (λ keeper. TellsDocket (Self.told keeper)) };

    /// Whether the database refuses a change, which need not fit, with one fault more.
    fn refuses(&mut self, alloc: Global, change: &Change) -> bool
        ensures { TellsDocket (Self.told self.new) };

    /// Whether a failure closed the database, so that its files are to be opened again.
    fn is_shut(&mut self) -> bool
        ensures { TellsDocket (Self.told self.new) };

    /// How many tables and indexes the database has.
    fn size(self) -> Option<i64>;
}

/// A keeper that opens its database at its first call, and anew where a failure closed it.
pub trait LateOne: Keeper + Drop + Sized {
    /// A keeper over an empty database, of which the connection is refused as often as said, and log and file fail so.
    /// Where a failure closes it, another empty database is opened, which does not fail.
    fn late(alloc: Global, refusals: u32, faults: Faults) -> io::Result<Self>
        ensures { IfOk result (λ keeper. TellsDocket (Self.told keeper)) };
}

/// The connection once the statements have run.
fn run<S: Alter + Drop>(connection: Connection<S>, statements: &str) -> io::Result<Connection<S>> {
    let mut connection = connection;
    match connection.execute_batch(statements) {
        Ok(()) => Ok(connection),
        Err(_) => Err(io::Error::other("a statement is refused")),
    }
}

/// The number in a row.
fn number_in(row: &Row) -> Option<i64> {
    row.get(0).ok()
}

/// How many tables and indexes a database has.
fn size_of<S: Alter + Drop>(connection: Connection<S>) -> Option<i64> {
    let mut connection = connection;
    match connection.query_row("SELECT count(*) FROM sqlite_schema", &[]) {
        Ok(row) => number_in(&row),
        Err(_) => None,
    }
}

impl<S: Filed> FileKeeper for OpenKeeper<S> {
    fn blank(alloc: Global, faults: Faults) -> io::Result<OpenKeeper<S>> {
        Ok(OpenKeeper::adopt(S::blank(alloc, faults)?))
    }

    fn of_bytes(alloc: Global, bytes: &[u8]) -> io::Result<OpenKeeper<S>> {
        Ok(OpenKeeper::adopt(S::of_bytes(alloc, bytes)?))
    }

    fn reopened(self, alloc: Global, may_have_failed: bool) -> io::Result<OpenKeeper<S>> {
        let store = self.give_back().into_store();
        Ok(OpenKeeper::adopt(store.reopened(alloc, may_have_failed)?))
    }

    fn after(self, statements: &str) -> io::Result<OpenKeeper<S>> {
        Ok(OpenKeeper::adopt(run(self.give_back(), statements)?))
    }

    fn refuses(&mut self, alloc: Global, change: &Change) -> bool {
        let before = self.faults();
        let is_refused = matches!(self.apply(alloc, change), Err(KeepFault::Failed));
        is_refused && self.faults() == before.saturating_add(1)
    }

    fn is_shut(&mut self) -> bool {
        self.is_closed()
    }

    fn size(self) -> Option<i64> {
        size_of(self.give_back())
    }
}

/// Refuses to open as often as said, and then opens a database, and where it is asked again another one.
#[derive(Drop)]
pub struct SlowOpener<S: Alter + Drop> {
    first: Option<Connection<S>>,
    second: Option<Connection<S>>,
    refusals: u32,
}

/// The first of two connections that is there.
fn next_of<S: Alter + Drop>(
    first: Option<Connection<S>>,
    second: &mut Option<Connection<S>>,
) -> Option<Connection<S>> {
    match first {
        Some(connection) => Some(connection),
        None => second.take(),
    }
}

impl<S: Alter + Drop> Opener for SlowOpener<S> {
    type Store = S;

    fn open(&mut self) -> Result<Connection<S>, Error> {
        if self.refusals > 0 {
            self.refusals -= 1;
            return Err(Error::SqliteFailure(ErrorCode::DatabaseBusy));
        }
        match next_of(self.first.take(), &mut self.second) {
            Some(connection) => Ok(connection),
            None => Err(Error::SqliteFailure(ErrorCode::CannotOpen)),
        }
    }
}

impl<S: Filed> LateOne for LateKeeper<SlowOpener<S>> {
    fn late(alloc: Global, refusals: u32, faults: Faults) -> io::Result<LateKeeper<SlowOpener<S>>> {
        let first = Some(S::blank(alloc, faults)?);
        let second = Some(S::blank(alloc, LASTING)?);
        Ok(LateKeeper::over(SlowOpener {
            first,
            second,
            refusals,
        }))
    }
}

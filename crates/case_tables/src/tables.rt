use crate::refusal::Refusal;
use sqlite::{Alter, Connection, Transaction};

/// The version of the tables that this crate reads and writes.
const VERSION: i64 = 2;

/// All tables. `decisions`, `appeals` and `rulings` are those of version 1, in which a case had at most one of
/// each; in version 2 they are empty.
const TABLES: &str = "
CREATE TABLE IF NOT EXISTS version (one INTEGER PRIMARY KEY, number INTEGER NOT NULL);
CREATE TABLE IF NOT EXISTS cases (number INTEGER PRIMARY KEY AUTOINCREMENT, party TEXT NOT NULL,
    reference TEXT NOT NULL, manifest BLOB NOT NULL, layouts BLOB NOT NULL, declaration BLOB NOT NULL,
    UNIQUE (party, reference));
CREATE TABLE IF NOT EXISTS dex (number INTEGER NOT NULL, place INTEGER NOT NULL, bytes BLOB NOT NULL,
    PRIMARY KEY (number, place));
CREATE TABLE IF NOT EXISTS decisions (number INTEGER PRIMARY KEY, outcome TEXT NOT NULL, report BLOB NOT NULL,
    lists BLOB NOT NULL, reviewer TEXT NOT NULL, day INTEGER NOT NULL);
CREATE TABLE IF NOT EXISTS appeals (number INTEGER PRIMARY KEY, day INTEGER NOT NULL, body BLOB NOT NULL);
CREATE TABLE IF NOT EXISTS rulings (number INTEGER PRIMARY KEY, reviewer TEXT NOT NULL, day INTEGER NOT NULL,
    word TEXT NOT NULL);
CREATE TABLE IF NOT EXISTS entries (number INTEGER NOT NULL, place INTEGER NOT NULL, outcome TEXT NOT NULL,
    report BLOB NOT NULL, lists BLOB NOT NULL, reviewer TEXT NOT NULL, day INTEGER NOT NULL,
    PRIMARY KEY (number, place), UNIQUE (number, lists));
CREATE TABLE IF NOT EXISTS entry_appeals (number INTEGER NOT NULL, place INTEGER NOT NULL, day INTEGER NOT NULL,
    body BLOB NOT NULL, PRIMARY KEY (number, place));
CREATE TABLE IF NOT EXISTS entry_rulings (number INTEGER NOT NULL, place INTEGER NOT NULL, reviewer TEXT NOT NULL,
    day INTEGER NOT NULL, word TEXT NOT NULL, PRIMARY KEY (number, place))";

/// Makes version 2 of version 1: the one decision of a case becomes its entry 0.
const RAISE: &str = "
INSERT INTO entries (number, place, outcome, report, lists, reviewer, day)
    SELECT number, 0, outcome, report, lists, reviewer, day FROM decisions;
INSERT INTO entry_appeals (number, place, day, body) SELECT number, 0, day, body FROM appeals;
INSERT INTO entry_rulings (number, place, reviewer, day, word)
    SELECT number, 0, reviewer, day, word FROM rulings;
DELETE FROM decisions;
DELETE FROM appeals;
DELETE FROM rulings;
INSERT INTO version (one, number) VALUES (1, 2)";

/// Lets go what an earlier program kept beside the tables: the state of each case, which the others tell.
const LET_GO: &str = "DROP TABLE IF EXISTS states";

/// The version that the database says, where it says one.
fn version_of<S: Alter>(transaction: &mut Transaction<'_, S>) -> Result<Option<i64>, Refusal> {
    let rows = transaction.query_all("SELECT number FROM version", &[])?;
    match rows.first() {
        None => Ok(None),
        Some(row) => Ok(Some(row.get(0)?)),
    }
}

/// Makes the tables that are not there, and raises those of version 1.
fn make_or_raise<S: Alter>(transaction: &mut Transaction<'_, S>) -> Result<(), Refusal> {
    transaction.execute_batch(TABLES)?;
    match version_of(transaction)? {
        None => Ok(transaction.execute_batch(RAISE)?),
        Some(VERSION) => Ok(transaction.execute_batch(LET_GO)?),
        Some(_) => Err(Refusal::Database),
    }
}

/// Brings the tables to this version in one transaction. A database of another version than 1 and 2 is refused.
pub fn make_tables<S: Alter>(connection: &mut Connection<S>) -> Result<(), Refusal> {
    if !connection.is_autocommit() {
        return Err(Refusal::Database);
    }
    let mut transaction = connection.transaction();
    make_or_raise(&mut transaction)?;
    Ok(transaction.commit()?)
}

use crate::columns::{Heading, InRow};
use crate::refusal::Refusal;
use case_rules::{Case, Content, Entry};
use sqlite::types::ValueRef;
use sqlite::{Alter, Connection, Rows};
use std::alloc::Global;
use std::collections::BTreeSet;
use vet_base::Shared;

/// Puts what the next row holds behind the others; whether there was one.
fn push_next<S: Alter, T: InRow>(
    alloc: Global,
    rows: &mut Rows<'_, S>,
    all: &mut Vec<T>,
) -> Result<bool, Refusal> {
    match rows.next()? {
        None => Ok(false),
        Some(row) => {
            all.push(T::in_row(alloc, row)?)?;
            Ok(true)
        }
    }
}

fn push_rows<S: Alter, T: InRow>(
    alloc: Global,
    rows: &mut Rows<'_, S>,
    all: &mut Vec<T>,
) -> Result<(), Refusal> {
    for _ in 0..u64::MAX {
        if !push_next(alloc, rows, all)? {
            break;
        }
    }
    Ok(())
}

/// Puts what each row of an answer holds behind the others.
fn push_answer<S: Alter, T: InRow>(
    alloc: Global,
    connection: &mut Connection<S>,
    query: &str,
    values: &[ValueRef<'_>],
    all: &mut Vec<T>,
) -> Result<(), Refusal> {
    let mut rows = connection.query(query, values)?;
    push_rows(alloc, &mut rows, all)
}

/// What the rows of an answer hold, in their order.
pub fn all_in<S: Alter, T: InRow>(
    alloc: Global,
    connection: &mut Connection<S>,
    query: &str,
    values: &[ValueRef<'_>],
) -> Result<Shared<T>, Refusal> {
    let mut all = Vec::new(alloc);
    push_answer(alloc, connection, query, values, &mut all)?;
    Ok(Shared::from_vec(alloc, all)?)
}

/// The files of a case, in their order.
fn files_of<S: Alter>(
    alloc: Global,
    connection: &mut Connection<S>,
    number: i64,
) -> Result<Shared<Shared<u8>>, Refusal> {
    all_in(
        alloc,
        connection,
        "SELECT bytes FROM dex WHERE number = ?1 ORDER BY place",
        &[ValueRef::Int(number)],
    )
}

/// The entries of a case, oldest first.
pub fn entries_of<S: Alter>(
    alloc: Global,
    connection: &mut Connection<S>,
    number: i64,
) -> Result<Shared<Entry>, Refusal> {
    all_in(
        alloc,
        connection,
        "SELECT entries.outcome, entries.report, entries.lists, entries.reviewer, entries.day,
            entry_appeals.day, entry_appeals.body, entry_rulings.reviewer, entry_rulings.day, entry_rulings.word
        FROM entries
        LEFT JOIN entry_appeals
            ON entry_appeals.number = entries.number AND entry_appeals.place = entries.place
        LEFT JOIN entry_rulings
            ON entry_rulings.number = entries.number AND entry_rulings.place = entries.place
        WHERE entries.number = ?1 ORDER BY entries.place",
        &[ValueRef::Int(number)],
    )
}

fn heading_of<S: Alter>(
    alloc: Global,
    connection: &mut Connection<S>,
    number: i64,
) -> Result<Heading, Refusal> {
    let row = connection.query_row(
        "SELECT party, reference, manifest, layouts, declaration FROM cases WHERE number = ?1",
        &[ValueRef::Int(number)],
    )?;
    Heading::in_row(alloc, &row)
}

fn case_of(heading: Heading, dex: Shared<Shared<u8>>, entries: Shared<Entry>) -> Case {
    Case {
        party: heading.party,
        reference: heading.reference,
        content: Content {
            manifest: heading.manifest,
            layouts: heading.layouts,
            declaration: heading.declaration,
            dex,
        },
        entries,
    }
}

/// The case of a number.
pub fn case_numbered<S: Alter>(
    alloc: Global,
    connection: &mut Connection<S>,
    number: i64,
) -> Result<Case, Refusal> {
    let dex = files_of(alloc, connection, number)?;
    let entries = entries_of(alloc, connection, number)?;
    let heading = heading_of(alloc, connection, number)?;
    Ok(case_of(heading, dex, entries))
}

fn if_queued(case: Case) -> Option<Case> {
    if case.is_queued() { Some(case) } else { None }
}

/// The case of a number, where it can be read and has no entry.
fn queued_numbered<S: Alter>(
    alloc: Global,
    connection: &mut Connection<S>,
    number: i64,
) -> Result<Option<Case>, Refusal> {
    match case_numbered(alloc, connection, number) {
        Ok(case) => Ok(if_queued(case)),
        Err(Refusal::Inconsistent) => Ok(None),
        Err(refusal) => Err(refusal),
    }
}

/// The first case of these numbers, which are told to be without an entry. One that holds what no statement of this
/// crate writes is passed over; where there is no other, it is refused.
pub fn first_queued<S: Alter>(
    alloc: Global,
    connection: &mut Connection<S>,
    numbers: &BTreeSet<i64>,
) -> Result<Option<Case>, Refusal> {
    for number in numbers {
        let found = queued_numbered(alloc, connection, *number)?;
        if found.is_some() {
            return Ok(found);
        }
    }
    if numbers.is_empty() {
        Ok(None)
    } else {
        Err(Refusal::Inconsistent)
    }
}

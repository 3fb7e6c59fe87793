//! What stands in the columns of a row.

use crate::refusal::Refusal;
use crate::words::{outcome_of, ruling_of};
use case_rules::{Appeal, Decision, Entry, Ruling};
use sqlite::Row;
use sqlite::types::ValueRef;
use std::alloc::Global;
use vet_base::{Name, Shared};

/// What a row of a query holds.
pub trait InRow: Sized + Drop {
    fn in_row(alloc: Global, row: &Row) -> Result<Self, Refusal>;
}

fn text_at(row: &Row, at: usize) -> Result<&[u8], Refusal> {
    match row.get_ref(at)? {
        ValueRef::Text(bytes) => Ok(bytes),
        _ => Err(Refusal::Inconsistent),
    }
}

fn name_at(alloc: Global, row: &Row, at: usize) -> Result<Name, Refusal> {
    Ok(Name::from_bytes(alloc, text_at(row, at)?)?)
}

fn bytes_at(alloc: Global, row: &Row, at: usize) -> Result<Shared<u8>, Refusal> {
    let bytes: Vec<u8> = row.get(at)?;
    Ok(Shared::from_vec(alloc, bytes)?)
}

fn is_null(row: &Row, at: usize) -> Result<bool, Refusal> {
    Ok(matches!(row.get_ref(at)?, ValueRef::Null))
}

/// The 32 bytes of an edition.
fn lists_at(row: &Row, at: usize) -> Result<[u8; 32], Refusal> {
    let ValueRef::Blob(bytes) = row.get_ref(at)? else {
        return Err(Refusal::Inconsistent);
    };
    if bytes.len() != 32 {
        return Err(Refusal::Inconsistent);
    }
    let mut lists = [0; 32];
    lists.copy_from_slice(bytes);
    Ok(lists)
}

/// What a row holds, and nothing of one that holds what no statement of this crate writes.
impl<T: InRow> InRow for Option<T> {
    fn in_row(alloc: Global, row: &Row) -> Result<Option<T>, Refusal> {
        match T::in_row(alloc, row) {
            Ok(held) => Ok(Some(held)),
            Err(Refusal::Inconsistent) => Ok(None),
            Err(refusal) => Err(refusal),
        }
    }
}

/// The row of a case itself.
#[derive(Drop)]
pub struct Heading {
    pub party: Name,
    pub reference: Name,
    pub manifest: Shared<u8>,
    pub layouts: Shared<u8>,
    pub declaration: Shared<u8>,
}

/// The developer and the reference in columns 0 and 1.
fn names_in(alloc: Global, row: &Row) -> Result<(Name, Name), Refusal> {
    let party = name_at(alloc, row, 0)?;
    let reference = name_at(alloc, row, 1)?;
    Ok((party, reference))
}

/// The names in columns 0 and 1, and the bytes in columns 2 to 4.
impl InRow for Heading {
    fn in_row(alloc: Global, row: &Row) -> Result<Heading, Refusal> {
        let manifest = bytes_at(alloc, row, 2)?;
        let layouts = bytes_at(alloc, row, 3)?;
        let declaration = bytes_at(alloc, row, 4)?;
        let (party, reference) = names_in(alloc, row)?;
        Ok(Heading {
            party,
            reference,
            manifest,
            layouts,
            declaration,
        })
    }
}

/// A case by its names and its number.
#[derive(Drop)]
pub struct Label {
    pub party: Name,
    pub reference: Name,
    pub number: i64,
}

/// The names in columns 0 and 1, and the number in column 2.
impl InRow for Label {
    fn in_row(alloc: Global, row: &Row) -> Result<Label, Refusal> {
        let number = row.get(2)?;
        let (party, reference) = names_in(alloc, row)?;
        Ok(Label {
            party,
            reference,
            number,
        })
    }
}

/// The place of something among the entries of a case.
#[derive(Clone, Copy)]
pub struct Spot {
    pub number: i64,
    pub place: i64,
}

/// The number of the case in column 0, and the place in column 1.
impl InRow for Spot {
    fn in_row(_alloc: Global, row: &Row) -> Result<Spot, Refusal> {
        Ok(Spot {
            number: row.get(0)?,
            place: row.get(1)?,
        })
    }
}

/// The bytes in column 0.
impl InRow for Shared<u8> {
    fn in_row(alloc: Global, row: &Row) -> Result<Shared<u8>, Refusal> {
        bytes_at(alloc, row, 0)
    }
}

/// The decision in columns 0 to 4.
fn decision_in(alloc: Global, row: &Row) -> Result<Decision, Refusal> {
    let Some(outcome) = outcome_of(text_at(row, 0)?) else {
        return Err(Refusal::Inconsistent);
    };
    let lists = lists_at(row, 2)?;
    let day = row.get(4)?;
    let reviewer = name_at(alloc, row, 3)?;
    let report = bytes_at(alloc, row, 1)?;
    Ok(Decision {
        outcome,
        report,
        lists,
        reviewer,
        day,
    })
}

/// The appeal in columns 5 and 6, where there is one.
fn appeal_in(alloc: Global, row: &Row) -> Result<Option<Appeal>, Refusal> {
    if is_null(row, 5)? {
        return Ok(None);
    }
    let day = row.get(5)?;
    let text = bytes_at(alloc, row, 6)?;
    Ok(Some(Appeal { day, text }))
}

/// The ruling in columns 7 to 9, where there is one.
fn ruling_in(alloc: Global, row: &Row) -> Result<Option<Ruling>, Refusal> {
    if is_null(row, 7)? {
        return Ok(None);
    }
    let Some(word) = ruling_of(text_at(row, 9)?) else {
        return Err(Refusal::Inconsistent);
    };
    let day = row.get(8)?;
    let reviewer = name_at(alloc, row, 7)?;
    Ok(Some(Ruling {
        reviewer,
        day,
        word,
    }))
}

/// The decision in columns 0 to 4, the appeal in 5 and 6 and the ruling in 7 to 9.
impl InRow for Entry {
    fn in_row(alloc: Global, row: &Row) -> Result<Entry, Refusal> {
        let ruling = ruling_in(alloc, row)?;
        let appeal = appeal_in(alloc, row)?;
        let decision = decision_in(alloc, row)?;
        Ok(Entry {
            decision,
            appeal,
            ruling,
        })
    }
}

//! The index as the tables tell it. Rows that hold what no statement of this crate writes are passed over.

use crate::columns::{Label, Spot};
use crate::index::{Index, Standing};
use crate::reading::all_in;
use crate::refusal::Refusal;
use case_rules::State;
use sqlite::{Alter, Connection};
use std::alloc::Global;
use std::collections::{BTreeMap, BTreeSet};
use vet_base::{Memory, Shared};

/// The place of the last entry of each case that has one.
type LastPlaces = BTreeMap<i64, i64>;

fn put_last(last: &mut LastPlaces, spot: &Spot) -> Result<(), Memory> {
    let is_later = match last.get(&spot.number) {
        Some(place) => *place < spot.place,
        None => true,
    };
    if is_later {
        last.insert(spot.number, spot.place)?;
    }
    Ok(())
}

fn last_of(alloc: Global, spots: &[Option<Spot>]) -> Result<LastPlaces, Memory> {
    let mut last = BTreeMap::new(alloc);
    for spot in spots {
        if let Some(spot) = spot {
            put_last(&mut last, spot)?;
        }
    }
    Ok(last)
}

/// The cases of which the last entry is at one of these spots.
fn at_last(
    alloc: Global,
    last: &LastPlaces,
    spots: &[Option<Spot>],
) -> Result<BTreeSet<i64>, Memory> {
    let mut numbers = BTreeSet::new(alloc);
    for spot in spots {
        if let Some(spot) = spot {
            if last.get(&spot.number).copied() == Some(spot.place) {
                numbers.insert(spot.number)?;
            }
        }
    }
    Ok(numbers)
}

/// What the entries tell of how far cases are.
#[derive(Drop)]
struct Stages {
    last: LastPlaces,
    appealed: BTreeSet<i64>,
    ruled: BTreeSet<i64>,
}

/// How far the case of a number is.
fn state_of(stages: &Stages, number: i64) -> State {
    if stages.last.get(&number).is_none() {
        State::Queued
    } else if !stages.appealed.contains(&number) {
        State::Decided
    } else if !stages.ruled.contains(&number) {
        State::Appealed
    } else {
        State::Ruled
    }
}

fn spots_in<S: Alter>(
    alloc: Global,
    connection: &mut Connection<S>,
    query: &str,
) -> Result<Shared<Option<Spot>>, Refusal> {
    all_in(alloc, connection, query, &[])
}

/// The last entries of all cases.
fn last_in<S: Alter>(alloc: Global, connection: &mut Connection<S>) -> Result<LastPlaces, Refusal> {
    let spots = spots_in(alloc, connection, "SELECT number, place FROM entries")?;
    Ok(last_of(alloc, spots.as_slice())?)
}

/// The cases of which the last entry has a row of this query.
fn at_last_in<S: Alter>(
    alloc: Global,
    connection: &mut Connection<S>,
    last: &LastPlaces,
    query: &str,
) -> Result<BTreeSet<i64>, Refusal> {
    let spots = spots_in(alloc, connection, query)?;
    Ok(at_last(alloc, last, spots.as_slice())?)
}

fn stages_in<S: Alter>(alloc: Global, connection: &mut Connection<S>) -> Result<Stages, Refusal> {
    let last = last_in(alloc, connection)?;
    let appealed = at_last_in(
        alloc,
        connection,
        &last,
        "SELECT number, place FROM entry_appeals",
    )?;
    let ruled = at_last_in(
        alloc,
        connection,
        &last,
        "SELECT number, place FROM entry_rulings",
    )?;
    Ok(Stages {
        last,
        appealed,
        ruled,
    })
}

fn labels_in<S: Alter>(
    alloc: Global,
    connection: &mut Connection<S>,
) -> Result<Shared<Option<Label>>, Refusal> {
    all_in(
        alloc,
        connection,
        "SELECT party, reference, number FROM cases",
        &[],
    )
}

fn note(alloc: Global, index: &mut Index, stages: &Stages, label: &Label) -> Result<(), Memory> {
    let number = label.number;
    let state = state_of(stages, number);
    index.note(
        alloc,
        (&label.party, &label.reference),
        Standing { number, state },
    )
}

/// The index of the cases of these labels.
fn index_of(alloc: Global, labels: &[Option<Label>], stages: &Stages) -> Result<Index, Memory> {
    let mut index = Index::new(alloc);
    for label in labels {
        if let Some(label) = label {
            note(alloc, &mut index, stages, label)?;
        }
    }
    Ok(index)
}

fn index_in<S: Alter>(alloc: Global, connection: &mut Connection<S>) -> Result<Index, Refusal> {
    let stages = stages_in(alloc, connection)?;
    let labels = labels_in(alloc, connection)?;
    Ok(index_of(alloc, labels.as_slice(), &stages)?)
}

/// What is known of the cases, which the tables are asked for where it is not there.
pub fn known<'a, S: Alter>(
    alloc: Global,
    connection: &mut Connection<S>,
    index: &'a mut Option<Index>,
) -> Result<&'a mut Index, Refusal> {
    let found = match index.take() {
        Some(found) => found,
        None => index_in(alloc, connection)?,
    };
    Ok(index.insert(found))
}

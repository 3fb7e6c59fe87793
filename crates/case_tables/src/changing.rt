use crate::index::{Index, Standing};
use crate::opening::known;
use crate::refusal::Refusal;
use crate::words::{outcome_word, ruling_word};
use case_rules::{Appeal, Case, Change, Decision, Ruling, State};
use sqlite::types::ValueRef;
use sqlite::{Alter, Connection, Transaction};
use std::alloc::Global;
use vet_base::{Name, Shared};

/// A name is bound as text, whatever bytes it has.
fn text(name: &Name) -> ValueRef<'_> {
    ValueRef::Text(name.as_bytes())
}

fn blob(bytes: &Shared<u8>) -> ValueRef<'_> {
    ValueRef::Blob(bytes.as_slice())
}

fn word(text: &'static str) -> ValueRef<'static> {
    ValueRef::Text(text.as_bytes())
}

/// How many entries a case has.
fn entries_of<S: Alter>(transaction: &mut Transaction<'_, S>, number: i64) -> Result<i64, Refusal> {
    let row = transaction.query_row(
        "SELECT count(*) FROM entries WHERE number = ?1",
        &[ValueRef::Int(number)],
    )?;
    Ok(row.get(0)?)
}

/// The place of the last entry of a case.
fn last_of<S: Alter>(transaction: &mut Transaction<'_, S>, number: i64) -> Result<i64, Refusal> {
    Ok(entries_of(transaction, number)?.saturating_sub(1))
}

fn add_row<S: Alter>(transaction: &mut Transaction<'_, S>, case: &Case) -> Result<i64, Refusal> {
    transaction.execute(
        "INSERT INTO cases (party, reference, manifest, layouts, declaration) VALUES (?1, ?2, ?3, ?4, ?5)",
        &[
            text(&case.party),
            text(&case.reference),
            blob(&case.content.manifest),
            blob(&case.content.layouts),
            blob(&case.content.declaration),
        ],
    )?;
    Ok(transaction.last_insert_rowid())
}

fn add_file<S: Alter>(
    transaction: &mut Transaction<'_, S>,
    number: i64,
    place: i64,
    bytes: &Shared<u8>,
) -> Result<(), Refusal> {
    transaction.execute(
        "INSERT INTO dex (number, place, bytes) VALUES (?1, ?2, ?3)",
        &[ValueRef::Int(number), ValueRef::Int(place), blob(bytes)],
    )?;
    Ok(())
}

fn add_files<S: Alter>(
    transaction: &mut Transaction<'_, S>,
    number: i64,
    files: &[Shared<u8>],
) -> Result<(), Refusal> {
    let mut place = 0i64;
    for bytes in files {
        add_file(transaction, number, place, bytes)?;
        place = place.saturating_add(1);
    }
    Ok(())
}

/// Adds a case, which has no entry, and gives its number.
fn add<S: Alter>(transaction: &mut Transaction<'_, S>, case: &Case) -> Result<i64, Refusal> {
    if !case.is_queued() {
        return Err(Refusal::Database);
    }
    let number = add_row(transaction, case)?;
    add_files(transaction, number, case.content.dex.as_slice())?;
    Ok(number)
}

fn add_entry<S: Alter>(
    transaction: &mut Transaction<'_, S>,
    number: i64,
    place: i64,
    decision: &Decision,
) -> Result<(), Refusal> {
    transaction.execute(
        "INSERT INTO entries (number, place, outcome, report, lists, reviewer, day)
        VALUES (?1, ?2, ?3, ?4, ?5, ?6, ?7)",
        &[
            ValueRef::Int(number),
            ValueRef::Int(place),
            word(outcome_word(decision.outcome)),
            blob(&decision.report),
            ValueRef::Blob(&decision.lists),
            text(&decision.reviewer),
            ValueRef::Int(i64::from(decision.day)),
        ],
    )?;
    Ok(())
}

/// Adds an entry to a case.
fn decide<S: Alter>(
    transaction: &mut Transaction<'_, S>,
    number: i64,
    decision: &Decision,
) -> Result<(), Refusal> {
    let place = entries_of(transaction, number)?;
    add_entry(transaction, number, place, decision)
}

/// Adds an appeal to the last entry of a case.
fn appeal<S: Alter>(
    transaction: &mut Transaction<'_, S>,
    number: i64,
    appeal: &Appeal,
) -> Result<(), Refusal> {
    let place = last_of(transaction, number)?;
    transaction.execute(
        "INSERT INTO entry_appeals (number, place, day, body) VALUES (?1, ?2, ?3, ?4)",
        &[
            ValueRef::Int(number),
            ValueRef::Int(place),
            ValueRef::Int(i64::from(appeal.day)),
            blob(&appeal.text),
        ],
    )?;
    Ok(())
}

/// Adds a ruling to the last entry of a case.
fn rule<S: Alter>(
    transaction: &mut Transaction<'_, S>,
    number: i64,
    ruling: &Ruling,
) -> Result<(), Refusal> {
    let place = last_of(transaction, number)?;
    transaction.execute(
        "INSERT INTO entry_rulings (number, place, reviewer, day, word) VALUES (?1, ?2, ?3, ?4, ?5)",
        &[
            ValueRef::Int(number),
            ValueRef::Int(place),
            text(&ruling.reviewer),
            ValueRef::Int(i64::from(ruling.day)),
            word(ruling_word(ruling.word)),
        ],
    )?;
    Ok(())
}

/// Writes a change to the case of this number, and gives the number; a case that is added gets one then.
fn write_change<S: Alter>(
    transaction: &mut Transaction<'_, S>,
    number: i64,
    change: &Change,
) -> Result<i64, Refusal> {
    match change {
        Change::Add(case) => return add(transaction, case),
        Change::Decide(_, _, decision) => decide(transaction, number, decision)?,
        Change::Appeal(_, _, made) => appeal(transaction, number, made)?,
        Change::Rule(_, _, ruling) => rule(transaction, number, ruling)?,
    }
    Ok(number)
}

/// The case of which a change speaks, by developer and reference.
fn names_in(change: &Change) -> (&Name, &Name) {
    match change {
        Change::Add(case) => (&case.party, &case.reference),
        Change::Decide(party, reference, _) => (party, reference),
        Change::Appeal(party, reference, _) => (party, reference),
        Change::Rule(party, reference, _) => (party, reference),
    }
}

/// How far a case is after a change.
fn state_after(change: &Change) -> State {
    match change {
        Change::Add(_) => State::Queued,
        Change::Decide(..) => State::Decided,
        Change::Appeal(..) => State::Appealed,
        Change::Rule(..) => State::Ruled,
    }
}

/// Whether a change may follow where the case is so far; none is there before it is added.
fn may_follow(change: &Change, state: Option<State>) -> bool {
    match change {
        Change::Add(_) => state.is_none(),
        Change::Decide(..) => state.is_some() && state != Some(State::Appealed),
        Change::Appeal(..) => state == Some(State::Decided),
        Change::Rule(..) => state == Some(State::Appealed),
    }
}

/// The number of the case of which a change speaks, where it may follow; of a case that is added there is none yet.
fn number_for(index: &Index, change: &Change) -> Result<i64, Refusal> {
    let (party, reference) = names_in(change);
    let standing = index.standing(party, reference);
    if !may_follow(change, standing.map(|known| known.state)) {
        return Err(Refusal::Database);
    }
    match standing {
        Some(known) => Ok(known.number),
        None => Ok(0),
    }
}

/// Notes a change that was committed. Where that failed, or there is no memory, nothing is known of the cases any more.
fn keep(
    alloc: Global,
    index: &mut Option<Index>,
    change: &Change,
    number: i64,
    is_committed: bool,
) {
    let state = state_after(change);
    let is_noted = match index {
        Some(known) => {
            is_committed
                && known
                    .note(alloc, names_in(change), Standing { number, state })
                    .is_ok()
        }
        None => false,
    };
    if !is_noted {
        *index = None;
    }
}

/// Makes a change to the case of this number in one transaction, which is rolled back where any of it is refused.
fn commit_change<S: Alter>(
    alloc: Global,
    connection: &mut Connection<S>,
    index: &mut Option<Index>,
    number: i64,
    change: &Change,
) -> Result<(), Refusal> {
    if !connection.is_autocommit() {
        return Err(Refusal::Database);
    }
    let mut transaction = connection.transaction();
    let number = write_change(&mut transaction, number, change)?;
    let committed = transaction.commit();
    keep(alloc, index, change, number, committed.is_ok());
    Ok(committed?)
}

/// Makes a change that may follow, and notes it.
pub fn make_change<S: Alter>(
    alloc: Global,
    connection: &mut Connection<S>,
    index: &mut Option<Index>,
    change: &Change,
) -> Result<(), Refusal> {
    let number = number_for(known(alloc, connection, index)?, change)?;
    commit_change(alloc, connection, index, number, change)
}

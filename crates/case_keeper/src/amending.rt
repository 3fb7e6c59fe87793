ghost use Rattle.std.specs.Prelude.{◌≡◌, IfOk, OnOk};
ghost use Rattle.case_rules.specs.Cases.{with_entry, with_appeal, with_ruling, change_last, appeal_entry, rule_entry};
ghost use Rattle.case_keeper.specs.MemoryKeeper.{amended_by};

use case_rules::{Appeal, Case, Change, Decision, Entry, Ruling};
use std::alloc::Global;
use vet_base::{Memory, Shared};

/// The entries of a case in a vector of their own.
fn entries_of(alloc: Global, entries: &[Entry]) -> Result<Vec<Entry>, Memory>
    ensures { IfOk result (λ copies. copies.items ≡ entries.now) }
{
    let mut copies = Vec::new(alloc);
    for entry in entries {
        copies.push(entry.copy()?)?;
    }
    Ok(copies)
}

/// The case with these entries in place of its own.
fn case_with(alloc: Global, case: &Case, entries: Vec<Entry>) -> Result<Case, Memory>
    ensures { IfOk result (λ new. new ≡ record case.now { entries = entries.items }) }
{
    let entries = Shared::from_vec(alloc, entries)?;
    let mut new = case.copy()?;
    new.entries = entries;
    Ok(new)
}

/// The case with the decision as one entry more.
fn decided(alloc: Global, case: &Case, decision: &Decision) -> Result<Case, Memory>
    ensures { IfOk result (λ new. new ≡ with_entry decision.now case.now) }
{
    let mut entries = entries_of(alloc, case.entries.as_slice())?;
    entries.push(Entry {
        decision: decision.copy()?,
        appeal: None,
        ruling: None,
    })?;
    case_with(alloc, case, entries)
}

fn appeal_last(entries: &mut Vec<Entry>, appeal: &Appeal) -> Result<(), Memory>
    ensures { OnOk result (entries.new.items ≡ change_last (appeal_entry appeal.now) entries.old.items) }
{
    let appeal = appeal.copy()?;
    match entries.pop() {
        None => Ok(()),
        Some(mut entry) => {
            entry.appeal = Some(appeal);
            entries.push(entry)?;
            Ok(())
        }
    }
}

/// The case with an appeal in its last entry.
fn appealed(alloc: Global, case: &Case, appeal: &Appeal) -> Result<Case, Memory>
    ensures { IfOk result (λ new. new ≡ with_appeal appeal.now case.now) }
{
    let mut entries = entries_of(alloc, case.entries.as_slice())?;
    appeal_last(&mut entries, appeal)?;
    case_with(alloc, case, entries)
}

fn rule_last(entries: &mut Vec<Entry>, ruling: &Ruling) -> Result<(), Memory>
    ensures { OnOk result (entries.new.items ≡ change_last (rule_entry ruling.now) entries.old.items) }
{
    let ruling = ruling.copy()?;
    match entries.pop() {
        None => Ok(()),
        Some(mut entry) => {
            entry.ruling = Some(ruling);
            entries.push(entry)?;
            Ok(())
        }
    }
}

/// The case with a ruling in its last entry.
fn ruled(alloc: Global, case: &Case, ruling: &Ruling) -> Result<Case, Memory>
    ensures { IfOk result (λ new. new ≡ with_ruling ruling.now case.now) }
{
    let mut entries = entries_of(alloc, case.entries.as_slice())?;
    rule_last(&mut entries, ruling)?;
    case_with(alloc, case, entries)
}

/// The case as it is after a change to it.
pub fn amended(alloc: Global, case: &Case, change: &Change) -> Result<Case, Memory>
    ensures { IfOk result (λ new. new ≡ amended_by change.now case.now) }
{
    match change {
        Change::Add(_) => case.copy(),
        Change::Decide(_, _, decision) => decided(alloc, case, decision),
        Change::Appeal(_, _, appeal) => appealed(alloc, case, appeal),
        Change::Rule(_, _, ruling) => ruled(alloc, case, ruling),
    }
}

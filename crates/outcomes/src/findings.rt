//! The findings: what arrives at sinks and is not declared.

ghost use Rattle.std.specs.Prelude.{◌≡◌, ◌++◌, IfOk, take, map};
ghost use Rattle.app_machine.specs.Sound.{SoundApp};
ghost use Rattle.outcomes.specs.Ascending.{ascending};
ghost use Rattle.outcomes.specs.Findings.{category, names_pair, are_listed, findings_of};
ghost use Rattle.outcomes.specs.Spots.{found_order, undeclared_at, undeclared_in, undeclared_pair, finding_at};
ghost use Rattle.outcomes.specs.Within.{AreWithin};

use crate::Finding;
use crate::ascending::{ascending_of, set_of};
use crate::places::place_in;
use app_model::{App, Declaration, Lists};
use fact_rows::Row;
use std::alloc::Global;
use std::collections::BTreeSet;
use vet_base::{Memory, Name};

/// The names of a source category and of a sink category.
pub type Pair = (Name, Name);

/// A pair, and the method and the address at which it was found.
pub type Found = (Pair, (u32, u32));

/// The name of a category.
#[tactic(auto, unfolding(crate::specs::Findings::category))]
fn category_of(alloc: Global, lists: &Lists, i: u8) -> Result<Name, Memory>
    ensures { IfOk result (λ n. n ≡ category lists.now i) }
{
    match lists.categories.get(i as usize) {
        Some(name) => name.copy(),
        None => Name::new(alloc, Vec::new(alloc)),
    }
}

/// The names of the declared pairs.
pub fn pairs_in(alloc: Global, declaration: &Declaration) -> Result<Vec<Pair>, Memory>
    ensures { IfOk result (λ v. v.items ≡ declaration.now.pairs) }
{
    let mut pairs = Vec::new(alloc);
    for pair in declaration.pairs.as_slice() {
        pairs.push((pair.0.copy()?, pair.1.copy()?))?;
    }
    Ok(pairs)
}

/// Whether the pair is one of these.
#[tactic(auto, using(crate::proofs::Pairs::contains_pair))]
fn has_pair(pairs: &BTreeSet<Pair>, pair: &Pair) -> bool
    ensures { result ≡ names_pair pairs.now.keys pair.now.0 pair.now.1 }
{
    pairs.contains(pair)
}

fn are_listed(lists: &Lists, label: u8, sink: u8) -> bool
    ensures { result ≡ are_listed lists.now label sink }
{
    (label as usize) < lists.categories.len() && (sink as usize) < lists.categories.len()
}

/// The names of the pair, where it is none of these.
#[tactic(auto, unfolding(crate::specs::Findings::declares))]
fn undeclared_pair(
    alloc: Global,
    lists: &Lists,
    declared: &BTreeSet<Pair>,
    label: u8,
    sink: u8,
) -> Result<Option<Pair>, Memory>
    ensures { IfOk result (λ found. found ≡ undeclared_pair lists.now
        (record { pairs = declared.now.keys }) label sink) }
{
    let pair = (
        category_of(alloc, lists, label)?,
        category_of(alloc, lists, sink)?,
    );
    if are_listed(lists, label, sink) && has_pair(declared, &pair) {
        return Ok(None);
    }
    Ok(Some(pair))
}

/// What arrives, where the declaration does not name the pair.
pub fn undeclared_at(
    alloc: Global,
    lists: &Lists,
    declared: &BTreeSet<Pair>,
    row: &Row,
) -> Result<Option<Found>, Memory>
    ensures { IfOk result (λ found. found ≡ undeclared_at lists.now (record { pairs = declared.now.keys }) row.now) }
{
    match row {
        Row::Arrive(label, sink, node) => {
            match undeclared_pair(alloc, lists, declared, *label, *sink)? {
                Some(pair) => Ok(Some((pair, (node.by.method, node.pc)))),
                None => Ok(None),
            }
        }
        _ => Ok(None),
    }
}

/// The undeclared of what arrives.
#[tactic(auto, unfolding(crate::specs::Spots::undeclared_in))]
fn undeclared_in(
    alloc: Global,
    lists: &Lists,
    declared: &BTreeSet<Pair>,
    rows: &[Row],
) -> Result<Vec<Found>, Memory>
    ensures { IfOk result (λ v. v.items ≡ undeclared_in lists.now (record { pairs = declared.now.keys }) rows.now) }
{
    let mut undeclared = Vec::new(alloc);
    for row in rows {
        if let Some(found) = undeclared_at(alloc, lists, declared, row)? {
            undeclared.push(found)?;
        }
    }
    Ok(undeclared)
}

/// What was found, ordered by the names of source and sink and by method and address, each once.
fn ordered(
    alloc: Global,
    lists: &Lists,
    declaration: &Declaration,
    rows: &[Row],
) -> Result<Vec<Found>, Memory>
    ensures { IfOk result (λ v. v.items ≡ ascending found_order (undeclared_in lists.now declaration.now rows.now)) }
{
    let declared = set_of(alloc, pairs_in(alloc, declaration)?)?;
    ascending_of(alloc, undeclared_in(alloc, lists, &declared, rows)?)
}

/// The same by the names of their methods.
fn findings_from(alloc: Global, app: &App, listed: Vec<Found>) -> Result<Vec<Finding>, Memory>
    ensures { IfOk result (λ v. v.items ≡ map (finding_at app.now) listed.items) }
{
    let mut findings = Vec::new(alloc);
    for ((source, sink), (method, pc)) in listed {
        let at = place_in(alloc, app, method, pc)?;
        findings.push(Finding { source, sink, at })?;
    }
    Ok(findings)
}

/// The findings that rows of the app tell, by source, sink and place, each once.
pub fn findings_of(
    alloc: Global,
    app: &App,
    lists: &Lists,
    declaration: &Declaration,
    rows: &[Row],
) -> Result<Vec<Finding>, Memory>
    requires sound { SoundApp app.now }
    requires within { AreWithin app.now rows.now }
    ensures { IfOk result (λ v. v.items ≡ findings_of app.now lists.now declaration.now rows.now) }
{
    let listed = ordered(alloc, lists, declaration, rows)?;
    findings_from(alloc, app, listed)
}

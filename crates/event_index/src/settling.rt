//! The row of each class of the app, from the rows of those above it.
ghost use Rattle.std.specs.Prelude.{◌≡◌, IfOk, IfSome, OnOk, Some, length};
ghost use Rattle.app_machine.specs.Lookups.{class_named};
ghost use Rattle.app_machine.specs.Sound.{SoundApp};
ghost use Rattle.app_model.specs.Above.{is_class_below};
ghost use Rattle.event_index.specs.Kinds.{Adds, HasKinds, word_count};
ghost use Rattle.event_index.specs.Listed.{IsListed};
ghost use Rattle.event_index.specs.Settled.{AddsIf, AreNone, AreSettled, any_below};

use crate::bits::Bits;
use crate::listed::Listed;
use crate::names::number_of;
use app_machine::{App, Class};
use app_model::events_are_exact;
use std::alloc::Global;
use vet_base::{Memory, Name};

/// How many words all rows take at the most.
const MOST: usize = 33_554_432;

/// The types above the class of this name come to the row, itself among them. No where it is a class
/// of the app without a row of its own.
#[tactic(auto, using(crate::proofs::AboveRows::adds_outside, crate::proofs::AboveRows::adds_settled, crate::proofs::AboveRows::adds_not))]
fn add_above(
    app: &App,
    listed: &Listed<'_>,
    rows: &[Option<Bits>],
    row: &mut Bits,
    name: &[u8],
) -> bool
    requires sound { SoundApp app.now }
    requires listed { IsListed listed.now }
    requires settled { AreSettled app.now listed.now rows.now }
    requires long { length row.now ≡ word_count listed.now.kinds.count }
    ensures { AddsIf listed.now.kinds row.old row.new (is_class_below app.now listed.now.lists.now name.now) result }
{
    match number_of(app, name) {
        None => {
            listed.add(row, name);
            true
        }
        Some(number) => match rows.get(number) {
            Some(Some(above)) => {
                row.join(above);
                true
            }
            _ => false,
        },
    }
}

/// The same for each of the names.
#[tactic(auto, using(crate::proofs::AboveRows::none_of, crate::proofs::AboveRows::one_of, crate::proofs::AboveRows::adds_not, crate::proofs::AboveRows::all_of))]
fn add_each(
    app: &App,
    listed: &Listed<'_>,
    rows: &[Option<Bits>],
    row: &mut Bits,
    names: &[Name],
) -> bool
    requires sound { SoundApp app.now }
    requires listed { IsListed listed.now }
    requires settled { AreSettled app.now listed.now rows.now }
    requires long { length row.now ≡ word_count listed.now.kinds.count }
    ensures { AddsIf listed.now.kinds row.old row.new (any_below app.now listed.now.lists.now names.now) result }
{
    for name in names {
        if !add_above(app, listed, rows, row, name.as_bytes()) {
            return false;
        }
    }
    true
}

/// The types above a class of the app come to the row, itself among them, where all classes above it
/// have their rows.
#[tactic(auto, using(crate::proofs::AboveRows::class_adds, crate::proofs::AboveRows::adds_not))]
fn fill(
    app: &App,
    listed: &Listed<'_>,
    rows: &[Option<Bits>],
    row: &mut Bits,
    class: &Class,
) -> bool
    requires sound { SoundApp app.now }
    requires listed { IsListed listed.now }
    requires settled { AreSettled app.now listed.now rows.now }
    requires there { class_named app.now class.now.name ≡ Some class.now }
    requires long { length row.now ≡ word_count listed.now.kinds.count }
    ensures { AddsIf listed.now.kinds row.old row.new (is_class_below app.now listed.now.lists.now class.now.name)
        result }
{
    events_are_exact();
    listed.add(row, class.name.as_bytes());
    if !add_each(app, listed, rows, row, class.superclass.as_slice()) {
        return false;
    }
    add_each(app, listed, rows, row, class.interfaces.as_slice())
}

/// The row of a class of the app, where all classes above it have theirs.
#[tactic(auto, using(crate::proofs::AboveRows::has_filled))]
fn row_of(
    alloc: Global,
    app: &App,
    listed: &Listed<'_>,
    rows: &[Option<Bits>],
    class: &Class,
) -> Result<Option<Bits>, Memory>
    requires sound { SoundApp app.now }
    requires listed { IsListed listed.now }
    requires settled { AreSettled app.now listed.now rows.now }
    requires there { class_named app.now class.now.name ≡ Some class.now }
    ensures { IfOk result (λ found. IfSome found (λ row. HasKinds listed.now.kinds row
        (is_class_below app.now listed.now.lists.now class.now.name))) }
{
    let mut row = listed.kinds.row(alloc)?;
    if fill(app, listed, rows, &mut row, class) {
        Ok(Some(row))
    } else {
        Ok(None)
    }
}

/// The class of this number gets its row.
#[tactic(auto, using(crate::proofs::Classes::class_itself, crate::proofs::AboveRows::one_settled))]
fn settle(
    alloc: Global,
    app: &App,
    listed: &Listed<'_>,
    rows: &mut Vec<Option<Bits>>,
    number: usize,
) -> Result<(), Memory>
    requires sound { SoundApp app.now }
    requires listed { IsListed listed.now }
    requires settled { AreSettled app.now listed.now rows.now.items }
    ensures { OnOk result (AreSettled app.now listed.now rows.new.items) }
{
    let Some(class) = app.classes.get(number) else {
        return Ok(());
    };
    if let Some(row) = row_of(alloc, app, listed, rows.as_slice(), class)? {
        if number < rows.len() {
            rows[number] = Some(row);
        }
    }
    Ok(())
}

/// No row for so many classes.
#[tactic(auto, using(crate::proofs::AboveRows::none_there, crate::proofs::AboveRows::one_more_none))]
fn no_rows(alloc: Global, count: usize) -> Result<Vec<Option<Bits>>, Memory>
    ensures { IfOk result (λ rows. AreNone rows.items) }
{
    let mut rows = Vec::new(alloc);
    for _class in 0..count {
        rows.push(None)?;
    }
    Ok(rows)
}

/// The rows of the app's classes, made in this order. Where they would take more words than are
/// allowed, it is want of memory.
#[tactic(auto, using(crate::proofs::AboveRows::none_settled))]
pub fn settled_rows(
    alloc: Global,
    app: &App,
    listed: &Listed<'_>,
    order: &[usize],
) -> Result<Vec<Option<Bits>>, Memory>
    requires sound { SoundApp app.now }
    requires listed { IsListed listed.now }
    ensures { IfOk result (λ rows. AreSettled app.now listed.now rows.items) }
{
    let count = app.classes.len();
    if MOST / (listed.kinds.count / 64 + 1) < count {
        return Err(Memory);
    }
    let mut rows = no_rows(alloc, count)?;
    for number in order {
        settle(alloc, app, listed, &mut rows, *number)?;
    }
    Ok(rows)
}

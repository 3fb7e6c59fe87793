//! Which callbacks come to objects of a class: for each class of the app its callback rows are listed once.
ghost use Rattle.std.specs.Prelude.{◌≡◌, IfNone, IfOk, IfSome, None, Some, length, slice_get};
ghost use Rattle.app_machine.specs.Events.{callback_body};
ghost use Rattle.app_machine.specs.Sound.{SoundApp};
ghost use Rattle.app_machine.specs.SoundLists.{SoundLists};
ghost use Rattle.app_model.specs.EventBodies.{handed_callback};
ghost use Rattle.event_index.specs.Comings.{HasColumns, HasComings, callback_run, comings};
ghost use Rattle.event_index.specs.Kinds.{IsColumn};
ghost use Rattle.event_index.specs.Settled.{IsBelowTable};

use crate::below_table::BelowTable;
use crate::kinds::{Column, Kinds};
use app_machine::{Callback, Class, Lists};
use app_model::find_body;
use std::alloc::Global;
use vet_base::Memory;

/// How many classes are gone through for the bodies of callbacks at the most. The callbacks of the
/// classes that are left are looked up where they are asked for.
const MOST: u64 = 4_194_304;

/// A callback row that comes to objects of a class, and the number of the method that it runs.
#[derive(Clone, Copy)]
pub struct Coming {
    pub row: u32,
    pub body: u32,
}

/// A class of the app by its number, and how many classes are upward of it.
#[derive(Clone, Copy)]
struct Place<'a> {
    number: usize,
    class: &'a Class,
    depth: u64,
}

/// How the class of each callback row is asked for.
#[tactic(auto, using(crate::proofs::Listing::no_columns, crate::proofs::Listing::one_column, crate::proofs::Listing::all_columns))]
fn columns_of(
    alloc: Global,
    kinds: &Kinds<'_>,
    callbacks: &[Callback],
) -> Result<Vec<Column>, Memory>
    ensures { IfOk result (λ columns. HasColumns kinds.now callbacks.now columns.items) }
{
    let mut columns = Vec::new(alloc);
    for callback in callbacks {
        columns.push(kinds.column(callback.class.as_bytes()))?;
    }
    Ok(columns)
}

/// The callback row, where it comes to objects of the class if that has a body for it.
#[tactic(auto, using(crate::proofs::Listing::body_comes, crate::proofs::Listing::none_comes, crate::proofs::Listing::no_callback))]
fn row_of<'a>(
    table: &'a BelowTable<'_>,
    columns: &[Column],
    place: Place<'_>,
    row: u32,
) -> Option<&'a Callback>
    requires sound { SoundApp table.now.app.now }
    requires table { IsBelowTable table.now }
    requires columns { HasColumns table.now.listed.kinds table.now.listed.lists.now.callbacks columns.now }
    requires there { slice_get table.now.app.now.classes place.number ≡ Some place.class.now }
    ensures none { IfNone result (None ≡ callback_run (handed_callback table.now.app.now table.now.listed.lists.now row
        place.entry.class.now.name)) }
    ensures some { IfSome result (λ callback. callback_body table.now.app.now place.entry.class.now.name callback.now
        ≡ callback_run (handed_callback table.now.app.now table.now.listed.lists.now row
        place.entry.class.now.name)) }
{
    let callback = table.listed.lists.callbacks.get(row as usize)?;
    let column = match columns.get(row as usize) {
        Some(column) => *column,
        None => Column::Unknown,
    };
    if table.is_class_below(place.number, place.class, column, &callback.class) {
        Some(callback)
    } else {
        None
    }
}

/// How many callback rows the lists have.
fn callback_count(lists: &Lists) -> u32
    requires { SoundLists lists.now }
    ensures { result ≡ length lists.now.callbacks }
{
    lists.callbacks.len() as u32
}

/// The callbacks that come to objects of the class, by their rows. None where more classes would have
/// to be gone through than are left to be.
#[tactic(auto, using(crate::proofs::Listing::one_more_comes, crate::proofs::Listing::one_more_does_not))]
fn comings_to(
    alloc: Global,
    table: &BelowTable<'_>,
    columns: &[Column],
    place: Place<'_>,
    left: &mut u64,
) -> Result<Option<Vec<Coming>>, Memory>
    requires sound { SoundApp table.now.app.now }
    requires lists { SoundLists table.now.listed.lists.now }
    requires table { IsBelowTable table.now }
    requires columns { HasColumns table.now.listed.kinds table.now.listed.lists.now.callbacks columns.now }
    requires there { slice_get table.now.app.now.classes place.number ≡ Some place.class.now }
    ensures { IfOk result (λ found. IfSome found (λ own. own.items ≡ comings table.now.app.now
        table.now.listed.lists.now place.entry.class.now.name)) }
{
    let mut own = Vec::new(alloc);
    for row in 0..callback_count(table.listed.lists) {
        if let Some(callback) = row_of(table, columns, place, row) {
            if *left < place.depth {
                return Ok(None);
            }
            *left -= place.depth;
            let class = &place.class.name;
            if let Some(body) = find_body(table.app, class, &callback.name, &callback.proto) {
                own.push(Coming { row, body })?;
            }
        }
    }
    Ok(Some(own))
}

/// The callbacks that come to objects of each class of the app.
#[tactic(auto, using(crate::proofs::Listing::no_comings, crate::proofs::Listing::one_more_class, crate::proofs::Listing::all_classes))]
pub fn comings_of(
    alloc: Global,
    table: &BelowTable<'_>,
    depths: &[u64],
) -> Result<Vec<Option<Vec<Coming>>>, Memory>
    requires sound { SoundApp table.now.app.now }
    requires lists { SoundLists table.now.listed.lists.now }
    requires table { IsBelowTable table.now }
    ensures { IfOk result (λ all. HasComings table.now.app.now table.now.listed.lists.now all.items) }
{
    let callbacks = table.listed.lists.callbacks.as_slice();
    let columns = columns_of(alloc, &table.listed.kinds, callbacks)?;
    let mut left = MOST;
    let mut all = Vec::new(alloc);
    for (number, class) in table.app.classes.as_slice().iter().enumerate() {
        let depth = depths.get(number).copied().unwrap_or(1);
        let place = Place {
            number,
            class,
            depth,
        };
        all.push(comings_to(alloc, table, &columns, place, &mut left)?)?;
    }
    Ok(all)
}

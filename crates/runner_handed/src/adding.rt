ghost use Rattle.std.specs.Prelude.{IfOk, OnOk};
ghost use Rattle.runner_handed.specs.Reached.{AddsEach, AddsOne, AreEmpty};

use event_index::Coming;
use std::alloc::Global;
use vet_base::Memory;

/// An object to which a callback comes, and the body that it runs there.
#[derive(Clone, Copy)]
pub struct Reached {
    pub place: u32,
    pub body: u32,
}

/// So many rows, and nothing in each.
pub fn empty_rows(alloc: Global, count: u32) -> Result<Vec<Vec<Reached>>, Memory>
    ensures { IfOk result (λ rows. AreEmpty count rows.items) }
{
    let mut rows = Vec::new(alloc);
    for _row in 0..count {
        rows.push(Vec::new(alloc))?;
    }
    Ok(rows)
}

/// Adds the object at the place to the row of each of these callbacks.
pub fn add_each(rows: &mut Vec<Vec<Reached>>, place: u32, comings: &[Coming]) -> Result<(), Memory>
    ensures { OnOk result (AddsEach place comings.now rows.old.items rows.new.items) }
{
    for coming in comings {
        add(rows, place, *coming)?;
    }
    Ok(())
}

fn add(rows: &mut Vec<Vec<Reached>>, place: u32, coming: Coming) -> Result<(), Memory>
    ensures { OnOk result (AddsOne place coming rows.old.items rows.new.items) }
{
    let row = coming.row as usize;
    if row >= rows.len() {
        return Ok(());
    }
    let body = coming.body;
    let places = &mut rows[row];
    places.push(Reached { place, body })?;
    Ok(())
}

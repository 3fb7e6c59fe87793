ghost use Rattle.std.specs.Prelude.{◌≡◌, ◌+◌, ◌<◌, ◌++◌, ◌∷◌, [], List, IfOk, OnOk, Some, length, option_map, slice_get};
ghost use Rattle.app_machine.specs.Heap.{Object};
ghost use Rattle.played_machine.specs.Coming.{fresh_object};
ghost use Rattle.played_machine.specs.Drawing.{one_of};
ghost use Rattle.runner_begin.specs.Parameters.{one_behind, planned_in, value_at, values_with};
ghost use Rattle.runner_state.specs.Shown.{labels_of, value_of};

use crate::drawing::Fresh;
use runner_state::{Held, Labels, Script};
use vet_base::{Memory, Name};

/// One of the values: a blank, a fresh object, or one of these places. The next place of the heap is given.
pub fn chosen<'a, 's>(
    next: u32,
    fresh: &mut Vec<Fresh<'a>>,
    places: &[u32],
    kind: &'a Name,
    labels: Labels,
    script: Script<'s>,
) -> Result<Option<(Held, Script<'s>)>, Memory>
    ensures { IfOk result (λ given. (heap : List Object) → length heap ≡ next →
        option_map (one_behind heap fresh.new.items) given
        ≡ one_of (values_with places.now (labels_of labels) kind.entry.now (planned_in heap fresh.old.items))
        script.entry.left.now) }
{
    match script.draw(places.len() + 2) {
        None => Ok(None),
        Some((i, left)) => {
            let value = picked(next, fresh, places, kind, labels, i)?;
            Ok(Some((value, left)))
        }
    }
}

/// The value of the index.
fn picked<'a>(
    next: u32,
    fresh: &mut Vec<Fresh<'a>>,
    places: &[u32],
    kind: &'a Name,
    labels: Labels,
    index: usize,
) -> Result<Held, Memory>
    requires { index < length places.now + 2 }
    ensures { IfOk result (λ value. (heap : List Object) → length heap ≡ next →
        slice_get (values_with places.now (labels_of labels) kind.entry.now (planned_in heap fresh.old.items)) index
        ≡ Some (value_of value, planned_in heap fresh.new.items)) }
{
    if index == 0 {
        return Ok(Held::labelled(labels));
    }
    if index > 1 {
        return Ok(Held {
            place: Some(places[index - 2]),
            labels,
        });
    }
    let value = plan(next, fresh, kind, labels)?;
    Ok(value)
}

/// Plans a fresh object behind the others.
fn plan<'a>(
    next: u32,
    fresh: &mut Vec<Fresh<'a>>,
    kind: &'a Name,
    labels: Labels,
) -> Result<Held, Memory>
    ensures value { IfOk result (λ value. value_of value
        ≡ value_at (next + length fresh.old.items) (labels_of labels)) }
    ensures planned { OnOk result ((heap : List Object) → planned_in heap fresh.new.items
        ≡ planned_in heap fresh.old.items ++ fresh_object kind.entry.now (labels_of labels) ∷ []) }
{
    let place = place_behind(next, fresh.len())?;
    fresh.push(Fresh {
        class: kind,
        labels,
    })?;
    Ok(Held {
        place: Some(place),
        labels,
    })
}

/// The place behind so many others. Beyond what can be numbered it is want of memory.
fn place_behind(next: u32, before: usize) -> Result<u32, Memory>
    ensures { IfOk result (λ place. place ≡ next + before) }
{
    if before > (u32::MAX - next) as usize {
        return Err(Memory);
    }
    Ok(next + before as u32)
}

ghost use Rattle.std.specs.Prelude.{◌≡◌, IfOk, OnOk, length};
ghost use Rattle.played_machine.specs.Reading.{reached};
ghost use Rattle.runner_heap.specs.Objects.{heap_of};
ghost use Rattle.runner_reach.specs.Search.{AddsObject, IsMet, Meets};
ghost use Rattle.runner_state.specs.Shown.{labels_of, value_of};

use runner_heap::Heap;
use runner_state::{Held, Labels};
use std::alloc::Global;
use std::collections::BTreeSet;
use vet_base::Memory;

/// The labels of the value, and of all values to which it leads from object to object. Each object is
/// met once, so the time is that of what hangs on the value.
pub fn reached(alloc: Global, heap: &Heap, from: Held) -> Result<Labels, Memory>
    ensures { IfOk result (λ labels. labels_of labels ≡ reached (heap_of heap.now) (value_of from)) }
{
    let mut labels = Labels::none();
    let mut met = BTreeSet::new(alloc);
    let mut waiting = Vec::new(alloc);
    waiting.push(from)?;
    while let Some(value) = waiting.pop() {
        labels = labels.joined(value.labels);
        add_object(heap, &mut met, &mut waiting, value)?;
    }
    Ok(labels)
}

/// Adds the values of the value's object to those that wait, where that object is new.
fn add_object(
    heap: &Heap,
    met: &mut BTreeSet<u32>,
    waiting: &mut Vec<Held>,
    value: Held,
) -> Result<(), Memory>
    requires { IsMet (length (heap_of heap.now)) met.old }
    ensures { OnOk result (AddsObject (heap_of heap.now) (value_of value) met.old met.new waiting.old.items
        waiting.new.items) }
{
    match value.place {
        None => Ok(()),
        Some(place) => {
            let is_new = meet(heap, met, place)?;
            if !is_new {
                return Ok(());
            }
            heap.add_values(place, waiting)?;
            Ok(())
        }
    }
}

/// Whether the place is that of an object that was not met. Then it is met now.
fn meet(heap: &Heap, met: &mut BTreeSet<u32>, place: u32) -> Result<bool, Memory>
    requires { IsMet (length (heap_of heap.now)) met.old }
    ensures { IfOk result (Meets (length (heap_of heap.now)) place met.old met.new) }
{
    if place >= heap.next_place() {
        return Ok(false);
    }
    let is_new = met.insert(place)?;
    Ok(is_new)
}

ghost use Rattle.std.specs.Prelude.{◌≡◌, ◌++◌, ◌∷◌, [], IfOk, OnOk, map, reverse};
ghost use Rattle.app_machine.specs.Events.{labelled_element};
ghost use Rattle.runner_begin.specs.Parameters.{object_in, planned_in};
ghost use Rattle.runner_heap.specs.Objects.{heap_of};
ghost use Rattle.runner_heap.specs.Shown.{element_of};
ghost use Rattle.runner_state.specs.Shown.{labels_of};

use crate::drawing::Fresh;
use crate::labelling::is_none;
use runner_heap::{Entity, Heap};
use runner_state::{Held, Labels};
use std::alloc::Global;
use vet_base::Memory;

/// Makes the objects, in order.
pub fn make_all<'a>(alloc: Global, heap: &mut Heap<'a>, fresh: &[Fresh<'a>]) -> Result<(), Memory>
    ensures { OnOk result (heap_of heap.new ≡ planned_in (heap_of heap.old) fresh.now) }
{
    for one in fresh {
        make(alloc, heap, *one)?;
    }
    Ok(())
}

fn make<'a>(alloc: Global, heap: &mut Heap<'a>, one: Fresh<'a>) -> Result<(), Memory>
    ensures { OnOk result (heap_of heap.new ≡ heap_of heap.old ++ object_in one.entry ∷ []) }
{
    let elements = elements_of(alloc, one.labels)?;
    heap.add(Entity::new(alloc, one.class, elements))?;
    Ok(())
}

/// An element with the labels, where there are some.
fn elements_of(alloc: Global, labels: Labels) -> Result<Vec<Held>, Memory>
    ensures { IfOk result (λ elements. map element_of (reverse elements.items) ≡ labelled_element (labels_of labels)) }
{
    let mut elements = Vec::new(alloc);
    if is_none(labels) {
        return Ok(elements);
    }
    elements.push(Held::labelled(labels))?;
    Ok(elements)
}

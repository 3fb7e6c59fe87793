ghost use Rattle.std.specs.Prelude.{◌≡◌, IfOk, length};
ghost use Rattle.app_machine.specs.Sound.{SoundApp};
ghost use Rattle.played_growth.specs.Growth.{classes_of};
ghost use Rattle.runner_handed.specs.Reached.{LooksAt};
ghost use Rattle.runner_heap.specs.Objects.{heap_of};

use crate::adding::{Reached, add_each};
use event_index::EventIndex;
use runner_choices::comings_to;
use runner_heap::Heap;
use std::alloc::Global;
use vet_base::Memory;

/// Looks at one more handed place, and says whether it is that of an object.
pub fn look_at(
    alloc: Global,
    index: &EventIndex,
    heap: &Heap,
    rows: &mut Vec<Vec<Reached>>,
    place: u32,
) -> Result<bool, Memory>
    requires sound { SoundApp index.now.0 }
    requires long { length rows.old.items ≡ length index.now.1.callbacks }
    ensures { IfOk result (LooksAt index.now.0 index.now.1 (classes_of (heap_of heap.now)) place
        rows.old.items rows.new.items) }
{
    match heap.class(place) {
        None => Ok(false),
        Some(class) => {
            let comings = comings_to(alloc, index, class)?;
            add_each(rows, place, comings.as_slice())?;
            Ok(true)
        }
    }
}

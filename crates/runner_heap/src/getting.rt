ghost use Rattle.std.specs.Prelude.{◌≡◌, ◌++◌, ◌∷◌, [], map, option_map};
ghost use Rattle.app_machine.specs.Heap.{blank};
ghost use Rattle.app_machine.specs.State.{value_or_blank};
ghost use Rattle.played_machine.specs.Drawing.{one_of};
ghost use Rattle.played_machine.specs.Local.{got};
ghost use Rattle.runner_heap.specs.Objects.{heap_of};
ghost use Rattle.runner_heap.specs.Shown.{value_behind};
ghost use Rattle.runner_state.specs.Shown.{value_of};

use crate::heap::Heap;
use runner_state::{Held, Script, held_or_blank};
use vet_base::KeyId;

/// What is got from the value under the key: of an object one of its elements or a blank, as the next
/// byte chooses, or the value of the field. None exactly where a byte is wanted and there is none.
pub fn got<'s>(
    heap: &Heap,
    from: Held,
    key: KeyId,
    script: Script<'s>,
) -> Option<(Held, Script<'s>)>
    ensures { option_map value_behind result ≡ got (heap_of heap.now) (value_of from) key script.entry.left.now }
{
    match from.place {
        None => Some((Held::blank(), script)),
        Some(place) => {
            if key.0 == 0 {
                drawn_element(heap.elements(place), script)
            } else {
                Some((heap.field(place, key.0 - 1), script))
            }
        }
    }
}

/// One of the elements or a blank.
fn drawn_element<'s>(elements: &[Held], script: Script<'s>) -> Option<(Held, Script<'s>)>
    ensures { option_map value_behind result
        ≡ one_of (map value_of elements.now ++ blank ∷ []) script.entry.left.now }
{
    match script.draw(elements.len() + 1) {
        None => None,
        Some((i, left)) => Some((element_or_blank(elements, i), left)),
    }
}

/// The element of the index, and a blank past the last.
fn element_or_blank(elements: &[Held], index: usize) -> Held
    ensures { value_of result ≡ value_or_blank (map value_of elements.now) index }
{
    held_or_blank(elements.get(index))
}

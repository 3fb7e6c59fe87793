ghost use Rattle.std.specs.Prelude.{◌≡◌, ◌+◌, ◌<◌, ◌≤◌, ◌++◌, ◌∷◌, Some, length, map, option_map, slice_get};
ghost use Rattle.app_machine.specs.Heap.{blank};
ghost use Rattle.played_machine.specs.Drawing.{one_of};
ghost use Rattle.runner_given.specs.Given.{object_there};
ghost use Rattle.runner_heap.specs.Shown.{value_behind};
ghost use Rattle.runner_state.specs.Shown.{value_of};

use runner_state::{Held, Script};

/// A blank, or the object at one of these places. None exactly where there is no byte.
pub fn one_of_places<'s>(
    first: &[u32],
    others: &[u32],
    script: Script<'s>,
) -> Option<(Held, Script<'s>)>
    ensures { option_map value_behind result
        ≡ one_of (blank ∷ map object_there (first.now ++ others.now)) script.entry.left.now }
{
    match script.draw(first.len() + others.len() + 1) {
        None => None,
        Some((i, left)) => Some((value_at(first, others, i), left)),
    }
}

/// A blank at 0, and behind it the objects at these places.
fn value_at(first: &[u32], others: &[u32], index: usize) -> Held
    requires { index ≤ length first.now + length others.now }
    ensures { Some (value_of result) ≡ slice_get (blank ∷ map object_there (first.now ++ others.now)) index }
{
    if index == 0 {
        Held::blank()
    } else {
        Held::object_at(Some(place_at(first, others, index - 1)))
    }
}

/// The place of the index, in the one list or behind it.
fn place_at(first: &[u32], others: &[u32], index: usize) -> u32
    requires { index < length first.now + length others.now }
    ensures { Some result ≡ slice_get (first.now ++ others.now) index }
{
    if index < first.len() {
        first[index]
    } else {
        others[index - first.len()]
    }
}

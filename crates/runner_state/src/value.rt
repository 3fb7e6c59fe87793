ghost use Rattle.std.specs.Prelude.{◌≡◌};
ghost use Rattle.std.specs.Option.{option_copied};
ghost use Rattle.app_machine.specs.Heap.{blank, labelled};
ghost use Rattle.app_machine.specs.State.{object_at};
ghost use Rattle.runner_state.specs.Shown.{labels_of, shown_or_blank, value_of};

use crate::labels::Labels;

/// A value: a place in the heap, where there is one, and labels.
#[derive(Clone, Copy, Debug)]
pub struct Held {
    pub place: Option<u32>,
    pub labels: Labels,
}

impl Held {
    pub fn blank() -> Held
        ensures { value_of result ≡ blank }
    {
        Held {
            place: None,
            labels: Labels::none(),
        }
    }

    pub fn labelled(labels: Labels) -> Held
        ensures { value_of result ≡ labelled (labels_of labels) }
    {
        Held {
            place: None,
            labels,
        }
    }

    /// The object at the place, where there is one, without labels.
    pub fn object_at(place: Option<u32>) -> Held
        ensures { value_of result ≡ object_at place }
    {
        Held {
            place,
            labels: Labels::none(),
        }
    }
}

/// The value that was found, and a blank where none was.
pub fn held_or_blank(found: Option<&Held>) -> Held
    ensures { value_of result ≡ shown_or_blank (option_copied found.entry) }
{
    match found {
        Some(held) => *held,
        None => Held::blank(),
    }
}

//! Rule 38: the label of a value becomes one of the elements of a shared object.
ghost use Rattle.library_ground.specs.CallRow.{shown_call};
ghost use Rattle.cell_library_rules.specs.CellHeapGiven.{store_gives, store_label};

use crate::numbers;
use crate::pairs::{OfSecond, Position};
use fact_rows::{Row, Site};
use library_ground::LibraryCall;
use rule_ground::{Conclusion, ELEMENT, Facts, Join, Key, Premises, Sink, for_each_candidate};

/// Each label of the register, into the shared object.
#[derive(Drop)]
struct OfLabel<'a> {
    call: LibraryCall<'a>,
    register: u32,
    number: u32,
}

impl<'a> Join for OfLabel<'a> {
    ghost ready = { λ j. Unit {0} };

    ghost gives = { λ j row. store_label (shown_call j.call) j.register j.number row };

    fn give<S: Sink>(&self, row: Row, out: &mut S) -> Result<(), S::Refusal> {
        match row {
            Row::Label(_, _, label) => {
                let own = Row::Label(self.call.node, self.register, label);
                out.put(Conclusion {
                    rule: numbers::STORE,
                    premises: Premises::of_two(self.call.premise(), own),
                    row: Row::CellLabel(Site::Shared(self.number), ELEMENT, label),
                })
            }
            _ => Ok(()),
        }
    }
}

/// The stores of the position's labels.
#[derive(Drop)]
pub struct Stores<'a, F>(pub &'a Position<'a, F>);

impl<'a, F: Facts> OfSecond for Stores<'a, F> {
    ghost gives = { λ j second. store_gives (F.hits j.0.now.facts.now) j.0.now.pins (shown_call j.0.now.call)
        j.0.now.register second };

    fn give<S: Sink>(&self, second: u32, out: &mut S) -> Result<(), S::Refusal> {
        let from = self.0;
        let with = OfLabel {
            call: from.call,
            register: from.register,
            number: second,
        };
        let key = Key::LabelsAt(from.call.node, from.register);
        for_each_candidate(from.facts, from.pins.value, &key, &with, out)
    }
}

//! Rule 37: the label of a value becomes one of the elements of an object.
ghost use Rattle.std.specs.Prelude.{◌≡◌, OnOk, fold};
ghost use Rattle.library_ground.specs.CallRow.{shown_call};
ghost use Rattle.cell_library_rules.specs.CellHeapGiven.{put_at, put_gives, put_into, put_label};

use crate::numbers;
use crate::pairs::{OfSecond, Position};
use cell_library_value_rules::may_stand;
use fact_rows::Row;
use library_ground::LibraryCall;
use rule_ground::{Conclusion, ELEMENT, Facts, Join, Key, Premises, Sink, for_each_candidate};

/// Each object that takes the label in.
#[derive(Drop)]
struct IntoObject<'a> {
    call: LibraryCall<'a>,
    register: u32,
    label: u8,
}

impl<'a> Join for IntoObject<'a> {
    ghost ready = { λ j. Unit {0} };

    ghost gives = { λ j row. put_into (shown_call j.call) j.register j.label row };

    fn give<S: Sink>(&self, row: Row, out: &mut S) -> Result<(), S::Refusal> {
        match row {
            Row::Points(_, _, site) => {
                let label = Row::Label(self.call.node, self.register, self.label);
                out.put(Conclusion {
                    rule: numbers::PUT,
                    premises: Premises::of_three(self.call.premise(), row, label),
                    row: Row::CellLabel(site, ELEMENT, self.label),
                })
            }
            _ => Ok(()),
        }
    }
}

/// Each label of the register, into the objects of another.
#[derive(Drop)]
struct OfLabel<'a, F> {
    facts: &'a F,
    object: Option<Row>,
    call: LibraryCall<'a>,
    register: u32,
    into: u32,
}

impl<'a, F: Facts> Join for OfLabel<'a, F> {
    ghost ready = { λ j. Unit {0} };

    ghost gives = { λ j row. put_label (F.hits j.facts.now) j.object (shown_call j.call) j.register j.into row };

    fn give<S: Sink>(&self, row: Row, out: &mut S) -> Result<(), S::Refusal> {
        match row {
            Row::Label(_, _, label) => {
                let with = IntoObject {
                    call: self.call,
                    register: self.register,
                    label,
                };
                let key = Key::PointsAt(self.call.node, self.into);
                for_each_candidate(self.facts, self.object, &key, &with, out)
            }
            _ => Ok(()),
        }
    }
}

/// The labels of the position, into the objects of the register, where there is one.
fn put_at<F: Facts, S: Sink>(
    from: &Position<'_, F>,
    into: Option<u32>,
    out: &mut S,
) -> Result<(), S::Refusal>
    ensures { OnOk result (out.new ≡ fold S.then out.old (put_at (F.hits from.now.facts.now) from.now.pins
        (shown_call from.now.call) from.now.register into)) }
{
    match into {
        None => Ok(()),
        Some(into) => {
            let node = from.call.node;
            if may_stand(from.pins.object, node, into) {
                let with = OfLabel {
                    facts: from.facts,
                    object: from.pins.object,
                    call: from.call,
                    register: from.register,
                    into,
                };
                let key = Key::LabelsAt(node, from.register);
                for_each_candidate(from.facts, from.pins.value, &key, &with, out)
            } else {
                Ok(())
            }
        }
    }
}

/// The puts of the position's labels.
#[derive(Drop)]
pub struct Puts<'a, F>(pub &'a Position<'a, F>);

impl<'a, F: Facts> OfSecond for Puts<'a, F> {
    ghost gives = { λ j second. put_gives (F.hits j.0.now.facts.now) j.0.now.pins (shown_call j.0.now.call)
        j.0.now.register second };

    fn give<S: Sink>(&self, second: u32, out: &mut S) -> Result<(), S::Refusal> {
        put_at(self.0, self.0.call.place(second as usize), out)
    }
}

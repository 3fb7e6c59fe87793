//! Rule 39: the labels of the elements of an object become those of the elements of another. Its premises are named
//! in full, so of each label it says from which object to which it goes: at a node that is as many conclusions as the
//! labels of the elements of all objects of the one register, times the objects of the other. From a row that is new
//! only those are looked for that have it as a premise.
ghost use Rattle.std.specs.Prelude.{◌≡◌, OnOk, fold};
ghost use Rattle.library_ground.specs.CallRow.{shown_call};
ghost use Rattle.cell_library_rules.specs.CellHeapGiven.{copy_at, copy_gives, copy_into, copy_label, copy_object};

use crate::numbers;
use crate::pairs::{OfSecond, Position};
use cell_library_value_rules::may_stand;
use fact_rows::Row;
use library_ground::{LibraryCall, Pins};
use rule_ground::{Conclusion, ELEMENT, Facts, Join, Key, Premises, Sink, for_each_candidate};

/// Each object that takes the label in.
#[derive(Drop)]
struct IntoObject<'a> {
    call: LibraryCall<'a>,
    from: Row,
    cell: Row,
    label: u8,
}

impl<'a> Join for IntoObject<'a> {
    ghost ready = { λ j. Unit {0} };

    ghost gives = { λ j row. copy_into (shown_call j.call) j.from j.cell j.label row };

    fn give<S: Sink>(&self, row: Row, out: &mut S) -> Result<(), S::Refusal> {
        match row {
            Row::Points(_, _, site) => out.put(Conclusion {
                rule: numbers::COPY,
                premises: Premises::of_four(self.call.premise(), self.from, self.cell, row),
                row: Row::CellLabel(site, ELEMENT, self.label),
            }),
            _ => Ok(()),
        }
    }
}

/// Each label of the object's elements, into the objects of another register.
#[derive(Drop)]
struct OfElement<'a, F> {
    facts: &'a F,
    object: Option<Row>,
    call: LibraryCall<'a>,
    into: u32,
    from: Row,
}

impl<'a, F: Facts> Join for OfElement<'a, F> {
    ghost ready = { λ j. Unit {0} };

    ghost gives = { λ j row. copy_label (F.hits j.facts.now) j.object (shown_call j.call) j.into j.from row };

    fn give<S: Sink>(&self, row: Row, out: &mut S) -> Result<(), S::Refusal> {
        match row {
            Row::CellLabel(_, _, label) => {
                let with = IntoObject {
                    call: self.call,
                    from: self.from,
                    cell: row,
                    label,
                };
                let key = Key::PointsAt(self.call.node, self.into);
                for_each_candidate(self.facts, self.object, &key, &with, out)
            }
            _ => Ok(()),
        }
    }
}

/// Each object of the register, into the objects of another.
#[derive(Drop)]
struct OfObject<'a, F> {
    facts: &'a F,
    pins: Pins,
    call: LibraryCall<'a>,
    into: u32,
}

impl<'a, F: Facts> Join for OfObject<'a, F> {
    ghost ready = { λ j. Unit {0} };

    ghost gives = { λ j row. copy_object (F.hits j.facts.now) j.pins (shown_call j.call) j.into row };

    fn give<S: Sink>(&self, row: Row, out: &mut S) -> Result<(), S::Refusal> {
        match row {
            Row::Points(_, _, site) => {
                let with = OfElement {
                    facts: self.facts,
                    object: self.pins.object,
                    call: self.call,
                    into: self.into,
                    from: row,
                };
                let key = Key::CellLabelsOf(site, ELEMENT);
                for_each_candidate(self.facts, self.pins.cell, &key, &with, out)
            }
            _ => Ok(()),
        }
    }
}

/// The labels of the elements of the position's objects, into the objects of the register, where there is one.
fn copy_at<F: Facts, S: Sink>(
    from: &Position<'_, F>,
    into: Option<u32>,
    out: &mut S,
) -> Result<(), S::Refusal>
    ensures { OnOk result (out.new ≡ fold S.then out.old (copy_at (F.hits from.now.facts.now) from.now.pins
        (shown_call from.now.call) from.now.register into)) }
{
    match into {
        None => Ok(()),
        Some(into) => {
            let node = from.call.node;
            if may_stand(from.pins.object, node, into) {
                let with = OfObject {
                    facts: from.facts,
                    pins: from.pins,
                    call: from.call,
                    into,
                };
                let key = Key::PointsAt(node, from.register);
                for_each_candidate(from.facts, from.pins.value, &key, &with, out)
            } else {
                Ok(())
            }
        }
    }
}

/// The copies of what the position's objects hold.
#[derive(Drop)]
pub struct Copies<'a, F>(pub &'a Position<'a, F>);

impl<'a, F: Facts> OfSecond for Copies<'a, F> {
    ghost gives = { λ j second. copy_gives (F.hits j.0.now.facts.now) j.0.now.pins (shown_call j.0.now.call)
        j.0.now.register second };

    fn give<S: Sink>(&self, second: u32, out: &mut S) -> Result<(), S::Refusal> {
        copy_at(self.0, self.0.call.place(second as usize), out)
    }
}

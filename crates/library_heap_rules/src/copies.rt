//! Rule 39: elements of an object become elements of another.
ghost use Rattle.std.specs.Prelude.{◌≡◌, OnOk, fold};
ghost use Rattle.library_ground.specs.CallRow.{shown_call};
ghost use Rattle.library_heap_rules.specs.HeapGiven.{copy_at, copy_element, copy_gives, copy_into};
ghost use Rattle.library_heap_rules.specs.HeapGiven.{copy_rest, copy_row, label_into};

use crate::numbers;
use crate::pairs::{OfSecond, Position};
use access_path::{Path, cut, rest};
use fact_rows::{Row, Site};
use library_ground::{LibraryCall, Pins, for_each_value, may_stand};
use rule_ground::{Conclusion, ELEMENT, Facts, Join, Key, Premises, Sink, for_each_candidate};

/// Each object that takes the element in.
#[derive(Drop)]
struct ElementInto<'a> {
    call: LibraryCall<'a>,
    from: Row,
    cell: Row,
    held: Site,
}

impl<'a> Join for ElementInto<'a> {
    ghost ready = { λ j. Unit {0} };

    ghost gives = { λ j row. copy_into (shown_call j.call) j.from j.cell j.held row };

    fn give<S: Sink>(&self, row: Row, out: &mut S) -> Result<(), S::Refusal> {
        match row {
            Row::Points(_, _, site) => out.put(Conclusion {
                rule: numbers::COPY,
                premises: Premises::of_four(self.call.premise(), self.from, self.cell, row),
                row: Row::Cell(site, ELEMENT, self.held),
            }),
            _ => Ok(()),
        }
    }
}

/// Each element of the object, into those of another register.
#[derive(Drop)]
struct OfElement<'a, F> {
    facts: &'a F,
    object: Option<Row>,
    call: LibraryCall<'a>,
    into: u32,
    from: Row,
}

impl<'a, F: Facts> Join for OfElement<'a, F> {
    ghost ready = { λ j. Unit {0} };

    ghost gives = { λ j row. copy_element (F.hits j.facts.now) j.object (shown_call j.call) j.into j.from row };

    fn give<S: Sink>(&self, row: Row, out: &mut S) -> Result<(), S::Refusal> {
        match row {
            Row::Cell(_, _, held) => {
                let with = ElementInto {
                    call: self.call,
                    from: self.from,
                    cell: row,
                    held,
                };
                let key = Key::PointsAt(self.call.node, self.into);
                for_each_candidate(self.facts, self.object, &key, &with, out)
            }
            _ => Ok(()),
        }
    }
}

/// Each object that takes the label in.
#[derive(Drop)]
struct LabelInto<'a> {
    call: LibraryCall<'a>,
    from: Row,
    path: Path,
    label: u8,
}

impl<'a> Join for LabelInto<'a> {
    ghost ready = { λ j. Unit {0} };

    ghost gives = { λ j row. label_into (shown_call j.call) j.from j.path j.label row };

    fn give<S: Sink>(&self, row: Row, out: &mut S) -> Result<(), S::Refusal> {
        match row {
            Row::Points(_, _, site) => out.put(Conclusion {
                rule: numbers::COPY,
                premises: Premises::of_three(self.call.premise(), self.from, row),
                row: Row::Effect(self.call.node, site, cut(ELEMENT, &self.path), self.label),
            }),
            _ => Ok(()),
        }
    }
}

/// Each value of the register, into the objects of another.
#[derive(Drop)]
struct OfValue<'a, F> {
    facts: &'a F,
    pins: Pins,
    call: LibraryCall<'a>,
    into: u32,
}

/// What is left of a label's path goes into the objects.
fn copy_rest<F: Facts, S: Sink>(
    value: &OfValue<'_, F>,
    from: Row,
    label: u8,
    left: Option<Path>,
    out: &mut S,
) -> Result<(), S::Refusal>
    ensures { OnOk result (out.new ≡ fold S.then out.old (copy_rest (F.hits value.now.facts.now) value.now.pins.object
        (shown_call value.now.call) value.now.into from label left)) }
{
    match left {
        None => Ok(()),
        Some(path) => {
            let with = LabelInto {
                call: value.call,
                from,
                path,
                label,
            };
            let key = Key::PointsAt(value.call.node, value.into);
            for_each_candidate(value.facts, value.pins.object, &key, &with, out)
        }
    }
}

impl<'a, F: Facts> Join for OfValue<'a, F> {
    ghost ready = { λ j. Unit {0} };

    ghost gives = { λ j row. copy_row (F.hits j.facts.now) j.pins (shown_call j.call) j.into row };

    fn give<S: Sink>(&self, row: Row, out: &mut S) -> Result<(), S::Refusal> {
        match row {
            Row::Points(_, _, site) => {
                let with = OfElement {
                    facts: self.facts,
                    object: self.pins.object,
                    call: self.call,
                    into: self.into,
                    from: row,
                };
                let key = Key::CellsOf(site, ELEMENT);
                for_each_candidate(self.facts, self.pins.cell, &key, &with, out)
            }
            Row::Taint(_, _, path, label) => {
                if self.pins.cell.is_none() {
                    copy_rest(self, row, label, rest(&path, ELEMENT), out)
                } else {
                    Ok(())
                }
            }
            _ => Ok(()),
        }
    }
}

/// The elements of the position's values, into the objects of the register, where there is one.
fn copy_at<F: Facts, S: Sink>(
    from: &Position<'_, F>,
    into: Option<u32>,
    out: &mut S,
) -> Result<(), S::Refusal>
    ensures { OnOk result (out.new ≡ fold S.then out.old (copy_at (F.hits from.now.facts.now) from.now.pins
        (shown_call from.now.call) from.now.register into)) }
{
    match into {
        None => Ok(()),
        Some(into) => {
            let node = from.call.node;
            if may_stand(from.pins.object, node, into) {
                let with = OfValue {
                    facts: from.facts,
                    pins: from.pins,
                    call: from.call,
                    into,
                };
                for_each_value(from.facts, from.pins.value, node, from.register, &with, out)
            } else {
                Ok(())
            }
        }
    }
}

/// The copies of what the position's values hold.
#[derive(Drop)]
pub struct Copies<'a, F>(pub &'a Position<'a, F>);

impl<'a, F: Facts> OfSecond for Copies<'a, F> {
    ghost gives = { λ j second. copy_gives (F.hits j.0.now.facts.now) j.0.now.pins (shown_call j.0.now.call)
        j.0.now.register second };

    fn give<S: Sink>(&self, second: u32, out: &mut S) -> Result<(), S::Refusal> {
        copy_at(self.0, self.0.call.place(second as usize), out)
    }
}

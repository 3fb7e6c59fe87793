//! Rule 37: a value becomes an element of an object.
ghost use Rattle.std.specs.Prelude.{◌≡◌, OnOk, fold};
ghost use Rattle.library_ground.specs.CallRow.{shown_call};
ghost use Rattle.library_heap_rules.specs.HeapGiven.{put_at, put_content, put_gives, put_into, put_row};

use crate::numbers;
use crate::pairs::{OfSecond, Position};
use fact_rows::Row;
use library_ground::{LibraryCall, for_each_value, may_stand};
use rule_ground::{
    Conclusion, Content, ELEMENT, Facts, Join, Key, Premises, Sink, for_each_candidate,
};

/// Each object that takes the value in.
#[derive(Drop)]
struct IntoObject<'a> {
    call: LibraryCall<'a>,
    register: u32,
    content: Content,
}

impl<'a> Join for IntoObject<'a> {
    ghost ready = { λ j. Unit {0} };

    ghost gives = { λ j row. put_into (shown_call j.call) j.register j.content row };

    fn give<S: Sink>(&self, row: Row, out: &mut S) -> Result<(), S::Refusal> {
        let node = self.call.node;
        match row {
            Row::Points(_, _, site) => out.put(Conclusion {
                rule: numbers::PUT,
                premises: Premises::of_three(
                    self.call.premise(),
                    row,
                    self.content.held(node, self.register),
                ),
                row: self.content.stored(node, site, ELEMENT),
            }),
            _ => Ok(()),
        }
    }
}

/// Each value of the register, into the objects of another.
#[derive(Drop)]
struct OfValue<'a, F> {
    facts: &'a F,
    object: Option<Row>,
    call: LibraryCall<'a>,
    register: u32,
    into: u32,
}

fn put<F: Facts, S: Sink>(
    value: &OfValue<'_, F>,
    content: Content,
    out: &mut S,
) -> Result<(), S::Refusal>
    ensures { OnOk result (out.new ≡ fold S.then out.old (put_content (F.hits value.now.facts.now) value.now.object
        (shown_call value.now.call) value.now.register value.now.into content)) }
{
    let with = IntoObject {
        call: value.call,
        register: value.register,
        content,
    };
    for_each_candidate(
        value.facts,
        value.object,
        &Key::PointsAt(value.call.node, value.into),
        &with,
        out,
    )
}

impl<'a, F: Facts> Join for OfValue<'a, F> {
    ghost ready = { λ j. Unit {0} };

    ghost gives = { λ j row. put_row (F.hits j.facts.now) j.object (shown_call j.call) j.register j.into row };

    fn give<S: Sink>(&self, row: Row, out: &mut S) -> Result<(), S::Refusal> {
        match row {
            Row::Points(_, _, site) => put(self, Content::Object(site), out),
            Row::Taint(_, _, path, label) => put(self, Content::Label(path, label), out),
            _ => Ok(()),
        }
    }
}

/// The values of the position, into the objects of the register, where there is one.
fn put_at<F: Facts, S: Sink>(
    from: &Position<'_, F>,
    into: Option<u32>,
    out: &mut S,
) -> Result<(), S::Refusal>
    ensures { OnOk result (out.new ≡ fold S.then out.old (put_at (F.hits from.now.facts.now) from.now.pins
        (shown_call from.now.call) from.now.register into)) }
{
    match into {
        None => Ok(()),
        Some(into) => {
            let node = from.call.node;
            if may_stand(from.pins.object, node, into) {
                let with = OfValue {
                    facts: from.facts,
                    object: from.pins.object,
                    call: from.call,
                    register: from.register,
                    into,
                };
                for_each_value(from.facts, from.pins.value, node, from.register, &with, out)
            } else {
                Ok(())
            }
        }
    }
}

/// The puts of the position's values.
#[derive(Drop)]
pub struct Puts<'a, F>(pub &'a Position<'a, F>);

impl<'a, F: Facts> OfSecond for Puts<'a, F> {
    ghost gives = { λ j second. put_gives (F.hits j.0.now.facts.now) j.0.now.pins (shown_call j.0.now.call)
        j.0.now.register second };

    fn give<S: Sink>(&self, second: u32, out: &mut S) -> Result<(), S::Refusal> {
        put_at(self.0, self.0.call.place(second as usize), out)
    }
}

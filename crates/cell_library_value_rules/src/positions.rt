//! Rules 31 to 36 of a call.
ghost use Rattle.std.specs.Prelude.{◌≡◌, OnOk, fold};
ghost use Rattle.app_machine.specs.Sound.{SoundApp};
ghost use Rattle.library_ground.specs.CallRow.{shown_call};
ghost use Rattle.cell_library_value_rules.specs.CellValueGiven.{at_position, content_gives, given_here};
ghost use Rattle.cell_library_value_rules.specs.CellValueGiven.{row_gives, value_gives};

use crate::alone::give_alone;
use crate::called::Called;
use crate::result::{arrive, give_value};
use crate::values::{Value, for_each_value, may_stand};
use cell_ground::Content;
use fact_rows::Row;
use library_ground::{AtPlace, Pins, for_each_place};
use rule_ground::{Facts, Join, Sink};

/// What a value of a position gives.
fn of_value<F: Facts, S: Sink>(
    facts: &F,
    called: &Called<'_>,
    value: Value,
    out: &mut S,
) -> Result<(), S::Refusal>
    requires { SoundApp called.now.app.now }
    ensures { OnOk result (out.new ≡ fold S.then out.old (content_gives called.now.app.now called.now.readers.now
        (F.hits facts.now) value.cell (shown_call called.now.call) value.position value.register value.content)) }
{
    let sink = called.call.sink_of(value.position);
    arrive(facts, &called.call, value, sink, out)?;
    give_value(facts, called, value, out)
}

/// Each value of the position.
#[derive(Drop)]
struct OfValue<'a, F> {
    facts: &'a F,
    called: Called<'a>,
    cell: Option<Row>,
    position: usize,
    register: u32,
}

impl<'a, F> OfValue<'a, F> {
    fn value(&self, content: Content) -> Value
        ensures position { result.position ≡ self.now.position }
        ensures register { result.register ≡ self.now.register }
        ensures content { result.content ≡ content }
        ensures cell { result.cell ≡ self.now.cell }
    {
        Value {
            position: self.position,
            register: self.register,
            content,
            cell: self.cell,
        }
    }
}

impl<'a, F: Facts> Join for OfValue<'a, F> {
    ghost ready = { λ j. SoundApp j.called.app.now };

    ghost gives = { λ j row. row_gives j.called.app.now j.called.readers.now (F.hits j.facts.now) j.cell
        (shown_call j.called.call) j.position j.register row };

    fn give<S: Sink>(&self, row: Row, out: &mut S) -> Result<(), S::Refusal> {
        match row {
            Row::Points(_, _, site) => {
                let value = self.value(Content::Object(site));
                of_value(self.facts, &self.called, value, out)
            }
            Row::Label(_, _, label) => {
                let value = self.value(Content::Label(label));
                of_value(self.facts, &self.called, value, out)
            }
            _ => Ok(()),
        }
    }
}

/// Each position of the call.
#[derive(Drop)]
struct OfPosition<'a, F> {
    facts: &'a F,
    called: Called<'a>,
    pins: Pins,
}

impl<'a, F: Facts> AtPlace for OfPosition<'a, F> {
    ghost ready = { λ j. SoundApp j.called.app.now };

    ghost gives = { λ j position register. at_position j.called.app.now j.called.readers.now (F.hits j.facts.now) j.pins
        (shown_call j.called.call) position register };

    fn give<S: Sink>(&self, position: usize, register: u32, out: &mut S) -> Result<(), S::Refusal> {
        let node = self.called.call.node;
        if may_stand(self.pins.value, node, register) {
            let with = OfValue {
                facts: self.facts,
                called: self.called,
                cell: self.pins.cell,
                position,
                register,
            };
            for_each_value(self.facts, self.pins.value, node, register, &with, out)
        } else {
            Ok(())
        }
    }
}

/// What follows where no object is known that takes a value in.
fn of_call<F: Facts, S: Sink>(
    facts: &F,
    pins: &Pins,
    called: &Called<'_>,
    out: &mut S,
) -> Result<(), S::Refusal>
    requires { SoundApp called.now.app.now }
    ensures { OnOk result (out.new ≡ fold S.then out.old (given_here called.now.app.now called.now.readers.now
        (F.hits facts.now) pins.now (shown_call called.now.call))) }
{
    let at = OfPosition {
        facts,
        called: *called,
        pins: *pins,
    };
    for_each_place(&called.call, &at, out)?;
    if pins.are_free() {
        give_alone(called, out)
    } else {
        Ok(())
    }
}

/// What follows from the call by rules 31 to 36, with the premises that are known.
pub fn value_rules<F: Facts, S: Sink>(
    facts: &F,
    pins: &Pins,
    called: &Called<'_>,
    out: &mut S,
) -> Result<(), S::Refusal>
    requires { SoundApp called.now.app.now }
    ensures { OnOk result (out.new ≡ fold S.then out.old (value_gives called.now.app.now called.now.readers.now
        (F.hits facts.now) pins.now (shown_call called.now.call))) }
{
    if pins.object.is_some() {
        Ok(())
    } else {
        of_call(facts, pins, called, out)
    }
}

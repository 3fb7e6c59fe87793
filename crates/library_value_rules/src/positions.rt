//! Rules 30 to 36 of a call.
ghost use Rattle.std.specs.Prelude.{◌≡◌, OnOk, fold};
ghost use Rattle.app_machine.specs.Sound.{SoundApp};
ghost use Rattle.library_ground.specs.CallRow.{shown_call, IsWithin};
ghost use Rattle.library_value_rules.specs.ValueGiven.{at_position, content_gives};
ghost use Rattle.library_value_rules.specs.ValueGiven.{position_gives, row_gives, value_gives};

use crate::alone::give_alone;
use crate::handed::{arrive, hand, hand_labels};
use crate::result::{Value, give_value};
use app_machine::App;
use fact_rows::Row;
use library_ground::{AtPlace, LibraryCall, Pins, for_each_place, for_each_value, may_stand};
use rule_ground::{Content, Facts, Join, Sink};

/// What a value of a position gives.
fn of_value<F: Facts, S: Sink>(
    facts: &F,
    call: &LibraryCall<'_>,
    value: Value,
    out: &mut S,
) -> Result<(), S::Refusal>
    ensures { OnOk result (out.new ≡ fold S.then out.old (content_gives (F.hits facts.now) value.cell
        (shown_call call.now) value.position value.register value.content)) }
{
    if value.cell.is_none() {
        hand(call, value.register, value.content, out)?;
        let sink = call.sink_of(value.position);
        arrive(call, sink, value.register, value.content, out)?;
    }
    give_value(facts, call, value, out)
}

/// Each value of the position.
#[derive(Drop)]
struct OfValue<'a, F> {
    facts: &'a F,
    call: LibraryCall<'a>,
    cell: Option<Row>,
    position: usize,
    register: u32,
}

impl<'a, F> OfValue<'a, F> {
    fn value(&self, content: Content) -> Value
        ensures position { result.position ≡ self.now.position }
        ensures register { result.register ≡ self.now.register }
        ensures content { result.content ≡ content }
        ensures cell { result.cell ≡ self.now.cell }
    {
        Value {
            position: self.position,
            register: self.register,
            content,
            cell: self.cell,
        }
    }
}

impl<'a, F: Facts> Join for OfValue<'a, F> {
    ghost ready = { λ j. Unit {0} };

    ghost gives = { λ j row. row_gives (F.hits j.facts.now) j.cell (shown_call j.call) j.position j.register row };

    fn give<S: Sink>(&self, row: Row, out: &mut S) -> Result<(), S::Refusal> {
        match row {
            Row::Points(_, _, site) => {
                let value = self.value(Content::Object(site));
                of_value(self.facts, &self.call, value, out)
            }
            Row::Taint(_, _, path, label) => {
                let value = self.value(Content::Label(path, label));
                of_value(self.facts, &self.call, value, out)
            }
            _ => Ok(()),
        }
    }
}

/// Each position of the call.
#[derive(Drop)]
struct OfPosition<'a, F> {
    facts: &'a F,
    call: LibraryCall<'a>,
    pins: Pins,
}

fn of_position<F: Facts, S: Sink>(
    at: &OfPosition<'_, F>,
    position: usize,
    register: u32,
    out: &mut S,
) -> Result<(), S::Refusal>
    ensures { OnOk result (out.new ≡ fold S.then out.old (position_gives (F.hits at.now.facts.now) at.now.pins
        (shown_call at.now.call) position register)) }
{
    let pins = &at.pins;
    if pins.object.is_none() {
        let with = OfValue {
            facts: at.facts,
            call: at.call,
            cell: pins.cell,
            position,
            register,
        };
        for_each_value(at.facts, pins.value, at.call.node, register, &with, out)?;
    }
    if pins.cell.is_none() {
        hand_labels(at.facts, pins, &at.call, register, out)
    } else {
        Ok(())
    }
}

impl<'a, F: Facts> AtPlace for OfPosition<'a, F> {
    ghost ready = { λ j. Unit {0} };

    ghost gives = { λ j position register. at_position (F.hits j.facts.now) j.pins
        (shown_call j.call) position register };

    fn give<S: Sink>(&self, position: usize, register: u32, out: &mut S) -> Result<(), S::Refusal> {
        if may_stand(self.pins.value, self.call.node, register) {
            of_position(self, position, register, out)
        } else {
            Ok(())
        }
    }
}

/// What follows from the call by rules 30 to 36, with the premises that are known.
pub fn value_rules<F: Facts, S: Sink>(
    app: &App,
    facts: &F,
    pins: &Pins,
    call: &LibraryCall<'_>,
    out: &mut S,
) -> Result<(), S::Refusal>
    requires sound { SoundApp app.now }
    requires within { IsWithin (shown_call call.now) }
    ensures { OnOk result (out.new ≡ fold S.then out.old (value_gives app.now (F.hits facts.now) pins.now
        (shown_call call.now))) }
{
    let at = OfPosition {
        facts,
        call: *call,
        pins: *pins,
    };
    for_each_place(call, &at, out)?;
    if pins.are_free() {
        give_alone(app, facts, call, out)
    } else {
        Ok(())
    }
}

//! Rules 31 to 33 and 35: what a value of a position gives.
ghost use Rattle.std.specs.Prelude.{◌≡◌, OnOk, fold};
ghost use Rattle.app_machine.specs.Sound.{SoundApp};
ghost use Rattle.library_ground.specs.CallRow.{shown_call};
ghost use Rattle.cell_library_value_rules.specs.CellValueGiven.{arrives, arriving, labelled};
ghost use Rattle.cell_library_value_rules.specs.CellValueGiven.{result_gives, returned, taken, took};

use crate::called::{Called, give_result};
use crate::leading::{OfLabel, for_each_leading};
use crate::numbers;
use crate::values::{Value, with_object, with_value};
use app_parts::CallResult;
use cell_ground::{Content, made_at};
use fact_rows::{Row, Site};
use library_ground::LibraryCall;
use rule_ground::{Conclusion, ELEMENT, Facts, Join, Key, Premises, Sink, for_each_candidate};

/// The label arrives at the sink.
#[derive(Drop)]
struct Arriving<'a> {
    call: LibraryCall<'a>,
    sink: u8,
}

impl<'a> OfLabel for Arriving<'a> {
    ghost ready = { λ j. Unit {0} };

    ghost gives = { λ j premises label. arrives (shown_call j.call) j.sink premises label };

    fn give<S: Sink>(&self, premises: Premises, label: u8, out: &mut S) -> Result<(), S::Refusal> {
        out.put(Conclusion {
            rule: numbers::ARRIVE,
            premises,
            row: Row::Arrive(label, self.sink, self.call.node),
        })
    }
}

/// What leads from the value arrives, where the position is one of a sink.
pub fn arrive<F: Facts, S: Sink>(
    facts: &F,
    call: &LibraryCall<'_>,
    value: Value,
    sink: Option<u8>,
    out: &mut S,
) -> Result<(), S::Refusal>
    ensures { OnOk result (out.new ≡ fold S.then out.old (arriving (F.hits facts.now) value.cell (shown_call call.now)
        value.register value.content sink)) }
{
    match sink {
        None => Ok(()),
        Some(sink) => {
            let with = Arriving { call: *call, sink };
            for_each_leading(facts, call, value, &with, out)
        }
    }
}

/// The label comes to the result, which holds it as an element where it is of a reference type.
pub fn label_result<S: Sink>(
    called: &Called<'_>,
    premises: Premises,
    label: u8,
    out: &mut S,
) -> Result<(), S::Refusal>
    requires { SoundApp called.now.app.now }
    ensures { OnOk result (out.new ≡ fold S.then out.old (labelled called.now.app.now called.now.readers.now
        (shown_call called.now.call) premises label)) }
{
    give_result(called, numbers::JOIN, premises, Content::Label(label), out)?;
    if called.call.has_reference() {
        out.put(Conclusion {
            rule: numbers::JOIN,
            premises,
            row: Row::CellLabel(made_at(called.app, called.call.node), ELEMENT, label),
        })
    } else {
        Ok(())
    }
}

/// The result is joined from what leads.
#[derive(Drop)]
struct Joining<'a> {
    called: Called<'a>,
}

impl<'a> OfLabel for Joining<'a> {
    ghost ready = { λ j. SoundApp j.called.app.now };

    ghost gives = { λ j premises label. labelled j.called.app.now j.called.readers.now (shown_call j.called.call)
        premises label };

    fn give<S: Sink>(&self, premises: Premises, label: u8, out: &mut S) -> Result<(), S::Refusal> {
        label_result(&self.called, premises, label, out)
    }
}

/// The result is what the object holds as an element.
#[derive(Drop)]
struct Took<'a> {
    called: Called<'a>,
    register: u32,
    site: Site,
}

impl<'a> Join for Took<'a> {
    ghost ready = { λ j. Unit {0} };

    ghost gives = { λ j row. took j.called.readers.now (shown_call j.called.call) j.register j.site row };

    fn give<S: Sink>(&self, row: Row, out: &mut S) -> Result<(), S::Refusal> {
        let premises = with_object(&self.called.call, self.register, self.site, row);
        match row {
            Row::Cell(_, _, held) => {
                let content = Content::Object(held);
                give_result(&self.called, numbers::TAKE, premises, content, out)
            }
            Row::CellLabel(_, _, label) => {
                let content = Content::Label(label);
                give_result(&self.called, numbers::TAKE, premises, content, out)
            }
            _ => Ok(()),
        }
    }
}

/// The result is an element of the value.
fn take<F: Facts, S: Sink>(
    facts: &F,
    called: &Called<'_>,
    value: Value,
    out: &mut S,
) -> Result<(), S::Refusal>
    ensures { OnOk result (out.new ≡ fold S.then out.old (taken called.now.readers.now (F.hits facts.now) value.cell
        (shown_call called.now.call) value.register value.content)) }
{
    match value.content {
        Content::Object(site) => {
            let with = Took {
                called: *called,
                register: value.register,
                site,
            };
            for_each_candidate(facts, value.cell, &Key::CellsOf(site, ELEMENT), &with, out)?;
            for_each_candidate(
                facts,
                value.cell,
                &Key::CellLabelsOf(site, ELEMENT),
                &with,
                out,
            )
        }
        Content::Label(_) => Ok(()),
    }
}

/// What the value gives to a result of this kind.
fn give<F: Facts, S: Sink>(
    facts: &F,
    called: &Called<'_>,
    value: Value,
    kind: CallResult,
    out: &mut S,
) -> Result<(), S::Refusal>
    requires { SoundApp called.now.app.now }
    ensures { OnOk result (out.new ≡ fold S.then out.old (result_gives called.now.app.now called.now.readers.now
        (F.hits facts.now) value.cell (shown_call called.now.call) value.position value.register value.content kind)) }
{
    match kind {
        CallResult::Same(position) => {
            if position as usize == value.position && value.cell.is_none() {
                let premises = with_value(&called.call, value.register, value.content);
                give_result(called, numbers::SAME, premises, value.content, out)
            } else {
                Ok(())
            }
        }
        CallResult::Taken(position) => {
            if position as usize == value.position {
                take(facts, called, value, out)
            } else {
                Ok(())
            }
        }
        CallResult::Joined => {
            if called.call.is_joined_from(value.position) {
                let with = Joining { called: *called };
                for_each_leading(facts, &called.call, value, &with, out)
            } else {
                Ok(())
            }
        }
        CallResult::Blank | CallResult::Shared(_) | CallResult::Handed => Ok(()),
    }
}

/// What the value gives to the result, where there is one.
pub fn give_value<F: Facts, S: Sink>(
    facts: &F,
    called: &Called<'_>,
    value: Value,
    out: &mut S,
) -> Result<(), S::Refusal>
    requires { SoundApp called.now.app.now }
    ensures { OnOk result (out.new ≡ fold S.then out.old (returned called.now.app.now called.now.readers.now
        (F.hits facts.now) value.cell (shown_call called.now.call) value.position value.register value.content)) }
{
    if called.call.has_result() {
        give(facts, called, value, called.call.gives(), out)
    } else {
        Ok(())
    }
}

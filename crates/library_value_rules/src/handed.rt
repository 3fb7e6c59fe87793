//! Rules 30 and 31: what a value gives at a position whatever the result is.
ghost use Rattle.std.specs.Prelude.{◌≡◌, OnOk, fold};
ghost use Rattle.library_ground.specs.CallRow.{shown_call};
ghost use Rattle.library_value_rules.specs.ValueGiven.{arrives, handed_with, hands, label_hands};
ghost use Rattle.library_value_rules.specs.ValueGiven.{labels_handed, with_value};

use crate::numbers;
use access_path::Path;
use fact_rows::Row;
use library_ground::{LibraryCall, Pins, may_stand};
use rule_ground::{Conclusion, Content, Facts, Join, Key, Premises, Sink, for_each_candidate};

/// The use of the row, beside a value of a register.
pub fn with_value(call: &LibraryCall<'_>, register: u32, content: Content) -> Premises
    ensures { result ≡ with_value (shown_call call.now) register content }
{
    Premises::of_two(call.premise(), content.held(call.node, register))
}

/// An object is handed.
pub fn hand<S: Sink>(
    call: &LibraryCall<'_>,
    register: u32,
    content: Content,
    out: &mut S,
) -> Result<(), S::Refusal>
    ensures { OnOk result (out.new ≡ fold S.then out.old (hands (shown_call call.now) register content)) }
{
    match content {
        Content::Object(site) => out.put(Conclusion {
            rule: numbers::HAND,
            premises: with_value(call, register, content),
            row: Row::Handed(site),
        }),
        Content::Label(_, _) => Ok(()),
    }
}

/// A label arrives at the sink, where the position is one of its.
pub fn arrive<S: Sink>(
    call: &LibraryCall<'_>,
    sink: Option<u8>,
    register: u32,
    content: Content,
    out: &mut S,
) -> Result<(), S::Refusal>
    ensures { OnOk result (out.new ≡ fold S.then out.old (arrives (shown_call call.now) sink register content)) }
{
    match (sink, content) {
        (Some(sink), Content::Label(_, label)) => out.put(Conclusion {
            rule: numbers::ARRIVE,
            premises: with_value(call, register, content),
            row: Row::Arrive(label, sink, call.node),
        }),
        _ => Ok(()),
    }
}

/// Each object that is handed leads to the label.
#[derive(Drop)]
struct HandedWith<'a> {
    call: LibraryCall<'a>,
    taint: Row,
    path: Path,
    label: u8,
}

impl<'a> Join for HandedWith<'a> {
    ghost ready = { λ j. Unit {0} };

    ghost gives = { λ j row. handed_with (shown_call j.call) j.taint j.path j.label row };

    fn give<S: Sink>(&self, row: Row, out: &mut S) -> Result<(), S::Refusal> {
        match row {
            Row::Points(_, _, site) => out.put(Conclusion {
                rule: numbers::HAND,
                premises: Premises::of_three(self.call.premise(), row, self.taint),
                row: Row::HandedTaint(site, self.path, self.label),
            }),
            _ => Ok(()),
        }
    }
}

/// A label of the register, with each of its objects.
#[derive(Drop)]
struct LabelHanded<'a, F> {
    facts: &'a F,
    object: Option<Row>,
    call: LibraryCall<'a>,
    register: u32,
}

impl<'a, F: Facts> Join for LabelHanded<'a, F> {
    ghost ready = { λ j. Unit {0} };

    ghost gives = { λ j row. label_hands (F.hits j.facts.now) j.object (shown_call j.call) j.register row };

    fn give<S: Sink>(&self, row: Row, out: &mut S) -> Result<(), S::Refusal> {
        match row {
            Row::Taint(_, _, path, label) => {
                let with = HandedWith {
                    call: self.call,
                    taint: row,
                    path,
                    label,
                };
                for_each_candidate(
                    self.facts,
                    self.object,
                    &Key::PointsAt(self.call.node, self.register),
                    &with,
                    out,
                )
            }
            _ => Ok(()),
        }
    }
}

/// The objects of the register are handed with its labels.
pub fn hand_labels<F: Facts, S: Sink>(
    facts: &F,
    pins: &Pins,
    call: &LibraryCall<'_>,
    register: u32,
    out: &mut S,
) -> Result<(), S::Refusal>
    ensures { OnOk result (out.new ≡ fold S.then out.old (labels_handed (F.hits facts.now) pins.now
        (shown_call call.now) register)) }
{
    if may_stand(pins.object, call.node, register) {
        let with = LabelHanded {
            facts,
            object: pins.object,
            call: *call,
            register,
        };
        for_each_candidate(
            facts,
            pins.value,
            &Key::TaintsAt(call.node, register),
            &with,
            out,
        )
    } else {
        Ok(())
    }
}

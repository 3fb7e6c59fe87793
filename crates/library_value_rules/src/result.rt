//! Rules 32, 33 and 35: what a value of a position gives to the result.
ghost use Rattle.std.specs.Prelude.{◌≡◌, OnOk, fold};
ghost use Rattle.library_ground.specs.CallRow.{shown_call};
ghost use Rattle.library_value_rules.specs.ValueGiven.{joined, labelled, result_gives, results};
ghost use Rattle.library_value_rules.specs.ValueGiven.{returned, taken, took, took_rest};

use crate::handed::with_value;
use crate::numbers;
use access_path::{Path, cut, rest};
use app_parts::{CallResult, RESULT};
use fact_rows::Row;
use library_ground::LibraryCall;
use rule_ground::{
    Content, ELEMENT, Facts, Inference, Join, Key, Premises, Sink, for_each_candidate, put_each,
};

/// A value of a position, and what its object is known to hold.
#[derive(Clone, Copy)]
pub struct Value {
    pub position: usize,
    pub register: u32,
    pub content: Content,
    pub cell: Option<Row>,
}

/// The result of the call holds the content.
pub fn give_result<S: Sink>(
    rule: u8,
    premises: Premises,
    content: Content,
    call: &LibraryCall<'_>,
    out: &mut S,
) -> Result<(), S::Refusal>
    ensures { OnOk result (out.new ≡ fold S.then out.old (results rule premises content (shown_call call.now))) }
{
    let inference = Inference { rule, premises };
    put_each(inference, content, call.node, RESULT, call.next, out)
}

/// The result has the label, and of a reference type holds it as an element.
pub fn label_result<S: Sink>(
    premises: Premises,
    label: u8,
    call: &LibraryCall<'_>,
    out: &mut S,
) -> Result<(), S::Refusal>
    ensures { OnOk result (out.new ≡ fold S.then out.old (labelled premises label (shown_call call.now))) }
{
    give_result(
        numbers::JOIN,
        premises,
        Content::Label(Path::empty(), label),
        call,
        out,
    )?;
    if call.has_reference() {
        let element = cut(ELEMENT, &Path::empty());
        give_result(
            numbers::JOIN,
            premises,
            Content::Label(element, label),
            call,
            out,
        )
    } else {
        Ok(())
    }
}

/// The result is what the object holds as an element.
#[derive(Drop)]
struct Took<'a> {
    call: LibraryCall<'a>,
    from: Row,
}

impl<'a> Join for Took<'a> {
    ghost ready = { λ j. Unit {0} };

    ghost gives = { λ j row. took (shown_call j.call) j.from row };

    fn give<S: Sink>(&self, row: Row, out: &mut S) -> Result<(), S::Refusal> {
        match row {
            Row::Cell(_, _, held) => {
                let premises = Premises::of_three(self.call.premise(), self.from, row);
                give_result(
                    numbers::TAKE,
                    premises,
                    Content::Object(held),
                    &self.call,
                    out,
                )
            }
            _ => Ok(()),
        }
    }
}

/// The result has what is left of the label's path.
fn take_rest<S: Sink>(
    call: &LibraryCall<'_>,
    register: u32,
    path: Path,
    label: u8,
    left: Option<Path>,
    out: &mut S,
) -> Result<(), S::Refusal>
    ensures { OnOk result (out.new ≡ fold S.then out.old (took_rest (shown_call call.now) register path label left)) }
{
    match left {
        None => Ok(()),
        Some(shorter) => {
            let premises = with_value(call, register, Content::Label(path, label));
            give_result(
                numbers::TAKE,
                premises,
                Content::Label(shorter, label),
                call,
                out,
            )
        }
    }
}

/// The result is an element of the value.
fn take<F: Facts, S: Sink>(
    facts: &F,
    cell: Option<Row>,
    call: &LibraryCall<'_>,
    register: u32,
    content: Content,
    out: &mut S,
) -> Result<(), S::Refusal>
    ensures { OnOk result (out.new ≡ fold S.then out.old (taken (F.hits facts.now) cell (shown_call call.now) register
        content)) }
{
    match content {
        Content::Object(site) => {
            let with = Took {
                call: *call,
                from: content.held(call.node, register),
            };
            for_each_candidate(facts, cell, &Key::CellsOf(site, ELEMENT), &with, out)
        }
        Content::Label(path, label) => {
            if cell.is_some() {
                Ok(())
            } else {
                take_rest(call, register, path, label, rest(&path, ELEMENT), out)
            }
        }
    }
}

/// The result is joined from the value.
fn join<S: Sink>(
    call: &LibraryCall<'_>,
    register: u32,
    content: Content,
    out: &mut S,
) -> Result<(), S::Refusal>
    ensures { OnOk result (out.new ≡ fold S.then out.old (joined (shown_call call.now) register content)) }
{
    match content {
        Content::Object(_) => Ok(()),
        Content::Label(_, label) => {
            label_result(with_value(call, register, content), label, call, out)
        }
    }
}

/// What the value gives to a result of this kind.
fn give<F: Facts, S: Sink>(
    facts: &F,
    call: &LibraryCall<'_>,
    value: Value,
    kind: CallResult,
    out: &mut S,
) -> Result<(), S::Refusal>
    ensures { OnOk result (out.new ≡ fold S.then out.old (result_gives (F.hits facts.now) value.cell
        (shown_call call.now) value.position value.register value.content kind)) }
{
    match kind {
        CallResult::Same(position) => {
            if position as usize == value.position && value.cell.is_none() {
                let premises = with_value(call, value.register, value.content);
                give_result(numbers::SAME, premises, value.content, call, out)
            } else {
                Ok(())
            }
        }
        CallResult::Taken(position) => {
            if position as usize == value.position {
                take(facts, value.cell, call, value.register, value.content, out)
            } else {
                Ok(())
            }
        }
        CallResult::Joined => {
            if call.is_joined_from(value.position) && value.cell.is_none() {
                join(call, value.register, value.content, out)
            } else {
                Ok(())
            }
        }
        CallResult::Blank | CallResult::Shared(_) | CallResult::Handed => Ok(()),
    }
}

/// What the value gives to the result, where there is one.
pub fn give_value<F: Facts, S: Sink>(
    facts: &F,
    call: &LibraryCall<'_>,
    value: Value,
    out: &mut S,
) -> Result<(), S::Refusal>
    ensures { OnOk result (out.new ≡ fold S.then out.old (returned (F.hits facts.now) value.cell (shown_call call.now)
        value.position value.register value.content)) }
{
    if call.has_result() {
        give(facts, call, value, call.gives(), out)
    } else {
        Ok(())
    }
}

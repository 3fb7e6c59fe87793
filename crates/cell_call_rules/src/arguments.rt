//! Rule 24: what a call passes to the activation that it enters.
ghost use Rattle.std.specs.Prelude.{◌≡◌, OnOk, fold, length};
ghost use Rattle.app_machine.specs.Sound.{SoundApp};
ghost use Rattle.rule_ground.specs.Below.{for_below};
ghost use Rattle.cell_ground.specs.Steps.{step_here};
ghost use Rattle.cell_call_rules.specs.CellPassGiven.{argument_at, argument_gets, argument_passed};
ghost use Rattle.cell_call_rules.specs.CellPassGiven.{call_passes, calls_on, passed};

use crate::numbers;
use crate::passing::pass_to;
use app_machine::{Act, App, CallKind};
use app_model::step_at;
use call_rules::{hangs_on, is_initialised};
use call_targets::argument_register;
use cell_ground::Content;
use fact_rows::{Activation, Node, Row};
use register_readers::RegisterReaders;
use rule_ground::{Facts, Inference, Join, Key, Premises, Sink, for_each_hit};

/// A call instruction at a node, and an activation that it enters.
#[derive(Clone, Copy)]
pub struct Entering<'a> {
    pub app: &'a App,
    pub readers: &'a RegisterReaders<'a>,
    pub node: Node,
    pub by: Activation,
    pub kind: CallKind,
    pub args: &'a [u32],
}

/// What the argument holds comes to a register of the activation.
#[derive(Drop)]
struct Argument<'a> {
    readers: &'a RegisterReaders<'a>,
    node: Node,
    by: Activation,
    register: u32,
    to: u32,
}

impl<'a> Argument<'a> {
    fn passes<S: Sink>(&self, content: Content, out: &mut S) -> Result<(), S::Refusal>
        ensures { OnOk result (out.new ≡ fold S.then out.old (passed self.now.readers.now self.now.node self.now.by
            self.now.register self.now.to content)) }
    {
        let inference = Inference {
            rule: numbers::PASS,
            premises: Premises::of_two(
                Row::Calls(self.node, self.by),
                content.held(self.node, self.register),
            ),
        };
        pass_to(
            self.readers,
            inference,
            content,
            self.by,
            Some(self.to),
            out,
        )
    }
}

impl<'a> Join for Argument<'a> {
    ghost ready = { λ j. Unit {0} };

    ghost gives = { λ j row. argument_gets j.readers.now j.node j.by j.register j.to row };

    fn give<S: Sink>(&self, row: Row, out: &mut S) -> Result<(), S::Refusal> {
        match row {
            Row::Points(_, _, site) => self.passes(Content::Object(site), out),
            Row::Label(_, _, label) => self.passes(Content::Label(label), out),
            _ => Ok(()),
        }
    }
}

/// The call passes what the register holds, its argument of this index, in another one.
fn pass_register<F: Facts, S: Sink>(
    facts: &F,
    call: &Entering<'_>,
    index: usize,
    register: u32,
    to: u32,
    out: &mut S,
) -> Result<(), S::Refusal>
    ensures { OnOk result (out.new ≡ fold S.then out.old (argument_passed call.now.readers.now (F.hits facts.now)
        call.now.node call.now.by call.now.kind index (Some register) (Some to))) }
{
    let with = Argument {
        readers: call.readers,
        node: call.node,
        by: call.by,
        register,
        to,
    };
    if !hangs_on(call.kind, index) {
        for_each_hit(facts, &Key::PointsAt(call.node, register), &with, out)?;
    }
    for_each_hit(facts, &Key::LabelsAt(call.node, register), &with, out)
}

/// The call passes its argument of this index, where the activation has a register for it.
fn pass_argument<F: Facts, S: Sink>(
    facts: &F,
    call: &Entering<'_>,
    index: usize,
    out: &mut S,
) -> Result<(), S::Refusal>
    ensures { OnOk result (out.new ≡ fold S.then out.old (argument_at call.now.app.now call.now.readers.now
        (F.hits facts.now) call.now.node call.now.by call.now.kind call.now.args.now index)) }
{
    match call.args.get(index) {
        None => Ok(()),
        Some(register) => match argument_register(call.app, call.by.method, index) {
            None => Ok(()),
            Some(to) => pass_register(facts, call, index, *register, to, out),
        },
    }
}

/// The call passes its arguments.
fn pass_arguments<F: Facts, S: Sink>(
    facts: &F,
    call: &Entering<'_>,
    out: &mut S,
) -> Result<(), S::Refusal>
    ensures { OnOk result
        (out.new ≡ fold S.then out.old
        (for_below (argument_at call.now.app.now call.now.readers.now (F.hits facts.now) call.now.node call.now.by
        call.now.kind call.now.args.now) (length call.now.args.now))) }
{
    for index in 0..call.args.len() {
        pass_argument(facts, call, index, out)?;
    }
    Ok(())
}

/// What the step passes to the activation.
fn call_passes<F: Facts, S: Sink>(
    app: &App,
    readers: &RegisterReaders<'_>,
    facts: &F,
    node: Node,
    by: Activation,
    act: &Act,
    out: &mut S,
) -> Result<(), S::Refusal>
    requires { SoundApp app.now }
    ensures { OnOk result (out.new ≡ fold S.then out.old (call_passes app.now readers.now (F.hits facts.now) node by
        act.now)) }
{
    match act {
        Act::Call(kind, _, args) => {
            if is_initialised(app, node, act, by) {
                Ok(())
            } else {
                let call = Entering {
                    app,
                    readers,
                    node,
                    by,
                    kind: *kind,
                    args: args.as_slice(),
                };
                pass_arguments(facts, &call, out)
            }
        }
        _ => Ok(()),
    }
}

/// What follows where the node enters the activation.
pub fn calls<F: Facts, S: Sink>(
    app: &App,
    readers: &RegisterReaders<'_>,
    facts: &F,
    node: Node,
    by: Activation,
    out: &mut S,
) -> Result<(), S::Refusal>
    requires { SoundApp app.now }
    ensures { OnOk result (out.new ≡ fold S.then out.old (calls_on app.now readers.now (F.hits facts.now) node by
        (step_here app.now node))) }
{
    match step_at(app, node.by.method, node.pc) {
        None => Ok(()),
        Some(step) => call_passes(app, readers, facts, node, by, &step.act, out),
    }
}

//! Rule 24 from what a register holds: to the activations that the call enters.
ghost use Rattle.std.specs.Prelude.{◌≡◌, OnOk, fold, length};
ghost use Rattle.app_machine.specs.Sound.{SoundApp};
ghost use Rattle.rule_ground.specs.Below.{for_below};
ghost use Rattle.cell_call_rules.specs.CellPassGiven.{callee_gets, content_passed, is_passed as passes};
ghost use Rattle.cell_call_rules.specs.CellPassGiven.{passed_at};

use crate::arguments::Entering;
use crate::numbers;
use crate::passing::pass_to;
use app_machine::{Act, App, CallKind};
use call_rules::{hangs_on, is_initialised};
use call_targets::{argument_register, is_argument};
use cell_ground::Content;
use fact_rows::{Node, Row};
use register_readers::RegisterReaders;
use rule_ground::{Facts, Inference, Join, Key, Premises, Sink, for_each_hit, is_among};

/// What a register holds at a node.
#[derive(Clone, Copy)]
pub struct Held {
    pub node: Node,
    pub register: u32,
    pub content: Content,
}

/// Whether a call of the kind passes the content as its argument of this index.
fn is_passed(kind: CallKind, index: usize, content: Content) -> bool
    ensures { result ≡ passes kind index content }
{
    match content {
        Content::Object(_) => !hangs_on(kind, index),
        Content::Label(_) => true,
    }
}

/// The call passes the content as its argument of this index, where the register is that one.
fn pass_at<S: Sink>(
    call: &Entering<'_>,
    register: u32,
    content: Content,
    index: usize,
    out: &mut S,
) -> Result<(), S::Refusal>
    ensures { OnOk result (out.new ≡ fold S.then out.old (passed_at call.now.app.now call.now.readers.now call.now.node
        call.now.by call.now.kind call.now.args.now register content index)) }
{
    if is_argument(call.args, index, register) && is_passed(call.kind, index, content) {
        let inference = Inference {
            rule: numbers::PASS,
            premises: Premises::of_two(
                Row::Calls(call.node, call.by),
                content.held(call.node, register),
            ),
        };
        let to = argument_register(call.app, call.by.method, index);
        pass_to(call.readers, inference, content, call.by, to, out)
    } else {
        Ok(())
    }
}

/// It passes the content as each argument that the register is.
fn pass_all<S: Sink>(
    call: &Entering<'_>,
    register: u32,
    content: Content,
    out: &mut S,
) -> Result<(), S::Refusal>
    ensures { OnOk result
        (out.new ≡ fold S.then out.old
        (for_below (passed_at call.now.app.now call.now.readers.now call.now.node call.now.by call.now.kind
        call.now.args.now register content) (length call.now.args.now))) }
{
    for index in 0..call.args.len() {
        pass_at(call, register, content, index, out)?;
    }
    Ok(())
}

/// The activations that the call enters.
#[derive(Drop)]
struct Callees<'a> {
    app: &'a App,
    readers: &'a RegisterReaders<'a>,
    act: &'a Act,
    kind: CallKind,
    args: &'a [u32],
    held: Held,
}

impl<'a> Join for Callees<'a> {
    ghost ready = { λ j. SoundApp j.app.now };

    ghost gives = { λ j row. callee_gets j.app.now j.readers.now j.held.node j.act.now j.kind j.args.now
        j.held.register j.held.content row };

    fn give<S: Sink>(&self, row: Row, out: &mut S) -> Result<(), S::Refusal> {
        match row {
            Row::Calls(_, by) => {
                if is_initialised(self.app, self.held.node, self.act, by) {
                    Ok(())
                } else {
                    let call = Entering {
                        app: self.app,
                        readers: self.readers,
                        node: self.held.node,
                        by,
                        kind: self.kind,
                        args: self.args,
                    };
                    pass_all(&call, self.held.register, self.held.content, out)
                }
            }
            _ => Ok(()),
        }
    }
}

/// What follows where a register holds the content before the act.
pub fn pass_content<F: Facts, S: Sink>(
    app: &App,
    readers: &RegisterReaders<'_>,
    facts: &F,
    held: Held,
    act: &Act,
    out: &mut S,
) -> Result<(), S::Refusal>
    requires { SoundApp app.now }
    ensures { OnOk result (out.new ≡ fold S.then out.old (content_passed app.now readers.now (F.hits facts.now)
        held.node held.register held.content act.now)) }
{
    match act {
        Act::Call(kind, _, args) => {
            if is_among(args.as_slice(), held.register) {
                let with = Callees {
                    app,
                    readers,
                    act,
                    kind: *kind,
                    args: args.as_slice(),
                    held,
                };
                for_each_hit(facts, &Key::CallsAt(held.node), &with, out)
            } else {
                Ok(())
            }
        }
        _ => Ok(()),
    }
}

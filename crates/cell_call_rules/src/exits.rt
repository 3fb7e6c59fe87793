//! Rules 25 and 26: what an activation returns or throws goes to who called it.
ghost use Rattle.std.specs.Prelude.{◌≡◌, OnOk, fold};
ghost use Rattle.std.specs.Option.{option_copied};
ghost use Rattle.app_machine.specs.Sound.{SoundApp};
ghost use Rattle.cell_call_rules.specs.CellExitGiven.{caller_takes, caught_on, exit_gives, exit_taken};
ghost use Rattle.cell_call_rules.specs.CellExitGiven.{exits_taken, left, returned_on, unwinds};

use crate::numbers;
use app_machine::{App, Step};
use app_model::step_at;
use app_parts::RESULT;
use cell_ground::{Content, come_to};
use fact_rows::{Activation, Node, Row};
use register_readers::RegisterReaders;
use rule_ground::{
    Conclusion, EXCEPTION, Facts, Inference, Join, Key, Premises, RETURNING, Sink, THROWING,
    for_each_hit,
};

/// What leaves an activation, by returning (0) or throwing (1).
#[derive(Clone, Copy)]
pub struct Leaving {
    pub by: Activation,
    pub how: u8,
    pub content: Content,
}

/// What is returned comes to the result behind the step that called.
fn hand_back<S: Sink>(
    readers: &RegisterReaders<'_>,
    step: Option<&Step>,
    by: Activation,
    content: Content,
    node: Node,
    out: &mut S,
) -> Result<(), S::Refusal>
    ensures { OnOk result (out.new ≡ fold S.then out.old (returned_on readers.now (option_copied step.entry) by content
        node)) }
{
    match step {
        None => Ok(()),
        Some(step) => {
            let inference = Inference {
                rule: numbers::HAND_BACK,
                premises: Premises::of_two(content.leaves(by, RETURNING), Row::CalledBy(by, node)),
            };
            let next = step.next.as_slice();
            come_to(readers, inference, content, node, RESULT, next, out)
        }
    }
}

/// What is thrown comes to the exception at each handler of the step.
fn catch<S: Sink>(
    readers: &RegisterReaders<'_>,
    step: Option<&Step>,
    by: Activation,
    content: Content,
    node: Node,
    out: &mut S,
) -> Result<(), S::Refusal>
    ensures { OnOk result (out.new ≡ fold S.then out.old (caught_on readers.now (option_copied step.entry) by content
        node)) }
{
    match step {
        None => Ok(()),
        Some(step) => {
            let inference = Inference {
                rule: numbers::THROW_ON,
                premises: Premises::of_two(content.leaves(by, THROWING), Row::CalledBy(by, node)),
            };
            let catches = step.catches.as_slice();
            come_to(readers, inference, content, node, EXCEPTION, catches, out)
        }
    }
}

/// A label also leaves the activation that called.
fn unwind<S: Sink>(
    by: Activation,
    content: Content,
    node: Node,
    out: &mut S,
) -> Result<(), S::Refusal>
    ensures { OnOk result (out.new ≡ fold S.then out.old (unwinds by content node)) }
{
    match content {
        Content::Object(_) => Ok(()),
        Content::Label(label) => out.put(Conclusion {
            rule: numbers::THROW_ON,
            premises: Premises::of_two(
                Row::ExitLabel(by, THROWING, label),
                Row::CalledBy(by, node),
            ),
            row: Row::ExitLabel(node.by, THROWING, label),
        }),
    }
}

/// What leaves the activation comes to the node that called it.
fn leave<S: Sink>(
    app: &App,
    readers: &RegisterReaders<'_>,
    leaving: Leaving,
    node: Node,
    out: &mut S,
) -> Result<(), S::Refusal>
    requires { SoundApp app.now }
    ensures { OnOk result (out.new ≡ fold S.then out.old (left app.now readers.now leaving.by leaving.how
        leaving.content node)) }
{
    match leaving.how {
        RETURNING => {
            let step = step_at(app, node.by.method, node.pc);
            hand_back(readers, step, leaving.by, leaving.content, node, out)
        }
        THROWING => {
            unwind(leaving.by, leaving.content, node, out)?;
            let step = step_at(app, node.by.method, node.pc);
            catch(readers, step, leaving.by, leaving.content, node, out)
        }
        _ => Ok(()),
    }
}

/// Who called takes what leaves.
#[derive(Drop)]
struct Callers<'a> {
    app: &'a App,
    readers: &'a RegisterReaders<'a>,
    leaving: Leaving,
}

impl<'a> Join for Callers<'a> {
    ghost ready = { λ j. SoundApp j.app.now };

    ghost gives = { λ j row. caller_takes j.app.now j.readers.now j.leaving.by j.leaving.how j.leaving.content row };

    fn give<S: Sink>(&self, row: Row, out: &mut S) -> Result<(), S::Refusal> {
        match row {
            Row::CalledBy(_, node) => leave(self.app, self.readers, self.leaving, node, out),
            _ => Ok(()),
        }
    }
}

/// What follows where the content leaves the activation.
pub fn exit<F: Facts, S: Sink>(
    app: &App,
    readers: &RegisterReaders<'_>,
    facts: &F,
    leaving: Leaving,
    out: &mut S,
) -> Result<(), S::Refusal>
    requires { SoundApp app.now }
    ensures { OnOk result (out.new ≡ fold S.then out.old (exit_gives app.now readers.now (F.hits facts.now) leaving.by
        leaving.how leaving.content)) }
{
    let with = Callers {
        app,
        readers,
        leaving,
    };
    for_each_hit(facts, &Key::CallersOf(leaving.by), &with, out)
}

/// What leaves the activation that the node called.
#[derive(Drop)]
struct Exits<'a> {
    app: &'a App,
    readers: &'a RegisterReaders<'a>,
    by: Activation,
    node: Node,
}

impl<'a> Exits<'a> {
    fn take<S: Sink>(&self, how: u8, content: Content, out: &mut S) -> Result<(), S::Refusal>
        requires { SoundApp self.now.app.now }
        ensures { OnOk result (out.new ≡ fold S.then out.old (left self.now.app.now self.now.readers.now self.now.by
            how content self.now.node)) }
    {
        let by = self.by;
        leave(
            self.app,
            self.readers,
            Leaving { by, how, content },
            self.node,
            out,
        )
    }
}

impl<'a> Join for Exits<'a> {
    ghost ready = { λ j. SoundApp j.app.now };

    ghost gives = { λ j row. exit_taken j.app.now j.readers.now j.by j.node row };

    fn give<S: Sink>(&self, row: Row, out: &mut S) -> Result<(), S::Refusal> {
        match row {
            Row::ExitPoints(_, how, site) => self.take(how, Content::Object(site), out),
            Row::ExitLabel(_, how, label) => self.take(how, Content::Label(label), out),
            _ => Ok(()),
        }
    }
}

/// What the node takes that called the activation.
pub fn take<F: Facts, S: Sink>(
    app: &App,
    readers: &RegisterReaders<'_>,
    facts: &F,
    by: Activation,
    node: Node,
    how: u8,
    out: &mut S,
) -> Result<(), S::Refusal>
    requires { SoundApp app.now }
    ensures { OnOk result (out.new ≡ fold S.then out.old (exits_taken app.now readers.now (F.hits facts.now) by node
        how)) }
{
    let with = Exits {
        app,
        readers,
        by,
        node,
    };
    for_each_hit(facts, &Key::ExitPointsOf(by, how), &with, out)?;
    for_each_hit(facts, &Key::ExitLabelsOf(by, how), &with, out)
}

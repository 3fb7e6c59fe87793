//! Rules 25 and 26: what an activation returns or throws goes to who called it.
ghost use Rattle.std.specs.Prelude.{◌≡◌, OnOk, fold, flat_map};
ghost use Rattle.std.specs.Option.{option_copied};
ghost use Rattle.app_machine.specs.Sound.{SoundApp};
ghost use Rattle.call_rules.specs.ExitGiven.{returned_on, caught_on, thrown, left};
ghost use Rattle.call_rules.specs.ExitGiven.{caller_takes, exit_taken, exits_taken};

use crate::numbers;
use app_machine::{App, Step};
use app_model::step_at;
use app_parts::RESULT;
use fact_rows::{Activation, Node, Row};
use rule_ground::{
    Conclusion, Content, EXCEPTION, Facts, Inference, Join, Key, Premises, RETURNING, Sink,
    THROWING, for_each_hit, put_each,
};

/// What is returned is the result behind the step that called.
fn hand_back<S: Sink>(
    step: Option<&Step>,
    by: Activation,
    content: Content,
    node: Node,
    out: &mut S,
) -> Result<(), S::Refusal>
    ensures { OnOk result (out.new ≡ fold S.then out.old (returned_on (option_copied step.entry) by content node)) }
{
    match step {
        None => Ok(()),
        Some(step) => {
            let inference = Inference {
                rule: numbers::HAND_BACK,
                premises: Premises::of_two(content.leaves(by, RETURNING), Row::CalledBy(by, node)),
            };
            put_each(inference, content, node, RESULT, step.next.as_slice(), out)
        }
    }
}

/// What is thrown is the exception at each handler of the step.
fn catch<S: Sink>(
    step: Option<&Step>,
    by: Activation,
    content: Content,
    node: Node,
    out: &mut S,
) -> Result<(), S::Refusal>
    ensures { OnOk result (out.new ≡ fold S.then out.old (caught_on (option_copied step.entry) by content node)) }
{
    match step {
        None => Ok(()),
        Some(step) => {
            let inference = Inference {
                rule: numbers::THROW_ON,
                premises: Premises::of_two(content.leaves(by, THROWING), Row::CalledBy(by, node)),
            };
            put_each(
                inference,
                content,
                node,
                EXCEPTION,
                step.catches.as_slice(),
                out,
            )
        }
    }
}

/// It also leaves the activation that called.
fn throw<S: Sink>(
    app: &App,
    by: Activation,
    content: Content,
    node: Node,
    out: &mut S,
) -> Result<(), S::Refusal>
    requires { SoundApp app.now }
    ensures { OnOk result (out.new ≡ fold S.then out.old (thrown app.now by content node)) }
{
    out.put(Conclusion {
        rule: numbers::THROW_ON,
        premises: Premises::of_two(content.leaves(by, THROWING), Row::CalledBy(by, node)),
        row: content.leaves(node.by, THROWING),
    })?;
    catch(
        step_at(app, node.by.method, node.pc),
        by,
        content,
        node,
        out,
    )
}

/// What leaves the activation comes to the node that called it.
fn leave<S: Sink>(
    app: &App,
    by: Activation,
    how: u8,
    content: Content,
    node: Node,
    out: &mut S,
) -> Result<(), S::Refusal>
    requires { SoundApp app.now }
    ensures { OnOk result (out.new ≡ fold S.then out.old (left app.now by how content node)) }
{
    match how {
        RETURNING => hand_back(
            step_at(app, node.by.method, node.pc),
            by,
            content,
            node,
            out,
        ),
        THROWING => throw(app, by, content, node, out),
        _ => Ok(()),
    }
}

/// Who called takes what leaves.
#[derive(Drop)]
struct Callers<'a> {
    app: &'a App,
    by: Activation,
    how: u8,
    content: Content,
}

impl<'a> Join for Callers<'a> {
    ghost ready = { λ j. SoundApp j.app.now };

    ghost gives = { λ j row. caller_takes j.app.now j.by j.how j.content row };

    fn give<S: Sink>(&self, row: Row, out: &mut S) -> Result<(), S::Refusal> {
        match row {
            Row::CalledBy(_, node) => leave(self.app, self.by, self.how, self.content, node, out),
            _ => Ok(()),
        }
    }
}

/// What follows where the content leaves the activation.
pub fn exit<F: Facts, S: Sink>(
    app: &App,
    facts: &F,
    by: Activation,
    how: u8,
    content: Content,
    out: &mut S,
) -> Result<(), S::Refusal>
    requires { SoundApp app.now }
    ensures { OnOk result (out.new ≡ fold S.then out.old (flat_map (caller_takes app.now by how content)
        (F.hits facts.now (Key.CallersOf by)))) }
{
    for_each_hit(
        facts,
        &Key::CallersOf(by),
        &Callers {
            app,
            by,
            how,
            content,
        },
        out,
    )
}

/// What leaves the activation that the node called.
#[derive(Drop)]
struct Exits<'a> {
    app: &'a App,
    by: Activation,
    node: Node,
}

impl<'a> Join for Exits<'a> {
    ghost ready = { λ j. SoundApp j.app.now };

    ghost gives = { λ j row. exit_taken j.app.now j.by j.node row };

    fn give<S: Sink>(&self, row: Row, out: &mut S) -> Result<(), S::Refusal> {
        match row {
            Row::ExitPoints(_, how, site) => leave(
                self.app,
                self.by,
                how,
                Content::Object(site),
                self.node,
                out,
            ),
            Row::ExitTaint(_, how, path, label) => leave(
                self.app,
                self.by,
                how,
                Content::Label(path, label),
                self.node,
                out,
            ),
            _ => Ok(()),
        }
    }
}

/// What the node takes that called the activation.
pub fn take<F: Facts, S: Sink>(
    app: &App,
    facts: &F,
    by: Activation,
    node: Node,
    how: u8,
    out: &mut S,
) -> Result<(), S::Refusal>
    requires { SoundApp app.now }
    ensures { OnOk result (out.new ≡ fold S.then out.old (exits_taken app.now (F.hits facts.now) by node how)) }
{
    let with = Exits { app, by, node };
    for_each_hit(facts, &Key::ExitPointsOf(by, how), &with, out)?;
    for_each_hit(facts, &Key::ExitTaintsOf(by, how), &with, out)
}

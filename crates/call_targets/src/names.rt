//! Rules 22, 27 and 28: what follows where control comes to a step.
ghost use Rattle.std.specs.Prelude.{◌≡◌, ◌<◌, OnOk, fold, length};
ghost use Rattle.app_machine.specs.Lookups.{initialisers};
ghost use Rattle.app_machine.specs.Sound.{SoundApp};
ghost use Rattle.app_machine.specs.SoundLists.{SoundLists};
ghost use Rattle.app_model.specs.Targets.{shown_target};
ghost use Rattle.call_targets.specs.EnterGiven.{named_to, named, initialises, reached_on, step_here};

use crate::enter::{Call, enter, look_up};
use crate::numbers;
use app_index::LibraryIndex;
use app_machine::{Act, App};
use app_model::{Target, act_initialisers, next_initialiser, step_at, target};
use app_parts::is_by_receiver;
use fact_rows::{Node, Row};
use rule_ground::{Premises, Sink};

/// The call comes to this by its name.
fn come_by_name<S: Sink>(call: &Call<'_>, to: Target, out: &mut S) -> Result<(), S::Refusal>
    requires sound { SoundApp call.now.app.now }
    requires lists { SoundLists call.now.lists.now }
    ensures { OnOk result (out.new ≡ fold S.then out.old (named_to call.now.app.now call.now.lists.now call.now.node
        call.now.kind call.now.at.now (shown_target to.entry))) }
{
    let premises = Premises::of_one(Row::Reached(call.node));
    match to {
        Target::Body(body) => {
            if is_by_receiver(call.kind) {
                Ok(())
            } else {
                enter(call.app, numbers::ENTER, premises, call.node, body, out)
            }
        }
        Target::Library(class) => look_up(call, premises, class, out),
        Target::Nothing => Ok(()),
    }
}

/// What a call comes to by its name.
fn by_name<S: Sink>(
    app: &App,
    lists: &LibraryIndex<'_>,
    node: Node,
    act: &Act,
    out: &mut S,
) -> Result<(), S::Refusal>
    requires sound { SoundApp app.now }
    requires lists { SoundLists lists.now }
    requires caller { node.by.method < length app.now.methods }
    ensures { OnOk result (out.new ≡ fold S.then out.old (named app.now lists.now node act.now)) }
{
    match act {
        Act::Call(kind, at, _) => {
            let call = Call {
                app,
                lists,
                node,
                kind: *kind,
                at,
            };
            let to = target(app, *kind, node.by.method, at, None);
            come_by_name(&call, to, out)
        }
        _ => Ok(()),
    }
}

/// The initialisers that may run before the act are entered.
fn initialise<S: Sink>(app: &App, node: Node, act: &Act, out: &mut S) -> Result<(), S::Refusal>
    requires { SoundApp app.now }
    ensures { OnOk result (out.new ≡ fold S.then out.old (initialises app.now node (initialisers app.now act.now))) }
{
    let mut walk = act_initialisers(app, act);
    while let Some((body, rest)) = next_initialiser(app, walk) {
        enter(
            app,
            numbers::INITIALISE,
            Premises::of_one(Row::Reached(node)),
            node,
            body,
            out,
        )?;
        walk = rest;
    }
    Ok(())
}

/// What follows where control comes to the node.
pub fn reached<S: Sink>(
    app: &App,
    lists: &LibraryIndex<'_>,
    node: Node,
    out: &mut S,
) -> Result<(), S::Refusal>
    requires sound { SoundApp app.now }
    requires lists { SoundLists lists.now }
    ensures { OnOk result (out.new ≡ fold S.then out.old (reached_on app.now lists.now node (step_here app.now node))) }
{
    match step_at(app, node.by.method, node.pc) {
        None => Ok(()),
        Some(step) => {
            by_name(app, lists, node, &step.act, out)?;
            initialise(app, node, &step.act, out)
        }
    }
}

//! Rule 29: what effects of initialisers do to the registers of the instruction before which they ran.
ghost use Rattle.std.specs.Prelude.{◌≡◌, OnOk, fold};
ghost use Rattle.app_machine.specs.Lookups.{initialisers};
ghost use Rattle.app_machine.specs.Sound.{SoundApp};
ghost use Rattle.app_machine.specs.State.{holds};
ghost use Rattle.call_targets.specs.EnterGiven.{step_here};
ghost use Rattle.call_rules.specs.PassGiven.{is_initialised as initialises};
ghost use Rattle.call_rules.specs.InitGiven.{is_initialised_at as initialises_at, tainted, register_gets};
ghost use Rattle.call_rules.specs.InitGiven.{registers_get, caller_gets, effect_gives, effect_comes};
ghost use Rattle.call_rules.specs.InitGiven.{effects_come, effect_taints, call_taints, bodies_taint};

use crate::numbers;
use access_path::Path;
use app_machine::{Act, App};
use app_model::{act_initialisers, is_initialiser, next_initialiser, step_at};
use call_targets::Pointer;
use fact_rows::{Activation, Node, Row, Site};
use rule_ground::{Conclusion, Facts, Join, Key, Premises, Sink, callee, for_each_hit};

/// Whether the activation is of an initialiser that may run before the act.
pub fn is_initialised(app: &App, node: Node, act: &Act, by: Activation) -> bool
    requires { SoundApp app.now }
    ensures { result ≡ initialises app.now node act.now by }
{
    runs_before(app, act, by.method) && by == callee(node, by.method)
}

/// Whether the body is of an initialiser that may run before the act.
fn runs_before(app: &App, act: &Act, body: u32) -> bool
    requires { SoundApp app.now }
    ensures { result ≡ holds (initialisers app.now act.now) body }
{
    is_initialiser(app, act, body)
}

/// The same of the node's step.
fn is_initialised_at(app: &App, node: Node, by: Activation) -> bool
    requires { SoundApp app.now }
    ensures { result ≡ initialises_at app.now node by (step_here app.now node) }
{
    match step_at(app, node.by.method, node.pc) {
        None => false,
        Some(step) => is_initialised(app, node, &step.act, by),
    }
}

/// An effect of an activation on objects of a site.
#[derive(Clone, Copy)]
pub struct Effect {
    pub by: Activation,
    pub site: Site,
    pub path: Path,
    pub label: u8,
}

impl Effect {
    /// The register leads to the label at the node that called.
    fn taints(&self, node: Node, register: u32) -> Conclusion
        ensures { result ≡ tainted self.now.by node register self.now.site self.now.path self.now.label }
    {
        Conclusion {
            rule: numbers::INITIALISED,
            premises: Premises::of_three(
                Row::MethodEffect(self.by, self.site, self.path, self.label),
                Row::CalledBy(self.by, node),
                Row::Points(node, register, self.site),
            ),
            row: Row::Taint(node, register, self.path, self.label),
        }
    }
}

/// The registers that hold the objects.
#[derive(Drop)]
struct Registers {
    effect: Effect,
    node: Node,
}

impl Join for Registers {
    ghost ready = { λ j. Unit {0} };

    ghost gives = { λ j row. register_gets j.effect.by j.node j.effect.site j.effect.path j.effect.label row };

    fn give<S: Sink>(&self, row: Row, out: &mut S) -> Result<(), S::Refusal> {
        match row {
            Row::Points(_, register, _) => out.put(self.effect.taints(self.node, register)),
            _ => Ok(()),
        }
    }
}

/// The effect comes to the registers of the node.
fn affect<F: Facts, S: Sink>(
    facts: &F,
    effect: Effect,
    node: Node,
    out: &mut S,
) -> Result<(), S::Refusal>
    ensures { OnOk result (out.new ≡ fold S.then out.old (registers_get (F.hits facts.now) effect.by node effect.site
        effect.path effect.label)) }
{
    for_each_hit(
        facts,
        &Key::PointsOn(node, effect.site),
        &Registers { effect, node },
        out,
    )
}

/// Who called the initialiser.
#[derive(Drop)]
struct Callers<'a, F> {
    app: &'a App,
    facts: &'a F,
    effect: Effect,
}

impl<'a, F: Facts> Join for Callers<'a, F> {
    ghost ready = { λ j. SoundApp j.app.now };

    ghost gives = { λ j row. caller_gets j.app.now (F.hits j.facts.now) j.effect.by j.effect.site j.effect.path
        j.effect.label row };

    fn give<S: Sink>(&self, row: Row, out: &mut S) -> Result<(), S::Refusal> {
        match row {
            Row::CalledBy(_, node) => {
                if is_initialised_at(self.app, node, self.effect.by) {
                    affect(self.facts, self.effect, node, out)
                } else {
                    Ok(())
                }
            }
            _ => Ok(()),
        }
    }
}

/// What follows from the effect of an activation.
pub fn from_effect<F: Facts, S: Sink>(
    app: &App,
    facts: &F,
    effect: Effect,
    out: &mut S,
) -> Result<(), S::Refusal>
    requires { SoundApp app.now }
    ensures { OnOk result (out.new ≡ fold S.then out.old (effect_gives app.now (F.hits facts.now) effect.by effect.site
        effect.path effect.label)) }
{
    for_each_hit(
        facts,
        &Key::CallersOf(effect.by),
        &Callers { app, facts, effect },
        out,
    )
}

/// The effects of the initialiser that the node called.
#[derive(Drop)]
struct Effects<'a, F> {
    facts: &'a F,
    by: Activation,
    node: Node,
}

impl<'a, F: Facts> Join for Effects<'a, F> {
    ghost ready = { λ j. Unit {0} };

    ghost gives = { λ j row. effect_comes (F.hits j.facts.now) j.by j.node row };

    fn give<S: Sink>(&self, row: Row, out: &mut S) -> Result<(), S::Refusal> {
        match row {
            Row::MethodEffect(_, site, path, label) => {
                let effect = Effect {
                    by: self.by,
                    site,
                    path,
                    label,
                };
                affect(self.facts, effect, self.node, out)
            }
            _ => Ok(()),
        }
    }
}

/// What follows for the registers of the node where it called the activation.
pub fn from_call<F: Facts, S: Sink>(
    app: &App,
    facts: &F,
    by: Activation,
    node: Node,
    out: &mut S,
) -> Result<(), S::Refusal>
    requires { SoundApp app.now }
    ensures { OnOk result (out.new ≡ fold S.then out.old (effects_come app.now (F.hits facts.now) by node)) }
{
    if is_initialised_at(app, node, by) {
        for_each_hit(
            facts,
            &Key::MethodEffectsOf(by),
            &Effects { facts, by, node },
            out,
        )
    } else {
        Ok(())
    }
}

/// The effects of an initialiser on the objects of a register.
#[derive(Drop)]
struct OnRegister {
    by: Activation,
    pointer: Pointer,
}

impl Join for OnRegister {
    ghost ready = { λ j. Unit {0} };

    ghost gives = { λ j row. effect_taints j.by j.pointer.node j.pointer.register j.pointer.site row };

    fn give<S: Sink>(&self, row: Row, out: &mut S) -> Result<(), S::Refusal> {
        match row {
            Row::MethodEffect(_, _, path, label) => {
                let effect = Effect {
                    by: self.by,
                    site: self.pointer.site,
                    path,
                    label,
                };
                out.put(effect.taints(self.pointer.node, self.pointer.register))
            }
            _ => Ok(()),
        }
    }
}

/// Whether the initialiser was called.
#[derive(Drop)]
struct Called<'a, F> {
    facts: &'a F,
    by: Activation,
    pointer: Pointer,
}

impl<'a, F: Facts> Join for Called<'a, F> {
    ghost ready = { λ j. Unit {0} };

    ghost gives = { λ j row. call_taints (F.hits j.facts.now) j.by j.pointer.node j.pointer.register
        j.pointer.site row };

    fn give<S: Sink>(&self, row: Row, out: &mut S) -> Result<(), S::Refusal> {
        match row {
            Row::CalledBy(_, _) => for_each_hit(
                self.facts,
                &Key::MethodEffectsBy(self.by, self.pointer.site),
                &OnRegister {
                    by: self.by,
                    pointer: self.pointer,
                },
                out,
            ),
            _ => Ok(()),
        }
    }
}

/// What the initialisers that may run before the act do to the register.
pub fn from_pointer<F: Facts, S: Sink>(
    app: &App,
    facts: &F,
    pointer: Pointer,
    act: &Act,
    out: &mut S,
) -> Result<(), S::Refusal>
    requires { SoundApp app.now }
    ensures { OnOk result (out.new ≡ fold S.then out.old (bodies_taint (F.hits facts.now) pointer.node pointer.register
        pointer.site (initialisers app.now act.now))) }
{
    let mut walk = act_initialisers(app, act);
    while let Some((body, rest)) = next_initialiser(app, walk) {
        let by = callee(pointer.node, body);
        for_each_hit(
            facts,
            &Key::CallerAt(by, pointer.node),
            &Called { facts, by, pointer },
            out,
        )?;
        walk = rest;
    }
    Ok(())
}

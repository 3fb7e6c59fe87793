//! Rules 17, 20 and 21: what follows from the effects of activations.
ghost use Rattle.std.specs.Prelude.{◌≡◌, OnOk, flat_map, fold, slice_get};
ghost use Rattle.effect_rules.specs.EffectGiven.{caller_has, called_has, state_in, own_to, own_gives, is_beside};
ghost use Rattle.effect_rules.specs.EffectGiven.{stays, component_gives, method_gives, live_takes, live_gives};

use crate::numbers;
use access_path::Path;
use app_machine::App;
use app_model::event_rows;
use fact_rows::{Activation, Ctx, Node, Row, Site};
use rule_ground::{Conclusion, Facts, Join, Key, Premises, Sink, for_each_hit};

/// An effect of an activation on objects of a site.
#[derive(Clone, Copy)]
pub struct MethodEffect {
    pub by: Activation,
    pub site: Site,
    pub path: Path,
    pub label: u8,
}

impl MethodEffect {
    fn row(&self) -> Row
        ensures { result ≡ Row.MethodEffect self.now.by self.now.site self.now.path self.now.label }
    {
        Row::MethodEffect(self.by, self.site, self.path, self.label)
    }
}

/// Who enters the activation has its effect.
#[derive(Drop)]
struct Callers(MethodEffect);

impl Join for Callers {
    ghost ready = { λ j. Unit {0} };

    ghost gives = { λ j row. caller_has j.0.by j.0.site j.0.path j.0.label row };

    fn give<S: Sink>(&self, row: Row, out: &mut S) -> Result<(), S::Refusal> {
        match row {
            Row::CalledBy(_, node) => out.put(Conclusion {
                rule: numbers::TO_CALLER,
                premises: Premises::of_two(self.0.row(), row),
                row: Row::Effect(node, self.0.site, self.0.path, self.0.label),
            }),
            _ => Ok(()),
        }
    }
}

/// The node has the effects of the activation that it enters.
#[derive(Drop)]
struct Called {
    by: Activation,
    node: Node,
}

impl Join for Called {
    ghost ready = { λ j. Unit {0} };

    ghost gives = { λ j row. called_has j.by j.node row };

    fn give<S: Sink>(&self, row: Row, out: &mut S) -> Result<(), S::Refusal> {
        match row {
            Row::MethodEffect(_, site, path, label) => out.put(Conclusion {
                rule: numbers::TO_CALLER,
                premises: Premises::of_two(row, Row::CalledBy(self.by, self.node)),
                row: Row::Effect(self.node, site, path, label),
            }),
            _ => Ok(()),
        }
    }
}

/// What follows where the node enters the activation.
pub fn call<F: Facts, S: Sink>(
    facts: &F,
    by: Activation,
    node: Node,
    out: &mut S,
) -> Result<(), S::Refusal>
    ensures { OnOk result (out.new ≡ fold S.then out.old (flat_map (called_has by node)
        (F.hits facts.now (Key.MethodEffectsOf by)))) }
{
    for_each_hit(facts, &Key::MethodEffectsOf(by), &Called { by, node }, out)
}

/// The state to which the event of the component leads.
fn state_after(app: &App, component: u32, event: u32) -> Option<u8>
    ensures { result ≡ state_in (slice_get app.now.components component) event }
{
    match app.components.get(component as usize) {
        None => None,
        Some(component) => match event_rows(component.kind).get(event as usize) {
            None => None,
            Some(row) => Some(row.to),
        },
    }
}

/// An effect of an activation on a component.
#[derive(Clone, Copy)]
struct ComponentEffect {
    by: Activation,
    component: u32,
    path: Path,
    label: u8,
}

impl ComponentEffect {
    fn row(&self) -> Row
        ensures { result ≡ Row.MethodEffect self.now.by (Site.Component self.now.component) self.now.path
            self.now.label }
    {
        Row::MethodEffect(
            self.by,
            Site::Component(self.component),
            self.path,
            self.label,
        )
    }
}

/// The component holds it in the state, where it is there.
fn comes_to<S: Sink>(to: Option<u8>, effect: ComponentEffect, out: &mut S) -> Result<(), S::Refusal>
    ensures { OnOk result
        (out.new ≡ fold S.then out.old (own_to to effect.by effect.component effect.path effect.label)) }
{
    match to {
        None => Ok(()),
        Some(to) => {
            if to == 0 {
                Ok(())
            } else {
                out.put(Conclusion {
                    rule: numbers::BY_OWN_EVENT,
                    premises: Premises::of_one(effect.row()),
                    row: Row::CompTaint(effect.component, to, effect.path, effect.label),
                })
            }
        }
    }
}

/// The effect of an event in the component's own life.
fn own<S: Sink>(app: &App, effect: ComponentEffect, out: &mut S) -> Result<(), S::Refusal>
    ensures { OnOk result (out.new ≡ fold S.then out.old (own_gives app.now effect.by.ctx effect.by effect.component
        effect.path effect.label)) }
{
    match effect.by.ctx {
        Ctx::Row(own, event) => {
            if own == effect.component {
                comes_to(state_after(app, effect.component, event), effect, out)
            } else {
                Ok(())
            }
        }
        _ => Ok(()),
    }
}

/// Whether the context is that of an event, but of none in the component's own life.
fn beside(ctx: Ctx, component: u32) -> bool
    ensures { result ≡ is_beside ctx component }
{
    match ctx {
        Ctx::Row(own, _) => own != component,
        Ctx::Callback(_, _) | Ctx::Click(_, _) | Ctx::Handed(_) | Ctx::Init(_) => true,
        Ctx::Call(_, _) | Ctx::Call2(_, _, _, _) => false,
    }
}

/// The component keeps the effect in each of its states.
#[derive(Drop)]
struct States(ComponentEffect);

impl Join for States {
    ghost ready = { λ j. Unit {0} };

    ghost gives = { λ j row. stays j.0.by j.0.component j.0.path j.0.label row };

    fn give<S: Sink>(&self, row: Row, out: &mut S) -> Result<(), S::Refusal> {
        match row {
            Row::Live(_, state) => {
                if state == 0 {
                    Ok(())
                } else {
                    out.put(Conclusion {
                        rule: numbers::BY_OTHER_EVENT,
                        premises: Premises::of_two(self.0.row(), row),
                        row: Row::CompTaint(self.0.component, state, self.0.path, self.0.label),
                    })
                }
            }
            _ => Ok(()),
        }
    }
}

/// An effect on a component comes to it.
fn on_component<F: Facts, S: Sink>(
    app: &App,
    facts: &F,
    effect: MethodEffect,
    out: &mut S,
) -> Result<(), S::Refusal>
    ensures { OnOk result (out.new ≡ fold S.then out.old (component_gives app.now (F.hits facts.now) effect.by
        effect.site effect.path effect.label)) }
{
    match effect.site {
        Site::Component(component) => {
            let on = ComponentEffect {
                by: effect.by,
                component,
                path: effect.path,
                label: effect.label,
            };
            own(app, on, out)?;
            if beside(on.by.ctx, component) {
                for_each_hit(facts, &Key::LivesOf(component), &States(on), out)
            } else {
                Ok(())
            }
        }
        _ => Ok(()),
    }
}

/// What follows from the effect of an activation.
pub fn method_effect<F: Facts, S: Sink>(
    app: &App,
    facts: &F,
    effect: MethodEffect,
    out: &mut S,
) -> Result<(), S::Refusal>
    ensures { OnOk result (out.new ≡ fold S.then out.old (method_gives app.now (F.hits facts.now) effect.by effect.site
        effect.path effect.label)) }
{
    for_each_hit(facts, &Key::CallersOf(effect.by), &Callers(effect), out)?;
    on_component(app, facts, effect, out)
}

/// The component is in the state.
#[derive(Drop)]
struct State {
    component: u32,
    state: u8,
}

impl Join for State {
    ghost ready = { λ j. Unit {0} };

    ghost gives = { λ j row. live_takes j.component j.state row };

    fn give<S: Sink>(&self, row: Row, out: &mut S) -> Result<(), S::Refusal> {
        match row {
            Row::MethodEffect(by, _, path, label) => {
                if beside(by.ctx, self.component) {
                    out.put(Conclusion {
                        rule: numbers::BY_OTHER_EVENT,
                        premises: Premises::of_two(row, Row::Live(self.component, self.state)),
                        row: Row::CompTaint(self.component, self.state, path, label),
                    })
                } else {
                    Ok(())
                }
            }
            _ => Ok(()),
        }
    }
}

/// What follows where a component is in a state.
pub fn live<F: Facts, S: Sink>(
    facts: &F,
    component: u32,
    state: u8,
    out: &mut S,
) -> Result<(), S::Refusal>
    ensures { OnOk result (out.new ≡ fold S.then out.old (live_gives (F.hits facts.now) component state)) }
{
    if state == 0 {
        Ok(())
    } else {
        for_each_hit(
            facts,
            &Key::MethodEffectsOn(Site::Component(component)),
            &State { component, state },
            out,
        )
    }
}

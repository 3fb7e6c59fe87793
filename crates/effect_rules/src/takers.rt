//! Rules 14, 15, 18 and 19 from the side of what holds the object.
ghost use Rattle.std.specs.Prelude.{◌≡◌, OnOk, flat_map, fold};
ghost use Rattle.app_machine.specs.Sound.{SoundApp};
ghost use Rattle.effect_rules.specs.EffectGiven.{back_lifts, back_on, points_take};
ghost use Rattle.effect_rules.specs.EffectGiven.{static_takes, handed_takes, step_here};

use crate::numbers;
use access_path::cut;
use app_machine::App;
use app_model::step_at;
use fact_rows::{Node, Row, Site};
use rule_ground::{Conclusion, Facts, Join, Key, Premises, Sink, for_each_hit, is_among};
use vet_base::KeyId;

/// An object that holds another.
#[derive(Drop)]
struct Holder {
    held: Site,
    key: KeyId,
    site: Site,
}

impl Join for Holder {
    ghost ready = { λ j. Unit {0} };

    ghost gives = { λ j row. back_lifts j.held j.key j.site row };

    fn give<S: Sink>(&self, row: Row, out: &mut S) -> Result<(), S::Refusal> {
        match row {
            Row::Effect(node, _, path, label) => out.put(Conclusion {
                rule: numbers::TO_HOLDER,
                premises: Premises::of_two(row, Row::Back(self.held, self.key, self.site)),
                row: Row::Effect(node, self.site, cut(self.key, &path), label),
            }),
            _ => Ok(()),
        }
    }
}

/// What follows where an object of the site holds one of the other site under the key.
pub fn hold<F: Facts, S: Sink>(
    facts: &F,
    held: Site,
    key: KeyId,
    site: Site,
    out: &mut S,
) -> Result<(), S::Refusal>
    ensures { OnOk result (out.new ≡ fold S.then out.old (flat_map (back_lifts held key site)
        (F.hits facts.now (Key.EffectsOn held)))) }
{
    let with = Holder { held, key, site };
    for_each_hit(facts, &Key::EffectsOn(held), &with, out)
}

/// A register that holds the object.
#[derive(Drop)]
struct Register<'a> {
    app: &'a App,
    node: Node,
    register: u32,
    site: Site,
}

/// The effect comes to the pc, where the step goes on there or is caught there.
fn comes<S: Sink>(
    app: &App,
    from: Node,
    to: u32,
    found: Conclusion,
    out: &mut S,
) -> Result<(), S::Refusal>
    requires { SoundApp app.now }
    ensures { OnOk result (out.new ≡ fold S.then out.old (back_on (step_here app.now from) to found)) }
{
    match step_at(app, from.by.method, from.pc) {
        None => Ok(()),
        Some(step) => {
            if is_among(step.next.as_slice(), to) || is_among(step.catches.as_slice(), to) {
                out.put(found)
            } else {
                Ok(())
            }
        }
    }
}

impl<'a> Join for Register<'a> {
    ghost ready = { λ j. SoundApp j.app.now };

    ghost gives = { λ j row. points_take j.app.now j.node j.register j.site row };

    fn give<S: Sink>(&self, row: Row, out: &mut S) -> Result<(), S::Refusal> {
        match row {
            Row::Effect(node, _, path, label) => {
                let found = Conclusion {
                    rule: numbers::TO_REGISTER,
                    premises: Premises::of_two(
                        row,
                        Row::Points(self.node, self.register, self.site),
                    ),
                    row: Row::Taint(self.node, self.register, path, label),
                };
                comes(self.app, node, self.node.pc, found, out)
            }
            _ => Ok(()),
        }
    }
}

/// What follows where the register may hold an object of the site.
pub fn point<F: Facts, S: Sink>(
    app: &App,
    facts: &F,
    node: Node,
    register: u32,
    site: Site,
    out: &mut S,
) -> Result<(), S::Refusal>
    requires { SoundApp app.now }
    ensures { OnOk result (out.new ≡ fold S.then out.old (flat_map (points_take app.now node register site)
        (F.hits facts.now (Key.EffectsIn node.by site)))) }
{
    let with = Register {
        app,
        node,
        register,
        site,
    };
    for_each_hit(facts, &Key::EffectsIn(node.by, site), &with, out)
}

/// A static that holds it.
#[derive(Drop)]
struct Static {
    number: u32,
    site: Site,
}

impl Join for Static {
    ghost ready = { λ j. Unit {0} };

    ghost gives = { λ j row. static_takes j.number j.site row };

    fn give<S: Sink>(&self, row: Row, out: &mut S) -> Result<(), S::Refusal> {
        match row {
            Row::Effect(_, _, path, label) => out.put(Conclusion {
                rule: numbers::TO_STATIC,
                premises: Premises::of_two(row, Row::StaticPoints(self.number, self.site)),
                row: Row::StaticTaint(self.number, path, label),
            }),
            _ => Ok(()),
        }
    }
}

/// What follows where the static may hold an object of the site.
pub fn hold_static<F: Facts, S: Sink>(
    facts: &F,
    number: u32,
    site: Site,
    out: &mut S,
) -> Result<(), S::Refusal>
    ensures { OnOk result (out.new ≡ fold S.then out.old (flat_map (static_takes number site)
        (F.hits facts.now (Key.EffectsOn site)))) }
{
    let with = Static { number, site };
    for_each_hit(facts, &Key::EffectsOn(site), &with, out)
}

/// The object is handed.
#[derive(Drop)]
struct HandedObject(Site);

impl Join for HandedObject {
    ghost ready = { λ j. Unit {0} };

    ghost gives = { λ j row. handed_takes j.0 row };

    fn give<S: Sink>(&self, row: Row, out: &mut S) -> Result<(), S::Refusal> {
        match row {
            Row::Effect(_, _, path, label) => out.put(Conclusion {
                rule: numbers::TO_HANDED,
                premises: Premises::of_two(row, Row::Handed(self.0)),
                row: Row::HandedTaint(self.0, path, label),
            }),
            _ => Ok(()),
        }
    }
}

/// What follows where the library may have been handed an object of the site.
pub fn hand<F: Facts, S: Sink>(facts: &F, site: Site, out: &mut S) -> Result<(), S::Refusal>
    ensures { OnOk result (out.new ≡ fold S.then out.old (flat_map (handed_takes site)
        (F.hits facts.now (Key.EffectsOn site)))) }
{
    for_each_hit(facts, &Key::EffectsOn(site), &HandedObject(site), out)
}

//! Rules 14 to 16, 18 and 19: what follows from an effect.
ghost use Rattle.std.specs.Prelude.{◌≡◌, OnOk, fold};
ghost use Rattle.app_machine.specs.Sound.{SoundApp};
ghost use Rattle.effect_rules.specs.EffectGiven.{lifts, spreads, spread_to, spread_on, statics_hold};
ghost use Rattle.effect_rules.specs.EffectGiven.{is_handed, effect_gives, step_here};

use crate::numbers;
use access_path::{Path, cut};
use app_machine::App;
use app_model::step_at;
use fact_rows::{Node, Row, Site};
use rule_ground::{Conclusion, Facts, Join, Key, Premises, Sink, at_pc, for_each_hit};

/// An effect of a node on objects of a site.
#[derive(Clone, Copy)]
pub struct Effect {
    pub node: Node,
    pub site: Site,
    pub path: Path,
    pub label: u8,
}

impl Effect {
    fn row(&self) -> Row
        ensures { result ≡ Row.Effect self.now.node self.now.site self.now.path self.now.label }
    {
        Row::Effect(self.node, self.site, self.path, self.label)
    }
}

/// What holds the objects.
#[derive(Drop)]
struct Holders(Effect);

impl Join for Holders {
    ghost ready = { λ j. Unit {0} };

    ghost gives = { λ j row. lifts j.0.node j.0.site j.0.path j.0.label row };

    fn give<S: Sink>(&self, row: Row, out: &mut S) -> Result<(), S::Refusal> {
        match row {
            Row::Back(_, key, site) => out.put(Conclusion {
                rule: numbers::TO_HOLDER,
                premises: Premises::of_two(self.0.row(), row),
                row: Row::Effect(self.0.node, site, cut(key, &self.0.path), self.0.label),
            }),
            _ => Ok(()),
        }
    }
}

/// The registers that hold them.
#[derive(Drop)]
struct Registers(Effect);

impl Join for Registers {
    ghost ready = { λ j. Unit {0} };

    ghost gives = { λ j row. spreads j.0.node j.0.site j.0.path j.0.label row };

    fn give<S: Sink>(&self, row: Row, out: &mut S) -> Result<(), S::Refusal> {
        match row {
            Row::Points(node, register, _) => out.put(Conclusion {
                rule: numbers::TO_REGISTER,
                premises: Premises::of_two(self.0.row(), row),
                row: Row::Taint(node, register, self.0.path, self.0.label),
            }),
            _ => Ok(()),
        }
    }
}

/// The statics that hold them.
#[derive(Drop)]
struct Statics(Effect);

impl Join for Statics {
    ghost ready = { λ j. Unit {0} };

    ghost gives = { λ j row. statics_hold j.0.node j.0.site j.0.path j.0.label row };

    fn give<S: Sink>(&self, row: Row, out: &mut S) -> Result<(), S::Refusal> {
        match row {
            Row::StaticPoints(number, _) => out.put(Conclusion {
                rule: numbers::TO_STATIC,
                premises: Premises::of_two(self.0.row(), row),
                row: Row::StaticTaint(number, self.0.path, self.0.label),
            }),
            _ => Ok(()),
        }
    }
}

/// Whether they are handed.
#[derive(Drop)]
struct Handed(Effect);

impl Join for Handed {
    ghost ready = { λ j. Unit {0} };

    ghost gives = { λ j row. is_handed j.0.node j.0.site j.0.path j.0.label row };

    fn give<S: Sink>(&self, row: Row, out: &mut S) -> Result<(), S::Refusal> {
        match row {
            Row::Handed(site) => out.put(Conclusion {
                rule: numbers::TO_HANDED,
                premises: Premises::of_two(self.0.row(), row),
                row: Row::HandedTaint(site, self.0.path, self.0.label),
            }),
            _ => Ok(()),
        }
    }
}

/// The effect comes to registers at each of the pcs.
fn spread<F: Facts, S: Sink>(
    facts: &F,
    effect: Effect,
    pcs: &[u32],
    out: &mut S,
) -> Result<(), S::Refusal>
    ensures { OnOk result (out.new ≡ fold S.then out.old (spread_to (F.hits facts.now) effect.node effect.site
        effect.path effect.label pcs.now)) }
{
    for pc in pcs {
        for_each_hit(
            facts,
            &Key::PointsOn(at_pc(effect.node, *pc), effect.site),
            &Registers(effect),
            out,
        )?;
    }
    Ok(())
}

/// It comes to those behind the step and at its handlers.
fn spread_behind<F: Facts, S: Sink>(
    app: &App,
    facts: &F,
    effect: Effect,
    out: &mut S,
) -> Result<(), S::Refusal>
    requires { SoundApp app.now }
    ensures { OnOk result (out.new ≡ fold S.then out.old (spread_on (step_here app.now effect.node) (F.hits facts.now)
        effect.node effect.site effect.path effect.label)) }
{
    match step_at(app, effect.node.by.method, effect.node.pc) {
        None => Ok(()),
        Some(step) => {
            spread(facts, effect, step.next.as_slice(), out)?;
            spread(facts, effect, step.catches.as_slice(), out)
        }
    }
}

/// What follows from the effect.
pub fn affect<F: Facts, S: Sink>(
    app: &App,
    facts: &F,
    effect: Effect,
    out: &mut S,
) -> Result<(), S::Refusal>
    requires { SoundApp app.now }
    ensures { OnOk result (out.new ≡ fold S.then out.old (effect_gives app.now (F.hits facts.now) effect.node
        effect.site effect.path effect.label)) }
{
    out.put(Conclusion {
        rule: numbers::OF_METHOD,
        premises: Premises::of_one(effect.row()),
        row: Row::MethodEffect(effect.node.by, effect.site, effect.path, effect.label),
    })?;
    for_each_hit(facts, &Key::BacksOf(effect.site), &Holders(effect), out)?;
    spread_behind(app, facts, effect, out)?;
    for_each_hit(facts, &Key::StaticsTo(effect.site), &Statics(effect), out)?;
    for_each_hit(facts, &Key::HandedOf(effect.site), &Handed(effect), out)
}

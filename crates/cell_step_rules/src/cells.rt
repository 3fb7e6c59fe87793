//! Rules 7 and 14: what follows from the cells of objects.
ghost use Rattle.std.specs.Prelude.{◌≡◌, OnOk, fold};
ghost use Rattle.app_machine.specs.Sound.{SoundApp};
ghost use Rattle.cell_ground.specs.Coming.{stored};
ghost use Rattle.cell_step_rules.specs.CellStepGiven.{back_on, cell_on, getter_gives, gets};
ghost use Rattle.cell_step_rules.specs.CellStepGiven.{holder_gives, holding, holds_on, lifts};

use crate::numbers;
use crate::objects::Holding;
use app_machine::{Act, App, Step};
use app_model::step_at;
use cell_ground::{Content, come_to_all};
use fact_rows::{Row, Site};
use register_readers::RegisterReaders;
use rule_ground::{Conclusion, Facts, Inference, Join, Key, Premises, Sink, for_each_hit};
use vet_base::KeyId;

/// A cell of objects of a site, with what it holds.
#[derive(Clone, Copy)]
pub struct InCell {
    pub site: Site,
    pub key: KeyId,
    pub content: Content,
}

impl InCell {
    fn row(&self) -> Row
        ensures { result ≡ stored self.now.content self.now.site self.now.key }
    {
        self.content.stored(self.site, self.key)
    }
}

/// The step gets what the cell holds, where it gets it from the register.
fn get_held<S: Sink>(
    readers: &RegisterReaders<'_>,
    step: &Step,
    from: Holding,
    held: InCell,
    out: &mut S,
) -> Result<(), S::Refusal>
    ensures { OnOk result (out.new ≡ fold S.then out.old (gets readers.now step.now.act step.now.next from.node
        from.register from.site held.site held.key held.content)) }
{
    match &step.act {
        Act::Get(targets, register, own) => {
            if *register == from.register && own.0 == held.key.0 {
                let inference = Inference {
                    rule: numbers::GET,
                    premises: Premises::of_two(from.row(), held.row()),
                };
                let targets = targets.as_slice();
                let next = step.next.as_slice();
                come_to_all(
                    readers,
                    inference,
                    held.content,
                    from.node,
                    targets,
                    next,
                    out,
                )
            } else {
                Ok(())
            }
        }
        _ => Ok(()),
    }
}

/// Who gets from the object gets what the cell holds.
#[derive(Drop)]
struct Getter<'a> {
    app: &'a App,
    readers: &'a RegisterReaders<'a>,
    held: InCell,
}

impl<'a> Join for Getter<'a> {
    ghost ready = { λ j. SoundApp j.app.now };

    ghost gives = { λ j row. getter_gives j.app.now j.readers.now j.held.site j.held.key j.held.content row };

    fn give<S: Sink>(&self, row: Row, out: &mut S) -> Result<(), S::Refusal> {
        match row {
            Row::Points(node, register, site) => {
                match step_at(self.app, node.by.method, node.pc) {
                    None => Ok(()),
                    Some(step) => {
                        let from = Holding {
                            node,
                            register,
                            site,
                        };
                        get_held(self.readers, step, from, self.held, out)
                    }
                }
            }
            _ => Ok(()),
        }
    }
}

/// What follows where an object holds what the cell has, but that it holds a label.
pub fn from_cell<F: Facts, S: Sink>(
    app: &App,
    readers: &RegisterReaders<'_>,
    facts: &F,
    held: InCell,
    out: &mut S,
) -> Result<(), S::Refusal>
    requires { SoundApp app.now }
    ensures { OnOk result (out.new ≡ fold S.then out.old (cell_on app.now readers.now (F.hits facts.now) held.site
        held.key held.content)) }
{
    for_each_hit(
        facts,
        &Key::PointsTo(held.site),
        &Getter { app, readers, held },
        out,
    )
}

/// A label in a cell is reached from the object.
pub fn hold<S: Sink>(site: Site, key: KeyId, label: u8, out: &mut S) -> Result<(), S::Refusal>
    ensures { OnOk result (out.new ≡ S.then out.old (holding site key label)) }
{
    out.put(Conclusion {
        rule: numbers::HOLDS,
        premises: Premises::of_one(Row::CellLabel(site, key, label)),
        row: Row::Holds(site, label),
    })
}

/// What is reached from an object is reached from what holds it.
#[derive(Drop)]
struct Lifted {
    site: Site,
    label: u8,
}

impl Join for Lifted {
    ghost ready = { λ j. Unit {0} };

    ghost gives = { λ j row. lifts j.site j.label row };

    fn give<S: Sink>(&self, row: Row, out: &mut S) -> Result<(), S::Refusal> {
        match row {
            Row::Back(_, _, holder) => out.put(Conclusion {
                rule: numbers::HOLDS,
                premises: Premises::of_two(Row::Holds(self.site, self.label), row),
                row: Row::Holds(holder, self.label),
            }),
            _ => Ok(()),
        }
    }
}

/// What follows where a label is reached from an object.
pub fn from_held<F: Facts, S: Sink>(
    facts: &F,
    site: Site,
    label: u8,
    out: &mut S,
) -> Result<(), S::Refusal>
    ensures { OnOk result (out.new ≡ fold S.then out.old (holds_on (F.hits facts.now) site label)) }
{
    let with = Lifted { site, label };
    for_each_hit(facts, &Key::BacksOf(site), &with, out)
}

/// The holder reaches what the held object does.
#[derive(Drop)]
struct Holder {
    held: Site,
    key: KeyId,
    holder: Site,
}

impl Join for Holder {
    ghost ready = { λ j. Unit {0} };

    ghost gives = { λ j row. holder_gives j.held j.key j.holder row };

    fn give<S: Sink>(&self, row: Row, out: &mut S) -> Result<(), S::Refusal> {
        match row {
            Row::Holds(_, label) => out.put(Conclusion {
                rule: numbers::HOLDS,
                premises: Premises::of_two(row, Row::Back(self.held, self.key, self.holder)),
                row: Row::Holds(self.holder, label),
            }),
            _ => Ok(()),
        }
    }
}

/// What follows where an object is held by another.
pub fn from_back<F: Facts, S: Sink>(
    facts: &F,
    held: Site,
    key: KeyId,
    holder: Site,
    out: &mut S,
) -> Result<(), S::Refusal>
    ensures { OnOk result (out.new ≡ fold S.then out.old (back_on (F.hits facts.now) held key holder)) }
{
    let with = Holder { held, key, holder };
    for_each_hit(facts, &Key::HoldsOf(held), &with, out)
}

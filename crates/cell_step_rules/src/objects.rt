//! Rules 3, 6 to 8 and 11: what follows from the objects of a register.
ghost use Rattle.std.specs.Prelude.{◌≡◌, OnOk, fold};
ghost use Rattle.app_machine.specs.Sound.{SoundApp};
ghost use Rattle.cell_step_rules.specs.CellStepGiven.{got_content, got_gives, object_gives, points_on};
ghost use Rattle.cell_step_rules.specs.CellStepGiven.{put_on_gives};
ghost use Rattle.cell_ground.specs.Steps.{step_here};

use crate::contents::pass;
use crate::numbers;
use app_machine::{Act, App, Step};
use app_model::step_at;
use cell_ground::{Content, come_to_all, made_at};
use fact_rows::{Node, Row, Site};
use register_readers::RegisterReaders;
use rule_ground::{
    Conclusion, ELEMENT, Facts, Inference, Join, Key, Premises, Sink, for_each_hit, is_among,
};
use vet_base::KeyId;

/// A register that may hold an object of a site at a node.
#[derive(Clone, Copy)]
pub struct Holding {
    pub node: Node,
    pub register: u32,
    pub site: Site,
}

impl Holding {
    pub fn row(&self) -> Row
        ensures { result ≡ Row.Points self.now.node self.now.register self.now.site }
    {
        Row::Points(self.node, self.register, self.site)
    }
}

/// What the object holds under the key, and the labels there, come to the targets.
#[derive(Drop)]
struct Got<'a> {
    readers: &'a RegisterReaders<'a>,
    targets: &'a [u32],
    next: &'a [u32],
    from: Holding,
}

impl<'a> Got<'a> {
    fn come<S: Sink>(&self, row: Row, content: Content, out: &mut S) -> Result<(), S::Refusal>
        ensures { OnOk result (out.new ≡ fold S.then out.old (got_content self.now.readers.now self.now.targets.now
            self.now.next.now self.now.from.node self.now.from.register self.now.from.site row content)) }
    {
        let inference = Inference {
            rule: numbers::GET,
            premises: Premises::of_two(self.from.row(), row),
        };
        come_to_all(
            self.readers,
            inference,
            content,
            self.from.node,
            self.targets,
            self.next,
            out,
        )
    }
}

impl<'a> Join for Got<'a> {
    ghost ready = { λ j. Unit {0} };

    ghost gives = { λ j row. got_gives j.readers.now j.targets.now j.next.now j.from.node j.from.register j.from.site
        row };

    fn give<S: Sink>(&self, row: Row, out: &mut S) -> Result<(), S::Refusal> {
        match row {
            Row::Cell(_, _, held) => self.come(row, Content::Object(held), out),
            Row::CellLabel(_, _, label) => self.come(row, Content::Label(label), out),
            _ => Ok(()),
        }
    }
}

/// The cell of the object has the labels of what is put.
#[derive(Drop)]
struct OnObject {
    key: KeyId,
    into: Holding,
}

impl Join for OnObject {
    ghost ready = { λ j. Unit {0} };

    ghost gives = { λ j row. put_on_gives j.into.node j.key j.into.register j.into.site row };

    fn give<S: Sink>(&self, row: Row, out: &mut S) -> Result<(), S::Refusal> {
        match row {
            Row::Label(_, _, label) => out.put(Conclusion {
                rule: numbers::PUT,
                premises: Premises::of_two(self.into.row(), row),
                row: Row::CellLabel(self.into.site, self.key, label),
            }),
            _ => Ok(()),
        }
    }
}

/// What an object gives that a label does not give so.
fn object_alone<F: Facts, S: Sink>(
    app: &App,
    readers: &RegisterReaders<'_>,
    facts: &F,
    step: &Step,
    held: Holding,
    out: &mut S,
) -> Result<(), S::Refusal>
    requires { SoundApp app.now }
    ensures { OnOk result (out.new ≡ fold S.then out.old (object_gives app.now readers.now (F.hits facts.now)
        step.now.act step.now.next held.node held.register held.site)) }
{
    match &step.act {
        Act::Fill(elements, _) => {
            if is_among(elements.as_slice(), held.register) {
                out.put(Conclusion {
                    rule: numbers::FILL,
                    premises: Premises::of_one(held.row()),
                    row: Row::Cell(made_at(app, held.node), ELEMENT, held.site),
                })
            } else {
                Ok(())
            }
        }
        Act::Get(targets, from, key) if *from == held.register => {
            let with = Got {
                readers,
                targets: targets.as_slice(),
                next: step.next.as_slice(),
                from: held,
            };
            for_each_hit(facts, &Key::CellsOf(held.site, *key), &with, out)?;
            for_each_hit(facts, &Key::CellLabelsOf(held.site, *key), &with, out)
        }
        Act::Put(into, key, from) if *into == held.register => {
            let with = OnObject {
                key: *key,
                into: held,
            };
            for_each_hit(facts, &Key::LabelsAt(held.node, *from), &with, out)
        }
        _ => Ok(()),
    }
}

/// What follows where a register may hold an object of the site; all of it is led by that row.
pub fn from_object<F: Facts, S: Sink>(
    app: &App,
    readers: &RegisterReaders<'_>,
    facts: &F,
    held: Holding,
    out: &mut S,
) -> Result<(), S::Refusal>
    requires { SoundApp app.now }
    ensures { OnOk result (out.new ≡ fold S.then out.old (points_on app.now readers.now (step_here app.now held.node)
        (F.hits facts.now) held.node held.register held.site)) }
{
    match step_at(app, held.node.by.method, held.node.pc) {
        None => Ok(()),
        Some(step) => {
            let object = Content::Object(held.site);
            pass(readers, step, held.node, held.register, object, out)?;
            object_alone(app, readers, facts, step, held, out)
        }
    }
}

//! Rule 9: what a static holds comes to those that read it.
ghost use Rattle.std.specs.Prelude.{◌≡◌, OnOk, flat_map, fold};
ghost use Rattle.app_machine.specs.Sound.{SoundApp};
ghost use Rattle.cell_step_rules.specs.CellStepGiven.{reader_gives, reader_takes, reads, sourced, static_gives};
ghost use Rattle.cell_step_rules.specs.CellStepGiven.{static_on, statics_read};

use crate::numbers;
use app_index::{LibraryIndex, Reader, StaticReaders};
use app_machine::{Act, App, Step};
use app_model::step_at;
use cell_ground::{Content, come_to_all};
use fact_rows::{Node, Row};
use register_readers::RegisterReaders;
use rule_ground::{Facts, Inference, Join, Key, Premises, Sink, for_each_hit};

/// A static with what it may hold.
#[derive(Clone, Copy)]
pub struct InStatic {
    pub number: u32,
    pub content: Content,
}

/// What the static holds comes to the targets of a read of it.
fn read<S: Sink>(
    readers: &RegisterReaders<'_>,
    step: &Step,
    node: Node,
    held: InStatic,
    out: &mut S,
) -> Result<(), S::Refusal>
    ensures { OnOk result (out.new ≡ fold S.then out.old (reads readers.now step.now.act step.now.next node held.number
        held.content)) }
{
    match &step.act {
        Act::GetStatic(targets, own) if *own == held.number => {
            let inference = Inference {
                rule: numbers::GET_STATIC,
                premises: Premises::of_two(
                    Row::Reached(node),
                    held.content.held_static(held.number),
                ),
            };
            let next = step.next.as_slice();
            come_to_all(
                readers,
                inference,
                held.content,
                node,
                targets.as_slice(),
                next,
                out,
            )
        }
        _ => Ok(()),
    }
}

/// Who reads the static gets what it holds.
#[derive(Drop)]
struct OfStatic<'a> {
    app: &'a App,
    readers: &'a RegisterReaders<'a>,
    held: InStatic,
}

impl<'a> Join for OfStatic<'a> {
    ghost ready = { λ j. SoundApp j.app.now };

    ghost gives = { λ j row. reader_gives j.app.now j.readers.now j.held.number j.held.content row };

    fn give<S: Sink>(&self, row: Row, out: &mut S) -> Result<(), S::Refusal> {
        match row {
            Row::Reached(node) => match step_at(self.app, node.by.method, node.pc) {
                None => Ok(()),
                Some(step) => read(self.readers, step, node, self.held, out),
            },
            _ => Ok(()),
        }
    }
}

/// Whatever the static holds comes to who reads it.
#[derive(Drop)]
struct ToReader<'a> {
    readers: &'a RegisterReaders<'a>,
    step: &'a Step,
    node: Node,
}

impl<'a> Join for ToReader<'a> {
    ghost ready = { λ j. Unit {0} };

    ghost gives = { λ j row. static_gives j.readers.now j.step.now.act j.step.now.next j.node row };

    fn give<S: Sink>(&self, row: Row, out: &mut S) -> Result<(), S::Refusal> {
        match row {
            Row::StaticPoints(number, site) => {
                let content = Content::Object(site);
                let held = InStatic { number, content };
                read(self.readers, self.step, self.node, held, out)
            }
            Row::StaticLabel(number, label) => {
                let content = Content::Label(label);
                let held = InStatic { number, content };
                read(self.readers, self.step, self.node, held, out)
            }
            _ => Ok(()),
        }
    }
}

/// The step reads what a static holds.
pub fn read_statics<F: Facts, S: Sink>(
    readers: &RegisterReaders<'_>,
    facts: &F,
    step: &Step,
    node: Node,
    out: &mut S,
) -> Result<(), S::Refusal>
    ensures { OnOk result (out.new ≡ fold S.then out.old (statics_read readers.now (F.hits facts.now) step.now.act
        step.now.next node)) }
{
    match &step.act {
        Act::GetStatic(_, number) => {
            let with = ToReader {
                readers,
                step,
                node,
            };
            for_each_hit(facts, &Key::StaticPointsOf(*number), &with, out)?;
            for_each_hit(facts, &Key::StaticLabelsOf(*number), &with, out)
        }
        _ => Ok(()),
    }
}

/// The label that the lists give the static comes to the targets of a read of it.
pub fn label_static<S: Sink>(
    app: &App,
    readers: &RegisterReaders<'_>,
    lists: &LibraryIndex<'_>,
    step: &Step,
    node: Node,
    out: &mut S,
) -> Result<(), S::Refusal>
    ensures { OnOk result (out.new ≡ fold S.then out.old (sourced app.now readers.now lists.now step.now.act
        step.now.next node)) }
{
    match &step.act {
        Act::GetStatic(targets, number) => match lists.source(app, *number) {
            None => Ok(()),
            Some(label) => {
                let inference = Inference {
                    rule: numbers::GET_STATIC,
                    premises: Premises::of_one(Row::Reached(node)),
                };
                let content = Content::Label(label);
                let next = step.next.as_slice();
                come_to_all(
                    readers,
                    inference,
                    content,
                    node,
                    targets.as_slice(),
                    next,
                    out,
                )
            }
        },
        _ => Ok(()),
    }
}

/// Each of the steps that read the static is asked for the nodes to which control comes there.
fn to_readers<F: Facts, S: Sink>(
    facts: &F,
    with: &OfStatic<'_>,
    steps: &[Reader],
    out: &mut S,
) -> Result<(), S::Refusal>
    requires { SoundApp with.now.app.now }
    ensures { OnOk result
        (out.new ≡ fold S.then out.old
        (flat_map (reader_takes with.now.app.now with.now.readers.now (F.hits facts.now) with.now.held.number
        with.now.held.content) steps.now)) }
{
    for step in steps {
        let key = Key::ReachedAt(step.method, step.pc);
        for_each_hit(facts, &key, with, out)?;
    }
    Ok(())
}

/// What follows where the static holds the content.
pub fn of_static<F: Facts, S: Sink>(
    app: &StaticReaders<'_>,
    readers: &RegisterReaders<'_>,
    facts: &F,
    held: InStatic,
    out: &mut S,
) -> Result<(), S::Refusal>
    requires { SoundApp app.now }
    ensures { OnOk result (out.new ≡ fold S.then out.old (static_on app.now readers.now (F.hits facts.now) held.number
        held.content)) }
{
    let with = OfStatic {
        app: app.app(),
        readers,
        held,
    };
    to_readers(facts, &with, app.readers(held.number), out)
}

//! Rule 9: what a static holds goes to those that read it.
ghost use Rattle.std.specs.Prelude.{◌≡◌, OnOk, fold, flat_map};
ghost use Rattle.app_machine.specs.Sound.{SoundApp};
ghost use Rattle.step_rules.specs.StepGiven.{reads, reader_gives, reader_takes, sourced};
ghost use Rattle.step_rules.specs.StepGiven.{static_on, static_gives, statics_read};

use crate::numbers;
use access_path::Path;
use app_index::{LibraryIndex, Reader, StaticReaders};
use app_machine::{Act, App, Step};
use app_model::step_at;
use fact_rows::{Node, Row};
use rule_ground::{Content, Facts, Inference, Join, Key, Premises, Sink, for_each_hit, put_all};

/// The targets of a read of the static hold its content.
fn read<S: Sink>(
    act: &Act,
    next: &[u32],
    node: Node,
    number: u32,
    content: Content,
    out: &mut S,
) -> Result<(), S::Refusal>
    ensures { OnOk result (out.new ≡ fold S.then out.old (reads act.now next.now node number content)) }
{
    match act {
        Act::GetStatic(targets, own) => {
            if *own == number {
                let inference = Inference {
                    rule: numbers::GET_STATIC,
                    premises: Premises::of_two(Row::Reached(node), content.held_static(number)),
                };
                put_all(inference, content, node, targets.as_slice(), next, out)
            } else {
                Ok(())
            }
        }
        _ => Ok(()),
    }
}

/// Who reads the static gets what it holds.
#[derive(Drop)]
struct OfStatic<'a> {
    app: &'a App,
    number: u32,
    content: Content,
}

impl<'a> Join for OfStatic<'a> {
    ghost ready = { λ j. SoundApp j.app.now };

    ghost gives = { λ j row. reader_gives j.app.now j.number j.content row };

    fn give<S: Sink>(&self, row: Row, out: &mut S) -> Result<(), S::Refusal> {
        match row {
            Row::Reached(node) => match step_at(self.app, node.by.method, node.pc) {
                None => Ok(()),
                Some(step) => read(
                    &step.act,
                    step.next.as_slice(),
                    node,
                    self.number,
                    self.content,
                    out,
                ),
            },
            _ => Ok(()),
        }
    }
}

/// Whatever the static holds goes to who reads it.
#[derive(Drop)]
struct ToReader<'a> {
    step: &'a Step,
    node: Node,
}

impl<'a> Join for ToReader<'a> {
    ghost ready = { λ j. Unit {0} };

    ghost gives = { λ j row. static_gives j.step.now.act j.step.now.next j.node row };

    fn give<S: Sink>(&self, row: Row, out: &mut S) -> Result<(), S::Refusal> {
        match row {
            Row::StaticPoints(number, site) => {
                read(
                    &self.step.act,
                    self.step.next.as_slice(),
                    self.node,
                    number,
                    Content::Object(site),
                    out,
                )
            }
            Row::StaticTaint(number, path, label) => {
                read(
                    &self.step.act,
                    self.step.next.as_slice(),
                    self.node,
                    number,
                    Content::Label(path, label),
                    out,
                )
            }
            _ => Ok(()),
        }
    }
}

/// The step reads what a static holds.
pub fn read_statics<F: Facts, S: Sink>(
    facts: &F,
    step: &Step,
    node: Node,
    out: &mut S,
) -> Result<(), S::Refusal>
    ensures { OnOk result (out.new ≡ fold S.then out.old (statics_read (F.hits facts.now) step.now.act step.now.next
        node)) }
{
    match &step.act {
        Act::GetStatic(_, number) => {
            let with = ToReader { step, node };
            for_each_hit(facts, &Key::StaticPointsOf(*number), &with, out)?;
            for_each_hit(facts, &Key::StaticTaintsOf(*number), &with, out)
        }
        _ => Ok(()),
    }
}

/// The targets of a read of the static have the label that the lists give it.
pub fn label_static<S: Sink>(
    app: &App,
    lists: &LibraryIndex<'_>,
    step: &Step,
    node: Node,
    out: &mut S,
) -> Result<(), S::Refusal>
    ensures { OnOk result (out.new ≡ fold S.then out.old (sourced app.now lists.now step.now.act step.now.next node)) }
{
    match &step.act {
        Act::GetStatic(targets, number) => match lists.source(app, *number) {
            None => Ok(()),
            Some(label) => {
                let inference = Inference {
                    rule: numbers::GET_STATIC,
                    premises: Premises::of_one(Row::Reached(node)),
                };
                let bare = Content::Label(Path::empty(), label);
                put_all(
                    inference,
                    bare,
                    node,
                    targets.as_slice(),
                    step.next.as_slice(),
                    out,
                )
            }
        },
        _ => Ok(()),
    }
}

/// Each of the steps that read the static is asked for the nodes to which control comes there.
fn to_readers<F: Facts, S: Sink>(
    facts: &F,
    with: &OfStatic<'_>,
    readers: &[Reader],
    out: &mut S,
) -> Result<(), S::Refusal>
    requires { SoundApp with.now.app.now }
    ensures { OnOk result
        (out.new ≡ fold S.then out.old
        (flat_map (reader_takes with.now.app.now (F.hits facts.now) with.now.number with.now.content) readers.now)) }
{
    for reader in readers {
        let key = Key::ReachedAt(reader.method, reader.pc);
        for_each_hit(facts, &key, with, out)?;
    }
    Ok(())
}

/// What follows where the static holds the content.
pub fn of_static<F: Facts, S: Sink>(
    app: &StaticReaders<'_>,
    facts: &F,
    number: u32,
    content: Content,
    out: &mut S,
) -> Result<(), S::Refusal>
    requires { SoundApp app.now }
    ensures { OnOk result (out.new ≡ fold S.then out.old (static_on app.now (F.hits facts.now) number content)) }
{
    let with = OfStatic {
        app: app.app(),
        number,
        content,
    };
    to_readers(facts, &with, app.readers(number), out)
}

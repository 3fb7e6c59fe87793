//! Rules 4 to 6, 8 and 10 to 12: what follows from the label of a register.
ghost use Rattle.std.specs.Prelude.{◌≡◌, OnOk, fold};
ghost use Rattle.app_machine.specs.Sound.{SoundApp};
ghost use Rattle.cell_step_rules.specs.CellStepGiven.{label_comes, label_gives, label_leaves, label_leads, label_on};
ghost use Rattle.cell_step_rules.specs.CellStepGiven.{put_gives, puts};
ghost use Rattle.cell_ground.specs.Steps.{step_here};

use crate::contents::pass;
use crate::numbers;
use app_machine::{Act, App, Step};
use app_model::step_at;
use cell_ground::{Content, come_to, come_to_all, made_at};
use fact_rows::{Node, Row};
use register_readers::RegisterReaders;
use rule_ground::{
    Conclusion, ELEMENT, Facts, Inference, Join, Key, Premises, RETURNING, Sink, THROWING,
    for_each_hit, is_among,
};
use vet_base::KeyId;

/// A register whose value may have a label at a node.
#[derive(Clone, Copy)]
pub struct Labelled {
    pub node: Node,
    pub register: u32,
    pub label: u8,
}

impl Labelled {
    fn row(&self) -> Row
        ensures { result ≡ Row.Label self.now.node self.now.register self.now.label }
    {
        Row::Label(self.node, self.register, self.label)
    }

    fn concludes<S: Sink>(&self, rule: u8, row: Row, out: &mut S) -> Result<(), S::Refusal>
        ensures { OnOk result (out.new ≡ S.then out.old (label_gives self.now.node self.now.register self.now.label
            rule row)) }
    {
        out.put(Conclusion {
            rule,
            premises: Premises::of_one(self.row()),
            row,
        })
    }
}

/// The label comes to what is joined, and to a new array whose size the register is.
fn label_comes<S: Sink>(
    readers: &RegisterReaders<'_>,
    step: &Step,
    held: Labelled,
    out: &mut S,
) -> Result<(), S::Refusal>
    ensures { OnOk result (out.new ≡ fold S.then out.old (label_comes readers.now step.now.act step.now.next held.node
        held.register held.label)) }
{
    let premises = Premises::of_one(held.row());
    let label = Content::Label(held.label);
    let next = step.next.as_slice();
    match &step.act {
        Act::Join(targets, sources) => {
            if is_among(sources.as_slice(), held.register) {
                let rule = numbers::JOIN;
                let joined = Inference { rule, premises };
                let targets = targets.as_slice();
                come_to_all(readers, joined, label, held.node, targets, next, out)
            } else {
                Ok(())
            }
        }
        Act::New(target, _, Some(size)) if *size == held.register => {
            let rule = numbers::MAKE;
            let made = Inference { rule, premises };
            come_to(readers, made, label, held.node, *target, next, out)
        }
        _ => Ok(()),
    }
}

/// The label goes into a filled array, into a static or out of the activation.
fn label_leaves<S: Sink>(
    app: &App,
    act: &Act,
    held: Labelled,
    out: &mut S,
) -> Result<(), S::Refusal>
    requires { SoundApp app.now }
    ensures { OnOk result (out.new ≡ fold S.then out.old (label_leaves app.now act.now held.node held.register
        held.label)) }
{
    match act {
        Act::Fill(elements, _) => {
            if is_among(elements.as_slice(), held.register) {
                let row = Row::CellLabel(made_at(app, held.node), ELEMENT, held.label);
                held.concludes(numbers::FILL, row, out)
            } else {
                Ok(())
            }
        }
        Act::PutStatic(field, from) if *from == held.register => {
            let row = Row::StaticLabel(*field, held.label);
            held.concludes(numbers::PUT_STATIC, row, out)
        }
        Act::Throw(from) if *from == held.register => {
            let row = Row::ExitLabel(held.node.by, THROWING, held.label);
            held.concludes(numbers::THROW, row, out)
        }
        Act::Return(Some(from)) if *from == held.register => {
            let row = Row::ExitLabel(held.node.by, RETURNING, held.label);
            held.concludes(numbers::RETURN, row, out)
        }
        _ => Ok(()),
    }
}

/// Each object of the put's register is one whose cell has the label.
#[derive(Drop)]
struct IntoObject {
    key: KeyId,
    held: Labelled,
}

impl Join for IntoObject {
    ghost ready = { λ j. Unit {0} };

    ghost gives = { λ j row. put_gives j.held.node j.key j.held.register j.held.label row };

    fn give<S: Sink>(&self, row: Row, out: &mut S) -> Result<(), S::Refusal> {
        match row {
            Row::Points(_, _, site) => out.put(Conclusion {
                rule: numbers::PUT,
                premises: Premises::of_two(row, self.held.row()),
                row: Row::CellLabel(site, self.key, self.held.label),
            }),
            _ => Ok(()),
        }
    }
}

/// The label goes into the objects of a put.
fn put<F: Facts, S: Sink>(
    facts: &F,
    act: &Act,
    held: Labelled,
    out: &mut S,
) -> Result<(), S::Refusal>
    ensures { OnOk result (out.new ≡ fold S.then out.old (puts (F.hits facts.now) act.now held.node held.register
        held.label)) }
{
    match act {
        Act::Put(object, key, from) if *from == held.register => {
            let with = IntoObject { key: *key, held };
            for_each_hit(facts, &Key::PointsAt(held.node, *object), &with, out)
        }
        _ => Ok(()),
    }
}

/// What a register leads whose value may have a label: what follows from it alone.
pub fn lead_label<S: Sink>(
    app: &App,
    readers: &RegisterReaders<'_>,
    held: Labelled,
    out: &mut S,
) -> Result<(), S::Refusal>
    requires { SoundApp app.now }
    ensures { OnOk result (out.new ≡ fold S.then out.old (label_leads app.now readers.now (step_here app.now held.node)
        held.node held.register held.label)) }
{
    match step_at(app, held.node.by.method, held.node.pc) {
        None => Ok(()),
        Some(step) => {
            let content = Content::Label(held.label);
            pass(readers, step, held.node, held.register, content, out)?;
            label_comes(readers, step, held, out)?;
            label_leaves(app, &step.act, held, out)
        }
    }
}

/// What follows where a register's value may have a label.
pub fn from_label<F: Facts, S: Sink>(
    app: &App,
    readers: &RegisterReaders<'_>,
    facts: &F,
    held: Labelled,
    out: &mut S,
) -> Result<(), S::Refusal>
    requires { SoundApp app.now }
    ensures { OnOk result (out.new ≡ fold S.then out.old (label_on app.now readers.now (step_here app.now held.node)
        (F.hits facts.now) held.node held.register held.label)) }
{
    match step_at(app, held.node.by.method, held.node.pc) {
        None => Ok(()),
        Some(step) => {
            let content = Content::Label(held.label);
            pass(readers, step, held.node, held.register, content, out)?;
            label_comes(readers, step, held, out)?;
            label_leaves(app, &step.act, held, out)?;
            put(facts, &step.act, held, out)
        }
    }
}

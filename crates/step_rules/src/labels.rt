//! Rules 4 to 7: what follows from the labels of a register.
ghost use Rattle.std.specs.Prelude.{◌≡◌, OnOk, fold};
ghost use Rattle.app_machine.specs.Sound.{SoundApp};
ghost use Rattle.step_rules.specs.StepGiven.{is_bare, rest_gives, size_gives, label_gives, taint_leads, taint_on};
ghost use Rattle.step_rules.specs.StepGiven.{step_here};

use crate::contents::{content, put};
use crate::numbers;
use access_path::{Path, cut, rest};
use app_machine::{Act, App, Step};
use app_model::step_at;
use app_parts::RESULT;
use fact_rows::{Node, Row};
use rule_ground::{Content, Facts, Inference, Premises, Sink, is_among, put_all, put_each};
use vet_base::KeyId;

/// A register that may lead to a label at a node, by a path.
#[derive(Clone, Copy)]
pub struct Labelled {
    pub node: Node,
    pub register: u32,
    pub path: Path,
    pub label: u8,
}

impl Labelled {
    fn row(&self) -> Row
        ensures { result ≡ Row.Taint self.now.node self.now.register self.now.path self.now.label }
    {
        Row::Taint(self.node, self.register, self.path, self.label)
    }
}

fn is_bare_path(path: Path) -> bool
    ensures { result ≡ is_bare path }
{
    path.len() == 0
}

/// What is left of the path behind the key goes to the targets.
fn get_rest<S: Sink>(
    left: Option<Path>,
    targets: &[u32],
    next: &[u32],
    from: Labelled,
    out: &mut S,
) -> Result<(), S::Refusal>
    ensures { OnOk result (out.new ≡ fold S.then out.old (rest_gives left targets.now next.now from.node from.register
        from.path from.label)) }
{
    match left {
        None => Ok(()),
        Some(shorter) => {
            let inference = Inference {
                rule: numbers::GET,
                premises: Premises::of_one(from.row()),
            };
            let content = Content::Label(shorter, from.label);
            put_all(inference, content, from.node, targets, next, out)
        }
    }
}

/// The reference to a new array has the own label of the size.
fn label_size<S: Sink>(
    size: u32,
    target: u32,
    next: &[u32],
    held: Labelled,
    out: &mut S,
) -> Result<(), S::Refusal>
    ensures { OnOk result (out.new ≡ fold S.then out.old (size_gives size target next.now held.node held.register
        held.path held.label)) }
{
    if size == held.register && is_bare_path(held.path) {
        let inference = Inference {
            rule: numbers::MAKE,
            premises: Premises::of_one(held.row()),
        };
        let bare = Content::Label(Path::empty(), held.label);
        put_each(inference, bare, held.node, target, next, out)
    } else {
        Ok(())
    }
}

/// What a label gives that an object does not give so.
fn label_alone<S: Sink>(step: &Step, held: Labelled, out: &mut S) -> Result<(), S::Refusal>
    ensures { OnOk result (out.new ≡ fold S.then out.old (label_gives step.now.act step.now.next held.node held.register
        held.path held.label)) }
{
    let premises = Premises::of_one(held.row());
    let next = step.next.as_slice();
    match &step.act {
        Act::Join(targets, sources) => {
            if is_among(sources.as_slice(), held.register) && is_bare_path(held.path) {
                let joined = Inference {
                    rule: numbers::JOIN,
                    premises,
                };
                let bare = Content::Label(Path::empty(), held.label);
                put_all(joined, bare, held.node, targets.as_slice(), next, out)
            } else {
                Ok(())
            }
        }
        Act::New(target, _, Some(size)) => label_size(*size, *target, next, held, out),
        Act::Fill(elements, _) => {
            if is_among(elements.as_slice(), held.register) {
                let filled = Inference {
                    rule: numbers::FILL,
                    premises,
                };
                let inner = Content::Label(cut(KeyId(0), &held.path), held.label);
                put_each(filled, inner, held.node, RESULT, next, out)
            } else {
                Ok(())
            }
        }
        Act::Get(targets, from, key) => {
            if *from == held.register {
                get_rest(rest(&held.path, *key), targets.as_slice(), next, held, out)
            } else {
                Ok(())
            }
        }
        _ => Ok(()),
    }
}

/// What a register leads that may lead to a label: what follows from it alone.
pub fn lead_label<S: Sink>(app: &App, held: Labelled, out: &mut S) -> Result<(), S::Refusal>
    requires { SoundApp app.now }
    ensures { OnOk result (out.new ≡ fold S.then out.old (taint_leads (step_here app.now held.node) held.node
        held.register held.path held.label)) }
{
    match step_at(app, held.node.by.method, held.node.pc) {
        None => Ok(()),
        Some(step) => {
            let label = Content::Label(held.path, held.label);
            content(step, held.node, held.register, label, out)?;
            label_alone(step, held, out)
        }
    }
}

/// What follows where a register may lead to a label.
pub fn from_label<F: Facts, S: Sink>(
    app: &App,
    facts: &F,
    held: Labelled,
    out: &mut S,
) -> Result<(), S::Refusal>
    requires { SoundApp app.now }
    ensures { OnOk result (out.new ≡ fold S.then out.old (taint_on (step_here app.now held.node) (F.hits facts.now)
        held.node held.register held.path held.label)) }
{
    match step_at(app, held.node.by.method, held.node.pc) {
        None => Ok(()),
        Some(step) => {
            let label = Content::Label(held.path, held.label);
            content(step, held.node, held.register, label, out)?;
            label_alone(step, held, out)?;
            put(facts, &step.act, held.node, held.register, label, out)
        }
    }
}

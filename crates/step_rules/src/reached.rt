//! Rules 1 and 5: what follows where control comes.
ghost use Rattle.std.specs.Prelude.{◌≡◌, OnOk, fold};
ghost use Rattle.app_machine.specs.Sound.{SoundApp};
ghost use Rattle.step_rules.specs.StepGiven.{goes_on, made, reached_on, step_here};

use crate::numbers;
use crate::statics::{label_static, read_statics};
use app_index::LibraryIndex;
use app_machine::{Act, App};
use app_model::step_at;
use app_parts::RESULT;
use fact_rows::{Node, Row, Site};
use rule_ground::{Conclusion, Content, Facts, Inference, Premises, Sink, at_pc, put_each};

/// Control goes on to each of the pcs.
fn go_on<S: Sink>(pcs: &[u32], node: Node, out: &mut S) -> Result<(), S::Refusal>
    ensures { OnOk result (out.new ≡ fold S.then out.old (goes_on pcs.now node)) }
{
    for pc in pcs {
        out.put(Conclusion {
            rule: numbers::GO_ON,
            premises: Premises::of_one(Row::Reached(node)),
            row: Row::Reached(at_pc(node, *pc)),
        })?;
    }
    Ok(())
}

/// What the act makes is held.
fn make<S: Sink>(act: &Act, next: &[u32], node: Node, out: &mut S) -> Result<(), S::Refusal>
    ensures { OnOk result (out.new ≡ fold S.then out.old (made act.now next.now node)) }
{
    let made = Content::Object(Site::At(node));
    let inference = Inference {
        rule: numbers::MAKE,
        premises: Premises::of_one(Row::Reached(node)),
    };
    match act {
        Act::New(target, _, _) => put_each(inference, made, node, *target, next, out),
        Act::Fill(_, _) => put_each(inference, made, node, RESULT, next, out),
        _ => Ok(()),
    }
}

/// What follows where control comes to the node.
pub fn reached<F: Facts, S: Sink>(
    app: &App,
    lists: &LibraryIndex<'_>,
    facts: &F,
    node: Node,
    out: &mut S,
) -> Result<(), S::Refusal>
    requires { SoundApp app.now }
    ensures { OnOk result (out.new ≡ fold S.then out.old
        (reached_on app.now lists.now (step_here app.now node) (F.hits facts.now) node)) }
{
    match step_at(app, node.by.method, node.pc) {
        None => Ok(()),
        Some(step) => {
            go_on(step.next.as_slice(), node, out)?;
            go_on(step.catches.as_slice(), node, out)?;
            make(&step.act, step.next.as_slice(), node, out)?;
            read_statics(facts, step, node, out)?;
            label_static(app, lists, step, node, out)
        }
    }
}

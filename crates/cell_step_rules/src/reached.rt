//! Rules 5 and 9: what follows where control comes.
ghost use Rattle.std.specs.Prelude.{◌≡◌, OnOk, fold};
ghost use Rattle.app_machine.specs.Sound.{SoundApp};
ghost use Rattle.cell_step_rules.specs.CellStepGiven.{made, reached_on};
ghost use Rattle.cell_ground.specs.Steps.{step_here};

use crate::numbers;
use crate::statics::{label_static, read_statics};
use app_index::LibraryIndex;
use app_machine::{Act, App, Step};
use app_model::step_at;
use app_parts::RESULT;
use cell_ground::{Content, come_to, made_at};
use fact_rows::{Node, Row};
use register_readers::RegisterReaders;
use rule_ground::{Facts, Inference, Premises, Sink};

/// What the act makes comes to the register that takes it.
fn make<S: Sink>(
    app: &App,
    readers: &RegisterReaders<'_>,
    step: &Step,
    node: Node,
    out: &mut S,
) -> Result<(), S::Refusal>
    requires { SoundApp app.now }
    ensures { OnOk result (out.new ≡ fold S.then out.old (made app.now readers.now step.now.act step.now.next node)) }
{
    let inference = Inference {
        rule: numbers::MAKE,
        premises: Premises::of_one(Row::Reached(node)),
    };
    let next = step.next.as_slice();
    match &step.act {
        Act::New(target, _, _) => {
            let site = Content::Object(made_at(app, node));
            come_to(readers, inference, site, node, *target, next, out)
        }
        Act::Fill(_, _) => {
            let site = Content::Object(made_at(app, node));
            come_to(readers, inference, site, node, RESULT, next, out)
        }
        _ => Ok(()),
    }
}

/// What follows where control comes to the node.
pub fn reached<F: Facts, S: Sink>(
    app: &App,
    readers: &RegisterReaders<'_>,
    lists: &LibraryIndex<'_>,
    facts: &F,
    node: Node,
    out: &mut S,
) -> Result<(), S::Refusal>
    requires { SoundApp app.now }
    ensures { OnOk result (out.new ≡ fold S.then out.old (reached_on app.now readers.now lists.now
        (step_here app.now node) (F.hits facts.now) node)) }
{
    match step_at(app, node.by.method, node.pc) {
        None => Ok(()),
        Some(step) => {
            make(app, readers, step, node, out)?;
            read_statics(readers, facts, step, node, out)?;
            label_static(app, readers, lists, step, node, out)
        }
    }
}

//! Rules 3, 8 and 10 to 12: what follows from a register, whatever it holds.
ghost use Rattle.std.specs.Prelude.{◌≡◌, OnOk, fold};
ghost use Rattle.cell_step_rules.specs.CellStepGiven.{passes};

use crate::numbers;
use app_machine::{Act, Step};
use app_parts::RESULT;
use cell_ground::{Content, come_to, come_to_all};
use fact_rows::Node;
use register_readers::RegisterReaders;
use rule_ground::{EXCEPTION, Inference, Premises, Sink};

/// Where the content of a register goes by the step alone: to other registers where they are read.
pub fn pass<S: Sink>(
    readers: &RegisterReaders<'_>,
    step: &Step,
    node: Node,
    register: u32,
    content: Content,
    out: &mut S,
) -> Result<(), S::Refusal>
    ensures { OnOk result (out.new ≡ fold S.then out.old (passes readers.now step.now.act step.now.next
        step.now.catches node register content)) }
{
    let premises = Premises::of_one(content.held(node, register));
    let moved = Inference {
        rule: numbers::MOVE,
        premises,
    };
    let next = step.next.as_slice();
    match &step.act {
        Act::Move(targets, from) if *from == register => {
            come_to_all(readers, moved, content, node, targets.as_slice(), next, out)
        }
        Act::TakeResult(targets) if register == RESULT => {
            come_to_all(readers, moved, content, node, targets.as_slice(), next, out)
        }
        Act::TakeException(target) if register == EXCEPTION => {
            come_to(readers, moved, content, node, *target, next, out)
        }
        Act::Throw(from) if *from == register => {
            let thrown = Inference {
                rule: numbers::THROW,
                premises,
            };
            let catches = step.catches.as_slice();
            come_to(readers, thrown, content, node, EXCEPTION, catches, out)
        }
        _ => Ok(()),
    }
}

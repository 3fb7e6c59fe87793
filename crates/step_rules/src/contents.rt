//! Rules 2, 3, 8 and 10 to 12: what follows from a register, whatever it holds.
ghost use Rattle.std.specs.Prelude.{◌≡◌, OnOk, fold};
ghost use Rattle.step_rules.specs.StepGiven.{keeps, passes, thrown, put_gives, puts, content_alone};

use crate::numbers;
use app_machine::{Act, Step};
use app_parts::{RESULT, writes};
use fact_rows::{Node, Row};
use rule_ground::{
    Conclusion, Content, EXCEPTION, Facts, Inference, Join, Key, Premises, RETURNING, Sink,
    THROWING, for_each_hit, put_all, put_each,
};
use vet_base::KeyId;

/// It keeps the content, where the act does not write it, and at each handler.
fn keep<S: Sink>(
    step: &Step,
    node: Node,
    register: u32,
    content: Content,
    out: &mut S,
) -> Result<(), S::Refusal>
    ensures { OnOk result (out.new ≡ fold S.then out.old (keeps step.now node register content)) }
{
    let inference = Inference {
        rule: numbers::KEEP,
        premises: Premises::of_one(content.held(node, register)),
    };
    if !writes(&step.act, register) {
        put_each(
            inference,
            content,
            node,
            register,
            step.next.as_slice(),
            out,
        )?;
    }
    if register != EXCEPTION {
        put_each(
            inference,
            content,
            node,
            register,
            step.catches.as_slice(),
            out,
        )?;
    }
    Ok(())
}

/// The content is thrown: out of the activation, and to each handler.
fn throw<S: Sink>(
    catches: &[u32],
    node: Node,
    register: u32,
    content: Content,
    out: &mut S,
) -> Result<(), S::Refusal>
    ensures { OnOk result (out.new ≡ fold S.then out.old (thrown catches.now node register content)) }
{
    let premises = Premises::of_one(content.held(node, register));
    out.put(Conclusion {
        rule: numbers::THROW,
        premises,
        row: content.leaves(node.by, THROWING),
    })?;
    let inference = Inference {
        rule: numbers::THROW,
        premises,
    };
    put_each(inference, content, node, EXCEPTION, catches, out)
}

/// The content goes to registers, to a static or out of the activation.
fn pass<S: Sink>(
    step: &Step,
    node: Node,
    register: u32,
    content: Content,
    out: &mut S,
) -> Result<(), S::Refusal>
    ensures { OnOk result (out.new ≡ fold S.then out.old (passes step.now.act step.now.next step.now.catches node
        register content)) }
{
    let premises = Premises::of_one(content.held(node, register));
    let moved = Inference {
        rule: numbers::MOVE,
        premises,
    };
    let next = step.next.as_slice();
    match &step.act {
        Act::Move(targets, from) if *from == register => {
            put_all(moved, content, node, targets.as_slice(), next, out)
        }
        Act::TakeResult(targets) if register == RESULT => {
            put_all(moved, content, node, targets.as_slice(), next, out)
        }
        Act::TakeException(target) if register == EXCEPTION => {
            put_each(moved, content, node, *target, next, out)
        }
        Act::PutStatic(field, from) if *from == register => {
            out.put(Conclusion {
                rule: numbers::PUT_STATIC,
                premises,
                row: content.held_static(*field),
            })
        }
        Act::Throw(from) if *from == register => throw(
            step.catches.as_slice(),
            node,
            register,
            content,
            out,
        ),
        Act::Return(Some(from)) if *from == register => {
            out.put(Conclusion {
                rule: numbers::RETURN,
                premises,
                row: content.leaves(node.by, RETURNING),
            })
        }
        _ => Ok(()),
    }
}

/// Each object of the put's register is one that holds the content.
#[derive(Drop)]
struct IntoObject {
    node: Node,
    key: KeyId,
    register: u32,
    content: Content,
}

impl Join for IntoObject {
    ghost ready = { λ j. Unit {0} };

    ghost gives = { λ j row. put_gives j.node j.key j.register j.content row };

    fn give<S: Sink>(&self, row: Row, out: &mut S) -> Result<(), S::Refusal> {
        match row {
            Row::Points(_, _, site) => out.put(Conclusion {
                rule: numbers::PUT,
                premises: Premises::of_two(row, self.content.held(self.node, self.register)),
                row: self.content.stored(self.node, site, self.key),
            }),
            _ => Ok(()),
        }
    }
}

/// The content goes into the objects of a put.
pub fn put<F: Facts, S: Sink>(
    facts: &F,
    act: &Act,
    node: Node,
    register: u32,
    content: Content,
    out: &mut S,
) -> Result<(), S::Refusal>
    ensures { OnOk result (out.new ≡ fold S.then out.old (puts (F.hits facts.now) act.now node register content)) }
{
    match act {
        Act::Put(object, key, from) => {
            if *from == register {
                let with = IntoObject {
                    node,
                    key: *key,
                    register,
                    content,
                };
                for_each_hit(facts, &Key::PointsAt(node, *object), &with, out)
            } else {
                Ok(())
            }
        }
        _ => Ok(()),
    }
}

/// What follows from the register that holds the content alone.
pub fn content<S: Sink>(
    step: &Step,
    node: Node,
    register: u32,
    content: Content,
    out: &mut S,
) -> Result<(), S::Refusal>
    ensures { OnOk result (out.new ≡ fold S.then out.old (content_alone step.now node register content)) }
{
    keep(step, node, register, content, out)?;
    pass(step, node, register, content, out)
}

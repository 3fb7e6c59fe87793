//! Which premises of a rule are known already.
ghost use Rattle.std.specs.Prelude.{◌≡◌, OnOk, fold};
ghost use Rattle.library_ground.specs.Pinning.{are_free, may_stand, values_give};

use fact_rows::{Node, Row};
use rule_ground::{Facts, Join, Key, Sink, for_each_candidate};

/// The premises that are known: a value of a position, the object that takes a value in, and what an object holds.
#[derive(Clone, Copy)]
pub struct Pins {
    pub value: Option<Row>,
    pub object: Option<Row>,
    pub cell: Option<Row>,
}

impl Pins {
    /// Whether none of them is known.
    pub fn are_free(&self) -> bool
        ensures { result ≡ are_free self.now }
    {
        self.value.is_none() && self.object.is_none() && self.cell.is_none()
    }
}

/// Whether the register at the node may be that of the premise: it is, or the premise is not known.
pub fn may_stand(pin: Option<Row>, node: Node, register: u32) -> bool
    ensures { result ≡ may_stand pin node register }
{
    match pin {
        None => true,
        Some(row) => {
            Key::PointsAt(node, register).asks(&row) || Key::TaintsAt(node, register).asks(&row)
        }
    }
}

/// What is concluded of each value of the register, or of the one that is known.
pub fn for_each_value<F: Facts, J: Join, S: Sink>(
    facts: &F,
    pin: Option<Row>,
    node: Node,
    register: u32,
    with: &J,
    out: &mut S,
) -> Result<(), S::Refusal>
    requires { J.ready with.now }
    ensures { OnOk result (out.new ≡ fold S.then out.old (values_give (F.hits facts.now) pin node register
        (J.gives with.now))) }
{
    for_each_candidate(facts, pin, &Key::PointsAt(node, register), with, out)?;
    for_each_candidate(facts, pin, &Key::TaintsAt(node, register), with, out)
}

//! The values of a register.
ghost use Rattle.std.specs.Prelude.{◌≡◌, OnOk, fold};
ghost use Rattle.library_ground.specs.CallRow.{shown_call};
ghost use Rattle.cell_library_value_rules.specs.CellValueGiven.{with_object, with_value};
ghost use Rattle.cell_library_value_rules.specs.CellValues.{may_stand, values_give};

use cell_ground::Content;
use fact_rows::{Node, Row, Site};
use library_ground::LibraryCall;
use rule_ground::{Facts, Join, Key, Premises, Sink, for_each_candidate};

/// A value of a position in its register, and what its object is known to hold.
#[derive(Clone, Copy)]
pub struct Value {
    pub position: usize,
    pub register: u32,
    pub content: Content,
    pub cell: Option<Row>,
}

/// Whether the register at the node may be that of the premise: it is, or the premise is not known.
pub fn may_stand(pin: Option<Row>, node: Node, register: u32) -> bool
    ensures { result ≡ may_stand pin node register }
{
    match pin {
        None => true,
        Some(row) => {
            Key::PointsAt(node, register).asks(&row) || Key::LabelsAt(node, register).asks(&row)
        }
    }
}

/// What is concluded of each value of the register, or of the one that is known.
pub fn for_each_value<F: Facts, J: Join, S: Sink>(
    facts: &F,
    pin: Option<Row>,
    node: Node,
    register: u32,
    with: &J,
    out: &mut S,
) -> Result<(), S::Refusal>
    requires { J.ready with.now }
    ensures { OnOk result (out.new ≡ fold S.then out.old (values_give (F.hits facts.now) pin node register
        (J.gives with.now))) }
{
    for_each_candidate(facts, pin, &Key::PointsAt(node, register), with, out)?;
    for_each_candidate(facts, pin, &Key::LabelsAt(node, register), with, out)
}

/// The use of the row, beside a value of a register.
pub fn with_value(call: &LibraryCall<'_>, register: u32, content: Content) -> Premises
    ensures { result ≡ with_value (shown_call call.now) register content }
{
    Premises::of_two(call.premise(), content.held(call.node, register))
}

/// The use of the row, beside an object of a register and what is said of the object.
pub fn with_object(call: &LibraryCall<'_>, register: u32, site: Site, row: Row) -> Premises
    ensures { result ≡ with_object (shown_call call.now) register site row }
{
    Premises::of_three(call.premise(), Row::Points(call.node, register, site), row)
}

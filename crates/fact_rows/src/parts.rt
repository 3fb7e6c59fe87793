ghost use Rattle.std.specs.Prelude.{◌≡◌, [], ◌∷◌};
ghost use Rattle.fact_rows.specs.Parts.{parts_of, side_of};
ghost use Rattle.fact_rows.specs.RangeLaws.{parts_rise};

use crate::Field::{
    Activation, Category, Cause, Component, Exit, Key, Label, Node, Path, Register, Site, State,
    Static, Use,
};
use crate::fields::Fields;
use crate::{Field, Kind, Row};
use sorted_table::Stretch;
use std::cmp::Ordering;

/// The kind of a row and its fields in order; or the kind and some first fields, by which rows are looked up.
#[derive(Drop)]
pub struct Parts {
    pub kind: Kind,
    pub fields: Fields,
}

impl Parts {
    /// The kind alone.
    pub fn of(kind: Kind) -> Parts
        ensures { result ≡ record { kind = kind; fields = [] } }
    {
        let fields = Fields::none();
        Parts { kind, fields }
    }

    pub fn one(kind: Kind, a: Field) -> Parts
        ensures { result ≡ record { kind = kind; fields = a ∷ [] } }
    {
        let fields = Fields::one(a);
        Parts { kind, fields }
    }

    pub fn two(kind: Kind, a: Field, b: Field) -> Parts
        ensures { result ≡ record { kind = kind; fields = a ∷ b ∷ [] } }
    {
        let fields = Fields::two(a, b);
        Parts { kind, fields }
    }

    pub fn three(kind: Kind, a: Field, b: Field, c: Field) -> Parts
        ensures { result ≡ record { kind = kind; fields = a ∷ b ∷ c ∷ [] } }
    {
        let fields = Fields::three(a, b, c);
        Parts { kind, fields }
    }

    pub fn four(kind: Kind, a: Field, b: Field, c: Field, d: Field) -> Parts
        ensures { result ≡ record { kind = kind; fields = a ∷ b ∷ c ∷ d ∷ [] } }
    {
        let fields = Fields::four(a, b, c, d);
        Parts { kind, fields }
    }
}

impl Row {
    /// The kind and all fields. The letters are those of the rules: a node n, an activation a or b,
    /// a register r, sites s and t, a key k, a static g, a path p, a label l and a component c.
    pub fn parts(&self) -> Parts
        ensures { result ≡ parts_of self.now }
    {
        match *self {
            Row::Reached(n) => Parts::one(Kind::Reached, Node(n)),
            Row::Points(n, r, s) => Parts::three(Kind::Points, Node(n), Register(n, r), Site(s)),
            Row::Taint(n, r, p, l) => Parts::four(
                Kind::Taint,
                Node(n),
                Register(n, r),
                Path(p),
                Category(l),
            ),
            Row::Cell(s, k, t) => Parts::three(Kind::Cell, Site(s), Key(k), Site(t)),
            Row::Back(t, k, s) => Parts::three(Kind::Back, Site(t), Key(k), Site(s)),
            Row::StaticPoints(g, s) => Parts::two(Kind::StaticPoints, Static(g), Site(s)),
            Row::StaticTaint(g, p, l) => Parts::three(
                Kind::StaticTaint,
                Static(g),
                Path(p),
                Category(l),
            ),
            Row::Calls(n, b) => Parts::two(Kind::Calls, Node(n), Activation(b)),
            Row::CalledBy(b, n) => Parts::two(Kind::CalledBy, Activation(b), Node(n)),
            Row::Effect(n, s, p, l) => Parts::four(
                Kind::Effect,
                Node(n),
                Site(s),
                Path(p),
                Category(l),
            ),
            Row::MethodEffect(a, s, p, l) => Parts::four(
                Kind::MethodEffect,
                Activation(a),
                Site(s),
                Path(p),
                Category(l),
            ),
            Row::ExitPoints(a, how, s) => Parts::three(
                Kind::ExitPoints,
                Activation(a),
                Exit(how),
                Site(s),
            ),
            Row::ExitTaint(a, how, p, l) => Parts::four(
                Kind::ExitTaint,
                Activation(a),
                Exit(how),
                Path(p),
                Category(l),
            ),
            Row::Live(c, state) => Parts::two(Kind::Live, Component(c), State(c, state)),
            Row::CompTaint(c, state, p, l) => Parts::four(
                Kind::CompTaint,
                Component(c),
                State(c, state),
                Path(p),
                Category(l),
            ),
            Row::Handed(s) => Parts::one(Kind::Handed, Site(s)),
            Row::HandedTaint(s, p, l) => Parts::three(
                Kind::HandedTaint,
                Site(s),
                Path(p),
                Category(l),
            ),
            Row::Arrive(l, sink, n) => Parts::three(
                Kind::Arrive,
                Category(l),
                Category(sink),
                Node(n),
            ),
            Row::Unknown(n, cause) => Parts::two(Kind::Unknown, Node(n), Cause(cause)),
            Row::Uses(n, summary) => Parts::two(Kind::Uses, Node(n), Use(summary)),
            Row::Label(n, r, l) => Parts::three(Kind::Label, Node(n), Register(n, r), Label(l)),
            Row::StaticLabel(g, l) => Parts::two(Kind::StaticLabel, Static(g), Label(l)),
            Row::CellLabel(s, k, l) => Parts::three(Kind::CellLabel, Site(s), Key(k), Label(l)),
            Row::Holds(s, l) => Parts::two(Kind::Holds, Site(s), Label(l)),
            Row::ExitLabel(a, how, l) => Parts::three(
                Kind::ExitLabel,
                Activation(a),
                Exit(how),
                Label(l),
            ),
        }
    }
}

/// The rows of the kind that begin with the fields stand together.
impl Stretch<Row> for Parts {
    ghost side = { side_of };

    ghost rises = { parts_rise };

    fn side(&self, row: &Row) -> Ordering {
        let parts = row.parts();
        parts
            .kind
            .cmp(&self.kind)
            .then(parts.fields.front_cmp(&self.fields))
    }
}

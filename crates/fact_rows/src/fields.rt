ghost use Rattle.std.specs.Prelude.{◌≡◌, ◌≤◌, [], ◌∷◌, length, take};
ghost use Rattle.fact_rows.specs.Fields.{front_cmp};

use crate::Field;
use std::cmp::Ordering;
use std::marker::Model;

/// Up to four fields, those of a row's parts. Contracts see their list.
#[derive(Drop)]
pub struct Fields {
    all: [Field; 4],
    /// How many of them count; the others are blank.
    count: usize,
}

const BLANK: Field = Field::Cause(0);

impl Model for Fields {
    ghost use Rattle.std.specs.Prelude.{◌≤◌, List, take};
    ghost use Rattle.fact_rows.specs.declared.field.Field.{Field};

    ghost Value = { List Field };

    ghost view = { λ f. take f.count f.all };

    ghost invariant = { λ f. f.count ≤ 4 };
}

impl Fields {
    pub(crate) fn none() -> Fields
        ensures { result ≡ [] }
    {
        Fields {
            all: [BLANK; 4],
            count: 0,
        }
    }

    pub(crate) fn one(a: Field) -> Fields
        ensures { result ≡ a ∷ [] }
    {
        Fields {
            all: [a, BLANK, BLANK, BLANK],
            count: 1,
        }
    }

    pub(crate) fn two(a: Field, b: Field) -> Fields
        ensures { result ≡ a ∷ b ∷ [] }
    {
        Fields {
            all: [a, b, BLANK, BLANK],
            count: 2,
        }
    }

    pub(crate) fn three(a: Field, b: Field, c: Field) -> Fields
        ensures { result ≡ a ∷ b ∷ c ∷ [] }
    {
        Fields {
            all: [a, b, c, BLANK],
            count: 3,
        }
    }

    pub(crate) fn four(a: Field, b: Field, c: Field, d: Field) -> Fields
        ensures { result ≡ a ∷ b ∷ c ∷ d ∷ [] }
    {
        Fields {
            all: [a, b, c, d],
            count: 4,
        }
    }

    pub fn as_slice(&self) -> &[Field]
        ensures { result.now ≡ self.now }
    {
        &self.all[..self.count]
    }

    /// How the first of these fields stand to the others, as many as those are: in front of them,
    /// the same, or behind.
    pub(crate) fn front_cmp(&self, others: &Fields) -> Ordering
        ensures { result ≡ front_cmp self.now others.now }
    {
        let own = self.as_slice();
        let others = others.as_slice();
        if others.len() < own.len() {
            own[..others.len()].cmp(others)
        } else {
            own.cmp(others)
        }
    }
}

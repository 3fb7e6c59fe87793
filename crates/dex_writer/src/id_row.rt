ghost use Rattle.std.specs.Prelude.{◌≡◌, ◌==◌, IfOk};
ghost use Rattle.std.proofs.Common.{rules};
ghost use Rattle.std.specs.Cmp.{partial_order_from_own_ties};
ghost use Rattle.std.specs.Cmp.Rules.{comparing};
ghost use Rattle.std.specs.Cmp.Lexicographic.{pointwise, slice_cmp};
ghost use Rattle.std.specs.Ordering.{nat_cmp, as_partial_cmp};

use crate::interner::Row;
use std::alloc::Global;
use std::cmp::Ordering;
use std::marker::Model;
use vet_base::{Memory, Shared};

/// A row of `proto_ids`, `field_ids` or `method_ids`, as the numbers of the rows that it names.
#[derive(Drop)]
pub struct IdRow {
    numbers: Shared<u32>,
}

impl Model for IdRow {
    ghost use Rattle.std.specs.Prelude.{List, ℕ};

    ghost Value = { List ℕ };

    ghost view = { λ r. r.numbers };
}

impl IdRow {
    /// The row with these numbers.
    pub fn new(alloc: Global, numbers: Vec<u32>) -> Result<IdRow, Memory>
        ensures { IfOk result (λ r. r ≡ numbers.items) }
    {
        Ok(IdRow {
            numbers: Shared::from_vec(alloc, numbers)?,
        })
    }

    pub fn numbers(&self) -> &[u32]
        ensures { result.now ≡ self.now }
    {
        self.numbers.as_slice()
    }
}

impl Row for IdRow {
    fn twin(&self) -> Result<IdRow, Memory> {
        Ok(IdRow {
            numbers: self.numbers.copy()?,
        })
    }
}

impl PartialEq for IdRow {
    ghost eq = { pointwise ◌==◌ };

    ghost laws = { Prim.search (comparing, rules) };

    fn eq(&self, other: &IdRow) -> bool {
        self.numbers() == other.numbers()
    }
}

impl Eq for IdRow {
    ghost laws = { Prim.search (comparing, rules) };
}

impl Ord for IdRow {
    ghost cmp = { slice_cmp nat_cmp };

    ghost total = { Prim.search (comparing, rules) };

    ghost matches_partial_cmp = { Prim.search (comparing, rules) };

    ghost matches_eq = { Prim.search (comparing, rules) };

    fn cmp(&self, other: &IdRow) -> Ordering {
        self.numbers().cmp(&other.numbers())
    }
}

impl PartialOrd for IdRow {
    ghost partial_cmp = { as_partial_cmp (slice_cmp nat_cmp) };

    ghost laws = { partial_order_from_own_ties (Prim.search (comparing, rules)) (Prim.search (comparing, rules)) };

    fn partial_cmp(&self, other: &IdRow) -> Option<Ordering> {
        Some(self.cmp(other))
    }
}

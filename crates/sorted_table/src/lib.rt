//! Ascending lists of distinct rows, over any order that tells all rows apart: `SortedTable`, which
//! grows without being copied, and `SortedVec`, the one plain vector, which says in a few lines
//! what the table does.
#![tactic(auto)]

ghost use Rattle.std.proofs.lemmas.Map.Lookups.{CmpEqualImpliesEq};

mod bound;
mod growth;
mod part;
mod sorted_table;
mod sorted_vec;
mod stretch;

pub use sorted_table::SortedTable;
pub use sorted_vec::SortedVec;
pub use stretch::Stretch;

/// An order that tells all rows apart: rows that compare as equal are equal.
pub trait Exact: Ord + Copy {
    ghost exact: { CmpEqualImpliesEq Self.cmp };
}

//! Rows that stand together.
ghost use Rattle.std.specs.Prelude.{◌≡◌};
ghost use Rattle.std.specs.declared.cmp.Ordering.{Ordering};
ghost use Rattle.sorted_table.specs.Stretches.{Rises, own_rises};

use crate::Exact;
use std::cmp::Ordering;

/// Rows that stand together in every ascending list. A row is in front of the stretch (`Less`), in
/// it (`Equal`) or behind it (`Greater`).
pub trait Stretch<T: Exact> {
    ghost side: { Self → T → Ordering };

    fn side(&self, row: &T) -> Ordering
        ensures { result ≡ side self.now row.now };

    /// Whoever is below a row in front is in front, and whoever is above a row behind is behind.
    ghost rises: { (stretch : Self) → Rises T.cmp (side stretch) };
}

/// The one row.
impl<T: Exact> Stretch<T> for T {
    ghost side = { λ own row. T.cmp row own };

    ghost rises = { λ own. own_rises T.total own };

    fn side(&self, row: &T) -> Ordering {
        row.cmp(self)
    }
}

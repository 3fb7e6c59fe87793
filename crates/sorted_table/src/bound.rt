//! How many rows of an ascending list stand before a place of the order.
ghost use Rattle.std.specs.Prelude.{◌≡◌, ◌-◌, ◌<◌, ◌≤◌, ◌↔◌, IsTrue, length, slice_index_or};
ghost use Rattle.std.proofs.lemmas.Map.Lookups.{exact_unsigned};
ghost use Rattle.vet_base.specs.Ascending.{Ascends};
ghost use Rattle.sorted_table.specs.Bounds.{IsBound, counts as counts_side, counted};

use crate::{Exact, Stretch};
use std::cmp::Ordering;

/// Whether a row of this side is counted: those in front of the stretch, and with `inside` those
/// in it too.
pub fn counts(side: Ordering, inside: bool) -> bool
    ensures { result ≡ counts_side inside side }
{
    match side {
        Ordering::Less => true,
        Ordering::Equal => inside,
        Ordering::Greater => false,
    }
}

/// How many of the rows are counted; they are the first ones.
pub fn bound<T: Exact, S: Stretch<T>>(rows: &[T], stretch: &S, inside: bool) -> usize
    requires { Ascends T.cmp rows.now }
    ensures { IsBound (counted (S.side stretch.now) inside) rows.now result }
{
    let mut low = 0;
    let mut high = rows.len();
    while low < high {
        let mid = low + (high - low) / 2;
        if counts(stretch.side(&rows[mid]), inside) {
            low = mid + 1;
        } else {
            high = mid;
        }
    }
    low
}

/// Whether the row stands directly before the place.
pub fn ends_before<T: Exact>(rows: &[T], place: usize, row: &T) -> bool
    requires { place ≤ length rows.now }
    ensures { IsTrue result ↔ ((0 < place) × (slice_index_or rows.now (place - 1) row.now ≡ row.now)) }
{
    place > 0 && rows[place - 1].cmp(row).is_eq()
}

impl Exact for usize {
    ghost exact = { exact_unsigned };
}

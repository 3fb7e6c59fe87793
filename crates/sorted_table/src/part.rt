//! Rows in parts, and how a place in them is found.
ghost use Rattle.std.specs.Prelude.{◌≡◌, ◌+◌, ◌-◌, ◌<◌, ◌≤◌, ◌^◌, ◌↔◌, true, false, IsTrue, length, slice_index_or};
ghost use Rattle.std.specs.List.{HoldsAt};
ghost use Rattle.vet_base.specs.Ascending.{Ascends};
ghost use Rattle.sorted_table.specs.Between.{Between};
ghost use Rattle.sorted_table.specs.Bounds.{IsBound, counted};
ghost use Rattle.sorted_table.specs.Parts.{rows_of, all_rows, Filled, IsKept, place_of, IsSlot, IsPartOf, BeginsWith};

use crate::bound::{bound, counts, ends_before};
use crate::{Exact, Stretch};

/// The greatest number of rows of a part.
pub const FULL: usize = 1024;

/// Some of the rows, at least one and at most 1,024.
#[derive(Drop)]
pub struct Part<T: Exact + Drop> {
    pub rows: Vec<T>,
}

/// A part, and a place in it.
#[derive(Clone, Copy)]
pub struct Slot {
    pub part: usize,
    pub place: usize,
}

/// Whether the part begins with a row that is counted.
fn begins_counted<T: Exact + Drop, S: Stretch<T>>(part: &Part<T>, stretch: &S, inside: bool) -> bool
    requires { 0 < length (rows_of part.now) }
    ensures { HoldsAt (λ y. counted (S.side stretch.now) inside y ≡ result) (rows_of part.now) 0 }
{
    counts(stretch.side(&part.rows[0]), inside)
}

/// How many of the parts begin with a row that is counted, up to the first that does not.
fn begun<T: Exact + Drop, S: Stretch<T>>(parts: &[Part<T>], stretch: &S, inside: bool) -> usize
    requires { Filled parts.now }
    ensures { Between (BeginsWith (counted (S.side stretch.now) inside) true)
        (BeginsWith (counted (S.side stretch.now) inside) false) parts.now result result }
{
    let mut low = 0;
    let mut high = parts.len();
    while low < high {
        let mid = low + (high - low) / 2;
        if begins_counted(&parts[mid], stretch, inside) {
            low = mid + 1;
        } else {
            high = mid;
        }
    }
    low
}

/// Where the rows that are counted end.
pub fn seek<T: Exact + Drop, S: Stretch<T>>(parts: &[Part<T>], stretch: &S, inside: bool) -> Slot
    requires some { 0 < length parts.now }
    requires filled { Filled parts.now }
    requires ascending { Ascends T.cmp (all_rows parts.now) }
    ensures slot { IsSlot parts.now result }
    ensures bound { IsBound (counted (S.side stretch.now) inside) (all_rows parts.now) (place_of parts.now result) }
    ensures entered { 0 < result.part → 0 < result.place }
{
    let part = begun(parts, stretch, inside).saturating_sub(1);
    let place = bound(&parts[part].rows, stretch, inside);
    Slot { part, place }
}

/// Whether the row is the last of those before the slot.
pub fn ends_with<T: Exact + Drop>(parts: &[Part<T>], slot: Slot, row: &T) -> bool
    requires slot { IsSlot parts.now slot }
    requires entered { 0 < slot.part → 0 < slot.place }
    ensures { IsTrue result
        ↔ ((0 < place_of parts.now slot) × (slice_index_or (all_rows parts.now) (place_of parts.now slot - 1) row.now
        ≡ row.now)) }
{
    ends_before(&parts[slot.part].rows, slot.place, row)
}

/// The slot's place among all rows.
pub fn place_among<T: Exact + Drop>(parts: &[Part<T>], starts: &[usize], slot: Slot) -> usize
    requires kept { IsKept parts.now starts.now }
    requires slot { IsSlot parts.now slot }
    requires few { length (all_rows parts.now) < 2 ^ 64 }
    ensures { result ≡ place_of parts.now slot }
{
    starts[slot.part] + slot.place
}

/// The part in which a place is.
fn part_of<T: Exact + Drop>(parts: &[Part<T>], starts: &[usize], place: usize) -> usize
    requires kept { IsKept parts.now starts.now }
    requires there { place < length (all_rows parts.now) }
    ensures { IsPartOf parts.now place result }
{
    bound(starts, &place, true) - 1
}

/// The row at a place.
pub fn row_at<'a, T: Exact + Drop>(parts: &'a [Part<T>], starts: &[usize], place: usize) -> &'a T
    requires kept { IsKept parts.now starts.now }
    requires there { place < length (all_rows parts.now) }
    ensures { result.now ≡ slice_index_or (all_rows parts.now) place result.now }
{
    let part = part_of(parts, starts, place);
    &parts[part].rows[place - starts[part]]
}

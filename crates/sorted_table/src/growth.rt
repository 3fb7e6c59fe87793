//! How a row goes into the parts, and how a full part is cut in two.
ghost use Rattle.std.specs.Prelude.{◌≡◌, ◌+◌, ◌<◌, ◌≤◌, ◌^◌, ◌↔◌, [], ◌∷◌, IsTrue, All, IfOk};
ghost use Rattle.std.specs.Prelude.{OnOk, OnErr, length, take, drop, vec_len, vec_capacity};
ghost use Rattle.std.specs.List.{HoldsAt, insert};
ghost use Rattle.sorted_table.specs.Parts.{rows_of, all_rows, before, IsKept, place_of};
ghost use Rattle.sorted_table.specs.Parts.{IsSlot, HasRoom, raised, IsSplit};
ghost use Rattle.sorted_table.specs.declared.part.TheConstants.{FULL};

use crate::Exact;
use crate::part::{FULL, Part, Slot};
use std::alloc::{AllocError, Global};

/// Puts the row into the part.
fn put<T: Exact + Drop>(part: &mut Part<T>, at: usize, row: T) -> Result<(), AllocError>
    requires { at ≤ length (rows_of part.old) }
    ensures ok { OnOk result (rows_of part.new ≡ insert (rows_of part.old) at row) }
    ensures err { OnErr result (rows_of part.new ≡ rows_of part.old) }
{
    part.rows.insert(at, row)?;
    Ok(())
}

/// One more row stands before each part from this one on.
fn raise(starts: &mut Vec<usize>, from: usize)
    requires within { from ≤ vec_len starts.old }
    requires small { All (λ n. n + 1 < 2 ^ 64) starts.old.items }
    ensures { starts.new.items ≡ raised from (length starts.old.items) starts.old.items }
{
    for i in from..starts.len() {
        starts[i] += 1;
    }
}

/// Puts the row at a slot whose part has room.
fn put_at<T: Exact + Drop>(
    parts: &mut Vec<Part<T>>,
    starts: &mut Vec<usize>,
    slot: Slot,
    row: T,
) -> Result<(), AllocError>
    requires slot { IsSlot parts.old.items slot }
    requires room { HasRoom parts.old.items slot.part }
    requires kept { IsKept parts.old.items starts.old.items }
    requires few { length (all_rows parts.old.items) + 1 < 2 ^ 64 }
    ensures ok { OnOk result (all_rows parts.new.items ≡ insert (all_rows parts.old.items)
        (place_of parts.old.items slot) row) }
    ensures err { OnErr result (all_rows parts.new.items ≡ all_rows parts.old.items) }
    ensures kept { IsKept parts.new.items starts.new.items }
{
    match put(&mut parts[slot.part], slot.place, row) {
        Ok(()) => {
            raise(starts, slot.part + 1);
            Ok(())
        }
        Err(error) => Err(error),
    }
}

/// A part of the rows from a place on.
fn upper<T: Exact + Drop>(alloc: Global, part: &Part<T>, cut: usize) -> Result<Part<T>, AllocError>
    requires { cut ≤ length (rows_of part.now) }
    ensures { IfOk result (λ more. rows_of more ≡ drop cut (rows_of part.now)) }
{
    let rows = Vec::from_slice(alloc, &part.rows[cut..])?;
    Ok(Part { rows })
}

/// The part without its rows from a place on.
fn shorten<T: Exact + Drop>(part: &mut Part<T>, cut: usize)
    ensures { rows_of part.new ≡ take cut (rows_of part.old) }
{
    part.rows.truncate(cut);
}

/// Puts the number in. Room was reserved, so this cannot fail.
fn insert_reserved(starts: &mut Vec<usize>, at: usize, start: usize)
    requires within { at ≤ vec_len starts.old }
    requires reserved { vec_len starts.old < vec_capacity starts.old }
    ensures { starts.new.items ≡ insert starts.old.items at start }
{
    match starts.insert(at, start) {
        Ok(()) => {}
        Err(_) => {}
    }
}

/// Cuts a full part in two. What may fail comes first.
fn split<T: Exact + Drop>(
    alloc: Global,
    parts: &mut Vec<Part<T>>,
    starts: &mut Vec<usize>,
    at: usize,
    cut: usize,
) -> Result<(), AllocError>
    requires there { at < length parts.old.items }
    requires full { HoldsAt (λ p. length (rows_of p) ≡ FULL) parts.old.items at }
    requires some { 0 < cut }
    requires less { cut < FULL }
    requires kept { IsKept parts.old.items starts.old.items }
    requires few { length (all_rows parts.old.items) + 1 < 2 ^ 64 }
    ensures same { all_rows parts.new.items ≡ all_rows parts.old.items }
    ensures kept { IsKept parts.new.items starts.new.items }
    ensures ok { OnOk result (IsSplit parts.old.items at cut parts.new.items) }
{
    let more = upper(alloc, &parts[at], cut)?;
    let start = starts[at] + cut;
    starts.reserve(1)?;
    parts.insert(at + 1, more)?;
    insert_reserved(starts, at + 1, start);
    shorten(&mut parts[at], cut);
    Ok(())
}

/// Where a full part is cut for a row that goes to the place. A row above all others takes the last
/// one along, and one below all leaves the first one alone, so that rows that come in order leave
/// full parts behind.
fn cut_for(place: usize) -> usize
    ensures some { 0 < result }
    ensures less { result < FULL }
{
    if place == 0 {
        1
    } else if place == FULL {
        FULL - 1
    } else {
        FULL / 2
    }
}

/// Whether the part has room for one more row.
fn has_room<T: Exact + Drop>(parts: &[Part<T>], at: usize) -> bool
    ensures { IsTrue result ↔ HasRoom parts.now at }
{
    at < parts.len() && parts[at].rows.len() < FULL
}

/// A slot at the same place, in a part with room. A row above all of a full part goes to the front
/// of the next one that has room, so that a small part comes only between full ones, whatever the
/// order of the rows.
fn make_room<T: Exact + Drop>(
    alloc: Global,
    parts: &mut Vec<Part<T>>,
    starts: &mut Vec<usize>,
    slot: Slot,
) -> Result<Slot, AllocError>
    requires slot { IsSlot parts.old.items slot }
    requires kept { IsKept parts.old.items starts.old.items }
    requires few { length (all_rows parts.old.items) + 1 < 2 ^ 64 }
    ensures same { all_rows parts.new.items ≡ all_rows parts.old.items }
    ensures kept { IsKept parts.new.items starts.new.items }
    ensures slot { IfOk result (IsSlot parts.new.items) }
    ensures room { IfOk result (λ s. HasRoom parts.new.items s.part) }
    ensures place { IfOk result (λ s. place_of parts.new.items s ≡ place_of parts.old.items slot) }
{
    if has_room(parts, slot.part) {
        return Ok(slot);
    }
    if slot.place == FULL && has_room(parts, slot.part + 1) {
        return Ok(Slot {
            part: slot.part + 1,
            place: 0,
        });
    }
    let cut = cut_for(slot.place);
    split(alloc, parts, starts, slot.part, cut)?;
    if slot.place <= cut {
        Ok(slot)
    } else {
        Ok(Slot {
            part: slot.part + 1,
            place: slot.place - cut,
        })
    }
}

/// Puts the row at the slot.
pub fn grow<T: Exact + Drop>(
    alloc: Global,
    parts: &mut Vec<Part<T>>,
    starts: &mut Vec<usize>,
    slot: Slot,
    row: T,
) -> Result<(), AllocError>
    requires slot { IsSlot parts.old.items slot }
    requires kept { IsKept parts.old.items starts.old.items }
    requires few { length (all_rows parts.old.items) + 1 < 2 ^ 64 }
    ensures ok { OnOk result (all_rows parts.new.items ≡ insert (all_rows parts.old.items)
        (place_of parts.old.items slot) row) }
    ensures err { OnErr result (all_rows parts.new.items ≡ all_rows parts.old.items) }
    ensures kept { IsKept parts.new.items starts.new.items }
{
    let roomy = make_room(alloc, parts, starts, slot)?;
    put_at(parts, starts, roomy, row)
}

/// The first row of all.
pub fn begin<T: Exact + Drop>(
    alloc: Global,
    parts: &mut Vec<Part<T>>,
    starts: &mut Vec<usize>,
    row: T,
) -> Result<(), AllocError>
    requires parts { parts.old.items ≡ [] }
    requires starts { starts.old.items ≡ [] }
    ensures ok { OnOk result (all_rows parts.new.items ≡ row ∷ []) }
    ensures err { OnErr result (all_rows parts.new.items ≡ []) }
    ensures kept { IsKept parts.new.items starts.new.items }
{
    let mut rows = Vec::new(alloc);
    rows.push(row)?;
    starts.reserve(1)?;
    parts.push(Part { rows })?;
    insert_reserved(starts, 0, 0);
    Ok(())
}

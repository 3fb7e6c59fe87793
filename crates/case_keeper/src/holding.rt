ghost use Rattle.std.specs.Prelude.{◌≡◌, ◌≤◌, ◌<◌, ◌+◌, ◌==◌, ℕ, List, ◌++◌, ◌∷◌, [], None};
ghost use Rattle.std.specs.Prelude.{Some, true, false, Bool, find, is_some, length, vec_len};
ghost use Rattle.std.specs.Prelude.{IfOk, OnOk, OnErr, slice_index_or, if◌then◌else◌, ◌&&◌};
ghost use Rattle.std.specs.Ordering.{nat_cmp};
ghost use Rattle.std.specs.List.{slice_get, AllWithin};
ghost use Rattle.std.specs.Option.{option_copied, option_and_then};
ghost use Rattle.std.specs.BTreeMap.{get};
ghost use Rattle.std.specs.BTreeSet.{contains};
ghost use Rattle.case_rules.specs.Cases.{name_cmp, is_named, is_of, is_queued, has_open_appeal, amended};
ghost use Rattle.case_keeper.specs.MemoryKeeper.{IsIndex, IsPast, Adds, Notes, NotesChange, Owns};
ghost use Rattle.case_keeper.specs.MemoryKeeper.{SameNotes, amended_by, owned_by, waiting_for};

use crate::amending::amended;
use crate::placing::{
    Appealed, CaseIndex, Owned, Places, name_of, note_waiting, own, place_of, waiting_of,
};
use case_rules::{Case, Change};
use std::alloc::Global;
use vet_base::{Memory, Name};

/// The case of this developer and reference, by its place.
pub fn case_named<'a>(
    cases: &'a [Case],
    places: &Places,
    party: &Name,
    reference: &Name,
) -> Result<Option<&'a Case>, Memory>
    ensures { IfOk result (λ found. option_copied found
        ≡ option_and_then (slice_get cases.now) (get name_cmp places.now (party.now, reference.now))) }
{
    match place_of(places, party, reference)? {
        None => Ok(None),
        Some(place) => Ok(cases.get(place)),
    }
}

/// The case at a place, where there is one.
pub fn case_at(cases: &[Case], place: usize) -> Option<&Case>
    ensures { option_copied result ≡ slice_get cases.now place }
{
    cases.get(place)
}

/// The first place, from one on, of a case without an entry, or the number of cases.
pub fn first_queued_from(cases: &[Case], from: usize) -> usize
    requires { from ≤ length cases.now }
    ensures within { result ≤ length cases.now }
    ensures later { from ≤ result }
    ensures past { AllWithin IsPast cases.now from result }
    ensures queued { (d : Case) → result < length cases.now → is_queued (slice_index_or cases.now result d) ≡ true }
{
    for place in from..cases.len() {
        if cases[place].is_queued() {
            return place;
        }
    }
    cases.len()
}

/// Notes the place of a case of a new name, for the name and for
/// the developer. After want of memory all is noted as before.
fn note_place(
    alloc: Global,
    places: &mut Places,
    owned: &mut Owned,
    case: &Case,
    place: usize,
) -> Result<(), Memory>
    requires { get name_cmp places.old (case.now.party, case.now.reference) ≡ None }
    ensures named { OnOk result (Notes places.old places.new case.now (Some place)) }
    ensures owned { OnOk result (Owns owned.old owned.new case.now place) }
    ensures forgotten { OnErr result ((name : List ℕ × List ℕ)
        → get name_cmp places.new name ≡ get name_cmp places.old name) }
    ensures left { OnErr result ((party : List ℕ) → owned_by owned.new party ≡ owned_by owned.old party) }
{
    let name = name_of(&case.party, &case.reference)?;
    let again = name_of(&case.party, &case.reference)?;
    places.insert(name, place)?;
    if let Err(memory) = own(alloc, owned, &case.party, place) {
        places.remove(&again);
        return Err(memory);
    }
    Ok(())
}

/// Notes a case of a new name that waits. After want of memory all is noted as before.
fn note_added(alloc: Global, index: &mut CaseIndex, case: &Case, place: usize) -> Result<(), Memory>
    requires new { get name_cmp index.old.places (case.now.party, case.now.reference) ≡ None }
    requires countable { waiting_for index.old.waiting case.now.party < 18446744073709551615 }
    ensures ok { OnOk result (Adds index.old index.new case.now place) }
    ensures err { OnErr result (SameNotes index.old index.new) }
{
    let waiting = waiting_of(&index.waiting, &case.party);
    let owner = case.party.copy()?;
    note_waiting(&mut index.waiting, case.party.copy()?, waiting)?;
    note_place(alloc, &mut index.places, &mut index.owned, case, place)?;
    note_waiting(&mut index.waiting, owner, waiting + 1).unwrap();
    Ok(())
}

/// Adds a case without entries whose name is new. After want of memory the cases are as before.
pub fn add(
    alloc: Global,
    cases: &mut Vec<Case>,
    index: &mut CaseIndex,
    case: &Case,
) -> Result<(), Memory>
    requires index { IsIndex cases.old.items index.old }
    requires new { find (is_named case.now.party case.now.reference) cases.old.items ≡ None }
    requires queued { case.now.entries ≡ [] }
    ensures ok { OnOk result (cases.new.items ≡ cases.old.items ++ case.now ∷ []) }
    ensures err { OnErr result (cases.new.items ≡ cases.old.items) }
    ensures index { IsIndex cases.new.items index.new }
{
    let place = cases.len();
    let added = case.copy()?;
    cases.reserve(1)?;
    note_added(alloc, index, case, place)?;
    cases.push(added).unwrap();
    Ok(())
}

/// Notes whether the case at a place has an open appeal.
fn note_appeal(appealed: &mut Appealed, place: usize, is_open: bool) -> Result<(), Memory>
    ensures ok { OnOk result ((other : ℕ) → contains nat_cmp appealed.new other
        ≡ (if place == other then is_open else contains nat_cmp appealed.old other)) }
    ensures err { OnErr result ((other : ℕ)
        → contains nat_cmp appealed.new other ≡ contains nat_cmp appealed.old other) }
{
    if is_open {
        appealed.insert(place)?;
    } else {
        appealed.remove(&place);
    }
    Ok(())
}

/// Notes that the case at a place becomes a new one of the same name. After want of memory all is noted as before.
fn note_change(index: &mut CaseIndex, place: usize, old: &Case, new: &Case) -> Result<(), Memory>
    requires party { new.now.party ≡ old.now.party }
    requires counted { is_queued old.now ≡ true → 1 ≤ waiting_for index.old.waiting old.now.party }
    requires stays { is_queued old.now ≡ false → is_queued new.now ≡ false }
    ensures ok { OnOk result (NotesChange index.old index.new place old.now new.now) }
    ensures err { OnErr result (SameNotes index.old index.new) }
{
    let waiting = waiting_of(&index.waiting, &old.party);
    let owner = old.party.copy()?;
    note_appeal(&mut index.appealed, place, new.has_open_appeal())?;
    if old.is_queued() && !new.is_queued() {
        note_waiting(&mut index.waiting, owner, waiting - 1).unwrap();
    }
    Ok(())
}

/// Makes a change to the case of this name. After want of memory the cases are as before.
pub fn replace(
    alloc: Global,
    cases: &mut Vec<Case>,
    index: &mut CaseIndex,
    party: &Name,
    reference: &Name,
    change: &Change,
) -> Result<(), Memory>
    requires index { IsIndex cases.old.items index.old }
    requires there { is_some (find (is_named party.now reference.now) cases.old.items) ≡ true }
    ensures ok { OnOk result (cases.new.items
        ≡ amended (is_named party.now reference.now) (amended_by change.now) cases.old.items) }
    ensures err { OnErr result (cases.new.items ≡ cases.old.items) }
    ensures index { IsIndex cases.new.items index.new }
{
    let Some(place) = place_of(&index.places, party, reference)? else {
        unreachable!()
    };
    let old = &cases[place];
    let case = amended(alloc, old, change)?;
    note_change(index, place, old, &case)?;
    cases[place] = case;
    Ok(())
}

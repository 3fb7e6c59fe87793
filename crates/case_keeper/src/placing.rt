ghost use Rattle.std.specs.Prelude.{◌≡◌, ℕ, List, ◌++◌, ◌∷◌, [], Some, None, true, OnOk};
ghost use Rattle.std.specs.Prelude.{OnErr, IfOk, is_ok, is_some, if◌then◌else◌, nat_eq};
ghost use Rattle.std.specs.Ordering.{nat_cmp};
ghost use Rattle.std.specs.Cmp.Lexicographic.{slice_cmp};
ghost use Rattle.std.specs.BTreeMap.{get};
ghost use Rattle.case_rules.specs.Cases.{same, name_cmp};
ghost use Rattle.case_keeper.specs.MemoryKeeper.{owned_by, waiting_for};

use std::alloc::{AllocFailed, Global};
use std::collections::{BTreeMap, BTreeSet};
use vet_base::{Memory, Name};

/// The place of the case of each developer and reference.
pub type Places = BTreeMap<(Name, Name), usize>;

/// The places of each developer's cases, in the order of submission.
pub type Owned = BTreeMap<Name, Vec<usize>>;

/// How many cases of each developer have no entry.
pub type Waiting = BTreeMap<Name, u64>;

/// The places of the cases with an open appeal.
pub type Appealed = BTreeSet<usize>;

/// Where the cases stand of which a command may ask.
#[derive(Drop)]
pub struct CaseIndex {
    pub places: Places,
    pub owned: Owned,
    pub waiting: Waiting,
    pub appealed: Appealed,
}

/// A key of the places, which owns its names.
pub fn name_of(party: &Name, reference: &Name) -> Result<(Name, Name), Memory>
    ensures { IfOk result (λ name. name ≡ (party.now, reference.now)) }
{
    Ok((party.copy()?, reference.copy()?))
}

/// The place of the case of this name.
pub fn place_of(places: &Places, party: &Name, reference: &Name) -> Result<Option<usize>, Memory>
    ensures { IfOk result (λ place. place ≡ get name_cmp places.now (party.now, reference.now)) }
{
    let name = name_of(party, reference)?;
    Ok(places.get(&name).copied())
}

/// The places of the developer's cases.
pub fn places_of<'a>(owned: &'a Owned, party: &Name) -> &'a [usize]
    ensures { result.now ≡ owned_by owned.now party.now }
{
    match owned.get(party) {
        None => &[],
        Some(places) => places.as_slice(),
    }
}

/// Notes one place more for a developer. After want of memory the places are as before.
pub fn own(alloc: Global, owned: &mut Owned, party: &Name, place: usize) -> Result<(), Memory>
    ensures ok { OnOk result ((other : List ℕ) → owned_by owned.new other
        ≡ (if same party.now other then owned_by owned.old other ++ place ∷ [] else owned_by owned.old other)) }
    ensures err { OnErr result ((other : List ℕ) → owned_by owned.new other ≡ owned_by owned.old other) }
{
    if let Some(places) = owned.get_mut(party) {
        places.push(place)?;
        return Ok(());
    }
    let mut places = Vec::new(alloc);
    places.push(place)?;
    owned.insert(party.copy()?, places)?;
    Ok(())
}

/// How many cases of the developer have no entry.
pub fn waiting_of(waiting: &Waiting, party: &Name) -> u64
    ensures { result ≡ waiting_for waiting.now party.now }
{
    waiting.get(party).copied().unwrap_or(0)
}

/// Notes how many cases of a developer have no entry. After want of memory the numbers are as before; there is memory
/// where a number of this developer is noted already.
pub fn note_waiting(
    waiting: &mut Waiting,
    party: Name,
    count: u64,
) -> Result<(), AllocFailed<(Name, u64)>>
    ensures ok { OnOk result ((other : List ℕ) → waiting_for waiting.new other
        ≡ (if same party other then count else waiting_for waiting.old other)) }
    ensures noted { OnOk result (is_some (get (slice_cmp nat_cmp) waiting.new party) ≡ true) }
    ensures err { OnErr result ((other : List ℕ) → waiting_for waiting.new other ≡ waiting_for waiting.old other) }
    ensures sure { is_some (get (slice_cmp nat_cmp) waiting.old party) ≡ true → is_ok result ≡ true }
{
    waiting.insert(party, count)?;
    Ok(())
}

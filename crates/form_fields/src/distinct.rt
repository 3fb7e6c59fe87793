//! Names that may not stand twice.
ghost use Rattle.std.specs.Prelude.{◌≡◌, IfOk};
ghost use Rattle.form_fields.specs.Once.{once, names_once, with_one, with_new};
ghost use Rattle.vet_base.specs.Script.{Gives};

use crate::Fault;
use crate::index::Index;
use std::alloc::Global;
use vet_base::{Memory, Name, Stop};

/// The names seen so far and this one, which may not be one of them: then it is `Fault::Twice`.
#[tactic(auto, unfolding(crate::specs::Once::once))]
pub fn once(seen: Index<Name>, name: &Name) -> Result<Index<Name>, Stop<Fault>>
    ensures { Gives (λ x. x) result (once name.now seen) }
{
    if seen.place_of(name).is_some() {
        return Err(Stop::Fault(Fault::Twice(name.copy()?)));
    }
    Ok(seen.with(name.copy()?, name.copy()?)?)
}

/// The names, of which none may stand twice: the first that does is `Fault::Twice`.
#[tactic(auto, unfolding(crate::specs::Once::names_once), using(vet_base::proofs::Eaches::each_begins, vet_base::proofs::Eaches::each_goes_on, vet_base::proofs::Eaches::each_fails, vet_base::proofs::Eaches::each_is_done))]
pub fn names_once(alloc: Global, names: &[Name]) -> Result<Index<Name>, Stop<Fault>>
    ensures { Gives (λ x. x) result (names_once names.now) }
{
    let mut seen = Index::new(alloc);
    for name in names {
        seen = once(seen, name)?;
    }
    Ok(seen)
}

/// The names and those of the list that are not among them.
#[tactic(auto, using(crate::proofs::Merging::merge_begins, crate::proofs::Merging::merge_goes_on, crate::proofs::Merging::merge_done))]
pub fn with_new(seen: Index<Name>, names: &[Name]) -> Result<Index<Name>, Memory>
    ensures { IfOk result (λ x. x ≡ with_new seen names.now) }
{
    let mut all = seen;
    for name in names {
        all = with_one(all, name)?;
    }
    Ok(all)
}

/// The names and this one, where it is not among them.
#[tactic(auto, unfolding(crate::specs::Once::with_one))]
fn with_one(seen: Index<Name>, name: &Name) -> Result<Index<Name>, Memory>
    ensures { IfOk result (λ x. x ≡ with_one seen name.now) }
{
    if seen.place_of(name).is_some() {
        return Ok(seen);
    }
    seen.with(name.copy()?, name.copy()?)
}

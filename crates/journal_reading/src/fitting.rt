//! Whether a change fits the cases of a keeper in memory.
ghost use Rattle.std.specs.Prelude.{◌≡◌, [], Err, find, IfOk, OnErr};
ghost use Rattle.journal_law.specs.Reading.{is_meant, fits};

use case_keeper::{KeepFault, Keeper, MemKeeper};
use case_rules::{Case, Change};
use journal_law::fits_found;
use std::alloc::Global;

/// The case of which a change speaks.
fn meant(alloc: Global, held: &mut MemKeeper, change: &Change) -> Result<Option<Case>, KeepFault>
    requires { held.old.failing ≡ [] }
    ensures found { IfOk result (λ found. found ≡ find (is_meant change.now) held.old.cases) }
    ensures memory { OnErr result (result ≡ Err KeepFault.Memory) }
    ensures cases { held.new.cases ≡ held.old.cases }
    ensures unfailing { held.new.failing ≡ [] }
{
    match change {
        Change::Add(case) => held.find(alloc, &case.party, &case.reference),
        Change::Decide(party, reference, _) => held.find(alloc, party, reference),
        Change::Appeal(party, reference, _) => held.find(alloc, party, reference),
        Change::Rule(party, reference, _) => held.find(alloc, party, reference),
    }
}

/// Whether a change fits the cases of a keeper that never fails.
pub fn fits(alloc: Global, held: &mut MemKeeper, change: &Change) -> Result<bool, KeepFault>
    requires { held.old.failing ≡ [] }
    ensures answer { IfOk result (λ yes. yes ≡ fits change.now held.old.cases) }
    ensures memory { OnErr result (result ≡ Err KeepFault.Memory) }
    ensures cases { held.new.cases ≡ held.old.cases }
    ensures unfailing { held.new.failing ≡ [] }
{
    let found = meant(alloc, held, change)?;
    Ok(fits_found(change, &found))
}

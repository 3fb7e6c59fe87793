//! Whether what a database gives is what it was asked for.

ghost use Rattle.std.specs.Prelude.{◌≡◌, true, IfOk, IfSome};
ghost use Rattle.case_rules.specs.Cases.{is_named, is_queued};

use case_rules::Case;
use case_tables::Refusal;
use vet_base::Name;

fn if_named(case: Option<Case>, party: &Name, reference: &Name) -> Result<Option<Case>, Refusal>
    ensures { IfOk result (λ found. IfSome found (λ case. is_named party.now reference.now case ≡ true)) }
{
    match case {
        None => Ok(None),
        Some(case) => {
            if case.is_named(party, reference) {
                Ok(Some(case))
            } else {
                Err(Refusal::Inconsistent)
            }
        }
    }
}

/// What was found, where it is of this developer and reference; a database that gives another case refuses.
pub fn named(
    found: Result<Option<Case>, Refusal>,
    party: &Name,
    reference: &Name,
) -> Result<Option<Case>, Refusal>
    ensures { IfOk result (λ found. IfSome found (λ case. is_named party.now reference.now case ≡ true)) }
{
    match found {
        Ok(case) => if_named(case, party, reference),
        Err(refusal) => Err(refusal),
    }
}

fn if_queued(case: Option<Case>) -> Result<Option<Case>, Refusal>
    ensures { IfOk result (λ found. IfSome found (λ case. is_queued case ≡ true)) }
{
    match case {
        None => Ok(None),
        Some(case) => {
            if case.is_queued() {
                Ok(Some(case))
            } else {
                Err(Refusal::Inconsistent)
            }
        }
    }
}

/// What was found, where it has no entry; a database that gives another case refuses.
pub fn queued(found: Result<Option<Case>, Refusal>) -> Result<Option<Case>, Refusal>
    ensures { IfOk result (λ found. IfSome found (λ case. is_queued case ≡ true)) }
{
    match found {
        Ok(case) => if_queued(case),
        Err(refusal) => Err(refusal),
    }
}

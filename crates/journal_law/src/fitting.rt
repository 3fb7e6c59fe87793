//! Whether a change fits, by the case of which it speaks.
ghost use Rattle.std.specs.Prelude.{◌≡◌};
ghost use Rattle.std.specs.Option.{option_copied};
ghost use Rattle.journal_law.specs.Reading.{is_unappealed, fits_none, fits_case, fits_found};

use case_rules::{Case, Change, Entry};

fn is_unappealed(entry: Option<&Entry>) -> bool
    ensures { result ≡ is_unappealed (option_copied entry.entry) }
{
    match entry {
        None => false,
        Some(entry) => entry.appeal.is_none(),
    }
}

fn fits_none(change: &Change) -> bool
    ensures { result ≡ fits_none change.now }
{
    match change {
        Change::Add(case) => case.is_queued(),
        Change::Decide(_, _, _) => false,
        Change::Appeal(_, _, _) => false,
        Change::Rule(_, _, _) => false,
    }
}

fn fits_case(change: &Change, case: &Case) -> bool
    ensures { result ≡ fits_case change.now case.now }
{
    match change {
        Change::Add(_) => false,
        Change::Decide(_, _, decision) => {
            !case.has_edition(&decision.lists) && !case.has_open_appeal()
        }
        Change::Appeal(_, _, _) => is_unappealed(case.last_entry()),
        Change::Rule(_, _, _) => case.has_open_appeal(),
    }
}

/// Whether a change fits, where this is what was found of the case of which it speaks.
pub fn fits_found(change: &Change, found: &Option<Case>) -> bool
    ensures { result ≡ fits_found change.now found.now }
{
    match found {
        None => fits_none(change),
        Some(case) => fits_case(change, case),
    }
}

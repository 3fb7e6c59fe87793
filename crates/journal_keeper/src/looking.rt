//! Look-ups of an open journal: the keeper in memory answers.
ghost use Rattle.std.specs.Prelude.{◌≡◌, [], true, Err, find, IfOk, IfSome, OnErr};
ghost use Rattle.case_rules.specs.Cases.{is_named, is_queued, queued_of, own_lines, open_lines};
ghost use Rattle.case_keeper.specs.Keeper.{history_of};
ghost use Rattle.journal_reading.specs.Keeping.{IsReady};
ghost use Rattle.journal_keeper.specs.Adding.{HasTheSame, HoldsTheSame};

use case_keeper::{KeepFault, Keeper};
use case_rules::{Case, Entry, Line};
use journal_reading::Opened;
use std::alloc::Global;
use vet_base::{Name, Shared};

fn found_in(
    alloc: Global,
    opened: &mut Opened,
    party: &Name,
    reference: &Name,
) -> Result<Option<Case>, KeepFault>
    requires { opened.old.held.failing ≡ [] }
    ensures answer { IfOk result (λ case. case ≡ find (is_named party.now reference.now) opened.old.held.cases) }
    ensures same { HasTheSame opened.old opened.new }
    ensures memory { OnErr result (result ≡ Err KeepFault.Memory) }
{
    opened.held.find(alloc, party, reference)
}

/// The case of this developer and reference.
pub(crate) fn found(
    alloc: Global,
    opened: &mut Option<Opened>,
    party: &Name,
    reference: &Name,
) -> Result<Option<Case>, KeepFault>
    requires ready { IsReady opened.old }
    requires unfailing { IfSome opened.old (λ o. o.held.failing ≡ []) }
    ensures answer { IfSome opened.old (λ o.
        IfOk result (λ case. case ≡ find (is_named party.now reference.now) o.held.cases)) }
    ensures same { HoldsTheSame opened.old opened.new }
    ensures memory { OnErr result (result ≡ Err KeepFault.Memory) }
{
    let Some(journal) = opened else {
        return Err(KeepFault::Memory);
    };
    found_in(alloc, journal, party, reference)
}

fn history_in(
    alloc: Global,
    opened: &mut Opened,
    party: &Name,
    reference: &Name,
) -> Result<Option<Shared<Entry>>, KeepFault>
    requires { opened.old.held.failing ≡ [] }
    ensures answer { IfOk result (λ entries. entries ≡ history_of party.now reference.now opened.old.held.cases) }
    ensures same { HasTheSame opened.old opened.new }
    ensures memory { OnErr result (result ≡ Err KeepFault.Memory) }
{
    opened.held.history(alloc, party, reference)
}

/// The entries of the case of this developer and reference.
pub(crate) fn history(
    alloc: Global,
    opened: &mut Option<Opened>,
    party: &Name,
    reference: &Name,
) -> Result<Option<Shared<Entry>>, KeepFault>
    requires ready { IsReady opened.old }
    requires unfailing { IfSome opened.old (λ o. o.held.failing ≡ []) }
    ensures answer { IfSome opened.old (λ o.
        IfOk result (λ entries. entries ≡ history_of party.now reference.now o.held.cases)) }
    ensures same { HoldsTheSame opened.old opened.new }
    ensures memory { OnErr result (result ≡ Err KeepFault.Memory) }
{
    let Some(journal) = opened else {
        return Err(KeepFault::Memory);
    };
    history_in(alloc, journal, party, reference)
}

fn first_queued_in(alloc: Global, opened: &mut Opened) -> Result<Option<Case>, KeepFault>
    requires { opened.old.held.failing ≡ [] }
    ensures answer { IfOk result (λ case. case ≡ find is_queued opened.old.held.cases) }
    ensures queued { IfOk result (λ found. IfSome found (λ case. is_queued case ≡ true)) }
    ensures same { HasTheSame opened.old opened.new }
    ensures memory { OnErr result (result ≡ Err KeepFault.Memory) }
{
    opened.held.first_queued(alloc)
}

/// The first case without an entry.
pub(crate) fn first_queued(
    alloc: Global,
    opened: &mut Option<Opened>,
) -> Result<Option<Case>, KeepFault>
    requires ready { IsReady opened.old }
    requires unfailing { IfSome opened.old (λ o. o.held.failing ≡ []) }
    ensures answer { IfSome opened.old (λ o. IfOk result (λ case. case ≡ find is_queued o.held.cases)) }
    ensures queued { IfOk result (λ found. IfSome found (λ case. is_queued case ≡ true)) }
    ensures same { HoldsTheSame opened.old opened.new }
    ensures memory { OnErr result (result ≡ Err KeepFault.Memory) }
{
    let Some(journal) = opened else {
        return Err(KeepFault::Memory);
    };
    first_queued_in(alloc, journal)
}

fn queued_in(alloc: Global, opened: &mut Opened, party: &Name) -> Result<u64, KeepFault>
    requires { opened.old.held.failing ≡ [] }
    ensures answer { IfOk result (λ n. n ≡ queued_of party.now opened.old.held.cases) }
    ensures same { HasTheSame opened.old opened.new }
    ensures memory { OnErr result (result ≡ Err KeepFault.Memory) }
{
    opened.held.queued(alloc, party)
}

/// How many cases of the developer have no entry.
pub(crate) fn queued(
    alloc: Global,
    opened: &mut Option<Opened>,
    party: &Name,
) -> Result<u64, KeepFault>
    requires ready { IsReady opened.old }
    requires unfailing { IfSome opened.old (λ o. o.held.failing ≡ []) }
    ensures answer { IfSome opened.old (λ o. IfOk result (λ n. n ≡ queued_of party.now o.held.cases)) }
    ensures same { HoldsTheSame opened.old opened.new }
    ensures memory { OnErr result (result ≡ Err KeepFault.Memory) }
{
    let Some(journal) = opened else {
        return Err(KeepFault::Memory);
    };
    queued_in(alloc, journal, party)
}

fn listed_in(alloc: Global, opened: &mut Opened, party: &Name) -> Result<Shared<Line>, KeepFault>
    requires { opened.old.held.failing ≡ [] }
    ensures answer { IfOk result (λ lines. lines ≡ own_lines party.now opened.old.held.cases) }
    ensures same { HasTheSame opened.old opened.new }
    ensures memory { OnErr result (result ≡ Err KeepFault.Memory) }
{
    opened.held.list(alloc, party)
}

/// The cases of the developer, by reference.
pub(crate) fn listed(
    alloc: Global,
    opened: &mut Option<Opened>,
    party: &Name,
) -> Result<Shared<Line>, KeepFault>
    requires ready { IsReady opened.old }
    requires unfailing { IfSome opened.old (λ o. o.held.failing ≡ []) }
    ensures answer { IfSome opened.old (λ o. IfOk result (λ lines. lines ≡ own_lines party.now o.held.cases)) }
    ensures same { HoldsTheSame opened.old opened.new }
    ensures memory { OnErr result (result ≡ Err KeepFault.Memory) }
{
    let Some(journal) = opened else {
        return Err(KeepFault::Memory);
    };
    listed_in(alloc, journal, party)
}

fn appealed_in(alloc: Global, opened: &mut Opened) -> Result<Shared<Line>, KeepFault>
    requires { opened.old.held.failing ≡ [] }
    ensures answer { IfOk result (λ lines. lines ≡ open_lines opened.old.held.cases) }
    ensures same { HasTheSame opened.old opened.new }
    ensures memory { OnErr result (result ≡ Err KeepFault.Memory) }
{
    opened.held.appeals(alloc)
}

/// The cases whose last entry has an appeal and no ruling.
pub(crate) fn appealed(
    alloc: Global,
    opened: &mut Option<Opened>,
) -> Result<Shared<Line>, KeepFault>
    requires ready { IsReady opened.old }
    requires unfailing { IfSome opened.old (λ o. o.held.failing ≡ []) }
    ensures answer { IfSome opened.old (λ o. IfOk result (λ lines. lines ≡ open_lines o.held.cases)) }
    ensures same { HoldsTheSame opened.old opened.new }
    ensures memory { OnErr result (result ≡ Err KeepFault.Memory) }
{
    let Some(journal) = opened else {
        return Err(KeepFault::Memory);
    };
    appealed_in(alloc, journal)
}

ghost use Rattle.std.specs.Prelude.{◌≡◌, List, Some, None, IfOk, find};
ghost use Rattle.std.specs.Option.{option_map};
ghost use Rattle.case_rules.specs.Cases.{is_named};
ghost use Rattle.case_rules.specs.Rules.{Session};
ghost use Rattle.case_rules.specs.Docket.{ShowsQueued};
ghost use Rattle.case_keeper.specs.Keeper.{KeepCause};
ghost use Rattle.case_keeper.specs.Viewing.{ShowsFor, bare, without_content};

use crate::{KeepFault, Keeper};
use case_rules::{Case, Command, Content, Entry, Line, View};
use std::alloc::Global;
use store_office::{Party, Role};
use vet_base::{Memory, Name, Shared};

fn of_case(found: Option<Case>, queued: u64) -> View
    ensures found { result.found ≡ found }
    ensures queued { result.queued ≡ queued }
    ensures no_first { result.first ≡ None }
{
    View {
        found,
        first: None,
        queued,
        lines: Shared::new(),
    }
}

fn of_first(first: Option<Case>) -> View
    ensures { result.first ≡ first }
{
    View {
        found: None,
        first,
        queued: 0,
        lines: Shared::new(),
    }
}

fn of_lines(lines: Shared<Line>) -> View
    ensures lines { result.lines ≡ lines }
    ensures no_first { result.first ≡ None }
{
    View {
        found: None,
        first: None,
        queued: 0,
        lines,
    }
}

fn bare(party: &Name, reference: &Name, entries: Shared<Entry>) -> Result<Case, Memory>
    ensures { IfOk result (λ case. case ≡ bare party.now reference.now entries) }
{
    let party = party.copy()?;
    let reference = reference.copy()?;
    let content = Content {
        manifest: Shared::new(),
        layouts: Shared::new(),
        declaration: Shared::new(),
        dex: Shared::new(),
    };
    Ok(Case {
        party,
        reference,
        content,
        entries,
    })
}

/// The case of this name, where it has a history.
fn if_bare(
    party: &Name,
    reference: &Name,
    history: Option<Shared<Entry>>,
) -> Result<Option<Case>, Memory>
    ensures { IfOk result (λ found. found ≡ option_map (bare party.now reference.now) history) }
{
    match history {
        None => Ok(None),
        Some(entries) => Ok(Some(bare(party, reference, entries)?)),
    }
}

/// The case of this developer and reference, without its content.
fn found_bare<K: Keeper>(
    alloc: Global,
    keeper: &mut K,
    party: &Name,
    reference: &Name,
) -> Result<Option<Case>, KeepFault>
    ensures answer { (cases : List Case) → K.told keeper.old ≡ Some cases → IfOk result (λ found. found
        ≡ option_map without_content (find (is_named party.now reference.now) cases)) }
    ensures told { K.told keeper.new ≡ K.told keeper.old }
    ensures cause { KeepCause (K.fault_count keeper.old) (K.fault_count keeper.new) result }
{
    let history = keeper.history(alloc, party, reference)?;
    Ok(if_bare(party, reference, history)?)
}

/// What the cases of a keeper show for a command of the party, as far as the command needs it: content is asked for
/// where a submission is compared with it, and where a case is to be judged.
pub fn view_for<K: Keeper>(
    alloc: Global,
    keeper: &mut K,
    party: &Party,
    command: &Command,
) -> Result<View, KeepFault>
    ensures shows { (session : Session) (cases : List Case) → session.party ≡ party.now → K.told keeper.old ≡ Some cases
        → IfOk result (λ view. ShowsFor session command.now view cases) }
    ensures queued { IfOk result ShowsQueued }
    ensures told { K.told keeper.new ≡ K.told keeper.old }
    ensures cause { KeepCause (K.fault_count keeper.old) (K.fault_count keeper.new) result }
{
    match command {
        Command::Submit(reference, _) => {
            let found = keeper.find(alloc, &party.name, reference)?;
            Ok(of_case(found, keeper.queued(alloc, &party.name)?))
        }
        Command::Decide => Ok(of_first(keeper.first_queued(alloc)?)),
        Command::Show(reference) => Ok(of_case(
            found_bare(alloc, keeper, &party.name, reference)?,
            0,
        )),
        Command::Report(reference) => Ok(of_case(
            found_bare(alloc, keeper, &party.name, reference)?,
            0,
        )),
        Command::Appeal(reference, _) => {
            Ok(of_case(found_bare(alloc, keeper, &party.name, reference)?, 0))
        }
        Command::Review(developer, reference) => {
            Ok(of_case(keeper.find(alloc, developer, reference)?, 0))
        }
        Command::Rule(developer, reference, _) => {
            Ok(of_case(found_bare(alloc, keeper, developer, reference)?, 0))
        }
        Command::List => match party.role {
            Role::Developer => Ok(of_lines(keeper.list(alloc, &party.name)?)),
            Role::Reviewer => Ok(of_lines(keeper.appeals(alloc)?)),
        },
    }
}

//! A worked case as four changes: the app of the developer `ann` is handed in, decided, appealed against and ruled on.
ghost use Rattle.std.specs.Prelude.{◌≡◌, None, IfOk};
ghost use Rattle.journal_keeper.specs.State.{told_cases};

use crate::quiet::Quiet;
use case_keeper::{KeepFault, Keeper};
use case_rules::{
    Appeal, Case, Change, Content, Decision, Line, OutcomeWord, Ruling, RulingWord, State,
};
use journal_keeper::JournalKeeper;
use std::alloc::Global;
use vet_base::{Memory, Name, Shared};

fn name(alloc: Global, text: &str) -> Result<Name, Memory> {
    Name::from_bytes(alloc, text.as_bytes())
}

fn bytes(alloc: Global, text: &str) -> Result<Shared<u8>, Memory> {
    let text = text.as_bytes().to_vec(alloc)?;
    Shared::from_vec(alloc, text)
}

fn content(alloc: Global) -> Result<Content, Memory> {
    let mut dex = Vec::new(alloc);
    dex.push(bytes(alloc, "dex\n035")?)?;
    Ok(Content {
        manifest: bytes(alloc, "m")?,
        layouts: Shared::new(),
        declaration: bytes(alloc, "declared = 1")?,
        dex: Shared::from_vec(alloc, dex)?,
    })
}

fn added(alloc: Global) -> Result<Change, Memory> {
    Ok(Change::Add(Case {
        party: name(alloc, "ann")?,
        reference: name(alloc, "r1")?,
        content: content(alloc)?,
        entries: Shared::new(),
    }))
}

fn decided(alloc: Global) -> Result<Change, Memory> {
    let decision = Decision {
        outcome: OutcomeWord::Flagged,
        report: bytes(alloc, "flagged\n")?,
        lists: [7; 32],
        reviewer: name(alloc, "rex")?,
        day: 20_000,
    };
    Ok(Change::Decide(name(alloc, "ann")?, name(alloc, "r1")?, decision))
}

fn appealed(alloc: Global) -> Result<Change, Memory> {
    let appeal = Appeal {
        day: 20_001,
        text: bytes(alloc, "no")?,
    };
    Ok(Change::Appeal(name(alloc, "ann")?, name(alloc, "r1")?, appeal))
}

fn ruled(alloc: Global) -> Result<Change, Memory> {
    let ruling = Ruling {
        reviewer: name(alloc, "tia")?,
        day: 20_002,
        word: RulingWord::Uphold,
    };
    Ok(Change::Rule(name(alloc, "ann")?, name(alloc, "r1")?, ruling))
}

/// How many changes the worked case has.
pub(crate) const CHANGES: u8 = 4;

/// The change that comes behind so many others.
pub(crate) fn change_behind(alloc: Global, count: u8) -> Result<Change, Memory> {
    match count {
        0 => added(alloc),
        1 => decided(alloc),
        2 => appealed(alloc),
        _ => ruled(alloc),
    }
}

/// How many of the changes the lines show.
fn changes_in(lines: &[Line]) -> u8 {
    let [line] = lines else {
        return 0;
    };
    match line.state {
        State::Queued => 1,
        State::Decided => 2,
        State::Appealed => 3,
        State::Ruled => 4,
    }
}

/// How many of the changes a journal shows.
pub(crate) fn changes_shown<K: Keeper>(alloc: Global, keeper: &mut K) -> Result<u8, KeepFault>
    ensures { K.told keeper.new ≡ K.told keeper.old }
{
    let ann = name(alloc, "ann")?;
    let lines = keeper.list(alloc, &ann)?;
    Ok(changes_in(lines.as_slice()))
}

/// A keeper over a journal of these bytes whose disk fails at the calls of these numbers.
pub(crate) fn keeper_of(
    alloc: Global,
    bytes: &[u8],
    failing: &[u64],
) -> Result<JournalKeeper<Quiet>, KeepFault>
    ensures { IfOk result (λ k. told_cases k ≡ None) }
{
    match Quiet::new(alloc, bytes, failing) {
        Ok(disk) => Ok(JournalKeeper::new(disk)),
        Err(_) => Err(KeepFault::Memory),
    }
}

/// Adds the change that comes behind so many others.
#[tactic(auto, using(crate::proofs::Telling::none_fits, crate::proofs::Telling::none_after))]
pub(crate) fn add_behind<K: Keeper>(
    alloc: Global,
    keeper: &mut K,
    count: u8,
) -> Result<(), KeepFault>
    requires { K.told keeper.old ≡ None }
    ensures { K.told keeper.new ≡ None }
{
    let change = change_behind(alloc, count)?;
    keeper.apply(alloc, &change)
}

/// Opens the journal and adds the first changes to it, so many.
fn add_first<K: Keeper>(alloc: Global, keeper: &mut K, count: u8) -> Result<(), KeepFault>
    requires { K.told keeper.old ≡ None }
    ensures { K.told keeper.new ≡ None }
{
    changes_shown(alloc, keeper)?;
    for done in 0..count {
        add_behind(alloc, keeper, done)?;
    }
    Ok(())
}

/// The disk of a journal that was opened, and to which the first changes were added, so many.
pub(crate) fn disk_behind(alloc: Global, count: u8) -> Result<Quiet, KeepFault> {
    let mut keeper = keeper_of(alloc, &[], &[])?;
    let added = add_first(alloc, &mut keeper, count);
    let disk = keeper.give_back();
    match added {
        Ok(()) => Ok(disk),
        Err(fault) => Err(fault),
    }
}

/// How many of the changes a journal of these bytes shows.
pub(crate) fn shown_by(alloc: Global, bytes: &[u8]) -> Result<u8, KeepFault> {
    let mut keeper = keeper_of(alloc, bytes, &[])?;
    changes_shown(alloc, &mut keeper)
}

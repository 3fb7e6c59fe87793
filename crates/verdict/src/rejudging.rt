//! What the bytes of all parts of an app come to by rows that anyone made.

ghost use Rattle.std.specs.Prelude.{◌≡◌, ◌⊎◌, ◌↔◌, IfOk, IfErr, IsErr, IsTrue};
ghost use Rattle.app_flow.specs.Defect.{IsChecked};
ghost use Rattle.app_machine.specs.Sound.{SoundApp};
ghost use Rattle.app_machine.specs.SoundLists.{SoundLists};
ghost use Rattle.verdict.specs.Halts.{Halts};
ghost use Rattle.verdict.specs.Linked.{causes_beside};
ghost use Rattle.verdict.specs.OneVerdict.{RefusesOnly};
ghost use Rattle.verdict.specs.Recheck.{IsAsked, OnlyRejudgement, RechecksTo, Rejudgement, TellsAllBy, TellsBy};
ghost use Rattle.verdict.specs.Verdict.{IsSafeApp};

use crate::judging::outcome_of_rows;
use crate::laws::lower_laws;
use crate::linking::{Linked, give_back, linked_parts};
use crate::papers::Halt;
use crate::{Outcome, Parts, Rechecked};
use app_flow::{Analysis, TableDefect, defect_of, one_defect};
use fact_rows::Row;
use flow_analyses::each_good_table_covers_every_run;
use office_forms::Large;
use outcomes::nothing_is_left_out;
use std::alloc::Global;
use vet_base::{Memory, Stop};

/// Whether the lists ask for the analysis: for the first always, for the second where they have its word.
fn is_asked(analysis: Analysis, large: Option<Large>) -> bool
    ensures { IsTrue result ↔ IsAsked analysis large }
{
    match analysis {
        Analysis::Paths => true,
        Analysis::Cells => match large {
            Some(Large::Cells) => true,
            None => false,
        },
    }
}

/// What an app comes to by rows of an analysis for which the lists ask, of which the checker has said this.
fn rechecked_by(
    alloc: Global,
    linked: &Linked,
    analysis: Analysis,
    rows: &[Row],
    found: Option<TableDefect>,
) -> Result<Rechecked, Memory>
    requires sound { SoundApp linked.now.app }
    requires asked { IsAsked analysis linked.now.papers.large }
    requires found { IsChecked analysis linked.now.app linked.now.papers.lists rows.now found }
    ensures { IfOk result (λ r. RechecksTo linked.now.app linked.now.papers.lists linked.now.papers.large
        linked.now.papers.declaration (causes_beside linked.now) analysis rows.now r) }
{
    match found {
        Some(defect) => Ok(Rechecked::Defect(defect)),
        None => {
            let outcome = outcome_of_rows(alloc, linked, rows)?;
            Ok(Rechecked::By(outcome))
        }
    }
}

/// What an app comes to by rows of an analysis for which the lists ask.
fn rechecked_app(
    alloc: Global,
    linked: &Linked,
    analysis: Analysis,
    rows: &[Row],
    seed: u64,
) -> Result<Rechecked, Memory>
    requires sound { SoundApp linked.now.app }
    requires lists { SoundLists linked.now.papers.lists }
    requires asked { IsAsked analysis linked.now.papers.large }
    ensures { IfOk result (λ r. RechecksTo linked.now.app linked.now.papers.lists linked.now.papers.large
        linked.now.papers.declaration (causes_beside linked.now) analysis rows.now r) }
{
    let lists = linked.papers.lists.get();
    let found = defect_of(alloc, analysis, &linked.app, lists, rows, seed)?;
    rechecked_by(alloc, linked, analysis, rows, found)
}

/// What an app comes to by rows.
fn asked_app(
    alloc: Global,
    linked: &Linked,
    analysis: Analysis,
    rows: &[Row],
    seed: u64,
) -> Result<Rechecked, Memory>
    requires sound { SoundApp linked.now.app }
    requires lists { SoundLists linked.now.papers.lists }
    ensures { IfOk result (λ r. RechecksTo linked.now.app linked.now.papers.lists linked.now.papers.large
        linked.now.papers.declaration (causes_beside linked.now) analysis rows.now r) }
{
    if is_asked(analysis, linked.papers.large) {
        rechecked_app(alloc, linked, analysis, rows, seed)
    } else {
        Ok(Rechecked::Unasked)
    }
}

/// The same, and that it tells of every run.
#[tactic(auto, using(crate::proofs::Rechecks::recheck_tells))]
fn rejudged_app(
    alloc: Global,
    linked: &Linked,
    analysis: Analysis,
    rows: &[Row],
    seed: u64,
) -> Result<Rechecked, Memory>
    requires sound { SoundApp linked.now.app }
    requires lists { SoundLists linked.now.papers.lists }
    ensures value { IfOk result (λ r. RechecksTo linked.now.app linked.now.papers.lists linked.now.papers.large
        linked.now.papers.declaration (causes_beside linked.now) analysis rows.now r) }
    ensures told { IfOk result (λ r. TellsAllBy linked.now.app linked.now.papers.lists
        linked.now.papers.declaration r) }
{
    nothing_is_left_out();
    each_good_table_covers_every_run();
    let rechecked = asked_app(alloc, linked, analysis, rows, seed)?;
    Ok(rechecked)
}

/// The same of an app that nothing else is asked about.
fn rejudged_once(
    alloc: Global,
    linked: Linked,
    analysis: Analysis,
    rows: &[Row],
    seed: u64,
) -> Result<Rechecked, Memory>
    requires sound { SoundApp linked.app }
    requires lists { SoundLists linked.papers.lists }
    ensures value { IfOk result (λ r. RechecksTo linked.app linked.papers.lists linked.papers.large
        linked.papers.declaration (causes_beside linked) analysis rows.now r) }
    ensures told { IfOk result (λ r. TellsAllBy linked.app linked.papers.lists linked.papers.declaration r) }
{
    let rechecked = rejudged_app(alloc, &linked, analysis, rows, seed);
    give_back(linked);
    rechecked
}

#[tactic(auto, using(crate::proofs::Rechecks::rejudgement_on, crate::proofs::Rechecks::tells_by_parts))]
fn rejudged_parts(
    alloc: Global,
    parts: &Parts,
    analysis: Analysis,
    rows: &[Row],
    seed: u64,
) -> Result<Rechecked, Halt>
    ensures value { IfOk result (λ r. Rejudgement parts.now analysis rows.now r) }
    ensures one { IfOk result (λ r. OnlyRejudgement parts.now analysis rows.now r) }
    ensures told { IfOk result (λ r. TellsBy parts.now r) }
    ensures err { IfErr result (λ h. Halts (RefusesOnly parts.now) h) }
{
    lower_laws();
    one_defect();
    let linked = linked_parts(alloc, parts)?;
    Ok(rejudged_once(alloc, linked, analysis, rows, seed)?)
}

/// What the parts of an app come to by rows of an analysis that anyone made, as those of a certificate.
///
/// Refused with the first fault, as `judge` refuses, whatever the rows are. Else, where the lists do not ask for the
/// analysis, that is told: they ask for the second only by their word. Else the rows are checked by it, and where they
/// are no good table of the app, that is told: the least row that names what app and lists do not have; or else the
/// least start row that is not among them; or else the least row that follows from them and is not among them. Else the
/// outcome is that of the causes and findings which these rows tell, in the order that `judge` has. A good table may
/// have more rows than follow, so there may be more of both than `judge` finds, and never less; where the outcome is
/// clear, no run of the app brings a value of a source to a sink unless the declaration names the pair.
///
/// The number of rows has no limit here: it is never told that an app is too large. The order of the rows, and how
/// often a row stands among them, makes no difference; nor does the seed, which says where rows are stored meanwhile.
#[tactic(auto, using(crate::proofs::Rechecks::refused_anyway, crate::proofs::Rechecks::only_refused, crate::proofs::Rechecks::clear_by_is_safe))]
pub fn judge_table(
    alloc: Global,
    parts: &Parts,
    analysis: Analysis,
    rows: &[Row],
    seed: u64,
) -> Result<Rechecked, Memory>
    ensures value { IfOk result (λ r. Rejudgement parts.now analysis rows.now r) }

    // The parts come to nothing else by these rows.
    ensures one { (r : Rechecked) → Rejudgement parts.now analysis rows.now r → (result ≡ Ok r) ⊎ IsErr result }

    // An outcome by good rows leaves out nothing that a run does.
    ensures told { IfOk result (λ r. TellsBy parts.now r) }
    ensures safe { IfOk result (λ r. r ≡ Rechecked.By Outcome.Clear → IsSafeApp parts.now) }
{
    lower_laws();
    match rejudged_parts(alloc, parts, analysis, rows, seed) {
        Ok(rechecked) => Ok(rechecked),
        Err(Stop::Memory) => Err(Memory),
        Err(Stop::Fault(refusal)) => Ok(Rechecked::Refused(refusal.part, refusal.reason)),
    }
}

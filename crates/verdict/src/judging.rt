//! What the bytes of all parts of an app come to.

ghost use Rattle.std.specs.Prelude.{◌≡◌, ◌⊎◌, ◌++◌, IfOk, IfErr, IfNone, IfSome, IsErr, IsTrue, List};
ghost use Rattle.app_machine.specs.SoundLists.{SoundLists};
ghost use Rattle.app_machine.specs.Sound.{SoundApp};
ghost use Rattle.app_flow.specs.Flow.{IsFlow, IsGoodFlow};
ghost use Rattle.app_flow.specs.declared.flow_rows.FlowTable.{FlowTable as TableOf};
ghost use Rattle.flow_analyses.specs.Analyses.{GoodTableBy};
ghost use Rattle.flow_telling.specs.Told.{told_of, TellsNothing};
ghost use Rattle.outcomes.specs.Causes.{causes_of};
ghost use Rattle.outcomes.specs.Findings.{findings_of};
ghost use Rattle.outcomes.specs.Within.{AreWithin};
ghost use Rattle.verdict.specs.Halts.{Halts};
ghost use Rattle.verdict.specs.Linked.{causes_beside};
ghost use Rattle.verdict.specs.OneVerdict.{OnlyJudgement, RefusesOnly};
ghost use Rattle.verdict.specs.Outcome.{outcome_of};
ghost use Rattle.verdict.specs.Table.{IsTable};
ghost use Rattle.verdict.specs.Tells.{IsFollowed, TellsAll, TellsOfApp};
ghost use Rattle.verdict.specs.Verdict.{ComesTo, Judgement, IsSafeApp, judged_by};

use crate::laws::lower_laws;
use crate::linking::{Linked, give_back, linked_parts};
use crate::papers::Halt;
use crate::{Cause, Judged, Outcome, Parts};
use app_flow::{Flow, FlowTable, flow_of};
use device_causes::device_causes;
use fact_rows::Row;
use flow_analyses::each_good_table_covers_every_run;
use flow_telling::{Told, told_by_flow, told_by_rows};
use outcomes::{causes_too_large, nothing_is_left_out};
use std::alloc::Global;
use std::marker::Sync;
use std::sync::Wait;
use std::thread::Threads;
use vet_base::{Memory, Seq, Stop};
use worker_pool::{Crew, Lookout};

fn outcome_with(told: Told) -> Outcome
    ensures { result ≡ outcome_of told.causes told.findings }
{
    let Told { causes, findings } = told;
    if !causes.is_empty() {
        Outcome::Undecided(causes, findings)
    } else if !findings.is_empty() {
        Outcome::Flagged(findings)
    } else {
        Outcome::Clear
    }
}

/// Why a device may do more than the machine.
fn causes_beside(alloc: Global, linked: &Linked) -> Result<Vec<Cause>, Memory>
    requires { SoundApp linked.now.app }
    ensures { IfOk result (λ v. v.items ≡ causes_beside linked.now) }
{
    let papers = &linked.papers;
    device_causes(
        alloc,
        &linked.app,
        &linked.access,
        papers.lists.get(),
        papers.device.get(),
        papers.named.get().as_slice(),
    )
}

/// What an app comes to by rows.
pub fn outcome_of_rows(alloc: Global, linked: &Linked, rows: &[Row]) -> Result<Outcome, Memory>
    requires sound { SoundApp linked.now.app }
    requires within { AreWithin linked.now.app rows.now }
    ensures { IfOk result (λ o. o ≡ outcome_of (causes_of linked.now.app rows.now ++ causes_beside linked.now)
        (findings_of linked.now.app linked.now.papers.lists linked.now.papers.declaration rows.now)) }
{
    let papers = &linked.papers;
    let beside = causes_beside(alloc, linked)?;
    let told = told_by_rows(
        alloc,
        &linked.app,
        papers.lists.get(),
        &papers.declaration,
        beside,
        rows,
    )?;
    Ok(outcome_with(told))
}

/// What the table of a flow tells of an app. None only where the checker refuses the rows.
fn told_in<T: Threads + Sync, L>(
    alloc: Global,
    linked: &Linked,
    table: &FlowTable,
    crew: &Crew<'_, T, L>,
) -> Result<Option<Told>, Memory>
    requires sound { SoundApp linked.now.app }
    requires lists { SoundLists linked.now.papers.lists }
    requires within { AreWithin linked.now.app table.now.rows }
    ensures some { IfOk result (λ found. IfSome found (λ t. t ≡ told_of linked.now.app linked.now.papers.lists
        linked.now.papers.declaration (causes_beside linked.now) table.now.rows)) }
    ensures nothing { IfOk result (λ found. IfSome found (λ t. TellsNothing t → GoodTableBy table.now.analysis
        linked.now.app linked.now.papers.lists table.now.rows)) }
    ensures none { IfOk result (λ found. IfNone found (GoodTableBy table.now.analysis linked.now.app
        linked.now.papers.lists table.now.rows → ⊥)) }
{
    let papers = &linked.papers;
    let beside = causes_beside(alloc, linked)?;
    told_by_flow(
        alloc,
        &linked.app,
        papers.lists.get(),
        &papers.declaration,
        beside,
        table,
        crew,
    )
}

/// What an app comes to by the table of its flow; so where that is clear, it is so by the checker's word. None only where
/// the checker refuses the rows.
#[tactic(auto, using(crate::proofs::Outcomes::judged_as_told, crate::proofs::Outcomes::nothing_where_clear))]
fn judged_by_table<T: Threads + Sync, L>(
    alloc: Global,
    linked: &Linked,
    table: FlowTable,
    crew: &Crew<'_, T, L>,
) -> Result<Option<Judged>, Memory>
    requires sound { SoundApp linked.now.app }
    requires lists { SoundLists linked.now.papers.lists }
    requires within { AreWithin linked.now.app table.rows }
    ensures some { IfOk result (λ found. IfSome found (λ j. j ≡ judged_by linked.now.app linked.now.papers.lists
        linked.now.papers.declaration (causes_beside linked.now) (Flow.Rows table))) }
    ensures clear { IfOk result (λ found. IfSome found (λ j. j.outcome ≡ Outcome.Clear → GoodTableBy table.analysis
        linked.now.app linked.now.papers.lists table.rows)) }
    ensures none { IfOk result (λ found. IfNone found (GoodTableBy table.analysis linked.now.app
        linked.now.papers.lists table.rows → ⊥)) }
{
    match told_in(alloc, linked, &table, crew)? {
        Some(told) => Ok(Some(Judged {
            outcome: outcome_with(told),
            table: Some(table),
        })),
        None => Ok(None),
    }
}

/// What an app comes to from which more rows than the limit follow.
fn judged_too_large(alloc: Global, linked: &Linked, limit: u32) -> Result<Judged, Memory>
    requires { SoundApp linked.now.app }
    ensures { IfOk result (λ j. j ≡ judged_by linked.now.app linked.now.papers.lists linked.now.papers.declaration
        (causes_beside linked.now) (Flow.TooLarge limit)) }
{
    let mut causes = causes_too_large(alloc, &linked.app, limit)?;
    let mut beside = causes_beside(alloc, linked)?;
    causes.append(&mut beside)?;
    let findings = Vec::new(alloc);
    Ok(Judged {
        outcome: Outcome::Undecided(Seq::from_vec(causes), Seq::from_vec(findings)),
        table: None,
    })
}

/// What an app comes to by its flow: as its rows say, or that they
/// are too many. None only where the checker refuses the rows.
#[tactic(auto, using(crate::proofs::Outcomes::too_large_is_good))]
fn judged_by<T: Threads + Sync, L>(
    alloc: Global,
    linked: &Linked,
    flow: Flow,
    crew: &Crew<'_, T, L>,
) -> Result<Option<Judged>, Memory>
    requires sound { SoundApp linked.now.app }
    requires lists { SoundLists linked.now.papers.lists }
    requires within { (table : TableOf) → flow ≡ Flow.Rows table → AreWithin linked.now.app table.rows }
    ensures some { IfOk result (λ found. IfSome found (λ j. j ≡ judged_by linked.now.app linked.now.papers.lists
        linked.now.papers.declaration (causes_beside linked.now) flow)) }
    ensures clear { IfOk result (λ found. IfSome found (λ j. j.outcome ≡ Outcome.Clear → IsGoodFlow linked.now.app
        linked.now.papers.lists flow)) }
    ensures none { IfOk result (λ found. IfNone found (IsGoodFlow linked.now.app linked.now.papers.lists flow → ⊥)) }
{
    match flow {
        Flow::Rows(table) => judged_by_table(alloc, linked, table, crew),
        Flow::TooLarge(limit) => {
            let judged = judged_too_large(alloc, linked, limit)?;
            Ok(Some(judged))
        }
    }
}

/// The flow of a linked app.
fn flow_in<T: Threads + Wait + Sync, L: Lookout>(
    alloc: Global,
    linked: &Linked,
    crew: &Crew<'_, T, L>,
) -> Result<Flow, Memory>
    requires sound { SoundApp linked.now.app }
    requires lists { SoundLists linked.now.papers.lists }
    ensures flow { IfOk result (λ flow. IsFlow linked.now.app linked.now.papers.lists linked.now.papers.large flow) }
    ensures good { IfOk result (λ flow. IsGoodFlow linked.now.app linked.now.papers.lists flow) }
{
    let papers = &linked.papers;
    flow_of(alloc, &linked.app, papers.lists.get(), papers.large, crew)
}

/// What a linked app comes to, as `judge` says of its parts: the app, the lists and the declaration are those that
/// `linked_parts` gave, so nothing is linked a second time.
pub fn judge_linked<T: Threads + Wait + Sync, L: Lookout>(
    alloc: Global,
    linked: &Linked,
    crew: &Crew<'_, T, L>,
) -> Result<Judged, Memory>
    requires sound { SoundApp linked.now.app }
    requires lists { SoundLists linked.now.papers.lists }
    ensures value { IfOk result (λ j. ComesTo linked.now.app linked.now.papers.lists linked.now.papers.large
        linked.now.papers.declaration (causes_beside linked.now) j) }

    // Unless the app is too large, the outcome leaves out nothing that a run does.
    ensures told { IfOk result (λ j. IsFollowed j.outcome → TellsAll linked.now.app linked.now.papers.lists
        linked.now.papers.declaration j.outcome) }
    ensures table { IfOk result (λ j. IfSome j.table IsTable) }
{
    nothing_is_left_out();
    each_good_table_covers_every_run();
    let flow = flow_in(alloc, linked, crew)?;
    match judged_by(alloc, linked, flow, crew)? {
        Some(judged) => Ok(judged),
        // The checker refuses nothing that the crew finds.
        None => unreachable!(),
    }
}

/// The same of an app that nothing else is asked about.
fn judged_once<T: Threads + Wait + Sync, L: Lookout>(
    alloc: Global,
    linked: Linked,
    crew: &Crew<'_, T, L>,
) -> Result<Judged, Memory>
    requires sound { SoundApp linked.app }
    requires lists { SoundLists linked.papers.lists }
    ensures value { IfOk result (λ j. ComesTo linked.app linked.papers.lists linked.papers.large
        linked.papers.declaration (causes_beside linked) j) }
    ensures told { IfOk result (λ j. IsFollowed j.outcome → TellsAll linked.app linked.papers.lists
        linked.papers.declaration j.outcome) }
    ensures table { IfOk result (λ j. IfSome j.table IsTable) }
{
    let judged = judge_linked(alloc, &linked, crew);
    give_back(linked);
    judged
}

#[tactic(auto, using(crate::proofs::Outcomes::judgement_on, crate::proofs::Outcomes::tells_of_parts))]
fn judged_parts<T: Threads + Wait + Sync, L: Lookout>(
    alloc: Global,
    parts: &Parts,
    crew: &Crew<'_, T, L>,
) -> Result<Judged, Halt>
    ensures value { IfOk result (λ j. Judgement parts.now j) }
    ensures one { IfOk result (λ j. OnlyJudgement parts.now j) }
    ensures told { IfOk result (λ j. IsFollowed j.outcome → TellsOfApp parts.now j.outcome) }
    ensures table { IfOk result (λ j. IfSome j.table IsTable) }
    ensures err { IfErr result (λ h. Halts (RefusesOnly parts.now) h) }
{
    lower_laws();
    let linked = linked_parts(alloc, parts)?;
    match judged_once(alloc, linked, crew) {
        Ok(judged) => Ok(judged),
        Err(Memory) => Err(Stop::Memory),
    }
}

/// What the parts of an app come to.
///
/// Refused with the first fault: that of the manifest's form, a number of DEX files that is not the manifest's (a range
/// fault of its `dex_files`), those of the forms of layouts, declaration and lists, that of each DEX file, and then
/// that of the app that they are. Else undecided where a run may come to a call without a row of the lists, to native
/// code or to reflection, where there is a content provider, where a layout names a class of the app, where more rows
/// follow than the lists allow, where the manifest says that a class of the app is named elsewhere, or where strict
/// lists ask about what a device may do besides (`device_causes`); else flagged where a value of a source may come to
/// a sink and the declaration does not name the pair; else clear, and then no run of the app brings one there.
///
/// Rows follow by the first analysis, where they are not more than the lists allow; else by the second, where the lists
/// ask for that and these are not more; and else there are more. So which of the two an outcome is by is certain.
///
/// Causes and findings stand in ascending order and each once: places by cause, providers and classes by name; findings
/// by the names of source and sink and then by place. A place goes by class, name and descriptor of the method, and
/// address. Of an app that is too large only that, its providers, its layouts' classes and what a device may do besides
/// are told, and there is no table; nor is there one where the parts are refused. Else the table is there, with all
/// rows that follow and no others. Nothing of this depends on the crew that finds what follows.
#[tactic(auto, using(crate::proofs::Outcomes::refused_with, crate::proofs::Outcomes::no_followed_refusal, crate::proofs::Outcomes::clear_is_safe))]
pub fn judge<T: Threads + Wait + Sync, L: Lookout>(
    alloc: Global,
    parts: &Parts,
    crew: &Crew<'_, T, L>,
) -> Result<Judged, Memory>
    ensures value { IfOk result (λ j. Judgement parts.now j) }

    // The parts come to nothing else.
    ensures one { (j : Judged) → Judgement parts.now j → (result ≡ Ok j) ⊎ IsErr result }

    // Unless the parts are refused or the app is too large, the outcome leaves out nothing that a run does.
    ensures told { IfOk result (λ j. IsFollowed j.outcome → TellsOfApp parts.now j.outcome) }
    ensures safe { IfOk result (λ j. j.outcome ≡ Outcome.Clear → IsSafeApp parts.now) }

    // The table, where there is one, ascends and has few rows, which name only what there is.
    ensures table { IfOk result (λ j. IfSome j.table IsTable) }
{
    match judged_parts(alloc, parts, crew) {
        Ok(judged) => Ok(judged),
        Err(Stop::Memory) => Err(Memory),
        Err(Stop::Fault(refusal)) => Ok(Judged {
            outcome: Outcome::Refused(refusal.part, refusal.reason),
            table: None,
        }),
    }
}

//! What the parts of an app come to, with a story for each finding.
ghost use Rattle.std.specs.Prelude.{◌≡◌, IfErr, IfOk};
ghost use Rattle.app_flow.specs.Flow.{AreDerivable};
ghost use Rattle.app_machine.specs.Sound.{SoundApp};
ghost use Rattle.app_machine.specs.SoundLists.{SoundLists};
ghost use Rattle.fact_rows.specs.declared.row.Row.{Row as FactRow};
ghost use Rattle.finding_rows.specs.Arrivals.{AreFirstArrivals};
ghost use Rattle.flow_analyses.specs.Analyses.{FollowsBy};
ghost use Rattle.flow_rules.specs.Rules.{Starts};
ghost use Rattle.outcomes.specs.Findings.{findings_of};
ghost use Rattle.outcomes.specs.Within.{AreWithin};
ghost use Rattle.vet_base.specs.Members.{In};
ghost use Rattle.verdict.specs.Halts.{Halts};
ghost use Rattle.verdict.specs.Linked.{causes_beside};
ghost use Rattle.verdict.specs.OneVerdict.{RefusesOnly};
ghost use Rattle.verdict.specs.Tells.{IsFollowed, TellsAll, TellsOfApp};
ghost use Rattle.verdict.specs.Verdict.{ComesTo, IsSafeApp};
ghost use Rattle.app_stories.specs.Stories.{AreStories, AreStoriesOf, ComesToStories, HasStories, OneJudgement, Tells};

use crate::stories::stories_of;
use fact_rows::Row;
use finding_rows::first_arrivals;
use flow_analyses::all_derived_rows_are_good;
use flow_story::Story;
use std::alloc::Global;
use std::marker::Sync;
use std::sync::Wait;
use std::thread::Threads;
use verdict::{
    FlowTable, Halt, Judged, Linked, Outcome, Parts, judge_linked, linked_parts, lower_laws,
};
use vet_base::{Memory, Seq, Stop};
use worker_pool::{Crew, Lookout};

/// What the parts of an app come to, and a story for each finding, in their order. There are no stories where there is
/// no table: where the parts are refused, or the app is too large.
#[derive(Drop)]
pub struct Told {
    pub outcome: Outcome,
    pub stories: Option<Seq<Story>>,
}

/// Gives back the memory of an app and of its papers. Where that stands beside what is known of them, it is dear to
/// prove.
fn give_back(_linked: Linked) {}

/// The first row that tells each finding.
fn arrivals_in(alloc: Global, linked: &Linked, rows: &[Row]) -> Result<Vec<Row>, Memory>
    requires sound { SoundApp linked.now.app }
    requires within { AreWithin linked.now.app rows.now }
    ensures { IfOk result (λ v. AreFirstArrivals linked.now.app linked.now.papers.lists linked.now.papers.declaration
        rows.now (findings_of linked.now.app linked.now.papers.lists linked.now.papers.declaration rows.now) v.items) }
{
    let papers = &linked.papers;
    first_arrivals(
        alloc,
        &linked.app,
        papers.lists.get(),
        &papers.declaration,
        rows,
    )
}

/// A story for each of these rows of the table.
fn stories_in(
    alloc: Global,
    linked: &Linked,
    table: &FlowTable,
    goals: &[Row],
) -> Result<Vec<Story>, Memory>
    requires app { SoundApp linked.now.app }
    requires lists { SoundLists linked.now.papers.lists }
    requires derivable { AreDerivable table.now.analysis linked.now.app linked.now.papers.lists table.now.rows }
    requires there { (row : FactRow) → In row goals.now → In row table.now.rows }
    ensures { IfOk result (λ v. AreStories (FollowsBy table.now.analysis linked.now.app linked.now.papers.lists)
        (Starts linked.now.app) goals.now v.items) }
{
    stories_of(alloc, &linked.app, linked.papers.lists.get(), table, goals)
}

/// For each finding that the rows tell the first of them that does, in ascending order. It is looked for among those
/// alone that tell something by themselves.
fn goals_of(alloc: Global, linked: &Linked, table: &FlowTable) -> Result<Vec<Row>, Memory>
    requires sound { SoundApp linked.now.app }
    requires lists { SoundLists linked.now.papers.lists }
    requires derivable { AreDerivable table.now.analysis linked.now.app linked.now.papers.lists table.now.rows }
    ensures { IfOk result (λ goals. AreFirstArrivals linked.now.app linked.now.papers.lists
        linked.now.papers.declaration table.now.rows (findings_of linked.now.app linked.now.papers.lists
        linked.now.papers.declaration table.now.rows) goals.items) }
{
    all_derived_rows_are_good();
    let telling = table.rows.telling(alloc)?;
    let goals = arrivals_in(alloc, linked, &telling)?;
    Ok(goals)
}

/// The stories of the findings that the rows tell.
#[tactic(auto, using(crate::proofs::Gathered::goals_there))]
fn stories_by_rows(alloc: Global, linked: &Linked, table: &FlowTable) -> Result<Seq<Story>, Memory>
    requires sound { SoundApp linked.now.app }
    requires lists { SoundLists linked.now.papers.lists }
    requires derivable { AreDerivable table.now.analysis linked.now.app linked.now.papers.lists table.now.rows }
    ensures { IfOk result (λ stories. AreStoriesOf linked.now.app linked.now.papers.lists
        linked.now.papers.declaration table.now (findings_of linked.now.app linked.now.papers.lists
        linked.now.papers.declaration table.now.rows) stories) }
{
    let goals = goals_of(alloc, linked, table)?;
    let stories = stories_in(alloc, linked, table, &goals)?;
    Ok(Seq::from_vec(stories))
}

/// The same by the table, whose memory is given back.
fn stories_by_table(alloc: Global, linked: &Linked, table: FlowTable) -> Result<Seq<Story>, Memory>
    requires sound { SoundApp linked.now.app }
    requires lists { SoundLists linked.now.papers.lists }
    requires derivable { AreDerivable table.analysis linked.now.app linked.now.papers.lists table.rows }
    ensures { IfOk result (λ stories. AreStoriesOf linked.now.app linked.now.papers.lists
        linked.now.papers.declaration table (findings_of linked.now.app linked.now.papers.lists
        linked.now.papers.declaration table.rows) stories) }
{
    stories_by_rows(alloc, linked, &table)
}

/// What an app comes to, with its stories where there is a table.
#[tactic(auto, using(crate::proofs::Coming::of_table, crate::proofs::Coming::stories_with, crate::proofs::Coming::stories_without))]
fn with_stories(alloc: Global, linked: &Linked, judged: Judged) -> Result<Told, Memory>
    requires sound { SoundApp linked.now.app }
    requires lists { SoundLists linked.now.papers.lists }
    requires comes { ComesTo linked.now.app linked.now.papers.lists linked.now.papers.large
        linked.now.papers.declaration (causes_beside linked.now) judged }
    ensures outcome { IfOk result (λ t. t.outcome ≡ judged.outcome) }
    ensures stories { IfOk result (λ t. HasStories linked.now judged t.stories) }
{
    let Judged { outcome, table } = judged;
    let stories = match table {
        None => None,
        Some(table) => Some(stories_by_table(alloc, linked, table)?),
    };
    Ok(Told { outcome, stories })
}

/// What a linked app comes to, with its stories.
#[tactic(auto, using(crate::proofs::Coming::comes_with))]
fn told_of<T: Threads + Wait + Sync, L: Lookout>(
    alloc: Global,
    linked: &Linked,
    crew: &Crew<'_, T, L>,
) -> Result<Told, Memory>
    requires sound { SoundApp linked.now.app }
    requires lists { SoundLists linked.now.papers.lists }
    ensures value { IfOk result (λ t. ComesToStories linked.now t.outcome t.stories) }
    ensures told { IfOk result (λ t. IsFollowed t.outcome → TellsAll linked.now.app linked.now.papers.lists
        linked.now.papers.declaration t.outcome) }
{
    let judged = judge_linked(alloc, linked, crew)?;
    with_stories(alloc, linked, judged)
}

/// The same of an app that nothing else is asked about.
fn told_once<T: Threads + Wait + Sync, L: Lookout>(
    alloc: Global,
    linked: Linked,
    crew: &Crew<'_, T, L>,
) -> Result<Told, Memory>
    requires sound { SoundApp linked.app }
    requires lists { SoundLists linked.papers.lists }
    ensures value { IfOk result (λ t. ComesToStories linked t.outcome t.stories) }
    ensures told { IfOk result (λ t. IsFollowed t.outcome → TellsAll linked.app linked.papers.lists
        linked.papers.declaration t.outcome) }
{
    let told = told_of(alloc, &linked, crew);
    give_back(linked);
    told
}

#[tactic(auto, using(verdict::proofs::Outcomes::tells_of_parts, crate::proofs::Coming::tells_parts, crate::proofs::Coming::one_judgement))]
fn told_parts<T: Threads + Wait + Sync, L: Lookout>(
    alloc: Global,
    parts: &Parts,
    crew: &Crew<'_, T, L>,
) -> Result<Told, Halt>
    ensures value { IfOk result (λ t. Tells parts.now t.outcome t.stories) }
    ensures one { IfOk result (λ t. OneJudgement parts.now) }
    ensures told { IfOk result (λ t. IsFollowed t.outcome → TellsOfApp parts.now t.outcome) }
    ensures err { IfErr result (λ h. Halts (RefusesOnly parts.now) h) }
{
    lower_laws();
    let linked = linked_parts(alloc, parts)?;
    match told_once(alloc, linked, crew) {
        Ok(told) => Ok(told),
        Err(Memory) => Err(Stop::Memory),
    }
}

/// What the parts of an app come to, as `judge` of `verdict` says it, and for each finding the story of the first row
/// of the table that tells it: lines of which each is a start or follows from lines before it, by the rules of the app,
/// with no line too many.
#[tactic(auto, using(verdict::proofs::Outcomes::no_followed_refusal, verdict::proofs::Outcomes::clear_is_safe, crate::proofs::Coming::refused_with, crate::proofs::Coming::one_refusal))]
pub fn judge_with_stories<T: Threads + Wait + Sync, L: Lookout>(
    alloc: Global,
    parts: &Parts,
    crew: &Crew<'_, T, L>,
) -> Result<Told, Memory>
    ensures value { IfOk result (λ t. Tells parts.now t.outcome t.stories) }

    // The parts come to nothing else.
    ensures one { IfOk result (λ t. OneJudgement parts.now) }

    // Unless the parts are refused or the app is too large, the outcome leaves out nothing that a run does.
    ensures told { IfOk result (λ t. IsFollowed t.outcome → TellsOfApp parts.now t.outcome) }
    ensures safe { IfOk result (λ t. t.outcome ≡ Outcome.Clear → IsSafeApp parts.now) }
{
    match told_parts(alloc, parts, crew) {
        Ok(told) => Ok(told),
        Err(Stop::Memory) => Err(Memory),
        Err(Stop::Fault(refusal)) => Ok(Told {
            outcome: Outcome::Refused(refusal.part, refusal.reason),
            stories: None,
        }),
    }
}

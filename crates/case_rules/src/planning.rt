ghost use Rattle.std.specs.Prelude.{◌≡◌, List, IfOk};
ghost use Rattle.case_rules.specs.Rules.{Gives, is_developer, is_reviewer, is_appealable, submit, decide};
ghost use Rattle.case_rules.specs.Rules.{show, report, appeal, review, rule, answered, planned, session_of};
ghost use Rattle.case_rules.specs.Docket.{IsFormed, IsDocket, Shows, ShowsQueued, TakesDecision};
ghost use Rattle.case_rules.specs.Cases.{is_named, new_case};
ghost use Rattle.case_rules.specs.Desk.{Judgement, plan_over};
ghost use Rattle.case_rules.specs.Plans.{IsPlanFor, JudgesTaking, settled};

use crate::{
    Appeal, Case, Change, Command, Content, Decision, OutcomeWord, Plan, Refusal, Reply, Ruling,
    RulingWord, View,
};
use store_office::{Party, Role};
use vet_base::{Memory, Name, Shared, Stop};

/// How many cases without an entry a developer may have.
const OPEN_CASES: u32 = 1000;

fn is_developer(role: Role) -> bool
    ensures { result ≡ is_developer role }
{
    match role {
        Role::Developer => true,
        Role::Reviewer => false,
    }
}

fn is_reviewer(role: Role) -> bool
    ensures { result ≡ is_reviewer role }
{
    match role {
        Role::Developer => false,
        Role::Reviewer => true,
    }
}

fn is_appealable(outcome: OutcomeWord) -> bool
    ensures { result ≡ is_appealable outcome }
{
    match outcome {
        OutcomeWord::Clear | OutcomeWord::Refused => false,
        OutcomeWord::Flagged | OutcomeWord::Undecided => true,
    }
}

fn adding(developer: &Name, reference: &Name, content: &Content) -> Result<Plan, Memory>
    ensures { IfOk result (λ plan. plan
        ≡ Plan.Do (Change.Add (new_case developer.now reference.now content.now)) (Reply.Added reference.now)) }
{
    let party = developer.copy()?;
    let added = reference.copy()?;
    let reference = reference.copy()?;
    let content = content.copy()?;
    let case = Case {
        party,
        reference,
        content,
        entries: Shared::new(),
    };
    Ok(Plan::Do(Change::Add(case), Reply::Added(added)))
}

#[tactic(auto, unfolding(crate::specs::Rules::submit))]
fn submitted(
    party: &Party,
    reference: &Name,
    content: &Content,
    view: &View,
) -> Result<Plan, Stop<Refusal>>
    ensures { Gives result (submit party.now reference.now content.now view.now.found view.now.queued) }
{
    if !is_developer(party.role) {
        return Err(Stop::Fault(Refusal::WrongRole));
    }
    if let Some(case) = &view.found {
        if !case.content.is_same(content) {
            return Err(Stop::Fault(Refusal::OtherContent));
        }
        return Ok(Plan::Say(Reply::Kept(reference.copy()?, case.state())));
    }
    if view.queued >= u64::from(OPEN_CASES) {
        return Err(Stop::Fault(Refusal::TooManyOpen(OPEN_CASES)));
    }
    Ok(adding(&party.name, reference, content)?)
}

#[tactic(auto, unfolding(crate::specs::Rules::decide))]
fn decided(party: &Party, first: &Option<Case>) -> Result<Plan, Stop<Refusal>>
    ensures { Gives result (decide party.now first.now) }
{
    if !is_reviewer(party.role) {
        return Err(Stop::Fault(Refusal::WrongRole));
    }
    let Some(case) = first else {
        return Err(Stop::Fault(Refusal::NothingQueued));
    };
    Ok(Plan::Judge(case.copy()?))
}

#[tactic(auto, unfolding(crate::specs::Rules::show))]
fn shown(party: &Party, found: &Option<Case>) -> Result<Plan, Stop<Refusal>>
    ensures { Gives result (show party.now found.now) }
{
    if !is_developer(party.role) {
        return Err(Stop::Fault(Refusal::WrongRole));
    }
    let Some(case) = found else {
        return Err(Stop::Fault(Refusal::NoCase));
    };
    Ok(Plan::Say(Reply::Shown(case.copy()?)))
}

#[tactic(auto, unfolding(crate::specs::Rules::report))]
fn reported(party: &Party, found: &Option<Case>) -> Result<Plan, Stop<Refusal>>
    ensures { Gives result (report party.now found.now) }
{
    if !is_developer(party.role) {
        return Err(Stop::Fault(Refusal::WrongRole));
    }
    let Some(case) = found else {
        return Err(Stop::Fault(Refusal::NoCase));
    };
    let Some(entry) = case.last_entry() else {
        return Err(Stop::Fault(Refusal::NotDecided));
    };
    Ok(Plan::Say(Reply::Text(entry.decision.report.copy()?)))
}

fn appealing(
    developer: &Name,
    day: u32,
    reference: &Name,
    text: &Shared<u8>,
) -> Result<Plan, Memory>
    ensures { IfOk result (λ plan. plan
        ≡ Plan.Do (Change.Appeal developer.now reference.now (record { day = day; text = text.now }))
        (Reply.Appealed reference.now)) }
{
    let developer = developer.copy()?;
    let appealed = reference.copy()?;
    let reference = reference.copy()?;
    let text = text.copy()?;
    let change = Change::Appeal(developer, reference, Appeal { day, text });
    Ok(Plan::Do(change, Reply::Appealed(appealed)))
}

#[tactic(auto, unfolding(crate::specs::Rules::appeal))]
fn appealed(
    party: &Party,
    appeal_days: u32,
    day: u32,
    reference: &Name,
    text: &Shared<u8>,
    found: &Option<Case>,
) -> Result<Plan, Stop<Refusal>>
    ensures { Gives result (appeal party.now appeal_days day reference.now text.now found.now) }
{
    if !is_developer(party.role) {
        return Err(Stop::Fault(Refusal::WrongRole));
    }
    let Some(case) = found else {
        return Err(Stop::Fault(Refusal::NoCase));
    };
    let Some(entry) = case.last_entry() else {
        return Err(Stop::Fault(Refusal::NotDecided));
    };
    let outcome = entry.decision.outcome;
    if !is_appealable(outcome) {
        return Err(Stop::Fault(Refusal::NoAppealFor(outcome)));
    }
    if entry.appeal.is_some() {
        return Err(Stop::Fault(Refusal::AppealedAlready));
    }
    let last = u64::from(entry.decision.day) + u64::from(appeal_days);
    if u64::from(day) > last {
        return Err(Stop::Fault(Refusal::TooLate(last)));
    }
    Ok(appealing(&party.name, day, reference, text)?)
}

#[tactic(auto, unfolding(crate::specs::Rules::review))]
fn reviewed(party: &Party, edition: &[u8; 32], found: &Option<Case>) -> Result<Plan, Stop<Refusal>>
    ensures { Gives result (review party.now edition.now found.now) }
{
    if !is_reviewer(party.role) {
        return Err(Stop::Fault(Refusal::WrongRole));
    }
    let Some(case) = found else {
        return Err(Stop::Fault(Refusal::NoCase));
    };
    let Some(entry) = case.last_entry() else {
        return Err(Stop::Fault(Refusal::NotDecided));
    };
    if case.has_edition(edition) {
        return Err(Stop::Fault(Refusal::SameEdition));
    }
    if entry.is_open() {
        return Err(Stop::Fault(Refusal::AppealOpen));
    }
    Ok(Plan::Judge(case.copy()?))
}

fn ruling(
    reviewer: &Name,
    day: u32,
    developer: &Name,
    reference: &Name,
    word: RulingWord,
) -> Result<Plan, Memory>
    ensures { IfOk result (λ plan. plan
        ≡ Plan.Do (Change.Rule developer.now reference.now (record { reviewer = reviewer.now; day = day; word = word }))
        (Reply.Ruled developer.now reference.now word)) }
{
    let reviewer = reviewer.copy()?;
    let ruled_for = developer.copy()?;
    let ruled = reference.copy()?;
    let developer = developer.copy()?;
    let reference = reference.copy()?;
    let ruling = Ruling {
        reviewer,
        day,
        word,
    };
    let change = Change::Rule(developer, reference, ruling);
    Ok(Plan::Do(change, Reply::Ruled(ruled_for, ruled, word)))
}

#[tactic(auto, unfolding(crate::specs::Rules::rule))]
fn ruled(
    party: &Party,
    day: u32,
    developer: &Name,
    reference: &Name,
    word: RulingWord,
    found: &Option<Case>,
) -> Result<Plan, Stop<Refusal>>
    ensures { Gives result (rule party.now day developer.now reference.now word found.now) }
{
    if !is_reviewer(party.role) {
        return Err(Stop::Fault(Refusal::WrongRole));
    }
    let Some(case) = found else {
        return Err(Stop::Fault(Refusal::NoCase));
    };
    let Some(entry) = case.last_entry() else {
        return Err(Stop::Fault(Refusal::NoAppeal));
    };
    if entry.appeal.is_none() {
        return Err(Stop::Fault(Refusal::NoAppeal));
    }
    if entry.ruling.is_some() {
        return Err(Stop::Fault(Refusal::RuledAlready));
    }
    if entry.decision.reviewer == party.name {
        return Err(Stop::Fault(Refusal::SameReviewer));
    }
    Ok(ruling(&party.name, day, developer, reference, word)?)
}

fn answered(
    view: &View,
    party: &Party,
    appeal_days: u32,
    day: u32,
    edition: &[u8; 32],
    command: &Command,
) -> Result<Plan, Stop<Refusal>>
    ensures { Gives result (answered (session_of party.now appeal_days day edition.now) command.now view.now) }
{
    match command {
        Command::Submit(reference, content) => submitted(party, reference, content, view),
        Command::Decide => decided(party, &view.first),
        Command::Show(_) => shown(party, &view.found),
        Command::Report(_) => reported(party, &view.found),
        Command::Appeal(reference, text) => {
            appealed(party, appeal_days, day, reference, text, &view.found)
        }
        Command::Review(_, _) => reviewed(party, edition, &view.found),
        Command::Rule(developer, reference, word) => {
            ruled(party, day, developer, reference, *word, &view.found)
        }
        Command::List => Ok(Plan::Say(Reply::Lines(view.lines.copy()?))),
    }
}

/// What is to be done for a command, by what the cases show for it. An appeal is taken for
/// `appeal_days` days after the day of the decision; `edition` is the SHA-256 of the lists. Where
/// the plan is to judge a case, `settle` gives change and reply.
pub fn plan(
    view: &View,
    party: &Party,
    appeal_days: u32,
    day: u32,
    edition: &[u8; 32],
    command: &Command,
) -> Result<Plan, Memory>
    requires { IsFormed command.now }
    ensures rules { IfOk result (λ plan. plan
        ≡ planned (session_of party.now appeal_days day edition.now) command.now view.now) }
    // Where the view shows what the cases of a docket are, following the plan does what the desk does.
    ensures desk { IfOk result (λ plan. (judgement : Judgement) (cases : List Case) → IsDocket cases
        → Shows (session_of party.now appeal_days day edition.now) command.now view.now cases
        → IsPlanFor (session_of party.now appeal_days day edition.now) judgement command.now cases plan) }

    // It is the desk's own plan.
    ensures over { IfOk result (λ plan. (cases : List Case)
        → Shows (session_of party.now appeal_days day edition.now) command.now view.now cases
        → plan ≡ plan_over (session_of party.now appeal_days day edition.now) command.now cases) }

    // A case that is to be judged takes the decision, whatever else the cases are.
    ensures takes { IfOk result (λ plan. ShowsQueued view.now
        → JudgesTaking (session_of party.now appeal_days day edition.now) plan) }
{
    match answered(view, party, appeal_days, day, edition, command) {
        Ok(plan) => Ok(plan),
        Err(Stop::Fault(refusal)) => Ok(Plan::Say(Reply::No(refusal))),
        Err(Stop::Memory) => Err(Memory),
    }
}

/// Change and reply once a case was judged: the decision becomes its next entry.
pub fn settle(case: &Case, decision: Decision) -> Result<(Change, Reply), Memory>
    requires { TakesDecision decision case.now }
    ensures { IfOk result (λ r. r ≡ settled case.now decision) }
{
    let developer = case.party.copy()?;
    let reference = case.reference.copy()?;
    let decided_for = case.party.copy()?;
    let decided = case.reference.copy()?;
    let reply = Reply::Decided(decided_for, decided, decision.outcome);
    Ok((Change::Decide(developer, reference, decision), reply))
}

//! A command, carried out over the cases of a keeper.
ghost use Rattle.std.specs.Prelude.{◌≡◌, ℕ, List, Some, IfOk, IfErr, Ok};
ghost use Rattle.case_rules.specs.declared.case.Case.{Case};
ghost use Rattle.case_rules.specs.Rules.{session_of};
ghost use Rattle.case_rules.specs.Desk.{Judgement, decision_by, plan_over};
ghost use Rattle.case_rules.specs.Docket.{IsFormed, Fits, TakesDecision};
ghost use Rattle.case_rules.specs.Plans.{JudgesTaking, settled};
ghost use Rattle.case_keeper.specs.Keeper.{KeepCause, told_after};
ghost use Rattle.desk_serving.specs.Obeying.{TellsDocket, judgement_of, HandsOn, IsSettled, handed_plan};

use crate::judge::{Desk, Judge, Judged};
use case_keeper::{KeepFault, Keeper, view_for};
use case_rules::{
    Case, Change, Command, Decision, Plan, Reply, each_thing_is_done_once, plan, settle,
};
use std::alloc::Global;
use store_office::Party;
use vet_base::Memory;

/// The plan for a command, by what the keeper shows.
fn planned<K: Keeper, J: Judge>(
    alloc: Global,
    desk: &Desk<J>,
    keeper: &mut K,
    day: u32,
    party: &Party,
    command: &Command,
) -> Result<Plan, KeepFault>
    requires { IsFormed command.now }
    ensures over { IfOk result (λ plan. (cases : List Case) → K.told keeper.old ≡ Some cases
        → plan ≡ handed_plan (plan_over (session_of party.now desk.now.office.appeal_days day
        (J.edition desk.now.judge)) command.now cases)) }
    ensures takes { IfOk result (λ plan. JudgesTaking (session_of party.now desk.now.office.appeal_days day
        (J.edition desk.now.judge)) plan) }
    ensures told { K.told keeper.new ≡ K.told keeper.old }
    ensures cause { KeepCause (K.fault_count keeper.old) (K.fault_count keeper.new) result }
{
    let view = view_for(alloc, keeper, party, command)?;
    let days = desk.office.appeal_days;
    Ok(plan(&view, party, days, day, desk.judge.edition(), command)?)
}

/// The decision of a reviewer who had a case judged.
fn decision<J: Judge>(
    desk: &Desk<J>,
    day: u32,
    reviewer: &Party,
    judged: Judged,
) -> Result<Decision, Memory>
    ensures { IfOk result (λ d. d ≡ decision_by (session_of reviewer.now desk.now.office.appeal_days day
        (J.edition desk.now.judge)) (judgement_of judged)) }
{
    Ok(Decision {
        outcome: judged.outcome,
        report: judged.report,
        lists: *desk.judge.edition(),
        reviewer: reviewer.name.copy()?,
        day,
    })
}

/// Judges a case, and keeps the decision.
fn decided<K: Keeper, J: Judge>(
    alloc: Global,
    desk: &Desk<J>,
    keeper: &mut K,
    day: u32,
    reviewer: &Party,
    case: &Case,
) -> Result<Reply, KeepFault>
    requires ready { J.ready desk.now.judge }
    requires takes { (judgement : Judgement)
        → TakesDecision
        (decision_by (session_of reviewer.now desk.now.office.appeal_days day (J.edition desk.now.judge)) judgement)
        case.now }
    requires fits { (judgement : Judgement) (cases : List Case) → K.told keeper.old ≡ Some cases
        → Fits (settled case.now
        (decision_by (session_of reviewer.now desk.now.office.appeal_days day (J.edition desk.now.judge)) judgement)).0
        cases }
    ensures settles { IfOk result (λ reply. IsSettled (J.finds desk.now.judge)
        (session_of reviewer.now desk.now.office.appeal_days
        day (J.edition desk.now.judge)) case.now (K.told keeper.old) (K.told keeper.new) reply) }
    ensures err { IfErr result (λ _. K.told keeper.new ≡ K.told keeper.old) }
    ensures cause { KeepCause (K.fault_count keeper.old) (K.fault_count keeper.new) result }
{
    let judged = desk.judge.judge(alloc, &case.content)?;
    let decision = decision(desk, day, reviewer, judged)?;
    let (change, reply) = settle(case, decision)?;
    keeper.apply(alloc, &change)?;
    Ok(reply)
}

/// Tells who judges of a case that is in the queue now.
fn told_ahead<J: Judge>(judge: &J, change: &Change) {
    if let Change::Add(case) = change {
        judge.ahead(&case.content);
    }
}

/// Keeps a change.
fn kept<K: Keeper, J: Judge>(
    alloc: Global,
    judge: &J,
    keeper: &mut K,
    change: Change,
    reply: Reply,
) -> Result<Reply, KeepFault>
    requires { (cases : List Case) → K.told keeper.old ≡ Some cases → Fits change cases }
    ensures reply { IfOk result (λ r. r ≡ reply) }
    ensures told { K.told keeper.new ≡ told_after change (K.told keeper.old) result }
    ensures cause { KeepCause (K.fault_count keeper.old) (K.fault_count keeper.new) result }
{
    keeper.apply(alloc, &change)?;
    told_ahead(judge, &change);
    Ok(reply)
}

/// The desk's reply, once what changes is kept. `obey` proves from what is proved of it alone that the cases stay those
/// of a desk.
fn obeyed<K: Keeper, J: Judge>(
    alloc: Global,
    desk: &Desk<J>,
    keeper: &mut K,
    day: u32,
    party: &Party,
    command: &Command,
) -> Result<Reply, KeepFault>
    requires ready { J.ready desk.now.judge }
    requires docket { TellsDocket (K.told keeper.old) }
    requires formed { IsFormed command.now }
    ensures obeys { IfOk result (λ reply. HandsOn (J.finds desk.now.judge)
        (session_of party.now desk.now.office.appeal_days day
        (J.edition desk.now.judge)) command.now (K.told keeper.old) (K.told keeper.new) reply) }
    ensures err { IfErr result (λ _. K.told keeper.new ≡ K.told keeper.old) }
    ensures cause { KeepCause (K.fault_count keeper.old) (K.fault_count keeper.new) result }
{
    let plan = planned(alloc, desk, keeper, day, party, command)?;
    match plan {
        Plan::Say(reply) => Ok(reply),
        Plan::Do(change, reply) => kept(alloc, &desk.judge, keeper, change, reply),
        Plan::Judge(case) => decided(alloc, desk, keeper, day, party, &case),
    }
}

/// Carries a command out, once, and gives the desk's reply, where a case is shown without its content. After an `Err`
/// the cases are as before: `Failed` comes only where the keeper's count rose, and `Memory` where memory ran out.
pub fn obey<K: Keeper, J: Judge>(
    alloc: Global,
    desk: &Desk<J>,
    keeper: &mut K,
    day: u32,
    party: &Party,
    command: &Command,
) -> Result<Reply, KeepFault>
    requires ready { J.ready desk.now.judge }
    requires docket { TellsDocket (K.told keeper.old) }
    requires formed { IsFormed command.now }
    ensures obeys { IfOk result (λ reply. HandsOn (J.finds desk.now.judge)
        (session_of party.now desk.now.office.appeal_days day
        (J.edition desk.now.judge)) command.now (K.told keeper.old) (K.told keeper.new) reply) }
    ensures docket { TellsDocket (K.told keeper.new) }
    ensures err { IfErr result (λ _. K.told keeper.new ≡ K.told keeper.old) }
    ensures cause { KeepCause (K.fault_count keeper.old) (K.fault_count keeper.new) result }
{
    each_thing_is_done_once();
    obeyed(alloc, desk, keeper, day, party, command)
}

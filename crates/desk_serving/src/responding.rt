//! What is due to a request: the reply to its command, or why there is none.
ghost use Rattle.std.specs.Prelude.{◌≡◌, ◌≤◌, Result, Ok};
ghost use Rattle.vet_base.specs.Outside.{HasRisen};
ghost use Rattle.case_rules.specs.Rules.{session_of};
ghost use Rattle.case_rules.specs.Docket.{IsFormed};
ghost use Rattle.desk_http.specs.declared.asked.Asked.{Asked};
ghost use Rattle.desk_http.specs.declared.asked.HttpFault.{HttpFault};
ghost use Rattle.desk_serving.specs.Obeying.{TellsDocket};
ghost use Rattle.desk_serving.specs.Responding.{setting_of, IsCommand, Responds, IsCoded, RaisesStore};
ghost use Rattle.desk_serving.specs.Responding.{SaysReply, SaysStoreFailed, SaysNoMemory, SaysOther};

use crate::judge::{Desk, Judge};
use crate::obeying::obey;
use case_keeper::{KeepFault, Keeper};
use case_rules::{Command, Reply};
use desk_answers::{answer_of, answer_to_fault, no_memory, store_failed};
use desk_http::{Answer, Asked, HttpFault};
use desk_routes::{Turn, command_of};
use std::alloc::Global;
use store_office::{Party, Role};

/// What is to be sent, by what it says.
#[derive(Drop)]
pub(crate) enum Due {
    /// The reply to a command that was carried out.
    Command(Answer),
    /// The answer to what is no command.
    Other(Answer),
    /// The keeper failed, and the cases are as before.
    StoreFailed(Answer),
    /// Memory ran out, and the cases are as before.
    NoMemory(Answer),
    /// Memory ran out, and nothing is sent.
    Nothing,
}

/// That memory ran out, where there is memory to say so.
fn out_of_memory(alloc: Global) -> Due
    ensures says { SaysNoMemory result }
    ensures coded { IsCoded result }
{
    match no_memory(alloc) {
        Ok(answer) => Due::NoMemory(answer),
        Err(_) => Due::Nothing,
    }
}

/// That the keeper failed.
fn out_of_store(alloc: Global) -> Due
    ensures says { SaysStoreFailed result }
    ensures coded { IsCoded result }
{
    match store_failed(alloc) {
        Ok(answer) => Due::StoreFailed(answer),
        Err(_) => Due::Nothing,
    }
}

/// The answer to a reply, where there is memory for it.
fn replied(alloc: Global, role: Role, reply: &Reply) -> Due
    ensures says { SaysReply role reply.now result }
    ensures coded { IsCoded result }
{
    match answer_of(alloc, role, reply) {
        Ok(answer) => Due::Command(answer),
        Err(_) => Due::Nothing,
    }
}

/// Carries a command out, and gives what is due to it.
fn commanded<K: Keeper, J: Judge>(
    alloc: Global,
    desk: &Desk<J>,
    keeper: &mut K,
    day: u32,
    party: &Party,
    command: &Command,
) -> Due
    requires ready { J.ready desk.now.judge }
    requires docket { TellsDocket (K.told keeper.old) }
    requires formed { IsFormed command.now }
    ensures responds { (request : Result Asked HttpFault) → IsCommand desk.now.office request party.now command.now
        → Responds (J.finds desk.now.judge) (setting_of desk.now.office (J.edition desk.now.judge) day)
        (K.told keeper.old) (K.told keeper.new) request result }
    ensures coded { IsCoded result }
    ensures docket { TellsDocket (K.told keeper.new) }
    ensures store { RaisesStore (K.fault_count keeper.old) (K.fault_count keeper.new) result }
    ensures never_falls { K.fault_count keeper.old ≤ K.fault_count keeper.new }
{
    match obey(alloc, desk, keeper, day, party, command) {
        Ok(reply) => replied(alloc, party.role, &reply),
        Err(KeepFault::Failed) => out_of_store(alloc),
        Err(KeepFault::Memory) => out_of_memory(alloc),
    }
}

/// What is due to a request.
fn asked_of<K: Keeper, J: Judge>(
    alloc: Global,
    desk: &Desk<J>,
    keeper: &mut K,
    day: u32,
    asked: &Asked,
) -> Due
    requires ready { J.ready desk.now.judge }
    requires docket { TellsDocket (K.told keeper.old) }
    ensures responds { Responds (J.finds desk.now.judge) (setting_of desk.now.office (J.edition desk.now.judge) day)
        (K.told keeper.old) (K.told keeper.new) (Ok asked.now) result }
    ensures coded { IsCoded result }
    ensures docket { TellsDocket (K.told keeper.new) }
    ensures store { RaisesStore (K.fault_count keeper.old) (K.fault_count keeper.new) result }
    ensures never_falls { K.fault_count keeper.old ≤ K.fault_count keeper.new }
{
    match command_of(alloc, asked, &desk.office) {
        Ok(Turn::Run(party, command)) => commanded(alloc, desk, keeper, day, &party, &command),
        Ok(Turn::Answer(answer)) => Due::Other(answer),
        Err(_) => out_of_memory(alloc),
    }
}

/// What is due to bytes that are no request.
fn refused(alloc: Global, fault: HttpFault) -> Due
    ensures other { SaysOther fault result }
    ensures coded { IsCoded result }
{
    match answer_to_fault(alloc, fault) {
        Ok(Some(answer)) => Due::Other(answer),
        _ => Due::Nothing,
    }
}

/// What is due to the bytes that came.
pub(crate) fn responded<K: Keeper, J: Judge>(
    alloc: Global,
    desk: &Desk<J>,
    keeper: &mut K,
    day: u32,
    request: &Result<Asked, HttpFault>,
) -> Due
    requires ready { J.ready desk.now.judge }
    requires docket { TellsDocket (K.told keeper.old) }
    ensures responds { Responds (J.finds desk.now.judge) (setting_of desk.now.office (J.edition desk.now.judge) day)
        (K.told keeper.old) (K.told keeper.new) request.now result }
    ensures coded { IsCoded result }
    ensures docket { TellsDocket (K.told keeper.new) }
    ensures store { RaisesStore (K.fault_count keeper.old) (K.fault_count keeper.new) result }
    ensures never_falls { K.fault_count keeper.old ≤ K.fault_count keeper.new }
{
    match request {
        Ok(asked) => asked_of(alloc, desk, keeper, day, asked),
        Err(fault) => refused(alloc, *fault),
    }
}

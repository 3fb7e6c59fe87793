ghost use Rattle.std.specs.Prelude.{◌≡◌, IfOk};
ghost use Rattle.std.specs.Option.{option_copied};
ghost use Rattle.serde_json.specs.View.{view};
ghost use Rattle.desk_routes.specs.Faults.{Gives};
ghost use Rattle.desk_routes.specs.Turns.{command_for, party_of, run_of, turn_of, IsDue};

use crate::body::json_of;
use crate::fault::Fault;
use crate::submission::{appeal, review, ruling, submission};
use crate::target::{Act, route_of};
use case_rules::Command;
use desk_http::{Answer, Asked};
use std::alloc::Global;
use store_office::{Office, Party};
use vet_base::{Memory, Name, Stop};

/// What is to be done for a request.
#[derive(Drop)]
pub enum Turn {
    /// The party asks this of the desk.
    Run(Party, Command),
    /// The request is no command, and is answered so.
    Answer(Answer),
}

/// The command of an act, by the reference in the target and the body.
#[tactic(auto, unfolding(crate::specs::Turns::command_for))]
fn command_for(
    alloc: Global,
    act: Act,
    reference: &[u8],
    body: &[u8],
) -> Result<Command, Stop<Fault>>
    ensures { Gives (λ command. command) result (command_for act reference.now body.now) }
{
    match act {
        Act::Submit => submission(alloc, &json_of(alloc, body)?),
        Act::List => Ok(Command::List),
        Act::Show => Ok(Command::Show(Name::from_bytes(alloc, reference)?)),
        Act::Report => Ok(Command::Report(Name::from_bytes(alloc, reference)?)),
        Act::Appeal => appeal(alloc, reference, &json_of(alloc, body)?),
        Act::Decide => Ok(Command::Decide),
        Act::Review => review(alloc, &json_of(alloc, body)?),
        Act::Rule => ruling(alloc, &json_of(alloc, body)?),
    }
}

/// The party with this token.
fn party_of<'o>(office: &'o Office, token: &Option<Name>) -> Option<&'o Party>
    ensures { option_copied result ≡ party_of office.now token.now }
{
    match token {
        Some(token) => office.party_of(token.as_bytes()),
        None => None,
    }
}

/// The same party over the same storage.
fn copy_of(party: &Party) -> Result<Party, Memory>
    ensures { IfOk result (λ copy. copy ≡ party.now) }
{
    Ok(Party {
        name: party.name.copy()?,
        role: party.role,
        token: party.token.copy()?,
    })
}

/// The party of a request and its command.
#[tactic(auto, unfolding(crate::specs::Turns::run_of))]
fn run_of(alloc: Global, asked: &Asked, office: &Office) -> Result<(Party, Command), Stop<Fault>>
    ensures { Gives (λ run. run) result (run_of asked.now.post asked.now.path asked.now.token asked.now.body.items
        office.now) }
{
    let Some((page, reference)) = route_of(asked.path.as_bytes()) else {
        return Err(Stop::Fault(Fault::NoRoute));
    };
    let Some(act) = page.act(asked.post) else {
        return Err(Stop::Fault(Fault::NoMethod));
    };
    let Some(party) = party_of(office, &asked.token) else {
        return Err(Stop::Fault(Fault::NoToken));
    };
    if !act.is_for(party.role) {
        return Err(Stop::Fault(Fault::WrongRole));
    }
    let command = command_for(alloc, act, reference, asked.body.as_slice())?;
    Ok((copy_of(party)?, command))
}

/// What a request comes to.
#[tactic(auto, using(crate::proofs::Due::is_due))]
pub fn command_of(alloc: Global, asked: &Asked, office: &Office) -> Result<Turn, Memory>
    ensures turn { IfOk result (λ turn. turn ≡ turn_of asked.now.post asked.now.path asked.now.token
        asked.now.body.items office.now) }
    ensures due { IfOk result (IsDue office.now asked.now.token) }
{
    match run_of(alloc, asked, office) {
        Ok((party, command)) => Ok(Turn::Run(party, command)),
        Err(Stop::Memory) => Err(Memory),
        Err(Stop::Fault(fault)) => Ok(Turn::Answer(fault.answer(alloc)?)),
    }
}

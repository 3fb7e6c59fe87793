ghost use Rattle.std.specs.Prelude.{◌≡◌, ◌++◌, IfOk, OnOk, map, option_to_list};
ghost use Rattle.std.specs.Option.{option_copied};
ghost use Rattle.app_machine.specs.Lookups.{initialisers};
ghost use Rattle.app_machine.specs.Sound.{SoundApp};
ghost use Rattle.played_machine.specs.Calling.{bodies_with_code, code_of, with_code};
ghost use Rattle.runner_calls.specs.Frames.{number_of};

use app_machine::{Act, App, Method};
use app_model::{act_initialisers, next_initialiser};
use std::alloc::Global;
use vet_base::Memory;

/// The method of the number, where it has code.
#[tactic(auto, unfolding(played_machine::specs::Calling::code_of))]
pub fn code_of(app: &App, body: u32) -> Option<&Method>
    ensures { option_copied result ≡ code_of app.now body }
{
    match app.methods.get(body as usize) {
        Some(method) => { if method.is_native { None } else { Some(method) } }
        None => None,
    }
}

/// The initialisers with code that may run before the act, by class upward.
pub fn initialisers(alloc: Global, app: &App, act: &Act) -> Result<Vec<u32>, Memory>
    requires { SoundApp app.now }
    ensures { IfOk result (λ found. found.items
        ≡ map number_of (bodies_with_code app.now (initialisers app.now act.now))) }
{
    let mut found = Vec::new(alloc);
    let mut walk = act_initialisers(app, act);
    while let Some((body, rest)) = next_initialiser(app, walk) {
        walk = rest;
        add(app, &mut found, body)?;
    }
    Ok(found)
}

/// Adds the body, where it has code.
fn add(app: &App, found: &mut Vec<u32>, body: u32) -> Result<(), Memory>
    ensures { OnOk result (found.new.items ≡ found.old.items
        ++ map number_of (option_to_list (with_code app.now body))) }
{
    match code_of(app, body) {
        None => Ok(()),
        Some(_method) => {
            found.push(body)?;
            Ok(())
        }
    }
}

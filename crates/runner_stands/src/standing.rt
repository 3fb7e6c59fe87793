ghost use Rattle.std.specs.Prelude.{◌≡◌, ◌<◌, ◌++◌, ◌∷◌, [], IfOk, OnOk, Some, if◌then◌else◌, length, map};
ghost use Rattle.app_machine.specs.Lookups.{step_at};
ghost use Rattle.played_machine.specs.Ordered.{ascending};
ghost use Rattle.played_machine.specs.Standing.{causes_at, if_native_then, stands_of};
ghost use Rattle.runner_calls.specs.Frames.{frames_of};
ghost use Rattle.runner_stands.specs.Stands.{cause_in, number_of, numbers_in, stand_at, stand_of};
ghost use Rattle.runner_state.specs.Shown.{frame_in};
ghost use Rattle.runner_steps.specs.State.{IsGround};
ghost use Rattle.runner_world.specs.World.{world_in};

use crate::bodies::native_bodies;
use crate::causes::{Cause, cause_of_act, initialises_natively};
use app_machine::Step;
use app_model::step_at;
use runner_state::Called;
use runner_steps::{Ground, Playing};
use runner_world::World;
use std::alloc::Global;
use vet_base::Memory;

/// Where a run stands, and why: 1 for a call without a row, 2 for a native body, 3 for reflection.
#[derive(Clone, Copy, Debug, PartialEq, Eq)]
pub struct Stand {
    pub cause: u8,
    pub method: u32,
    pub pc: u32,
}

/// Where the state stands, by cause, method and address: at the running frame's instruction, or, where no frame runs,
/// at the beginning of native bodies that events may run.
pub fn stands_of<'a>(
    alloc: Global,
    ground: &Ground<'a>,
    playing: &Playing<'a>,
) -> Result<Vec<Stand>, Memory>
    requires { IsGround ground.now }
    ensures { IfOk result (λ stands. map stand_of stands.items ≡ stands_of ground.now.app.now ground.now.lists.now
        (world_in playing.now.world) (frames_of playing.now.frames)) }
{
    match playing.frames.running() {
        None => native_bodies(alloc, ground, &playing.world),
        Some(running) => stands_at(alloc, ground, &playing.world, running),
    }
}

/// Why what comes next in the frame is not modelled.
fn stands_at<'a>(
    alloc: Global,
    ground: &Ground<'a>,
    world: &World<'a>,
    running: &Called,
) -> Result<Vec<Stand>, Memory>
    requires { IsGround ground.now }
    ensures { IfOk result (λ stands. map stand_of stands.items
        ≡ map (stand_at running.now.method running.now.pc) (ascending (causes_at ground.now.app.now
        ground.now.lists.now (world_in world.now) (frame_in running.now)
        (step_at ground.now.app.now running.now.method running.now.pc)))) }
{
    match step_at(ground.app, running.method, running.pc) {
        None => Ok(Vec::new(alloc)),
        Some(step) => stands_before(alloc, ground, world, running, step),
    }
}

/// Why this instruction of the frame is not modelled.
fn stands_before<'a>(
    alloc: Global,
    ground: &Ground<'a>,
    world: &World<'a>,
    running: &Called,
    step: &'a Step,
) -> Result<Vec<Stand>, Memory>
    requires ground { IsGround ground.now }
    requires caller { running.now.method < length ground.now.app.now.methods }
    ensures { IfOk result (λ stands. map stand_of stands.items
        ≡ map (stand_at running.now.method running.now.pc) (ascending (causes_at ground.now.app.now
        ground.now.lists.now (world_in world.now) (frame_in running.now) (Some step.now)))) }
{
    let call = cause_of_act(ground, world, running, &step.act);
    let natively = initialises_natively(ground.app, &step.act);
    let causes = all_causes(call, natively);
    let mut stands = Vec::new(alloc);
    add_if(&mut stands, running, 1, causes.no_summary)?;
    add_if(&mut stands, running, 2, causes.native)?;
    add_if(&mut stands, running, 3, causes.reflective)?;
    Ok(stands)
}

/// Which causes hold.
#[derive(Clone, Copy)]
struct Causes {
    no_summary: bool,
    native: bool,
    reflective: bool,
}

/// That of the call, and whether an initialiser is native.
fn all_causes(call: Option<Cause>, natively: bool) -> Causes
    ensures { numbers_in result ≡ ascending (cause_in call ++ if_native_then natively) }
{
    match call {
        None => Causes {
            no_summary: false,
            native: natively,
            reflective: false,
        },
        Some(cause) => with_cause(cause, natively),
    }
}

/// The cause of the call, and whether an initialiser is native.
fn with_cause(cause: Cause, natively: bool) -> Causes
    ensures { numbers_in result ≡ ascending (number_of cause ∷ [] ++ if_native_then natively) }
{
    match cause {
        Cause::NoSummary => Causes {
            no_summary: true,
            native: natively,
            reflective: false,
        },
        Cause::Native => Causes {
            no_summary: false,
            native: true,
            reflective: false,
        },
        Cause::Reflective => Causes {
            no_summary: false,
            native: natively,
            reflective: true,
        },
    }
}

/// Adds that the frame stands for the cause, where it does.
fn add_if(stands: &mut Vec<Stand>, running: &Called, cause: u8, holds: bool) -> Result<(), Memory>
    ensures { OnOk result (map stand_of stands.new.items ≡ map stand_of stands.old.items
        ++ (if holds then stand_at running.now.method running.now.pc cause ∷ [] else [])) }
{
    if !holds {
        return Ok(());
    }
    stands.push(Stand {
        cause,
        method: running.method,
        pc: running.pc,
    })?;
    Ok(())
}

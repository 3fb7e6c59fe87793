ghost use Rattle.std.specs.Prelude.{◌≡◌, IfOk, OnOk, map};
ghost use Rattle.app_machine.specs.Lookups.{step_at};
ghost use Rattle.played_growth.specs.Growth.{classes_of};
ghost use Rattle.played_machine.specs.Step.{initialisers_at, ways};
ghost use Rattle.runner_below.specs.Kept.{AreBelow};
ghost use Rattle.runner_calls.specs.Frames.{frames_of, number_of};
ghost use Rattle.runner_heap.specs.Objects.{heap_of};
ghost use Rattle.runner_steps.specs.State.{IsGround, Makes, on_running, playing_in};
ghost use Rattle.runner_turns.specs.Ways.{one_way};
ghost use Rattle.runner_world.specs.World.{world_in};

use crate::choosing::choose;
use app_model::step_at;
use runner_below::Belows;
use runner_calls::initialisers;
use runner_state::{Called, Script};
use runner_steps::{Ground, Playing, doing_here};
use std::alloc::Global;
use vet_base::Memory;

/// A step of the running frame: one of the initialisers with code that may be entered, by class upward; the
/// instruction's own, where the machine has one; the raise of a blank. Without a frame there is none.
pub fn step_running<'a, 's>(
    alloc: Global,
    ground: &Ground<'a>,
    belows: &mut Belows<'a>,
    playing: &mut Playing<'a>,
    script: Script<'s>,
) -> Result<Option<Script<'s>>, Memory>
    requires ground { IsGround ground.now }
    requires fits { AreBelow ground.now.app.now ground.now.lists.now (classes_of (heap_of playing.old.world.heap))
        playing.old.world.handed belows.old }
    ensures made { IfOk result (Makes (on_running (λ f fs. one_way (ways ground.now.app.now ground.now.lists.now
        (world_in playing.old.world) f fs)) (frames_of playing.old.frames)
        script.entry.left.now) (playing_in playing.old) (playing_in playing.new)) }
    ensures fits { OnOk result (AreBelow ground.now.app.now ground.now.lists.now
        (classes_of (heap_of playing.old.world.heap)) playing.old.world.handed belows.new) }
{
    match playing.frames.running() {
        None => Ok(None),
        Some(running) => {
            let first = initialisers_here(alloc, ground, running)?;
            let does = doing_here(ground, &playing.world, &playing.frames);
            choose(
                alloc,
                ground,
                belows,
                playing,
                first.as_slice(),
                does,
                script,
            )
        }
    }
}

/// The initialisers with code that may be entered before the frame's instruction.
fn initialisers_here(
    alloc: Global,
    ground: &Ground<'_>,
    running: &Called,
) -> Result<Vec<u32>, Memory>
    requires { IsGround ground.now }
    ensures { IfOk result (λ first. first.items ≡ map number_of (initialisers_at ground.now.app.now
        (step_at ground.now.app.now running.now.method running.now.pc))) }
{
    match step_at(ground.app, running.method, running.pc) {
        None => Ok(Vec::new(alloc)),
        Some(step) => initialisers(alloc, ground.app, &step.act),
    }
}

ghost use Rattle.std.specs.Prelude.{◌∷◌, IfOk, OnOk};
ghost use Rattle.played_growth.specs.Growth.{classes_of};
ghost use Rattle.played_machine.specs.Local.{raised};
ghost use Rattle.runner_below.specs.Kept.{AreBelow};
ghost use Rattle.runner_calls.specs.Frames.{frames_of};
ghost use Rattle.runner_heap.specs.Objects.{heap_of};
ghost use Rattle.runner_steps.specs.Doing.{NamesFew, drawing_in};
ghost use Rattle.runner_steps.specs.State.{IsGround, Makes, on_running, playing_in};
ghost use Rattle.runner_world.specs.World.{world_in};

use crate::calling::call_library;
use runner_below::Belows;
use runner_state::Script;
use runner_steps::{Doing, Ground, Playing, act, call_body, raise, return_from};
use std::alloc::Global;
use vet_base::Memory;

/// Does what the running frame's instruction does.
pub fn carry_out<'a, 's>(
    alloc: Global,
    ground: &Ground<'a>,
    belows: &mut Belows<'a>,
    playing: &mut Playing<'a>,
    does: Doing<'a>,
    script: Script<'s>,
) -> Result<Option<Script<'s>>, Memory>
    requires ground { IsGround ground.now }
    requires few { NamesFew does }
    requires fits { AreBelow ground.now.app.now ground.now.lists.now (classes_of (heap_of playing.old.world.heap))
        playing.old.world.handed belows.old }
    ensures made { IfOk result (Makes (on_running (λ f fs. drawing_in ground.now.app.now ground.now.lists.now
        (world_in playing.old.world) f fs does.entry) (frames_of playing.old.frames) script.entry.left.now)
        (playing_in playing.old) (playing_in playing.new)) }
    ensures fits { OnOk result (AreBelow ground.now.app.now ground.now.lists.now
        (classes_of (heap_of playing.old.world.heap)) playing.old.world.handed belows.new) }
{
    match does {
        Doing::Acts(step) => act(alloc, ground, playing, step, script),
        Doing::CallsBody(body, args) => call_body(alloc, ground, playing, body, args, script),
        Doing::CallsLibrary(of, next) => call_library(
            alloc, ground, belows, playing, of, next, script,
        ),
        Doing::Returns(register) => return_from(ground, playing, register, script),
        Doing::Throws(register) => throw(ground, playing, register, script),
    }
}

/// Raises the value of the register.
fn throw<'a, 's>(
    ground: &Ground<'a>,
    playing: &mut Playing<'a>,
    register: u32,
    script: Script<'s>,
) -> Result<Option<Script<'s>>, Memory>
    requires { IsGround ground.now }
    ensures { IfOk result (Makes (on_running (λ f fs. raised ground.now.app.now (f.registers register)
        (world_in playing.old.world) (f ∷ fs)) (frames_of playing.old.frames) script.entry.left.now)
        (playing_in playing.old) (playing_in playing.new)) }
{
    match playing.frames.running() {
        None => Ok(None),
        Some(running) => {
            let value = running.registers.get(register);
            raise(ground, playing, value, script)
        }
    }
}

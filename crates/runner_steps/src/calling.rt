ghost use Rattle.std.specs.Prelude.{◌∷◌, IfOk, false};
ghost use Rattle.app_machine.specs.Calls.{arguments};
ghost use Rattle.played_machine.specs.Calling.{code_of};
ghost use Rattle.played_machine.specs.Drawing.{give};
ghost use Rattle.played_machine.specs.Local as local;
ghost use Rattle.runner_calls.specs.Frames.{entered_with, frames_of};
ghost use Rattle.runner_steps.specs.State.{IsGround, Makes, on_running, playing_in};
ghost use Rattle.runner_world.specs.World.{world_in};

use crate::ground::Ground;
use crate::playing::Playing;
use runner_local::values_of;
use runner_state::Script;
use std::alloc::Global;
use vet_base::Memory;

/// The body begins with the values of these registers of the running frame.
pub fn call_body<'a, 's>(
    alloc: Global,
    ground: &Ground<'a>,
    playing: &mut Playing<'a>,
    body: u32,
    args: &[u32],
    script: Script<'s>,
) -> Result<Option<Script<'s>>, Memory>
    requires { IsGround ground.now }
    ensures { IfOk result (Makes (on_running (λ f fs. give (local.playing (world_in playing.old.world)
        (entered_with (code_of ground.now.app.now body) body (arguments f args.now) false (f ∷ fs))))
        (frames_of playing.old.frames) script.entry.left.now) (playing_in playing.old) (playing_in playing.new)) }
{
    match playing.frames.running() {
        None => Ok(None),
        Some(running) => {
            let arguments = values_of(alloc, &running.registers, args)?;
            let slice = arguments.as_slice();
            playing.frames.enter(alloc, ground.app, body, slice, false)?;
            Ok(Some(script))
        }
    }
}

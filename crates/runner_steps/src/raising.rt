ghost use Rattle.std.specs.Prelude.{IfOk};
ghost use Rattle.played_machine.specs.Local.{raised};
ghost use Rattle.runner_calls.specs.Frames.{frames_of};
ghost use Rattle.runner_state.specs.Shown.{value_of};
ghost use Rattle.runner_steps.specs.State.{IsGround, Makes, playing_in};
ghost use Rattle.runner_world.specs.World.{world_in};

use crate::ground::Ground;
use crate::playing::Playing;
use runner_calls::lands;
use runner_state::{Held, Script};
use vet_base::Memory;

/// Raises the value in the running frame.
pub fn raise<'a, 's>(
    ground: &Ground<'a>,
    playing: &mut Playing<'a>,
    value: Held,
    script: Script<'s>,
) -> Result<Option<Script<'s>>, Memory>
    requires { IsGround ground.now }
    ensures { IfOk result (Makes (raised ground.now.app.now (value_of value) (world_in playing.old.world)
        (frames_of playing.old.frames) script.entry.left.now) (playing_in playing.old) (playing_in playing.new)) }
{
    match lands(ground.app, &playing.frames, script) {
        None => Ok(None),
        Some((landing, left)) => {
            playing.frames.land(landing, value)?;
            Ok(Some(left))
        }
    }
}

ghost use Rattle.std.specs.Prelude.{◌≡◌, IfOk, OnOk, drop, reverse};
ghost use Rattle.app_machine.specs.Calls.{hand, returned};
ghost use Rattle.played_alike.specs.Alike.{AlikeWorld};
ghost use Rattle.runner_calls.specs.Frames.{frames_of};
ghost use Rattle.runner_state.specs.Shown.{frame_in, value_of};
ghost use Rattle.runner_steps.specs.Back.{again_or_on, back_to, on_with, returns_to};
ghost use Rattle.runner_steps.specs.State.{IsGround, Makes, on_running, playing_in};
ghost use Rattle.runner_world.specs.World.{world_in};

use crate::acting::one_of;
use crate::doing::next_of;
use crate::ground::Ground;
use crate::playing::Playing;
use runner_state::{Called, Held, RESULT, Script};
use vet_base::Memory;

/// The running frame returns: to the caller, which tries its instruction again after an initialiser and else goes on
/// with the result; or the event ends, and its result is handed to the library.
pub fn return_from<'a, 's>(
    ground: &Ground<'a>,
    playing: &mut Playing<'a>,
    register: Option<u32>,
    script: Script<'s>,
) -> Result<Option<Script<'s>>, Memory>
    requires { IsGround ground.now }
    ensures { IfOk result (Makes (on_running (returns_to ground.now.app.now (world_in playing.old.world) register)
        (frames_of playing.old.frames) script.entry.left.now) (playing_in playing.old) (playing_in playing.new)) }
{
    match playing.frames.running() {
        None => Ok(None),
        Some(running) => {
            let result = returned(running, register);
            let initialises = running.initialises;
            go_back(ground, playing, result, initialises, script)
        }
    }
}

/// The value that the frame returns.
fn returned(running: &Called, register: Option<u32>) -> Held
    ensures { value_of result ≡ returned (frame_in running.now) register }
{
    match register {
        None => Held::blank(),
        Some(register) => running.registers.get(register),
    }
}

/// Goes back to the caller with the value, or ends the event.
fn go_back<'a, 's>(
    ground: &Ground<'a>,
    playing: &mut Playing<'a>,
    value: Held,
    initialises: bool,
    script: Script<'s>,
) -> Result<Option<Script<'s>>, Memory>
    requires { IsGround ground.now }
    ensures { IfOk result (Makes (back_to ground.now.app.now (world_in playing.old.world) (value_of value)
        initialises (drop 1 (frames_of playing.old.frames)) script.entry.left.now) (playing_in playing.old)
        (playing_in playing.new)) }
{
    match playing.frames.caller() {
        None => {
            end_event(playing, value)?;
            Ok(Some(script))
        }
        Some(caller) => {
            let next = next_of(ground, caller);
            resume(playing, value, initialises, next, script)
        }
    }
}

/// The running frame goes, and the value is handed to the library.
fn end_event(playing: &mut Playing, value: Held) -> Result<(), Memory>
    ensures world { OnOk result (AlikeWorld (record (world_in playing.old.world) {
      handed = hand (value_of value).place (reverse playing.old.world.handed);
    }) (world_in playing.new.world)) }
    ensures frames { OnOk result (frames_of playing.new.frames ≡ drop 1 (frames_of playing.old.frames)) }
{
    playing.world.handed.hand(value.place)?;
    playing.frames.leave();
    Ok(())
}

/// The running frame goes, and its caller tries again, or goes on at one of the next with the value.
fn resume<'s>(
    playing: &mut Playing,
    value: Held,
    initialises: bool,
    next: &[u32],
    script: Script<'s>,
) -> Result<Option<Script<'s>>, Memory>
    ensures { IfOk result (Makes (again_or_on (world_in playing.old.world) (value_of value) next.now
        (drop 1 (frames_of playing.old.frames)) initialises script.entry.left.now) (playing_in playing.old)
        (playing_in playing.new)) }
{
    if initialises {
        playing.frames.leave();
        Ok(Some(script))
    } else {
        go_on_next(playing, value, next, script)
    }
}

/// The running frame goes, and its caller goes on at one of the next with the value.
fn go_on_next<'s>(
    playing: &mut Playing,
    value: Held,
    next: &[u32],
    script: Script<'s>,
) -> Result<Option<Script<'s>>, Memory>
    ensures { IfOk result (Makes (on_with (world_in playing.old.world) (value_of value) next.now
        (drop 1 (frames_of playing.old.frames)) script.entry.left.now) (playing_in playing.old)
        (playing_in playing.new)) }
{
    match one_of(next, script) {
        None => Ok(None),
        Some((pc, left)) => {
            playing.frames.leave();
            playing.frames.go_on(RESULT, value, pc)?;
            Ok(Some(left))
        }
    }
}

ghost use Rattle.std.specs.Prelude.{◌≡◌, ◌<◌, IfOk, OnOk, Some, drop, option_map, slice_get};
ghost use Rattle.std.specs.List.{All};
ghost use Rattle.app_machine.specs.Sound.{SoundApp};
ghost use Rattle.app_machine.specs.State.{Frame};
ghost use Rattle.played_alike.specs.Alike.{AlikePlaying};
ghost use Rattle.runner_calls.specs.Frames.{frames_of};
ghost use Rattle.runner_library.specs.Call.{row_in, shared_in, values_in};
ghost use Rattle.runner_state.specs.Shown.{bytes_behind, value_of};
ghost use Rattle.runner_steps.specs.State.{IsGround, Makes, on_running, playing_in};
ghost use Rattle.runner_steps.specs.Went.{called_by, called_in, drawn_after, either_way, on_at, raised_to, went};
ghost use Rattle.runner_world.specs.World.{world_in};

use crate::acting::one_of;
use crate::ground::Ground;
use crate::playing::Playing;
use app_machine::App;
use runner_calls::{Frames, Landing, lands};
use runner_library::{LibraryCall, call};
use runner_state::{Held, RESULT, Script};
use std::alloc::Global;
use vet_base::Memory;

/// How a frame goes on after a library call.
#[derive(Clone, Copy)]
enum After {
    /// At this address, with the result.
    GoesOn(u32),
    /// A blank is raised.
    Raises(Option<Landing>),
}

/// The library does what its row says, where what the script gives the call is known, and the running frame goes on, or
/// a blank is raised. Without a frame nothing is done.
pub fn call_given<'a, 's>(
    alloc: Global,
    ground: &Ground<'a>,
    playing: &mut Playing<'a>,
    of: LibraryCall<'a>,
    next: &[u32],
    read: Held,
    script: Script<'s>,
) -> Result<Option<Script<'s>>, Memory>
    requires ground { IsGround ground.now }
    requires few { All (λ i. i < 65536) (shared_in of) }
    ensures { IfOk result (Makes (on_running (called_in ground.now.app.now ground.now.lists.now
        (world_in playing.old.world) of.entry next.now (value_of read)) (frames_of playing.old.frames)
        script.entry.left.now) (playing_in playing.old) (playing_in playing.new)) }
{
    match playing.frames.running() {
        None => Ok(None),
        Some(_running) => call_running(alloc, ground, playing, of, next, read, script),
    }
}

/// The same where there is a frame.
fn call_running<'a, 's>(
    alloc: Global,
    ground: &Ground<'a>,
    playing: &mut Playing<'a>,
    of: LibraryCall<'a>,
    next: &[u32],
    read: Held,
    script: Script<'s>,
) -> Result<Option<Script<'s>>, Memory>
    requires ground { IsGround ground.now }
    requires few { All (λ i. i < 65536) (shared_in of) }
    ensures { (f : Frame) → Some f ≡ slice_get (frames_of playing.old.frames) 0 →
        IfOk result (Makes (called_in ground.now.app.now ground.now.lists.now (world_in playing.old.world) of.entry
        next.now (value_of read) f (drop 1 (frames_of playing.old.frames)) script.entry.left.now)
        (playing_in playing.old) (playing_in playing.new)) }
{
    match after_call(ground.app, &playing.frames, next, script) {
        None => Ok(None),
        Some((after, left)) => {
            make_call(alloc, ground, playing, of, read, after)?;
            Ok(Some(left))
        }
    }
}

/// 0 goes on, 1 raises.
fn after_call<'s>(
    app: &App,
    frames: &Frames,
    next: &[u32],
    script: Script<'s>,
) -> Option<(After, Script<'s>)>
    requires { SoundApp app.now }
    ensures { option_map bytes_behind result
        ≡ drawn_after app.now (frames_of frames.now) next.now script.entry.left.now }
{
    match script.draw(2) {
        None => None,
        Some((way, left)) => this_way(app, frames, next, way, left),
    }
}

fn this_way<'s>(
    app: &App,
    frames: &Frames,
    next: &[u32],
    way: usize,
    script: Script<'s>,
) -> Option<(After, Script<'s>)>
    requires { SoundApp app.now }
    ensures { option_map bytes_behind result
        ≡ either_way app.now (frames_of frames.now) next.now way script.entry.left.now }
{
    if way == 0 {
        goes_on(next, script)
    } else {
        raises(app, frames, script)
    }
}

fn goes_on<'s>(next: &[u32], script: Script<'s>) -> Option<(After, Script<'s>)>
    ensures { option_map bytes_behind result ≡ on_at next.now script.entry.left.now }
{
    match one_of(next, script) {
        None => None,
        Some((pc, left)) => Some((After::GoesOn(pc), left)),
    }
}

fn raises<'s>(app: &App, frames: &Frames, script: Script<'s>) -> Option<(After, Script<'s>)>
    requires { SoundApp app.now }
    ensures { option_map bytes_behind result ≡ raised_to app.now (frames_of frames.now) script.entry.left.now }
{
    match lands(app, frames, script) {
        None => None,
        Some((landing, left)) => Some((After::Raises(landing), left)),
    }
}

/// Makes the call, and the frames go on.
fn make_call<'a>(
    alloc: Global,
    ground: &Ground<'a>,
    playing: &mut Playing<'a>,
    of: LibraryCall<'a>,
    read: Held,
    after: After,
) -> Result<(), Memory>
    requires ground { IsGround ground.now }
    requires few { All (λ i. i < 65536) (shared_in of) }
    ensures { (f : Frame) → Some f ≡ slice_get (frames_of playing.old.frames) 0 →
        OnOk result (AlikePlaying (called_by ground.now.app.now ground.now.lists.now (world_in playing.old.world)
        (values_in of.entry f.registers) f.method f.pc of.entry.at.now.proto.ret (row_in of.entry)
        (frames_of playing.old.frames) (value_of read) after) (playing_in playing.new)) }
{
    match playing.frames.running() {
        None => Ok(()),
        Some(running) => {
            let held = call(
                alloc,
                ground.app,
                ground.lists,
                &mut playing.world,
                running,
                of,
                read,
            )?;
            go(&mut playing.frames, held, after)?;
            Ok(())
        }
    }
}

/// The frames go on with the result.
fn go(frames: &mut Frames, held: Held, after: After) -> Result<(), Memory>
    ensures { OnOk result (frames_of frames.new ≡ went (value_of held) (frames_of frames.old) after) }
{
    match after {
        After::GoesOn(pc) => {
            frames.go_on(RESULT, held, pc)?;
            Ok(())
        }
        After::Raises(landing) => {
            frames.land(landing, Held::blank())?;
            Ok(())
        }
    }
}

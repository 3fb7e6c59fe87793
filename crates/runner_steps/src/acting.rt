ghost use Rattle.std.specs.Prelude.{◌≡◌, IfOk, OnOk, option_map};
ghost use Rattle.played_alike.specs.Alike.{AlikePlaying};
ghost use Rattle.played_machine.specs.Drawing.{one_of};
ghost use Rattle.played_machine.specs.Step.{acts};
ghost use Rattle.runner_calls.specs.Frames.{frames_of};
ghost use Rattle.runner_heap.specs.Objects.{heap_of};
ghost use Rattle.runner_state.specs.Shown.{bytes_behind, frame_in, value_of};
ghost use Rattle.runner_steps.specs.Given.{acted, given_behind, given_to, next_given};
ghost use Rattle.runner_steps.specs.State.{IsGround, Makes, on_running, playing_in};
ghost use Rattle.runner_world.specs.World.{world_in};

use crate::ground::Ground;
use crate::playing::Playing;
use app_machine::Step;
use runner_heap::Heap;
use runner_local::{change, read};
use runner_state::{Called, Held, Script};
use std::alloc::Global;
use vet_base::Memory;

/// The instruction does what it does in its method, and the frame goes on.
pub fn act<'a, 's>(
    alloc: Global,
    ground: &Ground<'a>,
    playing: &mut Playing<'a>,
    step: &'a Step,
    script: Script<'s>,
) -> Result<Option<Script<'s>>, Memory>
    requires { IsGround ground.now }
    ensures { IfOk result (Makes (on_running (λ f fs. acts ground.now.app.now ground.now.lists.now
        (world_in playing.old.world) f fs step.entry.now.next step.entry.now.act) (frames_of playing.old.frames)
        script.entry.left.now) (playing_in playing.old) (playing_in playing.new)) }
{
    match given_here(playing, step, script) {
        None => Ok(None),
        Some((given, left)) => {
            change_running(alloc, ground, playing, step, given)?;
            Ok(Some(left))
        }
    }
}

/// What an instruction is given.
#[derive(Clone, Copy)]
struct Given {
    read: Held,
    /// Where control goes next.
    pc: u32,
}

/// What the running frame's instruction is given. None exactly where there is no frame, nowhere to go, or too few
/// bytes.
fn given_here<'s>(playing: &Playing, step: &Step, script: Script<'s>) -> Option<(Given, Script<'s>)>
    ensures { option_map given_behind result ≡ on_running (λ f fs. given_to (heap_of playing.now.world.heap) f step.now)
        (frames_of playing.now.frames) script.entry.left.now }
{
    match playing.frames.running() {
        None => None,
        Some(running) => given_in(&playing.world.heap, running, step, script),
    }
}

/// The same in this frame.
fn given_in<'s>(
    heap: &Heap,
    running: &Called,
    step: &Step,
    script: Script<'s>,
) -> Option<(Given, Script<'s>)>
    ensures { option_map given_behind result
        ≡ given_to (heap_of heap.now) (frame_in running.now) step.now script.entry.left.now }
{
    match read(heap, &running.registers, &step.act, script) {
        None => None,
        Some((read, left)) => given_next(step, read, left),
    }
}

/// Where control goes next, beside what was read.
fn given_next<'s>(step: &Step, read: Held, script: Script<'s>) -> Option<(Given, Script<'s>)>
    ensures { option_map given_behind result ≡ next_given step.now.next (value_of read) script.entry.left.now }
{
    match one_of(step.next.as_slice(), script) {
        None => None,
        Some((pc, left)) => Some((Given { read, pc }, left)),
    }
}

/// One of these addresses. None exactly where there is none, or no byte.
pub fn one_of<'s>(next: &[u32], script: Script<'s>) -> Option<(u32, Script<'s>)>
    ensures { option_map bytes_behind result ≡ one_of next.now script.entry.left.now }
{
    if next.is_empty() {
        return None;
    }
    match script.draw(next.len()) {
        None => None,
        Some((i, left)) => Some((next[i], left)),
    }
}

/// Does the act in the running frame, which goes on at the address.
fn change_running<'a>(
    alloc: Global,
    ground: &Ground<'a>,
    playing: &mut Playing<'a>,
    step: &'a Step,
    given: Given,
) -> Result<(), Memory>
    requires { IsGround ground.now }
    ensures { OnOk result (AlikePlaying (acted ground.now.app.now ground.now.lists.now (world_in playing.old.world)
        step.entry.now.act (value_of given.read, given.pc) (frames_of playing.old.frames)) (playing_in playing.new)) }
{
    let count = playing.frames.called.len();
    if count == 0 {
        return Ok(());
    }
    let running = &mut playing.frames.called[count - 1];
    change(
        alloc,
        ground.app,
        &ground.library,
        &mut playing.world,
        &mut running.registers,
        &step.act,
        given.read,
    )?;
    running.pc = given.pc;
    Ok(())
}

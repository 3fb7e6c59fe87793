ghost use Rattle.std.specs.Prelude.{◌≡◌, ◌<◌, ◌∷◌, [], IfSome, List, ℕ, Some, drop, length, option_map, slice_get};
ghost use Rattle.app_machine.specs.declared.app.App.{App as AnApp};
ghost use Rattle.app_machine.specs.declared.lists.Lists.{Lists as TheLists};
ghost use Rattle.app_machine.specs.Lookups.{is_static_call, step_at};
ghost use Rattle.app_machine.specs.State.{Frame, World as AWorld};
ghost use Rattle.app_machine.specs.Summaries.{summary};
ghost use Rattle.app_model.specs.Targets.{shown_target};
ghost use Rattle.played_machine.specs.Calling.{call_target, called_row, code_of};
ghost use Rattle.played_machine.specs.Local.{next_of};
ghost use Rattle.played_machine.specs.Step.{acts, calls_body, calls_row, calls_target, does, returns, where_next};
ghost use Rattle.runner_calls.specs.Frames.{frames_of};
ghost use Rattle.runner_heap.specs.Objects.{heap_of};
ghost use Rattle.runner_library.specs.Call.{row_in};
ghost use Rattle.runner_state.specs.Shown.{frame_in};
ghost use Rattle.runner_steps.specs.Doing.{IsCallOf, NamesFew, does_there, drawing_in, drawing_of};
ghost use Rattle.runner_steps.specs.State.{IsGround};
ghost use Rattle.runner_world.specs.World.{world_in};

use crate::ground::Ground;
use app_machine::{Act, CallKind, MethodRef, Step, SummaryId};
use app_model::{Target, is_reflective, is_static_call, step_at, summary_of};
use runner_calls::{Frames, call_target, code_of};
use runner_library::LibraryCall;
use runner_state::Called;
use runner_world::World;
use vet_base::Name;

/// What an instruction does, where the machine has a step for it.
#[derive(Clone, Copy)]
pub enum Doing<'a> {
    /// It stays in its method.
    Acts(&'a Step),
    /// It calls a body with code, with these argument registers.
    CallsBody(u32, &'a [u32]),
    /// It calls the library, and goes on at one of these.
    CallsLibrary(LibraryCall<'a>, &'a [u32]),
    /// It returns the value of the register, where there is one.
    Returns(Option<u32>),
    /// It throws the value of the register.
    Throws(u32),
}

/// What the running frame's instruction does. None exactly where the machine has no step for it.
pub fn doing_here<'a>(ground: &Ground<'a>, world: &World<'a>, frames: &Frames) -> Option<Doing<'a>>
    requires { IsGround ground.now }
    ensures same { drawing_of ground.now.app.now ground.now.lists.now (world_in world.now) (frames_of frames.now) result
        ≡ does_there ground.now.app.now ground.now.lists.now (world_in world.now) (frames_of frames.now) }
    ensures few { IfSome result NamesFew }
{
    match frames.running() {
        None => None,
        Some(running) => done_at(ground, world, frames, running),
    }
}

/// What the instruction of this frame does, which is the running one.
fn done_at<'a>(
    ground: &Ground<'a>,
    world: &World<'a>,
    frames: &Frames,
    running: &Called,
) -> Option<Doing<'a>>
    requires ground { IsGround ground.now }
    requires top { Some (frame_in running.now) ≡ slice_get (frames_of frames.now) 0 }
    ensures same { drawing_of ground.now.app.now ground.now.lists.now (world_in world.now) (frames_of frames.now) result
        ≡ does_there ground.now.app.now ground.now.lists.now (world_in world.now) (frames_of frames.now) }
    ensures few { IfSome result NamesFew }
{
    match step_at(ground.app, running.method, running.pc) {
        None => None,
        Some(step) => done_by(ground, world, frames, running, step),
    }
}

/// What this instruction of the running frame does.
fn done_by<'a>(
    ground: &Ground<'a>,
    world: &World<'a>,
    frames: &Frames,
    running: &Called,
    step: &'a Step,
) -> Option<Doing<'a>>
    requires ground { IsGround ground.now }
    requires caller { running.now.method < length ground.now.app.now.methods }
    ensures same { option_map (drawing_in ground.now.app.now ground.now.lists.now (world_in world.now)
        (frame_in running.now) (drop 1 (frames_of frames.now))) result
        ≡ does ground.now.app.now ground.now.lists.now (world_in world.now) (frame_in running.now)
        (drop 1 (frames_of frames.now)) step.entry.now.next step.entry.now.act }
    ensures few { IfSome result NamesFew }
{
    match &step.act {
        Act::Call(kind, at, args) => calls(
            ground,
            world,
            running,
            step,
            *kind,
            at,
            args.as_slice(),
        ),
        Act::Return(register) => goes_back(ground, frames, running, *register),
        Act::Throw(register) => Some(Doing::Throws(*register)),
        _ => stays(step),
    }
}

/// An act in its method, where control goes on from it.
fn stays<'a>(step: &'a Step) -> Option<Doing<'a>>
    ensures same { (app : AnApp) (lists : TheLists) (w : AWorld) (f : Frame) (fs : List Frame) →
        option_map (drawing_in app lists w f fs) result
        ≡ where_next step.entry.now.next (acts app lists w f fs step.entry.now.next step.entry.now.act) }
    ensures few { IfSome result NamesFew }
{
    if step.next.is_empty() {
        None
    } else {
        Some(Doing::Acts(step))
    }
}

/// What a call does: it enters a body with code, or goes by the row or default of the library class.
fn calls<'a>(
    ground: &Ground<'a>,
    world: &World<'a>,
    running: &Called,
    step: &'a Step,
    kind: CallKind,
    at: &'a MethodRef,
    args: &'a [u32],
) -> Option<Doing<'a>>
    requires ground { IsGround ground.now }
    requires caller { running.now.method < length ground.now.app.now.methods }
    ensures same { (w : AWorld) (fs : List Frame) →
        option_map (drawing_in ground.now.app.now ground.now.lists.now w (frame_in running.now) fs) result
        ≡ calls_target ground.now.app.now ground.now.lists.now w (frame_in running.now) fs step.entry.now.next kind
        at.entry.now args.entry.now (call_target ground.now.app.now (heap_of world.now.heap) (frame_in running.now) kind
        at.entry.now args.entry.now) }
    ensures few { IfSome result NamesFew }
{
    match call_target(ground.app, &world.heap, running, kind, at, args) {
        None => None,
        Some(target) => goes_to(ground, step, kind, at, args, target),
    }
}

/// What a call with this target does.
fn goes_to<'a>(
    ground: &Ground<'a>,
    step: &'a Step,
    kind: CallKind,
    at: &'a MethodRef,
    args: &'a [u32],
    target: Target<'a>,
) -> Option<Doing<'a>>
    requires { IsGround ground.now }
    ensures same { (w : AWorld) (f : Frame) (fs : List Frame) →
        option_map (drawing_in ground.now.app.now ground.now.lists.now w f fs) result
        ≡ calls_target ground.now.app.now ground.now.lists.now w f fs step.entry.now.next kind at.entry.now
        args.entry.now (Some (shown_target target.entry)) }
    ensures few { IfSome result NamesFew }
{
    match target {
        Target::Body(body) => enters(ground, body, args),
        Target::Library(class) => goes_by_row(ground, step, kind, at, args, class),
        Target::Nothing => None,
    }
}

/// It enters the body, where that has code.
fn enters<'a>(ground: &Ground<'a>, body: u32, args: &'a [u32]) -> Option<Doing<'a>>
    ensures same { (w : AWorld) (f : Frame) (fs : List Frame) →
        option_map (drawing_in ground.now.app.now ground.now.lists.now w f fs) result
        ≡ calls_body w f fs args.entry.now body (code_of ground.now.app.now body) }
    ensures few { IfSome result NamesFew }
{
    match code_of(ground.app, body) {
        None => None,
        Some(_method) => Some(Doing::CallsBody(body, args)),
    }
}

/// It goes by the row or default of the library class, where there is one.
fn goes_by_row<'a>(
    ground: &Ground<'a>,
    step: &'a Step,
    kind: CallKind,
    at: &'a MethodRef,
    args: &'a [u32],
    class: &Name,
) -> Option<Doing<'a>>
    requires { IsGround ground.now }
    ensures same { (w : AWorld) (f : Frame) (fs : List Frame) →
        option_map (drawing_in ground.now.app.now ground.now.lists.now w f fs) result
        ≡ calls_row ground.now.app.now ground.now.lists.now w f fs step.entry.now.next kind at.entry.now args.entry.now
        (called_row ground.now.app.now ground.now.lists.now class.now kind at.entry.now) }
    ensures few { IfSome result NamesFew }
{
    let is_static = is_static_call(kind);
    match ground
        .library
        .key(ground.app, class, &at.name, &at.proto, is_static)
    {
        None => None,
        Some(key) => goes_by_key(ground, step, kind, at, args, key),
    }
}

/// It goes by the row or default of this key.
fn goes_by_key<'a>(
    ground: &Ground<'a>,
    step: &'a Step,
    kind: CallKind,
    at: &'a MethodRef,
    args: &'a [u32],
    key: SummaryId,
) -> Option<Doing<'a>>
    requires { IsGround ground.now }
    ensures same { (w : AWorld) (f : Frame) (fs : List Frame) →
        option_map (drawing_in ground.now.app.now ground.now.lists.now w f fs) result
        ≡ calls_row ground.now.app.now ground.now.lists.now w f fs step.entry.now.next kind at.entry.now args.entry.now
        (summary ground.now.lists.now key at.entry.now (is_static_call kind)) }
    ensures few { IfSome result NamesFew }
{
    match summary_of(ground.lists, key) {
        None => None,
        Some(view) => {
            let call = LibraryCall {
                kind,
                at,
                args,
                view,
            };
            told(step, call)
        }
    }
}

/// It calls the library, where what that does can be told from the call and control goes on from it.
fn told<'a>(step: &'a Step, call: LibraryCall<'a>) -> Option<Doing<'a>>
    ensures same { (app : AnApp) (lists : TheLists) (w : AWorld) (f : Frame) (fs : List Frame) →
        option_map (drawing_in app lists w f fs) result ≡ calls_row app lists w f fs step.entry.now.next call.entry.kind
        call.entry.at.now call.entry.args.now (Some (row_in call.entry)) }
    ensures it { IfSome result (IsCallOf call.entry) }
{
    if is_reflective(call.view) {
        return None;
    }
    if step.next.is_empty() {
        return None;
    }
    Some(Doing::CallsLibrary(call, step.next.as_slice()))
}

/// A return ends the event, lets the caller try again after an initialiser, or lets it go on, where control goes on
/// from its call.
fn goes_back<'a>(
    ground: &Ground<'a>,
    frames: &Frames,
    running: &Called,
    register: Option<u32>,
) -> Option<Doing<'a>>
    requires { IsGround ground.now }
    ensures same { (lists : TheLists) (w : AWorld) → option_map (drawing_in ground.now.app.now lists w
        (frame_in running.now) (drop 1 (frames_of frames.now))) result
        ≡ returns ground.now.app.now w (frame_in running.now) register (drop 1 (frames_of frames.now)) }
    ensures few { IfSome result NamesFew }
{
    match frames.caller() {
        None => Some(Doing::Returns(register)),
        Some(caller) => {
            if running.initialises {
                return Some(Doing::Returns(register));
            }
            let next = next_of(ground, caller);
            if next.is_empty() {
                return None;
            }
            Some(Doing::Returns(register))
        }
    }
}

/// Where control may go from the frame's instruction.
pub fn next_of<'a>(ground: &Ground<'a>, frame: &Called) -> &'a [u32]
    requires { IsGround ground.now }
    ensures { result.now ≡ next_of (step_at ground.now.app.now frame.now.method frame.now.pc) }
{
    match step_at(ground.app, frame.method, frame.pc) {
        Some(step) => step.next.as_slice(),
        None => &[],
    }
}

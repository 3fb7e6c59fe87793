ghost use Rattle.std.specs.Prelude.{◌≡◌, ◌<◌, Some, length};
ghost use Rattle.std.specs.List.{list_any};
ghost use Rattle.app_machine.specs.Lookups.{initialisers, is_static_call};
ghost use Rattle.app_machine.specs.Sound.{SoundApp};
ghost use Rattle.app_machine.specs.Summaries.{library_key};
ghost use Rattle.app_model.specs.Targets.{shown_target};
ghost use Rattle.played_machine.specs.Calling.{call_target, is_native_body};
ghost use Rattle.played_machine.specs.Standing.{cause_of_key, causes_of_call, causes_of_target, if_native_then};
ghost use Rattle.runner_heap.specs.Objects.{heap_of};
ghost use Rattle.runner_stands.specs.Stands.{cause_in};
ghost use Rattle.runner_state.specs.Shown.{frame_in};
ghost use Rattle.runner_steps.specs.State.{IsGround};
ghost use Rattle.runner_world.specs.World.{world_in};

use app_machine::{Act, App, CallKind, MethodRef, SummaryId};
use app_model::{
    Target, act_initialisers, is_reflective, is_static_call, next_initialiser, summary_of,
};
use runner_calls::call_target;
use runner_state::Called;
use runner_steps::Ground;
use runner_world::World;
use vet_base::Name;

/// Why what comes next is not modelled.
#[derive(Clone, Copy)]
pub enum Cause {
    /// A call to which no row or default applies.
    NoSummary,
    /// A native body.
    Native,
    /// A call by reflection.
    Reflective,
}

/// Why the act is a call that is not modelled, where it is one.
pub fn cause_of_act<'a>(
    ground: &Ground<'a>,
    world: &World<'a>,
    frame: &Called,
    act: &'a Act,
) -> Option<Cause>
    requires ground { IsGround ground.now }
    requires caller { frame.now.method < length ground.now.app.now.methods }
    ensures { cause_in result ≡ causes_of_call ground.now.app.now ground.now.lists.now (world_in world.now)
        (frame_in frame.now) act.now }
{
    match act {
        Act::Call(kind, at, args) => {
            cause_of_call(ground, world, frame, *kind, at, args.as_slice())
        }
        _ => None,
    }
}

/// Why the call is not modelled, where it is not.
fn cause_of_call<'a>(
    ground: &Ground<'a>,
    world: &World<'a>,
    frame: &Called,
    kind: CallKind,
    at: &'a MethodRef,
    args: &[u32],
) -> Option<Cause>
    requires ground { IsGround ground.now }
    requires caller { frame.now.method < length ground.now.app.now.methods }
    ensures { cause_in result ≡ causes_of_target ground.now.app.now ground.now.lists.now kind at.now
        (call_target ground.now.app.now (heap_of world.now.heap) (frame_in frame.now) kind at.now args.now) }
{
    match call_target(ground.app, &world.heap, frame, kind, at, args) {
        None => None,
        Some(target) => cause_of_target(ground, kind, at, target),
    }
}

/// Why a call with this target is not modelled, where it is not.
fn cause_of_target(
    ground: &Ground<'_>,
    kind: CallKind,
    at: &MethodRef,
    target: Target<'_>,
) -> Option<Cause>
    requires { IsGround ground.now }
    ensures { cause_in result ≡ causes_of_target ground.now.app.now ground.now.lists.now kind at.now
        (Some (shown_target target.entry)) }
{
    match target {
        Target::Body(body) => if_native(ground.app, body),
        Target::Library(class) => cause_of_class(ground, kind, at, class),
        Target::Nothing => None,
    }
}

/// That the body is native, where it is.
fn if_native(app: &App, body: u32) -> Option<Cause>
    ensures { cause_in result ≡ if_native_then (is_native_body app.now body) }
{
    if is_native(app, body) {
        Some(Cause::Native)
    } else {
        None
    }
}

/// Why a call that comes to the library class is not modelled, where it is not.
fn cause_of_class(
    ground: &Ground<'_>,
    kind: CallKind,
    at: &MethodRef,
    class: &Name,
) -> Option<Cause>
    requires { IsGround ground.now }
    ensures { cause_in result ≡ cause_of_key ground.now.lists.now at.now (is_static_call kind)
        (library_key ground.now.app.now ground.now.lists.now class.now at.now.name at.now.proto (is_static_call kind)) }
{
    let is_static = is_static_call(kind);
    match ground
        .library
        .key(ground.app, class, &at.name, &at.proto, is_static)
    {
        None => Some(Cause::NoSummary),
        Some(key) => if_reflective(ground, kind, at, key),
    }
}

/// That the row or default of the key is reflective, where it is.
fn if_reflective(
    ground: &Ground<'_>,
    kind: CallKind,
    at: &MethodRef,
    key: SummaryId,
) -> Option<Cause>
    ensures { cause_in result ≡ cause_of_key ground.now.lists.now at.now (is_static_call kind) (Some key) }
{
    match summary_of(ground.lists, key) {
        None => None,
        Some(view) => {
            if is_reflective(view) {
                Some(Cause::Reflective)
            } else {
                None
            }
        }
    }
}

/// Whether one of the initialisers that may run before the act is native.
pub fn initialises_natively(app: &App, act: &Act) -> bool
    requires { SoundApp app.now }
    ensures { result ≡ list_any (is_native_body app.now) (initialisers app.now act.now) }
{
    let mut walk = act_initialisers(app, act);
    while let Some((body, rest)) = next_initialiser(app, walk) {
        walk = rest;
        if is_native(app, body) {
            return true;
        }
    }
    false
}

/// Whether the body is native.
#[tactic(auto, unfolding(played_machine::specs::Calling::is_native_body))]
pub fn is_native(app: &App, body: u32) -> bool
    ensures { result ≡ is_native_body app.now body }
{
    match app.methods.get(body as usize) {
        None => false,
        Some(method) => method.is_native,
    }
}

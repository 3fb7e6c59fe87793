ghost use Rattle.std.specs.Prelude.{◌≡◌, ◌<◌, length, option_map, slice_get};
ghost use Rattle.app_machine.specs.Sound.{SoundApp};
ghost use Rattle.app_model.specs.Targets.{shown_target};
ghost use Rattle.played_machine.specs.Calling.{call_target, receiver_place, target_at};
ghost use Rattle.runner_heap.specs.Objects.{heap_of};
ghost use Rattle.runner_state.specs.Shown.{frame_in};

use app_machine::{App, CallKind, MethodRef};
use app_model::{Target, is_by_receiver, target};
use runner_heap::Heap;
use runner_state::Called;

/// What the call comes to in the frame: by the class of the receiver's object where that counts and the
/// receiver has a place. None where no object is at the place.
#[tactic(auto, unfolding(played_machine::specs::Calling::call_target))]
pub fn call_target<'a>(
    app: &App,
    heap: &Heap<'a>,
    frame: &Called,
    kind: CallKind,
    at: &'a MethodRef,
    args: &[u32],
) -> Option<Target<'a>>
    requires sound { SoundApp app.now }
    requires caller { frame.now.method < length app.now.methods }
    ensures { option_map shown_target result ≡ call_target app.now (heap_of heap.now) (frame_in frame.now) kind
        at.now args.now }
{
    if is_by_receiver(kind) {
        let place = receiver_place(frame, args);
        target_at(app, heap, frame.method, kind, at, place)
    } else {
        Some(target(app, kind, frame.method, at, None))
    }
}

/// The target by the class of the object at the place, where there is one.
fn target_at<'a>(
    app: &App,
    heap: &Heap<'a>,
    method: u32,
    kind: CallKind,
    at: &'a MethodRef,
    place: Option<u32>,
) -> Option<Target<'a>>
    requires sound { SoundApp app.now }
    requires caller { method < length app.now.methods }
    ensures { option_map shown_target result ≡ target_at app.now (heap_of heap.now) method kind at.now place }
{
    match place {
        None => Some(target(app, kind, method, at, None)),
        Some(place) => match heap.class(place) {
            Some(class) => Some(target(app, kind, method, at, Some(class))),
            None => None,
        },
    }
}

/// The place of the receiver.
fn receiver_place(frame: &Called, args: &[u32]) -> Option<u32>
    ensures { result ≡ receiver_place (frame_in frame.now) (slice_get args.now 0) }
{
    match args.first() {
        Some(register) => frame.registers.get(*register).place,
        None => None,
    }
}

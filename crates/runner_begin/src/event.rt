ghost use Rattle.std.specs.Prelude.{◌≡◌, ◌==◌, if◌then◌else◌, None, Some};
ghost use Rattle.app_machine.specs.State.{World as AWorld};
ghost use Rattle.played_machine.specs.Coming.{Receives};
ghost use Rattle.runner_begin.specs.Events.{event_by};
ghost use Rattle.runner_choices.specs.Choices.{born_by, in_state, lived_by};
ghost use Rattle.runner_world.specs.Shown.{state_of};
ghost use Rattle.runner_world.specs.World.{world_in};

use runner_world::{Life, World};
use vet_base::Name;

/// An event with a receiver.
#[derive(Clone, Copy)]
pub struct Received<'a> {
    /// The body that runs, where there is one.
    pub body: Option<u32>,
    /// The receiver's place.
    pub place: Option<u32>,
    /// The positions whose values come labelled.
    pub sources: &'a [(u32, u8)],
    pub change: Change<'a>,
}

/// What the event changes before its body runs.
#[derive(Clone, Copy)]
pub enum Change<'a> {
    Keeps,
    /// The component of this number is in this state.
    Sets(u32, Life),
    /// The component of this number comes to life, as a new object of the class.
    Makes(u32, &'a Name, Life),
}

/// The component comes to life, as an object of the class.
pub fn born<'a>(
    world: &World,
    component: u32,
    class: &'a Name,
    to: u8,
    body: Option<u32>,
) -> Received<'a>
    ensures { event_by (world_in world.now) result
        ≡ born_by (world_in world.now) component class.entry.now to body }
{
    let place = Some(world.heap.next_place());
    Received {
        body,
        place,
        sources: &[],
        change: Change::Makes(component, class, in_state(to, place)),
    }
}

/// The component goes on in its life.
pub fn lived<'a>(world: &World, component: u32, to: u8, body: Option<u32>) -> Received<'a>
    ensures { event_by (world_in world.now) result ≡ lived_by (world_in world.now) component to body }
{
    let place = world.components.get(component).place;
    Received {
        body,
        place,
        sources: &[],
        change: Change::Sets(component, in_state(to, place)),
    }
}

/// The object at the place, where there is one, is called back or clicked.
pub fn called<'a>(place: Option<u32>, sources: &'a [(u32, u8)], body: u32) -> Received<'a>
    ensures { (w : AWorld) → event_by w result ≡ Receives (Some body) place sources.entry.now w }
{
    Received {
        body: Some(body),
        place,
        sources,
        change: Change::Keeps,
    }
}

/// A component in the state: without its object where the state is 0.
fn in_state(to: u8, place: Option<u32>) -> Life
    ensures { state_of result ≡ in_state to place }
{
    Life {
        state: to,
        place: place_in(to, place),
    }
}

fn place_in(to: u8, place: Option<u32>) -> Option<u32>
    ensures { result ≡ (if to == 0 then None else place) }
{
    if to == 0 { None } else { place }
}

ghost use Rattle.std.specs.Prelude.{◌≡◌, ◌++◌, ◌∷◌, ℕ, List, IfOk, OnOk, length, map};
ghost use Rattle.std.specs.Prelude.{option_to_list, reverse, slice_get};
ghost use Rattle.app_machine.specs.Calls.{hand};
ghost use Rattle.app_machine.specs.Sound.{SoundApp};
ghost use Rattle.played_growth.specs.Growth.{classes_of};
ghost use Rattle.played_machine.specs.Librarian.{live_place, live_places};
ghost use Rattle.played_machine.specs.Reading.{handed_places, is_of_type};
ghost use Rattle.runner_below.specs.Below.{below_among, if_below};
ghost use Rattle.runner_given.specs.Given.{IsHandedSince, live_in};
ghost use Rattle.runner_heap.specs.Objects.{heap_of};
ghost use Rattle.runner_library.specs.Over.{hand_each};
ghost use Rattle.runner_state.specs.Shown.{value_of};
ghost use Rattle.runner_world.specs.Shown.{life_at};
ghost use Rattle.runner_world.specs.World.{world_in};

use app_machine::App;
use event_index::EventIndex;
use runner_heap::Heap;
use runner_state::Held;
use runner_world::{Handed, Lives, World};
use std::alloc::Global;
use vet_base::{Memory, Name};

/// The places of these values that were not handed before, each once, and then those of the components that are there.
pub fn others_there(
    alloc: Global,
    app: &App,
    world: &World,
    values: &[Held],
) -> Result<Vec<u32>, Memory>
    requires { SoundApp app.now }
    ensures { IfOk result (λ others. world.now.handed ++ others.items
        ≡ handed_places (hand_each (map value_of values.now) (reverse world.now.handed))
        ++ live_places app.now (world_in world.now)) }
{
    let mut others = handed_since(alloc, &world.handed, values)?;
    add_live(app, &world.components, &mut others)?;
    Ok(others)
}

/// The places of these values that were not handed before, each once.
fn handed_since(alloc: Global, handed: &Handed, values: &[Held]) -> Result<Vec<u32>, Memory>
    ensures { IfOk result (λ new. IsHandedSince handed.now new.items
        (hand_each (map value_of values.now) (reverse handed.now))) }
{
    let mut new = Vec::new(alloc);
    // It is asked for what its clause says of the handed places: they are in order, each once.
    let _before = handed.places();
    for value in values {
        hand_value(handed, &mut new, value.place)?;
    }
    Ok(new)
}

/// Hands the place, where there is one.
fn hand_value(handed: &Handed, new: &mut Vec<u32>, place: Option<u32>) -> Result<(), Memory>
    ensures { OnOk result ((all : List ℕ) → IsHandedSince handed.now new.old.items all →
        IsHandedSince handed.now new.new.items (hand place all)) }
{
    match place {
        None => Ok(()),
        Some(place) => hand_place(handed, new, place),
    }
}

fn hand_place(handed: &Handed, new: &mut Vec<u32>, place: u32) -> Result<(), Memory>
    ensures { OnOk result ((all : List ℕ) → IsHandedSince handed.now new.old.items all →
        IsHandedSince handed.now new.new.items (place ∷ all)) }
{
    if handed.has(place) {
        return Ok(());
    }
    if new.as_slice().contains(&place) {
        return Ok(());
    }
    new.push(place)?;
    Ok(())
}

/// Adds the places of the components that are there.
fn add_live(app: &App, lives: &Lives, places: &mut Vec<u32>) -> Result<(), Memory>
    requires { SoundApp app.now }
    ensures { OnOk result (places.new.items ≡ places.old.items ++ live_in app.now (life_at lives.now)) }
{
    let count = component_count(app);
    for component in 0..count {
        add_life(lives, component, places)?;
    }
    Ok(())
}

fn component_count(app: &App) -> u32
    requires { SoundApp app.now }
    ensures { result ≡ length app.now.components }
{
    app.components.len() as u32
}

/// Adds the place of the component, where it is there.
fn add_life(lives: &Lives, component: u32, places: &mut Vec<u32>) -> Result<(), Memory>
    ensures { OnOk result (places.new.items
        ≡ places.old.items ++ option_to_list (live_place (life_at lives.now component))) }
{
    let life = lives.get(component);
    if life.state == 0 {
        return Ok(());
    }
    match life.place {
        None => Ok(()),
        Some(place) => {
            places.push(place)?;
            Ok(())
        }
    }
}

/// Those of the places whose object is below the type.
pub fn below(
    alloc: Global,
    index: &EventIndex,
    heap: &Heap,
    places: &[u32],
    kind: &Name,
) -> Result<Vec<u32>, Memory>
    requires { SoundApp index.now.0 }
    ensures { IfOk result (λ found. found.items
        ≡ below_among index.now.0 index.now.1 (classes_of (heap_of heap.now)) places.now kind.now) }
{
    let mut found = Vec::new(alloc);
    for place in places {
        add_if(index, heap, *place, kind, &mut found)?;
    }
    Ok(found)
}

/// Adds the place, where its object is below the type.
fn add_if(
    index: &EventIndex,
    heap: &Heap,
    place: u32,
    kind: &Name,
    found: &mut Vec<u32>,
) -> Result<(), Memory>
    requires { SoundApp index.now.0 }
    ensures { OnOk result (found.new.items ≡ found.old.items
        ++ if_below index.now.0 index.now.1 kind.now (slice_get (classes_of (heap_of heap.now)) place) place) }
{
    if !is_below(index, heap, place, kind) {
        return Ok(());
    }
    found.push(place)?;
    Ok(())
}

/// Whether the object at the place is below the type.
fn is_below(index: &EventIndex, heap: &Heap, place: u32, kind: &Name) -> bool
    requires { SoundApp index.now.0 }
    ensures { result ≡ is_of_type index.now.0 index.now.1 kind.now (slice_get (classes_of (heap_of heap.now)) place) }
{
    match heap.class(place) {
        None => false,
        Some(class) => index.is_below(class, kind),
    }
}

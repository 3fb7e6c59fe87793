ghost use Rattle.std.specs.Prelude.{◌≡◌, ◌++◌, ◌∷◌, [], IfOk, OnOk, List, map, option_map, reverse};
ghost use Rattle.app_machine.specs.Heap.{Object};
ghost use Rattle.app_machine.specs.Sound.{SoundApp};
ghost use Rattle.app_machine.specs.State.{new_object};
ghost use Rattle.played_growth.specs.Growth.{classes_of};
ghost use Rattle.played_machine.specs.Coming.{Initialiser, begun};
ghost use Rattle.runner_begin.specs.Begun.{begun_with, code_at, types_of};
ghost use Rattle.runner_begin.specs.Events.{changed_by, event_by, heap_by, lives_by};
ghost use Rattle.runner_begin.specs.Parameters.{drawn_behind, labels_by, parameters_by, planned_in};
ghost use Rattle.runner_below.specs.Kept.{AreBelow};
ghost use Rattle.runner_calls.specs.Frames.{frames_of};
ghost use Rattle.runner_choices.specs.Choices.{event_of};
ghost use Rattle.runner_heap.specs.Objects.{heap_of};
ghost use Rattle.runner_state.specs.Shown.{value_of};
ghost use Rattle.runner_steps.specs.State.{IsGround, Makes, playing_in};
ghost use Rattle.runner_world.specs.Shown.{life_at};
ghost use Rattle.runner_world.specs.World.{world_in};

use crate::drawing::{Drawn, Fresh, parameters};
use crate::entering::{enter, kinds_of};
use crate::event::{Change, Received, born, called, lived};
use crate::making::make_all;
use app_machine::App;
use runner_below::Belows;
use runner_choices::Choice;
use runner_state::{Labels, Script};
use runner_steps::{Ground, Playing};
use runner_world::{Lives, World};
use std::alloc::Global;
use vet_base::{Memory, Name};

/// The event begins, where no frame runs: its component is in the state behind it, and its body runs, where it has one
/// with code. None exactly where the bytes are too few for its parameters, and then all is as before.
pub fn begin<'a, 's>(
    alloc: Global,
    ground: &Ground<'a>,
    belows: &mut Belows<'a>,
    playing: &mut Playing<'a>,
    choice: Choice<'a>,
    script: Script<'s>,
) -> Result<Option<Script<'s>>, Memory>
    requires ground { IsGround ground.now }
    requires idle { frames_of playing.old.frames ≡ [] }
    requires fits { AreBelow ground.now.app.now ground.now.lists.now (classes_of (heap_of playing.old.world.heap))
        playing.old.world.handed belows.old }
    ensures made { IfOk result (Makes (begun ground.now.app.now ground.now.lists.now (world_in playing.old.world)
        (event_of (world_in playing.old.world) choice.entry) script.entry.left.now)
        (playing_in playing.old) (playing_in playing.new)) }
    ensures fits { OnOk result (AreBelow ground.now.app.now ground.now.lists.now
        (classes_of (heap_of playing.old.world.heap)) playing.old.world.handed belows.new) }
{
    match choice {
        Choice::Born(component, class, to, body) => {
            let received = born(&playing.world, component, class, to, body);
            receive(alloc, ground, belows, playing, received, script)
        }
        Choice::Lives(component, to, body) => {
            let received = lived(&playing.world, component, to, body);
            receive(alloc, ground, belows, playing, received, script)
        }
        Choice::Called(place, sources, body) => {
            let received = called(place, sources, body);
            receive(alloc, ground, belows, playing, received, script)
        }
        Choice::Initialises(body) => initialise(alloc, ground, playing, body, script),
    }
}

/// The initialiser runs, where it has code.
fn initialise<'a, 's>(
    alloc: Global,
    ground: &Ground<'a>,
    playing: &mut Playing<'a>,
    body: u32,
    script: Script<'s>,
) -> Result<Option<Script<'s>>, Memory>
    requires ground { IsGround ground.now }
    requires idle { frames_of playing.old.frames ≡ [] }
    ensures { IfOk result (Makes (begun ground.now.app.now ground.now.lists.now (world_in playing.old.world)
        (Initialiser body) script.entry.left.now) (playing_in playing.old) (playing_in playing.new)) }
{
    playing.frames.enter(alloc, ground.app, body, &[], false)?;
    Ok(Some(script))
}

/// An event with a receiver begins.
fn receive<'a, 's>(
    alloc: Global,
    ground: &Ground<'a>,
    belows: &mut Belows<'a>,
    playing: &mut Playing<'a>,
    received: Received<'a>,
    script: Script<'s>,
) -> Result<Option<Script<'s>>, Memory>
    requires ground { IsGround ground.now }
    requires idle { frames_of playing.old.frames ≡ [] }
    requires fits { AreBelow ground.now.app.now ground.now.lists.now (classes_of (heap_of playing.old.world.heap))
        playing.old.world.handed belows.old }
    ensures made { IfOk result (Makes (begun ground.now.app.now ground.now.lists.now (world_in playing.old.world)
        (event_by (world_in playing.old.world) received.entry) script.entry.left.now)
        (playing_in playing.old) (playing_in playing.new)) }
    ensures fits { OnOk result (AreBelow ground.now.app.now ground.now.lists.now
        (classes_of (heap_of playing.old.world.heap)) playing.old.world.handed belows.new) }
{
    let drawn = drawn_for(alloc, ground, belows, &playing.world, received, script)?;
    match drawn {
        None => Ok(None),
        Some((drawn, left)) => {
            carry_out(alloc, ground.app, playing, received, &drawn)?;
            Ok(Some(left))
        }
    }
}

/// What is drawn for the parameters of the event's body, where it has one with code. Nothing is changed yet.
fn drawn_for<'a, 's>(
    alloc: Global,
    ground: &Ground<'a>,
    belows: &mut Belows<'a>,
    world: &World<'a>,
    received: Received<'a>,
    script: Script<'s>,
) -> Result<Option<(Drawn<'a>, Script<'s>)>, Memory>
    requires ground { IsGround ground.now }
    requires fits { AreBelow ground.now.app.now ground.now.lists.now (classes_of (heap_of world.now.heap))
        world.now.handed belows.old }
    ensures drawn { IfOk result (λ drawn. option_map (drawn_behind (heap_of world.now.heap)) drawn
        ≡ parameters_by ground.now.app.now ground.now.lists.now (reverse world.now.handed)
        (labels_by received.entry.sources.now) 1 (types_of (code_at ground.now.app.now received.entry.body))
        (heap_by (heap_of world.now.heap) received.entry.change) script.entry.left.now) }
    ensures fits { OnOk result (AreBelow ground.now.app.now ground.now.lists.now (classes_of (heap_of world.now.heap))
        world.now.handed belows.new) }
{
    let first = first_of(alloc, received.change)?;
    let kinds = kinds_of(ground.app, received.body);
    let drawn = parameters(
        alloc,
        &ground.events,
        world,
        belows,
        received.sources,
        kinds,
        first.as_slice(),
        script,
    )?;
    Ok(drawn)
}

/// The object that is to be made before any other.
fn first_of<'a>(alloc: Global, change: Change<'a>) -> Result<Vec<Fresh<'a>>, Memory>
    ensures { IfOk result (λ first. (heap : List Object) → planned_in heap first.items ≡ heap_by heap change.entry) }
{
    match change {
        Change::Keeps => Ok(Vec::new(alloc)),
        Change::Sets(_component, _life) => Ok(Vec::new(alloc)),
        Change::Makes(_component, class, _life) => born_first(alloc, class),
    }
}

/// An object of the class without labels.
fn born_first<'a>(alloc: Global, class: &'a Name) -> Result<Vec<Fresh<'a>>, Memory>
    ensures { IfOk result (λ first. (heap : List Object) →
        planned_in heap first.items ≡ heap ++ new_object class.entry.now ∷ []) }
{
    let mut first = Vec::new(alloc);
    first.push(Fresh {
        class,
        labels: Labels::none(),
    })?;
    Ok(first)
}

/// The objects are made, the component is in its state, and the body runs.
fn carry_out<'a>(
    alloc: Global,
    app: &App,
    playing: &mut Playing<'a>,
    received: Received<'a>,
    drawn: &Drawn<'a>,
) -> Result<(), Memory>
    requires app { SoundApp app.now }
    requires idle { frames_of playing.old.frames ≡ [] }
    ensures { OnOk result (playing_in playing.new ≡ begun_with app.now received.entry.body received.entry.place
        received.entry.sources.now (changed_by (world_in playing.old.world) received.entry.change)
        (map value_of drawn.now.values.items, planned_in (heap_of playing.old.world.heap) drawn.now.fresh.items)) }
{
    let fresh = drawn.fresh.as_slice();
    let values = drawn.values.as_slice();
    make_all(alloc, &mut playing.world.heap, fresh)?;
    set_life(&mut playing.world.components, received.change)?;
    enter(alloc, app, &mut playing.frames, received, values)?;
    Ok(())
}

/// The component is in its state.
fn set_life(lives: &mut Lives, change: Change) -> Result<(), Memory>
    ensures { OnOk result (life_at lives.new ≡ lives_by (life_at lives.old) change.entry) }
{
    match change {
        Change::Keeps => Ok(()),
        Change::Sets(component, life) => {
            lives.set(component, life)?;
            Ok(())
        }
        Change::Makes(component, _class, life) => {
            lives.set(component, life)?;
            Ok(())
        }
    }
}

ghost use Rattle.std.specs.Prelude.{◌≡◌, ◌∷◌, IfOk, OnOk, map, option_map, reverse};
ghost use Rattle.app_machine.specs.Heap.{blank};
ghost use Rattle.app_machine.specs.Lookups.{elem_key};
ghost use Rattle.app_machine.specs.Sound.{SoundApp};
ghost use Rattle.app_machine.specs.State.{value_or_blank};
ghost use Rattle.played_growth.specs.Growth.{classes_of};
ghost use Rattle.played_machine.specs.Drawing.{one_of};
ghost use Rattle.played_machine.specs.Librarian.{given_back, had};
ghost use Rattle.played_machine.specs.Local.{got};
ghost use Rattle.runner_below.specs.Kept.{AreBelow};
ghost use Rattle.runner_given.specs.Given.{object_there};
ghost use Rattle.runner_heap.specs.Objects.{heap_of};
ghost use Rattle.runner_heap.specs.Shown.{value_behind};
ghost use Rattle.runner_library.specs.Call.{row_in};
ghost use Rattle.runner_library.specs.Over.{hand_each};
ghost use Rattle.runner_library.specs.Whole.{read_for};
ghost use Rattle.runner_state.specs.Shown.{value_of};
ghost use Rattle.runner_world.specs.World.{world_in};

use crate::choosing::one_of_places;
use crate::others::{below, others_there};
use app_parts::{CallResult, is_reference, is_void, result_of};
use event_index::EventIndex;
use runner_below::Belows;
use runner_heap::got;
use runner_library::{LibraryCall, value_at};
use runner_state::{Held, Script};
use runner_world::World;
use std::alloc::Global;
use vet_base::{KeyId, Memory, Name};

/// What the script gives the call of these values: an element of a position's object, or an object that the library
/// has. None exactly where a byte is wanted and there is none.
pub fn given<'a, 's>(
    alloc: Global,
    index: &EventIndex<'a>,
    belows: &mut Belows<'a>,
    world: &World<'a>,
    call: LibraryCall<'a>,
    values: &[Held],
    script: Script<'s>,
) -> Result<Option<(Held, Script<'s>)>, Memory>
    requires app { SoundApp index.now.0 }
    requires fits { AreBelow index.now.0 index.now.1 (classes_of (heap_of world.now.heap)) world.now.handed belows.old }
    ensures given { IfOk result (λ given. option_map value_behind given ≡ read_for index.now.0 index.now.1
        (world_in world.now) (map value_of values.now) call.entry.at.now.proto.ret (row_in call.entry).gives
        script.entry.left.now) }
    ensures fits { OnOk result (AreBelow index.now.0 index.now.1 (classes_of (heap_of world.now.heap))
        world.now.handed belows.new) }
{
    if is_void(&call.at.proto.ret) {
        return Ok(Some((Held::blank(), script)));
    }
    match result_of(call.view) {
        CallResult::Taken(position) => Ok(taken(world, values, position as usize, script)),
        CallResult::Handed => one_had(
            alloc,
            index,
            belows,
            world,
            values,
            &call.at.proto.ret,
            script,
        ),
        _ => Ok(Some((Held::blank(), script))),
    }
}

/// An element of the object of the position.
fn taken<'s>(
    world: &World,
    values: &[Held],
    position: usize,
    script: Script<'s>,
) -> Option<(Held, Script<'s>)>
    ensures { option_map value_behind result ≡ got (heap_of world.now.heap)
        (value_or_blank (map value_of values.now) position) elem_key script.entry.left.now }
{
    got(&world.heap, value_at(values, position), KeyId(0), script)
}

/// A blank, or of a reference type one of the objects below it that the library has.
fn one_had<'a, 's>(
    alloc: Global,
    index: &EventIndex<'a>,
    belows: &mut Belows<'a>,
    world: &World<'a>,
    values: &[Held],
    kind: &'a Name,
    script: Script<'s>,
) -> Result<Option<(Held, Script<'s>)>, Memory>
    requires app { SoundApp index.now.0 }
    requires fits { AreBelow index.now.0 index.now.1 (classes_of (heap_of world.now.heap)) world.now.handed belows.old }
    ensures given { IfOk result (λ given. option_map value_behind given ≡ one_of (given_back index.now.0 index.now.1
        (world_in world.now) (hand_each (map value_of values.now) (reverse world.now.handed)) kind.entry.now)
        script.entry.left.now) }
    ensures fits { OnOk result (AreBelow index.now.0 index.now.1 (classes_of (heap_of world.now.heap))
        world.now.handed belows.new) }
{
    if is_reference(kind) {
        one_below(alloc, index, belows, world, values, kind, script)
    } else {
        Ok(one_of_places(&[], &[], script))
    }
}

/// A blank, or one of the objects below the type that the library has.
fn one_below<'a, 's>(
    alloc: Global,
    index: &EventIndex<'a>,
    belows: &mut Belows<'a>,
    world: &World<'a>,
    values: &[Held],
    kind: &'a Name,
    script: Script<'s>,
) -> Result<Option<(Held, Script<'s>)>, Memory>
    requires app { SoundApp index.now.0 }
    requires fits { AreBelow index.now.0 index.now.1 (classes_of (heap_of world.now.heap)) world.now.handed belows.old }
    ensures given { IfOk result (λ given. option_map value_behind given ≡ one_of (blank ∷ map object_there
        (had index.now.0 index.now.1 (world_in world.now)
        (hand_each (map value_of values.now) (reverse world.now.handed)) kind.entry.now)) script.entry.left.now) }
    ensures fits { OnOk result (AreBelow index.now.0 index.now.1 (classes_of (heap_of world.now.heap))
        world.now.handed belows.new) }
{
    let others = others_there(alloc, index.app(), world, values)?;
    let there = others.as_slice();
    let behind = below(alloc, index, &world.heap, there, kind)?;
    let handed = world.handed.places();
    let number = belows.catch_up(alloc, index, &world.heap, &[], handed, kind)?;
    let first = belows.places(number);
    Ok(one_of_places(first, behind.as_slice(), script))
}

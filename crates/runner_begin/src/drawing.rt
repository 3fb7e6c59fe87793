ghost use Rattle.std.specs.Prelude.{◌≡◌, ◌<◌, IfOk, OnOk, length, map, option_map, reverse};
ghost use Rattle.app_machine.specs.Sound.{SoundApp};
ghost use Rattle.played_growth.specs.Growth.{classes_of};
ghost use Rattle.played_machine.specs.Coming.{parameter};
ghost use Rattle.runner_begin.specs.Parameters.{classes_in, drawn_behind, labels_by, one_behind, parameters_by};
ghost use Rattle.runner_begin.specs.Parameters.{planned_in};
ghost use Rattle.runner_below.specs.Kept.{AreBelow};
ghost use Rattle.runner_heap.specs.Objects.{heap_of};
ghost use Rattle.runner_state.specs.Shown.{labels_of};

use crate::labelling::labels_at;
use crate::picking::chosen;
use app_parts::is_reference;
use event_index::EventIndex;
use runner_below::Belows;
use runner_state::{Held, Labels, Script};
use runner_world::World;
use std::alloc::Global;
use vet_base::{Memory, Name};

/// An object that is to be made: its class, and the labels of its element, where it has some.
#[derive(Clone, Copy)]
pub struct Fresh<'a> {
    pub class: &'a Name,
    pub labels: Labels,
}

/// What was drawn for the parameters of a body, before any object is made.
#[derive(Drop)]
pub struct Drawn<'a> {
    pub values: Vec<Held>,
    /// The objects that are to be made behind the heap, in order.
    pub fresh: Vec<Fresh<'a>>,
}

/// The values of the parameters of these types, whose labels are those of the positions from 1 on, behind objects that
/// are to be made anyway. None exactly where the bytes are too few.
pub fn parameters<'a, 's>(
    alloc: Global,
    index: &EventIndex<'a>,
    world: &World<'a>,
    belows: &mut Belows<'a>,
    sources: &[(u32, u8)],
    kinds: &'a [Name],
    first: &[Fresh<'a>],
    script: Script<'s>,
) -> Result<Option<(Drawn<'a>, Script<'s>)>, Memory>
    requires app { SoundApp index.now.0 }
    requires fits { AreBelow index.now.0 index.now.1 (classes_of (heap_of world.now.heap)) world.now.handed belows.old }
    requires few { length kinds.now < 4294967295 }
    ensures fits { OnOk result (AreBelow index.now.0 index.now.1 (classes_of (heap_of world.now.heap)) world.now.handed
        belows.new) }
    ensures drawn { IfOk result (λ drawn. option_map (drawn_behind (heap_of world.now.heap)) drawn
        ≡ parameters_by index.now.0 index.now.1 (reverse world.now.handed) (labels_by sources.now) 1 kinds.entry.now
        (planned_in (heap_of world.now.heap) first.now) script.entry.left.now) }
{
    let mut values = Vec::new(alloc);
    let mut fresh = Vec::from_slice(alloc, first)?;
    let mut left = script;
    for i in 0..kinds.len() {
        let labels = labels_at(sources, i as u32 + 1);
        let given = parameter(
            alloc, index, world, belows, &mut fresh, &kinds[i], labels, left,
        )?;
        match given {
            None => return Ok(None),
            Some((value, rest)) => {
                values.push(value)?;
                left = rest;
            }
        }
    }
    Ok(Some((Drawn { values, fresh }, left)))
}

/// The value of a parameter of the type: of a reference type a blank, a fresh object, or a handed object below the
/// type.
fn parameter<'a, 's>(
    alloc: Global,
    index: &EventIndex<'a>,
    world: &World<'a>,
    belows: &mut Belows<'a>,
    fresh: &mut Vec<Fresh<'a>>,
    kind: &'a Name,
    labels: Labels,
    script: Script<'s>,
) -> Result<Option<(Held, Script<'s>)>, Memory>
    requires app { SoundApp index.now.0 }
    requires fits { AreBelow index.now.0 index.now.1 (classes_of (heap_of world.now.heap)) world.now.handed belows.old }
    ensures fits { OnOk result (AreBelow index.now.0 index.now.1 (classes_of (heap_of world.now.heap)) world.now.handed
        belows.new) }
    ensures drawn { IfOk result (λ given. option_map (one_behind (heap_of world.now.heap) fresh.new.items) given
        ≡ parameter index.now.0 index.now.1 (reverse world.now.handed) (labels_of labels) kind.entry.now
        (planned_in (heap_of world.now.heap) fresh.old.items) script.entry.left.now) }
{
    if !is_reference(kind) {
        return Ok(Some((Held::labelled(labels), script)));
    }
    let planned = classes_of_all(alloc, fresh.as_slice())?;
    let classes = planned.as_slice();
    let handed = world.handed.places();
    let number = belows.catch_up(alloc, index, &world.heap, classes, handed, kind)?;
    let places = belows.places(number);
    let given = chosen(world.heap.next_place(), fresh, places, kind, labels, script)?;
    Ok(given)
}

/// The classes of these objects.
fn classes_of_all<'a>(alloc: Global, fresh: &[Fresh<'a>]) -> Result<Vec<&'a Name>, Memory>
    ensures { IfOk result (λ classes. map (λ c. c.now) classes.items ≡ classes_in fresh.now) }
{
    let mut classes = Vec::new(alloc);
    for one in fresh {
        classes.push(one.class)?;
    }
    Ok(classes)
}

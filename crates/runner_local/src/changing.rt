ghost use Rattle.std.specs.Prelude.{◌≡◌, IfOk, OnOk, length, map};
ghost use Rattle.app_machine.specs.State.{new_object, object_at, result_register, write};
ghost use Rattle.played_alike.specs.Alike.{AlikeValue, AlikeValues};
ghost use Rattle.played_machine.specs.Local.{static_read, with_object};
ghost use Rattle.runner_heap.specs.Objects.{heap_of};
ghost use Rattle.runner_local.specs.Changed.{AlikeChange, array_of, changed, labels_in, written};
ghost use Rattle.runner_state.specs.Shown.{register_in, value_of};
ghost use Rattle.runner_world.specs.World.{world_in};

use crate::reading::own_labels;
use app_index::LibraryIndex;
use app_machine::{Act, App};
use runner_heap::Entity;
use runner_state::{EXCEPTION, Held, Labels, RESULT, Registers};
use runner_world::World;
use std::alloc::Global;
use vet_base::{Memory, Name};

/// Does what the act does in the world and the registers, where `read` is what it was given by the script.
/// The acts that call, return and throw do nothing here. After want of memory the run is to be given up: what of the
/// act was done is not said.
pub fn change<'a>(
    alloc: Global,
    app: &App,
    library: &LibraryIndex,
    world: &mut World<'a>,
    registers: &mut Registers,
    act: &'a Act,
    read: Held,
) -> Result<(), Memory>
    ensures { OnOk result (AlikeChange (changed app.now library.now (world_in world.old) (register_in registers.old)
        act.now (value_of read)) (world_in world.new) (register_in registers.new)) }
{
    match act {
        Act::New(to, class, size) => {
            make(alloc, world, registers, *to, class, size.as_slice())?;
            Ok(())
        }
        Act::Fill(from, class) => {
            fill(alloc, world, registers, from.as_slice(), class)?;
            Ok(())
        }
        Act::Put(object, key, from) => {
            let holder = registers.get(*object);
            let value = registers.get(*from);
            world.heap.put(holder.place, *key, value)?;
            Ok(())
        }
        Act::PutStatic(number, from) => {
            let held = registers.get(*from);
            world.statics.set(*number, held)?;
            Ok(())
        }
        _ => {
            write(app, library, world, registers, act, read)?;
            Ok(())
        }
    }
}

/// Does what the act does, where it writes registers alone.
fn write(
    app: &App,
    library: &LibraryIndex,
    world: &World,
    registers: &mut Registers,
    act: &Act,
    read: Held,
) -> Result<(), Memory>
    ensures { OnOk result (AlikeValues (written app.now library.now (world_in world.now)
        (register_in registers.old) act.now (value_of read)) (register_in registers.new)) }
{
    match act {
        Act::Join(to, from) => {
            let labels = own_labels(registers, from.as_slice());
            registers.set_all(to.as_slice(), Held::labelled(labels))?;
            Ok(())
        }
        Act::Move(to, from) => {
            registers.set_all(to.as_slice(), registers.get(*from))?;
            Ok(())
        }
        Act::Blank(to) => {
            registers.set_all(to.as_slice(), Held::blank())?;
            Ok(())
        }
        Act::Get(to, _, _) => {
            registers.set_all(to.as_slice(), read)?;
            Ok(())
        }
        Act::GetStatic(to, number) => {
            registers.set_all(to.as_slice(), read_static(app, library, world, *number))?;
            Ok(())
        }
        Act::TakeResult(to) => {
            registers.set_all(to.as_slice(), registers.get(RESULT))?;
            Ok(())
        }
        Act::TakeException(to) => {
            registers.set(*to, registers.get(EXCEPTION))?;
            Ok(())
        }
        _ => Ok(()),
    }
}

/// Makes an object of the class, an array with the labels of its size.
fn make<'a>(
    alloc: Global,
    world: &mut World<'a>,
    registers: &mut Registers,
    to: u32,
    class: &'a Name,
    size: &[u32],
) -> Result<(), Memory>
    ensures world { OnOk result (world_in world.new ≡ with_object (world_in world.old) (new_object class.entry.now)) }
    ensures registers { OnOk result (register_in registers.new ≡ write (register_in registers.old) to
        (record {
          place = Some (length (heap_of world.old.heap));
          labels = labels_in (register_in registers.old) size.now;
        })) }
{
    let labels = own_labels(registers, size);
    let place = world.heap.add(Entity::new(alloc, class, Vec::new(alloc)))?;
    let made = Held {
        place: Some(place),
        labels,
    };
    registers.set(to, made)?;
    Ok(())
}

/// Makes an array of the values of these registers, which is the result.
fn fill<'a>(
    alloc: Global,
    world: &mut World<'a>,
    registers: &mut Registers,
    from: &[u32],
    class: &'a Name,
) -> Result<(), Memory>
    ensures world { OnOk result (world_in world.new ≡ with_object (world_in world.old)
        (array_of (register_in registers.old) class.entry.now from.now)) }
    ensures registers { OnOk result (register_in registers.new ≡ write (register_in registers.old) result_register
        (object_at (Some (length (heap_of world.old.heap))))) }
{
    let elements = values_of(alloc, registers, from)?;
    let place = world.heap.add(Entity::new(alloc, class, elements))?;
    registers.set(RESULT, Held::object_at(Some(place)))?;
    Ok(())
}

/// The values of these registers.
pub fn values_of(alloc: Global, registers: &Registers, from: &[u32]) -> Result<Vec<Held>, Memory>
    ensures { IfOk result (λ values. map value_of values.items ≡ map (register_in registers.now) from.now) }
{
    let mut values = Vec::new(alloc);
    for register in from {
        values.push(registers.get(*register))?;
    }
    Ok(values)
}

/// What the static holds, with the label that the lists give it.
fn read_static(app: &App, library: &LibraryIndex, world: &World, number: u32) -> Held
    ensures { AlikeValue (static_read app.now library.now (world_in world.now) number) (value_of result) }
{
    let held = world.statics.get(number);
    match library.source(app, number) {
        None => held,
        Some(label) => Held {
            place: held.place,
            labels: Labels::one(label).joined(held.labels),
        },
    }
}

ghost use Rattle.std.specs.Prelude.{◌≡◌, ◌++◌, ◌<◌, ℕ, List, IfOk, OnOk, map};
ghost use Rattle.std.specs.List.{All};
ghost use Rattle.app_machine.specs.declared.summary.Gives.TheVariants.{Joined};
ghost use Rattle.app_machine.specs.Heap.{add_all};
ghost use Rattle.app_machine.specs.Library.{shared_named};
ghost use Rattle.app_machine.specs.Sound.{SoundApp};
ghost use Rattle.played_machine.specs.Librarian.{with_shared};
ghost use Rattle.runner_heap.specs.Objects.{heap_of};
ghost use Rattle.runner_library.specs.Call.{row_in, shared_in, values_in};
ghost use Rattle.runner_library.specs.Over.{added_of, copies_by, joined_by, puts_by, stores_by};
ghost use Rattle.runner_library.specs.Whole.{AlikeCall, arrivals_for, called};
ghost use Rattle.runner_state.specs.Shown.{held_at, labels_of, register_in, value_of};
ghost use Rattle.runner_world.specs.Shown.{arrival_of};
ghost use Rattle.runner_world.specs.World.{world_in};

use crate::adding::{Added, add_copies, add_puts, add_stores, copied};
use crate::arriving::{Sink, arrive};
use crate::giving::{Known, result};
use crate::handing::hand_all;
use crate::joining::joined;
use crate::positions::values;
use crate::sharing::{make_named, make_shared};
use app_machine::{App, CallKind, Lists, MethodRef};
use app_parts::{
    CallResult, SummaryView, copies, is_static_call, is_void, result_of, sink, stores,
};
use runner_heap::Heap;
use runner_state::{Called, Held, Labels, Registers, Values};
use runner_world::{Arrival, World};
use std::alloc::Global;
use vet_base::Memory;

/// A call of a library method, with what the lists say of it.
#[derive(Clone, Copy)]
pub struct LibraryCall<'a> {
    pub kind: CallKind,
    pub at: &'a MethodRef,
    /// The argument registers.
    pub args: &'a [u32],
    pub view: SummaryView<'a>,
}

/// What is read before anything is changed.
#[derive(Drop)]
struct Before {
    /// The values of the positions.
    values: Vec<Held>,
    /// The labels of a joined result.
    labels: Labels,
    /// What the copies add.
    copies: Vec<Added>,
}

/// Does what the call does in the world, and gives its result, where `read` is what it was given by the script. After
/// want of memory the run is to be given up: what of the call was done is not said.
pub fn call<'a>(
    alloc: Global,
    app: &App,
    lists: &'a Lists,
    world: &mut World<'a>,
    frame: &Called,
    call: LibraryCall<'a>,
    read: Held,
) -> Result<Held, Memory>
    requires sound { SoundApp app.now }
    requires few { All (λ i. i < 65536) (shared_in call) }
    ensures { IfOk result (λ held. AlikeCall (called app.now lists.entry.now (world_in world.old)
        (values_in call.entry (register_in frame.now.registers)) frame.now.method frame.now.pc
        call.entry.at.now.proto.ret (row_in call.entry) (value_of read)) (world_in world.new) (value_of held)) }
{
    let before = read_before(alloc, &world.heap, &frame.registers, call)?;
    let values = before.values.as_slice();
    arrive_for(alloc, &world.heap, &mut world.arrivals, frame, call, values)?;
    make_for(alloc, app, lists, &mut world.heap, &mut world.statics, call)?;
    let gives = result_of(call.view);
    let held = result(
        alloc,
        app,
        &mut world.heap,
        &world.statics,
        values,
        &call.at.proto.ret,
        gives,
        Known {
            read,
            labels: before.labels,
        },
    )?;
    add_all(app, &mut world.heap, &world.statics, &before, call)?;
    hand_all(&mut world.handed, values)?;
    Ok(held)
}

/// The values of the positions, the labels of a joined result, and what the copies add.
fn read_before(
    alloc: Global,
    heap: &Heap,
    registers: &Registers,
    call: LibraryCall,
) -> Result<Before, Memory>
    ensures values { IfOk result (λ before. map value_of before.values.items
        ≡ values_in call.entry (register_in registers.now)) }
    ensures labels { (from : List ℕ) → (row_in call.entry).gives ≡ Joined from →
        IfOk result (λ before. labels_of before.labels ≡ joined_by (heap_of heap.now)
        (values_in call.entry (register_in registers.now)) from (row_in call.entry).source) }
    ensures copies { IfOk result (λ before. map added_of before.copies.items ≡ copies_by (heap_of heap.now)
        (values_in call.entry (register_in registers.now)) (row_in call.entry).copies) }
{
    let values = values(alloc, registers, call.kind, call.at, call.args)?;
    let slice = values.as_slice();
    let is_static = is_static_call(call.kind);
    let labels = joined(alloc, heap, slice, call.view, call.at, is_static)?;
    let copies = copied(alloc, heap, slice, copies(call.view))?;
    Ok(Before {
        values,
        labels,
        copies,
    })
}

/// What arrives at the sink of the row, where it has one.
fn arrive_for(
    alloc: Global,
    heap: &Heap,
    arrivals: &mut Vec<Arrival>,
    frame: &Called,
    call: LibraryCall,
    values: &[Held],
) -> Result<(), Memory>
    ensures { OnOk result (map arrival_of arrivals.new.items ≡ map arrival_of arrivals.old.items
        ++ arrivals_for (heap_of heap.now) (map value_of values.now) frame.now.method frame.now.pc
        (row_in call.entry).sink) }
{
    match sink(call.view) {
        None => Ok(()),
        Some(to) => {
            let sink = Sink {
                category: to.0,
                method: frame.method,
                pc: frame.pc,
            };
            arrive(alloc, heap, arrivals, values, sink, to.1.as_slice())?;
            Ok(())
        }
    }
}

/// Makes the shared objects that the stores and the result name.
fn make_for<'a>(
    alloc: Global,
    app: &App,
    lists: &'a Lists,
    heap: &mut Heap<'a>,
    statics: &mut Values,
    call: LibraryCall<'a>,
) -> Result<(), Memory>
    requires sound { SoundApp app.now }
    requires few { All (λ i. i < 65536) (shared_in call) }
    ensures { OnOk result ((heap_of heap.new, held_at statics.new) ≡ with_shared app.now lists.entry.now
        (shared_named (row_in call.entry) call.entry.at.now.proto.ret) (heap_of heap.old) (held_at statics.old)) }
{
    make_named(alloc, app, lists, heap, statics, stores(call.view))?;
    if is_void(&call.at.proto.ret) {
        return Ok(());
    }
    let gives = result_of(call.view);
    match gives {
        CallResult::Shared(number) => {
            make_shared(alloc, app, lists, heap, statics, number)?;
            Ok(())
        }
        _ => Ok(()),
    }
}

/// What the puts, the stores and the copies add.
fn add_all(
    app: &App,
    heap: &mut Heap,
    statics: &Values,
    before: &Before,
    call: LibraryCall,
) -> Result<(), Memory>
    requires sound { SoundApp app.now }
    requires few { All (λ i. i < 65536) (shared_in call) }
    ensures { OnOk result (heap_of heap.new ≡ add_all (heap_of heap.old)
        (puts_by (map value_of before.now.values.items) (row_in call.entry).puts
        ++ stores_by app.now (map value_of before.now.values.items) (held_at statics.now) (row_in call.entry).stores
        ++ map added_of before.now.copies.items)) }
{
    let values = before.values.as_slice();
    let copies = before.copies.as_slice();
    let is_static = is_static_call(call.kind);
    add_puts(heap, values, call.view, call.at, is_static)?;
    add_stores(app, heap, statics, values, stores(call.view))?;
    add_copies(heap, copies)?;
    Ok(())
}

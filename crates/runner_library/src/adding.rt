ghost use Rattle.std.specs.Prelude.{◌≡◌, ◌++◌, ◌<◌, ℕ, IfOk, OnOk, Some, map, option_to_list};
ghost use Rattle.std.specs.List.{All};
ghost use Rattle.app_machine.specs.Heap.{add_all};
ghost use Rattle.app_machine.specs.Sound.{SoundApp};
ghost use Rattle.app_parts.specs.Views.{shown_summary};
ghost use Rattle.played_machine.specs.Librarian.{copied, element_at};
ghost use Rattle.runner_heap.specs.Objects.{heap_of};
ghost use Rattle.runner_library.specs.Over.{added_of, copies_by, placed, puts_by, stores_by};
ghost use Rattle.runner_state.specs.Shown.{held_at, value_of};

use crate::positions::value_at;
use crate::sharing::shared_static;
use app_machine::{App, MethodRef};
use app_parts::{SummaryView, put_at, put_count};
use runner_heap::Heap;
use runner_state::{Held, Values};
use std::alloc::Global;
use vet_base::Memory;

/// A value that becomes an element of the object at the place.
#[derive(Clone, Copy)]
pub struct Added {
    pub place: u32,
    pub value: Held,
}

/// What the puts of the row add.
pub fn add_puts(
    heap: &mut Heap,
    values: &[Held],
    view: SummaryView,
    at: &MethodRef,
    is_static: bool,
) -> Result<(), Memory>
    ensures { OnOk result (heap_of heap.new ≡ add_all (heap_of heap.old)
        (puts_by (map value_of values.now) (shown_summary view.entry at.now is_static).puts)) }
{
    for k in 0..put_count(view, at, is_static) {
        add_put(heap, values, put_at(view, at, is_static, k))?;
    }
    Ok(())
}

/// What the put adds, where there is one.
fn add_put(heap: &mut Heap, values: &[Held], put: Option<(usize, usize)>) -> Result<(), Memory>
    ensures { OnOk result (heap_of heap.new ≡ add_all (heap_of heap.old)
        (puts_by (map value_of values.now) (option_to_list put))) }
{
    match put {
        None => Ok(()),
        Some((from, to)) => {
            let target = value_at(values, to);
            let value = value_at(values, from);
            add_element(heap, target.place, value)?;
            Ok(())
        }
    }
}

/// What the stores of the row add.
pub fn add_stores(
    app: &App,
    heap: &mut Heap,
    statics: &Values,
    values: &[Held],
    stores: &[(u32, u32)],
) -> Result<(), Memory>
    requires sound { SoundApp app.now }
    requires few { All (λ (s : ℕ × ℕ). s.1 < 65536) stores.now }
    ensures { OnOk result (heap_of heap.new ≡ add_all (heap_of heap.old)
        (stores_by app.now (map value_of values.now) (held_at statics.now) stores.now)) }
{
    for store in stores {
        let number = shared_static(app, store.1);
        let target = statics.get(number);
        let value = value_at(values, store.0 as usize);
        add_element(heap, target.place, value)?;
    }
    Ok(())
}

/// Adds the value as an element of the object at the place, where there is one.
fn add_element(heap: &mut Heap, place: Option<u32>, value: Held) -> Result<(), Memory>
    ensures { OnOk result (heap_of heap.new ≡ add_all (heap_of heap.old) (element_at place (value_of value))) }
{
    match place {
        None => Ok(()),
        Some(place) => {
            heap.add_element(place, value)?;
            Ok(())
        }
    }
}

/// What the copies of the row add to these objects: the elements that those of the first positions have now.
pub fn copied(
    alloc: Global,
    heap: &Heap,
    values: &[Held],
    copies: &[(u32, u32)],
) -> Result<Vec<Added>, Memory>
    ensures { IfOk result (λ all. map added_of all.items
        ≡ copies_by (heap_of heap.now) (map value_of values.now) copies.now) }
{
    let mut all = Vec::new(alloc);
    for copy in copies {
        let from = value_at(values, copy.0 as usize);
        let to = value_at(values, copy.1 as usize);
        copy_elements(heap, &mut all, from.place, to.place)?;
    }
    Ok(all)
}

/// The elements of the object at the first place, for that at the second.
fn copy_elements(
    heap: &Heap,
    all: &mut Vec<Added>,
    from: Option<u32>,
    to: Option<u32>,
) -> Result<(), Memory>
    ensures { OnOk result (map added_of all.new.items
        ≡ map added_of all.old.items ++ copied (heap_of heap.now) from to) }
{
    match from {
        None => Ok(()),
        Some(from) => copy_from(heap, all, from, to),
    }
}

/// The same from this place.
fn copy_from(heap: &Heap, all: &mut Vec<Added>, from: u32, to: Option<u32>) -> Result<(), Memory>
    ensures { OnOk result (map added_of all.new.items
        ≡ map added_of all.old.items ++ copied (heap_of heap.now) (Some from) to) }
{
    match to {
        None => Ok(()),
        Some(to) => {
            add_to(all, heap.elements(from), to)?;
            Ok(())
        }
    }
}

/// Each of the values, for the object at the place.
fn add_to(all: &mut Vec<Added>, elements: &[Held], place: u32) -> Result<(), Memory>
    ensures { OnOk result (map added_of all.new.items
        ≡ map added_of all.old.items ++ map (placed place) (map value_of elements.now)) }
{
    for value in elements {
        all.push(Added {
            place,
            value: *value,
        })?;
    }
    Ok(())
}

/// Adds all of these.
pub fn add_copies(heap: &mut Heap, all: &[Added]) -> Result<(), Memory>
    ensures { OnOk result (heap_of heap.new ≡ add_all (heap_of heap.old) (map added_of all.now)) }
{
    for added in all {
        heap.add_element(added.place, added.value)?;
    }
    Ok(())
}

ghost use Rattle.std.specs.Prelude.{◌≡◌, ◌≤◌, ◌-◌, ◌++◌, IfOk, OnOk, Some, map, slice_get};
ghost use Rattle.std.specs.Option.{option_copied};
ghost use Rattle.app_machine.specs.Sound.{SoundApp};
ghost use Rattle.played_growth.specs.Growth.{classes_of};
ghost use Rattle.runner_below.specs.Below.{AreOfFirst, below_among, if_below};
ghost use Rattle.runner_heap.specs.Objects.{heap_of};

use event_index::EventIndex;
use runner_heap::Heap;
use vet_base::{Memory, Name};

/// Looks at the places behind the first so many, up to one without an object, adds those whose objects are below the
/// type, and says how many places were looked at then.
pub fn look(
    places: &mut Vec<u32>,
    index: &EventIndex,
    heap: &Heap,
    kind: &Name,
    handed: &[u32],
    seen: usize,
) -> Result<usize, Memory>
    requires app { SoundApp index.now.0 }
    requires so_far { AreOfFirst index.now.0 index.now.1 (classes_of (heap_of heap.now)) handed.now kind.now seen
        places.old.items }
    ensures { IfOk result (λ n. AreOfFirst index.now.0 index.now.1 (classes_of (heap_of heap.now)) handed.now kind.now n
        places.new.items) }
{
    for i in seen..handed.len() {
        let place = handed[i];
        match heap.class(place) {
            None => return Ok(i),
            Some(class) => add(places, index, kind, class, place)?,
        }
    }
    Ok(handed.len())
}

/// Adds the place, where an object of the class is below the type.
fn add(
    places: &mut Vec<u32>,
    index: &EventIndex,
    kind: &Name,
    class: &Name,
    place: u32,
) -> Result<(), Memory>
    requires { SoundApp index.now.0 }
    ensures { OnOk result (places.new.items
        ≡ places.old.items ++ if_below index.now.0 index.now.1 kind.now (Some class.now) place) }
{
    if !index.is_below(class, kind) {
        return Ok(());
    }
    places.push(place)?;
    Ok(())
}

/// Looks at all places behind the first so many, where objects of further classes are to come behind the heap.
pub fn add_rest<'b>(
    places: &mut Vec<u32>,
    index: &EventIndex,
    heap: &Heap<'b>,
    fresh: &[&'b Name],
    kind: &Name,
    handed: &[u32],
    seen: usize,
) -> Result<(), Memory>
    requires app { SoundApp index.now.0 }
    requires so_far { AreOfFirst index.now.0 index.now.1 (classes_of (heap_of heap.now)) handed.now kind.now seen
        places.old.items }
    ensures { OnOk result (places.new.items ≡ below_among index.now.0 index.now.1
        (classes_of (heap_of heap.now) ++ map (λ c. c.now) fresh.now) handed.now kind.now) }
{
    for i in seen..handed.len() {
        add_behind(places, index, heap, fresh, kind, handed[i])?;
    }
    Ok(())
}

/// Adds the place, where its object, in the heap or behind it, is below the type.
fn add_behind<'b>(
    places: &mut Vec<u32>,
    index: &EventIndex,
    heap: &Heap<'b>,
    fresh: &[&'b Name],
    kind: &Name,
    place: u32,
) -> Result<(), Memory>
    requires { SoundApp index.now.0 }
    ensures { OnOk result (places.new.items ≡ places.old.items ++ if_below index.now.0 index.now.1 kind.now
        (slice_get (classes_of (heap_of heap.now) ++ map (λ c. c.now) fresh.now) place) place) }
{
    match class_behind(heap, fresh, place) {
        None => Ok(()),
        Some(class) => add(places, index, kind, class, place),
    }
}

/// The class of the object at the place, in the heap or behind it.
fn class_behind<'b>(heap: &Heap<'b>, fresh: &[&'b Name], place: u32) -> Option<&'b Name>
    ensures { option_copied result ≡ slice_get (classes_of (heap_of heap.now) ++ map (λ c. c.now) fresh.now) place }
{
    match heap.class(place) {
        Some(class) => Some(class),
        None => fresh_at(fresh, place, heap.next_place()),
    }
}

/// The class behind so many others.
fn fresh_at<'b>(fresh: &[&'b Name], place: u32, before: u32) -> Option<&'b Name>
    requires { before ≤ place }
    ensures { option_copied result ≡ slice_get (map (λ c. c.now) fresh.now) (place - before) }
{
    match fresh.get((place - before) as usize) {
        Some(class) => Some(*class),
        None => None,
    }
}

ghost use Rattle.std.specs.Prelude.{◌≡◌, ◌++◌, ◌∷◌, ◌<◌, ◌≤◌, ◌^◌, [], IfOk, OnOk, OnErr, length, map, slice_get};
ghost use Rattle.std.specs.Option.{option_copied};
ghost use Rattle.app_machine.specs.Heap.{put_at, put_to};
ghost use Rattle.app_machine.specs.Lookups.{elem_key};
ghost use Rattle.played_alike.specs.Alike.{AlikeHeap};
ghost use Rattle.played_machine.specs.Local.{first_or_blank};
ghost use Rattle.played_machine.specs.Reading.{class_at, values_at};
ghost use Rattle.runner_heap.specs.Shown.{AddsValues, field_key, object_of};
ghost use Rattle.runner_state.specs.Shown.{value_of};

use crate::entity::Entity;
use runner_state::Held;
use std::alloc::Global;
use vet_base::{KeyId, Memory, Name};

/// How many entries all objects may have together. Beyond that the answer is want of memory, so that
/// a short script cannot ask for more than there is.
const MOST_ENTRIES: u64 = 16_777_216;

/// How many objects there may be.
const MOST_OBJECTS: usize = 4_294_967_295;

/// The objects of a run, by place.
#[derive(Drop)]
pub struct Heap<'a> {
    objects: Vec<Entity<'a>>,
    /// How many entries they have.
    entries: u64,
    ghost short: { length objects.items ≤ 4294967295 },
    ghost few: { entries ≤ 16777216 },
}

impl<'a> Heap<'a> {
    ghost use Rattle.runner_heap.specs.Objects.{heap_of};

    /// No object. It takes no memory.
    pub fn new(alloc: Global) -> Heap<'a>
        ensures { heap_of result ≡ [] }
    {
        Heap {
            objects: Vec::new(alloc),
            entries: 0,
        }
    }

    /// The place of the object that comes next.
    pub fn next_place(&self) -> u32
        ensures { result ≡ length (heap_of self.now) }
    {
        self.objects.len() as u32
    }

    /// The object at the place.
    fn entity(&self, place: u32) -> Option<&Entity<'a>>
        ensures { option_copied result ≡ slice_get self.now.objects.items place }
    {
        self.objects.get(place as usize)
    }

    /// The class of the object at the place.
    pub fn class(&self, place: u32) -> Option<&'a Name>
        ensures { option_copied result ≡ class_at (heap_of self.now) place }
    {
        match self.entity(place) {
            Some(entity) => Some(entity.class()),
            None => None,
        }
    }

    /// The elements of the object at the place, in the order in which they came.
    pub fn elements(&self, place: u32) -> &[Held]
        ensures { map value_of result.now ≡ values_at (heap_of self.now) place elem_key }
    {
        match self.entity(place) {
            Some(entity) => entity.elements(),
            None => &[],
        }
    }

    /// The value of the field of the object at the place, and a blank where it has none.
    pub fn field(&self, place: u32, number: u32) -> Held
        ensures { value_of result ≡ first_or_blank (values_at (heap_of self.now) place (field_key number)) }
    {
        match self.entity(place) {
            Some(entity) => entity.field(number),
            None => Held::blank(),
        }
    }

    /// Adds the values of all entries of the object at the place behind others.
    pub fn add_values(&self, place: u32, out: &mut Vec<Held>) -> Result<(), Memory>
        ensures values { OnOk result (AddsValues (values_at (heap_of self.now) place) out.old.items out.new.items) }
        ensures short { OnOk result (length out.new.items < 2 ^ 64) }
    {
        match self.entity(place) {
            Some(entity) => {
                entity.add_values(out)?;
                Ok(())
            }
            None => {
                let _count = out.len();
                Ok(())
            }
        }
    }

    /// Adds an object, and gives its place. After want of memory the heap is as before.
    pub fn add(&mut self, entity: Entity<'a>) -> Result<u32, Memory>
        ensures place { IfOk result (λ place. place ≡ length (heap_of self.old)) }
        ensures ok { OnOk result (heap_of self.new ≡ heap_of self.old ++ object_of entity.entry ∷ []) }
        ensures err { OnErr result (heap_of self.new ≡ heap_of self.old) }
    {
        let place = self.objects.len();
        let count = entity.elements().len() as u64;
        if place >= MOST_OBJECTS || count > MOST_ENTRIES - self.entries {
            return Err(Memory);
        }
        self.objects.push(entity)?;
        self.entries += count;
        Ok(place as u32)
    }

    /// Adds an element to the object at the place. After want of memory the heap is as before.
    pub fn add_element(&mut self, place: u32, value: Held) -> Result<(), Memory>
        ensures ok { OnOk result (heap_of self.new ≡ put_at (heap_of self.old) place elem_key (value_of value)) }
        ensures err { OnErr result (heap_of self.new ≡ heap_of self.old) }
    {
        let place = place as usize;
        if place >= self.objects.len() {
            return Ok(());
        }
        if self.entries >= MOST_ENTRIES {
            return Err(Memory);
        }
        let entity = &mut self.objects[place];
        entity.add_element(value)?;
        self.entries += 1;
        Ok(())
    }

    /// Puts the value of a field of the object at the place. After want of memory the heap is as before.
    fn put_field(&mut self, place: u32, number: u32, value: Held) -> Result<(), Memory>
        ensures ok { OnOk result (AlikeHeap (put_at (heap_of self.old) place (field_key number) (value_of value))
            (heap_of self.new)) }
        ensures err { OnErr result (heap_of self.new ≡ heap_of self.old) }
    {
        let place = place as usize;
        if place >= self.objects.len() {
            return Ok(());
        }
        if self.entries >= MOST_ENTRIES {
            return Err(Memory);
        }
        let entity = &mut self.objects[place];
        let is_new = entity.put_field(number, value)?;
        self.entries += count(is_new);
        Ok(())
    }

    fn put_at(&mut self, place: u32, key: KeyId, value: Held) -> Result<(), Memory>
        ensures ok { OnOk result (AlikeHeap (put_at (heap_of self.old) place key (value_of value)) (heap_of self.new)) }
        ensures err { OnErr result (heap_of self.new ≡ heap_of self.old) }
    {
        if key.0 == 0 {
            self.add_element(place, value)?;
            return Ok(());
        }
        self.put_field(place, key.0 - 1, value)?;
        Ok(())
    }

    /// Puts the value under the key into the object at the place, where there is one: as an element, or
    /// as the value of a field. After want of memory the heap is as before.
    pub fn put(&mut self, place: Option<u32>, key: KeyId, value: Held) -> Result<(), Memory>
        ensures ok { OnOk result (AlikeHeap (put_to (heap_of self.old) place key (value_of value)) (heap_of self.new)) }
        ensures err { OnErr result (heap_of self.new ≡ heap_of self.old) }
    {
        match place {
            None => Ok(()),
            Some(place) => self.put_at(place, key, value),
        }
    }
}

/// How many entries an object has more.
fn count(is_new: bool) -> u64
    ensures { result ≤ 1 }
{
    if is_new { 1 } else { 0 }
}

ghost use Rattle.std.specs.Prelude.{◌≡◌, ◌++◌, ◌<◌, ◌^◌, OnOk, OnErr, length, map, reverse};
ghost use Rattle.std.specs.BTreeMap.{get};
ghost use Rattle.std.specs.List.{All};
ghost use Rattle.std.specs.Map.{values_of};
ghost use Rattle.std.specs.Ordering.{nat_cmp};
ghost use Rattle.app_machine.specs.Lookups.{elem_key};
ghost use Rattle.played_alike.specs.Alike.{AlikeObject, values_under};
ghost use Rattle.played_machine.specs.Local.{first_or_blank};
ghost use Rattle.runner_heap.specs.Shown.{AddsValues, element_of, field_key, object_of, put_on};
ghost use Rattle.runner_state.specs.Shown.{value_of};

use runner_state::{Held, held_or_blank};
use std::alloc::Global;
use std::collections::BTreeMap;
use vet_base::{Memory, Name};

/// An object: its class, its elements in the order in which they came, and its fields by number. The
/// key of a field is its number and one: 0 is the key of all elements.
#[derive(Drop)]
pub struct Entity<'a> {
    class: &'a Name,
    elements: Vec<Held>,
    fields: BTreeMap<u32, Held>,
}

#[tactic(auto, unfolding(crate::specs::Shown::object_of))]
impl<'a> Entity<'a> {
    /// An object with these elements and no field.
    pub fn new(alloc: Global, class: &'a Name, elements: Vec<Held>) -> Entity<'a>
        ensures class { (object_of result).class ≡ class.now }
        ensures entries { (object_of result).entries ≡ map element_of (reverse elements.items) }
    {
        let fields = BTreeMap::new(alloc);
        Entity {
            class,
            elements,
            fields,
        }
    }

    pub fn class(&self) -> &'a Name
        ensures { result.now ≡ (object_of self.now).class }
    {
        self.class
    }

    /// The elements in the order in which they came.
    pub fn elements(&self) -> &[Held]
        ensures { map value_of result.now ≡ reverse (values_under elem_key (object_of self.now).entries) }
    {
        self.elements.as_slice()
    }

    /// The value of the field, and a blank where it has none.
    pub fn field(&self, number: u32) -> Held
        ensures { value_of result
            ≡ first_or_blank (reverse (values_under (field_key number) (object_of self.now).entries)) }
    {
        held_or_blank(self.fields.get(&number))
    }

    /// Adds an element. After want of memory the object is as before.
    pub fn add_element(&mut self, value: Held) -> Result<(), Memory>
        ensures ok { OnOk result (object_of self.new ≡ put_on elem_key (value_of value) (object_of self.old)) }
        ensures err { OnErr result (object_of self.new ≡ object_of self.old) }
    {
        self.elements.push(value)?;
        Ok(())
    }

    /// Puts the value of a field, and says whether it had none. After want of memory the object is as before.
    pub fn put_field(&mut self, number: u32, value: Held) -> Result<bool, Memory>
        ensures ok { OnOk result (AlikeObject (put_on (field_key number) (value_of value) (object_of self.old))
            (object_of self.new)) }
        ensures err { OnErr result (object_of self.new ≡ object_of self.old) }
    {
        let before = self.fields.insert(number, value)?;
        Ok(before.is_none())
    }

    /// Adds the values of all entries behind others.
    pub fn add_values(&self, out: &mut Vec<Held>) -> Result<(), Memory>
        ensures values { OnOk result (AddsValues (λ k. reverse (values_under k (object_of self.now).entries))
            out.old.items out.new.items) }
        ensures short { OnOk result (length out.new.items < 2 ^ 64) }
    {
        self.add_elements(out)?;
        self.add_fields(out)?;
        let _count = out.len();
        Ok(())
    }

    fn add_elements(&self, out: &mut Vec<Held>) -> Result<(), Memory>
        ensures { OnOk result (out.new.items ≡ out.old.items ++ self.now.elements.items) }
    {
        for value in &self.elements {
            out.push(*value)?;
        }
        Ok(())
    }

    fn add_fields(&self, out: &mut Vec<Held>) -> Result<(), Memory>
        ensures values { OnOk result (out.new.items ≡ out.old.items ++ values_of self.now.fields.entries) }
        ensures found { OnOk result (All (λ e. get nat_cmp self.now.fields e.0 ≡ Some e.1) self.now.fields.entries) }
    {
        for entry in self.fields.iter() {
            out.push(*entry.1)?;
        }
        Ok(())
    }
}

//! The types that are asked for: those of which objects are called back, those of events' parameters, and those
//! of results that the library gives back.
ghost use Rattle.std.specs.Prelude.{◌≡◌, OnOk, IfOk, length};
ghost use Rattle.app_machine.specs.Names.{same_name};
ghost use Rattle.app_model.specs.Above.{is_among};
ghost use Rattle.event_index.specs.Kinds.{Adds, AreKinds, HasKinds, IsColumn, nothing, word_count};

use crate::bits::Bits;
use crate::keys::NameKey;
use crate::names::object_name;
use app_machine::{Gives, Lists, Summary};
use std::alloc::Global;
use std::collections::HashMap;
use vet_base::{Memory, Name};

/// How many types have numbers at the most. Those beyond are asked for without the tables.
const MOST: usize = 16_384;

/// The types of the parameters of the events that no list names.
static LIFE_TYPES: [&str; 4] = [
    "Landroid/content/Context;",
    "Landroid/content/Intent;",
    "Landroid/os/Bundle;",
    "Landroid/view/View;",
];

/// Types by number. `Object`, below which all is, has none.
#[derive(Drop)]
pub struct Kinds<'a> {
    pub numbers: HashMap<NameKey<'a>, usize>,
    pub count: usize,
}

/// How a type is asked for.
#[derive(Clone, Copy)]
pub enum Column {
    /// It is `Object`.
    Object,
    /// It has the number.
    Number(usize),
    /// It has none.
    Unknown,
}

impl<'a> Kinds<'a> {
    /// The types of the lists' callbacks, of the events in the life of components, and of handed results.
    /// Those of which objects are called back have their numbers first, since each class of the app is
    /// asked for them.
    pub fn of(alloc: Global, lists: &'a Lists) -> Result<Kinds<'a>, Memory>
        ensures { IfOk result (λ kinds. AreKinds kinds) }
    {
        let mut kinds = Kinds::none(alloc);
        for callback in lists.callbacks.as_slice() {
            kinds.note(callback.class.as_bytes())?;
        }
        for name in &LIFE_TYPES {
            kinds.note(name.as_bytes())?;
        }
        for called in lists.callbacks.as_slice() {
            kinds.note_each(called.proto.params.as_slice())?;
        }
        for method in lists.methods.as_slice() {
            kinds.note_result(method)?;
        }
        Ok(kinds)
    }

    #[tactic(auto, using(crate::proofs::Noting::none_noted))]
    fn none(alloc: Global) -> Kinds<'a>
        ensures { AreKinds result }
    {
        Kinds {
            numbers: HashMap::new(alloc),
            count: 0,
        }
    }

    /// Numbers the type, where it has no number.
    #[tactic(auto, using(crate::proofs::Noting::one_noted))]
    fn note(&mut self, name: &'a [u8]) -> Result<(), Memory>
        requires { AreKinds self.now }
        ensures { OnOk result (AreKinds self.new) }
    {
        let key = NameKey { name };
        let count = self.count;
        if name == object_name() || MOST <= count || self.numbers.contains_key(&key) {
            return Ok(());
        }
        self.numbers.insert(key, count)?;
        self.count = count + 1;
        Ok(())
    }

    fn note_each(&mut self, names: &'a [Name]) -> Result<(), Memory>
        requires { AreKinds self.now }
        ensures { OnOk result (AreKinds self.new) }
    {
        for name in names {
            self.note(name.as_bytes())?;
        }
        Ok(())
    }

    /// The type of the method's result, where the library gives back what it has.
    fn note_result(&mut self, method: &'a Summary) -> Result<(), Memory>
        requires { AreKinds self.now }
        ensures { OnOk result (AreKinds self.new) }
    {
        match &method.gives {
            Gives::Handed => self.note(method.proto.ret.as_bytes()),
            _ => Ok(()),
        }
    }

    /// How the type is asked for.
    #[tactic(auto, using(crate::proofs::Rows::is_number))]
    pub fn column(&self, name: &[u8]) -> Column
        ensures { IsColumn self.now name.now result }
    {
        if name == object_name() {
            return Column::Object;
        }
        match self.numbers.get(&NameKey { name }) {
            Some(number) => Column::Number(*number),
            None => Column::Unknown,
        }
    }

    /// A row of no types.
    pub fn row(&self, alloc: Global) -> Result<Bits, Memory>
        requires { AreKinds self.now }
        ensures { IfOk result (λ row. HasKinds self.now row nothing) }
    {
        Bits::new(alloc, self.count / 64 + 1)
    }

    /// The type of this name comes to the row, where it has a number.
    #[tactic(auto, using(crate::proofs::Rows::marks_one, crate::proofs::Rows::marks_none))]
    pub fn mark(&self, row: &mut Bits, name: &[u8])
        requires kinds { AreKinds self.now }
        requires long { length row.now ≡ word_count self.now.count }
        ensures { Adds self.now row.old row.new (same_name name.now) }
    {
        if let Some(number) = self.numbers.get(&NameKey { name }) {
            row.insert(*number);
        }
    }

    /// The types of these names do.
    #[tactic(auto, using(crate::proofs::Rows::adds_none_of, crate::proofs::Rows::adds_one_of, crate::proofs::Rows::adds_all_of))]
    pub fn mark_each(&self, row: &mut Bits, names: &[Name])
        requires kinds { AreKinds self.now }
        requires long { length row.now ≡ word_count self.now.count }
        ensures { Adds self.now row.old row.new (is_among names.now) }
    {
        for name in names {
            self.mark(row, name.as_bytes());
        }
    }
}

ghost use Rattle.std.specs.Prelude.{◌≡◌, IfOk};
ghost use Rattle.std.specs.Option.{option_copied};
ghost use Rattle.app_machine.specs.Sound.{SoundApp};
ghost use Rattle.app_machine.specs.SoundLists.{SoundLists};
ghost use Rattle.app_machine.specs.Summaries.{row_of, default_of, listed_class, library_key};
ghost use Rattle.app_machine.specs.Summaries.{listed_static, source_of, static_source};
ghost use Rattle.app_index.specs.Handed.{handed_rows};
ghost use Rattle.app_index.specs.Walk.{found};

use crate::handed::handed_rows;
use crate::keys::{ClassKey, FieldKey, MethodKey, field_key, method_key};
use crate::numbers::{number_classes, number_defaults, number_methods, number_statics};
use crate::walk::{Wanted, on_walk};
use app_machine::{App, LibClass, Lists, Proto, StaticRow, SummaryId};
use std::alloc::Global;
use std::collections::HashMap;
use std::marker::Model;
use vet_base::{Memory, Name};

/// The lists of the library, the numbers of their rows and classes by what code names, and those of rows that
/// give back what the library has.
/// Contracts see the lists.
#[derive(Drop)]
pub struct LibraryIndex<'a> {
    lists: &'a Lists,
    methods: HashMap<MethodKey<'a>, u32>,
    classes: HashMap<ClassKey<'a>, u32>,
    defaults: HashMap<ClassKey<'a>, u32>,
    statics: HashMap<FieldKey<'a>, u32>,
    handed: Vec<u32>,
}

impl<'a> Model for LibraryIndex<'a> {
    ghost use Rattle.app_machine.specs.declared.lists.Lists.{Lists};
    ghost use Rattle.app_index.specs.Numbers.{HasNumbers};

    ghost Value = { Lists };

    ghost view = { λ x. x.lists.now };

    ghost invariant = { λ x. HasNumbers x.methods x.classes x.defaults x.statics x.handed.items x.lists.now };
}

impl<'a> LibraryIndex<'a> {
    /// The index of the lists, in time and memory of their length.
    #[tactic(auto, unfolding(crate::specs::Handed::handed_rows))]
    pub fn of(alloc: Global, lists: &'a Lists) -> Result<LibraryIndex<'a>, Memory>
        requires { SoundLists lists.now }
        ensures { IfOk result (λ index. index ≡ lists.now) }
    {
        Ok(LibraryIndex {
            lists,
            methods: number_methods(alloc, lists.methods.as_slice())?,
            classes: number_classes(alloc, lists.classes.as_slice())?,
            defaults: number_defaults(alloc, lists.classes.as_slice())?,
            statics: number_statics(alloc, lists.statics.as_slice())?,
            handed: handed_rows(alloc, lists.methods.as_slice())?,
        })
    }

    /// The lists themselves.
    pub fn lists(&self) -> &Lists
        ensures { result.now ≡ self.now }
    {
        self.lists
    }

    /// The numbers of the method rows whose result is an object that the library has, ascending.
    pub fn handed_rows(&self) -> &[u32]
        ensures { result.now ≡ handed_rows self.now }
    {
        self.handed.as_slice()
    }

    /// What a library call of the method on the class does: the first row of that name, descriptor
    /// and static word at a listed class above a library class of the class, else the first default
    /// there. None exactly where there is neither.
    #[tactic(auto, unfolding(app_machine::specs::Summaries::library_key))]
    pub fn key(
        &self,
        app: &App,
        class: &Name,
        name: &Name,
        proto: &Proto,
        is_static: bool,
    ) -> Option<SummaryId>
        requires { SoundApp app.now }
        ensures { result ≡ library_key app.now self.now class.now name.now proto.now is_static }
    {
        match on_walk(app, self, class, Wanted::Row(name, proto, is_static)) {
            Some(row) => Some(SummaryId::Row(row)),
            None => match on_walk(app, self, class, Wanted::Default) {
                Some(class) => Some(SummaryId::Fallback(class)),
                None => None,
            },
        }
    }

    /// The listed class of this name.
    pub(crate) fn listed(&self, name: &[u8]) -> Option<&LibClass>
        ensures { option_copied result ≡ listed_class self.now name.now }
    {
        match self.classes.get(&ClassKey { name }) {
            Some(number) => self.lists.classes.get(*number as usize),
            None => None,
        }
    }

    /// The category with which the lists label the value of the static of this number.
    #[tactic(auto, unfolding(app_machine::specs::Summaries::static_source))]
    pub fn source(&self, app: &App, number: u32) -> Option<u8>
        ensures { result ≡ static_source app.now self.now number }
    {
        match app.statics.get(number as usize) {
            Some(field) => self.source_of(field),
            None => None,
        }
    }

    /// The same of a field.
    fn source_of(&self, field: &(Name, Name, Name)) -> Option<u8>
        ensures { result ≡ source_of (listed_static self.now field.now) }
    {
        match self.listed_static(field) {
            Some(row) => row.source,
            None => None,
        }
    }

    /// The row of the static field.
    fn listed_static(&self, field: &(Name, Name, Name)) -> Option<&StaticRow>
        ensures { option_copied result ≡ listed_static self.now field.now }
    {
        let key = field_key(&field.0, &field.1, &field.2);
        match self.statics.get(&key) {
            Some(number) => self.lists.statics.get(*number as usize),
            None => None,
        }
    }

    /// What is found at the class itself.
    pub(crate) fn at(&self, class: &Name, wanted: Wanted) -> Option<u32>
        ensures { result ≡ found self.now wanted.entry class.now }
    {
        match wanted {
            Wanted::Row(name, proto, is_static) => self.row_at(class, name, proto, is_static),
            Wanted::Default => self.default_at(class),
        }
    }

    /// The number of the class's row of the method.
    fn row_at(&self, class: &Name, name: &Name, proto: &Proto, is_static: bool) -> Option<u32>
        ensures { result ≡ row_of self.now class.now name.now proto.now is_static }
    {
        let key = method_key(class, name, proto, is_static);
        self.methods.get(&key).copied()
    }

    /// The number of the listed class, where it has a default.
    fn default_at(&self, class: &Name) -> Option<u32>
        ensures { result ≡ default_of self.now class.now }
    {
        let name = class.as_bytes();
        self.defaults.get(&ClassKey { name }).copied()
    }
}

//! The classes of the library, each with the classes above it.
ghost use Rattle.std.specs.Prelude.{◌≡◌, ◌++◌, map, [], ◌∷◌, IfOk};
ghost use Rattle.std.specs.Option.{option_copied};
ghost use Rattle.form_fields.specs.Once.{with_new};
ghost use Rattle.store_lists.specs.Classes.{above_in, parent_row, parents_above, parents_at, fallback_of};
ghost use Rattle.store_lists.specs.Classes.{fallback_at, class_at, class_row, classes_of, class_name};
ghost use Rattle.toml.specs.View.{table_view, view};
ghost use Rattle.vet_base.specs.Script.{Gives};

use app_machine::{FallbackWord, LibClass};
use form_fields::{
    Fault, Index, Key, Section, Spelling, known, table_in, text_at, texts_in, value_at, with_new,
    word_at,
};
use std::alloc::Global;
use std::marker::Model;
use toml::{Table, Value};
use vet_base::{Memory, Name, Seq, Stop};

/// Rows of classes, each found by its name. Contracts see the rows.
#[derive(Drop)]
pub struct Classes {
    rows: Vec<LibClass>,
    names: Index<Name>,
}

impl Model for Classes {
    ghost use Rattle.std.specs.Prelude.{◌≡◌, List, map};
    ghost use Rattle.app_machine.specs.declared.lists.LibClass.{LibClass};
    ghost use Rattle.store_lists.specs.Classes.{class_name};

    ghost Value = { List LibClass };

    ghost view = { λ c. c.rows.items };

    ghost invariant = { λ c. c.names ≡ map class_name c.rows.items };
}

impl Classes {
    /// No rows.
    pub fn new(alloc: Global) -> Self
        ensures { result ≡ [] }
    {
        Classes {
            rows: Vec::new(alloc),
            names: Index::new(alloc),
        }
    }

    /// The classes above the first row of that name.
    pub fn above(&self, name: &Name) -> Option<&[Name]>
        ensures { option_copied result ≡ above_in self.now name.now }
    {
        let place = self.names.place_of(name)?;
        Some(self.rows[place].above.as_slice())
    }

    /// The rows and one more.
    pub fn with(self, row: LibClass) -> Result<Self, Memory>
        ensures { IfOk result (λ x. x ≡ self ++ row ∷ []) }
    {
        let Classes { mut rows, names } = self;
        let names = with_name(names, &row.name)?;
        rows.push(row)?;
        Ok(Classes { rows, names })
    }

    /// The names of the rows, and the rows.
    pub fn into_parts(self) -> (Index<Name>, Vec<LibClass>)
        ensures names { result.0 ≡ map class_name self }
        ensures rows { result.1.items ≡ self }
    {
        (self.names, self.rows)
    }
}

/// Reads the rows.
#[tactic(auto, unfolding(crate::specs::Classes::classes_of), using(form_fields::proofs::Eaching::eaching_begins, form_fields::proofs::Eaching::eaching_goes_on, form_fields::proofs::Eaching::eaching_fails, form_fields::proofs::Eaching::eaching_is_done))]
pub fn classes_of(alloc: Global, tables: &[Value]) -> Result<Classes, Stop<Fault>>
    ensures { Gives (λ x. x) result (classes_of (map view tables.now)) }
{
    let mut classes = Classes::new(alloc);
    for value in tables {
        classes = class_row(alloc, value, classes)?;
    }
    Ok(classes)
}

/// One row more.
#[tactic(auto, unfolding(crate::specs::Classes::class_row), using(vet_base::proofs::Scripts::run_bind))]
fn class_row(alloc: Global, value: &Value, classes: Classes) -> Result<Classes, Stop<Fault>>
    ensures { Gives (λ x. x) result (class_row (view value.now) classes) }
{
    let class = class_at(alloc, value, &classes)?;
    Ok(classes.with(class)?)
}

/// A class of the library. It stands first itself among those above it.
#[tactic(auto, unfolding(crate::specs::Classes::class_at), using(vet_base::proofs::Scripts::run_bind))]
fn class_at(alloc: Global, value: &Value, classes: &Classes) -> Result<LibClass, Stop<Fault>>
    ensures { Gives (λ x. x) result (class_at (view value.now) classes.now) }
{
    let table = table_in(value, Section::Lists, Key::Class)?;
    known(alloc, table, Section::Class)?;
    let name = text_at(alloc, table, Section::Class, Key::Name, Spelling::Class)?;
    let parents = parents_at(alloc, table)?;
    let above = parents_above(alloc, classes, &parents, &name)?;
    let fallback = fallback_at(table)?;
    Ok(LibClass {
        name,
        above: Seq::from_vec(above.into_keys()),
        fallback,
    })
}

/// The parents that a row names, each once.
#[tactic(auto, unfolding(crate::specs::Classes::parents_at), using(vet_base::proofs::Scripts::run_bind))]
fn parents_at(alloc: Global, table: &Table) -> Result<Vec<Name>, Stop<Fault>>
    ensures { Gives (λ v. v.items) result (parents_at (table_view table.now)) }
{
    let Some(value) = value_at(table, Key::Parents) else {
        return Ok(Vec::new(alloc));
    };
    let texts = texts_in(alloc, value, Section::Class, Key::Parents)?;
    Ok(each_once(alloc, &texts)?)
}

/// The names, each where it stands first.
fn each_once(alloc: Global, names: &[Name]) -> Result<Vec<Name>, Memory>
    ensures { IfOk result (λ v. v.items ≡ with_new [] names.now) }
{
    let once = with_new(Index::new(alloc), names)?;
    Ok(once.into_keys())
}

/// The class and the classes above its parents, each once; at most 64.
#[tactic(auto, unfolding(crate::specs::Classes::parents_above), using(vet_base::proofs::Eaches::each_begins, vet_base::proofs::Eaches::each_goes_on, vet_base::proofs::Eaches::each_fails, vet_base::proofs::Eaches::each_is_done))]
fn parents_above(
    alloc: Global,
    classes: &Classes,
    parents: &[Name],
    name: &Name,
) -> Result<Index<Name>, Stop<Fault>>
    ensures { Gives (λ x. x) result (parents_above classes.now parents.now name.now) }
{
    let mut above = only(alloc, name)?;
    for parent in parents {
        above = parent_row(classes, parent, above)?;
    }
    Ok(above)
}

/// The names and one more.
pub(crate) fn with_name(names: Index<Name>, name: &Name) -> Result<Index<Name>, Memory>
    ensures { IfOk result (λ x. x ≡ names ++ name.now ∷ []) }
{
    let key = name.copy()?;
    let twin = name.copy()?;
    names.with(key, twin)
}

/// An index of one name.
fn only(alloc: Global, name: &Name) -> Result<Index<Name>, Memory>
    ensures { IfOk result (λ x. x ≡ name.now ∷ []) }
{
    with_name(Index::new(alloc), name)
}

/// The classes above one parent more, whose row stands earlier.
#[tactic(auto, unfolding(crate::specs::Classes::parent_row))]
fn parent_row(
    classes: &Classes,
    parent: &Name,
    above: Index<Name>,
) -> Result<Index<Name>, Stop<Fault>>
    ensures { Gives (λ x. x) result (parent_row classes.now parent.now above) }
{
    let Some(more) = classes.above(parent) else {
        return Err(Stop::Fault(Fault::Range(Section::Class, Key::Parents)));
    };
    let all = with_new(above, more)?;
    if all.len() > 64 {
        return Err(Stop::Fault(Fault::Range(Section::Class, Key::Parents)));
    }
    Ok(all)
}

/// The default of a class that has no row for a method.
#[tactic(auto, unfolding(crate::specs::Classes::fallback_at), using(vet_base::proofs::Scripts::run_bind))]
fn fallback_at(table: &Table) -> Result<Option<FallbackWord>, Stop<Fault>>
    ensures { Gives (λ x. x) result (fallback_at (table_view table.now)) }
{
    let word = word_at(table, Section::Class, Key::Default)?;
    let Some(word) = word else {
        return Ok(None);
    };
    match fallback_of(word) {
        Some(fallback) => Ok(Some(fallback)),
        None => Err(Stop::Fault(Fault::Wrong(Section::Class, Key::Default))),
    }
}

#[tactic(auto, unfolding(crate::specs::Classes::fallback_of))]
fn fallback_of(word: &str) -> Option<FallbackWord>
    ensures { result ≡ fallback_of word.now }
{
    match word {
        "blank" => Some(FallbackWord::Blank),
        "joined" => Some(FallbackWord::Joined),
        "mixed" => Some(FallbackWord::Mixed),
        _ => None,
    }
}

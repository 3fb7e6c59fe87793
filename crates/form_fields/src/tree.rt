//! The tree of a text, and look-ups in its tables.
ghost use Rattle.std.specs.Prelude.{◌≡◌, map, option_map, IfOk, IfErr};
ghost use Rattle.form_fields.specs.Tree.{Reads, items_in};
ghost use Rattle.form_fields.specs.Form.{IsUnread};
ghost use Rattle.form_fields.specs.Fields.{at_key, is_known, least_unknown, known};
ghost use Rattle.toml.specs.View.{table_view, view};
ghost use Rattle.vet_base.specs.Script.{Gives};

use crate::{Fault, Key, Section};
use std::alloc::Global;
use toml::{Table, Value};
use vet_base::{Name, Stop};

/// Reads a text as TOML: `NotToml` where it is not UTF-8, or TOML does not read it.
pub fn read_tree(alloc: Global, text: &[u8]) -> Result<Table, Stop<Fault>>
    ensures ok { IfOk result (λ t. Reads text.now (table_view t)) }
    ensures err { IfErr result (IsUnread text.now) }
{
    let Ok(characters) = std::str::from_utf8(text) else {
        return Err(Stop::Fault(Fault::NotToml));
    };
    match toml::table_from_str(alloc, characters) {
        Ok(table) => Ok(table),
        Err(e) if e.is_memory() => Err(Stop::Memory),
        Err(_) => Err(Stop::Fault(Fault::NotToml)),
    }
}

/// The value at a key, where it is there.
#[tactic(auto, unfolding(crate::specs::Fields::at_key))]
pub fn value_at<'a>(table: &'a Table, key: Key) -> Option<&'a Value>
    ensures { option_map (λ v. view v.now) result ≡ at_key key (table_view table.now) }
{
    table.get(key.text())
}

/// The items of a value, where it is an array.
#[tactic(auto, using(crate::proofs::Listed::items_are, crate::proofs::Listed::no_items_are))]
pub fn items_in<'a>(value: &'a Value) -> Option<&'a [Value]>
    ensures { option_map (λ x. map view x.now) result ≡ items_in (view value.now) }
{
    match value.as_array() {
        Some(array) => Some(array.as_slice()),
        None => None,
    }
}

/// Refuses keys that tables of the section do not have: the least of them is `Unknown`.
#[tactic(auto, unfolding(crate::specs::Fields::known))]
pub fn known(alloc: Global, table: &Table, section: Section) -> Result<(), Stop<Fault>>
    ensures { Gives (λ x. x) result (known section (table_view table.now)) }
{
    match least_unknown(table, section) {
        None => Ok(()),
        Some(key) => {
            let name = Name::from_bytes(alloc, key.as_bytes())?;
            Err(Stop::Fault(Fault::Unknown(section, name)))
        }
    }
}

/// The first key in the table's order that tables of the section do not have.
#[tactic(auto, unfolding(crate::specs::Fields::least_unknown))]
fn least_unknown<'a>(table: &'a Table, section: Section) -> Option<&'a str>
    ensures { option_map (λ s. s.now) result ≡ least_unknown section (table_view table.now) }
{
    for (key, _) in table.iter() {
        if !is_known(section, key.as_str()) {
            return Some(key.as_str());
        }
    }
    None
}

#[tactic(auto, unfolding(crate::specs::Fields::is_known))]
fn is_known(section: Section, name: &str) -> bool
    ensures { result ≡ is_known section name.now }
{
    section.keys().iter().any(|key| key.text() == name)
}

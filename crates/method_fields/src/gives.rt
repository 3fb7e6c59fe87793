//! The result of a method row.
ghost use Rattle.std.specs.Prelude.{◌≡◌, ◌≤◌, length, slice_index};
ghost use Rattle.method_fields.specs.Gives.{gives_word, source_allows, type_allows, is_allowed};
ghost use Rattle.method_fields.specs.Gives.{default_word, result_at};
ghost use Rattle.method_fields.specs.Gives.{from_fits, shared_fits, shared_at, gives_of, gives_at};
ghost use Rattle.toml.specs.View.{table_view};
ghost use Rattle.vet_base.specs.Script.{Gives as GivesBack};

use crate::positions::{has_key, listed_at, positions_at};
use app_machine::Gives;
use form_fields::{Fault, Index, Key, Section, word_at};
use std::alloc::Global;
use toml::Table;
use vet_base::{Name, Seq, Stop};

/// The words of a result.
#[derive(Clone, Copy, Debug, PartialEq, Eq)]
pub enum GivesWord {
    Blank,
    Same,
    Taken,
    Joined,
    Shared,
    Handed,
}

/// Reads `result`, `from` and `shared` of a method with so many arguments, and a result of a reference type or none.
/// `Wrong` is a result that is no word, a `from` that is no list of numbers, and a `shared` that is no text; `Range`
/// a result that a source or the type does not allow, a `from` or `shared` that does not go with the result, a position that is no argument's, and a name
/// that is none of the shared objects.
#[tactic(auto, unfolding(crate::specs::Gives::gives_at), using(vet_base::proofs::Scripts::run_bind))]
pub fn gives_at(
    alloc: Global,
    table: &Table,
    shared: &Index<Name>,
    count: usize,
    gives_reference: bool,
) -> Result<Gives, Stop<Fault>>
    requires { length shared.now ≤ 65536 }
    ensures { GivesBack (λ g. g) result (gives_at shared.now count gives_reference (table_view table.now)) }
{
    let word = result_at(table, gives_reference)?;
    let from = positions_at(alloc, table, Section::Method, Key::From, count)?;
    if !from_fits(word, has_key(table, Key::From), &from) {
        return Err(Stop::Fault(Fault::Range(Section::Method, Key::From)));
    }
    let number = shared_at(alloc, table, word, shared)?;
    Ok(gives_of(word, from, number))
}

/// The word of the result. A source allows a joined result alone, and what the library has is a result of a reference
/// type alone.
#[tactic(auto, unfolding(crate::specs::Gives::result_at), using(vet_base::proofs::Scripts::run_bind))]
fn result_at(table: &Table, gives_reference: bool) -> Result<GivesWord, Stop<Fault>>
    ensures { GivesBack (λ w. w) result (result_at gives_reference (table_view table.now)) }
{
    let text = word_at(table, Section::Method, Key::Result)?;
    let has_source = has_key(table, Key::Source);
    let Some(text) = text else {
        return Ok(default_word(has_source));
    };
    let Some(word) = gives_word(text) else {
        return Err(Stop::Fault(Fault::Wrong(Section::Method, Key::Result)));
    };
    if !is_allowed(has_source, gives_reference, word) {
        return Err(Stop::Fault(Fault::Range(Section::Method, Key::Result)));
    }
    Ok(word)
}

#[tactic(auto, unfolding(crate::specs::Gives::default_word))]
fn default_word(has_source: bool) -> GivesWord
    ensures { result ≡ default_word has_source }
{
    if has_source {
        GivesWord::Joined
    } else {
        GivesWord::Blank
    }
}

#[tactic(auto, unfolding(crate::specs::Gives::gives_word))]
fn gives_word(word: &str) -> Option<GivesWord>
    ensures { result ≡ gives_word word.now }
{
    match word {
        "blank" => Some(GivesWord::Blank),
        "same" => Some(GivesWord::Same),
        "taken" => Some(GivesWord::Taken),
        "joined" => Some(GivesWord::Joined),
        "shared" => Some(GivesWord::Shared),
        "handed" => Some(GivesWord::Handed),
        _ => None,
    }
}

#[tactic(auto, unfolding(crate::specs::Gives::source_allows))]
fn source_allows(has_source: bool, word: GivesWord) -> bool
    ensures { result ≡ source_allows has_source word }
{
    match word {
        GivesWord::Joined => true,
        GivesWord::Blank
        | GivesWord::Same
        | GivesWord::Taken
        | GivesWord::Shared
        | GivesWord::Handed => !has_source,
    }
}

/// Whether a method of such a result may have the word.
#[tactic(auto, unfolding(crate::specs::Gives::type_allows))]
fn type_allows(gives_reference: bool, word: GivesWord) -> bool
    ensures { result ≡ type_allows gives_reference word }
{
    match word {
        GivesWord::Handed => gives_reference,
        GivesWord::Blank
        | GivesWord::Same
        | GivesWord::Taken
        | GivesWord::Joined
        | GivesWord::Shared => true,
    }
}

/// Whether a method with such a source and result may have the word.
#[tactic(auto, unfolding(crate::specs::Gives::is_allowed))]
fn is_allowed(has_source: bool, gives_reference: bool, word: GivesWord) -> bool
    ensures { result ≡ is_allowed has_source gives_reference word }
{
    source_allows(has_source, word) && type_allows(gives_reference, word)
}

/// One position for `same` and `taken`, any number for `joined`; otherwise the key is not there.
#[tactic(auto, unfolding(crate::specs::Gives::from_fits))]
fn from_fits(word: GivesWord, there: bool, from: &[u32]) -> bool
    ensures { result ≡ from_fits word there from.now }
{
    match word {
        GivesWord::Same | GivesWord::Taken => from.len() == 1,
        GivesWord::Joined => true,
        GivesWord::Blank | GivesWord::Shared | GivesWord::Handed => !there,
    }
}

/// The number of the shared object, which is named exactly with the result `shared`; that it is a text
/// is tested before.
#[tactic(auto, unfolding(crate::specs::Gives::shared_at), using(vet_base::proofs::Scripts::run_bind))]
fn shared_at(
    alloc: Global,
    table: &Table,
    word: GivesWord,
    shared: &Index<Name>,
) -> Result<u32, Stop<Fault>>
    requires { length shared.now ≤ 65536 }
    ensures { GivesBack (λ n. n) result (shared_at word shared.now (table_view table.now)) }
{
    word_at(table, Section::Method, Key::Shared)?;
    if !shared_fits(word, has_key(table, Key::Shared)) {
        return Err(Stop::Fault(Fault::Range(Section::Method, Key::Shared)));
    }
    match listed_at(alloc, table, Section::Method, Key::Shared, shared)? {
        Some(number) => Ok(number as u32),
        None => Ok(0),
    }
}

#[tactic(auto, unfolding(crate::specs::Gives::shared_fits))]
fn shared_fits(word: GivesWord, there: bool) -> bool
    ensures { result ≡ shared_fits word there }
{
    match word {
        GivesWord::Shared => there,
        GivesWord::Blank
        | GivesWord::Same
        | GivesWord::Taken
        | GivesWord::Joined
        | GivesWord::Handed => !there,
    }
}

#[tactic(auto, unfolding(crate::specs::Gives::gives_of))]
fn gives_of(word: GivesWord, from: Vec<u32>, number: u32) -> Gives
    ensures { result ≡ gives_of word from.items number }
{
    match word {
        GivesWord::Blank => Gives::Blank,
        GivesWord::Same => Gives::Same(first_of(&from)),
        GivesWord::Taken => Gives::Taken(first_of(&from)),
        GivesWord::Joined => Gives::Joined(Seq::from_vec(from)),
        GivesWord::Shared => Gives::Shared(number),
        GivesWord::Handed => Gives::Handed,
    }
}

/// The first position, where there is one.
fn first_of(from: &[u32]) -> u32
    ensures { result ≡ slice_index from.now 0 }
{
    match from.first() {
        Some(position) => *position,
        None => 0,
    }
}

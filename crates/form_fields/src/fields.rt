//! What stands at a key: one reader for each kind of value.
ghost use Rattle.std.specs.Prelude.{◌≡◌, ◌≤◌, map, length, IfOk};
ghost use Rattle.std.specs.Option.{option_copied};
ghost use Rattle.form_fields.specs.Fields.{text_at, maybe_text_at, word_at, text_of_value, number_at, texts_at};
ghost use Rattle.form_fields.specs.Fields.{maybe_texts_at, texts_in, text_items, text_item, all_fit, tables_at};
ghost use Rattle.form_fields.specs.Fields.{table_in};
ghost use Rattle.toml.specs.View.{table_view, view};
ghost use Rattle.vet_base.specs.Script.{Gives};

use crate::shape::{Shape, all_have};
use crate::spelling::Spelling;
use crate::tree::{items_in, value_at};
use crate::{Fault, Key, Section};
use std::alloc::Global;
use toml::{Table, Value};
use vet_base::{Name, Stop};

/// A text that has to be there: `Missing` where the key is not there, `Wrong` where it is no text, `Range`
/// where it is not spelled so.
#[tactic(auto, unfolding(crate::specs::Fields::text_at))]
pub fn text_at(
    alloc: Global,
    table: &Table,
    section: Section,
    key: Key,
    spelling: Spelling,
) -> Result<Name, Stop<Fault>>
    ensures { Gives (λ n. n) result (text_at section key spelling (table_view table.now)) }
{
    let Some(value) = value_at(table, key) else {
        return Err(Stop::Fault(Fault::Missing(section, key)));
    };
    text_in(alloc, value, section, key, spelling)
}

/// A text that may be missing: `Wrong` where it is no text, `Range` where it is not spelled so.
#[tactic(auto, unfolding(crate::specs::Fields::maybe_text_at), using(vet_base::proofs::Scripts::run_bind))]
pub fn maybe_text_at(
    alloc: Global,
    table: &Table,
    section: Section,
    key: Key,
    spelling: Spelling,
) -> Result<Option<Name>, Stop<Fault>>
    ensures { Gives (λ n. n) result (maybe_text_at section key spelling (table_view table.now)) }
{
    let Some(value) = value_at(table, key) else {
        return Ok(None);
    };
    let text = text_in(alloc, value, section, key, spelling)?;
    Ok(Some(text))
}

#[tactic(auto, unfolding(crate::specs::Fields::text_of_value))]
fn text_in(
    alloc: Global,
    value: &Value,
    section: Section,
    key: Key,
    spelling: Spelling,
) -> Result<Name, Stop<Fault>>
    ensures { Gives (λ n. n) result (text_of_value section key spelling (view value.now)) }
{
    let Some(text) = value.as_str() else {
        return Err(Stop::Fault(Fault::Wrong(section, key)));
    };
    if !spelling.fits(text.as_bytes()) {
        return Err(Stop::Fault(Fault::Range(section, key)));
    }
    Ok(Name::from_bytes(alloc, text.as_bytes())?)
}

/// The text of a key that has words of its own, where it is there: `Wrong` where it is no text.
#[tactic(auto, unfolding(crate::specs::Fields::word_at))]
pub fn word_at<'a>(
    table: &'a Table,
    section: Section,
    key: Key,
) -> Result<Option<&'a str>, Stop<Fault>>
    ensures { Gives (λ w. option_copied w) result (word_at section key (table_view table.now)) }
{
    let Some(value) = value_at(table, key) else {
        return Ok(None);
    };
    match value.as_str() {
        Some(text) => Ok(Some(text)),
        None => Err(Stop::Fault(Fault::Wrong(section, key))),
    }
}

/// A number from `low` to `high`, which has to be there: `Missing` where the key is not there, `Wrong` where
/// it is no number, `Range` where it is another one.
#[tactic(auto, unfolding(crate::specs::Fields::number_at))]
pub fn number_at(
    table: &Table,
    section: Section,
    key: Key,
    low: u32,
    high: u32,
) -> Result<u32, Stop<Fault>>
    ensures value { Gives (λ n. n) result (number_at section key low high (table_view table.now)) }
    ensures within { IfOk result (λ n. (low ≤ n) × (n ≤ high)) }
{
    let Some(value) = value_at(table, key) else {
        return Err(Stop::Fault(Fault::Missing(section, key)));
    };
    let Some(number) = value.as_integer() else {
        return Err(Stop::Fault(Fault::Wrong(section, key)));
    };
    match u32::try_from(number) {
        Ok(n) if low <= n && n <= high => Ok(n),
        _ => Err(Stop::Fault(Fault::Range(section, key))),
    }
}

/// A list of at most so many texts, which has to be there: `Missing` where the key is not there, `Wrong`
/// where it is no list of texts, `Range` where one of them is not spelled so, or there are more.
#[tactic(auto, unfolding(crate::specs::Fields::texts_at), using(vet_base::proofs::Scripts::run_bind))]
pub fn texts_at(
    alloc: Global,
    table: &Table,
    section: Section,
    key: Key,
    spelling: Spelling,
    most: usize,
) -> Result<Vec<Name>, Stop<Fault>>
    ensures value { Gives (λ v. v.items) result (texts_at section key spelling most (table_view table.now)) }
    ensures few { IfOk result (λ v. length v.items ≤ most) }
{
    let Some(value) = value_at(table, key) else {
        return Err(Stop::Fault(Fault::Missing(section, key)));
    };
    let texts = texts_in(alloc, value, section, key)?;
    if !all_fit(spelling, &texts) {
        return Err(Stop::Fault(Fault::Range(section, key)));
    }
    if texts.len() > most {
        return Err(Stop::Fault(Fault::Range(section, key)));
    }
    Ok(texts)
}

/// As `texts_at`, where the list may be missing: then it has no texts.
#[tactic(auto, unfolding(crate::specs::Fields::maybe_texts_at, crate::specs::Fields::texts_at))]
pub fn maybe_texts_at(
    alloc: Global,
    table: &Table,
    section: Section,
    key: Key,
    spelling: Spelling,
    most: usize,
) -> Result<Vec<Name>, Stop<Fault>>
    ensures value { Gives (λ v. v.items) result (maybe_texts_at section key spelling most (table_view table.now)) }
    ensures few { IfOk result (λ v. length v.items ≤ most) }
{
    if value_at(table, key).is_none() {
        return Ok(Vec::new(alloc));
    }
    texts_at(alloc, table, section, key, spelling, most)
}

/// The texts of a list: `Wrong` of the key where it is none, or one of its items is no text.
#[tactic(auto, unfolding(crate::specs::Fields::texts_in), using(vet_base::proofs::Scripts::run_bind))]
pub fn texts_in(
    alloc: Global,
    value: &Value,
    section: Section,
    key: Key,
) -> Result<Vec<Name>, Stop<Fault>>
    ensures { Gives (λ v. v.items) result (texts_in section key (view value.now)) }
{
    let Some(items) = items_in(value) else {
        return Err(Stop::Fault(Fault::Wrong(section, key)));
    };
    let texts = text_items(alloc, items, section, key)?;
    Ok(texts)
}

#[tactic(auto, unfolding(crate::specs::Fields::text_items), using(crate::proofs::Walking::begins, crate::proofs::Walking::goes_on, crate::proofs::Walking::fails, crate::proofs::Walking::is_done))]
fn text_items(
    alloc: Global,
    values: &[Value],
    section: Section,
    key: Key,
) -> Result<Vec<Name>, Stop<Fault>>
    ensures { Gives (λ v. (v.items, tt)) result (text_items section key (map view values.now)) }
{
    let mut texts = Vec::new(alloc);
    for value in values {
        let text = text_item(alloc, value, section, key)?;
        texts.push(text)?;
    }
    Ok(texts)
}

#[tactic(auto, unfolding(crate::specs::Fields::text_item))]
fn text_item(alloc: Global, value: &Value, section: Section, key: Key) -> Result<Name, Stop<Fault>>
    ensures { Gives (λ n. (n, tt)) result (text_item section key (view value.now) tt) }
{
    let Some(text) = value.as_str() else {
        return Err(Stop::Fault(Fault::Wrong(section, key)));
    };
    Ok(Name::from_bytes(alloc, text.as_bytes())?)
}

#[tactic(auto, unfolding(crate::specs::Fields::all_fit))]
fn all_fit(spelling: Spelling, texts: &[Name]) -> bool
    ensures { result ≡ all_fit spelling texts.now }
{
    texts.iter().all(|text| spelling.fits(text.as_bytes()))
}

/// The tables of an array, at most so many; none where the array is missing. `Wrong` where it is no array of
/// tables, `Range` where there are more.
#[tactic(auto, unfolding(crate::specs::Fields::tables_at), using(vet_base::proofs::Scripts::run_bind))]
pub fn tables_at<'a>(
    table: &'a Table,
    section: Section,
    key: Key,
    most: usize,
) -> Result<&'a [Value], Stop<Fault>>
    ensures value { Gives (λ x. map view x.now) result (tables_at section key most (table_view table.now)) }
    ensures few { IfOk result (λ x. length x.now ≤ most) }
{
    let Some(value) = value_at(table, key) else {
        return Ok(&[]);
    };
    let Some(values) = items_in(value) else {
        return Err(Stop::Fault(Fault::Wrong(section, key)));
    };
    if !all_have(Shape::Table, values) {
        return Err(Stop::Fault(Fault::Wrong(section, key)));
    }
    if values.len() > most {
        return Err(Stop::Fault(Fault::Range(section, key)));
    }
    Ok(values)
}

/// One of the tables of an array: `Wrong` of the array's key where it is none.
#[tactic(auto, unfolding(crate::specs::Fields::table_in))]
pub fn table_in<'a>(value: &'a Value, section: Section, key: Key) -> Result<&'a Table, Stop<Fault>>
    ensures { Gives (λ t. table_view t.now) result (table_in section key (view value.now)) }
{
    match value.as_table() {
        Some(table) => Ok(table),
        None => Err(Stop::Fault(Fault::Wrong(section, key))),
    }
}

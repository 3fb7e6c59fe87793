//! Lists of positions, of pairs of positions, and of a position with a name. Positions count
//! arguments, a wide one once, the receiver being 0.
ghost use Rattle.std.specs.Prelude.{◌≡◌, ◌<◌, ◌≤◌, map, length, option_map, IfOk, IfSome};
ghost use Rattle.method_fields.specs.Positions.{has_key, flag_at, position_of, items_at, position_row, position_rows};
ghost use Rattle.method_fields.specs.Positions.{positions_at, pair_row, pair_rows, pairs_at, name_at, position_at};
ghost use Rattle.method_fields.specs.Positions.{are_two, named_row, named_rows, named_at, listed_at};
ghost use Rattle.form_fields.specs.Places.{place_of};
ghost use Rattle.app_machine.specs.Names.{same_name};
ghost use Rattle.toml.specs.View.{table_view, view};
ghost use Rattle.vet_base.specs.Script.{Gives};

use form_fields::{Fault, Index, Key, Section, Shape, all_have, item_at, items_in, value_at};
use std::alloc::Global;
use toml::{Table, Value};
use vet_base::{Memory, Name, Stop};

/// Whether the key is there.
#[tactic(auto, unfolding(crate::specs::Positions::has_key))]
pub fn has_key(table: &Table, key: Key) -> bool
    ensures { result ≡ has_key key (table_view table.now) }
{
    value_at(table, key).is_some()
}

/// A word of yes or no, and no where it is missing: `Wrong` where it is neither.
#[tactic(auto, unfolding(crate::specs::Positions::flag_at))]
pub fn flag_at(table: &Table, section: Section, key: Key) -> Result<bool, Stop<Fault>>
    ensures { Gives (λ b. b) result (flag_at section key (table_view table.now)) }
{
    let Some(value) = value_at(table, key) else {
        return Ok(false);
    };
    match value.as_bool() {
        Some(flag) => Ok(flag),
        None => Err(Stop::Fault(Fault::Wrong(section, key))),
    }
}

/// A list of positions, none where it is missing: `Wrong` where it is no list of numbers, `Range` where one of
/// them is not below the number of arguments.
#[tactic(auto, unfolding(crate::specs::Positions::positions_at), using(vet_base::proofs::Scripts::run_bind))]
pub fn positions_at(
    alloc: Global,
    table: &Table,
    section: Section,
    key: Key,
    count: usize,
) -> Result<Vec<u32>, Stop<Fault>>
    ensures { Gives (λ v. v.items) result (positions_at section key count (table_view table.now)) }
{
    let items = items_at(table, section, key, Shape::Number)?;
    let positions = position_rows(alloc, items, section, key, count)?;
    Ok(positions)
}

/// A list of pairs of positions, none where it is missing: `Wrong` where an item is no list of numbers, `Range`
/// where one is no pair, or a number not below that of the arguments.
#[tactic(auto, unfolding(crate::specs::Positions::pairs_at), using(vet_base::proofs::Scripts::run_bind))]
pub fn pairs_at(
    alloc: Global,
    table: &Table,
    section: Section,
    key: Key,
    count: usize,
) -> Result<Vec<(u32, u32)>, Stop<Fault>>
    ensures { Gives (λ v. v.items) result (pairs_at section key count (table_view table.now)) }
{
    let items = items_at(table, section, key, Shape::NumberPair)?;
    let pairs = pair_rows(alloc, items, section, key, count)?;
    Ok(pairs)
}

/// A list of pairs of a position and one of some names, by its number; none where it is missing. `Wrong` where
/// an item is no list of a number and texts, `Range` where one is no pair, its number is not below that of the
/// arguments, or its text is none of the names.
#[tactic(auto, unfolding(crate::specs::Positions::named_at), using(vet_base::proofs::Scripts::run_bind))]
pub fn named_at(
    alloc: Global,
    table: &Table,
    section: Section,
    key: Key,
    count: usize,
    names: &Index<Name>,
) -> Result<Vec<(u32, u32)>, Stop<Fault>>
    requires { length names.now ≤ 65536 }
    ensures { Gives (λ v. v.items) result (named_at section key count names.now (table_view table.now)) }
{
    let items = items_at(table, section, key, Shape::NamedPair)?;
    let pairs = named_rows(alloc, items, section, key, count, names)?;
    Ok(pairs)
}

/// One of some names, by its number, where it is there: `Wrong` where it is no text, `Range` where it is none of them.
#[tactic(auto, unfolding(crate::specs::Positions::listed_at), using(vet_base::proofs::Scripts::run_bind))]
pub fn listed_at(
    alloc: Global,
    table: &Table,
    section: Section,
    key: Key,
    names: &Index<Name>,
) -> Result<Option<usize>, Stop<Fault>>
    ensures value { Gives (λ n. n) result (listed_at section key names.now (table_view table.now)) }
    ensures within { IfOk result (λ o. IfSome o (λ n. n < length names.now)) }
{
    let Some(value) = value_at(table, key) else {
        return Ok(None);
    };
    let Some(text) = value.as_str() else {
        return Err(Stop::Fault(Fault::Wrong(section, key)));
    };
    match place_in(alloc, text, names)? {
        Some(number) => Ok(Some(number)),
        None => Err(Stop::Fault(Fault::Range(section, key))),
    }
}

/// The items of a list, which have a shape; none where the list is missing. `Wrong` where it is no list, or one
/// of them has another shape.
#[tactic(auto, unfolding(crate::specs::Positions::items_at))]
pub fn items_at<'a>(
    table: &'a Table,
    section: Section,
    key: Key,
    shape: Shape,
) -> Result<&'a [Value], Stop<Fault>>
    ensures { Gives (λ x. map view x.now) result (items_at section key shape (table_view table.now)) }
{
    let Some(value) = value_at(table, key) else {
        return Ok(&[]);
    };
    let Some(items) = items_in(value) else {
        return Err(Stop::Fault(Fault::Wrong(section, key)));
    };
    if !all_have(shape, items) {
        return Err(Stop::Fault(Fault::Wrong(section, key)));
    }
    Ok(items)
}

/// A number below that of the arguments.
#[tactic(auto, unfolding(crate::specs::Positions::position_of))]
fn position_of(value: &Value, section: Section, key: Key, count: usize) -> Result<u32, Stop<Fault>>
    ensures { Gives (λ n. n) result (position_of section key count (view value.now)) }
{
    let Some(number) = value.as_integer() else {
        return Err(Stop::Fault(Fault::Range(section, key)));
    };
    match u32::try_from(number) {
        Ok(n) if (n as usize) < count => Ok(n),
        _ => Err(Stop::Fault(Fault::Range(section, key))),
    }
}

/// The position that stands at a place of a list: `Range` where there is no item, or it is no number below that
/// of the arguments.
#[tactic(auto, unfolding(crate::specs::Positions::position_at))]
fn position_at(
    items: &[Value],
    at: usize,
    section: Section,
    key: Key,
    count: usize,
) -> Result<u32, Stop<Fault>>
    ensures { Gives (λ n. n) result (position_at section key count (map view items.now) at) }
{
    match item_at(items, at) {
        Some(value) => position_of(value, section, key, count),
        None => Err(Stop::Fault(Fault::Range(section, key))),
    }
}

#[tactic(auto, unfolding(crate::specs::Positions::position_rows), using(form_fields::proofs::Walking::begins, form_fields::proofs::Walking::goes_on, form_fields::proofs::Walking::fails, form_fields::proofs::Walking::is_done))]
fn position_rows(
    alloc: Global,
    items: &[Value],
    section: Section,
    key: Key,
    count: usize,
) -> Result<Vec<u32>, Stop<Fault>>
    ensures { Gives (λ v. (v.items, tt)) result (position_rows section key count (map view items.now)) }
{
    let mut positions = Vec::new(alloc);
    for value in items {
        let position = position_row(value, section, key, count)?;
        positions.push(position)?;
    }
    Ok(positions)
}

#[tactic(auto, unfolding(crate::specs::Positions::position_row), using(vet_base::proofs::Scripts::run_bind))]
fn position_row(value: &Value, section: Section, key: Key, count: usize) -> Result<u32, Stop<Fault>>
    ensures { Gives (λ n. (n, tt)) result (position_row section key count (view value.now) tt) }
{
    let position = position_of(value, section, key, count)?;
    Ok(position)
}

#[tactic(auto, unfolding(crate::specs::Positions::pair_rows), using(form_fields::proofs::Walking::begins, form_fields::proofs::Walking::goes_on, form_fields::proofs::Walking::fails, form_fields::proofs::Walking::is_done))]
fn pair_rows(
    alloc: Global,
    items: &[Value],
    section: Section,
    key: Key,
    count: usize,
) -> Result<Vec<(u32, u32)>, Stop<Fault>>
    ensures { Gives (λ v. (v.items, tt)) result (pair_rows section key count (map view items.now)) }
{
    let mut pairs = Vec::new(alloc);
    for value in items {
        pairs.push(pair_row(value, section, key, count)?)?;
    }
    Ok(pairs)
}

#[tactic(auto, unfolding(crate::specs::Positions::pair_row), using(vet_base::proofs::Scripts::run_bind))]
fn pair_row(
    value: &Value,
    section: Section,
    key: Key,
    count: usize,
) -> Result<(u32, u32), Stop<Fault>>
    ensures { Gives (λ p. (p, tt)) result (pair_row section key count (view value.now) tt) }
{
    let Some(parts) = items_in(value) else {
        return Err(Stop::Fault(Fault::Range(section, key)));
    };
    if !are_two(parts) {
        return Err(Stop::Fault(Fault::Range(section, key)));
    }
    let first = position_at(parts, 0, section, key, count)?;
    let second = position_at(parts, 1, section, key, count)?;
    Ok((first, second))
}

/// Whether there are two items.
#[tactic(auto, unfolding(crate::specs::Positions::are_two))]
fn are_two(items: &[Value]) -> bool
    ensures { result ≡ are_two (map view items.now) }
{
    items.len() == 2
}

/// The name that stands at a place of a list, by its number among some names: `Range` where there is no item,
/// or it is none of these names.
#[tactic(auto, unfolding(crate::specs::Positions::name_at))]
fn name_at(
    alloc: Global,
    items: &[Value],
    at: usize,
    section: Section,
    key: Key,
    names: &Index<Name>,
) -> Result<usize, Stop<Fault>>
    ensures value { Gives (λ n. n) result (name_at section key names.now (map view items.now) at) }
    ensures within { IfOk result (λ n. n < length names.now) }
{
    let Some(value) = item_at(items, at) else {
        return Err(Stop::Fault(Fault::Range(section, key)));
    };
    let Some(text) = value.as_str() else {
        return Err(Stop::Fault(Fault::Range(section, key)));
    };
    match place_in(alloc, text, names)? {
        Some(number) => Ok(number),
        None => Err(Stop::Fault(Fault::Range(section, key))),
    }
}

/// Where a text stands among some names.
fn place_in(alloc: Global, text: &str, names: &Index<Name>) -> Result<Option<usize>, Memory>
    ensures place { IfOk result (λ o. o ≡ place_of same_name text.now names.now) }
    ensures within { IfOk result (λ o. IfSome o (λ n. n < length names.now)) }
{
    let name = Name::from_bytes(alloc, text.as_bytes())?;
    Ok(names.place_of(&name))
}

#[tactic(auto, unfolding(crate::specs::Positions::named_rows), using(form_fields::proofs::Walking::begins, form_fields::proofs::Walking::goes_on, form_fields::proofs::Walking::fails, form_fields::proofs::Walking::is_done))]
fn named_rows(
    alloc: Global,
    items: &[Value],
    section: Section,
    key: Key,
    count: usize,
    names: &Index<Name>,
) -> Result<Vec<(u32, u32)>, Stop<Fault>>
    requires { length names.now ≤ 65536 }
    ensures { Gives (λ v. (v.items, tt)) result (named_rows section key count names.now (map view items.now)) }
{
    let mut pairs = Vec::new(alloc);
    for value in items {
        let pair = named_row(alloc, value, section, key, count, names)?;
        pairs.push(pair)?;
    }
    Ok(pairs)
}

/// A position with one of some names, by its number: `Range` where the item is no pair, its number is not below
/// that of the arguments, or its text is none of the names.
#[tactic(auto, unfolding(crate::specs::Positions::named_row), using(vet_base::proofs::Scripts::run_bind))]
pub fn named_row(
    alloc: Global,
    value: &Value,
    section: Section,
    key: Key,
    count: usize,
    names: &Index<Name>,
) -> Result<(u32, u32), Stop<Fault>>
    requires { length names.now ≤ 65536 }
    ensures value { Gives (λ p. (p, tt)) result (named_row section key count names.now (view value.now) tt) }
    ensures within { IfOk result (λ p. p.1 < length names.now) }
{
    let Some(parts) = items_in(value) else {
        return Err(Stop::Fault(Fault::Range(section, key)));
    };
    if !are_two(parts) {
        return Err(Stop::Fault(Fault::Range(section, key)));
    }
    let position = position_at(parts, 0, section, key, count)?;
    let number = name_at(alloc, parts, 1, section, key, names)?;
    Ok((position, number as u32))
}

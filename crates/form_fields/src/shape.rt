//! Of which types the items of an array have to be.
ghost use Rattle.std.specs.Prelude.{◌≡◌, map, option_map, slice_get};
ghost use Rattle.std.specs.List.{list_all};
ghost use Rattle.form_fields.specs.Shape.{is_table, is_number, is_text, is_number_pair};
ghost use Rattle.form_fields.specs.Shape.{number_and_texts, is_named_pair, has_shape, all_have};
ghost use Rattle.toml.specs.View.{view};

use crate::tree::items_in;
use toml::Value;

/// The shapes of an item.
#[derive(Clone, Copy, Debug, PartialEq, Eq)]
pub enum Shape {
    Table,
    Number,
    /// A list of numbers. Its length is another matter.
    NumberPair,
    /// A list of a number and then texts. Its length is another matter.
    NamedPair,
}

/// Whether all values have the shape.
#[tactic(auto, using(crate::proofs::Shapes::sees_none, crate::proofs::Shapes::one_fails, crate::proofs::Shapes::one_more, crate::proofs::Shapes::all_do))]
pub fn all_have(shape: Shape, values: &[Value]) -> bool
    ensures { result ≡ all_have shape (map view values.now) }
{
    for value in values {
        if !has_shape(shape, value) {
            return false;
        }
    }
    true
}

#[tactic(auto, unfolding(crate::specs::Shape::has_shape))]
fn has_shape(shape: Shape, value: &Value) -> bool
    ensures { result ≡ has_shape shape (view value.now) }
{
    match shape {
        Shape::Table => is_table(value),
        Shape::Number => is_number(value),
        Shape::NumberPair => is_number_pair(value),
        Shape::NamedPair => is_named_pair(value),
    }
}

#[tactic(auto, unfolding(crate::specs::Shape::is_table))]
fn is_table(value: &Value) -> bool
    ensures { result ≡ is_table (view value.now) }
{
    value.as_table().is_some()
}

#[tactic(auto, unfolding(crate::specs::Shape::is_number))]
fn is_number(value: &Value) -> bool
    ensures { result ≡ is_number (view value.now) }
{
    value.as_integer().is_some()
}

#[tactic(auto, unfolding(crate::specs::Shape::is_text))]
fn is_text(value: &Value) -> bool
    ensures { result ≡ is_text (view value.now) }
{
    value.as_str().is_some()
}

fn are_numbers(items: &[Value]) -> bool
    ensures { result ≡ list_all (λ item. is_number (view item)) items.now }
{
    items.iter().all(|item| is_number(item))
}

fn are_texts(items: &[Value]) -> bool
    ensures { result ≡ list_all (λ item. is_text (view item)) items.now }
{
    items.iter().all(|item| is_text(item))
}

#[tactic(auto, unfolding(crate::specs::Shape::is_number_pair), using(crate::proofs::Shapes::numbers_seen))]
fn is_number_pair(value: &Value) -> bool
    ensures { result ≡ is_number_pair (view value.now) }
{
    match items_in(value) {
        Some(items) => are_numbers(items),
        None => false,
    }
}

#[tactic(auto, unfolding(crate::specs::Shape::is_named_pair))]
fn is_named_pair(value: &Value) -> bool
    ensures { result ≡ is_named_pair (view value.now) }
{
    match items_in(value) {
        Some(items) => number_and_texts(items),
        None => false,
    }
}

/// Whether the first item is a number, where there is one, and each behind it a text.
#[tactic(auto, unfolding(crate::specs::Shape::number_and_texts), using(crate::proofs::Shapes::texts_seen))]
fn number_and_texts(items: &[Value]) -> bool
    ensures { result ≡ number_and_texts (map view items.now) }
{
    match items.split_first() {
        Some((first, others)) => is_number(first) && are_texts(others),
        None => true,
    }
}

/// The item at a place, where there is one.
#[tactic(auto, using(crate::proofs::Shapes::item_seen))]
pub fn item_at<'a>(items: &'a [Value], at: usize) -> Option<&'a Value>
    ensures { option_map (λ v. view v.now) result ≡ slice_get (map view items.now) at }
{
    items.get(at)
}

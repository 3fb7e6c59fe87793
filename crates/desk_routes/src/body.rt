//! The body of a request as JSON, and its fields.
ghost use Rattle.std.specs.Prelude.{◌≡◌, ◌∷◌, map, option_map, IfSome, IfOk};
ghost use Rattle.std.specs.Option.{option_copied};
ghost use Rattle.serde_json.specs.View.{view};
ghost use Rattle.desk_routes.specs.Faults.{Gives};
ghost use Rattle.desk_routes.specs.Bodies.{json_of, text_at, name_at, list_at, decoded, all_decoded};
ghost use Rattle.desk_routes.specs.Bodies.{dex_at, uphold, overturn, word_of, word_at};

use crate::fault::{Fault, Field};
use base64::DecodeAllocError;
use base64::engine::general_purpose::STANDARD;
use case_rules::RulingWord;
use serde_json::Value;
use std::alloc::Global;
use store_office::is_reference;
use vet_base::{Memory, Shared, Stop};

/// Reads a body as JSON.
#[tactic(auto, unfolding(crate::specs::Bodies::json_of), using(crate::proofs::Utf8::reads, crate::proofs::Utf8::no_text))]
pub(crate) fn json_of(alloc: Global, body: &[u8]) -> Result<Value, Stop<Fault>>
    ensures { Gives view result (json_of body.now) }
{
    let Ok(text) = std::str::from_utf8(body) else {
        return Err(Stop::Fault(Fault::NotJson));
    };
    match Value::from_str(alloc, text) {
        Ok(value) => Ok(value),
        Err(e) if e.is_memory() => Err(Stop::Memory),
        Err(_) => Err(Stop::Fault(Fault::NotJson)),
    }
}

/// The text at a field.
#[tactic(auto, unfolding(crate::specs::Bodies::text_at))]
pub(crate) fn text_at(value: &Value, field: Field) -> Result<&str, Stop<Fault>>
    ensures { Gives (λ text. text.now) result (text_at field (view value.now)) }
{
    let Some(found) = value.get(field.key()) else {
        return Err(Stop::Fault(Fault::Bad(field)));
    };
    match found.as_str() {
        Some(text) => Ok(text),
        None => Err(Stop::Fault(Fault::Bad(field))),
    }
}

/// The text at a field, where it has the form of a name.
#[tactic(auto, unfolding(crate::specs::Bodies::name_at))]
pub(crate) fn name_at(value: &Value, field: Field) -> Result<&str, Stop<Fault>>
    ensures { Gives (λ text. text.now) result (name_at field (view value.now)) }
{
    let text = text_at(value, field)?;
    if !is_reference(text.as_bytes()) {
        return Err(Stop::Fault(Fault::Bad(field)));
    }
    Ok(text)
}

/// The list at a field.
#[tactic(auto, unfolding(crate::specs::Bodies::list_at), using(crate::proofs::Listed::items_are, crate::proofs::Listed::no_items_are))]
fn list_at(value: &Value, field: Field) -> Result<&[Value], Stop<Fault>>
    ensures { Gives (λ values. map view values.now) result (list_at field (view value.now)) }
{
    let Some(found) = value.get(field.key()) else {
        return Err(Stop::Fault(Fault::Bad(field)));
    };
    match found.as_array() {
        Some(values) => Ok(values.as_slice()),
        None => Err(Stop::Fault(Fault::Bad(field))),
    }
}

/// What a text in base64 stands for.
#[tactic(auto, unfolding(crate::specs::Bodies::decoded))]
fn decoded(alloc: Global, value: &Value) -> Result<Option<Shared<u8>>, Memory>
    ensures { IfOk result (λ bytes. bytes ≡ decoded (view value.now)) }
{
    let Some(text) = value.as_str() else {
        return Ok(None);
    };
    match STANDARD.decode(alloc, text.as_bytes()) {
        Ok(bytes) => Ok(Some(Shared::from_vec(alloc, bytes)?)),
        Err(DecodeAllocError::OutOfMemory) => Err(Memory),
        Err(DecodeAllocError::DecodeError(_)) => Ok(None),
    }
}

/// What texts in base64 stand for, where each is one.
#[tactic(auto, using(crate::proofs::Decoding::begins, crate::proofs::Decoding::goes_on, crate::proofs::Decoding::stops, crate::proofs::Decoding::is_done))]
fn all_decoded(alloc: Global, values: &[Value]) -> Result<Option<Vec<Shared<u8>>>, Memory>
    ensures { IfOk result (λ found. option_map (λ list. list.items) found ≡ all_decoded (map view values.now)) }
{
    let mut list = Vec::new(alloc);
    for value in values {
        match decoded(alloc, value)? {
            Some(bytes) => list.push(bytes)?,
            None => return Ok(None),
        }
    }
    Ok(Some(list))
}

/// The DEX files.
#[tactic(auto, unfolding(crate::specs::Bodies::dex_at))]
pub(crate) fn dex_at(alloc: Global, value: &Value) -> Result<Vec<Shared<u8>>, Stop<Fault>>
    ensures { Gives (λ list. list.items) result (dex_at (view value.now)) }
{
    let texts = list_at(value, Field::Dex)?;
    if texts.is_empty() || texts.len() > 16 {
        return Err(Stop::Fault(Fault::Bad(Field::Dex)));
    }
    match all_decoded(alloc, texts)? {
        Some(list) => Ok(list),
        None => Err(Stop::Fault(Fault::Bad(Field::Dex))),
    }
}

#[tactic(auto, unfolding(crate::specs::Bodies::uphold))]
fn uphold() -> &'static str
    ensures { result.now ≡ uphold }
{
    "uphold"
}

#[tactic(auto, unfolding(crate::specs::Bodies::overturn))]
fn overturn() -> &'static str
    ensures { result.now ≡ overturn }
{
    "overturn"
}

fn word_of(text: &str) -> Option<RulingWord>
    ensures { result ≡ word_of text.now }
{
    if text == uphold() {
        Some(RulingWord::Uphold)
    } else if text == overturn() {
        Some(RulingWord::Overturn)
    } else {
        None
    }
}

/// The word of a ruling.
#[tactic(auto, unfolding(crate::specs::Bodies::word_at))]
pub(crate) fn word_at(value: &Value) -> Result<RulingWord, Stop<Fault>>
    ensures { Gives (λ word. word) result (word_at (view value.now)) }
{
    match word_of(text_at(value, Field::Ruling)?) {
        Some(word) => Ok(word),
        None => Err(Stop::Fault(Fault::Bad(Field::Ruling))),
    }
}

ghost use Rattle.std.specs.Prelude.{◌∷◌, [], decimal, OnOk};
ghost use Rattle.std.specs.Option.{option_copied};
ghost use Rattle.json.specs.Token.{key, number, string};
ghost use Rattle.desk_answers.specs.Tokens.{Adds, text_member, state_tokens, number_token, word_token};

use crate::text::latin1;
use crate::words::state_word;
use case_rules::State;
use json::Writer;
use std::alloc::{AllocError, Global};

/// Writes a member whose value is a text of bytes.
pub fn put_text(alloc: Global, body: &mut Writer, name: &str, text: &[u8]) -> Result<(), AllocError>
    ensures { OnOk result (Adds body.old body.new (text_member name.now text.now)) }
{
    let text = latin1(alloc, text)?;
    body.key(name)?;
    body.string(&text)
}

/// Writes a member whose value is a word.
pub fn put_word(body: &mut Writer, name: &str, word: &str) -> Result<(), AllocError>
    ensures { OnOk result (Adds body.old body.new (key name.now ∷ string word.now ∷ [])) }
{
    body.key(name)?;
    body.string(word)
}

/// Writes a value that is a number or null.
fn put_number(body: &mut Writer, number: Option<u32>) -> Result<(), AllocError>
    ensures { OnOk result (Adds body.old body.new (number_token number ∷ [])) }
{
    match number {
        None => body.null(),
        Some(number) => body.u64(number as u64),
    }
}

/// Writes a value that is a word or null.
fn put_any(body: &mut Writer, word: Option<&str>) -> Result<(), AllocError>
    ensures { OnOk result (Adds body.old body.new (word_token (option_copied word.entry) ∷ [])) }
{
    match word {
        None => body.null(),
        Some(word) => body.string(word),
    }
}

/// Writes a member whose value is a number or null.
pub fn put_number_or_null(
    body: &mut Writer,
    name: &str,
    number: Option<u32>,
) -> Result<(), AllocError>
    ensures { OnOk result (Adds body.old body.new (key name.now ∷ number_token number ∷ [])) }
{
    body.key(name)?;
    put_number(body, number)
}

/// Writes a member whose value is a count.
pub fn put_count(body: &mut Writer, name: &str, count: usize) -> Result<(), AllocError>
    ensures { OnOk result (Adds body.old body.new (key name.now ∷ number (decimal count) ∷ [])) }
{
    body.key(name)?;
    body.u64(count as u64)
}

/// Writes a member whose value is a word or null.
pub fn put_word_or_null(body: &mut Writer, name: &str, word: Option<&str>) -> Result<(), AllocError>
    ensures { OnOk result (Adds body.old body.new (key name.now ∷ word_token (option_copied word.entry) ∷ [])) }
{
    body.key(name)?;
    put_any(body, word)
}

/// Writes an object: the reference of a case, and how far it is.
pub fn put_state(
    alloc: Global,
    body: &mut Writer,
    reference: &[u8],
    state: State,
) -> Result<(), AllocError>
    ensures { OnOk result (Adds body.old body.new (state_tokens reference.now state)) }
{
    body.begin_object()?;
    put_text(alloc, body, "reference", reference)?;
    put_word(body, "state", state_word(state))?;
    body.end_object()
}

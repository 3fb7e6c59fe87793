//! What stands at the keys of the form.
ghost use Rattle.std.specs.Prelude.{◌≡◌, ◌≤◌, IsTrue, option_map, IfOk};
ghost use Rattle.form_fields.specs.Spelling.{is_token};
ghost use Rattle.toml.specs.View.{table_view, view};
ghost use Rattle.vet_base.specs.Script.{Gives};
ghost use Rattle.client_form.specs.Form.{at_key, is_known, least_unknown, known, number_at, token_at};

use crate::fault::{Fault, Key};
use form_fields::Spelling;
use std::alloc::Global;
use toml::{Table, Value};
use vet_base::{Name, Stop};

#[tactic(auto, unfolding(crate::specs::Form::is_known))]
fn is_known(name: &str) -> bool
    ensures { result ≡ is_known name.now }
{
    name == Key::Port.text() || name == Key::Token.text() || name == Key::Tries.text()
}

/// The least key of the table that the form does not have.
#[tactic(auto, unfolding(crate::specs::Form::least_unknown))]
fn least_unknown(table: &Table) -> Option<&str>
    ensures { option_map (λ name. name.now) result ≡ least_unknown (table_view table.now) }
{
    for (key, _) in table.iter() {
        if !is_known(key.as_str()) {
            return Some(key.as_str());
        }
    }
    None
}

/// Refuses keys that the form does not have: the least of them is `Unknown`.
#[tactic(auto, unfolding(crate::specs::Form::known))]
pub(crate) fn known(alloc: Global, table: &Table) -> Result<(), Stop<Fault>>
    ensures { Gives (λ x. x) result (known (table_view table.now)) }
{
    match least_unknown(table) {
        None => Ok(()),
        Some(key) => {
            let name = Name::from_bytes(alloc, key.as_bytes())?;
            Err(Stop::Fault(Fault::Unknown(name)))
        }
    }
}

/// The value at a key, where it is there.
#[tactic(auto, unfolding(crate::specs::Form::at_key))]
fn value_at(table: &Table, key: Key) -> Option<&Value>
    ensures { option_map (λ value. view value.now) result ≡ at_key key (table_view table.now) }
{
    table.get(key.text())
}

/// A number from 1 to `most`.
#[tactic(auto, unfolding(crate::specs::Form::number_at))]
pub(crate) fn number_at(table: &Table, key: Key, most: u16) -> Result<u16, Stop<Fault>>
    ensures value { Gives (λ n. n) result (number_at key most (table_view table.now)) }
    ensures within { IfOk result (λ n. (1 ≤ n) × (n ≤ most)) }
{
    let Some(value) = value_at(table, key) else {
        return Err(Stop::Fault(Fault::Missing(key)));
    };
    let Some(number) = value.as_integer() else {
        return Err(Stop::Fault(Fault::Wrong(key)));
    };
    match u16::try_from(number) {
        Ok(n) if 1 <= n && n <= most => Ok(n),
        _ => Err(Stop::Fault(Fault::Range(key))),
    }
}

/// A token.
#[tactic(auto, unfolding(crate::specs::Form::token_at, form_fields::specs::Spelling::fits))]
pub(crate) fn token_at(alloc: Global, table: &Table) -> Result<Name, Stop<Fault>>
    ensures value { Gives (λ token. token) result (token_at (table_view table.now)) }
    ensures spelled { IfOk result (λ token. IsTrue (is_token token)) }
{
    let Some(value) = value_at(table, Key::Token) else {
        return Err(Stop::Fault(Fault::Missing(Key::Token)));
    };
    let Some(text) = value.as_str() else {
        return Err(Stop::Fault(Fault::Wrong(Key::Token)));
    };
    if !Spelling::Token.fits(text.as_bytes()) {
        return Err(Stop::Fault(Fault::Range(Key::Token)));
    }
    Ok(Name::from_bytes(alloc, text.as_bytes())?)
}

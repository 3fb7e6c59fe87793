//! The office file.
ghost use Rattle.std.specs.Prelude.{◌≡◌, ◌≢◌, IfOk, IfErr, map};
ghost use Rattle.form_fields.specs.Form.{IsForm, FirstFormFault};
ghost use Rattle.office_forms.specs.Office.{office_form, parties_of, party_row, role_at, role_of, parties_once};
ghost use Rattle.office_forms.specs.Office.{party_names_once, party_tokens_once, name_once, token_once};
ghost use Rattle.office_forms.specs.Sound.{SoundOffice};
ghost use Rattle.toml.specs.View.{table_view, view};
ghost use Rattle.vet_base.specs.Script.{Gives};

use form_fields::{
    Fault, FormFault, Index, Key, Section, Spelling, known, number_at, once, read_tree, table_in,
    tables_at, text_at, told_of, word_at,
};
use std::alloc::Global;
use store_office::{Office, Party, Role};
use toml::{Table, Value};
use vet_base::{Name, Shared, Stop};

/// Reads the office file: the numbers `port` from 1 to 65535, `workers` from 1 to 16 and `appeal_days`
/// from 1 to 365, and at most 4,096 tables `[[party]]`, each with a `name` of 1 to 64 of `A-Z`, `a-z`,
/// `0-9`, `.`, `_` and `-`, a `role` (`developer` or `reviewer`) and a `token` of 8 to 128 visible ASCII
/// characters. No name stands twice, and no token; a token that does is told by its party's name.
#[tactic(auto, using(form_fields::proofs::Forms::is_form, form_fields::proofs::Forms::is_fault, form_fields::proofs::Forms::is_unread))]
pub fn read_office(alloc: Global, text: &[u8]) -> Result<Office, FormFault>
    ensures ok { IfOk result (λ o. IsForm office_form text.now o) }
    ensures sound { IfOk result SoundOffice }
    ensures err { IfErr result (λ e. e ≢ FormFault.Memory → FirstFormFault office_form text.now e) }
{
    let tree = match read_tree(alloc, text) {
        Ok(tree) => tree,
        Err(stop) => return Err(told_of(alloc, stop)),
    };
    match office_in(alloc, &tree) {
        Ok(office) => Ok(office),
        Err(stop) => Err(told_of(alloc, stop)),
    }
}

#[tactic(auto, unfolding(crate::specs::Office::office_form), using(vet_base::proofs::Scripts::run_bind))]
fn office_in(alloc: Global, tree: &Table) -> Result<Office, Stop<Fault>>
    ensures { Gives (λ o. o) result (office_form (table_view tree.now)) }
{
    known(alloc, tree, Section::Office)?;
    let port = number_at(tree, Section::Office, Key::Port, 1, 65535)?;
    let workers = number_at(tree, Section::Office, Key::Workers, 1, 16)?;
    let appeal_days = number_at(tree, Section::Office, Key::AppealDays, 1, 365)?;
    let tables = tables_at(tree, Section::Office, Key::Party, 4096)?;
    let parties = parties_of(alloc, tables)?;
    parties_once(alloc, &parties)?;
    Ok(Office {
        port: port as u16,
        workers: workers as u8,
        appeal_days,
        parties: Shared::from_vec(alloc, parties)?,
    })
}

#[tactic(auto, unfolding(crate::specs::Office::parties_of), using(form_fields::proofs::Walking::begins, form_fields::proofs::Walking::goes_on, form_fields::proofs::Walking::fails, form_fields::proofs::Walking::is_done))]
fn parties_of(alloc: Global, tables: &[Value]) -> Result<Vec<Party>, Stop<Fault>>
    ensures { Gives (λ x. (x.items, tt)) result (parties_of (map view tables.now)) }
{
    let mut parties = Vec::new(alloc);
    for value in tables {
        let party = party_of(alloc, value)?;
        parties.push(party)?;
    }
    Ok(parties)
}

#[tactic(auto, unfolding(crate::specs::Office::party_row), using(vet_base::proofs::Scripts::run_bind))]
fn party_of(alloc: Global, value: &Value) -> Result<Party, Stop<Fault>>
    ensures { Gives (λ x. (x, tt)) result (party_row (view value.now) tt) }
{
    let table = table_in(value, Section::Office, Key::Party)?;
    known(alloc, table, Section::Party)?;
    let name = text_at(alloc, table, Section::Party, Key::Name, Spelling::Reference)?;
    let role = role_at(table)?;
    let token = text_at(alloc, table, Section::Party, Key::Token, Spelling::Token)?;
    Ok(Party { name, role, token })
}

#[tactic(auto, unfolding(crate::specs::Office::role_at), using(vet_base::proofs::Scripts::run_bind))]
fn role_at(table: &Table) -> Result<Role, Stop<Fault>>
    ensures { Gives (λ r. r) result (role_at (table_view table.now)) }
{
    let word = word_at(table, Section::Party, Key::Role)?;
    let Some(word) = word else {
        return Err(Stop::Fault(Fault::Missing(Section::Party, Key::Role)));
    };
    match role_of(word) {
        Some(role) => Ok(role),
        None => Err(Stop::Fault(Fault::Wrong(Section::Party, Key::Role))),
    }
}

/// The role that a word names.
#[tactic(auto, unfolding(crate::specs::Office::role_of))]
fn role_of(word: &str) -> Option<Role>
    ensures { result ≡ role_of word.now }
{
    match word {
        "developer" => Some(Role::Developer),
        "reviewer" => Some(Role::Reviewer),
        _ => None,
    }
}

/// No name stands twice, and no token.
#[tactic(auto, unfolding(crate::specs::Office::parties_once), using(vet_base::proofs::Scripts::run_bind))]
fn parties_once(alloc: Global, parties: &[Party]) -> Result<(), Stop<Fault>>
    ensures { Gives (λ x. x) result (parties_once parties.now) }
{
    party_names_once(alloc, parties)?;
    party_tokens_once(alloc, parties)?;
    Ok(())
}

#[tactic(auto, unfolding(crate::specs::Office::party_names_once), using(vet_base::proofs::Eaches::each_begins, vet_base::proofs::Eaches::each_goes_on, vet_base::proofs::Eaches::each_fails, vet_base::proofs::Eaches::each_is_done))]
fn party_names_once(alloc: Global, parties: &[Party]) -> Result<Index<Name>, Stop<Fault>>
    ensures { Gives (λ x. x) result (party_names_once parties.now) }
{
    let mut seen = Index::new(alloc);
    for party in parties {
        seen = name_once(party, seen)?;
    }
    Ok(seen)
}

#[tactic(auto, unfolding(crate::specs::Office::name_once))]
fn name_once(party: &Party, seen: Index<Name>) -> Result<Index<Name>, Stop<Fault>>
    ensures { Gives (λ x. x) result (name_once party.now seen) }
{
    once(seen, &party.name)
}

#[tactic(auto, unfolding(crate::specs::Office::party_tokens_once), using(vet_base::proofs::Eaches::each_begins, vet_base::proofs::Eaches::each_goes_on, vet_base::proofs::Eaches::each_fails, vet_base::proofs::Eaches::each_is_done))]
fn party_tokens_once(alloc: Global, parties: &[Party]) -> Result<Index<Name>, Stop<Fault>>
    ensures { Gives (λ x. x) result (party_tokens_once parties.now) }
{
    let mut seen = Index::new(alloc);
    for party in parties {
        seen = token_once(party, seen)?;
    }
    Ok(seen)
}

/// The tokens seen so far and this one, which may not be one of them. A fault names the party.
#[tactic(auto, unfolding(crate::specs::Office::token_once))]
fn token_once(party: &Party, seen: Index<Name>) -> Result<Index<Name>, Stop<Fault>>
    ensures { Gives (λ x. x) result (token_once party.now seen) }
{
    if seen.place_of(&party.token).is_some() {
        return Err(Stop::Fault(Fault::Twice(party.name.copy()?)));
    }
    Ok(seen.with(party.token.copy()?, party.token.copy()?)?)
}

//! How an app is judged of which more rows follow than the lists allow.
ghost use Rattle.std.specs.Prelude.{◌≡◌};
ghost use Rattle.store_lists.specs.Large.{large_of, large_at};
ghost use Rattle.toml.specs.View.{table_view};
ghost use Rattle.vet_base.specs.Script.{Gives};

use form_fields::{Fault, Key, Section, word_at};
use toml::Table;
use vet_base::Stop;

/// How an app is judged of which more rows follow than the lists allow.
#[derive(Clone, Copy, Debug, PartialEq, Eq)]
pub enum Large {
    /// By labels that are said of the cells of objects.
    Cells,
}

/// The word for large apps, where there is one.
#[tactic(auto, unfolding(crate::specs::Large::large_at), using(vet_base::proofs::Scripts::run_bind))]
pub fn large_at(tree: &Table) -> Result<Option<Large>, Stop<Fault>>
    ensures { Gives (λ x. x) result (large_at (table_view tree.now)) }
{
    let word = word_at(tree, Section::Lists, Key::Large)?;
    let Some(word) = word else {
        return Ok(None);
    };
    match large_of(word) {
        Some(large) => Ok(Some(large)),
        None => Err(Stop::Fault(Fault::Wrong(Section::Lists, Key::Large))),
    }
}

#[tactic(auto, unfolding(crate::specs::Large::large_of))]
fn large_of(word: &str) -> Option<Large>
    ensures { result ≡ large_of word.now }
{
    match word {
        "cells" => Some(Large::Cells),
        _ => None,
    }
}

//! The declaration.
ghost use Rattle.std.specs.Prelude.{◌≡◌, ◌≢◌, IfOk, IfErr, map};
ghost use Rattle.form_fields.specs.Form.{IsForm, FirstFormFault};
ghost use Rattle.office_forms.specs.Declaration.{declaration_form, uses_of, use_row};
ghost use Rattle.office_forms.specs.Sound.{SoundDeclaration};
ghost use Rattle.toml.specs.View.{table_view, view};
ghost use Rattle.vet_base.specs.Script.{Gives};

use app_machine::Declaration;
use form_fields::{
    Fault, FormFault, Key, Section, Spelling, known, read_tree, table_in, tables_at, text_at,
    told_of,
};
use std::alloc::Global;
use toml::{Table, Value};
use vet_base::{Name, Seq, Stop};

/// Reads a declaration: at most 4,096 tables `[[use]]`, each with the texts `source` and `sink`.
#[tactic(auto, using(form_fields::proofs::Forms::is_form, form_fields::proofs::Forms::is_fault, form_fields::proofs::Forms::is_unread, crate::proofs::FormsSound::sound_declaration))]
pub fn read_declaration(alloc: Global, text: &[u8]) -> Result<Declaration, FormFault>
    ensures ok { IfOk result (λ d. IsForm declaration_form text.now d) }
    ensures sound { IfOk result SoundDeclaration }
    ensures err { IfErr result (λ e. e ≢ FormFault.Memory → FirstFormFault declaration_form text.now e) }
{
    let tree = match read_tree(alloc, text) {
        Ok(tree) => tree,
        Err(stop) => return Err(told_of(alloc, stop)),
    };
    match declaration_of(alloc, &tree) {
        Ok(declaration) => Ok(declaration),
        Err(stop) => Err(told_of(alloc, stop)),
    }
}

#[tactic(auto, unfolding(crate::specs::Declaration::declaration_form), using(vet_base::proofs::Scripts::run_bind))]
fn declaration_of(alloc: Global, tree: &Table) -> Result<Declaration, Stop<Fault>>
    ensures { Gives (λ d. d) result (declaration_form (table_view tree.now)) }
{
    known(alloc, tree, Section::Declaration)?;
    let uses = tables_at(tree, Section::Declaration, Key::Use, 4096)?;
    let pairs = uses_of(alloc, uses)?;
    Ok(Declaration {
        pairs: Seq::from_vec(pairs),
    })
}

#[tactic(auto, unfolding(crate::specs::Declaration::uses_of), using(form_fields::proofs::Walking::begins, form_fields::proofs::Walking::goes_on, form_fields::proofs::Walking::fails, form_fields::proofs::Walking::is_done))]
fn uses_of(alloc: Global, uses: &[Value]) -> Result<Vec<(Name, Name)>, Stop<Fault>>
    ensures { Gives (λ x. (x.items, tt)) result (uses_of (map view uses.now)) }
{
    let mut pairs = Vec::new(alloc);
    for value in uses {
        let pair = use_of(alloc, value)?;
        pairs.push(pair)?;
    }
    Ok(pairs)
}

#[tactic(auto, unfolding(crate::specs::Declaration::use_row), using(vet_base::proofs::Scripts::run_bind))]
fn use_of(alloc: Global, value: &Value) -> Result<(Name, Name), Stop<Fault>>
    ensures { Gives (λ x. (x, tt)) result (use_row (view value.now) tt) }
{
    let table = table_in(value, Section::Declaration, Key::Use)?;
    known(alloc, table, Section::Use)?;
    let source = text_at(alloc, table, Section::Use, Key::Source, Spelling::Text)?;
    let sink = text_at(alloc, table, Section::Use, Key::Sink, Spelling::Text)?;
    Ok((source, sink))
}

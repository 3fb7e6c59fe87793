//! The manifest.
ghost use Rattle.std.specs.Prelude.{◌≡◌, ◌≢◌, IfOk, IfErr, map};
ghost use Rattle.form_fields.specs.Form.{IsForm, FirstFormFault};
ghost use Rattle.office_forms.specs.Manifest.{manifest_form, components_of, component_row, kind_at};
ghost use Rattle.office_forms.specs.Manifest.{kind_of, classes_once, components_once, component_once};
ghost use Rattle.office_forms.specs.Sound.{SoundManifest, SoundNamed};
ghost use Rattle.toml.specs.View.{table_view, view};
ghost use Rattle.vet_base.specs.Script.{Gives};

use app_machine::{Manifest, Word};
use form_fields::{
    Fault, FormFault, Index, Key, Section, Spelling, known, maybe_text_at, maybe_texts_at,
    number_at, once, read_tree, table_in, tables_at, text_at, told_of, word_at,
};
use std::alloc::Global;
use toml::{Table, Value};
use vet_base::{Name, Seq, Stop};

/// What a manifest says.
#[derive(Drop)]
pub struct AppManifest {
    /// What the machine is told.
    pub manifest: Manifest,
    /// The classes that other attributes of the manifest or resources name.
    pub named: Seq<Name>,
}

/// Reads a manifest: the text `package`, the number `dex_files` from 1 to 16, the class
/// `application` where there is one, at most 4,096 tables `[[component]]`, each with a `kind`
/// (`activity`, `service`, `receiver` or `provider`) and a `class`, and the list `named` of at most
/// 4,096 classes, which may be missing. No class stands twice among application and components.
#[tactic(auto, using(form_fields::proofs::Forms::is_form, form_fields::proofs::Forms::is_fault, form_fields::proofs::Forms::is_unread))]
pub fn read_manifest(alloc: Global, text: &[u8]) -> Result<AppManifest, FormFault>
    ensures ok { IfOk result (λ d. IsForm manifest_form text.now d) }
    ensures sound { IfOk result (λ d. SoundManifest d.manifest) }
    ensures named { IfOk result (λ d. SoundNamed d.named) }
    ensures err { IfErr result (λ e. e ≢ FormFault.Memory → FirstFormFault manifest_form text.now e) }
{
    let tree = match read_tree(alloc, text) {
        Ok(tree) => tree,
        Err(stop) => return Err(told_of(alloc, stop)),
    };
    match manifest_in(alloc, &tree) {
        Ok(manifest) => Ok(manifest),
        Err(stop) => Err(told_of(alloc, stop)),
    }
}

#[tactic(auto, unfolding(crate::specs::Manifest::manifest_form), using(vet_base::proofs::Scripts::run_bind))]
fn manifest_in(alloc: Global, tree: &Table) -> Result<AppManifest, Stop<Fault>>
    ensures { Gives (λ d. d) result (manifest_form (table_view tree.now)) }
{
    known(alloc, tree, Section::Manifest)?;
    let package = text_at(alloc, tree, Section::Manifest, Key::Package, Spelling::Text)?;
    let dex_files = number_at(tree, Section::Manifest, Key::DexFiles, 1, 16)?;
    let application = maybe_text_at(
        alloc,
        tree,
        Section::Manifest,
        Key::Application,
        Spelling::Class,
    )?;
    let tables = tables_at(tree, Section::Manifest, Key::Component, 4096)?;
    let named = maybe_texts_at(
        alloc,
        tree,
        Section::Manifest,
        Key::Named,
        Spelling::Class,
        4096,
    )?;
    let components = components_of(alloc, tables)?;
    classes_once(alloc, &application, &components)?;
    let manifest = Manifest {
        package,
        dex_files,
        application,
        components: Seq::from_vec(components),
    };
    Ok(AppManifest {
        manifest,
        named: Seq::from_vec(named),
    })
}

#[tactic(auto, unfolding(crate::specs::Manifest::components_of), using(form_fields::proofs::Walking::begins, form_fields::proofs::Walking::goes_on, form_fields::proofs::Walking::fails, form_fields::proofs::Walking::is_done))]
fn components_of(alloc: Global, tables: &[Value]) -> Result<Vec<(Word, Name)>, Stop<Fault>>
    ensures { Gives (λ x. (x.items, tt)) result (components_of (map view tables.now)) }
{
    let mut components = Vec::new(alloc);
    for value in tables {
        let component = component_of(alloc, value)?;
        components.push(component)?;
    }
    Ok(components)
}

#[tactic(auto, unfolding(crate::specs::Manifest::component_row), using(vet_base::proofs::Scripts::run_bind))]
fn component_of(alloc: Global, value: &Value) -> Result<(Word, Name), Stop<Fault>>
    ensures { Gives (λ x. (x, tt)) result (component_row (view value.now) tt) }
{
    let table = table_in(value, Section::Manifest, Key::Component)?;
    known(alloc, table, Section::Component)?;
    let kind = kind_at(table)?;
    let class = text_at(
        alloc,
        table,
        Section::Component,
        Key::Class,
        Spelling::Class,
    )?;
    Ok((kind, class))
}

#[tactic(auto, unfolding(crate::specs::Manifest::kind_at), using(vet_base::proofs::Scripts::run_bind))]
fn kind_at(table: &Table) -> Result<Word, Stop<Fault>>
    ensures { Gives (λ w. w) result (kind_at (table_view table.now)) }
{
    let word = word_at(table, Section::Component, Key::Kind)?;
    let Some(word) = word else {
        return Err(Stop::Fault(Fault::Missing(Section::Component, Key::Kind)));
    };
    match kind_of(word) {
        Some(kind) => Ok(kind),
        None => Err(Stop::Fault(Fault::Wrong(Section::Component, Key::Kind))),
    }
}

/// The kind of component that a word names.
#[tactic(auto, unfolding(crate::specs::Manifest::kind_of))]
fn kind_of(word: &str) -> Option<Word>
    ensures { result ≡ kind_of word.now }
{
    match word {
        "activity" => Some(Word::Activity),
        "service" => Some(Word::Service),
        "receiver" => Some(Word::Receiver),
        "provider" => Some(Word::Provider),
        _ => None,
    }
}

/// No class stands twice, that of the application included.
#[tactic(auto, unfolding(crate::specs::Manifest::classes_once), using(vet_base::proofs::Scripts::run_bind))]
fn classes_once(
    alloc: Global,
    application: &Option<Name>,
    components: &[(Word, Name)],
) -> Result<Index<Name>, Stop<Fault>>
    ensures { Gives (λ x. x) result (classes_once application.now components.now) }
{
    let seen = Index::new(alloc);
    match application {
        None => components_once(components, seen),
        Some(class) => {
            let seen = once(seen, class)?;
            components_once(components, seen)
        }
    }
}

#[tactic(auto, unfolding(crate::specs::Manifest::components_once), using(vet_base::proofs::Eaches::each_begins, vet_base::proofs::Eaches::each_goes_on, vet_base::proofs::Eaches::each_fails, vet_base::proofs::Eaches::each_is_done))]
fn components_once(
    components: &[(Word, Name)],
    before: Index<Name>,
) -> Result<Index<Name>, Stop<Fault>>
    ensures { Gives (λ x. x) result (components_once components.now before) }
{
    let mut seen = before;
    for component in components {
        seen = component_once(component, seen)?;
    }
    Ok(seen)
}

#[tactic(auto, unfolding(crate::specs::Manifest::component_once))]
fn component_once(component: &(Word, Name), seen: Index<Name>) -> Result<Index<Name>, Stop<Fault>>
    ensures { Gives (λ x. x) result (component_once component.now seen) }
{
    once(seen, &component.1)
}

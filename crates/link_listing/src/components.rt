//! The components of the manifest.

ghost use Rattle.std.specs.Prelude.{◌≡◌, IfOk, filter_map};
ghost use Rattle.vet_base.specs.Script.{Gives};
ghost use Rattle.std.specs.Option.{option_copied};
ghost use Rattle.link_listing.specs.Components.{all_components, application_row, component_row, component_rows};
ghost use Rattle.link_listing.specs.Components.{kind_of, one_component, provider_of, providers_of};

use crate::classes::{Classes, holds_name};
use crate::fault::{Fault, Halt};
use app_model::{Component, Kind, Manifest, Word};
use std::alloc::Global;
use vet_base::{Memory, Name, Seq, Stop};

fn kind_at(word: Word) -> Option<Kind>
    ensures { result ≡ kind_of word }
{
    match word {
        Word::Activity => Some(Kind::Activity),
        Word::Service => Some(Kind::Service),
        Word::Receiver => Some(Kind::Receiver),
        Word::Provider => None,
    }
}

#[tactic(auto, unfolding(crate::specs::Components::one_component), using(vet_base::proofs::Scripts::run_bind))]
fn add_component(
    classes: &Classes,
    kind: Kind,
    name: &Name,
    mut components: Vec<Component>,
) -> Result<Vec<Component>, Halt>
    ensures { Gives (λ v. v.items) result (one_component classes.now.entries kind name.now components.items) }
{
    let class = name.copy()?;
    if !holds_name(classes, name) {
        return Err(Stop::Fault(Fault::NoClass(class)));
    }
    components.push(Component { kind, class })?;
    Ok(components)
}

#[tactic(auto, unfolding(crate::specs::Components::component_row))]
fn add_row(
    classes: &Classes,
    row: &(Word, Name),
    components: Vec<Component>,
) -> Result<Vec<Component>, Halt>
    ensures { Gives (λ v. v.items) result (component_row classes.now.entries row.now components.items) }
{
    match kind_at(row.0) {
        Some(kind) => add_component(classes, kind, &row.1, components),
        None => Ok(components),
    }
}

#[tactic(auto, unfolding(crate::specs::Components::application_row))]
fn application(
    alloc: Global,
    classes: &Classes,
    name: &Option<Name>,
) -> Result<Vec<Component>, Halt>
    ensures { Gives (λ v. v.items) result (application_row classes.now.entries name.now) }
{
    match name {
        Some(name) => add_component(classes, Kind::Application, name, Vec::new(alloc)),
        None => Ok(Vec::new(alloc)),
    }
}

#[tactic(auto, unfolding(crate::specs::Components::component_rows), using(vet_base::proofs::Eaches::each_begins, vet_base::proofs::Eaches::each_goes_on, vet_base::proofs::Eaches::each_fails, vet_base::proofs::Eaches::each_is_done))]
fn add_rows(
    classes: &Classes,
    rows: &[(Word, Name)],
    mut components: Vec<Component>,
) -> Result<Vec<Component>, Halt>
    ensures { Gives (λ v. v.items) result (component_rows classes.now.entries rows.now components.items) }
{
    for row in rows {
        components = add_row(classes, row, components)?;
    }
    Ok(components)
}

/// The components, each with a class of the app.
#[tactic(auto, unfolding(crate::specs::Components::all_components), using(vet_base::proofs::Scripts::run_bind))]
pub fn components_of(
    alloc: Global,
    classes: &Classes,
    manifest: &Manifest,
) -> Result<Vec<Component>, Halt>
    ensures { Gives (λ v. v.items) result (all_components classes.now.entries manifest.now) }
{
    let first = application(alloc, classes, &manifest.application)?;
    add_rows(classes, manifest.components.as_slice(), first)
}

#[tactic(auto, unfolding(crate::specs::Components::provider_of))]
fn provider_at(row: &(Word, Name)) -> Option<&Name>
    ensures { option_copied result ≡ provider_of row.now }
{
    match row.0 {
        Word::Provider => Some(&row.1),
        Word::Activity | Word::Service | Word::Receiver => None,
    }
}

/// The classes of the content providers, in the order of the manifest. Want of memory is the only error.
#[tactic(auto, unfolding(crate::specs::Components::providers_of))]
pub fn providers_of(alloc: Global, manifest: &Manifest) -> Result<Seq<Name>, Memory>
    ensures { IfOk result (λ names. names ≡ providers_of manifest.now) }
{
    let mut names = Vec::new(alloc);
    for row in manifest.components.as_slice() {
        if let Some(name) = provider_at(row) {
            names.push(name.copy()?)?;
        }
    }
    Ok(Seq::from_vec(names))
}

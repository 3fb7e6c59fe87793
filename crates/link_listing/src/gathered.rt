//! What the files and the manifest give before the hierarchy and the code are looked at.

ghost use Rattle.std.specs.Prelude.{◌≡◌, ◌≤◌, ◌+◌, IfOk, length};
ghost use Rattle.vet_base.specs.Script.{Gives};
ghost use Rattle.link_listing.specs.Components.{all_components};
ghost use Rattle.link_listing.specs.Components.{Fit};
ghost use Rattle.link_listing.specs.Gathered.{gathering};

use crate::classes::{Classes, classes_of};
use crate::components::components_of;
use crate::fault::Halt;
use crate::members::{Fields, Members, Methods, members_of};
use crate::weight::check_names;
use app_model::{Component, Manifest};
use dex_tables::Dex;
use std::alloc::Global;

/// What the files and the manifest list.
#[derive(Drop)]
pub struct Parts {
    pub classes: Classes,
    pub fields: Fields,
    pub methods: Methods,
    pub components: Vec<Component>,
}

#[tactic(auto, using(crate::proofs::Keeps::components_fit, crate::proofs::Keeps::components_few))]
fn fitting_components(
    alloc: Global,
    classes: &Classes,
    manifest: &Manifest,
) -> Result<Vec<Component>, Halt>
    ensures value { Gives (λ v. v.items) result (all_components classes.now.entries manifest.now) }
    ensures fit { IfOk result (λ v. Fit classes.now.entries v.items) }
    ensures few { IfOk result (λ v. length v.items ≤ 1 + length manifest.now.components) }
{
    let components = components_of(alloc, classes, manifest)?;
    Ok(components)
}

/// Classes, members and components, or the first fault among them: classes, then members, then components, each in file
/// order. Names that come to more than `NAMES` are want of memory, before any is listed.
#[tactic(auto, unfolding(crate::specs::Gathered::gathering), using(vet_base::proofs::Scripts::run_bind))]
pub fn gather(alloc: Global, dexes: &[Dex], manifest: &Manifest) -> Result<Parts, Halt>
    ensures value { Gives (λ p. record {
      classes = p.classes.entries;
      fields = p.fields.entries;
      methods = p.methods.entries;
      components = p.components.items;
    }) result (gathering dexes.now manifest.now) }
    ensures fit { IfOk result (λ p. Fit p.classes.entries p.components.items) }
    ensures few { IfOk result (λ p. length p.components.items ≤ 1 + length manifest.now.components) }
{
    check_names(alloc, dexes)?;
    let classes = classes_of(alloc, dexes)?;
    let Members { fields, methods } = members_of(alloc, dexes)?;
    let components = fitting_components(alloc, &classes, manifest)?;
    Ok(Parts {
        classes,
        fields,
        methods,
        components,
    })
}

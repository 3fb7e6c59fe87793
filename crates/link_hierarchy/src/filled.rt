//! The classes, each with the library classes above it.

ghost use Rattle.std.specs.Prelude.{◌≡◌, IfOk, map};
ghost use Rattle.std.specs.Map.{keys_of};
ghost use Rattle.std.specs.List.Sorted.{IsStrictlySortedBy};
ghost use Rattle.app_machine.specs.Sound.{name_order};
ghost use Rattle.link_hierarchy.specs.Hierarchy.{HasOuters, NoCircle, renamed, without_outer};
ghost use Rattle.link_hierarchy.specs.Settled.{AllSettled};

use crate::outer::{Outers, with_outers};
use app_model::Class;
use link_listing::Classes;
use std::alloc::Global;
use vet_base::Memory;

fn in_order(classes: &Classes) -> usize
    ensures order { IsStrictlySortedBy name_order (keys_of classes.now.entries) }
{
    classes.len()
}

/// The classes by name, each with the library classes above it. Want of memory is the only error.
#[tactic(auto, using(crate::proofs::Filling::same_classes, crate::proofs::Filling::has_outers, crate::proofs::Stuck::no_circle))]
pub fn filled_classes(
    alloc: Global,
    classes: Classes,
    outers: &Outers,
) -> Result<Vec<Class>, Memory>
    requires { AllSettled classes.entries outers.now.entries }
    ensures classes { IfOk result (λ v. map without_outer v.items ≡ map renamed classes.entries) }
    ensures sorted { IsStrictlySortedBy name_order (keys_of classes.entries) }
    ensures no_circle { NoCircle classes.entries }
    ensures outers { IfOk result (λ v. HasOuters v.items) }
{
    let _order = in_order(&classes);
    with_outers(alloc, classes, outers)
}

//! The names of the classes: ascending, and each behind those above it.

ghost use Rattle.std.specs.Prelude.{◌≡◌, IfOk, OnOk};
ghost use Rattle.std.specs.Map.{keys_of};
ghost use Rattle.link_hierarchy.specs.Hierarchy.{AreOfClasses};

use app_model::Class;
use link_listing::{Classes, class_named, holds_name};
use std::alloc::Global;
use std::collections::BTreeSet;
use vet_base::{Memory, Name};

/// The class or interface of that number directly above: the superclass first.
fn above_at(class: &Class, k: usize) -> Option<&Name> {
    match &class.superclass {
        Some(superclass) if k == 0 => Some(superclass),
        Some(_) => class.interfaces.get(k - 1),
        None => class.interfaces.get(k),
    }
}

/// Puts the names of a class and of the app classes above it behind the others, each behind those above it.
#[tactic(auto, using(crate::proofs::OfClasses::one_more))]
fn add_in_order(
    alloc: Global,
    classes: &Classes,
    root: &Name,
    seen: &mut BTreeSet<Name>,
    order: &mut Vec<Name>,
) -> Result<(), Memory>
    requires { AreOfClasses classes.now.entries order.old.items }
    ensures { OnOk result (AreOfClasses classes.now.entries order.new.items) }
{
    let mut open: Vec<(Name, usize)> = Vec::new(alloc);
    if seen.insert(root.copy()?)? {
        open.push((root.copy()?, 0))?;
    }
    'visits: for _ in 0..u64::MAX {
        let Some((name, k)) = open.pop() else {
            break;
        };
        if let Some(class) = class_named(classes, &name) {
            match above_at(class, k) {
                Some(above) => {
                    let above = above.copy()?;
                    open.push((name, k.saturating_add(1)))?;
                    if holds_name(classes, &above) && seen.insert(above.copy()?)? {
                        open.push((above, 0))?;
                    }
                }
                None => order.push(name)?,
            }
        }
    }
    Ok(())
}

/// The names of the classes, each behind those above it where none is above itself. No proof rests on this order, nor
/// on which of them it has: in another one it would only take longer to settle the classes.
#[tactic(auto, using(crate::proofs::OfClasses::none_yet))]
pub fn order_of(alloc: Global, classes: &Classes) -> Result<Vec<Name>, Memory>
    ensures { IfOk result (λ v. AreOfClasses classes.now.entries v.items) }
{
    let mut seen = BTreeSet::new(alloc);
    let mut order = Vec::new(alloc);
    for name in classes.keys() {
        add_in_order(alloc, classes, name, &mut seen, &mut order)?;
    }
    Ok(order)
}

/// The names of the classes, ascending.
pub fn names_of(alloc: Global, classes: &Classes) -> Result<Vec<Name>, Memory>
    ensures { IfOk result (λ v. v.items ≡ keys_of classes.now.entries) }
{
    let mut names = Vec::new(alloc);
    for name in classes.keys() {
        names.push(name.copy()?)?;
    }
    Ok(names)
}

//! The library classes above each class.

ghost use Rattle.std.specs.Prelude.{◌≡◌, true, not, IfOk, IfSome, IsTrue, OnOk, map, flat_map, fold, cond};
ghost use Rattle.std.specs.BTreeMap.{is_at};
ghost use Rattle.app_machine.specs.Sound.{name_order};
ghost use Rattle.app_machine.specs.Names.{Name};
ghost use Rattle.link_hierarchy.specs.Hierarchy.{SameNames, add_once, is_among};
ghost use Rattle.link_listing.specs.Orders.{named};
ghost use Rattle.link_hierarchy.specs.Settled.{filled_by, given_to, gives, listed};

use app_model::Class;
use link_listing::{Classes, holds_name, name_cost, spend};
use std::alloc::Global;
use std::collections::{BTreeMap, BTreeSet};
use vet_base::{Memory, Name, Shared};

/// Classes with the library classes above them.
pub type Outers = BTreeMap<Name, Shared<Name>>;

/// Puts the name among those seen, and tells whether it is new.
fn put_once(seen: &mut BTreeSet<Name>, name: Name) -> Result<bool, Memory>
    ensures added { IfOk result (λ b. b ≡ not (is_among seen.old.keys name)) }
    ensures seen { OnOk result ((q : Name) → is_among seen.new.keys q ≡ cond (is_at (name_order name) q) true
        (is_among seen.old.keys q)) }
{
    Ok(seen.insert(name)?)
}

/// One more name, where it is new.
#[tactic(auto, using(crate::proofs::Firsts::adds_new, crate::proofs::Firsts::adds_none, crate::proofs::Firsts::same_with, crate::proofs::Firsts::same_without))]
fn add_new(name: &Name, seen: &mut BTreeSet<Name>, outer: &mut Vec<Name>) -> Result<(), Memory>
    requires { SameNames seen.old.keys outer.old.items }
    ensures names { OnOk result (outer.new.items ≡ add_once outer.old.items name.now) }
    ensures same { OnOk result (SameNames seen.new.keys outer.new.items) }
{
    if !put_once(seen, name.copy()?)? {
        return Ok(());
    }
    outer.push(name.copy()?)?;
    Ok(())
}

/// Puts those of the names that are new behind the others. After want of memory some of them may stand there.
#[tactic(auto, using(crate::proofs::FoldsOn::onto_begins, crate::proofs::FoldsOn::onto_goes_on, crate::proofs::FoldsOn::onto_is_done))]
pub fn add_all(
    names: &[Name],
    seen: &mut BTreeSet<Name>,
    outer: &mut Vec<Name>,
) -> Result<(), Memory>
    requires { SameNames seen.old.keys outer.old.items }
    ensures names { OnOk result (outer.new.items ≡ fold add_once outer.old.items names.now) }
    ensures same { OnOk result (SameNames seen.new.keys outer.new.items) }
{
    for name in names {
        add_new(name, seen, outer)?;
    }
    Ok(())
}

#[tactic(auto, unfolding(link_listing::specs::Orders::named))]
fn outer_named<'a>(outers: &'a Outers, name: &Name) -> &'a [Name]
    ensures { result.now ≡ listed (named outers.now.entries name.now) }
{
    match outers.get(name) {
        Some(outer) => outer.as_slice(),
        None => &[],
    }
}

/// What a class or interface gives to those below it: itself where it is none of the app, else its own library classes.
#[tactic(auto, unfolding(crate::specs::Settled::gives))]
fn add_given(
    classes: &Classes,
    outers: &Outers,
    above: &Name,
    seen: &mut BTreeSet<Name>,
    outer: &mut Vec<Name>,
) -> Result<(), Memory>
    requires { SameNames seen.old.keys outer.old.items }
    ensures names { OnOk result (outer.new.items ≡ fold add_once outer.old.items
        (gives classes.now.entries outers.now.entries above.now)) }
    ensures same { OnOk result (SameNames seen.new.keys outer.new.items) }
{
    if holds_name(classes, above) {
        return add_all(outer_named(outers, above), seen, outer);
    }
    add_new(above, seen, outer)
}

fn spend_given(
    classes: &Classes,
    outers: &Outers,
    above: &Name,
    left: &mut u64,
) -> Result<(), Memory> {
    if !holds_name(classes, above) {
        return spend(left, name_cost(above));
    }
    for name in outer_named(outers, above) {
        spend(left, name_cost(name))?;
    }
    Ok(())
}

/// Takes from what is left what listing takes that all give that
/// stand directly above a class, whether or not it comes twice.
pub(crate) fn spend_outer(
    classes: &Classes,
    outers: &Outers,
    class: &Class,
    left: &mut u64,
) -> Result<(), Memory> {
    if let Some(superclass) = &class.superclass {
        spend_given(classes, outers, superclass, left)?;
    }
    for interface in class.interfaces.as_slice() {
        spend_given(classes, outers, interface, left)?;
    }
    Ok(())
}

#[tactic(auto, using(crate::proofs::FoldsOn::each_begins, crate::proofs::FoldsOn::each_goes_on, crate::proofs::FoldsOn::each_is_done))]
fn add_each(
    classes: &Classes,
    outers: &Outers,
    interfaces: &[Name],
    seen: &mut BTreeSet<Name>,
    outer: &mut Vec<Name>,
) -> Result<(), Memory>
    requires { SameNames seen.old.keys outer.old.items }
    ensures { OnOk result (outer.new.items ≡ fold add_once outer.old.items
        (flat_map (gives classes.now.entries outers.now.entries) interfaces.now)) }
{
    for interface in interfaces {
        add_given(classes, outers, interface, seen, outer)?;
    }
    Ok(())
}

#[tactic(auto, using(vet_base::proofs::Texts::all_equal))]
fn are_same(names: &[Name], others: &[Name]) -> bool
    ensures { IsTrue result → names.now ≡ others.now }
{
    names == others
}

/// The list of the superclass, where it has just these names.
fn list_above<'a>(outers: &'a Outers, class: &Class, names: &[Name]) -> Option<&'a Shared<Name>>
    ensures { IfSome result (λ outer. outer.now ≡ names.now) }
{
    let outer = outers.get(class.superclass.as_ref()?)?;
    if are_same(outer.as_slice(), names) {
        Some(outer)
    } else {
        None
    }
}

/// These names as a list, which is the superclass's own where that has them.
fn shared_list(
    alloc: Global,
    outers: &Outers,
    class: &Class,
    names: Vec<Name>,
) -> Result<Shared<Name>, Memory>
    ensures { IfOk result (λ list. list ≡ names.items) }
{
    match list_above(outers, class, &names) {
        Some(list) => list.copy(),
        None => Shared::from_vec(alloc, names),
    }
}

/// The library classes above a class: what its superclass gives, and then what each interface gives.
#[tactic(auto, unfolding(crate::specs::Hierarchy::firsts), using(crate::proofs::Firsts::none_same, crate::proofs::Firsts::firsts_joined))]
pub fn outer_at(
    alloc: Global,
    classes: &Classes,
    outers: &Outers,
    class: &Class,
) -> Result<Shared<Name>, Memory>
    ensures { IfOk result (λ o. o ≡ given_to classes.now.entries outers.now.entries class.now) }
{
    let mut seen = BTreeSet::new(alloc);
    let mut outer = Vec::new(alloc);
    if let Some(superclass) = &class.superclass {
        add_given(classes, outers, superclass, &mut seen, &mut outer)?;
    }
    add_each(
        classes,
        outers,
        class.interfaces.as_slice(),
        &mut seen,
        &mut outer,
    )?;
    shared_list(alloc, outers, class, outer)
}

fn filled(name: Name, class: Class, outer: Shared<Name>) -> Class
    ensures { result ≡ record class { name = name; outer = outer } }
{
    Class {
        name,
        superclass: class.superclass,
        interfaces: class.interfaces,
        is_interface: class.is_interface,
        outer,
        bare: class.bare,
    }
}

/// The library classes above a class that is settled.
#[tactic(auto, unfolding(link_listing::specs::Orders::named))]
fn outer_of(outers: &Outers, name: &Name) -> Result<Shared<Name>, Memory>
    ensures { IfOk result (λ o. o ≡ listed (named outers.now.entries name.now)) }
{
    match outers.get(name) {
        Some(outer) => outer.copy(),
        None => Ok(Shared::new()),
    }
}

/// The classes by name, each with the library classes above it.
#[tactic(auto, using(crate::proofs::Filling::fills_begin, crate::proofs::Filling::one_filled, crate::proofs::Filling::fills_end))]
pub fn with_outers(
    alloc: Global,
    mut classes: Classes,
    outers: &Outers,
) -> Result<Vec<Class>, Memory>
    ensures { IfOk result (λ v. v.items ≡ map (filled_by outers.now.entries) classes.entries) }
{
    let mut list = Vec::new(alloc);
    while let Some((name, class)) = classes.pop_first() {
        let outer = outer_of(outers, &name)?;
        list.push(filled(name, class, outer))?;
    }
    Ok(list)
}

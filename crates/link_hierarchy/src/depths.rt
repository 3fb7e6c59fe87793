//! How deep classes lie: by these numbers nothing above a class is deeper than it.

ghost use Rattle.std.specs.Prelude.{◌≡◌, ◌<◌, ◌^◌, IfOk, IsTrue};
ghost use Rattle.std.specs.List.{list_all};
ghost use Rattle.link_hierarchy.specs.Depths.{NoneDeeper, all_above, depth, lies_below, none_deeper, one_above};
ghost use Rattle.link_hierarchy.specs.Hierarchy.{Above};

use crate::order::{names_of, order_of};
use app_model::Class;
use link_listing::{Classes, add_copies, class_named};
use std::alloc::Global;
use std::collections::BTreeMap;
use vet_base::{Memory, Name};

/// Classes with how deep they lie. Whatever has no number lies at 0.
pub type Depths = BTreeMap<Name, u32>;

/// Classes and interfaces with those directly below them.
type Below = BTreeMap<Name, Vec<Name>>;

fn add_below(alloc: Global, below: &mut Below, above: &Name, name: &Name) -> Result<(), Memory> {
    if let Some(names) = below.get_mut(above) {
        names.push(name.copy()?)?;
        return Ok(());
    }
    let mut names = Vec::new(alloc);
    names.push(name.copy()?)?;
    below.insert(above.copy()?, names)?;
    Ok(())
}

fn add_class_below(
    alloc: Global,
    below: &mut Below,
    name: &Name,
    class: &Class,
) -> Result<(), Memory> {
    if let Some(superclass) = &class.superclass {
        add_below(alloc, below, superclass, name)?;
    }
    for interface in class.interfaces.as_slice() {
        add_below(alloc, below, interface, name)?;
    }
    Ok(())
}

fn below_of(alloc: Global, classes: &Classes) -> Result<Below, Memory> {
    let mut below = BTreeMap::new(alloc);
    for (name, class) in classes {
        add_class_below(alloc, &mut below, name, class)?;
    }
    Ok(below)
}

/// Lays a class, and all below it that lie nowhere yet, at this depth.
fn lay(
    alloc: Global,
    below: &Below,
    root: Name,
    depth: u32,
    depths: &mut Depths,
) -> Result<(), Memory> {
    let mut open = Vec::new(alloc);
    open.push(root)?;
    for _ in 0..u64::MAX {
        let Some(name) = open.pop() else {
            break;
        };
        if !depths.contains_key(&name) {
            if let Some(names) = below.get(&name) {
                add_copies(&mut open, names)?;
            }
            depths.insert(name, depth)?;
        }
    }
    Ok(())
}

/// Classes on one circle lie at one depth, and any other class lies deeper than those above it: Kosaraju's algorithm,
/// in time near linear in classes and interfaces. No proof rests on this.
fn guessed(alloc: Global, classes: &Classes) -> Result<Depths, Memory> {
    let below = below_of(alloc, classes)?;
    let mut order = order_of(alloc, classes)?;
    let mut depths = BTreeMap::new(alloc);
    for _ in 0..u64::MAX {
        let Some(name) = order.pop() else {
            break;
        };
        let depth = u32::try_from(order.len())
            .unwrap_or(u32::MAX)
            .saturating_add(1);
        lay(alloc, &below, name, depth, &mut depths)?;
    }
    Ok(depths)
}

#[tactic(auto, unfolding(crate::specs::Depths::depth, link_listing::specs::Orders::named))]
fn depth_of(depths: &Depths, name: &Name) -> u64
    ensures is { result ≡ depth depths.now.entries name.now }
    ensures small { result < 2 ^ 32 }
{
    match depths.get(name) {
        Some(depth) => u64::from(*depth),
        None => 0,
    }
}

fn is_one_above(depths: &Depths, limit: u64, name: &Option<Name>) -> bool
    ensures { result ≡ one_above depths.now.entries limit name.now }
{
    match name {
        Some(name) => depth_of(depths, name) < limit,
        None => true,
    }
}

fn are_all_above(depths: &Depths, limit: u64, names: &[Name]) -> bool
    ensures { result ≡ all_above depths.now.entries limit names.now }
{
    names.iter().all(|name| depth_of(depths, name) < limit)
}

/// Whether all that is directly above a class is less deep than the limit.
#[tactic(auto, unfolding(crate::specs::Depths::lies_below))]
fn lies_below_all(classes: &Classes, depths: &Depths, limit: u64, name: &Name) -> bool
    ensures { result ≡ lies_below classes.now.entries depths.now.entries limit name.now }
{
    match class_named(classes, name) {
        Some(class) => {
            is_one_above(depths, limit, &class.superclass)
                && are_all_above(depths, limit, class.interfaces.as_slice())
        }
        None => true,
    }
}

/// Whether a class lies deeper than all that is directly above it. Then it is not above itself.
#[tactic(auto, using(crate::proofs::NoneDeeper::not_itself))]
pub fn is_on_no_circle(classes: &Classes, depths: &Depths, name: &Name) -> bool
    requires { NoneDeeper classes.now.entries depths.now.entries }
    ensures { IsTrue result → Above classes.now.entries name.now name.now → ⊥ }
{
    lies_below_all(classes, depths, depth_of(depths, name), name)
}

#[tactic(auto, unfolding(crate::specs::Depths::none_deeper))]
fn has_none_deeper(classes: &Classes, depths: &Depths, name: &Name) -> bool
    ensures { result ≡ none_deeper classes.now.entries depths.now.entries name.now }
{
    lies_below_all(classes, depths, depth_of(depths, name) + 1, name)
}

fn have_none_deeper(classes: &Classes, depths: &Depths, names: &[Name]) -> bool
    ensures { result ≡ list_all (none_deeper classes.now.entries depths.now.entries) names.now }
{
    names
        .iter()
        .all(|name| has_none_deeper(classes, depths, name))
}

/// Depths by which nothing above a class is deeper than it.
#[tactic(auto, using(crate::proofs::NoneDeeper::nowhere_deeper, crate::proofs::NoneDeeper::all_level))]
pub fn depths_of(alloc: Global, classes: &Classes) -> Result<Depths, Memory>
    ensures { IfOk result (λ depths. NoneDeeper classes.now.entries depths.entries) }
{
    let names = names_of(alloc, classes)?;
    let depths = guessed(alloc, classes)?;
    if have_none_deeper(classes, &depths, &names) {
        return Ok(depths);
    }
    Ok(BTreeMap::new(alloc))
}

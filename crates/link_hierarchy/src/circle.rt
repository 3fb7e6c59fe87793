//! The least class that is above itself.

ghost use Rattle.std.specs.Prelude.{◌≡◌, ◌++◌, ◌∷◌, ◌↔◌, [], true, cond, IfOk, OnOk, IsTrue, List};
ghost use Rattle.std.specs.BTreeMap.{is_at};
ghost use Rattle.app_machine.specs.Lookups.{directly_above};
ghost use Rattle.app_machine.specs.Names.{Name};
ghost use Rattle.app_machine.specs.Sound.{name_order};
ghost use Rattle.link_hierarchy.specs.Circle.{LeastAmong, above_named, comes_first, newly};
ghost use Rattle.link_hierarchy.specs.Depths.{NoneDeeper};
ghost use Rattle.link_hierarchy.specs.Hierarchy.{Above, is_among};

use crate::depths::{Depths, depths_of, is_on_no_circle};
use app_model::Class;
use link_listing::{Classes, add_copies, class_named};
use std::alloc::Global;
use std::collections::BTreeSet;
use vet_base::{Memory, Name};

/// The classes and interfaces directly above a class.
fn add_above(class: &Class, names: &mut Vec<Name>) -> Result<(), Memory>
    ensures { OnOk result (names.new.items ≡ names.old.items ++ directly_above class.now) }
{
    if let Some(superclass) = &class.superclass {
        names.push(superclass.copy()?)?;
    }
    add_copies(names, class.interfaces.as_slice())
}

fn put_seen(seen: &mut BTreeSet<Name>, name: Name) -> Result<(), Memory>
    ensures { OnOk result ((q : Name) → is_among seen.new.keys q ≡ cond (is_at (name_order name) q) true
        (is_among seen.old.keys q)) }
{
    seen.insert(name)?;
    Ok(())
}

/// Visits a name: what is directly above it comes behind the queue.
#[tactic(auto, unfolding(crate::specs::Circle::newly, crate::specs::Circle::above_named))]
fn visit(
    classes: &Classes,
    name: Name,
    seen: &mut BTreeSet<Name>,
    queue: &mut Vec<Name>,
) -> Result<(), Memory>
    ensures queue { OnOk result (queue.new.items ≡ queue.old.items ++ newly classes.now.entries seen.old.keys name) }
    ensures seen { OnOk result ((q : Name) → is_among seen.new.keys q ≡ cond (is_at (name_order name) q) true
        (is_among seen.old.keys q)) }
{
    if !seen.contains(&name) {
        if let Some(class) = class_named(classes, &name) {
            add_above(class, queue)?;
        }
    }
    put_seen(seen, name)
}

/// The names directly above a class of that name.
#[tactic(auto, unfolding(crate::specs::Circle::above_named))]
fn names_above(alloc: Global, classes: &Classes, name: &Name) -> Result<Vec<Name>, Memory>
    ensures { IfOk result (λ v. v.items ≡ above_named classes.now.entries name.now) }
{
    let mut names = Vec::new(alloc);
    if let Some(class) = class_named(classes, name) {
        add_above(class, &mut names)?;
    }
    Ok(names)
}

fn is_same(name: &Name, other: &Name) -> bool
    ensures { result ≡ is_at (name_order name.now) other.now }
{
    name.cmp(other).is_eq()
}

/// Whether a class is above itself, by a search of all that is above it.
#[tactic(auto, using(crate::proofs::Search::search_begins, crate::proofs::Search::search_goes_on, crate::proofs::Search::search_finds, crate::proofs::Search::search_ends, crate::proofs::Search::search_shrinks))]
fn is_above_itself(alloc: Global, classes: &Classes, root: &Name) -> Result<bool, Memory>
    ensures { IfOk result (λ b. IsTrue b ↔ Above classes.now.entries root.now root.now) }
{
    let mut seen = BTreeSet::new(alloc);
    let mut queue = names_above(alloc, classes, root)?;
    while let Some(name) = queue.pop() {
        if is_same(&name, root) {
            return Ok(true);
        }
        visit(classes, name, &mut seen, &mut queue)?;
    }
    Ok(false)
}

/// Whether the name comes before the best so far.
fn is_before(name: &Name, best: &Option<Name>) -> bool
    ensures { result ≡ comes_first name.now best.now }
{
    match best {
        Some(best) => name < best,
        None => true,
    }
}

/// The better of the best so far and this name.
#[tactic(auto, using(crate::proofs::Best::passed_by, crate::proofs::Best::better, crate::proofs::Best::no_better))]
fn better_of(
    alloc: Global,
    classes: &Classes,
    depths: &Depths,
    best: Option<Name>,
    name: &Name,
) -> Result<Option<Name>, Memory>
    requires { NoneDeeper classes.now.entries depths.now.entries }
    ensures { IfOk result (λ o. (before : List Name) → LeastAmong classes.now.entries before best
        → LeastAmong classes.now.entries (before ++ name.now ∷ []) o) }
{
    if !is_before(name, &best) {
        return Ok(best);
    }
    if is_on_no_circle(classes, depths, name) {
        return Ok(best);
    }
    if is_above_itself(alloc, classes, name)? {
        return Ok(Some(name.copy()?));
    }
    Ok(best)
}

/// The least of the names that are above themselves, where one is. A name that lies deeper than all that is directly
/// above it is passed by, so only one on a circle takes a search of all that is above it, and of ascending names only
/// the first such.
pub fn least_circle(
    alloc: Global,
    classes: &Classes,
    names: &[Name],
) -> Result<Option<Name>, Memory>
    ensures { IfOk result (λ o. LeastAmong classes.now.entries names.now o) }
{
    let depths = depths_of(alloc, classes)?;
    let mut best = None;
    for name in names {
        best = better_of(alloc, classes, &depths, best, name)?;
    }
    Ok(best)
}

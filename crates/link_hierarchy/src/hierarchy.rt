//! The classes and interfaces above each class: none is above itself, and the library classes above are listed.

ghost use Rattle.std.specs.Prelude.{◌≡◌, ◌≤◌, ◌<◌, ◌++◌, ◌∷◌, [], IfOk, IfErr, Some, length, cond};
ghost use Rattle.std.specs.BTreeMap.{is_at};
ghost use Rattle.app_machine.specs.Sound.{name_order};
ghost use Rattle.app_machine.specs.Names.{Name};
ghost use Rattle.link_hierarchy.specs.Hierarchy.{IsLeastCircle};
ghost use Rattle.link_listing.specs.Orders.{has_name, named};
ghost use Rattle.link_hierarchy.specs.Settled.{AllSettled, AreStuck, Covers, Settled, StopsAtCircle};
ghost use Rattle.link_hierarchy.specs.Settled.{Turn, all_settled, is_ready, is_settled, one_settled};

use crate::circle::least_circle;
use crate::order::{names_of, order_of};
use crate::outer::{Outers, outer_at, spend_outer};
use app_model::Class;
use link_listing::{Classes, Fault, Halt, NAMES, class_named, holds_name};
use std::alloc::Global;
use std::collections::BTreeMap;
use vet_base::{Memory, Name, Shared, Stop};

#[tactic(auto, unfolding(link_listing::specs::Orders::named))]
fn holds_outer(outers: &Outers, name: &Name) -> bool
    ensures { result ≡ has_name outers.now.entries name.now }
{
    outers.contains_key(name)
}

#[tactic(auto, unfolding(crate::specs::Settled::is_settled))]
fn settled(classes: &Classes, outers: &Outers, above: &Name) -> bool
    ensures { result ≡ is_settled classes.now.entries outers.now.entries above.now }
{
    !holds_name(classes, above) || holds_outer(outers, above)
}

fn are_settled(classes: &Classes, outers: &Outers, names: &[Name]) -> bool
    ensures { result ≡ all_settled classes.now.entries outers.now.entries names.now }
{
    names.iter().all(|name| settled(classes, outers, name))
}

fn settled_if_any(classes: &Classes, outers: &Outers, name: &Option<Name>) -> bool
    ensures { result ≡ one_settled classes.now.entries outers.now.entries name.now }
{
    match name {
        Some(name) => settled(classes, outers, name),
        None => true,
    }
}

#[tactic(auto, unfolding(crate::specs::Settled::is_ready))]
fn may_settle(classes: &Classes, outers: &Outers, class: &Class) -> bool
    ensures { result ≡ is_ready classes.now.entries outers.now.entries class.now }
{
    settled_if_any(classes, outers, &class.superclass)
        && are_settled(classes, outers, class.interfaces.as_slice())
}

#[tactic(auto, unfolding(link_listing::specs::Orders::named))]
fn put_outer(mut outers: Outers, name: Name, outer: Shared<Name>) -> Result<Outers, Memory>
    ensures { IfOk result (λ m. (q : Name) → named m.entries q ≡ cond (is_at (name_order name) q) (Some outer)
        (named outers.entries q)) }
{
    outers.insert(name, outer)?;
    Ok(outers)
}

/// Settles the class, where all that stands directly above it
/// is settled. Whether it has to wait for that is told beside.
#[tactic(auto, using(crate::proofs::Settling::settled_before, crate::proofs::Settling::no_class, crate::proofs::Settling::waits, crate::proofs::Settling::settles))]
fn settle(
    alloc: Global,
    classes: &Classes,
    outers: Outers,
    name: &Name,
    room: &mut u64,
) -> Result<(Outers, bool), Memory>
    requires { Settled classes.now.entries outers.entries }
    ensures { IfOk result (λ t. Turn classes.now.entries outers.entries t.0.entries name.now t.1) }
{
    if holds_outer(&outers, name) {
        return Ok((outers, false));
    }
    let Some(class) = class_named(classes, name) else {
        return Ok((outers, false));
    };
    if !may_settle(classes, &outers, class) {
        return Ok((outers, true));
    }
    spend_outer(classes, &outers, class, room)?;
    let outer = outer_at(alloc, classes, &outers, class)?;
    let outers = put_outer(outers, name.copy()?, outer)?;
    Ok((outers, false))
}

/// Settles as many of the classes as the order allows.
#[tactic(auto, using(crate::proofs::Settling::none_settled))]
fn settle_along(
    alloc: Global,
    classes: &Classes,
    order: &[Name],
    room: &mut u64,
) -> Result<Outers, Memory>
    ensures { IfOk result (λ m. Settled classes.now.entries m.entries) }
{
    let mut outers = BTreeMap::new(alloc);
    for name in order {
        let (more, _) = settle(alloc, classes, outers, name, room)?;
        outers = more;
    }
    Ok(outers)
}

/// The names that are left, with this one where it waits.
fn left_with(mut left: Vec<Name>, name: &Name, waits: bool) -> Result<Vec<Name>, Memory>
    ensures { IfOk result (λ v. v.items ≡ cond waits (left.items ++ name.now ∷ []) left.items) }
{
    if waits {
        left.push(name.copy()?)?;
    }
    Ok(left)
}

/// Settles what can be settled of these classes, one after the other, and gives those that are left.
#[tactic(auto, using(crate::proofs::Rounds::round_begins, crate::proofs::Rounds::covers_left, crate::proofs::Rounds::fewer_left, crate::proofs::Rounds::left_stuck))]
fn settle_round(
    alloc: Global,
    classes: &Classes,
    mut outers: Outers,
    names: &[Name],
    room: &mut u64,
) -> Result<(Outers, Vec<Name>), Memory>
    requires settled { Settled classes.now.entries outers.entries }
    requires covers { Covers classes.now.entries outers.entries names.now }
    ensures settled { IfOk result (λ r. Settled classes.now.entries r.0.entries) }
    ensures covers { IfOk result (λ r. Covers classes.now.entries r.0.entries r.1.items) }
    ensures fewer { IfOk result (λ r. length r.1.items ≤ length names.now) }
    ensures stuck { IfOk result (λ r. length r.1.items ≡ length names.now → AreStuck classes.now.entries r.0.entries
        r.1.items) }
{
    let mut left = Vec::new(alloc);
    for name in names {
        let (more, waits) = settle(alloc, classes, outers, name, room)?;
        outers = more;
        left = left_with(left, name, waits)?;
    }
    Ok((outers, left))
}

/// The least class that is above itself. Where classes wait for one another one is.
#[tactic(auto, using(crate::proofs::Stuck::least_of_all, crate::proofs::Stuck::one_is))]
fn circle_among(
    alloc: Global,
    classes: &Classes,
    outers: &Outers,
    left: &[Name],
) -> Result<Name, Memory>
    requires settled { Settled classes.now.entries outers.now.entries }
    requires covers { Covers classes.now.entries outers.now.entries left.now }
    requires stuck { AreStuck classes.now.entries outers.now.entries left.now }
    requires some { 0 < length left.now }
    ensures { IfOk result (λ c. IsLeastCircle classes.now.entries c) }
{
    match least_circle(alloc, classes, left)? {
        Some(class) => Ok(class),
        None => unreachable!(),
    }
}

/// The library classes above each class, or the least class that is above itself. Where these names come to more than
/// `NAMES` there is want of memory.
#[tactic(auto, using(crate::proofs::Rounds::all_left, crate::proofs::Rounds::none_left))]
pub fn outers_of(alloc: Global, classes: &Classes) -> Result<Outers, Halt>
    ensures ok { IfOk result (λ m. AllSettled classes.now.entries m.entries) }
    ensures fault { IfErr result (λ h. StopsAtCircle classes.now.entries h) }
{
    let order = order_of(alloc, classes)?;
    let mut room = NAMES;
    let mut outers = settle_along(alloc, classes, &order, &mut room)?;
    let mut left = names_of(alloc, classes)?;
    'rounds: while !left.is_empty() {
        let (more, rest) = settle_round(alloc, classes, outers, &left, &mut room)?;
        if rest.len() == left.len() {
            let class = circle_among(alloc, classes, &more, &rest)?;
            return Err(Stop::Fault(Fault::Circle(class)));
        }
        outers = more;
        left = rest;
    }
    Ok(outers)
}

//! The fields that references to static fields stand for, and their numbers.

ghost use Rattle.std.specs.Prelude.{◌≡◌, ◌++◌, IfOk, OnOk, filter_map, flat_map, fold, unwrap_or};
ghost use Rattle.vet_base.specs.Members.{first_given};
ghost use Rattle.app_machine.specs.Lookups.{class_named, up};
ghost use Rattle.app_machine.specs.Sound.{SoundApp};
ghost use Rattle.link_listing.specs.Orders.{named_triple};
ghost use Rattle.link_hierarchy.specs.Hierarchy.{SameNames, add_once, firsts};
ghost use Rattle.link_code.specs.Statics.{class_of_static, classes_asked, defines, first_interfaces, interfaces_named};
ghost use Rattle.link_code.specs.Statics.{is_true, met, number_among, number_of, own_name, resolved};
ghost use Rattle.link_code.specs.StaticsInOrder.{StaticsInOrder};
ghost use Rattle.link_listing.specs.Texts.{field_of};

use crate::scope::Scope;
use app_model::{App, Class, class_of, classes_upward, next_class};
use dex_tables::Dex;
use link_hierarchy::add_all;
use link_listing::{Fields, Triple, add_copies, field_at};
use std::alloc::Global;
use std::collections::BTreeSet;
use vet_base::{Memory, Name};

#[tactic(auto, unfolding(link_listing::specs::Orders::named_triple))]
fn is_static_field(fields: &Fields, triple: &Triple) -> bool
    ensures { result ≡ is_true (named_triple fields.now.entries triple.now) }
{
    match fields.get(triple) {
        Some(is_static) => *is_static,
        None => false,
    }
}

/// Whether the class itself defines a static field of the name and type of the reference.
#[tactic(auto, unfolding(crate::specs::Statics::defines))]
fn has_static(fields: &Fields, at: &Triple, class: &Class) -> Result<bool, Memory>
    ensures { IfOk result (λ b. b ≡ defines fields.now.entries at.now.1 at.now.2 class.now) }
{
    let triple = (class.name.copy()?, at.1.copy()?, at.2.copy()?);
    Ok(is_static_field(fields, &triple))
}

/// The name of the class, where it itself defines the static field.
fn own_class(fields: &Fields, at: &Triple, class: &Class) -> Result<Option<Name>, Memory>
    ensures { IfOk result (λ o. o ≡ own_name fields.now.entries at.now.1 at.now.2 class.now) }
{
    if has_static(fields, at, class)? {
        Ok(Some(class.name.copy()?))
    } else {
        Ok(None)
    }
}

/// The first class that defines the static field, from that of the reference upward along superclasses.
#[tactic(auto, using(vet_base::proofs::Firsts::first_begins, vet_base::proofs::Firsts::first_found, vet_base::proofs::Firsts::first_later, vet_base::proofs::Firsts::first_nowhere))]
fn class_upward(app: &App, fields: &Fields, at: &Triple) -> Result<Option<Name>, Memory>
    requires { SoundApp app.now }
    ensures { IfOk result (λ o. o ≡ first_given (own_name fields.now.entries at.now.1 at.now.2) (up app.now at.now.0)) }
{
    let mut walk = classes_upward(app, at.0.as_bytes());
    while let Some((class, rest)) = next_class(app, walk) {
        if let Some(found) = own_class(fields, at, class)? {
            return Ok(Some(found));
        }
        walk = rest;
    }
    Ok(None)
}

/// The interfaces of a class and of those above it along superclasses, in the order met.
#[tactic(auto, unfolding(crate::specs::Statics::first_interfaces), using(crate::proofs::Gathering::gather_begins, crate::proofs::Gathering::gather_next, crate::proofs::Gathering::gather_end))]
fn interfaces_upward(alloc: Global, app: &App, class: &[u8]) -> Result<Vec<Name>, Memory>
    requires { SoundApp app.now }
    ensures { IfOk result (λ v. v.items ≡ first_interfaces app.now class.now) }
{
    let mut queue = Vec::new(alloc);
    let mut walk = classes_upward(app, class);
    while let Some((class, rest)) = next_class(app, walk) {
        add_copies(&mut queue, class.interfaces.as_slice())?;
        walk = rest;
    }
    Ok(queue)
}

/// Puts the interfaces of the app class of that name behind the others, those that are new.
#[tactic(auto, unfolding(crate::specs::Statics::interfaces_named))]
fn add_interfaces(
    app: &App,
    name: &Name,
    seen: &mut BTreeSet<Name>,
    names: &mut Vec<Name>,
) -> Result<(), Memory>
    requires app { SoundApp app.now }
    requires same { SameNames seen.old.keys names.old.items }
    ensures names { OnOk result (names.new.items ≡ fold add_once names.old.items (interfaces_named app.now name.now)) }
    ensures same { OnOk result (SameNames seen.new.keys names.new.items) }
{
    match class_of(app, name.as_bytes()) {
        Some(class) => add_all(class.interfaces.as_slice(), seen, names),
        None => Ok(()),
    }
}

/// The interfaces of the classes upward, and behind them those interfaces' own interfaces, each once.
#[tactic(auto, using(link_hierarchy::proofs::Firsts::none_same))]
fn interfaces_met(alloc: Global, app: &App, class: &[u8]) -> Result<Vec<Name>, Memory>
    requires { SoundApp app.now }
    ensures met { IfOk result (λ v. v.items ≡ met app.now class.now) }

    // One more turn meets no new one.
    ensures no_more { IfOk result (λ v. firsts (first_interfaces app.now class.now ++ flat_map
        (interfaces_named app.now) v.items)
        ≡ v.items) }
{
    let first = interfaces_upward(alloc, app, class)?;
    let mut seen = BTreeSet::new(alloc);
    let mut names = Vec::new(alloc);
    add_all(&first, &mut seen, &mut names)?;
    let mut i = 0;
    while i < names.len() {
        let name = names[i].copy()?;
        add_interfaces(app, &name, &mut seen, &mut names)?;
        i += 1;
    }
    Ok(names)
}

/// The first of these interfaces that itself defines the static field.
#[tactic(auto, using(crate::proofs::Asked::none_asked, crate::proofs::Asked::asked_outside, crate::proofs::Asked::asked_in_vain, crate::proofs::Asked::asked_finds, crate::proofs::Asked::all_asked))]
fn class_among(
    app: &App,
    fields: &Fields,
    at: &Triple,
    interfaces: &[Name],
) -> Result<Option<Name>, Memory>
    requires { SoundApp app.now }
    ensures { IfOk result (λ o. o ≡ first_given (own_name fields.now.entries at.now.1 at.now.2)
        (filter_map (class_named app.now) interfaces.now)) }
{
    for interface in interfaces {
        if let Some(class) = class_of(app, interface.as_bytes()) {
            if let Some(found) = own_class(fields, at, class)? {
                return Ok(Some(found));
            }
        }
    }
    Ok(None)
}

/// The class of the first interface met that defines the field of the reference, and otherwise the reference's own.
fn class_of_interfaces(
    alloc: Global,
    app: &App,
    fields: &Fields,
    at: &Triple,
) -> Result<Name, Memory>
    requires { SoundApp app.now }
    ensures { IfOk result (λ n. n ≡ unwrap_or (first_given (own_name fields.now.entries at.now.1 at.now.2)
        (filter_map (class_named app.now) (met app.now at.now.0))) at.now.0) }
{
    let interfaces = interfaces_met(alloc, app, at.0.as_bytes())?;
    match class_among(app, fields, at, &interfaces)? {
        Some(found) => Ok(found),
        None => at.0.copy(),
    }
}

#[tactic(auto, unfolding(crate::specs::Statics::class_of_static, crate::specs::Statics::classes_asked), using(vet_base::proofs::Firsts::given_first, vet_base::proofs::Firsts::given_behind))]
fn class_at(alloc: Global, app: &App, fields: &Fields, at: &Triple) -> Result<Name, Memory>
    requires { SoundApp app.now }
    ensures { IfOk result (λ n. n ≡ class_of_static app.now fields.now.entries at.now) }
{
    match class_upward(app, fields, at)? {
        Some(class) => Ok(class),
        None => class_of_interfaces(alloc, app, fields, at),
    }
}

/// The field that a reference to a static field stands for.
#[tactic(auto, unfolding(crate::specs::Statics::resolved))]
fn resolve(alloc: Global, app: &App, fields: &Fields, at: Triple) -> Result<Triple, Memory>
    requires { SoundApp app.now }
    ensures { IfOk result (λ t. t ≡ resolved app.now fields.now.entries at) }
{
    let class = class_at(alloc, app, fields, &at)?;
    let (_, name, kind) = at;
    Ok((class, name, kind))
}

/// The static that the field of that index stands for.
pub fn static_at(
    alloc: Global,
    app: &App,
    fields: &Fields,
    dex: &Dex,
    i: u32,
) -> Result<Triple, Memory>
    requires { SoundApp app.now }
    ensures { IfOk result (λ t. t ≡ resolved app.now fields.now.entries (field_of dex.now i)) }
{
    resolve(alloc, app, fields, field_at(alloc, dex, i)?)
}

/// The number of a static among these, and 0 where it is not one.
#[tactic(auto, unfolding(crate::specs::Statics::number_among))]
fn place_among(statics: &[Triple], at: &Triple) -> u32
    requires { StaticsInOrder statics.now }
    ensures { result ≡ number_among statics.now at.now }
{
    match statics.binary_search(at) {
        Ok(i) => i as u32,
        Err(_) => 0,
    }
}

/// The number of the static that the field of that index stands for.
#[tactic(auto, unfolding(crate::specs::Statics::number_of))]
pub fn number_at(alloc: Global, scope: &Scope<'_>, i: u32) -> Result<u32, Memory>
    requires app { SoundApp scope.now.app.now }
    requires statics { StaticsInOrder scope.now.statics.now }
    ensures { IfOk result (λ n. n ≡ number_of scope.now.app.now scope.now.fields.now.entries scope.now.statics.now
        scope.now.dex.now i) }
{
    let at = static_at(alloc, scope.app, scope.fields, scope.dex, i)?;
    Ok(place_among(scope.statics, &at))
}

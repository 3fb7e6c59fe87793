//! Why nothing certain can be said of an app.

ghost use Rattle.std.specs.Prelude.{◌≡◌, ◌++◌, ◌∷◌, [], IfOk, take, map, filter, filter_map};
ghost use Rattle.app_machine.specs.Sound.{SoundApp, name_order};
ghost use Rattle.outcomes.specs.Ascending.{ascending};
ghost use Rattle.outcomes.specs.Causes.{is_app_class, no_summaries, natives, reflectives, providers};
ghost use Rattle.outcomes.specs.Causes.{layout_classes, named_cause, causes_of, causes_too_large};
ghost use Rattle.outcomes.specs.Spots.{at_spot, spot_order, unknown_spot};
ghost use Rattle.outcomes.specs.Within.{AreWithin};

use crate::ascending::{ascending_of, set_of};
use crate::names::copied;
use crate::places::place_in;
use crate::{Cause, Place};
use app_model::{App, Class};
use fact_rows::{NATIVE, NO_SUMMARY, REFLECTIVE, Row};
use std::alloc::Global;
use std::collections::BTreeSet;
use vet_base::{Memory, Name};

/// The number of a method, and an address there.
type Spot = (u32, u32);

/// Where the row says that a run may stand for the cause.
#[tactic(auto, unfolding(crate::specs::Spots::unknown_spot))]
fn unknown_spot(cause: u8, row: &Row) -> Option<Spot>
    ensures { result ≡ unknown_spot cause row.now }
{
    match row {
        Row::Unknown(node, other) => {
            if *other == cause {
                Some((node.by.method, node.pc))
            } else {
                None
            }
        }
        _ => None,
    }
}

fn unknown_spots(alloc: Global, cause: u8, rows: &[Row]) -> Result<Vec<Spot>, Memory>
    ensures { IfOk result (λ v. v.items ≡ filter_map (unknown_spot cause) rows.now) }
{
    let mut spots = Vec::new(alloc);
    for row in rows {
        if let Some(spot) = unknown_spot(cause, row) {
            spots.push(spot)?;
        }
    }
    Ok(spots)
}

fn named_cause(cause: u8, place: Place) -> Cause
    ensures { result ≡ named_cause cause place }
{
    match cause {
        NO_SUMMARY => Cause::NoSummary(place),
        NATIVE => Cause::Native(place),
        _ => Cause::Reflective(place),
    }
}

/// The places, as causes.
fn causes_at(alloc: Global, app: &App, cause: u8, spots: &[Spot]) -> Result<Vec<Cause>, Memory>
    ensures { IfOk result (λ v. v.items ≡ map (λ spot. named_cause cause (at_spot app.now spot)) spots.now) }
{
    let mut causes = Vec::new(alloc);
    for spot in spots {
        let place = place_in(alloc, app, spot.0, spot.1)?;
        causes.push(named_cause(cause, place))?;
    }
    Ok(causes)
}

/// The places of the cause, in order and each once.
fn causes_by(alloc: Global, app: &App, cause: u8, rows: &[Row]) -> Result<Vec<Cause>, Memory>
    ensures { IfOk result (λ v. v.items ≡ map (λ spot. named_cause cause (at_spot app.now spot))
        (ascending spot_order (filter_map (unknown_spot cause) rows.now))) }
{
    let spots = ascending_of(alloc, unknown_spots(alloc, cause, rows)?)?;
    causes_at(alloc, app, cause, &spots)
}

/// The instructions at which a run may stand without a row of the lists.
fn no_summaries(alloc: Global, app: &App, rows: &[Row]) -> Result<Vec<Cause>, Memory>
    requires sound { SoundApp app.now }
    requires within { AreWithin app.now rows.now }
    ensures { IfOk result (λ v. v.items ≡ no_summaries app.now rows.now) }
{
    causes_by(alloc, app, NO_SUMMARY, rows)
}

/// Those at which it may stand before native code.
fn natives(alloc: Global, app: &App, rows: &[Row]) -> Result<Vec<Cause>, Memory>
    requires sound { SoundApp app.now }
    requires within { AreWithin app.now rows.now }
    ensures { IfOk result (λ v. v.items ≡ natives app.now rows.now) }
{
    causes_by(alloc, app, NATIVE, rows)
}

/// Those at which it may stand at reflection.
fn reflectives(alloc: Global, app: &App, rows: &[Row]) -> Result<Vec<Cause>, Memory>
    requires sound { SoundApp app.now }
    requires within { AreWithin app.now rows.now }
    ensures { IfOk result (λ v. v.items ≡ reflectives app.now rows.now) }
{
    causes_by(alloc, app, REFLECTIVE, rows)
}

#[tactic(auto, unfolding(crate::specs::Causes::providers))]
fn providers(alloc: Global, app: &App) -> Result<Vec<Cause>, Memory>
    ensures { IfOk result (λ v. v.items ≡ providers app.now) }
{
    let mut causes = Vec::new(alloc);
    for class in ascending_of(alloc, copied(alloc, app.providers.as_slice())?)? {
        causes.push(Cause::Provider(class))?;
    }
    Ok(causes)
}

/// The names of the classes. Want of memory is the only error.
pub fn class_names(alloc: Global, classes: &[Class]) -> Result<Vec<Name>, Memory>
    ensures { IfOk result (λ v. v.items ≡ map (λ c. c.name) classes.now) }
{
    let mut names = Vec::new(alloc);
    for class in classes {
        names.push(class.name.copy()?)?;
    }
    Ok(names)
}

#[tactic(auto, using(crate::proofs::Called::class_by_set))]
fn is_named(app: &App, names: &BTreeSet<Name>, class: &Name) -> bool
    requires { names.now.keys ≡ ascending name_order (map (λ c. c.name) app.now.classes) }
    ensures { result ≡ is_app_class app.now class.now }
{
    names.contains(class)
}

/// Those of the layouts' classes that are of the app.
fn named_classes(alloc: Global, app: &App) -> Result<Vec<Name>, Memory>
    ensures { IfOk result (λ v. v.items ≡ filter (is_app_class app.now) app.now.layout_classes) }
{
    let of_app = set_of(alloc, class_names(alloc, app.classes.as_slice())?)?;
    let mut named = Vec::new(alloc);
    for class in app.layout_classes.as_slice() {
        if is_named(app, &of_app, class) {
            named.push(class.copy()?)?;
        }
    }
    Ok(named)
}

#[tactic(auto, unfolding(crate::specs::Causes::layout_classes))]
fn layout_classes(alloc: Global, app: &App) -> Result<Vec<Cause>, Memory>
    ensures { IfOk result (λ v. v.items ≡ layout_classes app.now) }
{
    let mut causes = Vec::new(alloc);
    for class in ascending_of(alloc, named_classes(alloc, app)?)? {
        causes.push(Cause::LayoutClass(class))?;
    }
    Ok(causes)
}

/// The causes that rows of the app and the app itself tell: the instructions at which a run may stand without a row of
/// the lists, before native code and at reflection, then the providers, and then the classes of the app that layouts
/// name; each in ascending order and once.
#[tactic(auto, unfolding(crate::specs::Causes::causes_of))]
pub fn causes_of(alloc: Global, app: &App, rows: &[Row]) -> Result<Vec<Cause>, Memory>
    requires sound { SoundApp app.now }
    requires within { AreWithin app.now rows.now }
    ensures { IfOk result (λ v. v.items ≡ causes_of app.now rows.now) }
{
    let mut causes = no_summaries(alloc, app, rows)?;
    causes.append(&mut natives(alloc, app, rows)?)?;
    causes.append(&mut reflectives(alloc, app, rows)?)?;
    causes.append(&mut providers(alloc, app)?)?;
    causes.append(&mut layout_classes(alloc, app)?)?;
    Ok(causes)
}

/// The causes in an app from which more rows follow than the limit.
#[tactic(auto, unfolding(crate::specs::Causes::causes_too_large))]
pub fn causes_too_large(alloc: Global, app: &App, limit: u32) -> Result<Vec<Cause>, Memory>
    ensures { IfOk result (λ v. v.items ≡ causes_too_large app.now limit) }
{
    let mut causes = providers(alloc, app)?;
    causes.append(&mut layout_classes(alloc, app)?)?;
    causes.push(Cause::TooLarge(limit))?;
    Ok(causes)
}

//! Which bodies the events in the life of components and clicks run, component by event.
ghost use Rattle.std.specs.Prelude.{◌≡◌, IfOk, length};
ghost use Rattle.app_machine.specs.Sound.{SoundApp};
ghost use Rattle.event_index.specs.Bodies.{AreBodies, HasBodies, body_of};

use crate::names::number_of;
use app_machine::{App, Component, Kind};
use app_model::{click, life_event};
use std::alloc::Global;
use vet_base::Memory;

/// How many classes are gone through for the bodies of one kind of event at the most. The bodies on
/// the components that are left are looked up where they are asked for.
const MOST: u64 = 4_194_304;

/// How many events the life of a component has at the most.
const LIFE: u32 = 12;

/// Events that come to components by number.
#[derive(Clone, Copy)]
pub enum Event {
    Life,
    Click,
}

/// The body that the event of this number runs on the component.
pub fn body_of(app: &App, kind: Event, component: u32, number: u32) -> Option<u32>
    requires { SoundApp app.now }
    ensures { result ≡ body_of app.now kind component number }
{
    match kind {
        Event::Life => match life_event(app, component, number) {
            Some(event) => event.body,
            None => None,
        },
        Event::Click => click(app, component, number),
    }
}

/// How many events of the kind come to the component at the most.
fn event_count(app: &App, kind: Event, component: &Component) -> u32
    requires { SoundApp app.now }
{
    match (kind, component.kind) {
        (Event::Life, _) => LIFE,
        (Event::Click, Kind::Activity) => app.clicks.len() as u32,
        (Event::Click, _) => 0,
    }
}

/// How many classes are gone through at the most for a body on the component.
fn depth_of(app: &App, depths: &[u64], component: &Component) -> u64
    requires { SoundApp app.now }
{
    match number_of(app, component.class.as_bytes()) {
        Some(number) => depths.get(number).copied().unwrap_or(1),
        None => 1,
    }
}

/// How many events of the kind are listed for the component: all, or none where more classes would
/// have to be gone through than are left to be.
fn listed_count(app: &App, depths: &[u64], kind: Event, component: u32, left: &mut u64) -> u32
    requires { SoundApp app.now }
{
    let Some(found) = app.components.get(component as usize) else {
        return 0;
    };
    let count = event_count(app, kind, found);
    let cost = u64::from(count).saturating_mul(depth_of(app, depths, found));
    if *left < cost {
        return 0;
    }
    *left -= cost;
    count
}

/// The bodies that the first so many events of the kind run on the component, by their numbers.
#[tactic(auto, using(crate::proofs::EventBodies::no_bodies, crate::proofs::EventBodies::one_more_body))]
fn bodies_on(
    alloc: Global,
    app: &App,
    kind: Event,
    component: u32,
    count: u32,
) -> Result<Vec<Option<u32>>, Memory>
    requires { SoundApp app.now }
    ensures { IfOk result (λ bodies. AreBodies app.now kind component bodies.items) }
{
    let mut bodies = Vec::new(alloc);
    for number in 0..count {
        bodies.push(body_of(app, kind, component, number))?;
    }
    Ok(bodies)
}

fn component_count(app: &App) -> u32
    requires { SoundApp app.now }
    ensures { result ≡ length app.now.components }
{
    app.components.len() as u32
}

/// The bodies that the events of the kind run on each component.
#[tactic(auto, using(crate::proofs::EventBodies::no_rows, crate::proofs::EventBodies::one_more_row))]
pub fn bodies_of(
    alloc: Global,
    app: &App,
    depths: &[u64],
    kind: Event,
) -> Result<Vec<Vec<Option<u32>>>, Memory>
    requires { SoundApp app.now }
    ensures { IfOk result (λ rows. HasBodies app.now kind rows.items) }
{
    let mut left = MOST;
    let mut rows = Vec::new(alloc);
    for component in 0..component_count(app) {
        let count = listed_count(app, depths, kind, component, &mut left);
        rows.push(bodies_on(alloc, app, kind, component, count)?)?;
    }
    Ok(rows)
}

/// The body of this number among those of the component, or as it is looked up.
#[tactic(auto, using(crate::proofs::EventBodies::body_there))]
fn body_among(
    app: &App,
    bodies: &[Option<u32>],
    kind: Event,
    component: u32,
    number: u32,
) -> Option<u32>
    requires sound { SoundApp app.now }
    requires bodies { AreBodies app.now kind component bodies.now }
    ensures { result ≡ body_of app.now kind component number }
{
    match bodies.get(number as usize) {
        Some(body) => *body,
        None => body_of(app, kind, component, number),
    }
}

/// The body that the event of this number runs on the component, from the tables where it stands there.
#[tactic(auto, using(crate::proofs::EventBodies::row_there))]
pub fn known_body(
    app: &App,
    rows: &[Vec<Option<u32>>],
    kind: Event,
    component: u32,
    number: u32,
) -> Option<u32>
    requires sound { SoundApp app.now }
    requires rows { HasBodies app.now kind rows.now }
    ensures { result ≡ body_of app.now kind component number }
{
    match rows.get(component as usize) {
        Some(bodies) => body_among(app, bodies.as_slice(), kind, component, number),
        None => body_of(app, kind, component, number),
    }
}

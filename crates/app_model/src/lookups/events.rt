ghost use Rattle.std.specs.Prelude.{◌≡◌, ◌↔◌, Bool, IsTrue, option_map};
ghost use Rattle.app_machine.specs.declared.app.App.{App as AnApp};
ghost use Rattle.app_machine.specs.declared.lists.Lists.{Lists as SomeLists};
ghost use Rattle.app_machine.specs.Events.{IsApplication};
ghost use Rattle.app_machine.specs.Names.{click_descriptor};
ghost use Rattle.app_machine.specs.Sound.{SoundApp};
ghost use Rattle.app_model.specs.EventBodies.{callback_of, click, click_of, component_callback, handed_callback};
ghost use Rattle.app_model.specs.EventBodies.{is_activity, life_event, life_of, shown_callback, shown_component_event};
ghost use Rattle.app_model.specs.EventLaws.{EventsAreExact};

use crate::lookups::above::below;
use crate::lookups::life::event_rows;
use crate::lookups::upward::{body_named, find_body};
use crate::{App, Callback, Component, EventRow, Kind, Lists};
use vet_base::Name;

/// An event in the life of a component.
#[derive(Clone, Copy)]
pub struct ComponentEvent<'a> {
    /// The component's class.
    pub class: &'a Name,
    pub event: EventRow,
    /// The number of the method that runs, where there is one.
    pub body: Option<u32>,
}

/// A method that the system calls on an object.
#[derive(Clone, Copy)]
pub struct CalledBack<'a> {
    /// Positions, the receiver being 0, and the categories with which their values come labelled.
    pub sources: &'a [(u32, u8)],
    pub body: u32,
}

/// Event number `event` in the life of the component of this number. None exactly where there is no
/// such component, or its kind has no such event.
#[tactic(auto, unfolding(crate::specs::EventBodies::life_event))]
pub fn life_event(app: &App, component: u32, event: u32) -> Option<ComponentEvent<'_>>
    requires { SoundApp app.now }
    ensures { option_map shown_component_event result ≡ life_event app.now component event }
{
    match app.components.get(component as usize) {
        Some(component) => life_of(app, component, event),
        None => None,
    }
}

#[tactic(auto, using(crate::proofs::Events::event_here, crate::proofs::Events::no_event))]
fn life_of<'a>(app: &App, component: &'a Component, event: u32) -> Option<ComponentEvent<'a>>
    requires { SoundApp app.now }
    ensures { option_map shown_component_event result ≡ life_of app.now component.now event }
{
    let event = *event_rows(component.kind).get(event as usize)?;
    let body = body_named(
        app,
        &component.class,
        event.name.as_bytes(),
        event.proto.as_bytes(),
    );
    Some(ComponentEvent {
        class: &component.class,
        event,
        body,
    })
}

/// Callback row number `row` on the component of this number. None exactly where there is none of
/// either, its class is not below that of the row, or no app class on its way upward has a body.
#[tactic(auto, unfolding(crate::specs::EventBodies::component_callback))]
pub fn callback<'a>(app: &App, lists: &'a Lists, component: u32, row: u32) -> Option<CalledBack<'a>>
    requires { SoundApp app.now }
    ensures { option_map shown_callback result ≡ component_callback app.now lists.now component row }
{
    match app.components.get(component as usize) {
        Some(component) => handed_callback(app, lists, row, &component.class),
        None => None,
    }
}

/// The same on an object of the class.
#[tactic(auto, unfolding(crate::specs::EventBodies::handed_callback))]
pub fn handed_callback<'a>(
    app: &App,
    lists: &'a Lists,
    row: u32,
    class: &Name,
) -> Option<CalledBack<'a>>
    requires { SoundApp app.now }
    ensures { option_map shown_callback result ≡ handed_callback app.now lists.now row class.now }
{
    match lists.callbacks.get(row as usize) {
        Some(callback) => callback_of(app, lists, class, callback),
        None => None,
    }
}

fn callback_of<'a>(
    app: &App,
    lists: &Lists,
    class: &Name,
    callback: &'a Callback,
) -> Option<CalledBack<'a>>
    requires { SoundApp app.now }
    ensures { option_map shown_callback result ≡ callback_of app.now lists.now class.now (Some callback.now) }
{
    if !below(app, lists, class, &callback.class) {
        return None;
    }
    match find_body(app, class, &callback.name, &callback.proto) {
        Some(body) => Some(CalledBack {
            sources: callback.sources.as_slice(),
            body,
        }),
        None => None,
    }
}

/// The body of click number `number` on the component of this number. None exactly where there is
/// none of either, the component is no activity, or no app class on its way upward has a body.
#[tactic(auto, unfolding(crate::specs::EventBodies::click))]
pub fn click(app: &App, component: u32, number: u32) -> Option<u32>
    requires { SoundApp app.now }
    ensures { result ≡ click app.now component number }
{
    match app.components.get(component as usize) {
        Some(component) => match app.clicks.get(number as usize) {
            Some(name) => click_of(app, component, name),
            None => None,
        },
        None => None,
    }
}

fn click_of(app: &App, component: &Component, name: &Name) -> Option<u32>
    requires { SoundApp app.now }
    ensures { result ≡ click_of app.now component.now (Some name.now) }
{
    match component.kind {
        Kind::Activity => body_named(app, &component.class, name.as_bytes(), click_descriptor()),
        _ => None,
    }
}

#[tactic(auto, unfolding(app_machine::specs::Names::click_descriptor))]
fn click_descriptor() -> &'static [u8]
    ensures { result.now ≡ click_descriptor }
{
    b"(Landroid/view/View;)V"
}

/// Whether the component of this number is the application object.
#[tactic(auto, using(crate::proofs::Events::application_here, crate::proofs::Events::other_kind, crate::proofs::Events::no_component))]
pub fn is_application(app: &App, component: u32) -> bool
    ensures { IsTrue result ↔ IsApplication app.now component }
{
    match app.components.get(component as usize) {
        Some(component) => match component.kind {
            Kind::Application => true,
            _ => false,
        },
        None => false,
    }
}

/// In a sound app the look-ups of events by their numbers give exactly the events of the machine.
pub fn events_are_exact()
    ensures { (app : AnApp) (lists : SomeLists) → SoundApp app → EventsAreExact app lists }
{}

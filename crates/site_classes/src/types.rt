//! The types of an event's parameters.
ghost use Rattle.std.specs.Prelude.{◌≡◌, slice_get};
ghost use Rattle.std.specs.Option.{option_and_then, option_copied};
ghost use Rattle.app_machine.specs.LifeEvents.{life_events};
ghost use Rattle.app_machine.specs.Names.{click_descriptor};
ghost use Rattle.app_machine.specs.Sound.{SoundApp};
ghost use Rattle.app_machine.specs.Events.{life_body as body_of_life};
ghost use Rattle.fact_rows.specs.Contexts.{body_at, body_on, callback_types, event_types, types_of};

use app_machine::{App, Component, Lists};
use app_model::{body_named, event_rows, find_body};
use fact_rows::Ctx;
use vet_base::Name;

/// The types of the parameters of the event of this context. A call has none.
#[tactic(auto, unfolding(fact_rows::specs::Contexts::event_types))]
pub fn event_types<'a>(app: &'a App, lists: &'a Lists, ctx: Ctx) -> &'a [Name]
    requires { SoundApp app.now }
    ensures { result.now ≡ event_types app.now lists.now ctx }
{
    match ctx {
        Ctx::Row(component, _) | Ctx::Callback(component, _) | Ctx::Click(component, _) => {
            types_of(
                app,
                body_at(app, lists, ctx, app.components.get(component as usize)),
            )
        }
        Ctx::Handed(row) => match lists.callbacks.get(row as usize) {
            Some(callback) => callback.proto.params.as_slice(),
            None => &[],
        },
        Ctx::Init(_) | Ctx::Call(_, _) | Ctx::Call2(_, _, _, _) => &[],
    }
}

/// The types of the parameters of the method of this number.
fn types_of(app: &App, body: Option<u32>) -> &[Name]
    ensures { result.now ≡ types_of app.now body }
{
    match body {
        Some(body) => match app.methods.get(body as usize) {
            Some(method) => method.at.proto.params.as_slice(),
            None => &[],
        },
        None => &[],
    }
}

/// The body that the event of this context runs on the component.
fn body_at(app: &App, lists: &Lists, ctx: Ctx, component: Option<&Component>) -> Option<u32>
    requires { SoundApp app.now }
    ensures { result ≡ body_at app.now lists.now ctx (option_copied component.entry) }
{
    match component {
        Some(component) => body_on(app, lists, ctx, component),
        None => None,
    }
}

fn body_on(app: &App, lists: &Lists, ctx: Ctx, component: &Component) -> Option<u32>
    requires { SoundApp app.now }
    ensures { result ≡ body_on app.now lists.now ctx component.now }
{
    match ctx {
        Ctx::Row(_, event) => life_body(app, component, event),
        Ctx::Callback(_, row) => match lists.callbacks.get(row as usize) {
            Some(callback) => find_body(app, &component.class, &callback.name, &callback.proto),
            None => None,
        },
        Ctx::Click(_, number) => match app.clicks.get(number as usize) {
            Some(name) => body_named(app, &component.class, name.as_bytes(), click_descriptor()),
            None => None,
        },
        Ctx::Handed(_) | Ctx::Init(_) | Ctx::Call(_, _) | Ctx::Call2(_, _, _, _) => None,
    }
}

/// The body of event number `event` in the component's life.
fn life_body(app: &App, component: &Component, event: u32) -> Option<u32>
    requires { SoundApp app.now }
    ensures { result ≡ option_and_then (body_of_life app.now component.now.class)
        (slice_get (life_events component.now.kind) event) }
{
    match event_rows(component.kind).get(event as usize) {
        Some(event) => body_named(
            app,
            &component.class,
            event.name.as_bytes(),
            event.proto.as_bytes(),
        ),
        None => None,
    }
}

#[tactic(auto, unfolding(app_machine::specs::Names::click_descriptor))]
fn click_descriptor() -> &'static [u8]
    ensures { result.now ≡ click_descriptor }
{
    b"(Landroid/view/View;)V"
}

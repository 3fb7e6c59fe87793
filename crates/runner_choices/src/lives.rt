ghost use Rattle.std.specs.Prelude.{◌≡◌, IfOk, map};
ghost use Rattle.app_machine.specs.LifeEvents.{life_events};
ghost use Rattle.app_machine.specs.Sound.{SoundApp};
ghost use Rattle.app_model.specs.EventTable.{shown_event};
ghost use Rattle.runner_choices.specs.Choices.{row_on};

use app_machine::{App, Component};
use app_model::{EventRow, body_named, event_rows};
use std::alloc::Global;
use vet_base::Memory;

/// An event in the life of a component: the state in which it comes and that behind it, and the body that runs,
/// where there is one.
#[derive(Clone, Copy)]
pub struct LifeRow {
    pub from: u8,
    pub to: u8,
    pub body: Option<u32>,
}

/// The events in the life of the component, in order.
pub fn life_of(alloc: Global, app: &App, component: &Component) -> Result<Vec<LifeRow>, Memory>
    requires { SoundApp app.now }
    ensures { IfOk result (λ rows. rows.items
        ≡ map (row_on app.now component.now.class) (life_events component.now.kind)) }
{
    let events = event_rows(component.kind);
    let mut rows = Vec::new(alloc);
    for i in 0..events.len() {
        rows.push(row_of(app, component, &events[i]))?;
    }
    Ok(rows)
}

fn row_of(app: &App, component: &Component, event: &EventRow) -> LifeRow
    requires { SoundApp app.now }
    ensures { result ≡ row_on app.now component.now.class (shown_event event.now) }
{
    let body = body_named(
        app,
        &component.class,
        event.name.as_bytes(),
        event.proto.as_bytes(),
    );
    LifeRow {
        from: event.from,
        to: event.to,
        body,
    }
}

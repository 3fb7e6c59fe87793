ghost use Rattle.std.specs.Prelude.{◌≡◌, ◌==◌, ◌||◌, ◌↔◌, IsTrue, slice_get};
ghost use Rattle.std.specs.List.{list_any};
ghost use Rattle.app_machine.specs.Sound.{SoundApp};
ghost use Rattle.fact_rows.specs.InApp.{InApp};
ghost use Rattle.app_rows.specs.Tests.{are_fields_in, is_field_in, is_key_in, is_path_in};
ghost use Rattle.app_rows.specs.Tests.{is_state_of, is_static_in, is_summary_in};

use crate::nodes::{is_activation_in, is_node_in, is_register_in};
use crate::sites::is_site_in;
use access_path::Path;
use app_model::{App, EventRow, Lists, SummaryId, event_rows, events_are_exact};
use event_index::EventIndex;
use fact_rows::{Field, Row};
use vet_base::KeyId;

fn is_key_in(app: &App, key: KeyId) -> bool
    ensures { result ≡ is_key_in app.now key }
{
    (key.0 as usize) < app.keys.len()
}

fn is_path_in(app: &App, path: Path) -> bool
    ensures { result ≡ is_path_in app.now path }
{
    path.keys().all(|key| is_key_in(app, key))
}

/// A static of the app, or of a shared object.
fn is_static_in(app: &App, lists: &Lists, number: u32) -> bool
    ensures { result ≡ is_static_in app.now lists.now number }
{
    let number = number as usize;
    let own = app.statics.len();
    number < own || number - own < lists.shared.len()
}

fn lead_to(events: &[EventRow], state: u8) -> bool
    ensures { result ≡ list_any (λ event. state == event.to) events.now }
{
    events.iter().any(|event| state == event.to)
}

/// 0, or a state to which one of the events leads.
fn is_state_of(events: &[EventRow], state: u8) -> bool
    ensures { result ≡ (state == 0 || list_any (λ event. state == event.to) events.now) }
{
    state == 0 || lead_to(events, state)
}

fn is_state_in(app: &App, component: u32, state: u8) -> bool
    ensures { result ≡ is_state_of state (slice_get app.now.components component) }
{
    match app.components.get(component as usize) {
        Some(component) => is_state_of(event_rows(component.kind), state),
        None => false,
    }
}

fn is_summary_in(lists: &Lists, summary: SummaryId) -> bool
    ensures { result ≡ is_summary_in lists.now summary }
{
    match summary {
        SummaryId::Row(row) => (row as usize) < lists.methods.len(),
        SummaryId::Fallback(class) => match lists.classes.get(class as usize) {
            Some(class) => class.fallback.is_some(),
            None => false,
        },
    }
}

pub(crate) fn is_field_in(index: &EventIndex<'_>, field: Field) -> bool
    requires { SoundApp index.now.0 }
    ensures { result ≡ is_field_in index.now.0 index.now.1 field }
{
    let (app, lists) = (index.app(), index.lists());
    match field {
        Field::Node(node) => is_node_in(index, node),
        Field::Register(node, register) => is_register_in(app, node, register),
        Field::Activation(by) => is_activation_in(index, by),
        Field::Site(site) => is_site_in(index, site),
        Field::Key(key) => is_key_in(app, key),
        Field::Path(path) => is_path_in(app, path),
        Field::Category(label) => usize::from(label) < lists.categories.len(),
        Field::Static(number) => is_static_in(app, lists, number),
        Field::Exit(how) => how < 2,
        Field::Component(component) => (component as usize) < app.components.len(),
        Field::State(component, state) => is_state_in(app, component, state),
        Field::Cause(cause) => 0 < cause && cause < 4,
        Field::Use(summary) => is_summary_in(lists, summary),
        Field::Label(_) => false,
    }
}

fn are_fields_in(index: &EventIndex<'_>, fields: &[Field]) -> bool
    requires { SoundApp index.now.0 }
    ensures { result ≡ are_fields_in index.now.0 index.now.1 fields.now }
{
    fields.iter().all(|field| is_field_in(index, *field))
}

/// Whether the row names only what the app and the lists have, by their index. It takes no memory.
pub fn is_in_app(index: &EventIndex<'_>, row: &Row) -> bool
    requires { SoundApp index.now.0 }
    ensures { IsTrue result ↔ InApp index.now.0 index.now.1 row.now }
{
    events_are_exact();
    are_fields_in(index, row.parts().fields.as_slice())
}

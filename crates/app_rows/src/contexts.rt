ghost use Rattle.std.specs.Prelude.{◌≡◌};
ghost use Rattle.app_machine.specs.Lookups.{step_at};
ghost use Rattle.app_machine.specs.Sound.{SoundApp};
ghost use Rattle.app_model.specs.Initialisers.{component_initialisers};
ghost use Rattle.fact_rows.specs.Contexts.{types_of};
ghost use Rattle.app_rows.specs.Tests.{body_run, enters, is_ctx_in, is_some_there, step_tells, types_run};

use app_model::{Act, App, component_initialisers, next_initialiser, step_at};
use event_index::EventIndex;
use fact_rows::Ctx;
use vet_base::Name;

/// The body that the event of the context runs on its component.
fn body_run(index: &EventIndex<'_>, ctx: Ctx) -> Option<u32>
    requires { SoundApp index.now.0 }
    ensures { result ≡ body_run index.now.0 index.now.1 ctx }
{
    match ctx {
        Ctx::Row(component, event) => index.life_body(component, event),
        Ctx::Callback(component, row) => index.callback_body(component, row),
        Ctx::Click(component, number) => index.click_body(component, number),
        _ => None,
    }
}

/// Whether a method may be entered at the act or before it.
fn enters(act: &Act) -> bool
    ensures { result ≡ enters act.now }
{
    matches!(
        act,
        Act::Call(..) | Act::New(..) | Act::GetStatic(..) | Act::PutStatic(..)
    )
}

fn is_entered_at(app: &App, method: u32, pc: u32) -> bool
    requires { SoundApp app.now }
    ensures { result ≡ step_tells enters (step_at app.now method pc) }
{
    match step_at(app, method, pc) {
        Some(step) => enters(&step.act),
        None => false,
    }
}

fn is_initialised(app: &App, component: u32) -> bool
    requires { SoundApp app.now }
    ensures { result ≡ is_some_there (component_initialisers app.now component) }
{
    next_initialiser(app, component_initialisers(app, component)).is_some()
}

/// Whether there is such an event, callback row or call.
pub(crate) fn is_ctx_in(index: &EventIndex<'_>, ctx: Ctx) -> bool
    requires { SoundApp index.now.0 }
    ensures { result ≡ is_ctx_in index.now.0 index.now.1 ctx }
{
    let app = index.app();
    match ctx {
        Ctx::Row(..) | Ctx::Callback(..) | Ctx::Click(..) => body_run(index, ctx).is_some(),
        Ctx::Handed(row) => (row as usize) < index.lists().callbacks.len(),
        Ctx::Init(component) => is_initialised(app, component),
        Ctx::Call(method, pc) => is_entered_at(app, method, pc),
        Ctx::Call2(method, pc, before, at) => {
            is_entered_at(app, method, pc) && is_entered_at(app, before, at)
        }
    }
}

/// The types of the parameters of the event.
pub(crate) fn types_run<'a>(index: &'a EventIndex<'_>, ctx: Ctx) -> &'a [Name]
    requires { SoundApp index.now.0 }
    ensures { result.now ≡ types_run index.now.0 index.now.1 ctx }
{
    match ctx {
        Ctx::Handed(row) => match index.lists().callbacks.get(row as usize) {
            Some(callback) => callback.proto.params.as_slice(),
            None => &[],
        },
        _ => match body_run(index, ctx) {
            Some(body) => types_of(index.app(), body),
            None => &[],
        },
    }
}

fn types_of(app: &App, body: u32) -> &[Name]
    ensures { result.now ≡ types_of app.now (Some body) }
{
    match app.methods.get(body as usize) {
        Some(method) => method.at.proto.params.as_slice(),
        None => &[],
    }
}

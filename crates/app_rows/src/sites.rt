ghost use Rattle.std.specs.Prelude.{◌≡◌};
ghost use Rattle.app_machine.specs.Lookups.{step_at};
ghost use Rattle.app_machine.specs.Sound.{SoundApp};
ghost use Rattle.app_rows.specs.Tests.{is_parameter_in, is_site_in, makes, step_tells};

use crate::contexts::{is_ctx_in, types_run};
use crate::nodes::is_node_in;
use app_model::{Act, App, is_reference, parameter_type, step_at};
use event_index::EventIndex;
use fact_rows::{Ctx, Site};

/// Whether the act makes an object.
fn makes(act: &Act) -> bool
    ensures { result ≡ makes act.now }
{
    match act {
        Act::New(_, _, _) | Act::Fill(_, _) => true,
        Act::Call(_, at, _) => is_reference(&at.proto.ret),
        _ => false,
    }
}

pub(crate) fn is_made_at(app: &App, method: u32, pc: u32) -> bool
    requires { SoundApp app.now }
    ensures { result ≡ step_tells makes (step_at app.now method pc) }
{
    match step_at(app, method, pc) {
        Some(step) => makes(&step.act),
        None => false,
    }
}

/// Whether the event has a parameter of a reference type there.
fn is_parameter_in(index: &EventIndex<'_>, ctx: Ctx, position: u32) -> bool
    requires { SoundApp index.now.0 }
    ensures { result ≡ is_parameter_in index.now.0 index.now.1 ctx position }
{
    match parameter_type(types_run(index, ctx), position) {
        Some(kind) => is_reference(kind) && is_ctx_in(index, ctx),
        None => false,
    }
}

pub(crate) fn is_site_in(index: &EventIndex<'_>, site: Site) -> bool
    requires { SoundApp index.now.0 }
    ensures { result ≡ is_site_in index.now.0 index.now.1 site }
{
    match site {
        Site::At(node) => {
            is_made_at(index.app(), node.by.method, node.pc) && is_node_in(index, node)
        }
        Site::Param(ctx, position) => is_parameter_in(index, ctx, position),
        Site::Component(component) => (component as usize) < index.app().components.len(),
        Site::Shared(number) => (number as usize) < index.lists().shared.len(),
        Site::Made(_, _) => false,
    }
}

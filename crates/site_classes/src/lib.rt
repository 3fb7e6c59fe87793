//! The class of the objects of a site, in code. It takes no memory.
#![tactic(auto)]

ghost use Rattle.std.specs.Prelude.{◌≡◌};
ghost use Rattle.std.specs.Option.{option_copied};
ghost use Rattle.app_machine.specs.Sound.{SoundApp};
ghost use Rattle.flow_rules.specs.Sites.{class_made, class_made_at, reference_type, site_class};

mod types;

use crate::types::event_types;
use app_machine::{Act, App, Lists};
use app_model::step_at;
use app_parts::{is_reference, parameter_type};
use fact_rows::Site;
use vet_base::Name;

/// The class of the objects that are made at the site. None exactly where the site names nothing in
/// the app and the lists, or nothing that makes an object.
#[tactic(auto, unfolding(flow_rules::specs::Sites::site_class, app_machine::specs::Library::shared_class))]
pub fn site_class<'a>(app: &'a App, lists: &'a Lists, site: Site) -> Option<&'a Name>
    requires { SoundApp app.now }
    ensures { option_copied result ≡ site_class app.now lists.now site }
{
    match site {
        Site::At(node) => class_made_at(app, node.by.method, node.pc),
        Site::Param(ctx, position) => {
            reference_type(parameter_type(event_types(app, lists, ctx), position))
        }
        Site::Component(number) => match app.components.get(number as usize) {
            Some(component) => Some(&component.class),
            None => None,
        },
        Site::Shared(number) => match lists.shared.get(number as usize) {
            Some(shared) => Some(&shared.1),
            None => None,
        },
        Site::Made(method, pc) => class_made_at(app, method, pc),
    }
}

/// The class of what the step makes.
fn class_made_at(app: &App, method: u32, pc: u32) -> Option<&Name>
    requires { SoundApp app.now }
    ensures { option_copied result ≡ class_made_at app.now method pc }
{
    match step_at(app, method, pc) {
        Some(step) => class_made(&step.act),
        None => None,
    }
}

/// The class of what the act makes: that which it names, or for a call the type of its result.
fn class_made(act: &Act) -> Option<&Name>
    ensures { option_copied result ≡ class_made act.now }
{
    match act {
        Act::New(_, class, _) | Act::Fill(_, class) => Some(class),
        Act::Call(_, at, _) => reference_type(Some(&at.proto.ret)),
        _ => None,
    }
}

/// The type, where it is a class or an array.
fn reference_type(kind: Option<&Name>) -> Option<&Name>
    ensures { option_copied result ≡ reference_type (option_copied kind.entry) }
{
    match kind {
        Some(kind) if is_reference(kind) => Some(kind),
        _ => None,
    }
}

//! The site of what a step makes.
ghost use Rattle.std.specs.Prelude.{◌≡◌};
ghost use Rattle.app_machine.specs.Sound.{SoundApp};
ghost use Rattle.cell_rules.specs.Making.{keeps_context, made_at, makes_of_app};

use app_machine::{Act, App};
use app_model::{class_of, step_at};
use fact_rows::{Node, Site};

/// Whether the act makes an object of a class of the app.
#[tactic(auto, unfolding(app_machine::specs::Lookups::class_named))]
fn makes_of_app(app: &App, act: &Act) -> bool
    requires { SoundApp app.now }
    ensures { result ≡ makes_of_app app.now act.now }
{
    match act {
        Act::New(_, class, _) => class_of(app, class.as_bytes()).is_some(),
        _ => false,
    }
}

/// Whether what the step makes is told apart by the context of the step.
#[tactic(auto, unfolding(cell_rules::specs::Making::keeps_context))]
fn keeps_context(app: &App, node: Node) -> bool
    requires { SoundApp app.now }
    ensures { result ≡ keeps_context app.now node }
{
    match step_at(app, node.by.method, node.pc) {
        Some(step) => makes_of_app(app, &step.act),
        None => false,
    }
}

/// The site of what the step at the node makes.
pub fn made_at(app: &App, node: Node) -> Site
    requires { SoundApp app.now }
    ensures { result ≡ made_at app.now node }
{
    if keeps_context(app, node) {
        Site::At(node)
    } else {
        Site::Made(node.by.method, node.pc)
    }
}

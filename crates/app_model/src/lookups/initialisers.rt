ghost use Rattle.std.specs.Prelude.{◌≡◌, ◌∷◌, ◌↔◌, [], IsTrue, MatchOption};
ghost use Rattle.std.specs.Option.{option_copied};
ghost use Rattle.vet_base.specs.Members.{In};
ghost use Rattle.app_machine.specs.Lookups.{initialisers};
ghost use Rattle.app_machine.specs.Sound.{SoundApp};
ghost use Rattle.app_model.specs.Initialisers.{MayBeInitialiser, class_initialisers};
ghost use Rattle.app_model.specs.Initialisers.{component_initialisers, initialisers_left};

use crate::lookups::class_walk::{ClassWalk, classes_above, next_class};
use crate::lookups::methods::{initialiser_name, initialiser_of};
use crate::{Act, App};
use app_parts::class_initialised;
use vet_base::Name;

/// What is left of a walk over the initialisers of a class and of the app classes above it, along superclasses.
#[derive(Clone, Copy)]
pub struct InitialiserWalk<'a> {
    /// The classes to which it still comes.
    classes: ClassWalk<'a>,
}

/// The initialisers that may run before the act: of the class that it initialises, and of those above it.
#[tactic(auto, unfolding(app_machine::specs::Lookups::initialisers))]
pub fn act_initialisers<'a>(app: &'a App, act: &'a Act) -> InitialiserWalk<'a>
    ensures { initialisers_left app.now result ≡ initialisers app.now act.now }
{
    class_initialisers(app, class_initialised(app, act))
}

/// The initialisers of the class of the component of this number, and of those above it.
#[tactic(auto, unfolding(crate::specs::Initialisers::component_initialisers))]
pub fn component_initialisers(app: &App, component: u32) -> InitialiserWalk<'_>
    ensures { initialisers_left app.now result ≡ component_initialisers app.now component }
{
    match app.components.get(component as usize) {
        Some(component) => class_initialisers(app, Some(&component.class)),
        None => class_initialisers(app, None),
    }
}

/// The initialisers of the class, where there is one, and of those above it.
#[tactic(auto, using(crate::proofs::Initialising::walk_begins))]
fn class_initialisers<'a>(app: &App, class: Option<&'a Name>) -> InitialiserWalk<'a>
    ensures { initialisers_left app.now result ≡ class_initialisers app.now (option_copied class.entry) }
{
    InitialiserWalk {
        classes: classes_above(app, class),
    }
}

/// The first initialiser of the walk, and the walk behind it. None where there are no more.
#[tactic(auto, using(crate::proofs::Initialising::walked_none, crate::proofs::Initialising::walked_found, crate::proofs::Initialising::walked_on, crate::proofs::Initialising::walked_all))]
pub fn next_initialiser<'a>(
    app: &'a App,
    walk: InitialiserWalk<'a>,
) -> Option<(u32, InitialiserWalk<'a>)>
    requires { SoundApp app.now }
    ensures { MatchOption result (initialisers_left app.now walk.entry ≡ [])
        (λ next. initialisers_left app.now walk.entry ≡ next.0 ∷ initialisers_left app.now next.1) }
{
    let mut classes = walk.classes;
    while let Some((class, rest)) = next_class(app, classes) {
        classes = rest;
        if let Some(body) = initialiser_of(app, class.name.as_bytes()) {
            return Some((body, InitialiserWalk { classes }));
        }
    }
    None
}

/// Whether the body is an initialiser that may run before the act.
#[tactic(auto, using(crate::proofs::Initialising::not_among, crate::proofs::Initialising::none_passed, crate::proofs::Initialising::is_next, crate::proofs::Initialising::not_next, crate::proofs::Initialising::none_left))]
pub fn is_initialiser(app: &App, act: &Act, body: u32) -> bool
    requires { SoundApp app.now }
    ensures { IsTrue result ↔ In body (initialisers app.now act.now) }
{
    if !may_be_initialiser(app, body) {
        return false;
    }
    let mut walk = act_initialisers(app, act);
    while let Some((next, rest)) = next_initialiser(app, walk) {
        if next == body {
            return true;
        }
        walk = rest;
    }
    false
}

/// Whether the body has the name of initialisers.
#[tactic(auto, using(crate::proofs::Initialising::other_name, crate::proofs::Initialising::no_method))]
fn may_be_initialiser(app: &App, body: u32) -> bool
    ensures { MayBeInitialiser app.now body result }
{
    match app.methods.get(body as usize) {
        Some(method) => method.at.name.as_bytes() == initialiser_name(),
        None => false,
    }
}

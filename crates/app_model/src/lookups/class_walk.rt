ghost use Rattle.std.specs.Prelude.{◌≡◌, ◌∷◌, [], MatchOption};
ghost use Rattle.std.specs.Option.{option_copied};
ghost use Rattle.app_machine.specs.Lookups.{up};
ghost use Rattle.app_machine.specs.Sound.{SoundApp};
ghost use Rattle.app_model.specs.ClassWalks.{classes_from, classes_left};

use crate::lookups::classes::class_of;
use crate::{App, Class};
use vet_base::Name;

/// What is left of a walk over the app's classes from one upward along superclasses.
#[derive(Clone, Copy)]
pub struct ClassWalk<'a> {
    /// The name of the class that comes next, where there is one.
    name: Option<&'a [u8]>,
    /// To how many classes the walk may still come.
    steps: usize,
}

/// The classes from the one of this name upward along superclasses. None where the app has no class
/// of the name.
#[tactic(auto, unfolding(app_machine::specs::Lookups::up, crate::specs::ClassWalks::classes_left))]
pub fn classes_upward<'a>(app: &App, class: &'a [u8]) -> ClassWalk<'a>
    ensures { classes_left app.now result ≡ up app.now class.now }
{
    ClassWalk {
        name: Some(class),
        steps: app.classes.len(),
    }
}

/// The same where there may be no name: then of no class.
#[tactic(auto, using(crate::proofs::Walking::left_ended))]
pub fn classes_above<'a>(app: &App, class: Option<&'a Name>) -> ClassWalk<'a>
    ensures { classes_left app.now result ≡ classes_from app.now (option_copied class.entry) }
{
    match class {
        Some(class) => classes_upward(app, class.as_bytes()),
        None => ClassWalk {
            name: None,
            steps: 0,
        },
    }
}

/// The first class of the walk, and the walk behind it. None where there are no more.
#[tactic(auto, using(crate::proofs::Walking::left_none, crate::proofs::Walking::left_ended, crate::proofs::Walking::left_outside, crate::proofs::Walking::left_class))]
pub fn next_class<'a>(app: &'a App, walk: ClassWalk<'a>) -> Option<(&'a Class, ClassWalk<'a>)>
    requires { SoundApp app.now }
    ensures { MatchOption result (classes_left app.now walk.entry ≡ []) (λ next. classes_left app.now walk.entry
        ≡ next.0.now ∷ classes_left app.now next.1) }
{
    match walk.name {
        None => None,
        Some(name) => {
            if walk.steps == 0 {
                return None;
            }
            match class_of(app, name) {
                None => None,
                Some(class) => {
                    let steps = walk.steps - 1;
                    let name = match &class.superclass {
                        Some(superclass) => Some(superclass.as_bytes()),
                        None => None,
                    };
                    Some((class, ClassWalk { name, steps }))
                }
            }
        }
    }
}

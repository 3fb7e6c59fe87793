//! The classes above a class along superclasses, by name.

ghost use Rattle.std.specs.Prelude.{◌≡◌, ◌++◌, OnOk, map};
ghost use Rattle.app_machine.specs.Lookups.{up};
ghost use Rattle.app_machine.specs.Sound.{SoundApp};

use app_machine::App;
use app_model::{classes_upward, next_class};
use vet_base::{Memory, Name};

/// Puts the names of a class and of those above it along superclasses behind the others.
#[tactic(auto, using(crate::proofs::Ways::way_begins, crate::proofs::Ways::way_goes_on, crate::proofs::Ways::way_done))]
pub fn add_upward(app: &App, class: &Name, names: &mut Vec<Name>) -> Result<(), Memory>
    requires { SoundApp app.now }
    ensures { OnOk result (names.new.items ≡ names.old.items ++ map (λ k. k.name) (up app.now class.now)) }
{
    let mut walk = classes_upward(app, class.as_bytes());
    while let Some((class, rest)) = next_class(app, walk) {
        names.push(class.name.copy()?)?;
        walk = rest;
    }
    Ok(())
}

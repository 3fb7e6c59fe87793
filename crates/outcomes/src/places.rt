//! Places in an app.

ghost use Rattle.std.specs.Prelude.{◌≡◌, IfOk};
ghost use Rattle.outcomes.specs.Places.{no_method, place_in};

use crate::Place;
use app_model::{App, MethodRef, Proto};
use std::alloc::Global;
use vet_base::{Memory, Name, Shared};

/// The same method.
fn copy_of(at: &MethodRef) -> Result<MethodRef, Memory>
    ensures { IfOk result (λ m. m ≡ at.now) }
{
    let proto = Proto {
        params: at.proto.params.copy()?,
        ret: at.proto.ret.copy()?,
    };
    Ok(MethodRef {
        class: at.class.copy()?,
        name: at.name.copy()?,
        proto,
    })
}

fn no_method(alloc: Global) -> Result<MethodRef, Memory>
    ensures { IfOk result (λ m. m ≡ no_method) }
{
    let proto = Proto {
        params: Shared::new(),
        ret: Name::new(alloc, Vec::new(alloc))?,
    };
    Ok(MethodRef {
        class: Name::new(alloc, Vec::new(alloc))?,
        name: Name::new(alloc, Vec::new(alloc))?,
        proto,
    })
}

/// The instruction at the address in the method of that number, and of no class and name where there is none. Want of
/// memory is the only error.
#[tactic(auto, unfolding(crate::specs::Places::place_in))]
pub fn place_in(alloc: Global, app: &App, method: u32, pc: u32) -> Result<Place, Memory>
    ensures { IfOk result (λ p. p ≡ place_in app.now method pc) }
{
    let at = match app.methods.get(method as usize) {
        Some(method) => copy_of(&method.at)?,
        None => no_method(alloc)?,
    };
    Ok(Place { at, pc })
}

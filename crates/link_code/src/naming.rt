//! What instructions name, as the app has it.

ghost use Rattle.std.specs.Prelude.{◌≡◌, IfOk};
ghost use Rattle.app_machine.specs.Sound.{SoundApp};
ghost use Rattle.link_code.specs.Named.{key_of, named_of};
ghost use Rattle.link_code.specs.StaticsInOrder.{StaticsInOrder};

use crate::scope::Scope;
use crate::statics::number_at;
use app_model::{App, instance_key};
use dex_code::{Named, Naming};
use dex_tables::Dex;
use link_listing::{field_at, method_at, type_at};
use std::alloc::Global;
use vet_base::{KeyId, Memory};

/// The key of the instance field of that index.
#[tactic(auto, unfolding(crate::specs::Named::key_of))]
fn key_at(alloc: Global, app: &App, dex: &Dex, i: u32) -> Result<KeyId, Memory>
    requires { SoundApp app.now }
    ensures { IfOk result (λ k. k ≡ key_of app.now dex.now i) }
{
    let (class, name, kind) = field_at(alloc, dex, i)?;
    Ok(instance_key(app, &class, &name, &kind))
}

/// What an instruction names, where this is what it needs.
#[tactic(auto, unfolding(crate::specs::Named::named_of))]
pub fn named_at(alloc: Global, scope: &Scope<'_>, naming: Naming) -> Result<Named, Memory>
    requires app { SoundApp scope.now.app.now }
    requires statics { StaticsInOrder scope.now.statics.now }
    ensures { IfOk result (λ named. named ≡ named_of scope.now.app.now scope.now.fields.now.entries
        scope.now.statics.now scope.now.dex.now naming) }
{
    Ok(match naming {
        Naming::Nothing => Named::Nothing,
        Naming::Class(i) => Named::Class(type_at(alloc, scope.dex, i)?),
        Naming::Method(i) => Named::Method(method_at(alloc, scope.dex, i)?),
        Naming::InstanceField(i) => Named::Key(key_at(alloc, scope.app, scope.dex, i)?),
        Naming::StaticField(i) => Named::Static(number_at(alloc, scope, i)?),
    })
}

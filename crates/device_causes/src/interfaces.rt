//! Methods with code in interfaces of the app.

ghost use Rattle.std.specs.Prelude.{◌≡◌, ◌++◌, IfOk, OnOk};
ghost use Rattle.device_causes.specs.Hidden.{method_named};
ghost use Rattle.device_causes.specs.Interfaces.{is_of_objects, code_in, interface_code};

use link_access::{Accesses, ClassAccess, MethodAccess};
use link_listing::Triple;
use std::alloc::Global;
use vet_base::{Memory, Name};

/// The method's name among all.
pub fn method_named(class: &Name, method: &MethodAccess) -> Result<Triple, Memory>
    ensures { IfOk result (λ t. t ≡ method_named class.now method.now) }
{
    Ok((
        class.copy()?,
        method.name.copy()?,
        method.descriptor.copy()?,
    ))
}

/// Whether it is neither static nor a class initialiser.
#[tactic(auto, unfolding(crate::specs::Interfaces::is_of_objects, app_machine::specs::Names::initialiser_name))]
fn is_of_objects(method: &MethodAccess) -> bool
    ensures { result ≡ is_of_objects method.now }
{
    !method.is_static && method.name.as_bytes() != b"<clinit>".as_slice()
}

#[tactic(auto, unfolding(crate::specs::Interfaces::code_in))]
fn add_code(name: &Name, class: &ClassAccess, found: &mut Vec<Triple>) -> Result<(), Memory>
    ensures { OnOk result (found.new.items ≡ found.old.items ++ code_in (name.now, class.now)) }
{
    if !class.is_interface {
        return Ok(());
    }
    for method in class.methods.as_slice() {
        if is_of_objects(method) {
            found.push(method_named(name, method)?)?;
        }
    }
    Ok(())
}

/// The methods of interfaces that have code or are native, and are not static.
#[tactic(auto, unfolding(crate::specs::Interfaces::interface_code))]
pub fn interface_code(alloc: Global, access: &Accesses) -> Result<Vec<Triple>, Memory>
    ensures { IfOk result (λ v. v.items ≡ interface_code access.now.entries) }
{
    let mut found = Vec::new(alloc);
    for (name, class) in access {
        add_code(name, class, &mut found)?;
    }
    Ok(found)
}

ghost use Rattle.std.specs.Prelude.{◌≡◌, IfOk};
ghost use Rattle.made_apps.specs.Names.{main_class, work_class, activity_class, bundle_class};
ghost use Rattle.made_apps.specs.Names.{object_class, object_array, string_class, device_class};
ghost use Rattle.made_apps.specs.Names.{net_class, void, on_create, id, post, static_field, method_name};

use std::alloc::Global;
use vet_base::{Memory, Name};

#[tactic(auto, unfolding(crate::specs::Names::main_class))]
pub fn main_class(alloc: Global) -> Result<Name, Memory>
    ensures { IfOk result (λ n. n ≡ main_class) }
{
    Name::from_bytes(alloc, b"Lgen/Main;")
}

#[tactic(auto, unfolding(crate::specs::Names::work_class))]
pub fn work_class(alloc: Global) -> Result<Name, Memory>
    ensures { IfOk result (λ n. n ≡ work_class) }
{
    Name::from_bytes(alloc, b"Lgen/Work;")
}

#[tactic(auto, unfolding(crate::specs::Names::activity_class))]
pub fn activity_class(alloc: Global) -> Result<Name, Memory>
    ensures { IfOk result (λ n. n ≡ activity_class) }
{
    Name::from_bytes(alloc, b"Landroid/app/Activity;")
}

#[tactic(auto, unfolding(crate::specs::Names::bundle_class))]
pub fn bundle_class(alloc: Global) -> Result<Name, Memory>
    ensures { IfOk result (λ n. n ≡ bundle_class) }
{
    Name::from_bytes(alloc, b"Landroid/os/Bundle;")
}

#[tactic(auto, unfolding(crate::specs::Names::object_class))]
pub fn object_class(alloc: Global) -> Result<Name, Memory>
    ensures { IfOk result (λ n. n ≡ object_class) }
{
    Name::from_bytes(alloc, b"Ljava/lang/Object;")
}

#[tactic(auto, unfolding(crate::specs::Names::object_array))]
pub fn object_array(alloc: Global) -> Result<Name, Memory>
    ensures { IfOk result (λ n. n ≡ object_array) }
{
    Name::from_bytes(alloc, b"[Ljava/lang/Object;")
}

#[tactic(auto, unfolding(crate::specs::Names::string_class))]
pub fn string_class(alloc: Global) -> Result<Name, Memory>
    ensures { IfOk result (λ n. n ≡ string_class) }
{
    Name::from_bytes(alloc, b"Ljava/lang/String;")
}

#[tactic(auto, unfolding(crate::specs::Names::device_class))]
pub fn device_class(alloc: Global) -> Result<Name, Memory>
    ensures { IfOk result (λ n. n ≡ device_class) }
{
    Name::from_bytes(alloc, b"Lvendor/Device;")
}

#[tactic(auto, unfolding(crate::specs::Names::net_class))]
pub fn net_class(alloc: Global) -> Result<Name, Memory>
    ensures { IfOk result (λ n. n ≡ net_class) }
{
    Name::from_bytes(alloc, b"Lvendor/Net;")
}

#[tactic(auto, unfolding(crate::specs::Names::void))]
pub fn void(alloc: Global) -> Result<Name, Memory>
    ensures { IfOk result (λ n. n ≡ void) }
{
    Name::from_bytes(alloc, b"V")
}

#[tactic(auto, unfolding(crate::specs::Names::on_create))]
pub fn on_create(alloc: Global) -> Result<Name, Memory>
    ensures { IfOk result (λ n. n ≡ on_create) }
{
    Name::from_bytes(alloc, b"onCreate")
}

#[tactic(auto, unfolding(crate::specs::Names::id))]
pub fn id(alloc: Global) -> Result<Name, Memory>
    ensures { IfOk result (λ n. n ≡ id) }
{
    Name::from_bytes(alloc, b"id")
}

#[tactic(auto, unfolding(crate::specs::Names::post))]
pub fn post(alloc: Global) -> Result<Name, Memory>
    ensures { IfOk result (λ n. n ≡ post) }
{
    Name::from_bytes(alloc, b"post")
}

#[tactic(auto, unfolding(crate::specs::Names::static_field))]
pub fn static_field(alloc: Global) -> Result<Name, Memory>
    ensures { IfOk result (λ n. n ≡ static_field) }
{
    Name::from_bytes(alloc, b"s")
}

/// The name of the method of that number.
#[tactic(auto, unfolding(crate::specs::Names::method_name))]
pub fn method_name(alloc: Global, i: u32) -> Result<Name, Memory>
    ensures { IfOk result (λ n. n ≡ method_name i) }
{
    let text = format!(in alloc; "m{i}")?;
    Name::from_bytes(alloc, text.as_bytes())
}

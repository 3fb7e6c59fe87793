//! Why a device may do more than the machine.

ghost use Rattle.std.specs.Prelude.{◌≡◌, IfOk, filter, map};
ghost use Rattle.app_machine.specs.Sound.{SoundApp};
ghost use Rattle.outcomes.specs.Causes.{is_app_class};
ghost use Rattle.outcomes.specs.Spots.{at_spot};
ghost use Rattle.device_causes.specs.DeviceCauses.{hidden_causes, interface_causes, platform_causes};
ghost use Rattle.device_causes.specs.DeviceCauses.{unlisted_causes, static_causes, click_causes, method_called};
ghost use Rattle.device_causes.specs.DeviceCauses.{named_causes, strict_causes, device_causes};

use crate::clicks::odd_clicks;
use crate::hidden::hidden;
use crate::interfaces::interface_code;
use crate::libraries::{Spot, app_names, is_app_class, static_spots, unlisted_classes};
use crate::platform::platform_classes;
use app_machine::{App, Lists};
use device_lists::DeviceLists;
use link_access::Accesses;
use link_listing::Triple;
use outcomes::{Cause, MethodName, ascending_of, place_in};
use std::alloc::Global;
use vet_base::{Memory, Name};

/// The method of a class, a name and a descriptor.
fn method_called(method: Triple) -> MethodName
    ensures { result ≡ method_called method }
{
    let (class, name, descriptor) = method;
    MethodName {
        class,
        name,
        descriptor,
    }
}

#[tactic(auto, unfolding(crate::specs::DeviceCauses::hidden_causes))]
fn hidden_causes(alloc: Global, app: &App, access: &Accesses) -> Result<Vec<Cause>, Memory>
    requires { SoundApp app.now }
    ensures { IfOk result (λ v. v.items ≡ hidden_causes app.now access.now.entries) }
{
    let mut causes = Vec::new(alloc);
    for method in ascending_of(alloc, hidden(alloc, app, access)?)? {
        causes.push(Cause::Hidden(method_called(method)))?;
    }
    Ok(causes)
}

#[tactic(auto, unfolding(crate::specs::DeviceCauses::interface_causes))]
fn interface_causes(alloc: Global, access: &Accesses) -> Result<Vec<Cause>, Memory>
    ensures { IfOk result (λ v. v.items ≡ interface_causes access.now.entries) }
{
    let mut causes = Vec::new(alloc);
    for method in ascending_of(alloc, interface_code(alloc, access)?)? {
        causes.push(Cause::InterfaceCode(method_called(method)))?;
    }
    Ok(causes)
}

#[tactic(auto, unfolding(crate::specs::DeviceCauses::platform_causes))]
fn platform_causes(
    alloc: Global,
    app: &App,
    lists: &Lists,
    device: &DeviceLists,
) -> Result<Vec<Cause>, Memory>
    ensures { IfOk result (λ v. v.items ≡ platform_causes app.now lists.now device.now) }
{
    let mut causes = Vec::new(alloc);
    for class in ascending_of(alloc, platform_classes(alloc, app, lists, device)?)? {
        causes.push(Cause::PlatformClass(class))?;
    }
    Ok(causes)
}

#[tactic(auto, unfolding(crate::specs::DeviceCauses::unlisted_causes))]
fn unlisted_causes(alloc: Global, app: &App, lists: &Lists) -> Result<Vec<Cause>, Memory>
    ensures { IfOk result (λ v. v.items ≡ unlisted_causes app.now lists.now) }
{
    let mut causes = Vec::new(alloc);
    for class in ascending_of(alloc, unlisted_classes(alloc, app, lists)?)? {
        causes.push(Cause::UnlistedClass(class))?;
    }
    Ok(causes)
}

/// The instructions, as causes.
fn statics_at(alloc: Global, app: &App, spots: &[Spot]) -> Result<Vec<Cause>, Memory>
    ensures { IfOk result (λ v. v.items ≡ map (λ spot. Cause.LibraryStatic (at_spot app.now spot)) spots.now) }
{
    let mut causes = Vec::new(alloc);
    for spot in spots {
        let place = place_in(alloc, app, spot.0, spot.1)?;
        causes.push(Cause::LibraryStatic(place))?;
    }
    Ok(causes)
}

#[tactic(auto, unfolding(crate::specs::DeviceCauses::static_causes))]
fn static_causes(
    alloc: Global,
    app: &App,
    access: &Accesses,
    lists: &Lists,
) -> Result<Vec<Cause>, Memory>
    requires { SoundApp app.now }
    ensures { IfOk result (λ v. v.items ≡ static_causes app.now access.now.entries lists.now) }
{
    let spots = static_spots(alloc, app, access, lists)?;
    statics_at(alloc, app, &spots)
}

#[tactic(auto, unfolding(crate::specs::DeviceCauses::click_causes))]
fn click_causes(
    alloc: Global,
    app: &App,
    access: &Accesses,
    lists: &Lists,
) -> Result<Vec<Cause>, Memory>
    requires { SoundApp app.now }
    ensures { IfOk result (λ v. v.items ≡ click_causes app.now access.now.entries lists.now) }
{
    let mut causes = Vec::new(alloc);
    for method in ascending_of(alloc, odd_clicks(alloc, app, access, lists)?)? {
        causes.push(Cause::Click(method_called(method)))?;
    }
    Ok(causes)
}

/// Those of the names that are of classes of the app.
fn classes_named(alloc: Global, app: &App, named: &[Name]) -> Result<Vec<Name>, Memory>
    ensures { IfOk result (λ v. v.items ≡ filter (is_app_class app.now) named.now) }
{
    let names = app_names(alloc, app)?;
    let mut found = Vec::new(alloc);
    for name in named {
        if is_app_class(app, &names, name) {
            found.push(name.copy()?)?;
        }
    }
    Ok(found)
}

#[tactic(auto, unfolding(crate::specs::DeviceCauses::named_causes))]
fn named_causes(alloc: Global, app: &App, named: &[Name]) -> Result<Vec<Cause>, Memory>
    ensures { IfOk result (λ v. v.items ≡ named_causes app.now named.now) }
{
    let mut causes = Vec::new(alloc);
    for class in ascending_of(alloc, classes_named(alloc, app, named)?)? {
        causes.push(Cause::NamedClass(class))?;
    }
    Ok(causes)
}

/// Those that strict lists ask for.
#[tactic(auto, unfolding(crate::specs::DeviceCauses::strict_causes))]
fn strict_causes(
    alloc: Global,
    app: &App,
    access: &Accesses,
    lists: &Lists,
    device: &DeviceLists,
) -> Result<Vec<Cause>, Memory>
    requires { SoundApp app.now }
    ensures { IfOk result (λ v. v.items ≡ strict_causes app.now access.now.entries lists.now device.now) }
{
    let mut causes = hidden_causes(alloc, app, access)?;
    causes.append(&mut interface_causes(alloc, access)?)?;
    causes.append(&mut platform_causes(alloc, app, lists, device)?)?;
    causes.append(&mut unlisted_causes(alloc, app, lists)?)?;
    causes.append(&mut static_causes(alloc, app, access, lists)?)?;
    causes.append(&mut click_causes(alloc, app, access, lists)?)?;
    Ok(causes)
}

/// Where the lists are strict: methods in whose place another one runs; methods of interfaces with code; classes with a
/// name of the platform; classes above those of the app that are not listed; instructions that touch static fields of
/// the library; methods to which clicks may come that no event of the machine brings. And always the classes of the
/// app among `named`. Each kind in ascending order and once: methods by class, name and descriptor, instructions by
/// method and address, classes by name.
///
/// Want of memory is the only error.
#[tactic(auto, unfolding(crate::specs::DeviceCauses::device_causes))]
pub fn device_causes(
    alloc: Global,
    app: &App,
    access: &Accesses,
    lists: &Lists,
    device: &DeviceLists,
    named: &[Name],
) -> Result<Vec<Cause>, Memory>
    requires { SoundApp app.now }
    ensures { IfOk result (λ v. v.items ≡ device_causes app.now access.now.entries lists.now device.now named.now) }
{
    let mut causes = Vec::new(alloc);
    if device.strict {
        causes = strict_causes(alloc, app, access, lists, device)?;
    }
    causes.append(&mut named_causes(alloc, app, named)?)?;
    Ok(causes)
}

//! Classes of the app with names of the platform.

ghost use Rattle.std.specs.Prelude.{◌≡◌, IfOk, map};
ghost use Rattle.device_causes.specs.Platform.{fit_length, longer_fit, longest_fit, has_platform_name};
ghost use Rattle.device_causes.specs.Platform.{is_library_class, is_platform_class, platform_classes};
ghost use Rattle.device_causes.specs.Sets.{IsSetOf};

use crate::sets::NameSet;
use app_machine::{App, LibClass, Lists};
use device_lists::DeviceLists;
use std::alloc::Global;
use vet_base::{Memory, Name};

/// How many bytes the beginning has, where the name has it, else 0.
fn fit_length(name: &Name, start: &Name) -> usize
    ensures { result ≡ fit_length name.now start.now }
{
    if name.as_bytes().starts_with(start.as_bytes()) {
        start.as_bytes().len()
    } else {
        0
    }
}

fn longer_fit(name: &Name, longest: usize, start: &Name) -> usize
    ensures { result ≡ longer_fit name.now longest start.now }
{
    let fit = fit_length(name, start);
    if longest < fit { fit } else { longest }
}

/// How many bytes the longest of the beginnings has that the name has, and 0 where it has none of them.
#[tactic(auto, unfolding(crate::specs::Platform::longest_fit), using(link_hierarchy::proofs::FoldsOn::onto_begins, link_hierarchy::proofs::FoldsOn::onto_goes_on, link_hierarchy::proofs::FoldsOn::onto_is_done))]
fn longest_fit(starts: &[Name], name: &Name) -> usize
    ensures { result ≡ longest_fit starts.now name.now }
{
    let mut longest = 0;
    for start in starts {
        longest = longer_fit(name, longest, start);
    }
    longest
}

#[tactic(auto, unfolding(crate::specs::Platform::has_platform_name))]
fn has_platform_name(device: &DeviceLists, name: &Name) -> bool
    ensures { result ≡ has_platform_name device.now name.now }
{
    longest_fit(device.bundled.as_slice(), name) < longest_fit(device.platform.as_slice(), name)
}

/// The names of the library's classes.
fn listed_names(alloc: Global, classes: &[LibClass]) -> Result<Vec<Name>, Memory>
    ensures { IfOk result (λ v. v.items ≡ map (λ c. c.name) classes.now) }
{
    let mut names = Vec::new(alloc);
    for class in classes {
        names.push(class.name.copy()?)?;
    }
    Ok(names)
}

/// The set of the names of the library's classes.
#[tactic(auto, using(crate::proofs::NameSets::set_as))]
pub fn library_names(alloc: Global, lists: &Lists) -> Result<NameSet, Memory>
    ensures { IfOk result (λ s. IsSetOf s (map (λ c. c.name) lists.now.classes)) }
{
    let names = listed_names(alloc, lists.classes.as_slice())?;
    NameSet::new(alloc, names)
}

/// Whether the lists have a class of this name.
#[tactic(auto, using(crate::proofs::Known::library_by_set))]
pub fn is_library_class(lists: &Lists, names: &NameSet, name: &Name) -> bool
    requires { IsSetOf names.now (map (λ c. c.name) lists.now.classes) }
    ensures { result ≡ is_library_class lists.now name.now }
{
    names.has(name)
}

#[tactic(auto, unfolding(crate::specs::Platform::is_platform_class))]
fn is_platform_class(lists: &Lists, names: &NameSet, device: &DeviceLists, name: &Name) -> bool
    requires { IsSetOf names.now (map (λ c. c.name) lists.now.classes) }
    ensures { result ≡ is_platform_class lists.now device.now name.now }
{
    is_library_class(lists, names, name) || has_platform_name(device, name)
}

/// The names of the app's classes that are names of the platform.
#[tactic(auto, unfolding(crate::specs::Platform::platform_classes))]
pub fn platform_classes(
    alloc: Global,
    app: &App,
    lists: &Lists,
    device: &DeviceLists,
) -> Result<Vec<Name>, Memory>
    ensures { IfOk result (λ v. v.items ≡ platform_classes app.now lists.now device.now) }
{
    let names = library_names(alloc, lists)?;
    let mut found = Vec::new(alloc);
    for class in app.classes.as_slice() {
        if is_platform_class(lists, &names, device, &class.name) {
            found.push(class.name.copy()?)?;
        }
    }
    Ok(found)
}

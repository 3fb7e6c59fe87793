//! What methods of one name and descriptor there are further up.

ghost use Rattle.std.specs.Prelude.{◌≡◌, IfOk};
ghost use Rattle.std.specs.Option.{option_copied};
ghost use Rattle.device_causes.specs.Seen.{same_package, is_elsewhere, maybe_hides, with_package, with_packages, begun};
ghost use Rattle.device_causes.specs.Seen.{with_method};

use crate::packages::package_of;
use link_access::MethodAccess;
use vet_base::{Memory, Name};

/// The packages of the methods that are seen in their package alone.
#[derive(Drop)]
pub enum Packages {
    Without,
    /// All are of the package of the class of this name.
    One(Name),
    Several,
}

/// What methods there are, private ones aside.
#[derive(Drop)]
pub struct Seen {
    pub statics: bool,
    pub instances: bool,
    pub packages: Packages,
}

fn is_same_package(a: &Name, b: &Name) -> bool
    ensures { result ≡ same_package a.now b.now }
{
    package_of(a.as_bytes()) == package_of(b.as_bytes())
}

/// Whether some of the packages is not that of the class.
fn is_elsewhere(packages: &Packages, class: &Name) -> bool
    ensures { result ≡ is_elsewhere packages.now class.now }
{
    match packages {
        Packages::Without => false,
        Packages::One(above) => !is_same_package(class, above),
        Packages::Several => true,
    }
}

/// Whether the method of the class does not override one of those that are there.
pub fn maybe_hides(seen: Option<&Seen>, class: &Name, method: &MethodAccess) -> bool
    ensures { result ≡ maybe_hides (option_copied seen.entry) class.now method.now }
{
    match seen {
        Some(seen) => {
            let others = if method.is_static {
                seen.instances
            } else {
                seen.statics
            };
            (method.is_private && (seen.statics || seen.instances))
                || (others || is_elsewhere(&seen.packages, class))
        }
        None => false,
    }
}

fn packages_copied(packages: &Packages) -> Result<Packages, Memory>
    ensures { IfOk result (λ p. p ≡ packages.now) }
{
    Ok(match packages {
        Packages::Without => Packages::Without,
        Packages::One(class) => Packages::One(class.copy()?),
        Packages::Several => Packages::Several,
    })
}

fn seen_copied(seen: &Seen) -> Result<Seen, Memory>
    ensures { IfOk result (λ s. s ≡ seen.now) }
{
    let packages = packages_copied(&seen.packages)?;
    Ok(Seen {
        statics: seen.statics,
        instances: seen.instances,
        packages,
    })
}

/// The same, and no methods where nothing is known.
pub fn begun(before: Option<&Seen>) -> Result<Seen, Memory>
    ensures { IfOk result (λ s. s ≡ begun (option_copied before.entry)) }
{
    match before {
        Some(seen) => seen_copied(seen),
        None => Ok(Seen {
            statics: false,
            instances: false,
            packages: Packages::Without,
        }),
    }
}

fn with_package(packages: Packages, class: &Name) -> Result<Packages, Memory>
    ensures { IfOk result (λ p. p ≡ with_package packages class.now) }
{
    match packages {
        Packages::Without => Ok(Packages::One(class.copy()?)),
        Packages::One(first) => {
            if is_same_package(&first, class) {
                Ok(Packages::One(first))
            } else {
                Ok(Packages::Several)
            }
        }
        Packages::Several => Ok(Packages::Several),
    }
}

fn with_packages(
    packages: Packages,
    class: &Name,
    method: &MethodAccess,
) -> Result<Packages, Memory>
    ensures { IfOk result (λ p. p ≡ with_packages packages class.now method.now) }
{
    if method.is_open {
        Ok(packages)
    } else {
        with_package(packages, class)
    }
}

/// With one method more, which is not private.
pub fn with_method(seen: Seen, class: &Name, method: &MethodAccess) -> Result<Seen, Memory>
    ensures { IfOk result (λ s. s ≡ with_method seen class.now method.now) }
{
    let Seen {
        statics,
        instances,
        packages,
    } = seen;
    let packages = with_packages(packages, class, method)?;
    Ok(Seen {
        statics: statics || method.is_static,
        instances: instances || !method.is_static,
        packages,
    })
}

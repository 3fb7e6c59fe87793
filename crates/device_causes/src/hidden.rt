//! Methods that a device does not take where the machine's look-up takes them.

ghost use Rattle.std.specs.Prelude.{◌≡◌, ◌++◌, Some, IfOk, IfSome, OnOk};
ghost use Rattle.std.specs.BTreeMap.{get};
ghost use Rattle.app_machine.specs.Lookups.{class_named};
ghost use Rattle.app_machine.specs.Sound.{SoundApp, name_order};
ghost use Rattle.app_model.specs.ClassWalks.{classes_from};
ghost use Rattle.device_causes.specs.Hidden.{is_special, is_hidden, hidden_of, hidden};
ghost use Rattle.device_causes.specs.Path.{AreTold, IsPath, Stands, known_in};

use crate::interfaces::method_named;
use crate::order::downward;
use crate::path::{Path, go_to, is_known_hidden, methods_of, no_path, step_down};
use app_machine::{App, Class};
use link_access::{Accesses, MethodAccess};
use link_listing::Triple;
use std::alloc::Global;
use std::collections::BTreeMap;
use vet_base::{Memory, Name, Seq};

#[tactic(auto, unfolding(crate::specs::Hidden::is_special, crate::specs::Hidden::constructor_name, app_machine::specs::Names::initialiser_name))]
fn is_special(method: &MethodAccess) -> bool
    ensures { result ≡ is_special method.now }
{
    let name = method.name.as_bytes();
    name == b"<init>".as_slice() || name == b"<clinit>".as_slice()
}

/// Whether a method of the classes on the path, which are those above the class, runs in place of its method.
#[tactic(auto, unfolding(crate::specs::Hidden::is_hidden))]
fn is_hidden(
    app: &App,
    access: &Accesses,
    path: &Path,
    class: &Class,
    method: &MethodAccess,
) -> Result<bool, Memory>
    requires { Stands app.now access.now.entries (classes_from app.now class.now.superclass)
        path.now.steps.items (known_in path.now.known) }
    ensures { IfOk result (λ b. b ≡ is_hidden app.now access.now.entries class.now method.now) }
{
    if is_special(method) {
        return Ok(false);
    }
    is_known_hidden(path, &class.name, method)
}

/// Those of the class in whose place one further up runs.
#[tactic(auto, unfolding(crate::specs::Hidden::hidden_of))]
fn hidden_on(
    alloc: Global,
    app: &App,
    access: &Accesses,
    path: &Path,
    class: &Class,
) -> Result<Vec<Triple>, Memory>
    requires { Stands app.now access.now.entries (classes_from app.now class.now.superclass)
        path.now.steps.items (known_in path.now.known) }
    ensures { IfOk result (λ v. v.items ≡ hidden_of app.now access.now.entries class.now) }
{
    let mut found = Vec::new(alloc);
    for method in methods_of(access, &class.name) {
        if is_hidden(app, access, path, class, method)? {
            found.push(method_named(&class.name, method)?)?;
        }
    }
    Ok(found)
}

/// The same; the path leads to the class afterwards.
#[tactic(auto, using(crate::proofs::Standing::way_of_class))]
fn hidden_of(
    alloc: Global,
    app: &App,
    access: &Accesses,
    path: &mut Path,
    class: &Class,
) -> Result<Vec<Triple>, Memory>
    requires sound { SoundApp app.now }
    requires own { class_named app.now class.now.name ≡ Some class.now }
    requires path { IsPath app.now access.now.entries path.old }
    ensures told { IfOk result (λ v. v.items ≡ hidden_of app.now access.now.entries class.now) }
    ensures path { OnOk result (IsPath app.now access.now.entries path.new) }
{
    go_to(alloc, app, access, path, &class.superclass)?;
    let found = hidden_on(alloc, app, access, path, class)?;
    step_down(alloc, app, access, path, &class.name)?;
    Ok(found)
}

/// What is found of some classes, by their names.
type Told = BTreeMap<Name, Seq<Triple>>;

/// Tells what is found of the class.
#[tactic(auto, using(crate::proofs::Told::told_more))]
fn tell(
    alloc: Global,
    app: &App,
    access: &Accesses,
    path: &mut Path,
    told: &mut Told,
    class: &Class,
) -> Result<(), Memory>
    requires sound { SoundApp app.now }
    requires own { class_named app.now class.now.name ≡ Some class.now }
    requires path { IsPath app.now access.now.entries path.old }
    requires told { AreTold app.now access.now.entries (get name_order told.old) }
    ensures path { OnOk result (IsPath app.now access.now.entries path.new) }
    ensures told { OnOk result (AreTold app.now access.now.entries (get name_order told.new)) }
{
    let name = class.name.copy()?;
    let found = hidden_of(alloc, app, access, path, class)?;
    told.insert(name, Seq::from_vec(found))?;
    Ok(())
}

/// Tells what is found of the class of this number.
fn tell_at(
    alloc: Global,
    app: &App,
    access: &Accesses,
    path: &mut Path,
    told: &mut Told,
    i: usize,
) -> Result<(), Memory>
    requires sound { SoundApp app.now }
    requires path { IsPath app.now access.now.entries path.old }
    requires told { AreTold app.now access.now.entries (get name_order told.old) }
    ensures path { OnOk result (IsPath app.now access.now.entries path.new) }
    ensures told { OnOk result (AreTold app.now access.now.entries (get name_order told.new)) }
{
    let Some(class) = app.classes.get(i) else {
        return Ok(());
    };
    tell(alloc, app, access, path, told, class)
}

/// What is found of the classes, each behind its superclass.
fn told_downward(
    alloc: Global,
    app: &App,
    access: &Accesses,
    path: &mut Path,
) -> Result<Told, Memory>
    requires sound { SoundApp app.now }
    requires path { IsPath app.now access.now.entries path.old }
    ensures path { OnOk result (IsPath app.now access.now.entries path.new) }
    ensures told { IfOk result (λ t. AreTold app.now access.now.entries (get name_order t)) }
{
    let order = downward(alloc, app)?;
    let mut told = BTreeMap::new(alloc);
    for i in &order {
        tell_at(alloc, app, access, path, &mut told, *i)?;
    }
    Ok(told)
}

/// What was told of the class.
fn told_of<'a>(app: &App, access: &Accesses, told: &'a Told, class: &Class) -> Option<&'a [Triple]>
    requires own { class_named app.now class.now.name ≡ Some class.now }
    requires told { AreTold app.now access.now.entries (get name_order told.now) }
    ensures { IfSome result (λ found. found.now ≡ hidden_of app.now access.now.entries class.now) }
{
    if let Some(methods) = told.get(&class.name) {
        return Some(methods.as_slice());
    }
    None
}

/// Puts copies behind the others.
fn add_copies(found: &mut Vec<Triple>, more: &[Triple]) -> Result<(), Memory>
    ensures { OnOk result (found.new.items ≡ found.old.items ++ more.now) }
{
    for method in more {
        found.push((method.0.copy()?, method.1.copy()?, method.2.copy()?))?;
    }
    Ok(())
}

/// Puts what is found of the class behind the others: what was told, where that was.
fn add_hidden(
    alloc: Global,
    app: &App,
    access: &Accesses,
    path: &mut Path,
    told: &Told,
    class: &Class,
    found: &mut Vec<Triple>,
) -> Result<(), Memory>
    requires sound { SoundApp app.now }
    requires own { class_named app.now class.now.name ≡ Some class.now }
    requires path { IsPath app.now access.now.entries path.old }
    requires told { AreTold app.now access.now.entries (get name_order told.now) }
    ensures path { OnOk result (IsPath app.now access.now.entries path.new) }
    ensures found { OnOk result (found.new.items ≡ found.old.items ++ hidden_of app.now access.now.entries class.now) }
{
    if let Some(methods) = told_of(app, access, told, class) {
        add_copies(found, methods)?;
        return Ok(());
    }
    let mut methods = hidden_of(alloc, app, access, path, class)?;
    found.append(&mut methods)?;
    Ok(())
}

/// The methods of the app's classes in whose place one of a class further up runs. The classes are gone through
/// downward, so that each is entered and left once.
#[tactic(auto, unfolding(crate::specs::Hidden::hidden))]
pub fn hidden(alloc: Global, app: &App, access: &Accesses) -> Result<Vec<Triple>, Memory>
    requires { SoundApp app.now }
    ensures { IfOk result (λ v. v.items ≡ hidden app.now access.now.entries) }
{
    let mut path = no_path(alloc, app, access);
    let told = told_downward(alloc, app, access, &mut path)?;
    let mut found = Vec::new(alloc);
    for class in app.classes.as_slice() {
        add_hidden(alloc, app, access, &mut path, &told, class, &mut found)?;
    }
    Ok(found)
}

//! A path of app classes upward along superclasses, with what is known of their methods by name and descriptor. A step
//! down or up costs the methods of one class.

ghost use Rattle.std.specs.Prelude.{◌≡◌, ◌+◌, ◌<◌, ◌++◌, ◌∷◌, [], List, Some, IfOk, IsFalse, IsTrue, OnOk};
ghost use Rattle.std.specs.Prelude.{if◌then◌else◌, length, map};
ghost use Rattle.app_machine.specs.declared.app.Class.{Class as AppClass};
ghost use Rattle.app_machine.specs.Lookups.{up};
ghost use Rattle.app_machine.specs.Sound.{SoundApp};
ghost use Rattle.app_model.specs.ClassWalks.{classes_from};
ghost use Rattle.device_causes.specs.Hidden.{methods_of};
ghost use Rattle.device_causes.specs.Path.{Entered, IsPath, Known, Signature as NameAndDescriptor, Stands, known_in};
ghost use Rattle.device_causes.specs.Path.{known_hides, signature_of, taken_back, with_known};
ghost use Rattle.device_causes.specs.Seen.{begun, with_method};

use crate::seen::{Seen, begun, maybe_hides, with_method};
use crate::superclasses::add_upward;
use app_machine::App;
use link_access::{Accesses, MethodAccess};
use std::alloc::Global;
use std::collections::BTreeMap;
use vet_base::{Memory, Name};

/// A name and a descriptor.
type Signature = (Name, Name);

/// What is known under each signature.
type KnownMap = BTreeMap<Signature, Seen>;

/// What was known under some signatures before it was changed, in the order of the changes.
type Undo = Vec<(Signature, Option<Seen>)>;

/// A class of the path, and how what is known of its methods is taken back.
#[derive(Drop)]
pub struct Step {
    class: Name,
    undo: Undo,
}

/// A path: the uppermost class first.
#[derive(Drop)]
pub struct Path {
    steps: Vec<Step>,
    known: KnownMap,
}

/// The methods of the class of this name.
#[tactic(auto, unfolding(crate::specs::Hidden::methods_of, link_listing::specs::Orders::named))]
pub fn methods_of<'a>(access: &'a Accesses, class: &Name) -> &'a [MethodAccess]
    ensures { result.now ≡ methods_of access.now.entries class.now }
{
    match access.get(class) {
        Some(class) => class.methods.as_slice(),
        None => &[],
    }
}

fn signature_of(method: &MethodAccess) -> Result<Signature, Memory>
    ensures { IfOk result (λ s. s ≡ signature_of method.now) }
{
    Ok((method.name.copy()?, method.descriptor.copy()?))
}

/// What is known under the signature of the method.
fn seen_of(known: &KnownMap, method: &MethodAccess) -> Result<Seen, Memory>
    ensures { IfOk result (λ s. s ≡ begun (known_in known.now (signature_of method.now))) }
{
    let key = signature_of(method)?;
    begun(known.get(&key))
}

/// The same, with the method, which is of the class.
fn seen_with(known: &KnownMap, class: &Name, method: &MethodAccess) -> Result<Seen, Memory>
    ensures { IfOk result (λ s. s ≡ with_method (begun (known_in known.now (signature_of method.now)))
        class.now method.now) }
{
    let seen = seen_of(known, method)?;
    with_method(seen, class, method)
}

/// Puts it in the place of what is known under the signature of the method, which is the answer.
fn put(known: &mut KnownMap, method: &MethodAccess, seen: Seen) -> Result<Option<Seen>, Memory>
    ensures before { IfOk result (λ before. before ≡ known_in known.old (signature_of method.now)) }
    ensures known { OnOk result ((q : NameAndDescriptor)
        → known_in known.new q ≡ with_known (signature_of method.now) (Some seen) (known_in known.old) q) }
{
    let key = signature_of(method)?;
    let before = known.insert(key, seen)?;
    Ok(before)
}

/// Puts a change behind the others.
fn note(undo: &mut Undo, method: &MethodAccess, before: Option<Seen>) -> Result<(), Memory>
    ensures { OnOk result (undo.new.items ≡ undo.old.items ++ (signature_of method.now, before) ∷ []) }
{
    let key = signature_of(method)?;
    undo.push((key, before))?;
    Ok(())
}

/// One method more of the class is known, which is not private, and the change stands behind the others.
fn enter_seen(
    known: &mut KnownMap,
    undo: &mut Undo,
    class: &Name,
    method: &MethodAccess,
) -> Result<(), Memory>
    requires { IsFalse method.now.is_private }
    ensures { OnOk result ((methods : List MethodAccess) (before : Known)
        → Entered class.now methods before (known_in known.old) undo.old.items
        → Entered class.now (methods ++ method.now ∷ []) before (known_in known.new) undo.new.items) }
{
    let seen = seen_with(known, class, method)?;
    let before = put(known, method, seen)?;
    note(undo, method, before)
}

/// One method more of the class is known: nothing of a private one, which no class below overrides.
#[tactic(auto, using(crate::proofs::Paths::enter_private))]
fn enter_method(
    known: &mut KnownMap,
    undo: &mut Undo,
    class: &Name,
    method: &MethodAccess,
) -> Result<(), Memory>
    ensures { OnOk result ((methods : List MethodAccess) (before : Known)
        → Entered class.now methods before (known_in known.old) undo.old.items
        → Entered class.now (methods ++ method.now ∷ []) before (known_in known.new) undo.new.items) }
{
    if method.is_private {
        return Ok(());
    }
    enter_seen(known, undo, class, method)
}

/// The methods of the class are known too; and how that is taken back.
#[tactic(auto, using(crate::proofs::Paths::enter_goes_on, crate::proofs::Paths::enter_done))]
fn enter(
    alloc: Global,
    known: &mut KnownMap,
    class: &Name,
    methods: &[MethodAccess],
) -> Result<Undo, Memory>
    ensures { IfOk result (λ undo. Entered class.now methods.now (known_in known.old) (known_in known.new) undo.items) }
{
    let mut undo = Vec::new(alloc);
    for method in methods {
        enter_method(known, &mut undo, class, method)?;
    }
    Ok(undo)
}

/// Puts back what was known under a signature.
fn put_back(known: &mut KnownMap, change: (Signature, Option<Seen>)) -> Result<(), Memory>
    ensures { OnOk result ((q : NameAndDescriptor) →
        known_in known.new q ≡ with_known change.0 change.1 (known_in known.old) q) }
{
    let (key, before) = change;
    match before {
        Some(seen) => {
            known.insert(key, seen)?;
        }
        None => {
            known.remove(&key);
        }
    }
    Ok(())
}

/// Takes back the changes.
#[tactic(auto, using(crate::proofs::Paths::back_done))]
fn leave(known: &mut KnownMap, mut undo: Undo) -> Result<(), Memory>
    ensures { OnOk result ((q : NameAndDescriptor) →
        known_in known.new q ≡ taken_back undo.items (known_in known.old) q) }
{
    while let Some(change) = undo.pop() {
        put_back(known, change)?;
    }
    Ok(())
}

/// A path without classes.
#[tactic(auto, using(crate::proofs::Standing::nowhere))]
pub fn no_path(alloc: Global, app: &App, access: &Accesses) -> Path
    ensures { IsPath app.now access.now.entries result }
{
    Path {
        steps: Vec::new(alloc),
        known: BTreeMap::new(alloc),
    }
}

/// Whether the last class of the path is the one of this name.
#[tactic(auto, using(crate::proofs::Standing::stands_there))]
fn stands_at(app: &App, access: &Accesses, path: &Path, name: &Name) -> bool
    requires { IsPath app.now access.now.entries path.now }
    ensures { IsTrue result → Stands app.now access.now.entries (up app.now name.now)
        path.now.steps.items (known_in path.now.known) }
{
    match path.steps.last() {
        Some(step) => step.class == *name,
        None => false,
    }
}

/// Takes the last class away.
#[tactic(auto, using(crate::proofs::Standing::shorter_path))]
fn leave_last(app: &App, access: &Accesses, path: &mut Path) -> Result<(), Memory>
    requires some { 0 < length path.old.steps.items }
    requires path { IsPath app.now access.now.entries path.old }
    ensures path { OnOk result (IsPath app.now access.now.entries path.new) }
    ensures shorter { OnOk result (length path.new.steps.items + 1 ≡ length path.old.steps.items) }
{
    match path.steps.pop() {
        Some(step) => leave(&mut path.known, step.undo),
        None => Ok(()),
    }
}

/// Takes classes away until the last one is that of this name, or none is left; and whether it is.
fn leave_until(app: &App, access: &Accesses, path: &mut Path, name: &Name) -> Result<bool, Memory>
    requires { IsPath app.now access.now.entries path.old }
    ensures { IfOk result (λ found. Stands app.now access.now.entries (if found then up app.now name.now else [])
        path.new.steps.items (known_in path.new.known)) }
{
    'steps: while !path.steps.is_empty() {
        if stands_at(app, access, path, name) {
            return Ok(true);
        }
        leave_last(app, access, path)?;
    }
    Ok(false)
}

/// Takes all classes away.
fn leave_all(app: &App, access: &Accesses, path: &mut Path) -> Result<(), Memory>
    requires { IsPath app.now access.now.entries path.old }
    ensures { OnOk result (Stands app.now access.now.entries [] path.new.steps.items (known_in path.new.known)) }
{
    'steps: while !path.steps.is_empty() {
        leave_last(app, access, path)?;
    }
    Ok(())
}

/// Puts the class of this name behind the last one, which is its superclass.
pub fn step_down(
    alloc: Global,
    app: &App,
    access: &Accesses,
    path: &mut Path,
    class: &Name,
) -> Result<(), Memory>
    ensures { OnOk result ((k : AppClass) (above : List AppClass) → k.name ≡ class.now → up app.now k.name ≡ k ∷ above
        → Stands app.now access.now.entries above path.old.steps.items (known_in path.old.known)
        → Stands app.now access.now.entries (k ∷ above) path.new.steps.items (known_in path.new.known)) }
{
    let name = class.copy()?;
    let undo = enter(alloc, &mut path.known, class, methods_of(access, class))?;
    path.steps.push(Step { class: name, undo })?;
    Ok(())
}

/// The names of the classes from this one upward along superclasses.
fn way_up(alloc: Global, app: &App, name: &Name) -> Result<Vec<Name>, Memory>
    requires { SoundApp app.now }
    ensures { IfOk result (λ v. v.items ≡ map (λ k. k.name) (up app.now name.now)) }
{
    let mut way = Vec::new(alloc);
    add_upward(app, name, &mut way)?;
    Ok(way)
}

/// Goes from no class to the one of this name, by the classes above it.
#[tactic(auto, using(crate::proofs::Standing::climb_begins, crate::proofs::Standing::climb_goes_on, crate::proofs::Standing::climb_done))]
fn climb_down(
    alloc: Global,
    app: &App,
    access: &Accesses,
    path: &mut Path,
    name: &Name,
) -> Result<(), Memory>
    requires sound { SoundApp app.now }
    requires ground { Stands app.now access.now.entries [] path.old.steps.items (known_in path.old.known) }
    ensures { OnOk result (Stands app.now access.now.entries (up app.now name.now)
        path.new.steps.items (known_in path.new.known)) }
{
    let mut way = way_up(alloc, app, name)?;
    while let Some(class) = way.pop() {
        step_down(alloc, app, access, path, &class)?;
    }
    Ok(())
}

/// Goes to the superclass. From a class below it that costs the classes in between; from elsewhere those above it.
pub fn go_to(
    alloc: Global,
    app: &App,
    access: &Accesses,
    path: &mut Path,
    superclass: &Option<Name>,
) -> Result<(), Memory>
    requires sound { SoundApp app.now }
    requires path { IsPath app.now access.now.entries path.old }
    ensures { OnOk result (Stands app.now access.now.entries (classes_from app.now superclass.now) path.new.steps.items
        (known_in path.new.known)) }
{
    let Some(name) = superclass else {
        return leave_all(app, access, path);
    };
    if leave_until(app, access, path, name)? {
        return Ok(());
    }
    climb_down(alloc, app, access, path, name)
}

/// Whether one of the methods that are known runs in place of the method of the class.
pub fn is_known_hidden(path: &Path, class: &Name, method: &MethodAccess) -> Result<bool, Memory>
    ensures { IfOk result (λ b. b ≡ known_hides (known_in path.now.known) class.now method.now) }
{
    let key = signature_of(method)?;
    Ok(maybe_hides(path.known.get(&key), class, method))
}

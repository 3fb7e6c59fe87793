//! The members of classes, and who sees them.

ghost use Rattle.std.specs.Prelude.{◌≡◌, ◌++◌, IfOk, OnOk};
ghost use Rattle.link_access.specs.Access.{may_run, method_access, methods_of, field_named, fields_of};
ghost use Rattle.link_access.specs.Access.{class_access, with_class, with_classes, accesses_in};

use crate::flags::{says_interface, says_native, says_open, says_private, says_static};
use dex_tables::{Body, ClassDef, Dex, Member};
use link_listing::{descriptor, field_at, method_at, type_at};
use std::alloc::Global;
use std::collections::BTreeMap;
use vet_base::{Memory, Name, Seq};

/// A method with code, or a native one.
#[derive(Drop)]
pub struct MethodAccess {
    pub name: Name,
    pub descriptor: Name,
    pub is_static: bool,
    pub is_private: bool,
    /// Whether it is public or protected.
    pub is_open: bool,
}

/// The members of a class.
#[derive(Drop)]
pub struct ClassAccess {
    pub is_interface: bool,
    /// Those with code and the native ones: the direct ones, and then the virtual ones.
    pub methods: Seq<MethodAccess>,
    /// The name and the type of each static field.
    pub statics: Seq<(Name, Name)>,
}

#[tactic(auto, unfolding(crate::specs::Access::may_run))]
fn may_run(body: &Body) -> bool
    ensures { result ≡ may_run body.now }
{
    body.code.is_some() || says_native(body.flags)
}

#[tactic(auto, unfolding(crate::specs::Access::method_access))]
fn method_access(alloc: Global, dex: &Dex, body: &Body) -> Result<MethodAccess, Memory>
    ensures { IfOk result (λ a. a ≡ method_access dex.now body.now) }
{
    let at = method_at(alloc, dex, body.index)?;
    let descriptor = descriptor(alloc, &at.proto)?;
    Ok(MethodAccess {
        name: at.name,
        descriptor,
        is_static: says_static(body.flags),
        is_private: says_private(body.flags),
        is_open: says_open(body.flags),
    })
}

#[tactic(auto, unfolding(crate::specs::Access::methods_of))]
fn add_methods(
    alloc: Global,
    dex: &Dex,
    bodies: &[Body],
    methods: &mut Vec<MethodAccess>,
) -> Result<(), Memory>
    ensures { OnOk result (methods.new.items ≡ methods.old.items ++ methods_of dex.now bodies.now) }
{
    for body in bodies {
        if may_run(body) {
            methods.push(method_access(alloc, dex, body)?)?;
        }
    }
    Ok(())
}

#[tactic(auto, unfolding(crate::specs::Access::field_named))]
fn field_named(alloc: Global, dex: &Dex, member: &Member) -> Result<(Name, Name), Memory>
    ensures { IfOk result (λ f. f ≡ field_named dex.now member.now) }
{
    let (_, name, kind) = field_at(alloc, dex, member.index)?;
    Ok((name, kind))
}

#[tactic(auto, unfolding(crate::specs::Access::fields_of))]
fn fields_of(alloc: Global, dex: &Dex, members: &[Member]) -> Result<Vec<(Name, Name)>, Memory>
    ensures { IfOk result (λ v. v.items ≡ fields_of dex.now members.now) }
{
    let mut fields = Vec::new(alloc);
    for member in members {
        fields.push(field_named(alloc, dex, member)?)?;
    }
    Ok(fields)
}

#[tactic(auto, unfolding(crate::specs::Access::class_access))]
fn class_access(alloc: Global, dex: &Dex, def: &ClassDef) -> Result<ClassAccess, Memory>
    ensures { IfOk result (λ c. c ≡ class_access dex.now def.now) }
{
    let mut methods = Vec::new(alloc);
    add_methods(alloc, dex, def.directs.as_slice(), &mut methods)?;
    add_methods(alloc, dex, def.virtuals.as_slice(), &mut methods)?;
    let statics = fields_of(alloc, dex, def.statics.as_slice())?;
    Ok(ClassAccess {
        is_interface: says_interface(def.flags),
        methods: Seq::from_vec(methods),
        statics: Seq::from_vec(statics),
    })
}

/// Classes by name, in the order of names.
pub type Accesses = BTreeMap<Name, ClassAccess>;

#[tactic(auto, unfolding(crate::specs::Access::with_class, link_listing::specs::Orders::with_name))]
fn with_class(
    alloc: Global,
    dex: &Dex,
    def: &ClassDef,
    mut classes: Accesses,
) -> Result<Accesses, Memory>
    ensures { IfOk result (λ m. m.entries ≡ with_class dex.now classes.entries def.now) }
{
    let name = type_at(alloc, dex, def.class)?;
    let access = class_access(alloc, dex, def)?;
    classes.insert(name, access)?;
    Ok(classes)
}

#[tactic(auto, unfolding(crate::specs::Access::with_classes), using(link_hierarchy::proofs::FoldsOn::onto_begins, link_hierarchy::proofs::FoldsOn::onto_goes_on, link_hierarchy::proofs::FoldsOn::onto_is_done))]
fn with_classes(alloc: Global, dex: &Dex, mut classes: Accesses) -> Result<Accesses, Memory>
    ensures { IfOk result (λ m. m.entries ≡ with_classes classes.entries dex.now) }
{
    for def in dex.classes.as_slice() {
        classes = with_class(alloc, dex, def, classes)?;
    }
    Ok(classes)
}

/// The members of all classes, by the names of classes. Want of memory is the only error.
#[tactic(auto, unfolding(crate::specs::Access::accesses_in), using(link_hierarchy::proofs::FoldsOn::onto_begins, link_hierarchy::proofs::FoldsOn::onto_goes_on, link_hierarchy::proofs::FoldsOn::onto_is_done))]
pub fn accesses_of(alloc: Global, dexes: &[Dex]) -> Result<Accesses, Memory>
    ensures { IfOk result (λ m. m.entries ≡ accesses_in dexes.now) }
{
    let mut classes = BTreeMap::new(alloc);
    for dex in dexes {
        classes = with_classes(alloc, dex, classes)?;
    }
    Ok(classes)
}

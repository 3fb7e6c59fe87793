//! The classes of the files by name.

ghost use Rattle.std.specs.Prelude.{◌≡◌, ◌++◌, IfOk, OnOk};
ghost use Rattle.vet_base.specs.Script.{Gives};
ghost use Rattle.link_listing.specs.Classes.{all_classes, bare_of, bare_row, class_of, class_row, dex_classes, is_bare};
ghost use Rattle.std.specs.Option.{option_copied};
ghost use Rattle.link_listing.specs.Orders.{has_name, named, with_name};

use crate::fault::{Fault, Halt};
use crate::flags::{says_interface, says_native};
use crate::texts::{method_row_at, proto_at, text_at, type_at, types_at};
use app_model::{Class, Proto};
use dex_tables::{Body, ClassDef, Dex};
use std::alloc::Global;
use std::collections::BTreeMap;
use vet_base::{Memory, Name, Seq, Shared, Stop};

/// Classes by name, in the order of names.
pub type Classes = BTreeMap<Name, Class>;

/// Whether a class has that name.
#[tactic(auto, unfolding(crate::specs::Orders::named))]
pub fn holds_name(classes: &Classes, name: &Name) -> bool
    ensures { result ≡ has_name classes.now.entries name.now }
{
    classes.contains_key(name)
}

/// The class of that name, where there is one.
#[tactic(auto, unfolding(crate::specs::Orders::named))]
pub fn class_named<'a>(classes: &'a Classes, name: &Name) -> Option<&'a Class>
    ensures { option_copied result ≡ named classes.now.entries name.now }
{
    classes.get(name)
}

#[tactic(auto, unfolding(crate::specs::Orders::with_name))]
fn with_class(mut classes: Classes, name: Name, class: Class) -> Result<Classes, Memory>
    ensures { IfOk result (λ m. m.entries ≡ with_name classes.entries name class) }
{
    classes.insert(name, class)?;
    Ok(classes)
}

#[tactic(auto, unfolding(crate::specs::Classes::is_bare))]
fn has_nothing(body: &Body) -> bool
    ensures { result ≡ is_bare body.now }
{
    body.code.is_none() && !says_native(body.flags)
}

#[tactic(auto, unfolding(crate::specs::Classes::bare_row))]
fn bare_at(alloc: Global, dex: &Dex, body: &Body) -> Result<(Name, Proto), Memory>
    ensures { IfOk result (λ b. b ≡ bare_row dex.now body.now) }
{
    let row = method_row_at(dex, body.index);
    let name = text_at(alloc, dex, row.name)?;
    let proto = proto_at(alloc, dex, row.proto)?;
    Ok((name, proto))
}

#[tactic(auto, unfolding(crate::specs::Classes::bare_of))]
fn add_bare(
    alloc: Global,
    dex: &Dex,
    bodies: &[Body],
    bare: &mut Vec<(Name, Proto)>,
) -> Result<(), Memory>
    ensures { OnOk result (bare.new.items ≡ bare.old.items ++ bare_of dex.now bodies.now) }
{
    for body in bodies {
        if has_nothing(body) {
            bare.push(bare_at(alloc, dex, body)?)?;
        }
    }
    Ok(())
}

#[tactic(auto, unfolding(crate::specs::Classes::class_of))]
fn class_at(alloc: Global, dex: &Dex, def: &ClassDef) -> Result<Class, Memory>
    ensures { IfOk result (λ c. c ≡ class_of dex.now def.now) }
{
    let name = type_at(alloc, dex, def.class)?;
    let superclass = match def.superclass {
        Some(above) => Some(type_at(alloc, dex, above)?),
        None => None,
    };
    let interfaces = types_at(alloc, dex, def.interfaces.as_slice())?;
    let mut bare = Vec::new(alloc);
    add_bare(alloc, dex, def.directs.as_slice(), &mut bare)?;
    add_bare(alloc, dex, def.virtuals.as_slice(), &mut bare)?;
    Ok(Class {
        name,
        superclass,
        interfaces,
        is_interface: says_interface(def.flags),
        outer: Shared::new(),
        bare: Seq::from_vec(bare),
    })
}

#[tactic(auto, unfolding(crate::specs::Classes::class_row), using(vet_base::proofs::Scripts::run_bind))]
fn add_class(alloc: Global, dex: &Dex, def: &ClassDef, classes: Classes) -> Result<Classes, Halt>
    ensures { Gives (λ m. m.entries) result (class_row dex.now def.now classes.entries) }
{
    let name = type_at(alloc, dex, def.class)?;
    if holds_name(&classes, &name) {
        return Err(Stop::Fault(Fault::TwoClasses(name)));
    }
    let class = class_at(alloc, dex, def)?;
    Ok(with_class(classes, name, class)?)
}

#[tactic(auto, unfolding(crate::specs::Classes::dex_classes), using(vet_base::proofs::Eaches::each_begins, vet_base::proofs::Eaches::each_goes_on, vet_base::proofs::Eaches::each_fails, vet_base::proofs::Eaches::each_is_done))]
fn add_classes(alloc: Global, dex: &Dex, mut classes: Classes) -> Result<Classes, Halt>
    ensures { Gives (λ m. m.entries) result (dex_classes dex.now classes.entries) }
{
    for def in dex.classes.as_slice() {
        classes = add_class(alloc, dex, def, classes)?;
    }
    Ok(classes)
}

/// The classes of all files.
#[tactic(auto, unfolding(crate::specs::Classes::all_classes), using(vet_base::proofs::Eaches::each_begins, vet_base::proofs::Eaches::each_goes_on, vet_base::proofs::Eaches::each_fails, vet_base::proofs::Eaches::each_is_done))]
pub fn classes_of(alloc: Global, dexes: &[Dex]) -> Result<Classes, Halt>
    ensures { Gives (λ m. m.entries) result (all_classes dexes.now) }
{
    let mut classes = BTreeMap::new(alloc);
    for dex in dexes {
        classes = add_classes(alloc, dex, classes)?;
    }
    Ok(classes)
}

//! Classes above those of the app that are not listed, and static fields of library classes.

ghost use Rattle.std.specs.Prelude.{◌≡◌, ◌++◌, IfOk, OnOk, filter, map};
ghost use Rattle.app_machine.specs.Sound.{SoundApp};
ghost use Rattle.outcomes.specs.Causes.{is_app_class};
ghost use Rattle.device_causes.specs.Libraries.{is_unlisted, unlisted_above, unlisted_classes, statics_in};
ghost use Rattle.device_causes.specs.Libraries.{defined_statics, listed_statics, is_foreign, is_unknown, mark_of};
ghost use Rattle.device_causes.specs.Libraries.{put_mark, got_mark, touches, is_touching, spot_of, spots_in};
ghost use Rattle.device_causes.specs.Libraries.{static_spots};
ghost use Rattle.device_causes.specs.Sets.{IsListOf, IsSetOf};

use crate::platform::{is_library_class, library_names};
use crate::sets::{NameSet, TripleSet};
use app_machine::{Act, App, Class, Lists, Method, Step};
use app_model::is_reference;
use link_access::{Accesses, ClassAccess};
use link_listing::Triple;
use outcomes::class_names;
use std::alloc::Global;
use vet_base::{Memory, Name};

/// The set of the names of the app's classes.
#[tactic(auto, using(crate::proofs::NameSets::set_as))]
pub fn app_names(alloc: Global, app: &App) -> Result<NameSet, Memory>
    ensures { IfOk result (λ s. IsSetOf s (map (λ c. c.name) app.now.classes)) }
{
    let names = class_names(alloc, app.classes.as_slice())?;
    NameSet::new(alloc, names)
}

/// Whether a class of the app has this name.
#[tactic(auto, using(crate::proofs::Known::app_by_set))]
pub fn is_app_class(app: &App, names: &NameSet, name: &Name) -> bool
    requires { IsSetOf names.now (map (λ c. c.name) app.now.classes) }
    ensures { result ≡ is_app_class app.now name.now }
{
    names.has(name)
}

/// The names of classes of app and library.
#[derive(Drop)]
struct Known {
    of_app: NameSet,
    of_library: NameSet,
}

#[tactic(auto, unfolding(crate::specs::Libraries::is_unlisted))]
fn is_unlisted(app: &App, lists: &Lists, known: &Known, name: &Name) -> bool
    requires app { IsSetOf known.now.of_app (map (λ c. c.name) app.now.classes) }
    requires library { IsSetOf known.now.of_library (map (λ c. c.name) lists.now.classes) }
    ensures { result ≡ is_unlisted app.now lists.now name.now }
{
    !is_app_class(app, &known.of_app, name) && !is_library_class(lists, &known.of_library, name)
}

/// Puts those of the names that are not listed behind the others.
fn add_unlisted(
    app: &App,
    lists: &Lists,
    known: &Known,
    names: &[Name],
    found: &mut Vec<Name>,
) -> Result<(), Memory>
    requires app { IsSetOf known.now.of_app (map (λ c. c.name) app.now.classes) }
    requires library { IsSetOf known.now.of_library (map (λ c. c.name) lists.now.classes) }
    ensures { OnOk result (found.new.items ≡ found.old.items ++ filter (is_unlisted app.now lists.now) names.now) }
{
    for name in names {
        if is_unlisted(app, lists, known, name) {
            found.push(name.copy()?)?;
        }
    }
    Ok(())
}

/// Puts those of the classes directly above that are not listed behind the others.
fn add_above(
    app: &App,
    lists: &Lists,
    known: &Known,
    class: &Class,
    found: &mut Vec<Name>,
) -> Result<(), Memory>
    requires app { IsSetOf known.now.of_app (map (λ c. c.name) app.now.classes) }
    requires library { IsSetOf known.now.of_library (map (λ c. c.name) lists.now.classes) }
    ensures { OnOk result (found.new.items ≡ found.old.items ++ unlisted_above app.now lists.now class.now) }
{
    add_unlisted(app, lists, known, class.superclass.as_slice(), found)?;
    add_unlisted(app, lists, known, class.interfaces.as_slice(), found)
}

/// The classes above those of the app that neither the app nor the lists have.
#[tactic(auto, unfolding(crate::specs::Libraries::unlisted_classes))]
pub fn unlisted_classes(alloc: Global, app: &App, lists: &Lists) -> Result<Vec<Name>, Memory>
    ensures { IfOk result (λ v. v.items ≡ unlisted_classes app.now lists.now) }
{
    let of_app = app_names(alloc, app)?;
    let of_library = library_names(alloc, lists)?;
    let known = Known { of_app, of_library };
    let mut found = Vec::new(alloc);
    for class in app.classes.as_slice() {
        add_above(app, lists, &known, class, &mut found)?;
    }
    Ok(found)
}

#[tactic(auto, unfolding(crate::specs::Libraries::statics_in))]
fn add_statics(name: &Name, class: &ClassAccess, statics: &mut Vec<Triple>) -> Result<(), Memory>
    ensures { OnOk result (statics.new.items ≡ statics.old.items ++ statics_in (name.now, class.now)) }
{
    for field in class.statics.as_slice() {
        statics.push((name.copy()?, field.0.copy()?, field.1.copy()?))?;
    }
    Ok(())
}

/// The static fields that the classes of the app define.
#[tactic(auto, unfolding(crate::specs::Libraries::defined_statics))]
fn defined_statics(alloc: Global, access: &Accesses) -> Result<Vec<Triple>, Memory>
    ensures { IfOk result (λ v. v.items ≡ defined_statics access.now.entries) }
{
    let mut statics = Vec::new(alloc);
    for (name, class) in access {
        add_statics(name, class, &mut statics)?;
    }
    Ok(statics)
}

#[tactic(auto, unfolding(crate::specs::Libraries::listed_statics))]
fn listed_statics(alloc: Global, lists: &Lists) -> Result<Vec<Triple>, Memory>
    ensures { IfOk result (λ v. v.items ≡ listed_statics lists.now) }
{
    let mut statics = Vec::new(alloc);
    for row in lists.statics.as_slice() {
        statics.push((row.class.copy()?, row.name.copy()?, row.kind.copy()?))?;
    }
    Ok(statics)
}

/// The static fields of app and lists.
#[derive(Drop)]
struct Fields {
    defined: TripleSet,
    listed: TripleSet,
}

#[tactic(auto, unfolding(crate::specs::Libraries::is_foreign), using(crate::proofs::Known::foreign_by_set))]
fn is_foreign(access: &Accesses, fields: &Fields, field: &Triple) -> bool
    requires { IsListOf fields.now.defined (defined_statics access.now.entries) }
    ensures { result ≡ is_foreign access.now.entries field.now }
{
    !fields.defined.has(field)
}

#[tactic(auto, unfolding(crate::specs::Libraries::is_unknown), using(crate::proofs::Known::unknown_by_set))]
fn is_unknown(access: &Accesses, lists: &Lists, fields: &Fields, field: &Triple) -> bool
    requires defined { IsListOf fields.now.defined (defined_statics access.now.entries) }
    requires listed { IsListOf fields.now.listed (listed_statics lists.now) }
    ensures { result ≡ is_unknown access.now.entries lists.now field.now }
{
    is_reference(&field.2) && is_foreign(access, fields, field) && !fields.listed.has(field)
}

/// Whether an instruction that puts to a static field touches it, and one that gets it.
type Mark = (bool, bool);

fn marks_of(
    alloc: Global,
    app: &App,
    access: &Accesses,
    lists: &Lists,
    fields: &Fields,
) -> Result<Vec<Mark>, Memory>
    requires defined { IsListOf fields.now.defined (defined_statics access.now.entries) }
    requires listed { IsListOf fields.now.listed (listed_statics lists.now) }
    ensures { IfOk result (λ v. v.items ≡ map (mark_of access.now.entries lists.now) app.now.statics) }
{
    let mut marks = Vec::new(alloc);
    for field in app.statics.as_slice() {
        let put = is_foreign(access, fields, field);
        let got = is_unknown(access, lists, fields, field);
        marks.push((put, got))?;
    }
    Ok(marks)
}

/// The mark of each static field of the app.
#[tactic(auto, using(crate::proofs::NameSets::list_as))]
fn static_marks(
    alloc: Global,
    app: &App,
    access: &Accesses,
    lists: &Lists,
) -> Result<Vec<Mark>, Memory>
    ensures { IfOk result (λ v. v.items ≡ map (mark_of access.now.entries lists.now) app.now.statics) }
{
    let defined = TripleSet::new(alloc, defined_statics(alloc, access)?)?;
    let listed = TripleSet::new(alloc, listed_statics(alloc, lists)?)?;
    let fields = Fields { defined, listed };
    marks_of(alloc, app, access, lists, &fields)
}

fn put_mark(marks: &[Mark], g: u32) -> bool
    ensures { result ≡ put_mark marks.now g }
{
    match marks.get(g as usize) {
        Some(mark) => mark.0,
        None => false,
    }
}

fn got_mark(marks: &[Mark], g: u32) -> bool
    ensures { result ≡ got_mark marks.now g }
{
    match marks.get(g as usize) {
        Some(mark) => mark.1,
        None => false,
    }
}

#[tactic(auto, unfolding(crate::specs::Libraries::touches), using(crate::proofs::Marks::put_marked, crate::proofs::Marks::got_marked))]
fn touches(app: &App, access: &Accesses, lists: &Lists, marks: &[Mark], act: &Act) -> bool
    requires { marks.now ≡ map (mark_of access.now.entries lists.now) app.now.statics }
    ensures { result ≡ touches app.now access.now.entries lists.now act.now }
{
    match act {
        Act::PutStatic(g, _) => put_mark(marks, *g),
        Act::GetStatic(_, g) => got_mark(marks, *g),
        _ => false,
    }
}

#[tactic(auto, unfolding(crate::specs::Libraries::is_touching))]
fn is_touching(app: &App, access: &Accesses, lists: &Lists, marks: &[Mark], step: &Step) -> bool
    requires { marks.now ≡ map (mark_of access.now.entries lists.now) app.now.statics }
    ensures { result ≡ is_touching app.now access.now.entries lists.now step.now }
{
    touches(app, access, lists, marks, &step.act)
}

/// The number of a method, and an address there.
pub type Spot = (u32, u32);

fn spot_of(i: u32, step: &Step) -> Spot
    ensures { result ≡ spot_of i step.now }
{
    (i, step.pc)
}

#[tactic(auto, unfolding(crate::specs::Libraries::spots_in))]
fn add_spots(
    app: &App,
    access: &Accesses,
    lists: &Lists,
    marks: &[Mark],
    i: u32,
    method: &Method,
    spots: &mut Vec<Spot>,
) -> Result<(), Memory>
    requires { marks.now ≡ map (mark_of access.now.entries lists.now) app.now.statics }
    ensures { OnOk result (spots.new.items ≡ spots.old.items
        ++ spots_in app.now access.now.entries lists.now i method.now) }
{
    for step in method.steps.as_slice() {
        if is_touching(app, access, lists, marks, step) {
            spots.push(spot_of(i, step))?;
        }
    }
    Ok(())
}

/// The instructions that put to a static field which no class of the app defines, or get one of a reference type that
/// is not listed either.
#[tactic(auto, unfolding(crate::specs::Libraries::static_spots), using(crate::proofs::Marks::spots_begin, crate::proofs::Marks::spots_go_on, crate::proofs::Marks::spots_done))]
pub fn static_spots(
    alloc: Global,
    app: &App,
    access: &Accesses,
    lists: &Lists,
) -> Result<Vec<Spot>, Memory>
    requires { SoundApp app.now }
    ensures { IfOk result (λ v. v.items ≡ static_spots app.now access.now.entries lists.now) }
{
    let marks = static_marks(alloc, app, access, lists)?;
    let mut spots = Vec::new(alloc);
    for (i, method) in app.methods.as_slice().iter().enumerate() {
        add_spots(app, access, lists, &marks, i as u32, method, &mut spots)?;
    }
    Ok(spots)
}

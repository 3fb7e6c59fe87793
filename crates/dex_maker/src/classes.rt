ghost use Rattle.std.specs.Prelude.{◌≡◌, ◌≤◌, ◌++◌, ◌+◌, ◌<◌, map, true, false, length, OnOk, IfOk};
ghost use Rattle.std.specs.Option.{option_map};
ghost use Rattle.std.specs.List.{sum_by};
ghost use Rattle.dex_maker.specs.Codes.{raw_code};
ghost use Rattle.dex_writer.specs.Tables.{type_index};
ghost use Rattle.dex_maker.specs.Classes.{has_flag, begins_with_angle, is_static, is_direct, is_of};
ghost use Rattle.dex_maker.specs.Classes.{members_from, bodies_from, class_def, class_defs_from};
ghost use Rattle.dex_maker.specs.Classes.{code_width, method_width, unit_count, member_total};

use crate::codes::code_of;
use crate::listing::{ListedClass, ListedCode, ListedField, ListedMethod};
use dex_tables::{Body, ClassDef, Member, RawCode};
use dex_writer::Tables;
use std::alloc::Global;
use vet_base::{Memory, Name, Seq};

const STATIC: u32 = 0x8;

const PRIVATE: u32 = 0x2;

fn has_flag(flag: u32, flags: u32) -> bool
    requires { 0 < flag }
    ensures { result ≡ has_flag flag flags }
{
    flags / flag % 2 == 1
}

fn begins_with_angle(name: &Name) -> bool
    ensures { result ≡ begins_with_angle name.now }
{
    match name.as_bytes() {
        [] => false,
        [first, ..] => *first == b'<',
    }
}

fn is_static(field: &ListedField) -> bool
    ensures { result ≡ is_static field.now }
{
    has_flag(STATIC, field.flags)
}

fn is_direct(method: &ListedMethod) -> bool
    ensures { result ≡ is_direct method.now }
{
    has_flag(STATIC, method.flags)
        || has_flag(PRIVATE, method.flags)
        || begins_with_angle(&method.name)
}

fn is_of(kind: bool, wanted: bool) -> bool
    ensures { result ≡ is_of kind wanted }
{
    if kind { wanted } else { !wanted }
}

/// The static fields, or the others. The first field of the class has this row.
fn members_of(
    alloc: Global,
    fields: &[ListedField],
    first: u32,
    statics: bool,
) -> Result<Vec<Member>, Memory>
    requires { first + length fields.now ≤ 400000 }
    ensures { IfOk result (λ v. v.items ≡ members_from statics first fields.now) }
{
    let mut members = Vec::new(alloc);
    let mut index = first;
    for field in fields {
        if is_of(statics, is_static(field)) {
            let flags = field.flags;
            members.push(Member { index, flags })?;
        }
        index += 1;
    }
    Ok(members)
}

fn maybe_code_of(
    alloc: Global,
    tables: &Tables,
    code: &Option<ListedCode>,
) -> Result<Option<RawCode>, Memory>
    requires { code_width code.now ≤ 8388608 }
    ensures { IfOk result (λ x. x ≡ option_map (raw_code tables.now) code.now) }
{
    match code {
        None => Ok(None),
        Some(code) => Ok(Some(code_of(alloc, tables, code)?)),
    }
}

/// The direct methods, or the others. The first method of the class has this row.
#[tactic(auto, using(crate::proofs::Sums::term_below))]
fn bodies_of(
    alloc: Global,
    tables: &Tables,
    methods: &[ListedMethod],
    first: u32,
    directs: bool,
) -> Result<Vec<Body>, Memory>
    requires rows { first + length methods.now ≤ 400000 }
    requires units { sum_by method_width methods.now ≤ 8388608 }
    ensures { IfOk result (λ v. v.items ≡ bodies_from tables.now directs first methods.now) }
{
    let mut bodies = Vec::new(alloc);
    let mut index = first;
    for method in methods {
        if is_of(directs, is_direct(method)) {
            let code = maybe_code_of(alloc, tables, &method.code)?;
            let flags = method.flags;
            bodies.push(Body { index, flags, code })?;
        }
        index += 1;
    }
    Ok(bodies)
}

fn types_of(alloc: Global, tables: &Tables, names: &[Name]) -> Result<Vec<u32>, Memory>
    ensures { IfOk result (λ v. v.items ≡ map (type_index tables.now) names.now) }
{
    let mut types = Vec::new(alloc);
    for name in names {
        types.push(tables.type_index(name))?;
    }
    Ok(types)
}

fn maybe_type_of(tables: &Tables, name: &Option<Name>) -> Option<u32>
    ensures { result ≡ option_map (type_index tables.now) name.now }
{
    match name {
        None => None,
        Some(name) => Some(tables.type_index(name)),
    }
}

/// A class whose first field and first method have these rows.
#[tactic(auto, unfolding(crate::specs::Classes::class_def))]
fn class_of(
    alloc: Global,
    tables: &Tables,
    class: &ListedClass,
    field: u32,
    method: u32,
) -> Result<ClassDef, Memory>
    requires fields { field + length class.now.fields ≤ 400000 }
    requires methods { method + length class.now.methods ≤ 400000 }
    requires units { sum_by method_width class.now.methods ≤ 8388608 }
    ensures { IfOk result (λ x. x ≡ class_def tables.now field method class.now) }
{
    let fields = class.fields.as_slice();
    let methods = class.methods.as_slice();
    let statics = members_of(alloc, fields, field, true)?;
    let instances = members_of(alloc, fields, field, false)?;
    let directs = bodies_of(alloc, tables, methods, method, true)?;
    let virtuals = bodies_of(alloc, tables, methods, method, false)?;
    Ok(ClassDef {
        class: tables.type_index(&class.name),
        flags: class.flags,
        superclass: maybe_type_of(tables, &class.superclass),
        interfaces: Seq::from_vec(types_of(alloc, tables, class.interfaces.as_slice())?),
        statics: Seq::from_vec(statics),
        instances: Seq::from_vec(instances),
        directs: Seq::from_vec(directs),
        virtuals: Seq::from_vec(virtuals),
    })
}

/// The classes of a listing.
#[tactic(auto, unfolding(crate::specs::Classes::unit_count, crate::specs::Classes::member_total), using(crate::proofs::Sums::term_below))]
pub fn classes_of(
    alloc: Global,
    tables: &Tables,
    classes: &[ListedClass],
) -> Result<Vec<ClassDef>, Memory>
    requires units { unit_count classes.now ≤ 8388608 }
    requires members { member_total classes.now ≤ 400000 }
    ensures { IfOk result (λ v. v.items ≡ class_defs_from tables.now 0 0 classes.now) }
{
    let mut rows = Vec::new(alloc);
    let mut field = 0u32;
    let mut method = 0u32;
    for class in classes {
        rows.push(class_of(alloc, tables, class, field, method)?)?;
        field += class.fields.len() as u32;
        method += class.methods.len() as u32;
    }
    Ok(rows)
}

ghost use Rattle.std.specs.Prelude.{◌≡◌, ◌==◌, ◌++◌, ◌<◌, ◌^◌, ◌+◌, ◌-◌, length, OnOk, IfOk, if◌then◌else◌};
ghost use Rattle.std.specs.List.{flat_map};
ghost use Rattle.dex_writer.specs.Bytes.{uleb_bytes, type_list, padding_of};
ghost use Rattle.dex_writer.specs.Placed.{offset_of};
ghost use Rattle.dex_writer.specs.ClassData.{members_bytes, maybe_code, body_code, bodies_bytes, virtuals_at};
ghost use Rattle.dex_writer.specs.ClassData.{class_code, class_item, class_data, code_begin, data_begin, class_bytes};
ghost use Rattle.dex_writer.specs.ClassData.{code_and_data, index_or_none, class_head, class_row, placed_row};

use crate::bytes::{put_padding, put_type_list, put_u4, put_uleb};
use crate::code_item::put_code;
use dex_tables::{Body, ClassDef, Member, RawCode};
use std::alloc::Global;
use vet_base::Memory;

/// What stands for no index.
const NO_INDEX: usize = 0xFFFF_FFFF;

fn put_member(out: &mut Vec<u8>, before: u32, member: Member) -> Result<(), Memory>
    ensures { OnOk result (out.new.items ≡ out.old.items ++ uleb_bytes (member.index - before)
        ++ uleb_bytes member.flags) }
{
    put_uleb(out, member.index.saturating_sub(before) as usize)?;
    put_uleb(out, member.flags as usize)
}

fn put_members(out: &mut Vec<u8>, members: &[Member]) -> Result<(), Memory>
    ensures { OnOk result (out.new.items ≡ out.old.items ++ members_bytes 0 members.now) }
{
    let mut before = 0;
    for member in members {
        put_member(out, before, *member)?;
        before = member.index;
    }
    Ok(())
}

fn put_maybe_code(alloc: Global, data: &mut Vec<u8>, code: &Option<RawCode>) -> Result<(), Memory>
    ensures { OnOk result (data.new.items ≡ data.old.items ++ maybe_code code.now) }
{
    match code {
        None => Ok(()),
        Some(code) => put_code(alloc, data, code),
    }
}

/// The offset of what was put between two lengths of the data, 0 for nothing.
pub fn place_of(base: usize, begin: usize, end: usize) -> usize
    requires base { base < 2 ^ 32 }
    requires begin { begin < 2 ^ 63 }
    ensures { result ≡ (if begin == end then 0 else base + begin) }
{
    if begin == end { 0 } else { base + begin }
}

/// The code of a method, and its offset where the data begins at `base`.
fn put_body_code(
    alloc: Global,
    data: &mut Vec<u8>,
    base: usize,
    body: &Body,
) -> Result<usize, Memory>
    requires { base < 2 ^ 32 }
    ensures data { OnOk result (data.new.items ≡ data.old.items ++ body_code body.now) }
    ensures place { IfOk result (λ place. place ≡ offset_of (base + length data.old.items) (body_code body.now)) }
{
    let begin = data.len();
    put_maybe_code(alloc, data, &body.code)?;
    Ok(place_of(base, begin, data.len()))
}

fn put_body_row(rows: &mut Vec<u8>, before: u32, body: &Body, place: usize) -> Result<(), Memory>
    ensures { OnOk result (rows.new.items ≡ rows.old.items ++ uleb_bytes (body.now.index - before)
        ++ uleb_bytes body.now.flags ++ uleb_bytes place) }
{
    put_uleb(rows, body.index.saturating_sub(before) as usize)?;
    put_uleb(rows, body.flags as usize)?;
    put_uleb(rows, place)
}

/// The code of some methods into the data, which begins at `base`, and the rows that tell where.
fn put_bodies(
    alloc: Global,
    rows: &mut Vec<u8>,
    data: &mut Vec<u8>,
    base: usize,
    bodies: &[Body],
) -> Result<(), Memory>
    requires { base < 2 ^ 32 }
    ensures data { OnOk result (data.new.items ≡ data.old.items ++ flat_map body_code bodies.now) }
    ensures rows { OnOk result (rows.new.items ≡ rows.old.items ++ bodies_bytes 0 (base + length data.old.items)
        bodies.now) }
{
    let mut before = 0;
    for body in bodies {
        let place = put_body_code(alloc, data, base, body)?;
        put_body_row(rows, before, body, place)?;
        before = body.index;
    }
    Ok(())
}

fn put_counts(out: &mut Vec<u8>, class: &ClassDef) -> Result<(), Memory>
    ensures { OnOk result (out.new.items ≡ out.old.items ++ uleb_bytes (length class.now.statics)
        ++ uleb_bytes (length class.now.instances)
        ++ uleb_bytes (length class.now.directs) ++ uleb_bytes (length class.now.virtuals)) }
{
    put_uleb(out, class.statics.len())?;
    put_uleb(out, class.instances.len())?;
    put_uleb(out, class.directs.len())?;
    put_uleb(out, class.virtuals.len())
}

/// The rows of a class's methods, direct and virtual.
#[derive(Drop)]
struct MethodRows {
    directs: Vec<u8>,
    virtuals: Vec<u8>,
}

/// The code of a class into the data, which begins at `base`, and the rows of its methods.
#[tactic(auto, unfolding(crate::specs::ClassData::virtuals_at, crate::specs::ClassData::class_code))]
fn put_class_code(
    alloc: Global,
    data: &mut Vec<u8>,
    base: usize,
    class: &ClassDef,
) -> Result<MethodRows, Memory>
    requires { base < 2 ^ 32 }
    ensures data { OnOk result (data.new.items ≡ data.old.items ++ class_code class.now) }
    ensures directs { IfOk result (λ r. r.directs.items ≡ bodies_bytes 0 (base + length data.old.items)
        class.now.directs) }
    ensures virtuals { IfOk result (λ r. r.virtuals.items ≡ bodies_bytes 0
        (virtuals_at (base + length data.old.items) class.now)
        class.now.virtuals) }
{
    let mut directs = Vec::new(alloc);
    put_bodies(alloc, &mut directs, data, base, class.directs.as_slice())?;
    let mut virtuals = Vec::new(alloc);
    put_bodies(alloc, &mut virtuals, data, base, class.virtuals.as_slice())?;
    Ok(MethodRows { directs, virtuals })
}

/// The class data of a class whose methods have these rows.
#[tactic(auto, unfolding(crate::specs::ClassData::class_item))]
fn put_class_item(out: &mut Vec<u8>, class: &ClassDef, methods: &MethodRows) -> Result<(), Memory>
    ensures { OnOk result (out.new.items ≡ out.old.items ++ class_item class.now methods.now.directs.items
        methods.now.virtuals.items) }
{
    put_counts(out, class)?;
    put_members(out, class.statics.as_slice())?;
    put_members(out, class.instances.as_slice())?;
    out.extend_from_slice(&methods.directs)?;
    out.extend_from_slice(&methods.virtuals)?;
    Ok(())
}

/// The interfaces of a class into the data, which begins at `base`, and their offset.
fn put_interfaces(data: &mut Vec<u8>, base: usize, class: &ClassDef) -> Result<usize, Memory>
    requires { base < 2 ^ 32 }
    ensures data { OnOk result (data.new.items ≡ data.old.items ++ type_list class.now.interfaces) }
    ensures place { IfOk result (λ place. place ≡ offset_of (base + length data.old.items)
        (type_list class.now.interfaces)) }
{
    let begin = data.len();
    put_type_list(data, class.interfaces.as_slice())?;
    Ok(place_of(base, begin, data.len()))
}

/// A class data item and its padding.
fn put_padded_item(out: &mut Vec<u8>, class: &ClassDef, methods: &MethodRows) -> Result<(), Memory>
    ensures { OnOk result (out.new.items ≡ out.old.items ++ class_item class.now methods.now.directs.items
        methods.now.virtuals.items
        ++ padding_of (length (class_item class.now methods.now.directs.items methods.now.virtuals.items))) }
{
    let begin = out.len();
    put_class_item(out, class, methods)?;
    let len = out.len().saturating_sub(begin);
    put_padding(out, len)
}

/// The code and the class data of a class into the data, which begins at `base`, and the offset of the class data.
#[tactic(auto, unfolding(crate::specs::ClassData::class_data, crate::specs::ClassData::code_and_data))]
fn put_class_data(
    alloc: Global,
    data: &mut Vec<u8>,
    base: usize,
    class: &ClassDef,
) -> Result<usize, Memory>
    requires { base < 2 ^ 32 }
    ensures data { OnOk result (data.new.items ≡ data.old.items ++ code_and_data (base + length data.old.items)
        class.now) }
    ensures place { IfOk result (λ place. place ≡ base + length data.old.items + length (class_code class.now)) }
{
    let methods = put_class_code(alloc, data, base, class)?;
    let place = base + data.len();
    put_padded_item(data, class, &methods)?;
    Ok(place)
}

fn index_or_none_of(index: Option<u32>) -> usize
    ensures { result ≡ index_or_none index }
{
    match index {
        None => NO_INDEX,
        Some(index) => index as usize,
    }
}

#[tactic(auto, unfolding(crate::specs::ClassData::class_head))]
fn put_class_head(rows: &mut Vec<u8>, class: &ClassDef) -> Result<(), Memory>
    ensures { OnOk result (rows.new.items ≡ rows.old.items ++ class_head class.now) }
{
    put_u4(rows, class.class as usize)?;
    put_u4(rows, class.flags as usize)?;
    put_u4(rows, index_or_none_of(class.superclass))
}

#[tactic(auto, unfolding(crate::specs::ClassData::class_row))]
fn put_class_row(
    rows: &mut Vec<u8>,
    class: &ClassDef,
    interfaces: usize,
    place: usize,
) -> Result<(), Memory>
    ensures { OnOk result (rows.new.items ≡ rows.old.items ++ class_row class.now interfaces place) }
{
    put_class_head(rows, class)?;
    put_u4(rows, interfaces)?;
    put_u4(rows, NO_INDEX)?;
    put_u4(rows, 0)?;
    put_u4(rows, place)?;
    put_u4(rows, 0)
}

/// The interfaces, the code and the class data of a class into the data, which begins at `base`; its row, which says
/// where they stand, into the rows.
#[tactic(auto, unfolding(crate::specs::ClassData::class_bytes, crate::specs::ClassData::placed_row, crate::specs::ClassData::code_begin, crate::specs::ClassData::data_begin))]
pub fn put_class(
    alloc: Global,
    rows: &mut Vec<u8>,
    data: &mut Vec<u8>,
    base: usize,
    class: &ClassDef,
) -> Result<(), Memory>
    requires { base < 2 ^ 32 }
    ensures data { OnOk result (data.new.items ≡ data.old.items ++ class_bytes (base + length data.old.items)
        class.now) }
    ensures rows { OnOk result (rows.new.items ≡ rows.old.items ++ placed_row (base + length data.old.items)
        class.now) }
{
    let interfaces = put_interfaces(data, base, class)?;
    let place = put_class_data(alloc, data, base, class)?;
    put_class_row(rows, class, interfaces, place)
}

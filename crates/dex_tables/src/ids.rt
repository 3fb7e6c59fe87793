ghost use Rattle.std.specs.Prelude.{◌≡◌, ◌<◌, ◌^◌, length};
ghost use Rattle.vet_base.specs.Script.{Gives};
ghost use Rattle.dex_tables.specs.Tables.{type_row, types_at, proto_row, protos_at};
ghost use Rattle.dex_tables.specs.Tables.{field_row, fields_at, method_row, methods_at};

use crate::dex::{FieldId, MethodRow, ProtoId};
use crate::fault::{ReadError, Table};
use crate::header::Section;
use crate::parts::{test_index, u2_of, u4_of};
use crate::place::{Place, Sizes};
use crate::type_lists::{NamedList, type_list_of};
use std::alloc::Global;
use vet_base::Seq;

#[tactic(auto, unfolding(crate::specs::Tables::type_row), using(vet_base::proofs::Scripts::run_bind))]
fn type_of(
    file: &[u8],
    sizes: Sizes,
    table: u32,
    row: u32,
    at: u32,
) -> Result<(u32, u32), ReadError>
    requires { length file.now < 2 ^ 32 }
    ensures { Gives (λ x. x) result (type_row file.now sizes table row at) }
{
    let (index, at) = u4_of(file, at, table)?;
    test_index(index, sizes.strings, Table::TypeIds, row)?;
    Ok((index, at))
}

/// The type ids of a table that lies within the file.
pub fn types_of(
    alloc: Global,
    file: &[u8],
    sizes: Sizes,
    table: Section,
) -> Result<(Seq<u32>, u32), ReadError>
    requires { length file.now < 2 ^ 32 }
    ensures { Gives (λ x. x) result (types_at file.now sizes table) }
{
    let mut types = Vec::with_capacity(alloc, table.size as usize)?;
    let mut at = table.at;
    for row in 0..table.size {
        let (id, next) = type_of(file, sizes, table.at, row, at)?;
        types.push(id)?;
        at = next;
    }
    Ok((Seq::from_vec(types), at))
}

#[tactic(auto, unfolding(crate::specs::Tables::proto_row), using(vet_base::proofs::Scripts::run_bind))]
fn proto_of(
    alloc: Global,
    file: &[u8],
    sizes: Sizes,
    table: u32,
    row: u32,
    place: Place,
) -> Result<(ProtoId, Place), ReadError>
    requires { length file.now < 2 ^ 32 }
    ensures { Gives (λ x. x) result (proto_row file.now sizes table row place) }
{
    let (shorty, at) = u4_of(file, place.at, table)?;
    test_index(shorty, sizes.strings, Table::ProtoIds, row)?;
    let (ret, at) = u4_of(file, at, table)?;
    test_index(ret, sizes.types, Table::ProtoIds, row)?;
    let (offset, at) = u4_of(file, at, table)?;
    let list = NamedList {
        table: Table::ProtoIds,
        row,
        at: offset,
    };
    let (params, total) = type_list_of(alloc, file, sizes.types, list, place.total)?;
    Ok((ProtoId { ret, params }, Place { at, total }))
}

/// The proto ids of a table that lies within the file, and the entries of type lists with theirs.
pub fn protos_of(
    alloc: Global,
    file: &[u8],
    sizes: Sizes,
    table: Section,
    total: u32,
) -> Result<(Seq<ProtoId>, Place), ReadError>
    requires { length file.now < 2 ^ 32 }
    ensures { Gives (λ x. x) result (protos_at file.now sizes table total) }
{
    let mut protos = Vec::with_capacity(alloc, table.size as usize)?;
    let mut place = Place {
        at: table.at,
        total,
    };
    for row in 0..table.size {
        let (id, next) = proto_of(alloc, file, sizes, table.at, row, place)?;
        protos.push(id)?;
        place = next;
    }
    Ok((Seq::from_vec(protos), place))
}

#[tactic(auto, unfolding(crate::specs::Tables::field_row), using(vet_base::proofs::Scripts::run_bind))]
fn field_of(
    file: &[u8],
    sizes: Sizes,
    table: u32,
    row: u32,
    at: u32,
) -> Result<(FieldId, u32), ReadError>
    requires { length file.now < 2 ^ 32 }
    ensures { Gives (λ x. x) result (field_row file.now sizes table row at) }
{
    let (class, at) = u2_of(file, at, table)?;
    let class = u32::from(class);
    test_index(class, sizes.types, Table::FieldIds, row)?;
    let (kind, at) = u2_of(file, at, table)?;
    let kind = u32::from(kind);
    test_index(kind, sizes.types, Table::FieldIds, row)?;
    let (name, at) = u4_of(file, at, table)?;
    test_index(name, sizes.strings, Table::FieldIds, row)?;
    Ok((FieldId { class, kind, name }, at))
}

/// The field ids of a table that lies within the file.
pub fn fields_of(
    alloc: Global,
    file: &[u8],
    sizes: Sizes,
    table: Section,
) -> Result<(Seq<FieldId>, u32), ReadError>
    requires { length file.now < 2 ^ 32 }
    ensures { Gives (λ x. x) result (fields_at file.now sizes table) }
{
    let mut fields = Vec::with_capacity(alloc, table.size as usize)?;
    let mut at = table.at;
    for row in 0..table.size {
        let (id, next) = field_of(file, sizes, table.at, row, at)?;
        fields.push(id)?;
        at = next;
    }
    Ok((Seq::from_vec(fields), at))
}

#[tactic(auto, unfolding(crate::specs::Tables::method_row), using(vet_base::proofs::Scripts::run_bind))]
fn method_of(
    file: &[u8],
    sizes: Sizes,
    table: u32,
    row: u32,
    at: u32,
) -> Result<(MethodRow, u32), ReadError>
    requires { length file.now < 2 ^ 32 }
    ensures { Gives (λ x. x) result (method_row file.now sizes table row at) }
{
    let (class, at) = u2_of(file, at, table)?;
    let class = u32::from(class);
    test_index(class, sizes.types, Table::MethodIds, row)?;
    let (proto, at) = u2_of(file, at, table)?;
    let proto = u32::from(proto);
    test_index(proto, sizes.protos, Table::MethodIds, row)?;
    let (name, at) = u4_of(file, at, table)?;
    test_index(name, sizes.strings, Table::MethodIds, row)?;
    Ok((MethodRow { class, proto, name }, at))
}

/// The method ids of a table that lies within the file.
pub fn methods_of(
    alloc: Global,
    file: &[u8],
    sizes: Sizes,
    table: Section,
) -> Result<(Seq<MethodRow>, u32), ReadError>
    requires { length file.now < 2 ^ 32 }
    ensures { Gives (λ x. x) result (methods_at file.now sizes table) }
{
    let mut methods = Vec::with_capacity(alloc, table.size as usize)?;
    let mut at = table.at;
    for row in 0..table.size {
        let (id, next) = method_of(file, sizes, table.at, row, at)?;
        methods.push(id)?;
        at = next;
    }
    Ok((Seq::from_vec(methods), at))
}

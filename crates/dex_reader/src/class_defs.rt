ghost use Rattle.std.specs.Prelude.{◌≡◌, ◌<◌, ◌^◌, length};
ghost use Rattle.vet_base.specs.Script.{Gives};
ghost use Rattle.dex_reader.specs.ClassDefs.{superclass_of, superclass_at, data_offset_at, class_row, class_rows_at};

use dex_tables::{
    Fault, Limit, NamedList, Place, ReadError, Section, Table, test_index, type_list_of, u4_of,
};
use std::alloc::Global;
use vet_base::{Seq, Stop};

const CLASS_DEFS: u32 = 65_536;
/// The index that stands for no superclass.
const NO_INDEX: u32 = 0xFFFF_FFFF;

/// A row of `class_defs`, with its number. A class-data offset of 0 stands for a class with no members.
#[derive(Drop)]
pub struct ClassRow {
    pub row: u32,
    pub class: u32,
    pub flags: u32,
    pub superclass: Option<u32>,
    pub interfaces: Seq<u32>,
    pub class_data: u32,
}

#[tactic(auto, unfolding(crate::specs::ClassDefs::superclass_of))]
fn superclass_in(index: u32) -> Option<u32>
    ensures { result ≡ superclass_of index }
{
    if index == NO_INDEX { None } else { Some(index) }
}

#[tactic(auto, unfolding(crate::specs::ClassDefs::superclass_at), using(vet_base::proofs::Scripts::run_bind))]
fn superclass_at_of(
    file: &[u8],
    types: u32,
    table: u32,
    row: u32,
    at: u32,
) -> Result<(Option<u32>, u32), ReadError>
    requires { length file.now < 2 ^ 32 }
    ensures { Gives (λ x. x) result (superclass_at file.now types table row at) }
{
    let (superclass, at) = u4_of(file, at, table)?;
    if superclass != NO_INDEX && superclass >= types {
        return Err(Stop::Fault(Fault::Index(Table::ClassDefs, row)));
    }
    Ok((superclass_in(superclass), at))
}

#[tactic(auto, unfolding(crate::specs::ClassDefs::data_offset_at), using(vet_base::proofs::Scripts::run_bind))]
fn data_offset_of(file: &[u8], table: u32, at: u32) -> Result<(u32, u32), ReadError>
    requires { length file.now < 2 ^ 32 }
    ensures { Gives (λ x. x) result (data_offset_at file.now table at) }
{
    let (_source, at) = u4_of(file, at, table)?;
    let (_annotations, at) = u4_of(file, at, table)?;
    let (class_data, at) = u4_of(file, at, table)?;
    let (_statics, at) = u4_of(file, at, table)?;
    Ok((class_data, at))
}

#[tactic(auto, unfolding(crate::specs::ClassDefs::class_row), using(vet_base::proofs::Scripts::run_bind))]
fn class_row_of(
    alloc: Global,
    file: &[u8],
    types: u32,
    table: u32,
    row: u32,
    place: Place,
) -> Result<(ClassRow, Place), ReadError>
    requires { length file.now < 2 ^ 32 }
    ensures { Gives (λ x. x) result (class_row file.now types table row place) }
{
    let (class, at) = u4_of(file, place.at, table)?;
    test_index(class, types, Table::ClassDefs, row)?;
    let (flags, at) = u4_of(file, at, table)?;
    let (superclass, at) = superclass_at_of(file, types, table, row, at)?;
    let (offset, at) = u4_of(file, at, table)?;
    let list = NamedList {
        table: Table::ClassDefs,
        row,
        at: offset,
    };
    let (interfaces, total) = type_list_of(alloc, file, types, list, place.total)?;
    if row >= CLASS_DEFS {
        return Err(Stop::Fault(Fault::TooMany(Limit::ClassDefs)));
    }
    let (class_data, at) = data_offset_of(file, table, at)?;
    let found = ClassRow {
        row,
        class,
        flags,
        superclass,
        interfaces,
        class_data,
    };
    Ok((found, Place { at, total }))
}

/// The rows of a table that lies within the file, and the entries of type lists with theirs.
pub fn class_rows_of(
    alloc: Global,
    file: &[u8],
    types: u32,
    table: Section,
    total: u32,
) -> Result<(Vec<ClassRow>, Place), ReadError>
    requires { length file.now < 2 ^ 32 }
    ensures { Gives (λ x. (x.0.items, x.1)) result (class_rows_at file.now types table total) }
{
    let mut rows = Vec::with_capacity(alloc, table.size as usize)?;
    let mut place = Place {
        at: table.at,
        total,
    };
    for row in 0..table.size {
        let (class, next) = class_row_of(alloc, file, types, table.at, row, place)?;
        rows.push(class)?;
        place = next;
    }
    Ok((rows, place))
}

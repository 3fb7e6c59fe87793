ghost use Rattle.std.specs.Prelude.{◌≡◌, ◌<◌, ◌^◌, length};
ghost use Rattle.vet_base.specs.Script.{Gives};
ghost use Rattle.dex_reader.specs.Whole.{sizes_of, names_at, member_ids_at, ids_at};
ghost use Rattle.dex_reader.specs.Whole.{file_at, dex_at, dex_of as whole_of};

use crate::class_defs::class_rows_of;
use crate::classes::classes_of;
use dex_tables::{
    ClassDef, Dex, FieldId, Header, MethodRow, ProtoId, ReadError, Sizes, fields_of, header_of,
    methods_of, protos_of, strings_of, test_table, types_of,
};
use std::alloc::Global;
use vet_base::{Name, Seq};

/// The five id tables, and how many entries of type lists they name.
#[derive(Drop)]
pub struct Ids {
    pub strings: Seq<Name>,
    pub types: Seq<u32>,
    pub protos: Seq<ProtoId>,
    pub fields: Seq<FieldId>,
    pub methods: Seq<MethodRow>,
    pub listed: u32,
}

fn sizes_in(header: Header) -> Sizes
    ensures { result ≡ sizes_of header }
{
    Sizes {
        strings: header.strings.size,
        types: header.types.size,
        protos: header.protos.size,
        fields: header.fields.size,
        methods: header.methods.size,
    }
}

/// The strings, and the string that describes each type.
#[tactic(auto, unfolding(crate::specs::Whole::names_at), using(vet_base::proofs::Scripts::run_bind))]
fn names_of(
    alloc: Global,
    file: &[u8],
    header: Header,
    sizes: Sizes,
) -> Result<(Seq<Name>, Seq<u32>), ReadError>
    requires { length file.now < 2 ^ 32 }
    ensures { Gives (λ x. x) result (names_at file.now header sizes) }
{
    test_table(file, header.strings.size, header.strings.at, 4)?;
    let (strings, _) = strings_of(alloc, file, header.strings)?;
    test_table(file, header.types.size, header.types.at, 4)?;
    let (types, _) = types_of(alloc, file, sizes, header.types)?;
    Ok((strings, types))
}

/// The ids of fields and of methods.
#[tactic(auto, unfolding(crate::specs::Whole::member_ids_at), using(vet_base::proofs::Scripts::run_bind))]
fn member_ids_of(
    alloc: Global,
    file: &[u8],
    header: Header,
    sizes: Sizes,
) -> Result<(Seq<FieldId>, Seq<MethodRow>), ReadError>
    requires { length file.now < 2 ^ 32 }
    ensures { Gives (λ x. x) result (member_ids_at file.now header sizes) }
{
    test_table(file, header.fields.size, header.fields.at, 8)?;
    let (fields, _) = fields_of(alloc, file, sizes, header.fields)?;
    test_table(file, header.methods.size, header.methods.at, 8)?;
    let (methods, _) = methods_of(alloc, file, sizes, header.methods)?;
    Ok((fields, methods))
}

#[tactic(auto, unfolding(crate::specs::Whole::ids_at), using(vet_base::proofs::Scripts::run_bind))]
fn ids_of(alloc: Global, file: &[u8], header: Header, sizes: Sizes) -> Result<Ids, ReadError>
    requires { length file.now < 2 ^ 32 }
    ensures { Gives (λ x. x) result (ids_at file.now header sizes) }
{
    let (strings, types) = names_of(alloc, file, header, sizes)?;
    test_table(file, header.protos.size, header.protos.at, 12)?;
    let (protos, end) = protos_of(alloc, file, sizes, header.protos, 0)?;
    let (fields, methods) = member_ids_of(alloc, file, header, sizes)?;
    Ok(Ids {
        strings,
        types,
        protos,
        fields,
        methods,
        listed: end.total,
    })
}

/// The id tables and the classes as one value.
fn dex_with(ids: Ids, classes: Seq<ClassDef>) -> Dex
    ensures { result ≡ whole_of ids classes }
{
    Dex {
        strings: ids.strings,
        types: ids.types,
        protos: ids.protos,
        fields: ids.fields,
        methods: ids.methods,
        classes,
    }
}

#[tactic(auto, unfolding(crate::specs::Whole::file_at), using(vet_base::proofs::Scripts::run_bind))]
fn file_of(alloc: Global, file: &[u8], header: Header, sizes: Sizes) -> Result<Dex, ReadError>
    requires { length file.now < 2 ^ 32 }
    ensures { Gives (λ x. x) result (file_at file.now header sizes) }
{
    let ids = ids_of(alloc, file, header, sizes)?;
    let table = header.classes;
    test_table(file, table.size, table.at, 32)?;
    let (rows, _) = class_rows_of(alloc, file, sizes.types, table, ids.listed)?;
    let (classes, _) = classes_of(alloc, file, sizes, rows)?;
    Ok(dex_with(ids, classes))
}

/// What stands in the bytes of a file, of which those behind the file's size are not there.
#[tactic(auto, unfolding(crate::specs::Whole::dex_at), using(vet_base::proofs::Scripts::run_bind))]
pub fn dex_of(alloc: Global, bytes: &[u8]) -> Result<Dex, ReadError>
    ensures { Gives (λ x. x) result (dex_at bytes.now) }
{
    let header = header_of(bytes)?;
    let file = &bytes[..header.file_size as usize];
    file_of(alloc, file, header, sizes_in(header))
}

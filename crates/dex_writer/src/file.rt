ghost use Rattle.std.specs.Prelude.{◌≡◌, ◌==◌, ◌++◌, ◌<◌, ◌≤◌, ◌^◌, ◌+◌, ◌*◌, length, drop};
ghost use Rattle.std.specs.Prelude.{OnOk, IfOk, if◌then◌else◌, slice_index, replicate};
ghost use Rattle.std.specs.List.{flat_map};
ghost use Rattle.dex_writer.specs.Placed.{pieces, placed_rows, rows_of, offsets_of, offset_of};
ghost use Rattle.dex_writer.specs.Bytes.{u4_bytes, string_item};
ghost use Rattle.dex_writer.specs.ClassData.{class_bytes, placed_row};
ghost use Rattle.dex_writer.specs.File.{params_bytes, proto_row_bytes, member_row_bytes, types_at, protos_at};
ghost use Rattle.dex_writer.specs.File.{fields_at, methods_at, classes_at, data_at, params_data, class_begin};
ghost use Rattle.dex_writer.specs.File.{classes_data, strings_begin, strings_data, data_bytes, string_ids};
ghost use Rattle.dex_writer.specs.File.{proto_ids, class_defs, tables_bytes, section_bytes, header_begin};
ghost use Rattle.dex_writer.specs.File.{header_ids, header_bytes, file_bytes, AreShort};

use crate::bytes::{put_string, put_type_list, put_u2, put_u4, put_u4s};
use crate::class_data::{place_of, put_class};
use crate::id_row::IdRow;
use crate::tables::Tables;
use dex_tables::ClassDef;
use std::alloc::Global;
use vet_base::{Memory, Name};

const HEADER: usize = 112;

const MAGIC: [u8; 8] = [100, 101, 120, 10, 48, 51, 53, 0];

/// The strings into the data, which begins at `base`, and the rows that say where.
fn put_strings(
    rows: &mut Vec<u8>,
    data: &mut Vec<u8>,
    base: usize,
    strings: &[Name],
) -> Result<(), Memory>
    requires { base < 2 ^ 32 }
    ensures data { OnOk result (data.new.items ≡ data.old.items ++ flat_map string_item strings.now) }
    ensures rows { OnOk result (rows.new.items ≡ rows.old.items ++ flat_map u4_bytes
        (offsets_of string_item (base + length data.old.items) strings.now)) }
{
    for name in strings {
        put_u4(rows, base + data.len())?;
        put_string(data, name)?;
    }
    Ok(())
}

fn number(row: &IdRow, i: usize) -> u32
    ensures { result ≡ slice_index row.now i }
{
    row.numbers().get(i).copied().unwrap_or(0)
}

fn params_of(row: &IdRow) -> &[u32]
    ensures { result.now ≡ drop 2 row.now }
{
    let numbers = row.numbers();
    if numbers.len() < 2 {
        return &[];
    }
    &numbers[2..]
}

/// The parameters of a proto into the data, which begins at `base`, and their offset.
fn put_params(data: &mut Vec<u8>, base: usize, row: &IdRow) -> Result<usize, Memory>
    requires { base < 2 ^ 32 }
    ensures data { OnOk result (data.new.items ≡ data.old.items ++ params_bytes row.now) }
    ensures place { IfOk result (λ place. place ≡ offset_of (base + length data.old.items) (params_bytes row.now)) }
{
    let begin = data.len();
    put_type_list(data, params_of(row))?;
    Ok(place_of(base, begin, data.len()))
}

/// The parameters of a proto into the data, and its row.
#[tactic(auto, unfolding(crate::specs::File::proto_row_bytes))]
fn put_proto(rows: &mut Vec<u8>, data: &mut Vec<u8>, base: usize, row: &IdRow) -> Result<(), Memory>
    requires { base < 2 ^ 32 }
    ensures data { OnOk result (data.new.items ≡ data.old.items ++ params_bytes row.now) }
    ensures rows { OnOk result (rows.new.items ≡ rows.old.items ++ proto_row_bytes (base + length data.old.items)
        row.now) }
{
    let place = put_params(data, base, row)?;
    put_u4(rows, number(row, 0) as usize)?;
    put_u4(rows, number(row, 1) as usize)?;
    put_u4(rows, place)
}

fn put_protos(
    rows: &mut Vec<u8>,
    data: &mut Vec<u8>,
    base: usize,
    protos: &[IdRow],
) -> Result<(), Memory>
    requires { base < 2 ^ 32 }
    ensures data { OnOk result (data.new.items ≡ data.old.items ++ flat_map params_bytes protos.now) }
    ensures rows { OnOk result (rows.new.items ≡ rows.old.items ++ rows_of proto_row_bytes params_bytes
        (base + length data.old.items) protos.now) }
{
    for row in protos {
        put_proto(rows, data, base, row)?;
    }
    Ok(())
}

fn put_classes(
    alloc: Global,
    rows: &mut Vec<u8>,
    data: &mut Vec<u8>,
    base: usize,
    classes: &[ClassDef],
) -> Result<(), Memory>
    requires { base < 2 ^ 32 }
    ensures data { OnOk result (data.new.items ≡ data.old.items ++ pieces class_bytes (base + length data.old.items)
        classes.now) }
    ensures rows { OnOk result (rows.new.items ≡ rows.old.items ++ placed_rows placed_row class_bytes
        (base + length data.old.items) classes.now) }
{
    for class in classes {
        put_class(alloc, rows, data, base, class)?;
    }
    Ok(())
}

#[tactic(auto, unfolding(crate::specs::File::member_row_bytes))]
fn put_member_row(out: &mut Vec<u8>, row: &IdRow) -> Result<(), Memory>
    ensures { OnOk result (out.new.items ≡ out.old.items ++ member_row_bytes row.now) }
{
    put_u2(out, number(row, 0) as usize)?;
    put_u2(out, number(row, 1) as usize)?;
    put_u4(out, number(row, 2) as usize)
}

fn put_member_rows(out: &mut Vec<u8>, rows: &[IdRow]) -> Result<(), Memory>
    ensures { OnOk result (out.new.items ≡ out.old.items ++ flat_map member_row_bytes rows.now) }
{
    for row in rows {
        put_member_row(out, row)?;
    }
    Ok(())
}

/// The data, and the tables whose rows point into it.
#[derive(Drop)]
struct Parts {
    strings: Vec<u8>,
    protos: Vec<u8>,
    classes: Vec<u8>,
    bytes: Vec<u8>,
}

#[tactic(auto, unfolding(crate::specs::File::data_bytes, crate::specs::File::params_data, crate::specs::File::class_begin, crate::specs::File::classes_data, crate::specs::File::strings_begin, crate::specs::File::strings_data, crate::specs::File::string_ids, crate::specs::File::proto_ids, crate::specs::File::class_defs))]
fn parts_of(
    alloc: Global,
    base: usize,
    tables: &Tables,
    classes: &[ClassDef],
) -> Result<Parts, Memory>
    requires { base < 2 ^ 32 }
    ensures bytes { IfOk result (λ p. p.bytes.items ≡ data_bytes base tables.now classes.now) }
    ensures protos { IfOk result (λ p. p.protos.items ≡ proto_ids base tables.now) }
    ensures classes { IfOk result (λ p. p.classes.items ≡ class_defs base tables.now classes.now) }
    ensures strings { IfOk result (λ p. p.strings.items ≡ string_ids base tables.now classes.now) }
{
    let mut bytes = Vec::new(alloc);
    let mut protos = Vec::new(alloc);
    put_protos(&mut protos, &mut bytes, base, tables.protos.rows())?;
    let mut rows = Vec::new(alloc);
    put_classes(alloc, &mut rows, &mut bytes, base, classes)?;
    let mut strings = Vec::new(alloc);
    put_strings(&mut strings, &mut bytes, base, tables.strings.rows())?;
    Ok(Parts {
        strings,
        protos,
        classes: rows,
        bytes,
    })
}

/// Where the tables stand, in their order, and where the data behind them begins.
#[derive(Clone, Copy)]
struct Layout {
    types: usize,
    protos: usize,
    fields: usize,
    methods: usize,
    classes: usize,
    end: usize,
}

fn layout_of(tables: &Tables, classes: &[ClassDef]) -> Layout
    requires { AreShort tables.now classes.now }
    ensures types { result.types ≡ types_at tables.now }
    ensures protos { result.protos ≡ protos_at tables.now }
    ensures fields { result.fields ≡ fields_at tables.now }
    ensures methods { result.methods ≡ methods_at tables.now }
    ensures classes { result.classes ≡ classes_at tables.now }
    ensures end { result.end ≡ data_at tables.now classes.now }
    ensures small { result.end < 2 ^ 32 }
{
    let types = HEADER + 4 * tables.strings.rows().len();
    let protos = types + 4 * tables.types.rows().len();
    let fields = protos + 12 * tables.protos.rows().len();
    let methods = fields + 8 * tables.fields.rows().len();
    let class_defs = methods + 8 * tables.methods.rows().len();
    let end = class_defs + 32 * classes.len();
    Layout {
        types,
        protos,
        fields,
        methods,
        classes: class_defs,
        end,
    }
}

/// A size and an offset, which is 0 where there is nothing.
#[tactic(auto, unfolding(crate::specs::File::section_bytes))]
fn put_section(out: &mut Vec<u8>, size: usize, at: usize) -> Result<(), Memory>
    ensures { OnOk result (out.new.items ≡ out.old.items ++ section_bytes size at) }
{
    put_u4(out, size)?;
    put_u4(out, if size == 0 { 0 } else { at })
}

#[tactic(auto, unfolding(crate::specs::File::header_begin))]
fn put_header_begin(out: &mut Vec<u8>, file_size: usize) -> Result<(), Memory>
    ensures { OnOk result (out.new.items ≡ out.old.items ++ header_begin file_size) }
{
    out.extend_from_slice(&MAGIC)?;
    out.extend_from_slice(&[0; 24])?;
    put_u4(out, file_size)?;
    put_u4(out, HEADER)?;
    put_u4(out, 0x1234_5678)?;
    out.extend_from_slice(&[0; 12])?;
    Ok(())
}

#[tactic(auto, unfolding(crate::specs::File::header_ids))]
fn put_header_ids(out: &mut Vec<u8>, tables: &Tables, layout: Layout) -> Result<(), Memory>
    requires types { layout.types ≡ types_at tables.now }
    requires protos { layout.protos ≡ protos_at tables.now }
    requires fields { layout.fields ≡ fields_at tables.now }
    requires methods { layout.methods ≡ methods_at tables.now }
    ensures { OnOk result (out.new.items ≡ out.old.items ++ header_ids tables.now) }
{
    put_section(out, tables.strings.rows().len(), HEADER)?;
    put_section(out, tables.types.rows().len(), layout.types)?;
    put_section(out, tables.protos.rows().len(), layout.protos)?;
    put_section(out, tables.fields.rows().len(), layout.fields)?;
    put_section(out, tables.methods.rows().len(), layout.methods)
}

#[tactic(auto, unfolding(crate::specs::File::tables_bytes))]
fn put_tables(out: &mut Vec<u8>, tables: &Tables, parts: &Parts) -> Result<(), Memory>
    ensures { OnOk result (out.new.items ≡ out.old.items ++ tables_bytes tables.now parts.now.strings.items
        parts.now.protos.items parts.now.classes.items) }
{
    out.extend_from_slice(&parts.strings)?;
    put_u4s(out, tables.types.rows())?;
    out.extend_from_slice(&parts.protos)?;
    put_member_rows(out, tables.fields.rows())?;
    put_member_rows(out, tables.methods.rows())?;
    out.extend_from_slice(&parts.classes)?;
    Ok(())
}

/// The bytes of a file with these tables and these classes.
#[tactic(auto, unfolding(crate::specs::File::file_bytes, crate::specs::File::header_bytes))]
pub fn write_dex(alloc: Global, tables: &Tables, classes: &[ClassDef]) -> Result<Vec<u8>, Memory>
    requires { AreShort tables.now classes.now }
    ensures { IfOk result (λ v. v.items ≡ file_bytes tables.now classes.now) }
{
    let layout = layout_of(tables, classes);
    let parts = parts_of(alloc, layout.end, tables, classes)?;
    let mut out = Vec::new(alloc);
    put_header_begin(&mut out, layout.end + parts.bytes.len())?;
    put_header_ids(&mut out, tables, layout)?;
    put_section(&mut out, classes.len(), layout.classes)?;
    put_section(&mut out, parts.bytes.len(), layout.end)?;
    put_tables(&mut out, tables, &parts)?;
    out.extend_from_slice(&parts.bytes)?;
    Ok(out)
}

ghost use Rattle.std.specs.Prelude.{◌≡◌, ◌⊎◌};
ghost use Rattle.dex_reader.specs.Told.{shown, field_word, table_word, limit_word};

use dex_tables::{Fault, Field, Limit, Table};
use std::alloc::Global;
use vet_base::Name;

/// Why bytes are no DEX file: the first test that fails.
#[derive(Drop)]
pub enum DexFault {
    /// The first eight bytes are not the magic of version 035.
    Magic,
    /// A header field, by its name, has a refused value.
    Header(Name),
    /// The item at this offset does not end within the file's size.
    Outside(u32),
    /// An index is not below the size of its table, in this row of the table so named. For `class_data` it is the row
    /// of the class_def, for `handlers` and `tries` the offset of the code item.
    Index(Name, u32),
    /// No 0 byte follows the text at this offset.
    Text(u32),
    /// No LEB128 number stands at this offset.
    Leb(u32),
    /// There are more of these than the limit.
    TooMany(Name),
    /// Memory ran out.
    Memory,
}

#[tactic(auto, unfolding(crate::specs::Told::field_word))]
fn word_of_field(field: Field) -> &'static str
    ensures { result.now ≡ field_word field }
{
    match field {
        Field::FileSize => "file_size",
        Field::HeaderSize => "header_size",
        Field::EndianTag => "endian_tag",
    }
}

#[tactic(auto, unfolding(crate::specs::Told::table_word))]
fn word_of_table(table: Table) -> &'static str
    ensures { result.now ≡ table_word table }
{
    match table {
        Table::TypeIds => "type_ids",
        Table::ProtoIds => "proto_ids",
        Table::FieldIds => "field_ids",
        Table::MethodIds => "method_ids",
        Table::ClassDefs => "class_defs",
        Table::ClassData => "class_data",
        Table::Handlers => "handlers",
        Table::Tries => "tries",
    }
}

#[tactic(auto, unfolding(crate::specs::Told::limit_word))]
fn word_of_limit(limit: Limit) -> &'static str
    ensures { result.now ≡ limit_word limit }
{
    match limit {
        Limit::Names => "names",
        Limit::TypeLists => "type_lists",
        Limit::ClassDefs => "class_defs",
        Limit::ClassData => "class_data",
        Limit::Units => "units",
        Limit::Tries => "tries",
    }
}

/// The fault in the words of a report.
pub fn told_of(alloc: Global, fault: Fault) -> DexFault
    ensures { (result ≡ DexFault.Memory) ⊎ (result ≡ shown fault) }
{
    match fault {
        Fault::Magic => DexFault::Magic,
        Fault::Header(field) => match Name::from_bytes(alloc, word_of_field(field).as_bytes()) {
            Ok(name) => DexFault::Header(name),
            Err(_) => DexFault::Memory,
        },
        Fault::Outside(at) => DexFault::Outside(at),
        Fault::Index(table, row) => match Name::from_bytes(alloc, word_of_table(table).as_bytes()) {
            Ok(name) => DexFault::Index(name, row),
            Err(_) => DexFault::Memory,
        },
        Fault::Text(at) => DexFault::Text(at),
        Fault::Leb(at) => DexFault::Leb(at),
        Fault::TooMany(limit) => match Name::from_bytes(alloc, word_of_limit(limit).as_bytes()) {
            Ok(name) => DexFault::TooMany(name),
            Err(_) => DexFault::Memory,
        },
    }
}

ghost use Rattle.std.specs.Prelude.{◌≡◌, ◌≤◌, ◌⊎◌, length, codes, Some, None, IfOk, OnOk, IfErr};
ghost use Rattle.dex_maker.specs.declared.fault.MakeFault.TheVariants.{Memory as want_of_memory};
ghost use Rattle.dex_writer.specs.File.{AreShort};
ghost use Rattle.dex_maker.specs.Naming.{tables_of};
ghost use Rattle.dex_maker.specs.Made.{dex_bytes, long_table, table_name, fault_of, Makeable};

use crate::classes::classes_of;
use crate::fault::{IdTable, MakeFault};
use crate::fits::first_misfit;
use crate::listing::Listing;
use crate::naming::tables_of;
use dex_writer::{Tables, write_dex};
use std::alloc::Global;
use vet_base::{Memory, Name};

/// The first table, in the order of the header, with more rows than may be.
#[tactic(auto, unfolding(crate::specs::Made::long_table))]
fn long_table(tables: &Tables) -> Option<IdTable>
    ensures { result ≡ long_table tables.now }
{
    if tables.strings.rows().len() > 65536 {
        return Some(IdTable::Strings);
    }
    if tables.types.rows().len() > 65535 {
        return Some(IdTable::Types);
    }
    if tables.protos.rows().len() > 65535 {
        return Some(IdTable::Protos);
    }
    if tables.fields.rows().len() > 65536 {
        return Some(IdTable::Fields);
    }
    if tables.methods.rows().len() > 65536 {
        return Some(IdTable::Methods);
    }
    None
}

#[tactic(auto, unfolding(crate::specs::Made::table_name))]
fn table_text(table: IdTable) -> &'static str
    ensures { result.now ≡ table_name table }
{
    match table {
        IdTable::Strings => "string_ids",
        IdTable::Types => "type_ids",
        IdTable::Protos => "proto_ids",
        IdTable::Fields => "field_ids",
        IdTable::Methods => "method_ids",
    }
}

fn table_name(alloc: Global, table: IdTable) -> Result<Name, Memory>
    ensures { IfOk result (λ n. n ≡ table_name table) }
{
    Name::from_bytes(alloc, table_text(table).as_bytes())
}

/// The classes of a listing, or why there is no file of it.
#[tactic(auto, unfolding(crate::specs::Made::fault_of))]
fn checked(alloc: Global, listing: &Listing, tables: &Tables) -> Result<(), MakeFault>
    requires makeable { Makeable listing.now }
    requires tables { tables.now ≡ tables_of listing.now }
    ensures ok { OnOk result (fault_of listing.now ≡ None) }
    ensures short { OnOk result (long_table tables.now ≡ None) }
    ensures fault { IfErr result (λ e. (e ≡ want_of_memory) ⊎ (fault_of listing.now ≡ Some e)) }
{
    if let Some(table) = long_table(tables) {
        return Err(MakeFault::TooMany(table_name(alloc, table)?));
    }
    match first_misfit(alloc, listing.classes.as_slice())? {
        Some((method, line)) => Err(MakeFault::Range(method, line)),
        None => Ok(()),
    }
}

#[tactic(auto, unfolding(crate::specs::Made::dex_bytes))]
fn bytes_of(alloc: Global, listing: &Listing, tables: &Tables) -> Result<Vec<u8>, Memory>
    requires makeable { Makeable listing.now }
    requires tables { tables.now ≡ tables_of listing.now }
    requires short { long_table tables.now ≡ None }
    ensures { IfOk result (λ v. v.items ≡ dex_bytes listing.now) }
{
    let classes = classes_of(alloc, tables, listing.classes.as_slice())?;
    write_dex(alloc, tables, &classes)
}

/// The bytes of a DEX file with the classes of the listing, in its order. Checksum, signature and map offset are zero,
/// so no device takes the file.
///
/// It takes a listing of up to 65,536 classes, with up to 400,000 fields and methods and up to 8,388,608 units of code
/// in all of them: `is_makeable` tests that.
///
/// `TooMany` names the first id table, in the order of the header, that would need more than 65,535 types or protos or
/// more than 65,536 other rows. `Range` names the first line, by its method and then by its number, of which a part
/// does not fit its instruction's format.
pub fn make_dex(alloc: Global, listing: &Listing) -> Result<Vec<u8>, MakeFault>
    requires makeable { Makeable listing.now }
    // There is a file only without a fault, and it is the listing's.
    ensures without_fault { OnOk result (fault_of listing.now ≡ None) }
    ensures made { IfOk result (λ bytes. bytes.items ≡ dex_bytes listing.now) }
    ensures fault { IfErr result (λ e. (e ≡ want_of_memory) ⊎ (fault_of listing.now ≡ Some e)) }
{
    let tables = tables_of(alloc, listing)?;
    checked(alloc, listing, &tables)?;
    Ok(bytes_of(alloc, listing, &tables)?)
}

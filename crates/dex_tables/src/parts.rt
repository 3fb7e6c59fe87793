ghost use Rattle.std.specs.Prelude.{◌≡◌, ◌<◌, ◌≤◌, ◌^◌, ◌==◌, length, position, IfOk, IfSome};
ghost use Rattle.vet_base.specs.Script.{Gives};
ghost use Rattle.dex_tables.specs.Parts.{u2_at, u4_at, uleb_at, sleb_at, text_at, index_test, table_test};

use crate::fault::{Fault, ReadError, Table};
use std::alloc::Global;
use vet_base::{Name, Stop, read_sleb, read_u2, read_u4, read_uleb};

/// A `ushort` at an offset, least byte first, and the offset behind it. Past
/// the end of the file it is [`Fault::Outside`] of the item that it belongs to
/// (Dalvik Executable format, 'Bitfield, string, and constant definitions').
pub fn u2_of(file: &[u8], at: u32, item: u32) -> Result<(u16, u32), ReadError>
    requires { length file.now < 2 ^ 32 }
    ensures { Gives (λ x. x) result (u2_at file.now at item) }
{
    match read_u2(file, at as usize) {
        Some((value, next)) => Ok((value, next as u32)),
        None => Err(Stop::Fault(Fault::Outside(item))),
    }
}

/// A `uint` at an offset, as [`u2_of`].
pub fn u4_of(file: &[u8], at: u32, item: u32) -> Result<(u32, u32), ReadError>
    requires { length file.now < 2 ^ 32 }
    ensures { Gives (λ x. x) result (u4_at file.now at item) }
{
    match read_u4(file, at as usize) {
        Some((value, next)) => Ok((value, next as u32)),
        None => Err(Stop::Fault(Fault::Outside(item))),
    }
}

/// A `uleb128` at an offset, and the offset behind it, as `read_uleb` reads it. Where there is none it is
/// [`Fault::Leb`] of the offset (Dalvik Executable format, 'LEB128').
pub fn uleb_of(file: &[u8], at: u32) -> Result<(u32, u32), ReadError>
    requires { length file.now < 2 ^ 32 }
    ensures value { Gives (λ x. x) result (uleb_at file.now at) }
    ensures forward { IfOk result (λ x. at ≤ x.1) }
{
    match read_uleb(file, at as usize) {
        Some((value, next)) => Ok((value, next as u32)),
        None => Err(Stop::Fault(Fault::Leb(at))),
    }
}

/// An `sleb128`, as [`uleb_of`].
pub fn sleb_of(file: &[u8], at: u32) -> Result<(i32, u32), ReadError>
    requires { length file.now < 2 ^ 32 }
    ensures value { Gives (λ x. x) result (sleb_at file.now at) }
    ensures forward { IfOk result (λ x. at < x.1) }
{
    match read_sleb(file, at as usize) {
        Some((value, next)) => Ok((value, next as u32)),
        None => Err(Stop::Fault(Fault::Leb(at))),
    }
}

/// An index is below the size of its table. Else it is [`Fault::Index`] of the table and of the row that has it.
pub fn test_index(index: u32, size: u32, table: Table, row: u32) -> Result<(), ReadError>
    ensures { Gives (λ x. x) result (index_test index size table row) }
{
    if index >= size {
        return Err(Stop::Fault(Fault::Index(table, row)));
    }
    Ok(())
}

/// So many rows of that width lie within the file, or there are none.
#[tactic(auto, unfolding(crate::specs::Parts::table_test))]
pub fn test_table(file: &[u8], size: u32, at: u32, width: u32) -> Result<(), ReadError>
    requires { width < 64 }
    ensures { Gives (λ x. x) result (table_test file.now size at width) }
{
    if size != 0 && at as usize + size as usize * width as usize > file.len() {
        return Err(Stop::Fault(Fault::Outside(at)));
    }
    Ok(())
}

fn end_of(bytes: &[u8]) -> Option<usize>
    ensures value { result ≡ position (λ b. b == 0) bytes.now }
    ensures within { IfSome result (λ n. n ≤ length bytes.now) }
{
    bytes.iter().position(|b| *b == 0)
}

/// The bytes from an offset up to the first 0.
#[tactic(auto, unfolding(crate::specs::Parts::text_at))]
pub fn text_of(alloc: Global, file: &[u8], at: u32) -> Result<Name, ReadError>
    ensures { Gives (λ n. n) result (text_at file.now at) }
{
    let start = at as usize;
    if start >= file.len() {
        return Err(Stop::Fault(Fault::Text(at)));
    }
    let rest = &file[start..];
    match end_of(rest) {
        Some(len) => Ok(Name::from_bytes(alloc, &rest[..len])?),
        None => Err(Stop::Fault(Fault::Text(at))),
    }
}

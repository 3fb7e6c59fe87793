ghost use Rattle.std.specs.Prelude.{◌≡◌, ◌<◌, ◌^◌, length};
ghost use Rattle.vet_base.specs.Script.{Gives};
ghost use Rattle.dex_tables.specs.TypeLists.{place, entry_row, entries_at, listed_at, type_list_at};

use crate::fault::{Fault, Limit, ReadError, Table};
use crate::parts::{test_index, u2_of, u4_of};
use crate::place::Place;
use std::alloc::Global;
use vet_base::{Seq, Stop};

const TYPE_LISTS: u32 = 4_000_000;

/// A list of types: the row that names it, and the offset that the row gives. Offset 0 stands for the list of nothing.
#[derive(Clone, Copy)]
pub struct NamedList {
    pub table: Table,
    pub row: u32,
    pub at: u32,
}

#[tactic(auto, unfolding(crate::specs::TypeLists::entry_row), using(vet_base::proofs::Scripts::run_bind))]
fn entry_of(
    file: &[u8],
    types: u32,
    list: NamedList,
    place: Place,
) -> Result<(u32, Place), ReadError>
    requires { length file.now < 2 ^ 32 }
    ensures { Gives (λ x. x) result (entry_row file.now types list.table list.row list.at place) }
{
    let (index, at) = u2_of(file, place.at, list.at)?;
    test_index(u32::from(index), types, list.table, list.row)?;
    if place.total >= TYPE_LISTS {
        return Err(Stop::Fault(Fault::TooMany(Limit::TypeLists)));
    }
    let total = place.total + 1;
    Ok((u32::from(index), Place { at, total }))
}

fn entries_of(
    alloc: Global,
    file: &[u8],
    types: u32,
    list: NamedList,
    size: u32,
    begin: Place,
) -> Result<(Seq<u32>, Place), ReadError>
    requires { length file.now < 2 ^ 32 }
    ensures { Gives (λ x. x) result (entries_at file.now types list.table list.row list.at size begin) }
{
    let mut entries = Vec::with_capacity(alloc, size as usize)?;
    let mut place = begin;
    for _ in 0..size {
        let (index, next) = entry_of(file, types, list, place)?;
        entries.push(index)?;
        place = next;
    }
    Ok((Seq::from_vec(entries), place))
}

#[tactic(auto, unfolding(crate::specs::TypeLists::listed_at), using(vet_base::proofs::Scripts::run_bind))]
fn listed_of(
    alloc: Global,
    file: &[u8],
    types: u32,
    list: NamedList,
    total: u32,
) -> Result<(Seq<u32>, u32), ReadError>
    requires { length file.now < 2 ^ 32 }
    ensures { Gives (λ x. x) result (listed_at file.now types list.table list.row list.at total) }
{
    let (size, at) = u4_of(file, list.at, list.at)?;
    if at as usize + 2 * size as usize > file.len() {
        return Err(Stop::Fault(Fault::Outside(list.at)));
    }
    let (entries, place) = entries_of(alloc, file, types, list, size, Place { at, total })?;
    Ok((entries, place.total))
}

/// The types in a list, and the entries of all lists so far.
#[tactic(auto, unfolding(crate::specs::TypeLists::type_list_at))]
pub fn type_list_of(
    alloc: Global,
    file: &[u8],
    types: u32,
    list: NamedList,
    total: u32,
) -> Result<(Seq<u32>, u32), ReadError>
    requires { length file.now < 2 ^ 32 }
    ensures { Gives (λ x. x) result (type_list_at file.now types list.table list.row list.at total) }
{
    if list.at == 0 {
        return Ok((Seq::new(alloc), total));
    }
    listed_of(alloc, file, types, list, total)
}

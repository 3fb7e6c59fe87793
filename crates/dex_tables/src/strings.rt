ghost use Rattle.std.specs.Prelude.{◌≡◌, ◌<◌, ◌^◌, length};
ghost use Rattle.vet_base.specs.Script.{Gives};
ghost use Rattle.dex_tables.specs.Tables.{string_row, strings_at};

use crate::fault::{Fault, Limit, ReadError};
use crate::header::Section;
use crate::parts::{text_of, u4_of, uleb_of};
use crate::place::Place;
use std::alloc::Global;
use vet_base::{Name, Seq, Stop};

const NAMES: usize = 33_554_432;

#[tactic(auto, unfolding(crate::specs::Tables::string_row), using(vet_base::proofs::Scripts::run_bind))]
fn string_of(
    alloc: Global,
    file: &[u8],
    table: u32,
    place: Place,
) -> Result<(Name, Place), ReadError>
    requires { length file.now < 2 ^ 32 }
    ensures { Gives (λ x. x) result (string_row file.now table place) }
{
    let (offset, at) = u4_of(file, place.at, table)?;
    let (_, begin) = uleb_of(file, offset)?;
    let name = text_of(alloc, file, begin)?;
    let total = place.total as usize + name.as_bytes().len();
    if total > NAMES {
        return Err(Stop::Fault(Fault::TooMany(Limit::Names)));
    }
    let total = total as u32;
    Ok((name, Place { at, total }))
}

/// The names of a table that lies within the file.
pub fn strings_of(
    alloc: Global,
    file: &[u8],
    table: Section,
) -> Result<(Seq<Name>, Place), ReadError>
    requires { length file.now < 2 ^ 32 }
    ensures { Gives (λ x. x) result (strings_at file.now table) }
{
    let mut names = Vec::with_capacity(alloc, table.size as usize)?;
    let mut place = Place {
        at: table.at,
        total: 0,
    };
    for _ in 0..table.size {
        let (name, next) = string_of(alloc, file, table.at, place)?;
        names.push(name)?;
        place = next;
    }
    Ok((Seq::from_vec(names), place))
}

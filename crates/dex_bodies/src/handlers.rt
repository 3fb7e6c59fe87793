ghost use Rattle.std.specs.Prelude.{◌≡◌, ◌<◌, ◌≤◌, ◌^◌, length, IfOk};
ghost use Rattle.vet_base.specs.Script.{Gives};
ghost use Rattle.dex_bodies.specs.Handlers.{pair_row, pairs_at, pair_count, catches_all, handler_size_at};
ghost use Rattle.dex_bodies.specs.Handlers.{catch_all_at, handler_row, handler_rows_at};
ghost use Rattle.dex_bodies.specs.Rising.{AreRising};

use dex_tables::{Fault, Limit, Place, ReadError, Table, sleb_of, test_index, uleb_of};
use std::alloc::Global;
use vet_base::{Shared, Stop};

/// How many try items, handlers and pairs a file may have.
pub const TRIES: u32 = 1_000_000;

/// A handler: its offset in the file, pairs of type and address, and the address for all other types.
#[derive(Drop)]
pub struct Handler {
    pub at: u32,
    pub pairs: Shared<(u32, u32)>,
    pub catch_all: Option<u32>,
}

#[tactic(auto, unfolding(crate::specs::Handlers::pair_row), using(vet_base::proofs::Scripts::run_bind))]
fn pair_of(
    file: &[u8],
    types: u32,
    code: u32,
    place: Place,
) -> Result<((u32, u32), Place), ReadError>
    requires { length file.now < 2 ^ 32 }
    ensures value { Gives (λ x. x) result (pair_row file.now types code place) }
    ensures forward { IfOk result (λ x. place.at ≤ x.1.at) }
{
    let (kind, at) = uleb_of(file, place.at)?;
    test_index(kind, types, Table::Handlers, code)?;
    let (address, at) = uleb_of(file, at)?;
    if place.total >= TRIES {
        return Err(Stop::Fault(Fault::TooMany(Limit::Tries)));
    }
    let total = place.total + 1;
    Ok(((kind, address), Place { at, total }))
}

fn pairs_of(
    alloc: Global,
    file: &[u8],
    types: u32,
    code: u32,
    count: u32,
    begin: Place,
) -> Result<(Shared<(u32, u32)>, Place), ReadError>
    requires { length file.now < 2 ^ 32 }
    ensures value { Gives (λ x. x) result (pairs_at file.now types code count begin) }
    ensures forward { IfOk result (λ x. begin.at ≤ x.1.at) }
{
    let mut pairs = Vec::new(alloc);
    let mut place = begin;
    for _ in 0..count {
        let (pair, next) = pair_of(file, types, code, place)?;
        pairs.push(pair)?;
        place = next;
    }
    let pairs = Shared::from_vec(alloc, pairs)?;
    Ok((pairs, place))
}

/// The size of a handler as it is written says how many pairs it has, and whether an address for all types follows.
#[derive(Clone, Copy)]
pub struct HandlerSize {
    pub pairs: u32,
    pub catches_all: bool,
    pub at: u32,
}

#[tactic(auto, unfolding(crate::specs::Handlers::pair_count))]
fn count_of(size: i32) -> u32
    ensures { result ≡ pair_count size }
{
    size.unsigned_abs()
}

#[tactic(auto, unfolding(crate::specs::Handlers::catches_all))]
fn has_catch_all(size: i32) -> bool
    ensures { result ≡ catches_all size }
{
    size <= 0
}

#[tactic(auto, unfolding(crate::specs::Handlers::handler_size_at), using(vet_base::proofs::Scripts::run_bind))]
fn handler_size_of(file: &[u8], at: u32) -> Result<HandlerSize, ReadError>
    requires { length file.now < 2 ^ 32 }
    ensures value { Gives (λ x. x) result (handler_size_at file.now at) }
    ensures forward { IfOk result (λ x. at < x.at) }
{
    let (size, at) = sleb_of(file, at)?;
    Ok(HandlerSize {
        pairs: count_of(size),
        catches_all: has_catch_all(size),
        at,
    })
}

#[tactic(auto, unfolding(crate::specs::Handlers::catch_all_at), using(vet_base::proofs::Scripts::run_bind))]
fn catch_all_of(file: &[u8], catches: bool, at: u32) -> Result<(Option<u32>, u32), ReadError>
    requires { length file.now < 2 ^ 32 }
    ensures value { Gives (λ x. x) result (catch_all_at file.now catches at) }
    ensures forward { IfOk result (λ x. at ≤ x.1) }
{
    if !catches {
        return Ok((None, at));
    }
    let (address, next) = uleb_of(file, at)?;
    Ok((Some(address), next))
}

#[tactic(auto, unfolding(crate::specs::Handlers::handler_row), using(vet_base::proofs::Scripts::run_bind))]
fn handler_of(
    alloc: Global,
    file: &[u8],
    types: u32,
    code: u32,
    place: Place,
) -> Result<(Handler, Place), ReadError>
    requires { length file.now < 2 ^ 32 }
    ensures value { Gives (λ x. x) result (handler_row file.now types code place) }
    ensures begin { IfOk result (λ x. x.0.at ≡ place.at) }
    ensures forward { IfOk result (λ x. place.at < x.1.at) }
{
    let size = handler_size_of(file, place.at)?;
    let begin = Place {
        at: size.at,
        total: place.total,
    };
    let (pairs, end) = pairs_of(alloc, file, types, code, size.pairs, begin)?;
    let (catch_all, at) = catch_all_of(file, size.catches_all, end.at)?;
    if end.total >= TRIES {
        return Err(Stop::Fault(Fault::TooMany(Limit::Tries)));
    }
    let total = end.total + 1;
    let handler = Handler {
        at: place.at,
        pairs,
        catch_all,
    };
    Ok((handler, Place { at, total }))
}

/// So many handlers one behind the other, by rising offsets.
pub fn handlers_of(
    alloc: Global,
    file: &[u8],
    types: u32,
    code: u32,
    count: u32,
    begin: Place,
) -> Result<(Vec<Handler>, Place), ReadError>
    requires { length file.now < 2 ^ 32 }
    ensures value { Gives (λ x. (x.0.items, x.1)) result (handler_rows_at file.now types code count begin) }
    ensures rising { IfOk result (λ x. AreRising x.0.items x.1.at) }
{
    let mut handlers = Vec::new(alloc);
    let mut place = begin;
    for _ in 0..count {
        let (handler, next) = handler_of(alloc, file, types, code, place)?;
        handlers.push(handler)?;
        place = next;
    }
    Ok((handlers, place))
}

ghost use Rattle.std.specs.Prelude.{◌≡◌, ◌<◌, ◌≤◌, ◌^◌, ℕ, length};
ghost use Rattle.std.specs.Option.{option_copied};
ghost use Rattle.vet_base.specs.Script.{Gives};
ghost use Rattle.dex_bodies.specs.Handlers.{handler_at};
ghost use Rattle.dex_bodies.specs.Rising.{AreRising};
ghost use Rattle.dex_bodies.specs.Tries.{padding_of, tries_begin, try_row, try_rows_at};
ghost use Rattle.dex_bodies.specs.Tries.{try_of, joined_at, some_tries_at, tries_at};

use crate::handlers::{Handler, TRIES, handlers_of};
use dex_tables::{Fault, Limit, Place, RawTry, ReadError, Table, u2_of, u4_of, uleb_of};
use std::alloc::Global;
use vet_base::{Shared, Stop};

/// The numbers at the head of a code item, and where its units begin.
#[derive(Clone, Copy)]
pub struct CodeHead {
    pub registers: u16,
    pub ins: u16,
    pub outs: u16,
    pub tries: u16,
    pub units: u32,
    pub at: u32,
}

/// A try item: its first unit, how many units, and where its handler begins, from the begin of the list of handlers on.
#[derive(Drop)]
pub struct TryItem {
    pub start: u32,
    pub count: u16,
    pub handler: u16,
}

#[tactic(auto, unfolding(crate::specs::Tries::try_row), using(vet_base::proofs::Scripts::run_bind))]
fn try_item_of(file: &[u8], code: u32, place: Place) -> Result<(TryItem, Place), ReadError>
    requires { length file.now < 2 ^ 32 }
    ensures { Gives (λ x. x) result (try_row file.now code place) }
{
    let (start, at) = u4_of(file, place.at, code)?;
    let (count, at) = u2_of(file, at, code)?;
    let (handler, at) = u2_of(file, at, code)?;
    if place.total >= TRIES {
        return Err(Stop::Fault(Fault::TooMany(Limit::Tries)));
    }
    let item = TryItem {
        start,
        count,
        handler,
    };
    let total = place.total + 1;
    Ok((item, Place { at, total }))
}

fn try_items_of(
    alloc: Global,
    file: &[u8],
    code: u32,
    count: u32,
    begin: Place,
) -> Result<(Vec<TryItem>, Place), ReadError>
    requires { length file.now < 2 ^ 32 }
    ensures { Gives (λ x. (x.0.items, x.1)) result (try_rows_at file.now code count begin) }
{
    let mut items = Vec::new(alloc);
    let mut place = begin;
    for _ in 0..count {
        let (item, next) = try_item_of(file, code, place)?;
        items.push(item)?;
        place = next;
    }
    Ok((items, place))
}

/// The handlers of a code item, by rising offsets: where their list begins, and where it ends.
#[derive(Clone, Copy)]
struct HandlerList<'a> {
    begin: u32,
    end: u32,
    handlers: &'a [Handler],
}

/// The handler that begins at an offset, by halving.
fn handler_in<'a>(list: HandlerList<'a>, at: u64) -> Option<&'a Handler>
    requires { AreRising list.handlers.now list.end }
    ensures { option_copied result ≡ handler_at at list.entry.handlers.now }
{
    let handlers = list.handlers;
    match handlers.binary_search_by_key(&at, |handler| u64::from(handler.at)) {
        Ok(i) => Some(&handlers[i]),
        Err(_) => None,
    }
}

#[tactic(auto, unfolding(crate::specs::Tries::try_of), using(vet_base::proofs::Scripts::run_bind))]
fn raw_try_of(
    list: HandlerList<'_>,
    code: u32,
    item: &TryItem,
    total: u32,
) -> Result<(RawTry, u32), ReadError>
    requires { AreRising list.handlers.now list.end }
    ensures { Gives (λ x. x) result (try_of list.entry.handlers.now list.entry.begin code item.now total) }
{
    let at = u64::from(list.begin) + u64::from(item.handler);
    let Some(handler) = handler_in(list, at) else {
        return Err(Stop::Fault(Fault::Index(Table::Tries, code)));
    };
    let pairs = handler.pairs.as_slice();
    let total = total as usize + pairs.len();
    if total > TRIES as usize {
        return Err(Stop::Fault(Fault::TooMany(Limit::Tries)));
    }
    let found = RawTry {
        start: item.start,
        count: item.count,
        handlers: handler.pairs.copy()?,
        catch_all: handler.catch_all,
    };
    Ok((found, total as u32))
}

fn joined_of(
    alloc: Global,
    list: HandlerList<'_>,
    code: u32,
    items: &[TryItem],
    begin: u32,
) -> Result<(Shared<RawTry>, u32), ReadError>
    requires { AreRising list.handlers.now list.end }
    ensures { Gives (λ x. x) result (joined_at list.entry.handlers.now list.entry.begin code items.now begin) }
{
    let mut tries = Vec::with_capacity(alloc, items.len())?;
    let mut total = begin;
    for item in items {
        let (found, sum) = raw_try_of(list, code, item, total)?;
        tries.push(found)?;
        total = sum;
    }
    let tries = Shared::from_vec(alloc, tries)?;
    Ok((tries, total))
}

#[tactic(auto, unfolding(crate::specs::Tries::padding_of, crate::specs::Tries::tries_begin))]
fn begin_of_tries(head: CodeHead) -> u64
    ensures { result ≡ tries_begin head }
{
    let padding = if head.units % 2 == 0 { 0 } else { 2 };
    u64::from(head.at) + 2 * u64::from(head.units) + padding
}

#[tactic(auto, unfolding(crate::specs::Tries::some_tries_at), using(vet_base::proofs::Scripts::run_bind))]
fn some_tries_of(
    alloc: Global,
    file: &[u8],
    types: u32,
    code: u32,
    head: CodeHead,
    total: u32,
) -> Result<(Shared<RawTry>, u32), ReadError>
    requires { length file.now < 2 ^ 32 }
    ensures { Gives (λ x. x) result (some_tries_at file.now types code head total) }
{
    let begin = begin_of_tries(head);
    if begin > file.len() as u64 {
        return Err(Stop::Fault(Fault::Outside(code)));
    }
    let place = Place {
        at: begin as u32,
        total,
    };
    let (items, behind) = try_items_of(alloc, file, code, u32::from(head.tries), place)?;
    let (size, at) = uleb_of(file, behind.at)?;
    let place = Place {
        at,
        total: behind.total,
    };
    let (handlers, end) = handlers_of(alloc, file, types, code, size, place)?;
    let list = HandlerList {
        begin: behind.at,
        end: end.at,
        handlers: handlers.as_slice(),
    };
    joined_of(alloc, list, code, &items, end.total)
}

/// The try items of a code item, each with its handler, and the running total behind them.
#[tactic(auto, unfolding(crate::specs::Tries::tries_at))]
pub fn tries_of(
    alloc: Global,
    file: &[u8],
    types: u32,
    code: u32,
    head: CodeHead,
    total: u32,
) -> Result<(Shared<RawTry>, u32), ReadError>
    requires { length file.now < 2 ^ 32 }
    ensures { Gives (λ x. x) result (tries_at file.now types code head total) }
{
    if head.tries == 0 {
        return Ok((Shared::new(), total));
    }
    some_tries_of(alloc, file, types, code, head, total)
}

ghost use Rattle.std.specs.Prelude.{◌≡◌, ◌++◌, ◌<◌, ◌^◌, ◌+◌, length, OnOk, IfOk};
ghost use Rattle.std.specs.List.{flat_map};
ghost use Rattle.dex_writer.specs.Bytes.{uleb_bytes};
ghost use Rattle.dex_writer.specs.Placed.{rows_of};
ghost use Rattle.dex_writer.specs.CodeItem.{pair_bytes, handler_size, catch_all_bytes, handler_bytes};
ghost use Rattle.dex_writer.specs.CodeItem.{try_bytes, handlers_bytes, try_items, before_tries};
ghost use Rattle.dex_writer.specs.CodeItem.{tries_bytes, code_head, code_item, code_bytes};

use crate::bytes::{put_padding, put_u2, put_u4, put_uleb, put_units};
use dex_tables::{RawCode, RawTry};
use std::alloc::Global;
use vet_base::Memory;

fn put_pairs(out: &mut Vec<u8>, pairs: &[(u32, u32)]) -> Result<(), Memory>
    ensures { OnOk result (out.new.items ≡ out.old.items ++ flat_map pair_bytes pairs.now) }
{
    for (kind, address) in pairs {
        put_uleb(out, *kind as usize)?;
        put_uleb(out, *address as usize)?;
    }
    Ok(())
}

fn handler_size_of(pairs: usize, catch_all: Option<u32>) -> usize
    ensures value { result ≡ handler_size pairs catch_all }
    ensures small { result < 128 }
{
    match catch_all {
        None => pairs % 64,
        Some(_) => (128 - pairs % 64) % 128,
    }
}

fn put_catch_all(out: &mut Vec<u8>, catch_all: Option<u32>) -> Result<(), Memory>
    ensures { OnOk result (out.new.items ≡ out.old.items ++ catch_all_bytes catch_all) }
{
    match catch_all {
        None => Ok(()),
        Some(address) => put_uleb(out, address as usize),
    }
}

#[tactic(auto, unfolding(crate::specs::CodeItem::handler_bytes))]
fn put_handler(out: &mut Vec<u8>, item: &RawTry) -> Result<(), Memory>
    ensures { OnOk result (out.new.items ≡ out.old.items ++ handler_bytes item.now) }
{
    let size = handler_size_of(item.handlers.len(), item.catch_all);
    out.push(size as u8)?;
    put_pairs(out, item.handlers.as_slice())?;
    put_catch_all(out, item.catch_all)
}

#[tactic(auto, unfolding(crate::specs::CodeItem::try_bytes))]
fn put_try(out: &mut Vec<u8>, item: &RawTry, handler: usize) -> Result<(), Memory>
    ensures { OnOk result (out.new.items ≡ out.old.items ++ try_bytes handler item.now) }
{
    put_u4(out, item.start as usize)?;
    put_u2(out, item.count as usize)?;
    put_u2(out, handler)
}

/// The tries, and their handlers behind `handlers`.
fn put_try_items(
    items: &mut Vec<u8>,
    handlers: &mut Vec<u8>,
    tries: &[RawTry],
) -> Result<(), Memory>
    ensures handlers { OnOk result (handlers.new.items ≡ handlers.old.items ++ flat_map handler_bytes tries.now) }
    ensures items { OnOk result (items.new.items ≡ items.old.items ++ rows_of try_bytes handler_bytes
        (length handlers.old.items) tries.now) }
{
    for item in tries {
        put_try(items, item, handlers.len())?;
        put_handler(handlers, item)?;
    }
    Ok(())
}

#[tactic(auto, unfolding(crate::specs::CodeItem::tries_bytes, crate::specs::CodeItem::handlers_bytes, crate::specs::CodeItem::try_items))]
fn put_tries(alloc: Global, out: &mut Vec<u8>, units: usize, tries: &[RawTry]) -> Result<(), Memory>
    ensures { OnOk result (out.new.items ≡ out.old.items ++ tries_bytes units tries.now) }
{
    if tries.is_empty() {
        return Ok(());
    }
    if units % 2 == 1 {
        put_u2(out, 0)?;
    }
    let mut handlers = Vec::new(alloc);
    put_uleb(&mut handlers, tries.len())?;
    put_try_items(out, &mut handlers, tries)?;
    out.extend_from_slice(&handlers)?;
    Ok(())
}

#[tactic(auto, unfolding(crate::specs::CodeItem::code_head))]
fn put_code_head(out: &mut Vec<u8>, code: &RawCode) -> Result<(), Memory>
    ensures { OnOk result (out.new.items ≡ out.old.items ++ code_head code.now) }
{
    put_u2(out, code.registers as usize)?;
    put_u2(out, code.ins as usize)?;
    put_u2(out, code.outs as usize)?;
    put_u2(out, code.tries.len())?;
    put_u4(out, 0)?;
    put_u4(out, code.units.len())
}

#[tactic(auto, unfolding(crate::specs::CodeItem::code_item))]
fn put_code_item(alloc: Global, out: &mut Vec<u8>, code: &RawCode) -> Result<(), Memory>
    ensures { OnOk result (out.new.items ≡ out.old.items ++ code_item code.now) }
{
    put_code_head(out, code)?;
    put_units(out, code.units.as_slice())?;
    put_tries(alloc, out, code.units.len(), code.tries.as_slice())
}

/// A code item and its padding.
#[tactic(auto, unfolding(crate::specs::CodeItem::code_bytes))]
pub fn put_code(alloc: Global, out: &mut Vec<u8>, code: &RawCode) -> Result<(), Memory>
    ensures { OnOk result (out.new.items ≡ out.old.items ++ code_bytes code.now) }
{
    let begin = out.len();
    put_code_item(alloc, out, code)?;
    let len = out.len().saturating_sub(begin);
    put_padding(out, len)
}

//! What the parts of an app may list. Past these bounds the link is out of memory, before it lists anything.

ghost use Rattle.std.specs.Prelude.{◌≡◌, ◌+◌, ◌<◌, OnErr, OnOk, length, min};
ghost use Rattle.link_listing.specs.Texts.{method_row, proto_of};

use crate::texts::{field_row_at, method_row_at};
use dex_tables::{Body, ClassDef, Dex, Member, ProtoId};
use std::alloc::Global;
use vet_base::{Memory, Name};

/// The bytes that the names of all classes above classes and of all members may come to, each counted as often as it is
/// listed, and with `NAME_COST` more.
pub const NAMES: u64 = 1_073_741_824;

/// What a listed name takes beside its bytes.
const NAME_COST: u64 = 64;

/// Takes so much from what is left, or answers want of memory where less is left.
pub fn spend(left: &mut u64, cost: u64) -> Result<(), Memory>
    ensures ok { OnOk result (left.new + cost ≡ left.old) }
    ensures err { OnErr result (left.old < cost) }
{
    match left.checked_sub(cost) {
        Some(rest) => {
            *left = rest;
            Ok(())
        }
        None => Err(Memory),
    }
}

/// What listing a name takes: its bytes and 64 more.
pub fn name_cost(name: &Name) -> u64
    ensures { result ≡ min (length name.now + 64) 18446744073709551615 }
{
    (name.as_bytes().len() as u64).saturating_add(NAME_COST)
}

fn text_cost(dex: &Dex, i: u32) -> u64 {
    match dex.strings.get(i as usize) {
        Some(text) => name_cost(text),
        None => NAME_COST,
    }
}

fn type_cost(dex: &Dex, i: u32) -> u64 {
    match dex.types.get(i as usize) {
        Some(text) => text_cost(dex, *text),
        None => NAME_COST,
    }
}

fn types_cost(dex: &Dex, types: &[u32]) -> u64 {
    let mut cost: u64 = 0;
    for i in types {
        cost = cost.saturating_add(type_cost(dex, *i));
    }
    cost
}

fn proto_cost(dex: &Dex, row: &ProtoId) -> u64 {
    types_cost(dex, row.params.as_slice()).saturating_add(type_cost(dex, row.ret))
}

/// What each prototype of a file takes.
fn proto_costs(alloc: Global, dex: &Dex) -> Result<Vec<u64>, Memory> {
    let mut costs = Vec::new(alloc);
    for row in dex.protos.as_slice() {
        costs.push(proto_cost(dex, row))?;
    }
    Ok(costs)
}

fn spend_fields(dex: &Dex, class: u64, members: &[Member], left: &mut u64) -> Result<(), Memory> {
    for member in members {
        let row = field_row_at(dex, member.index);
        spend(left, class)?;
        spend(left, text_cost(dex, row.name))?;
        spend(left, type_cost(dex, row.kind))?;
    }
    Ok(())
}

fn spend_methods(
    dex: &Dex,
    protos: &[u64],
    class: u64,
    bodies: &[Body],
    left: &mut u64,
) -> Result<(), Memory> {
    for body in bodies {
        let row = method_row_at(dex, body.index);
        spend(left, class)?;
        spend(left, text_cost(dex, row.name))?;
        let proto = match protos.get(row.proto as usize) {
            Some(cost) => *cost,
            None => NAME_COST,
        };
        spend(left, proto)?;
    }
    Ok(())
}

fn spend_class(dex: &Dex, protos: &[u64], def: &ClassDef, left: &mut u64) -> Result<(), Memory> {
    let class = type_cost(dex, def.class);
    spend(left, class)?;
    spend(left, types_cost(dex, def.interfaces.as_slice()))?;
    spend_fields(dex, class, def.statics.as_slice(), left)?;
    spend_fields(dex, class, def.instances.as_slice(), left)?;
    spend_methods(dex, protos, class, def.directs.as_slice(), left)?;
    spend_methods(dex, protos, class, def.virtuals.as_slice(), left)
}

/// Answers want of memory where the names of members and interfaces come to more than `NAMES`.
pub(crate) fn check_names(alloc: Global, dexes: &[Dex]) -> Result<(), Memory> {
    let mut left = NAMES;
    for dex in dexes {
        let protos = proto_costs(alloc, dex)?;
        for def in dex.classes.as_slice() {
            spend_class(dex, &protos, def, &mut left)?;
        }
    }
    Ok(())
}

/// How many parameters the method of that index has: none where there is no such method or prototype.
#[tactic(auto, unfolding(crate::specs::Texts::proto_of, crate::specs::Texts::types_of))]
pub fn parameter_count(dex: &Dex, i: u32) -> usize
    ensures { result ≡ length (proto_of dex.now (method_row dex.now i).proto).params }
{
    match dex.protos.get(method_row_at(dex, i).proto as usize) {
        Some(row) => row.params.len(),
        None => 0,
    }
}

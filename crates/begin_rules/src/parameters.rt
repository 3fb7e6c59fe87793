//! What the parameters of a body hold as it begins.
ghost use Rattle.std.specs.Prelude.{◌≡◌, ◌+◌, ◌-◌, ◌<◌, ◌^◌, OnOk, fold, flat_map};
ghost use Rattle.flow_rules.specs.Nodes.{activation_in, entry as entry_of};
ghost use Rattle.app_machine.specs.Events.{parameter_type as type_of};
ghost use Rattle.rule_ground.specs.Below.{for_below};
ghost use Rattle.begin_rules.specs.BeginGiven.{says, is_object as is_object_type, by_source};
ghost use Rattle.begin_rules.specs.BeginGiven.{in_register, at_position, at_index};

use access_path::{Path, cut};
use app_machine::Method;
use app_parts::{is_reference, parameter_type, position_at};
use fact_rows::{Activation, Ctx, Node, Row, Site};
use rule_ground::{Conclusion, Premises, Sink, entry};
use vet_base::{KeyId, Name};

/// A body that the system calls: in which context, and by which rule and premises.
#[derive(Clone, Copy)]
pub struct Start {
    pub rule: u8,
    pub premises: Premises,
    pub ctx: Ctx,
    pub body: u32,
}

impl Start {
    /// Where the body begins.
    pub(crate) fn first(&self) -> Node
        ensures { result ≡ entry_of (activation_in self.now.ctx self.now.body) }
    {
        entry(Activation {
            ctx: self.ctx,
            method: self.body,
        })
    }

    /// Concludes the row.
    pub(crate) fn put<S: Sink>(&self, row: Row, out: &mut S) -> Result<(), S::Refusal>
        ensures { OnOk result (out.new ≡ S.then out.old (says self.now row)) }
    {
        out.put(Conclusion {
            rule: self.rule,
            premises: self.premises,
            row,
        })
    }
}

/// What the register of the position holds by one source.
fn by_source<S: Sink>(
    start: &Start,
    register: u32,
    position: u32,
    object: bool,
    source: (u32, u8),
    out: &mut S,
) -> Result<(), S::Refusal>
    ensures { OnOk result (out.new ≡ fold S.then out.old (by_source start.now register position object source)) }
{
    if source.0 != position {
        return Ok(());
    }
    start.put(
        Row::Taint(start.first(), register, Path::empty(), source.1),
        out,
    )?;
    if position == 0 || object {
        let path = cut(KeyId(0), &Path::empty());
        start.put(Row::Taint(start.first(), register, path, source.1), out)
    } else {
        Ok(())
    }
}

fn by_sources<S: Sink>(
    start: &Start,
    register: u32,
    position: u32,
    object: bool,
    sources: &[(u32, u8)],
    out: &mut S,
) -> Result<(), S::Refusal>
    ensures { OnOk result (out.new ≡ fold S.then out.old (flat_map (by_source start.now register position object)
        sources.now)) }
{
    for source in sources {
        by_source(start, register, position, object, *source, out)?;
    }
    Ok(())
}

/// What it holds in all.
fn in_register<S: Sink>(
    start: &Start,
    sources: &[(u32, u8)],
    register: u32,
    position: u32,
    object: bool,
    out: &mut S,
) -> Result<(), S::Refusal>
    ensures { OnOk result (out.new ≡ fold S.then out.old (in_register start.now sources.now register position object)) }
{
    if object {
        let site = Site::Param(start.ctx, position);
        start.put(Row::Points(start.first(), register, site), out)?;
    }
    by_sources(start, register, position, object, sources, out)
}

/// Whether the position is a parameter of a reference type.
fn is_object(params: &[Name], position: u32) -> bool
    ensures { result ≡ is_object_type (type_of params.now position) }
{
    match parameter_type(params, position) {
        None => false,
        Some(kind) => is_reference(kind),
    }
}

fn at_position<S: Sink>(
    start: &Start,
    sources: &[(u32, u8)],
    params: &[Name],
    register: u32,
    position: Option<u32>,
    out: &mut S,
) -> Result<(), S::Refusal>
    ensures { OnOk result (out.new ≡ fold S.then out.old (at_position start.now sources.now params.now register
        position)) }
{
    match position {
        None => Ok(()),
        Some(position) => in_register(
            start,
            sources,
            register,
            position,
            is_object(params, position),
            out,
        ),
    }
}

/// The first register of the arguments.
pub fn first_argument(method: &Method) -> u32
    ensures { result ≡ method.now.registers - method.now.ins }
{
    method.registers.saturating_sub(method.ins)
}

fn at_index<S: Sink>(
    start: &Start,
    sources: &[(u32, u8)],
    method: &Method,
    index: u32,
    out: &mut S,
) -> Result<(), S::Refusal>
    requires { (method.now.registers - method.now.ins) + index < 2 ^ 32 }
    ensures { OnOk result (out.new ≡ fold S.then out.old (at_index start.now sources.now method.now index)) }
{
    let params = method.at.proto.params.as_slice();
    at_position(
        start,
        sources,
        params,
        first_argument(method) + index,
        position_at(params, index),
        out,
    )
}

/// What the registers of all parameters hold.
pub(crate) fn at_registers<S: Sink>(
    start: &Start,
    sources: &[(u32, u8)],
    method: &Method,
    out: &mut S,
) -> Result<(), S::Refusal>
    requires { (method.now.registers - method.now.ins) + method.now.ins < 2 ^ 32 }
    ensures { OnOk result (out.new ≡ fold S.then out.old (for_below (at_index start.now sources.now method.now)
        method.now.ins)) }
{
    for index in 0..method.ins {
        at_index(start, sources, method, index, out)?;
    }
    Ok(())
}

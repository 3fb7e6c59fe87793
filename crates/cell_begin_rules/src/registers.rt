//! What the parameters of a body hold as it begins.
ghost use Rattle.std.specs.Prelude.{◌≡◌, ◌+◌, ◌-◌, ◌<◌, ◌^◌, OnOk, fold, flat_map};
ghost use Rattle.app_machine.specs.Events.{parameter_type as type_of};
ghost use Rattle.rule_ground.specs.Below.{for_below};
ghost use Rattle.begin_rules.specs.BeginGiven.{first_of, is_object as is_object_type};
ghost use Rattle.cell_begin_rules.specs.CellBeginGiven.{at_index, at_position, by_source, comes, element, in_register};

use app_machine::Method;
use app_parts::{is_reference, parameter_type, position_at};
use begin_rules::{Start, first_argument};
use cell_ground::{Content, come_to};
use fact_rows::{Activation, Node, Row, Site};
use register_readers::RegisterReaders;
use rule_ground::{Conclusion, ELEMENT, Inference, Sink, entry};
use vet_base::Name;

/// A body that the system calls, and where the registers of the app are read.
#[derive(Clone, Copy)]
pub struct Beginning<'a> {
    pub readers: &'a RegisterReaders<'a>,
    pub start: Start,
}

impl<'a> Beginning<'a> {
    /// Where the body begins.
    fn first(&self) -> Node
        ensures { result ≡ first_of self.now.start }
    {
        entry(Activation {
            ctx: self.start.ctx,
            method: self.start.body,
        })
    }

    /// The content comes to the register.
    pub fn comes<S: Sink>(
        &self,
        register: u32,
        content: Content,
        out: &mut S,
    ) -> Result<(), S::Refusal>
        ensures { OnOk result (out.new ≡ fold S.then out.old (comes self.now.readers.now self.now.start register
            content)) }
    {
        let inference = Inference {
            rule: self.start.rule,
            premises: self.start.premises,
        };
        let first = self.first();
        come_to(self.readers, inference, content, first, register, &[0], out)
    }
}

/// What the register of the position holds by one source.
fn by_source<S: Sink>(
    begun: &Beginning<'_>,
    register: u32,
    position: u32,
    source: (u32, u8),
    out: &mut S,
) -> Result<(), S::Refusal>
    ensures { OnOk result (out.new ≡ fold S.then out.old (by_source begun.now.readers.now begun.now.start register
        position source)) }
{
    if source.0 == position {
        begun.comes(register, Content::Label(source.1), out)
    } else {
        Ok(())
    }
}

fn by_sources<S: Sink>(
    begun: &Beginning<'_>,
    register: u32,
    position: u32,
    sources: &[(u32, u8)],
    out: &mut S,
) -> Result<(), S::Refusal>
    ensures { OnOk result (out.new ≡ fold S.then out.old (flat_map (by_source begun.now.readers.now begun.now.start
        register position) sources.now)) }
{
    for source in sources {
        by_source(begun, register, position, *source, out)?;
    }
    Ok(())
}

/// What it holds in all.
fn in_register<S: Sink>(
    begun: &Beginning<'_>,
    sources: &[(u32, u8)],
    register: u32,
    position: u32,
    object: bool,
    out: &mut S,
) -> Result<(), S::Refusal>
    ensures { OnOk result (out.new ≡ fold S.then out.old (in_register begun.now.readers.now begun.now.start sources.now
        register position object)) }
{
    if object {
        let site = Site::Param(begun.start.ctx, position);
        begun.comes(register, Content::Object(site), out)?;
    }
    by_sources(begun, register, position, sources, out)
}

/// Whether the position is a parameter of a reference type.
fn is_object(params: &[Name], position: u32) -> bool
    ensures { result ≡ is_object_type (type_of params.now position) }
{
    match parameter_type(params, position) {
        None => false,
        Some(kind) => is_reference(kind),
    }
}

fn at_position<S: Sink>(
    begun: &Beginning<'_>,
    sources: &[(u32, u8)],
    params: &[Name],
    register: u32,
    position: Option<u32>,
    out: &mut S,
) -> Result<(), S::Refusal>
    ensures { OnOk result (out.new ≡ fold S.then out.old (at_position begun.now.readers.now begun.now.start sources.now
        params.now register position)) }
{
    match position {
        None => Ok(()),
        Some(position) => {
            let object = is_object(params, position);
            in_register(begun, sources, register, position, object, out)
        }
    }
}

fn at_index<S: Sink>(
    begun: &Beginning<'_>,
    sources: &[(u32, u8)],
    method: &Method,
    index: u32,
    out: &mut S,
) -> Result<(), S::Refusal>
    requires { (method.now.registers - method.now.ins) + index < 2 ^ 32 }
    ensures { OnOk result (out.new ≡ fold S.then out.old (at_index begun.now.readers.now begun.now.start sources.now
        method.now index)) }
{
    let params = method.at.proto.params.as_slice();
    at_position(
        begun,
        sources,
        params,
        first_argument(method) + index,
        position_at(params, index),
        out,
    )
}

/// What the registers of all parameters hold.
pub fn at_registers<S: Sink>(
    begun: &Beginning<'_>,
    sources: &[(u32, u8)],
    method: &Method,
    out: &mut S,
) -> Result<(), S::Refusal>
    requires { (method.now.registers - method.now.ins) + method.now.ins < 2 ^ 32 }
    ensures { OnOk result (out.new ≡ fold S.then out.old (for_below (at_index begun.now.readers.now begun.now.start
        sources.now method.now) method.now.ins)) }
{
    for index in 0..method.ins {
        at_index(begun, sources, method, index, out)?;
    }
    Ok(())
}

/// The object of the source's parameter has the label as an element.
fn element<S: Sink>(
    begun: &Beginning<'_>,
    params: &[Name],
    source: (u32, u8),
    out: &mut S,
) -> Result<(), S::Refusal>
    ensures { OnOk result (out.new ≡ fold S.then out.old (element begun.now.readers.now begun.now.start params.now
        source)) }
{
    if is_object(params, source.0) {
        out.put(Conclusion {
            rule: begun.start.rule,
            premises: begun.start.premises,
            row: Row::CellLabel(Site::Param(begun.start.ctx, source.0), ELEMENT, source.1),
        })
    } else {
        Ok(())
    }
}

/// So for each source.
pub fn elements<S: Sink>(
    begun: &Beginning<'_>,
    params: &[Name],
    sources: &[(u32, u8)],
    out: &mut S,
) -> Result<(), S::Refusal>
    ensures { OnOk result (out.new ≡ fold S.then out.old (flat_map (element begun.now.readers.now begun.now.start
        params.now) sources.now)) }
{
    for source in sources {
        element(begun, params, *source, out)?;
    }
    Ok(())
}

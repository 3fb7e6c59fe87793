//! What comes to a register stands where the register is read.
ghost use Rattle.std.specs.Prelude.{◌≡◌, OnOk, fold};
ghost use Rattle.cell_ground.specs.Coming.{at_each, coming, coming_to_all};

use crate::Content;
use fact_rows::Node;
use register_readers::RegisterReaders;
use rule_ground::{Conclusion, Inference, Sink, at_pc};

/// Concludes that the register holds the content at each of the addresses.
fn put_each<S: Sink>(
    inference: Inference,
    content: Content,
    node: Node,
    register: u32,
    pcs: &[u32],
    out: &mut S,
) -> Result<(), S::Refusal>
    ensures { OnOk result (out.new ≡ fold S.then out.old (at_each inference.rule inference.premises content node
        register pcs.now)) }
{
    for pc in pcs {
        out.put(Conclusion {
            rule: inference.rule,
            premises: inference.premises,
            row: content.held(at_pc(node, *pc), register),
        })?;
    }
    Ok(())
}

/// Concludes that it holds it wherever it is read from one of the addresses.
pub fn come_to<S: Sink>(
    readers: &RegisterReaders<'_>,
    inference: Inference,
    content: Content,
    node: Node,
    register: u32,
    pcs: &[u32],
    out: &mut S,
) -> Result<(), S::Refusal>
    ensures { OnOk result (out.new ≡ fold S.then out.old (coming readers.now inference.rule inference.premises content
        node register pcs.now)) }
{
    for pc in pcs {
        let places = readers.readers(node.by.method, register, *pc);
        put_each(inference, content, node, register, places, out)?;
    }
    Ok(())
}

/// The same of each of the registers.
pub fn come_to_all<S: Sink>(
    readers: &RegisterReaders<'_>,
    inference: Inference,
    content: Content,
    node: Node,
    registers: &[u32],
    pcs: &[u32],
    out: &mut S,
) -> Result<(), S::Refusal>
    ensures { OnOk result (out.new ≡ fold S.then out.old (coming_to_all readers.now inference.rule inference.premises
        content node registers.now pcs.now)) }
{
    for register in registers {
        come_to(readers, inference, content, node, *register, pcs, out)?;
    }
    Ok(())
}

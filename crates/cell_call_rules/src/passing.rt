//! What comes to a register from the first step of an activation.
ghost use Rattle.std.specs.Prelude.{◌≡◌, OnOk, fold};
ghost use Rattle.cell_call_rules.specs.CellPassGiven.{passed_to};

use cell_ground::{Content, come_to};
use fact_rows::Activation;
use register_readers::RegisterReaders;
use rule_ground::{Inference, Sink, entry};

/// The content comes to the register, where there is one, from the first step of the activation.
pub fn pass_to<S: Sink>(
    readers: &RegisterReaders<'_>,
    inference: Inference,
    content: Content,
    by: Activation,
    register: Option<u32>,
    out: &mut S,
) -> Result<(), S::Refusal>
    ensures { OnOk result (out.new ≡ fold S.then out.old (passed_to readers.now inference.rule inference.premises
        content by register)) }
{
    match register {
        None => Ok(()),
        Some(register) => come_to(readers, inference, content, entry(by), register, &[0], out),
    }
}

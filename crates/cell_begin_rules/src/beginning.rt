//! With what a body begins.
ghost use Rattle.std.specs.Prelude.{◌≡◌, ◌+◌, ◌-◌, ◌<◌, ◌^◌, OnOk, fold};
ghost use Rattle.app_machine.specs.Sound.{SoundApp};
ghost use Rattle.cell_begin_rules.specs.CellBeginGiven.{begins, with_code};

use crate::registers::{Beginning, at_registers, elements};
use app_machine::{App, Method};
use rule_ground::Sink;

/// The parameters of a body with code hold what they may.
fn with_code<S: Sink>(
    begun: &Beginning<'_>,
    sources: &[(u32, u8)],
    method: &Method,
    out: &mut S,
) -> Result<(), S::Refusal>
    requires { (method.now.registers - method.now.ins) + method.now.ins < 2 ^ 32 }
    ensures { OnOk result (out.new ≡ fold S.then out.old (with_code begun.now.readers.now begun.now.start sources.now
        method.now)) }
{
    at_registers(begun, sources, method, out)?;
    elements(begun, method.at.proto.params.as_slice(), sources, out)
}

/// Each parameter of a reference type may be an object of its own site, and the values of the sources are labelled.
pub fn begin<S: Sink>(
    app: &App,
    begun: &Beginning<'_>,
    sources: &[(u32, u8)],
    out: &mut S,
) -> Result<(), S::Refusal>
    requires { SoundApp app.now }
    ensures { OnOk result (out.new ≡ fold S.then out.old (begins app.now begun.now.readers.now begun.now.start
        sources.now)) }
{
    match app.methods.get(begun.start.body as usize) {
        None => Ok(()),
        Some(method) => {
            if method.is_native {
                Ok(())
            } else {
                with_code(begun, sources, method, out)
            }
        }
    }
}

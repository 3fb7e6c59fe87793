//! That a body begins.
ghost use Rattle.std.specs.Prelude.{◌≡◌, ◌+◌, ◌-◌, ◌<◌, ◌^◌, OnOk, fold};
ghost use Rattle.app_machine.specs.Sound.{SoundApp};
ghost use Rattle.begin_rules.specs.BeginGiven.{begins, with_code};

use crate::parameters::{Start, at_registers};
use app_machine::{App, Method};
use fact_rows::{NATIVE, Row};
use rule_ground::Sink;

/// A body with code is reached, and its parameters hold what they may.
fn with_code<S: Sink>(
    start: &Start,
    sources: &[(u32, u8)],
    method: &Method,
    out: &mut S,
) -> Result<(), S::Refusal>
    requires { (method.now.registers - method.now.ins) + method.now.ins < 2 ^ 32 }
    ensures { OnOk result (out.new ≡ fold S.then out.old (with_code start.now sources.now method.now)) }
{
    start.put(Row::Reached(start.first()), out)?;
    at_registers(start, sources, method, out)
}

/// The body begins: its first node is reached, each parameter of a reference type may hold an object
/// of its own site, and the values of the sources are labelled. Of a native body nothing is known.
pub fn begin<S: Sink>(
    app: &App,
    start: &Start,
    sources: &[(u32, u8)],
    out: &mut S,
) -> Result<(), S::Refusal>
    requires { SoundApp app.now }
    ensures { OnOk result (out.new ≡ fold S.then out.old (begins app.now start.now sources.now)) }
{
    match app.methods.get(start.body as usize) {
        None => Ok(()),
        Some(method) => {
            if method.is_native {
                start.put(Row::Unknown(start.first(), NATIVE), out)
            } else {
                with_code(start, sources, method, out)
            }
        }
    }
}

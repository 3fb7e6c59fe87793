//! The object on which a body is called.
ghost use Rattle.std.specs.Prelude.{◌≡◌, OnOk, fold};
ghost use Rattle.app_machine.specs.Sound.{SoundApp};
ghost use Rattle.cell_begin_rules.specs.CellBeginGiven.{enters, receives};

use crate::beginning::begin;
use crate::registers::Beginning;
use app_machine::App;
use begin_rules::first_argument;
use cell_ground::Content;
use rule_ground::Sink;

/// The receiver holds the content.
fn receive<S: Sink>(
    app: &App,
    begun: &Beginning<'_>,
    content: Content,
    out: &mut S,
) -> Result<(), S::Refusal>
    ensures { OnOk result (out.new ≡ fold S.then out.old (receives app.now begun.now.readers.now begun.now.start
        content)) }
{
    match app.methods.get(begun.start.body as usize) {
        None => Ok(()),
        Some(method) => {
            if method.is_native || method.ins == 0 {
                Ok(())
            } else {
                begun.comes(first_argument(method), content, out)
            }
        }
    }
}

/// The body begins, and its receiver holds the content.
pub fn enter<S: Sink>(
    app: &App,
    begun: &Beginning<'_>,
    sources: &[(u32, u8)],
    content: Content,
    out: &mut S,
) -> Result<(), S::Refusal>
    requires { SoundApp app.now }
    ensures { OnOk result (out.new ≡ fold S.then out.old (enters app.now begun.now.readers.now begun.now.start
        sources.now content)) }
{
    begin(app, begun, sources, out)?;
    receive(app, begun, content, out)
}

//! The object on which a body is called.
ghost use Rattle.std.specs.Prelude.{◌≡◌, OnOk, fold};
ghost use Rattle.app_machine.specs.Sound.{SoundApp};
ghost use Rattle.begin_rules.specs.BeginGiven.{enters, receives};

use crate::beginning::begin;
use crate::parameters::{Start, first_argument};
use app_machine::App;
use rule_ground::{Content, Sink};

/// The receiver holds the content.
fn receive<S: Sink>(
    app: &App,
    start: &Start,
    content: Content,
    out: &mut S,
) -> Result<(), S::Refusal>
    ensures { OnOk result (out.new ≡ fold S.then out.old (receives app.now start.now content)) }
{
    match app.methods.get(start.body as usize) {
        None => Ok(()),
        Some(method) => {
            if method.is_native || method.ins == 0 {
                Ok(())
            } else {
                start.put(content.held(start.first(), first_argument(method)), out)
            }
        }
    }
}

/// The body begins on an object, which its receiver holds; with what the object leads to, the
/// receiver alone holds that.
pub fn enter<S: Sink>(
    app: &App,
    start: &Start,
    sources: &[(u32, u8)],
    content: Content,
    out: &mut S,
) -> Result<(), S::Refusal>
    requires { SoundApp app.now }
    ensures { OnOk result (out.new ≡ fold S.then out.old (enters app.now start.now sources.now content)) }
{
    match content {
        Content::Object(_) => {
            begin(app, start, sources, out)?;
            receive(app, start, content, out)
        }
        Content::Label(_, _) => receive(app, start, content, out),
    }
}

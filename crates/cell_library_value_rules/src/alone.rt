//! Rules 34 to 36: what a call gives to its result whatever its positions hold.
ghost use Rattle.std.specs.Prelude.{◌≡◌, OnOk, fold};
ghost use Rattle.app_machine.specs.Sound.{SoundApp};
ghost use Rattle.library_ground.specs.CallRow.{shown_call};
ghost use Rattle.cell_library_value_rules.specs.CellValueGiven.{alone_gives, made, result_alone, source_gives};

use crate::called::{Called, give_result};
use crate::numbers;
use crate::result::label_result;
use app_parts::CallResult;
use cell_ground::{Content, made_at};
use fact_rows::Site;
use rule_ground::{Premises, Sink};

/// A result of a reference type is an object that is made here.
fn make<S: Sink>(called: &Called<'_>, out: &mut S) -> Result<(), S::Refusal>
    requires { SoundApp called.now.app.now }
    ensures { OnOk result (out.new ≡ fold S.then out.old (made called.now.app.now called.now.readers.now
        (shown_call called.now.call))) }
{
    if called.call.has_reference() {
        let object = Content::Object(made_at(called.app, called.call.node));
        let premises = Premises::of_one(called.call.premise());
        give_result(called, numbers::MAKE, premises, object, out)
    } else {
        Ok(())
    }
}

/// The label of the source comes to the result.
fn label_source<S: Sink>(
    called: &Called<'_>,
    source: Option<u8>,
    out: &mut S,
) -> Result<(), S::Refusal>
    requires { SoundApp called.now.app.now }
    ensures { OnOk result (out.new ≡ fold S.then out.old (source_gives called.now.app.now called.now.readers.now
        (shown_call called.now.call) source)) }
{
    match source {
        None => Ok(()),
        Some(label) => {
            let premises = Premises::of_one(called.call.premise());
            label_result(called, premises, label, out)
        }
    }
}

/// What the call gives to a result of this kind.
fn give<S: Sink>(called: &Called<'_>, kind: CallResult, out: &mut S) -> Result<(), S::Refusal>
    requires { SoundApp called.now.app.now }
    ensures { OnOk result (out.new ≡ fold S.then out.old (result_alone called.now.app.now called.now.readers.now
        (shown_call called.now.call) kind)) }
{
    match kind {
        CallResult::Joined => {
            make(called, out)?;
            label_source(called, called.call.source(), out)
        }
        CallResult::Shared(number) => {
            let object = Content::Object(Site::Shared(number));
            let premises = Premises::of_one(called.call.premise());
            give_result(called, numbers::SHARE, premises, object, out)
        }
        CallResult::Blank | CallResult::Same(_) | CallResult::Taken(_) | CallResult::Handed => Ok(
            (),
        ),
    }
}

/// What the call gives to its result, where there is one.
pub fn give_alone<S: Sink>(called: &Called<'_>, out: &mut S) -> Result<(), S::Refusal>
    requires { SoundApp called.now.app.now }
    ensures { OnOk result (out.new ≡ fold S.then out.old (alone_gives called.now.app.now called.now.readers.now
        (shown_call called.now.call))) }
{
    if called.call.has_result() {
        give(called, called.call.gives(), out)
    } else {
        Ok(())
    }
}

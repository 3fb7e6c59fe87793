//! Rules 34 to 36: what a call gives to its result whatever its positions hold.
ghost use Rattle.std.specs.Prelude.{◌≡◌, ◌<◌, ℕ, OnOk, fold};
ghost use Rattle.app_machine.specs.Sound.{SoundApp};
ghost use Rattle.app_machine.specs.State.{shared_static};
ghost use Rattle.library_ground.specs.CallRow.{shown_call, IsWithin};
ghost use Rattle.library_value_rules.specs.ValueGiven.{alone_gives, made, result_alone};
ghost use Rattle.library_value_rules.specs.ValueGiven.{shared_gives, shared_label, source_gives};

use crate::numbers;
use crate::result::{give_result, label_result};
use app_machine::App;
use app_parts::CallResult;
use fact_rows::{Row, Site};
use library_ground::{LibraryCall, shared_static};
use rule_ground::{Conclusion, Content, Facts, Join, Key, Premises, Sink, for_each_hit};

/// A result of a reference type is an object that is made here.
fn make<S: Sink>(call: &LibraryCall<'_>, out: &mut S) -> Result<(), S::Refusal>
    ensures { OnOk result (out.new ≡ fold S.then out.old (made (shown_call call.now))) }
{
    if call.has_reference() {
        let object = Content::Object(Site::At(call.node));
        give_result(
            numbers::MAKE,
            Premises::of_one(call.premise()),
            object,
            call,
            out,
        )
    } else {
        Ok(())
    }
}

/// The result has the label of the source.
fn label_source<S: Sink>(
    call: &LibraryCall<'_>,
    source: Option<u8>,
    out: &mut S,
) -> Result<(), S::Refusal>
    ensures { OnOk result (out.new ≡ fold S.then out.old (source_gives (shown_call call.now) source)) }
{
    match source {
        None => Ok(()),
        Some(label) => label_result(Premises::of_one(call.premise()), label, call, out),
    }
}

/// The result leads to what the static of the shared object leads to.
#[derive(Drop)]
struct SharedLabel<'a>(LibraryCall<'a>);

impl<'a> Join for SharedLabel<'a> {
    ghost ready = { λ j. Unit {0} };

    ghost gives = { λ j row. shared_label (shown_call j.0) row };

    fn give<S: Sink>(&self, row: Row, out: &mut S) -> Result<(), S::Refusal> {
        match row {
            Row::StaticTaint(_, path, label) => {
                let premises = Premises::of_two(self.0.premise(), row);
                give_result(
                    numbers::SHARE,
                    premises,
                    Content::Label(path, label),
                    &self.0,
                    out,
                )
            }
            _ => Ok(()),
        }
    }
}

/// The result is the shared object.
fn share<F: Facts, S: Sink>(
    app: &App,
    facts: &F,
    call: &LibraryCall<'_>,
    number: u32,
    out: &mut S,
) -> Result<(), S::Refusal>
    requires sound { SoundApp app.now }
    requires small { number < 65536 }
    ensures { OnOk result (out.new ≡ fold S.then out.old (shared_gives app.now (F.hits facts.now) (shown_call call.now)
        number)) }
{
    let field = shared_static(app, number);
    let object = Site::Shared(number);
    let premises = Premises::of_one(call.premise());
    out.put(Conclusion {
        rule: numbers::SHARE,
        premises,
        row: Row::StaticPoints(field, object),
    })?;
    give_result(numbers::SHARE, premises, Content::Object(object), call, out)?;
    for_each_hit(facts, &Key::StaticTaintsOf(field), &SharedLabel(*call), out)
}

/// What the call gives to a result of this kind.
fn give<F: Facts, S: Sink>(
    app: &App,
    facts: &F,
    call: &LibraryCall<'_>,
    kind: CallResult,
    out: &mut S,
) -> Result<(), S::Refusal>
    requires sound { SoundApp app.now }
    requires small { (number : ℕ) → kind ≡ CallResult.Shared number → number < 65536 }
    ensures { OnOk result (out.new ≡ fold S.then out.old (result_alone app.now (F.hits facts.now) (shown_call call.now)
        kind)) }
{
    match kind {
        CallResult::Joined => {
            make(call, out)?;
            label_source(call, call.source(), out)
        }
        CallResult::Shared(number) => share(app, facts, call, number, out),
        CallResult::Blank | CallResult::Same(_) | CallResult::Taken(_) | CallResult::Handed => Ok(
            (),
        ),
    }
}

/// What the call gives to its result, where there is one.
pub fn give_alone<F: Facts, S: Sink>(
    app: &App,
    facts: &F,
    call: &LibraryCall<'_>,
    out: &mut S,
) -> Result<(), S::Refusal>
    requires sound { SoundApp app.now }
    requires within { IsWithin (shown_call call.now) }
    ensures { OnOk result (out.new ≡ fold S.then out.old
        (alone_gives app.now (F.hits facts.now) (shown_call call.now))) }
{
    if call.has_result() {
        give(app, facts, call, call.gives(), out)
    } else {
        Ok(())
    }
}

//! Rule 38: a value becomes an element of a shared object.
ghost use Rattle.std.specs.Prelude.{◌≡◌, ◌<◌, ℕ, All, OnOk, fold, map};
ghost use Rattle.app_machine.specs.Sound.{SoundApp};
ghost use Rattle.library_ground.specs.CallRow.{shown_call, IsWithin};
ghost use Rattle.library_heap_rules.specs.HeapGiven.{static_filled, statics_filled};
ghost use Rattle.library_heap_rules.specs.HeapGiven.{store_content, store_gives, store_row};

use crate::numbers;
use crate::pairs::{OfSecond, Position};
use app_machine::App;
use fact_rows::{Row, Site};
use library_ground::{LibraryCall, for_each_value, shared_static};
use rule_ground::{Conclusion, Content, ELEMENT, Facts, Join, Premises, Sink};

/// The shared object takes the value in.
fn store<S: Sink>(
    call: &LibraryCall<'_>,
    register: u32,
    number: u32,
    content: Content,
    out: &mut S,
) -> Result<(), S::Refusal>
    ensures { OnOk result (out.new ≡ fold S.then out.old
        (store_content (shown_call call.now) register number content)) }
{
    out.put(Conclusion {
        rule: numbers::STORE,
        premises: Premises::of_two(call.premise(), content.held(call.node, register)),
        row: content.stored(call.node, Site::Shared(number), ELEMENT),
    })
}

/// Each value of the register, into the shared object.
#[derive(Drop)]
struct OfValue<'a> {
    call: LibraryCall<'a>,
    register: u32,
    number: u32,
}

impl<'a> Join for OfValue<'a> {
    ghost ready = { λ j. Unit {0} };

    ghost gives = { λ j row. store_row (shown_call j.call) j.register j.number row };

    fn give<S: Sink>(&self, row: Row, out: &mut S) -> Result<(), S::Refusal> {
        match row {
            Row::Points(_, _, site) => {
                let content = Content::Object(site);
                store(&self.call, self.register, self.number, content, out)
            }
            Row::Taint(_, _, path, label) => {
                let content = Content::Label(path, label);
                store(&self.call, self.register, self.number, content, out)
            }
            _ => Ok(()),
        }
    }
}

/// The stores of the position's values.
#[derive(Drop)]
pub struct Stores<'a, F>(pub &'a Position<'a, F>);

impl<'a, F: Facts> OfSecond for Stores<'a, F> {
    ghost gives = { λ j second. store_gives (F.hits j.0.now.facts.now) j.0.now.pins (shown_call j.0.now.call)
        j.0.now.register second };

    fn give<S: Sink>(&self, second: u32, out: &mut S) -> Result<(), S::Refusal> {
        let from = self.0;
        let with = OfValue {
            call: from.call,
            register: from.register,
            number: second,
        };
        for_each_value(
            from.facts,
            from.pins.value,
            from.call.node,
            from.register,
            &with,
            out,
        )
    }
}

/// The statics of the shared objects hold them.
pub fn fill_statics<S: Sink>(
    app: &App,
    call: &LibraryCall<'_>,
    out: &mut S,
) -> Result<(), S::Refusal>
    requires sound { SoundApp app.now }
    requires within { IsWithin (shown_call call.now) }
    ensures { OnOk result (out.new ≡ fold S.then out.old (statics_filled app.now (shown_call call.now))) }
{
    fill_each(app, call, call.stores(), out)
}

fn fill_each<S: Sink>(
    app: &App,
    call: &LibraryCall<'_>,
    stores: &[(u32, u32)],
    out: &mut S,
) -> Result<(), S::Refusal>
    requires sound { SoundApp app.now }
    requires small { All (λ (store : ℕ × ℕ). store.1 < 65536) stores.now }
    ensures { OnOk result (out.new ≡ fold S.then out.old
        (map (static_filled app.now (shown_call call.now)) stores.now)) }
{
    for store in stores {
        out.put(Conclusion {
            rule: numbers::STORE,
            premises: Premises::of_one(call.premise()),
            row: Row::StaticPoints(shared_static(app, store.1), Site::Shared(store.1)),
        })?;
    }
    Ok(())
}

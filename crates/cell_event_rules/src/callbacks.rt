//! Rules 42 and 43: callbacks come to a component that is there, and to handed objects.
ghost use Rattle.std.specs.Prelude.{◌≡◌, OnOk, fold, flat_map};
ghost use Rattle.app_machine.specs.Sound.{SoundApp};
ghost use Rattle.event_rules.specs.Calling.{sources_at};
ghost use Rattle.cell_event_rules.specs.CellEventGiven.{callback_gives, callbacks_give, calls_give, coming_gives};

use crate::indexed::Indexed;
use crate::receiver::Receiver;
use app_machine::Lists;
use event_index::Coming;
use rule_ground::Sink;
use site_classes::site_class;
use vet_base::Name;

/// The labelled positions of the callback row.
fn sources_of(lists: &Lists, row: u32) -> &[(u32, u8)]
    ensures { result.now ≡ sources_at lists.now row }
{
    match lists.callbacks.get(row as usize) {
        Some(callback) => callback.sources.as_slice(),
        None => &[],
    }
}

/// The callback comes with its labelled parameters.
fn call<S: Sink>(
    by: &Indexed<'_>,
    receiver: Receiver,
    coming: Coming,
    out: &mut S,
) -> Result<(), S::Refusal>
    requires { SoundApp by.now.index.now.0 }
    ensures { OnOk result (out.new ≡ fold S.then out.old (coming_gives by.now.index.now.0 by.now.readers.now
        by.now.index.now.1 receiver coming)) }
{
    let arrival = receiver.called_back(coming.row);
    let sources = sources_of(by.index.lists(), coming.row);
    by.run(&arrival, sources, Some(coming.body), out)
}

fn call_each<S: Sink>(
    by: &Indexed<'_>,
    receiver: Receiver,
    comings: &[Coming],
    out: &mut S,
) -> Result<(), S::Refusal>
    requires { SoundApp by.now.index.now.0 }
    ensures { OnOk result (out.new ≡ fold S.then out.old (flat_map (coming_gives by.now.index.now.0 by.now.readers.now
        by.now.index.now.1 receiver) comings.now)) }
{
    for coming in comings {
        call(by, receiver, *coming, out)?;
    }
    Ok(())
}

/// The callback row comes, where it comes to objects of the class.
fn call_row<S: Sink>(
    by: &Indexed<'_>,
    receiver: Receiver,
    class: &Name,
    row: u32,
    out: &mut S,
) -> Result<(), S::Refusal>
    requires { SoundApp by.now.index.now.0 }
    ensures { OnOk result (out.new ≡ fold S.then out.old (callback_gives by.now.index.now.0 by.now.readers.now
        by.now.index.now.1 receiver class.now row)) }
{
    let arrival = receiver.called_back(row);
    let sources = sources_of(by.index.lists(), row);
    by.run(&arrival, sources, by.index.called(class, row), out)
}

fn call_rows<S: Sink>(
    by: &Indexed<'_>,
    receiver: Receiver,
    class: &Name,
    out: &mut S,
) -> Result<(), S::Refusal>
    requires { SoundApp by.now.index.now.0 }
    ensures { OnOk result (out.new ≡ fold S.then out.old (callbacks_give by.now.index.now.0 by.now.readers.now
        by.now.index.now.1 receiver class.now)) }
{
    for row in 0..by.index.callback_count() {
        call_row(by, receiver, class, row, out)?;
    }
    Ok(())
}

/// Each callback comes that comes to objects of the class.
#[tactic(auto, using(crate::proofs::Calling::all_called))]
fn call_all<S: Sink>(
    by: &Indexed<'_>,
    receiver: Receiver,
    class: &Name,
    out: &mut S,
) -> Result<(), S::Refusal>
    requires { SoundApp by.now.index.now.0 }
    ensures { OnOk result (out.new ≡ fold S.then out.old (callbacks_give by.now.index.now.0 by.now.readers.now
        by.now.index.now.1 receiver class.now)) }
{
    match by.index.comings(class) {
        Some(comings) => call_each(by, receiver, comings, out),
        None => call_rows(by, receiver, class, out),
    }
}

/// What comes to the receiver, where it has a class.
pub fn call_back<S: Sink>(
    by: &Indexed<'_>,
    receiver: Receiver,
    out: &mut S,
) -> Result<(), S::Refusal>
    requires { SoundApp by.now.index.now.0 }
    ensures { OnOk result (out.new ≡ fold S.then out.old (calls_give by.now.index.now.0 by.now.readers.now
        by.now.index.now.1 receiver)) }
{
    let index = by.index;
    match site_class(index.app(), index.lists(), receiver.site()) {
        None => Ok(()),
        Some(class) => call_all(by, receiver, class, out),
    }
}

//! Rule 40: the events in a component's life begin their bodies on it.
ghost use Rattle.std.specs.Prelude.{◌≡◌, OnOk, fold};
ghost use Rattle.app_machine.specs.Sound.{SoundApp};
ghost use Rattle.event_rules.specs.EventGiven.{event_count};
ghost use Rattle.cell_event_rules.specs.CellEventGiven.{event_gives, life_gives};

use crate::indexed::Indexed;
use crate::receiver::Arrival;
use app_machine::App;
use app_model::{event_rows, life_event};
use rule_ground::Sink;

/// The event of this number runs its body, where it comes in that state.
fn by_event<S: Sink>(
    by: &Indexed<'_>,
    component: u32,
    state: u8,
    number: u32,
    out: &mut S,
) -> Result<(), S::Refusal>
    requires { SoundApp by.now.index.now.0 }
    ensures { OnOk result (out.new ≡ fold S.then out.old (event_gives by.now.index.now.0 by.now.readers.now component
        state number)) }
{
    match life_event(by.index.app(), component, number) {
        None => Ok(()),
        Some(found) => {
            if found.event.from == state {
                let arrival = Arrival::lives(component, state, number);
                by.run(&arrival, &[], found.body, out)
            } else {
                Ok(())
            }
        }
    }
}

/// How many events the component's life has.
#[tactic(auto, using(event_rules::proofs::Counts::few_events, event_rules::proofs::Counts::as_many_events))]
fn event_count(app: &App, component: u32) -> u32
    ensures { result ≡ event_count app.now component }
{
    match app.components.get(component as usize) {
        None => 0,
        Some(component) => event_rows(component.kind).len() as u32,
    }
}

/// What follows by the events of the component's own life.
pub fn live_on<S: Sink>(
    by: &Indexed<'_>,
    component: u32,
    state: u8,
    out: &mut S,
) -> Result<(), S::Refusal>
    requires { SoundApp by.now.index.now.0 }
    ensures { OnOk result (out.new ≡ fold S.then out.old (life_gives by.now.index.now.0 by.now.readers.now component
        state)) }
{
    for event in 0..event_count(by.index.app(), component) {
        by_event(by, component, state, event, out)?;
    }
    Ok(())
}

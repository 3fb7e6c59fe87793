//! Rules 40 and 41: the events in a component's life.
ghost use Rattle.std.specs.Prelude.{◌≡◌, OnOk, fold};
ghost use Rattle.app_machine.specs.Sound.{SoundApp};
ghost use Rattle.event_rules.specs.EventGiven.{event_count, event_gives, leads_to, life_arrival, life_gives, life_rule};

use crate::arrival::Arrival;
use crate::known::Known;
use crate::numbers;
use app_machine::App;
use app_model::{event_rows, life_event};
use fact_rows::{Ctx, Site};
use rule_ground::{Conclusion, Premises, Sink};

/// A component in a state, and what is known of it there.
#[derive(Clone, Copy)]
pub struct Standing {
    pub component: u32,
    pub state: u8,
    pub known: Known,
}

fn rule_of(known: Known) -> u8
    ensures { result ≡ life_rule known }
{
    match known {
        Known::There => numbers::OWN_EVENT,
        Known::Leads(_, _) => numbers::OWN_EVENT_LABEL,
    }
}

/// By which rule and premises its events come to it, and what their receiver then holds.
fn arrival(standing: &Standing) -> Arrival
    ensures { result ≡ life_arrival standing.now }
{
    Arrival {
        rule: rule_of(standing.known),
        premises: Premises::of_one(standing.known.live(standing.component, standing.state)),
        content: standing.known.content(Site::Component(standing.component)),
    }
}

/// The same is known in the state after; of a component that is not there any more, that alone.
fn lead<S: Sink>(standing: &Standing, to: u8, out: &mut S) -> Result<(), S::Refusal>
    ensures { OnOk result (out.new ≡ fold S.then out.old (leads_to standing.now.known standing.now to)) }
{
    let found = Conclusion {
        rule: rule_of(standing.known),
        premises: Premises::of_one(standing.known.live(standing.component, standing.state)),
        row: standing.known.live(standing.component, to),
    };
    match standing.known {
        Known::There => out.put(found),
        Known::Leads(_, _) => { if to == 0 { Ok(()) } else { out.put(found) } }
    }
}

/// What follows by the event of this number, where it comes in that state.
fn by_event<S: Sink>(
    app: &App,
    standing: &Standing,
    number: u32,
    out: &mut S,
) -> Result<(), S::Refusal>
    requires { SoundApp app.now }
    ensures { OnOk result (out.new ≡ fold S.then out.old (event_gives app.now standing.now number)) }
{
    match life_event(app, standing.component, number) {
        None => Ok(()),
        Some(found) => {
            if found.event.from == standing.state {
                lead(standing, found.event.to, out)?;
                let ctx = Ctx::Row(standing.component, number);
                arrival(standing).run(app, ctx, found.body, out)
            } else {
                Ok(())
            }
        }
    }
}

/// How many events the component's life has.
#[tactic(auto, using(crate::proofs::Counts::few_events, crate::proofs::Counts::as_many_events))]
fn event_count(app: &App, component: u32) -> u32
    ensures { result ≡ event_count app.now component }
{
    match app.components.get(component as usize) {
        None => 0,
        Some(component) => event_rows(component.kind).len() as u32,
    }
}

/// What follows by the events of the component's own life.
pub fn live_on<S: Sink>(app: &App, standing: &Standing, out: &mut S) -> Result<(), S::Refusal>
    requires { SoundApp app.now }
    ensures { OnOk result (out.new ≡ fold S.then out.old (life_gives app.now standing.now)) }
{
    for event in 0..event_count(app, standing.component) {
        by_event(app, standing, event, out)?;
    }
    Ok(())
}

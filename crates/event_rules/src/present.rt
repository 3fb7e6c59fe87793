//! Rule 42: callbacks and clicks come to a component that is there.
ghost use Rattle.std.specs.Prelude.{◌≡◌, OnOk, fold, length};
ghost use Rattle.app_machine.specs.Sound.{SoundApp};
ghost use Rattle.event_rules.specs.EventGiven.{callbacks_give, click_gives, clicks_give};
ghost use Rattle.event_rules.specs.EventGiven.{present_arrival, present_gives};

use crate::arrival::{Arrival, On};
use crate::life::Standing;
use crate::numbers;
use app_machine::App;
use event_index::EventIndex;
use fact_rows::{Ctx, Site};
use rule_ground::{Premises, Sink};

/// By which rule and premises callbacks and clicks come to the component, and what their receiver then holds.
fn arrival(standing: &Standing) -> Arrival
    ensures { result ≡ present_arrival standing.now }
{
    Arrival {
        rule: numbers::PRESENT,
        premises: Premises::of_one(standing.known.live(standing.component, standing.state)),
        content: standing.known.content(Site::Component(standing.component)),
    }
}

/// The callbacks of the component's class come to it.
#[tactic(auto, using(crate::proofs::Calling::called_on, crate::proofs::Calling::none_called))]
fn by_callbacks<S: Sink>(
    index: &EventIndex<'_>,
    standing: &Standing,
    out: &mut S,
) -> Result<(), S::Refusal>
    requires { SoundApp index.now.0 }
    ensures { OnOk result (out.new ≡ fold S.then out.old (callbacks_give index.now.0 index.now.1 standing.now)) }
{
    match index.app().components.get(standing.component as usize) {
        None => Ok(()),
        Some(component) => {
            let on = On::Component(standing.component);
            arrival(standing).call_all(index, on, &component.class, out)
        }
    }
}

/// The click of this number, where the component has a body for it.
fn by_click<S: Sink>(
    index: &EventIndex<'_>,
    standing: &Standing,
    number: u32,
    out: &mut S,
) -> Result<(), S::Refusal>
    requires { SoundApp index.now.0 }
    ensures { OnOk result (out.new ≡ fold S.then out.old (click_gives index.now.0 standing.now number)) }
{
    let ctx = Ctx::Click(standing.component, number);
    let body = index.click_body(standing.component, number);
    arrival(standing).run(index.app(), ctx, body, out)
}

fn click_count(app: &App) -> u32
    requires { SoundApp app.now }
    ensures { result ≡ length app.now.clicks }
{
    app.clicks.len() as u32
}

fn by_clicks<S: Sink>(
    index: &EventIndex<'_>,
    standing: &Standing,
    out: &mut S,
) -> Result<(), S::Refusal>
    requires { SoundApp index.now.0 }
    ensures { OnOk result (out.new ≡ fold S.then out.old (clicks_give index.now.0 standing.now)) }
{
    for number in 0..click_count(index.app()) {
        by_click(index, standing, number, out)?;
    }
    Ok(())
}

/// What comes to a component that is there.
pub fn come<S: Sink>(
    index: &EventIndex<'_>,
    standing: &Standing,
    out: &mut S,
) -> Result<(), S::Refusal>
    requires { SoundApp index.now.0 }
    ensures { OnOk result (out.new ≡ fold S.then out.old (present_gives index.now.0 index.now.1 standing.now)) }
{
    by_callbacks(index, standing, out)?;
    by_clicks(index, standing, out)
}

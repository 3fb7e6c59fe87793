//! Rule 42: clicks come to a component that is there.
ghost use Rattle.std.specs.Prelude.{◌≡◌, OnOk, fold, length};
ghost use Rattle.app_machine.specs.Sound.{SoundApp};
ghost use Rattle.cell_event_rules.specs.CellEventGiven.{click_gives, clicks_give};

use crate::indexed::Indexed;
use crate::receiver::Arrival;
use app_machine::App;
use rule_ground::Sink;

/// The click of this number, where the component has a body for it.
fn by_click<S: Sink>(
    by: &Indexed<'_>,
    component: u32,
    state: u8,
    number: u32,
    out: &mut S,
) -> Result<(), S::Refusal>
    requires { SoundApp by.now.index.now.0 }
    ensures { OnOk result (out.new ≡ fold S.then out.old (click_gives by.now.index.now.0 by.now.readers.now component
        state number)) }
{
    let arrival = Arrival::clicked(component, state, number);
    let body = by.index.click_body(component, number);
    by.run(&arrival, &[], body, out)
}

fn click_count(app: &App) -> u32
    requires { SoundApp app.now }
    ensures { result ≡ length app.now.clicks }
{
    app.clicks.len() as u32
}

/// Each click.
pub fn by_clicks<S: Sink>(
    by: &Indexed<'_>,
    component: u32,
    state: u8,
    out: &mut S,
) -> Result<(), S::Refusal>
    requires { SoundApp by.now.index.now.0 }
    ensures { OnOk result (out.new ≡ fold S.then out.old (clicks_give by.now.index.now.0 by.now.readers.now component
        state)) }
{
    for number in 0..click_count(by.index.app()) {
        by_click(by, component, state, number, out)?;
    }
    Ok(())
}

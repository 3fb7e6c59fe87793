//! Rule 47: once the application was created every other component may come to life.
ghost use Rattle.std.specs.Prelude.{◌≡◌, OnOk, fold, length, slice_get};
ghost use Rattle.app_machine.specs.Sound.{SoundApp};
ghost use Rattle.event_rules.specs.EventGiven.{created_gives, other_lives, others_live};
ghost use Rattle.app_rows.specs.Application.{is_application as is_application_in};

use crate::numbers;
use app_machine::App;
use app_model::is_application;
use fact_rows::Row;
use rule_ground::{Conclusion, Premises, Sink};

#[tactic(auto, using(app_rows::specs::Application::same_test))]
fn is_the_application(app: &App, component: u32) -> bool
    ensures { result ≡ is_application_in (slice_get app.now.components component) }
{
    is_application(app, component)
}

/// The component may come to life, where it is another one.
fn other<S: Sink>(application: u32, component: u32, out: &mut S) -> Result<(), S::Refusal>
    ensures { OnOk result (out.new ≡ fold S.then out.old (other_lives application component)) }
{
    if component == application {
        return Ok(());
    }
    out.put(Conclusion {
        rule: numbers::APPLICATION,
        premises: Premises::of_one(Row::Live(application, 2)),
        row: Row::Live(component, 0),
    })
}

fn component_count(app: &App) -> u32
    requires { SoundApp app.now }
    ensures { result ≡ length app.now.components }
{
    app.components.len() as u32
}

fn others<S: Sink>(app: &App, application: u32, out: &mut S) -> Result<(), S::Refusal>
    requires { SoundApp app.now }
    ensures { OnOk result (out.new ≡ fold S.then out.old (others_live app.now application)) }
{
    for component in 0..component_count(app) {
        other(application, component, out)?;
    }
    Ok(())
}

/// What follows where the component is in the state 2.
pub fn created<S: Sink>(app: &App, component: u32, out: &mut S) -> Result<(), S::Refusal>
    requires { SoundApp app.now }
    ensures { OnOk result (out.new ≡ fold S.then out.old (created_gives app.now component)) }
{
    if is_the_application(app, component) {
        others(app, component, out)
    } else {
        Ok(())
    }
}

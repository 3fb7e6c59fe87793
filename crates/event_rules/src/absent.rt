//! Rule 44: the class of a component that is not there may be initialised.
ghost use Rattle.std.specs.Prelude.{◌≡◌, OnOk, fold, flat_map};
ghost use Rattle.app_machine.specs.Sound.{SoundApp};
ghost use Rattle.app_model.specs.Initialisers.{initialisers_left};
ghost use Rattle.event_rules.specs.EventGiven.{absent_gives, initialiser_begins};

use crate::numbers;
use app_machine::App;
use app_model::{InitialiserWalk, component_initialisers, next_initialiser};
use begin_rules::{Start, begin};
use fact_rows::{Ctx, Row};
use rule_ground::{Premises, Sink};

/// The initialiser begins.
fn initialise<S: Sink>(app: &App, component: u32, body: u32, out: &mut S) -> Result<(), S::Refusal>
    requires { SoundApp app.now }
    ensures { OnOk result (out.new ≡ fold S.then out.old (initialiser_begins app.now component body)) }
{
    let start = Start {
        rule: numbers::ABSENT,
        premises: Premises::of_one(Row::Live(component, 0)),
        ctx: Ctx::Init(component),
        body,
    };
    begin(app, &start, &[], out)
}

/// The rest of them begin.
fn initialise_left<S: Sink>(
    app: &App,
    component: u32,
    walk: InitialiserWalk<'_>,
    out: &mut S,
) -> Result<(), S::Refusal>
    requires { SoundApp app.now }
    ensures { OnOk result (out.new ≡ fold S.then out.old (flat_map (initialiser_begins app.now component)
        (initialisers_left app.now walk.entry))) }
{
    let mut left = walk;
    while let Some((body, rest)) = next_initialiser(app, left) {
        initialise(app, component, body, out)?;
        left = rest;
    }
    Ok(())
}

/// Each initialiser of the class, and of the app classes above it, begins.
pub fn initialise_class<S: Sink>(app: &App, component: u32, out: &mut S) -> Result<(), S::Refusal>
    requires { SoundApp app.now }
    ensures { OnOk result (out.new ≡ fold S.then out.old (absent_gives app.now component)) }
{
    initialise_left(app, component, component_initialisers(app, component), out)
}

//! The rows with which a table of facts starts.
ghost use Rattle.std.specs.Prelude.{◌≡◌, length, slice_get};
ghost use Rattle.app_machine.specs.declared.app.App.{App as AnApp};
ghost use Rattle.app_machine.specs.Events.{IsApplication};
ghost use Rattle.app_machine.specs.Sound.{SoundApp};
ghost use Rattle.app_rows.specs.StartLaws.{StartsAreExact};
ghost use Rattle.app_rows.specs.StartRows.{start_count, start_rows};

use app_machine::App;
use app_model::is_application;
use fact_rows::Row;
use std::marker::Model;

/// The start rows of an app, in ascending order. The application is looked for once.
#[derive(Drop)]
pub struct StartRows {
    /// How many components, from the first on, may come to life at once.
    count: u32,
}

impl Model for StartRows {
    ghost use Rattle.std.specs.Prelude.{List};
    ghost use Rattle.fact_rows.specs.declared.row.Row.{Row};
    ghost use Rattle.app_rows.specs.StartRows.{lives_from};

    ghost Value = { List Row };

    ghost view = { λ s. lives_from 0 s.count };
}

impl StartRows {
    /// The application's, where there is one, which is the first component; else that of each component.
    pub fn new(app: &App) -> StartRows
        requires { SoundApp app.now }
        ensures { result ≡ start_rows app.now }
    {
        StartRows {
            count: start_count(app),
        }
    }

    /// How many they are.
    pub fn len(&self) -> usize
        ensures { result ≡ length self.now }
    {
        self.count as usize
    }

    /// The row of this number. None exactly where there are no more.
    pub fn row(&self, place: usize) -> Option<Row>
        ensures { result ≡ slice_get self.now place }
    {
        if place < self.count as usize {
            Some(Row::Live(place as u32, 0))
        } else {
            None
        }
    }
}

#[tactic(auto, using(crate::specs::Application::same_test))]
fn start_count(app: &App) -> u32
    requires { SoundApp app.now }
    ensures { result ≡ start_count app.now }
{
    if is_application(app, 0) {
        1
    } else {
        app.components.len() as u32
    }
}

/// In a sound app the start rows are just those with which a derivation may start, and they ascend:
/// the first of them that a table does not have is the least.
pub fn starts_are_exact()
    ensures { (app : AnApp) → SoundApp app → StartsAreExact app }
{}

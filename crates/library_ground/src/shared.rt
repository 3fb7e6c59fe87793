ghost use Rattle.std.specs.Prelude.{◌≡◌, ◌<◌};
ghost use Rattle.app_machine.specs.Sound.{SoundApp};
ghost use Rattle.app_machine.specs.State.{shared_static};

use app_machine::App;

/// The number of a shared object's static: those of the app stand first.
pub fn shared_static(app: &App, number: u32) -> u32
    requires sound { SoundApp app.now }
    requires small { number < 65536 }
    ensures { result ≡ shared_static app.now number }
{
    app.statics.len() as u32 + number
}

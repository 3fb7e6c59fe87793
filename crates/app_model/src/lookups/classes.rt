ghost use Rattle.std.specs.Prelude.{◌≡◌, ◌<◌, IfNone, IfSome, None, length, slice_get};
ghost use Rattle.std.specs.Option.{option_copied};
ghost use Rattle.app_machine.specs.Lookups.{class_named};
ghost use Rattle.app_machine.specs.Sound.{SoundApp};

use crate::{App, Class};

/// The class of the app with this name.
pub fn class_of<'a>(app: &'a App, name: &[u8]) -> Option<&'a Class>
    requires { SoundApp app.now }
    ensures { option_copied result ≡ class_named app.now name.now }
{
    match number_of(app, name) {
        Some(i) => app.classes.get(i),
        None => None,
    }
}

/// The number of the class of the app with this name.
pub(super) fn number_of(app: &App, name: &[u8]) -> Option<usize>
    requires { SoundApp app.now }
    ensures none { IfNone result (class_named app.now name.now ≡ None) }
    ensures within { IfSome result (λ i. i < length app.now.classes) }
    ensures found { IfSome result (λ i. slice_get app.now.classes i ≡ class_named app.now name.now) }
{
    let classes = app.classes.as_slice();
    match classes.binary_search_by(|class| class.name.as_bytes().cmp(name)) {
        Ok(i) => Some(i),
        Err(_) => None,
    }
}

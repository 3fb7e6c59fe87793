//! Names as they are compared.
ghost use Rattle.std.specs.Prelude.{◌≡◌, ◌<◌, IfNone, IfSome, None, length, slice_get};
ghost use Rattle.app_machine.specs.Lookups.{class_named};
ghost use Rattle.app_machine.specs.Names.{object_class};
ghost use Rattle.app_machine.specs.Sound.{SoundApp};

use app_machine::App;

#[tactic(auto, unfolding(app_machine::specs::Names::object_class))]
pub fn object_name() -> &'static [u8]
    ensures { result.now ≡ object_class }
{
    b"Ljava/lang/Object;"
}

/// The number of the class of the app with this name.
pub fn number_of(app: &App, name: &[u8]) -> Option<usize>
    requires { SoundApp app.now }
    ensures none { IfNone result (class_named app.now name.now ≡ None) }
    ensures within { IfSome result (λ i. i < length app.now.classes) }
    ensures found { IfSome result (λ i. slice_get app.now.classes i ≡ class_named app.now name.now) }
{
    let classes = app.classes.as_slice();
    match classes.binary_search_by(|class| class.name.as_bytes().cmp(name)) {
        Ok(i) => Some(i),
        Err(_) => None,
    }
}

ghost use Rattle.std.specs.Prelude.{◌≡◌, ◌<◌, length, option_map};
ghost use Rattle.std.specs.Option.{option_copied};
ghost use Rattle.app_machine.specs.Lookups.{target, virtual_target, superclass_of_caller};
ghost use Rattle.app_machine.specs.Lookups.{lists_bare, find_body, body_or, Library};
ghost use Rattle.app_machine.specs.Sound.{SoundApp};
ghost use Rattle.app_model.specs.Targets.{shown_target};

use crate::lookups::above::{Quality, any_above};
use crate::lookups::classes::class_of;
use crate::lookups::upward::find_body;
use crate::{App, CallKind, MethodRef, Target};
use vet_base::Name;

/// What a call of the kind comes to, in the method numbered `caller`, by the class of the receiver's
/// object where the receiver has a place. The name of a library class is that of `at` or `class`.
#[tactic(auto, unfolding(app_machine::specs::Lookups::target))]
pub fn target<'a>(
    app: &App,
    kind: CallKind,
    caller: u32,
    at: &'a MethodRef,
    class: Option<&'a Name>,
) -> Target<'a>
    requires sound { SoundApp app.now }
    requires caller { caller < length app.now.methods }
    ensures { shown_target result ≡ target app.now kind caller at.now (option_copied class.entry) }
{
    match kind {
        CallKind::Static | CallKind::Direct => body_from(app, &at.class, at, &at.class),
        CallKind::Super => match superclass_of(app, caller) {
            Some(superclass) => body_from(app, superclass, at, &at.class),
            None => Target::Library(&at.class),
        },
        CallKind::Virtual | CallKind::Interface => match class {
            Some(class) => by_class(app, at, class),
            None => without_receiver(app, at),
        },
    }
}

/// The body of the method from this class upward, else a class of the library.
fn body_from<'a>(app: &App, class: &Name, at: &MethodRef, library: &'a Name) -> Target<'a>
    requires { SoundApp app.now }
    ensures { shown_target result ≡ body_or (find_body app.now class.now at.now.name at.now.proto)
        (Library library.now) }
{
    match find_body(app, class, &at.name, &at.proto) {
        Some(body) => Target::Body(body),
        None => Target::Library(library),
    }
}

/// The superclass of the class in which the method numbered `caller` stands.
#[tactic(auto, unfolding(app_machine::specs::Lookups::superclass_of_caller))]
fn superclass_of(app: &App, caller: u32) -> Option<&Name>
    requires sound { SoundApp app.now }
    requires caller { caller < length app.now.methods }
    ensures { option_copied result ≡ superclass_of_caller app.now caller }
{
    let method = app.methods.at(caller as usize);
    match class_of(app, method.at.class.as_bytes()) {
        Some(class) => class.superclass.as_ref(),
        None => None,
    }
}

/// By the class of the receiver's object.
fn by_class<'a>(app: &App, at: &'a MethodRef, class: &'a Name) -> Target<'a>
    requires { SoundApp app.now }
    ensures { shown_target result ≡ virtual_target app.now at.now (Some class.now) }
{
    let of_app = class_of(app, at.class.as_bytes()).is_some();
    body_from(app, class, at, if of_app { class } else { &at.class })
}

/// Where the receiver has no place.
fn without_receiver<'a>(app: &App, at: &'a MethodRef) -> Target<'a>
    requires { SoundApp app.now }
    ensures { shown_target result ≡ virtual_target app.now at.now None }
{
    if find_body(app, &at.class, &at.name, &at.proto).is_some() || lists_bare(app, at) {
        Target::Nothing
    } else {
        Target::Library(&at.class)
    }
}

/// Whether the class, or an app class or interface above it, has the method without code.
#[tactic(auto, unfolding(app_machine::specs::Lookups::lists_bare, crate::specs::Above::has_bare))]
fn lists_bare(app: &App, at: &MethodRef) -> bool
    requires { SoundApp app.now }
    ensures { result ≡ lists_bare app.now at.now.class at.now.name at.now.proto }
{
    any_above(app, at.class.as_bytes(), Quality::Bare(&at.name, &at.proto))
}

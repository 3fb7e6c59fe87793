ghost use Rattle.std.specs.Prelude.{◌≡◌};
ghost use Rattle.vet_base.specs.Members.{first_given};
ghost use Rattle.app_machine.specs.Lookups.{find_body, body_named, instance_key, up};
ghost use Rattle.app_machine.specs.Sound.{SoundApp};
ghost use Rattle.app_model.specs.Upward.{defined};

use crate::lookups::class_walk::{classes_upward, next_class};
use crate::lookups::fields::field_of;
use crate::lookups::methods::{method_of, method_with};
use crate::{App, Class, Proto};
use vet_base::{KeyId, Name};

/// What a class may define.
#[derive(Clone, Copy)]
enum Member<'a> {
    /// A method with code or native, by name and prototype.
    Method(&'a [u8], &'a Proto),
    /// The same by name and the text of its descriptor.
    MethodNamed(&'a [u8], &'a [u8]),
    /// An instance field, by name and type.
    Field(&'a [u8], &'a [u8]),
}

/// The number of the method of the first class, from `class` upward along superclasses, that
/// defines it with code or as native. None exactly where no app class on the way does.
#[tactic(auto, unfolding(app_machine::specs::Lookups::find_body))]
pub fn find_body(app: &App, class: &Name, name: &Name, proto: &Proto) -> Option<u32>
    requires { SoundApp app.now }
    ensures { result ≡ find_body app.now class.now name.now proto.now }
{
    first_upward(
        app,
        class.as_bytes(),
        Member::Method(name.as_bytes(), proto),
    )
}

/// As `find_body`, with the name and the text of the descriptor as bytes.
#[tactic(auto, unfolding(app_machine::specs::Lookups::body_named))]
pub fn body_named(app: &App, class: &Name, name: &[u8], descriptor: &[u8]) -> Option<u32>
    requires { SoundApp app.now }
    ensures { result ≡ body_named app.now class.now name.now descriptor.now }
{
    first_upward(app, class.as_bytes(), Member::MethodNamed(name, descriptor))
}

/// The key of the field of the first class, from `class` upward along superclasses, that defines
/// an instance field of that name and type; else that of all elements.
pub fn instance_key(app: &App, class: &Name, name: &Name, kind: &Name) -> KeyId
    requires { SoundApp app.now }
    ensures { result ≡ instance_key app.now class.now name.now kind.now }
{
    match first_upward(
        app,
        class.as_bytes(),
        Member::Field(name.as_bytes(), kind.as_bytes()),
    ) {
        Some(key) => KeyId(key),
        None => KeyId(0),
    }
}

/// The number of the member of the first class, from this one upward along superclasses, that defines it.
#[tactic(auto, using(vet_base::proofs::Firsts::first_begins, vet_base::proofs::Firsts::first_found, vet_base::proofs::Firsts::first_later, vet_base::proofs::Firsts::first_nowhere))]
fn first_upward(app: &App, class: &[u8], member: Member) -> Option<u32>
    requires { SoundApp app.now }
    ensures { result ≡ first_given (defined app.now member.entry) (up app.now class.now) }
{
    let mut walk = classes_upward(app, class);
    while let Some((class, rest)) = next_class(app, walk) {
        if let Some(number) = defined(app, class, member) {
            return Some(number);
        }
        walk = rest;
    }
    None
}

/// The number of the member, where the class itself defines it.
fn defined(app: &App, class: &Class, member: Member) -> Option<u32>
    requires { SoundApp app.now }
    ensures { result ≡ defined app.now member.entry class.now }
{
    match member {
        Member::Method(name, proto) => method_of(app, class.name.as_bytes(), name, proto),
        Member::MethodNamed(name, descriptor) => {
            method_with(app, class.name.as_bytes(), name, descriptor)
        }
        Member::Field(name, kind) => field_of(app, class.name.as_bytes(), name, kind),
    }
}

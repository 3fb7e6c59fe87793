//! The classes of the lists at which a row or a default is looked for, in order.
ghost use Rattle.std.specs.Prelude.{◌≡◌};
ghost use Rattle.vet_base.specs.Members.{first_given};
ghost use Rattle.app_machine.specs.Names.{is_array, object_class};
ghost use Rattle.app_machine.specs.Sound.{SoundApp};
ghost use Rattle.app_machine.specs.Summaries.{row_walk};
ghost use Rattle.app_index.specs.Walk.{found, found_above};

use crate::LibraryIndex;
use app_machine::{App, Proto};
use app_model::class_of;
use vet_base::Name;

/// What is looked for in the listed classes.
#[derive(Clone, Copy)]
pub enum Wanted<'a> {
    /// A method row, by name, descriptor and whether it is static.
    Row(&'a Name, &'a Proto, bool),
    /// A default.
    Default,
}

/// The first that is found on the walk of the class.
#[tactic(auto, unfolding(app_machine::specs::Summaries::row_walk, app_machine::specs::Summaries::library_classes, crate::specs::Walk::found_above), using(vet_base::proofs::Firsts::given_of_each))]
pub fn on_walk(app: &App, index: &LibraryIndex<'_>, class: &Name, wanted: Wanted) -> Option<u32>
    requires { SoundApp app.now }
    ensures { result ≡ first_given (found index.now wanted.entry) (row_walk app.now index.now class.now) }
{
    match class_of(app, class.as_bytes()) {
        Some(class) => above_each(index, class.outer.as_slice(), wanted),
        None if starts_array(class.as_bytes()) => above(index, object_name(), wanted),
        None => above(index, class.as_bytes(), wanted),
    }
}

/// The first that is found at a listed class above one of these.
#[tactic(auto, using(crate::proofs::First::nothing_before, crate::proofs::First::nothing_up_to, crate::proofs::First::given_at, crate::proofs::First::nothing_at_all))]
fn above_each(index: &LibraryIndex<'_>, classes: &[Name], wanted: Wanted) -> Option<u32>
    ensures { result ≡ first_given (found_above index.now wanted.entry) classes.now }
{
    for class in classes {
        if let Some(number) = above(index, class.as_bytes(), wanted) {
            return Some(number);
        }
    }
    None
}

/// The first that is found at a listed class above this one.
#[tactic(auto, unfolding(crate::specs::Walk::found_above, app_machine::specs::Summaries::listed_above))]
fn above(index: &LibraryIndex<'_>, class: &[u8], wanted: Wanted) -> Option<u32>
    ensures { result ≡ found_above index.now wanted.entry class.now }
{
    match index.listed(class) {
        Some(class) => at_each(index, class.above.as_slice(), wanted),
        None => None,
    }
}

/// The first that is found at one of these classes.
#[tactic(auto, using(crate::proofs::First::nothing_before, crate::proofs::First::nothing_up_to, crate::proofs::First::given_at, crate::proofs::First::nothing_at_all))]
fn at_each(index: &LibraryIndex<'_>, classes: &[Name], wanted: Wanted) -> Option<u32>
    ensures { result ≡ first_given (found index.now wanted.entry) classes.now }
{
    for class in classes {
        if let Some(number) = index.at(class, wanted) {
            return Some(number);
        }
    }
    None
}

/// Whether the type is an array.
#[tactic(auto, unfolding(app_machine::specs::Names::is_array))]
fn starts_array(name: &[u8]) -> bool
    ensures { result ≡ is_array name.now }
{
    match name.first() {
        Some(byte) => *byte == b'[',
        None => false,
    }
}

#[tactic(auto, unfolding(app_machine::specs::Names::object_class))]
fn object_name() -> &'static [u8]
    ensures { result.now ≡ object_class }
{
    b"Ljava/lang/Object;"
}

ghost use Rattle.std.specs.Prelude.{◌≡◌, ◌∷◌, false};
ghost use Rattle.std.specs.Option.{MatchOption};
ghost use Rattle.app_machine.specs.Names.{array_types, is_array, is_reference};
ghost use Rattle.app_machine.specs.Sound.{SoundApp};
ghost use Rattle.app_model.specs.Above.{is_among, is_array_below};

use crate::lookups::above::is_class_below;
use crate::{App, Lists};
use vet_base::Name;

/// Whether `class` is an array, and below the type `kind` as one: `kind` is above all arrays, or it
/// is an array too, and the elements are of a reference type below that of its elements.
pub fn array_below(app: &App, lists: &Lists, class: &Name, kind: &Name) -> bool
    requires { SoundApp app.now }
    ensures { result ≡ is_array_below app.now lists.now class.now kind.now }
{
    is_array_below(app, lists, class.as_bytes(), kind.as_bytes())
}

fn is_array_below(app: &App, lists: &Lists, class: &[u8], kind: &[u8]) -> bool
    requires { SoundApp app.now }
    ensures { result ≡ is_array_below app.now lists.now class.now kind.now }
{
    let mut class = class;
    let mut kind = kind;
    while let Some(elements) = elements_of(class) {
        if is_above_arrays(kind) {
            return true;
        }
        let Some(asked) = elements_of(kind) else {
            return false;
        };
        if !is_reference_type(elements) {
            return false;
        }
        if is_class_below(app, lists, elements, asked) {
            return true;
        }
        class = elements;
        kind = asked;
    }
    false
}

/// The type of the elements, where the type is an array.
#[tactic(auto, unfolding(app_machine::specs::Names::is_array))]
fn elements_of(kind: &[u8]) -> Option<&[u8]>
    ensures { MatchOption result (is_array kind.now ≡ false) (λ elements. kind.now ≡ 91 ∷ elements.now) }
{
    match kind.split_first() {
        Some((first, elements)) => { if *first == b'[' { Some(elements) } else { None } }
        None => None,
    }
}

/// Whether the type is one of the interfaces above all arrays.
#[tactic(auto, unfolding(app_machine::specs::Names::array_types, crate::specs::Above::is_among))]
fn is_above_arrays(kind: &[u8]) -> bool
    ensures { result ≡ is_among array_types kind.now }
{
    b"Ljava/lang/Cloneable;".as_slice() == kind || b"Ljava/io/Serializable;".as_slice() == kind
}

#[tactic(auto, unfolding(app_machine::specs::Names::is_reference))]
fn is_reference_type(kind: &[u8]) -> bool
    ensures { result ≡ is_reference kind.now }
{
    match kind.first() {
        Some(byte) => *byte == b'L' || *byte == b'[',
        None => false,
    }
}

ghost use Rattle.std.specs.Prelude.{◌≡◌, ◌≤◌, ◌↔◌, [], ◌∷◌, IsTrue, flat_map, length};
ghost use Rattle.std.specs.List.{list_any};
ghost use Rattle.app_machine.specs.Lookups.{above_within, all_above};
ghost use Rattle.app_model.specs.Marks.{is_marked};
ghost use Rattle.app_model.specs.Met.{Adds};
ghost use Rattle.app_machine.specs.Sound.{SoundApp};
ghost use Rattle.app_machine.specs.Summaries.{Below};
ghost use Rattle.app_model.specs.Above.{has, any_listed_below, has_bare, has_below, is_below, is_class_below};

use crate::lookups::arrays::array_below;
use crate::lookups::classes::{class_of, number_of};
use crate::lookups::equality::is_same_proto;
use crate::lookups::library::{is_listed_below, object_name};
use crate::lookups::marks::{Marks, ROOM};
use crate::{App, Class, Lists, Proto};
use vet_base::Name;

/// What is asked of the app classes and interfaces above a class.
#[derive(Clone, Copy)]
pub(super) enum Quality<'a> {
    /// It has the method without code.
    Bare(&'a Name, &'a Proto),
    /// A class or interface directly above it is of this name, or the lists have that name above it.
    Below(&'a Lists, &'a [u8]),
}

/// Whether a value of the class may stand where the type `kind` is asked for: as a class or
/// interface, or as an array.
pub fn below(app: &App, lists: &Lists, class: &Name, kind: &Name) -> bool
    requires { SoundApp app.now }
    ensures same { result ≡ is_below app.now lists.now class.now kind.now }
    ensures exact { IsTrue result ↔ Below app.now lists.now class.now kind.now }
{
    is_below(app, lists, class, kind)
}

#[tactic(auto, unfolding(crate::specs::Above::is_below))]
fn is_below(app: &App, lists: &Lists, class: &Name, kind: &Name) -> bool
    requires { SoundApp app.now }
    ensures { result ≡ is_below app.now lists.now class.now kind.now }
{
    class_below(app, lists, class, kind) || array_below(app, lists, class, kind)
}

/// Whether the class or interface is below the type `kind`: they are equal, `kind` is
/// `Ljava/lang/Object;`, a class or interface directly above the app class `class` is below `kind`,
/// or the lists have `kind` above `class`.
pub fn class_below(app: &App, lists: &Lists, class: &Name, kind: &Name) -> bool
    requires { SoundApp app.now }
    ensures { result ≡ is_class_below app.now lists.now class.now kind.now }
{
    is_class_below(app, lists, class.as_bytes(), kind.as_bytes())
}

#[tactic(auto, unfolding(crate::specs::Above::is_class_below))]
pub(super) fn is_class_below(app: &App, lists: &Lists, class: &[u8], kind: &[u8]) -> bool
    requires { SoundApp app.now }
    ensures { result ≡ is_class_below app.now lists.now class.now kind.now }
{
    kind == object_name()
        || is_listed_below(lists, class, kind)
        || any_above(app, class, Quality::Below(lists, kind))
}

/// Whether the class, or an app class or interface above it, has the quality. Each class is asked
/// once, where they are few enough to be marked.
#[tactic(auto, unfolding(app_machine::specs::Lookups::all_above), using(crate::proofs::Above::any_outside))]
pub(super) fn any_above(app: &App, class: &[u8], quality: Quality) -> bool
    requires { SoundApp app.now }
    ensures { result ≡ list_any (has quality.entry) (all_above app.now class.now) }
{
    // most classes are not of the app, and for those no marks are set up
    if number_of(app, class).is_none() {
        return false;
    }
    if app.classes.len() <= ROOM {
        any_marked(app, class, quality)
    } else {
        any_by_all_ways(app, class, quality)
    }
}

/// The same, class by class, with marks for those that were met and those that wait for their turn.
/// A turn costs the halving for each class directly above.
fn any_marked(app: &App, class: &[u8], quality: Quality) -> bool
    requires sound { SoundApp app.now }
    requires room { length app.now.classes ≤ 131072 }
    ensures { result ≡ list_any (has quality.entry) (all_above app.now class.now) }
{
    let mut seen = Marks::new();
    let mut waiting = Marks::new();
    add(app, class, &mut seen, &mut waiting);
    while let Some(i) = waiting.first() {
        waiting.remove(i);
        let class = app.classes.at(i);
        if has(class, quality) {
            return true;
        }
        add_each(app, class.superclass.as_slice(), &mut seen, &mut waiting);
        add_each(app, class.interfaces.as_slice(), &mut seen, &mut waiting);
    }
    false
}

/// Adds the classes of these names to those that wait, where they were not seen.
fn add_each(app: &App, names: &[Name], seen: &mut Marks, waiting: &mut Marks)
    requires sound { SoundApp app.now }
    requires room { length app.now.classes ≤ 131072 }
    ensures { Adds app.now names.now (is_marked seen.old.words) (is_marked waiting.old.words) (is_marked seen.new.words)
        (is_marked waiting.new.words) }
{
    for name in names {
        add(app, name.as_bytes(), seen, waiting);
    }
}

/// Adds the class of the name to those that wait, where it was not seen.
#[tactic(auto, using(crate::proofs::Searches::adds_no_class, crate::proofs::Searches::adds_seen, crate::proofs::Searches::adds_found))]
fn add(app: &App, name: &[u8], seen: &mut Marks, waiting: &mut Marks)
    requires sound { SoundApp app.now }
    requires room { length app.now.classes ≤ 131072 }
    ensures { Adds app.now (name.now ∷ []) (is_marked seen.old.words) (is_marked waiting.old.words)
        (is_marked seen.new.words) (is_marked waiting.new.words) }
{
    let Some(i) = number_of(app, name) else {
        return;
    };
    if seen.has(i) {
        return;
    }
    seen.insert(i);
    waiting.insert(i);
}

/// The same for more classes than can be marked: by every way upward, so that a class is asked as
/// often as ways lead to it.
#[tactic(auto, unfolding(app_machine::specs::Lookups::all_above))]
fn any_by_all_ways(app: &App, class: &[u8], quality: Quality) -> bool
    requires { SoundApp app.now }
    ensures { result ≡ list_any (has quality.entry) (all_above app.now class.now) }
{
    any_within(app, class, quality, app.classes.len())
}

/// The same within so many steps upward.
#[cycle(upward)]
#[tactic(auto, using(crate::proofs::Above::any_outside, crate::proofs::Above::any_after_no_step))]
fn any_within(app: &App, class: &[u8], quality: Quality, steps: usize) -> bool
    requires { SoundApp app.now }
    ensures { result ≡ list_any (has quality.entry) (above_within steps app.now.classes class.now) }
{
    if steps == 0 {
        return false;
    }
    match class_of(app, class) {
        Some(class) => {
            if has(class, quality) {
                return true;
            }
            if any_of(app, class.superclass.as_slice(), quality, steps - 1) {
                return true;
            }
            any_of(app, class.interfaces.as_slice(), quality, steps - 1)
        }
        None => false,
    }
}

/// Whether one of the classes has it, within so many steps upward.
#[cycle(upward)]
#[tactic(auto, using(crate::proofs::Above::none_first, crate::proofs::Above::none_more, crate::proofs::Above::one_has, crate::proofs::Above::none_has))]
fn any_of(app: &App, classes: &[Name], quality: Quality, steps: usize) -> bool
    requires { SoundApp app.now }
    ensures { result ≡ list_any (has quality.entry) (flat_map (above_within steps app.now.classes) classes.now) }
{
    for class in classes {
        if any_within(app, class.as_bytes(), quality, steps) {
            return true;
        }
    }
    false
}

fn has(class: &Class, quality: Quality) -> bool
    ensures { result ≡ has quality.entry class.now }
{
    match quality {
        Quality::Bare(name, proto) => has_bare(class, name, proto),
        Quality::Below(lists, kind) => has_below(class, lists, kind),
    }
}

/// Whether the class has the method without code.
#[tactic(auto, unfolding(crate::specs::Above::has_bare))]
fn has_bare(class: &Class, name: &Name, proto: &Proto) -> bool
    ensures { result ≡ has_bare class.now name.now proto.now }
{
    class
        .bare
        .as_slice()
        .iter()
        .any(|bare| bare.0 == *name && is_same_proto(&bare.1, proto))
}

/// Whether a class or interface directly above the class is of this name, or the lists have the
/// name above it.
#[tactic(auto, using(crate::proofs::Above::below_parts))]
fn has_below(class: &Class, lists: &Lists, kind: &[u8]) -> bool
    ensures { result ≡ has_below class.now lists.now kind.now }
{
    is_any_listed_below(lists, class.superclass.as_slice(), kind)
        || is_any_listed_below(lists, class.interfaces.as_slice(), kind)
}

#[tactic(auto, unfolding(crate::specs::Above::any_listed_below))]
fn is_any_listed_below(lists: &Lists, classes: &[Name], kind: &[u8]) -> bool
    ensures { result ≡ any_listed_below lists.now classes.now kind.now }
{
    classes
        .iter()
        .any(|class| is_listed_below(lists, class.as_bytes(), kind))
}

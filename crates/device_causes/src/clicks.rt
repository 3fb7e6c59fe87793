//! Clicks that come to what is no activity, and clicks of menus.

ghost use Rattle.std.specs.Prelude.{◌≡◌, ◌++◌, IfOk, OnOk};
ghost use Rattle.app_machine.specs.Names.{click_descriptor, same_name};
ghost use Rattle.app_machine.specs.Sound.{SoundApp};
ghost use Rattle.device_causes.specs.Clicks.{context_class, menu_descriptor, context_names, any_context};
ghost use Rattle.device_causes.specs.Clicks.{is_context, is_activity, activity_names, all_activity_names};
ghost use Rattle.device_causes.specs.Clicks.{comes_elsewhere, is_odd_click, clicks_in, odd_clicks};
ghost use Rattle.device_causes.specs.Sets.{is_among, IsSetOf};

use crate::interfaces::method_named;
use crate::sets::NameSet;
use crate::superclasses::add_upward;
use app_machine::{App, Component, Kind, LibClass, Lists};
use app_model::class_of;
use link_access::{Accesses, ClassAccess, MethodAccess};
use link_listing::Triple;
use outcomes::copied;
use std::alloc::Global;
use vet_base::{Memory, Name};

#[tactic(auto, unfolding(crate::specs::Clicks::context_class))]
fn context_class() -> &'static [u8]
    ensures { result.now ≡ context_class }
{
    b"Landroid/content/Context;"
}

/// Whether the lists have the context of layouts above the class.
#[tactic(auto, unfolding(crate::specs::Sets::is_among))]
fn is_below_context(class: &LibClass) -> bool
    ensures { result ≡ is_among class.now.above context_class }
{
    let context = context_class();
    class
        .above
        .as_slice()
        .iter()
        .any(|name| context == name.as_bytes())
}

/// The context of layouts, and the names of the listed classes below it.
#[tactic(auto, unfolding(crate::specs::Clicks::context_names))]
fn context_names(alloc: Global, lists: &Lists) -> Result<Vec<Name>, Memory>
    ensures { IfOk result (λ v. v.items ≡ context_names lists.now) }
{
    let mut names = Vec::new(alloc);
    names.push(Name::from_bytes(alloc, context_class())?)?;
    for class in lists.classes.as_slice() {
        if is_below_context(class) {
            names.push(class.name.copy()?)?;
        }
    }
    Ok(names)
}

fn is_activity(kind: Kind) -> bool
    ensures { result ≡ is_activity kind }
{
    match kind {
        Kind::Activity => true,
        Kind::Application | Kind::Service | Kind::Receiver => false,
    }
}

#[tactic(auto, unfolding(crate::specs::Clicks::activity_names))]
fn add_activity(app: &App, component: &Component, names: &mut Vec<Name>) -> Result<(), Memory>
    requires { SoundApp app.now }
    ensures { OnOk result (names.new.items ≡ names.old.items ++ activity_names app.now component.now) }
{
    if is_activity(component.kind) {
        add_upward(app, &component.class, names)?;
    }
    Ok(())
}

/// The names of the activities' classes and of the app classes above them.
#[tactic(auto, unfolding(crate::specs::Clicks::all_activity_names))]
fn all_activity_names(alloc: Global, app: &App) -> Result<Vec<Name>, Memory>
    requires { SoundApp app.now }
    ensures { IfOk result (λ v. v.items ≡ all_activity_names app.now) }
{
    let mut names = Vec::new(alloc);
    for component in app.components.as_slice() {
        add_activity(app, component, &mut names)?;
    }
    Ok(names)
}

/// What is asked of a method to which a click may come.
#[derive(Drop)]
struct Asked {
    clicks: NameSet,
    contexts: NameSet,
    activities: NameSet,
}

#[tactic(auto, using(crate::proofs::NameSets::set_as))]
fn asked_of(alloc: Global, app: &App, lists: &Lists) -> Result<Asked, Memory>
    requires { SoundApp app.now }
    ensures clicks { IfOk result (λ a. IsSetOf a.clicks app.now.clicks) }
    ensures contexts { IfOk result (λ a. IsSetOf a.contexts (context_names lists.now)) }
    ensures activities { IfOk result (λ a. IsSetOf a.activities (all_activity_names app.now)) }
{
    let clicks = NameSet::new(alloc, copied(alloc, app.clicks.as_slice())?)?;
    let contexts = NameSet::new(alloc, context_names(alloc, lists)?)?;
    let activities = NameSet::new(alloc, all_activity_names(alloc, app)?)?;
    Ok(Asked {
        clicks,
        contexts,
        activities,
    })
}

/// Whether one of the library classes is the context of layouts or below it.
#[tactic(auto, using(crate::proofs::Ways::contexts_by_set))]
fn any_context(lists: &Lists, contexts: &NameSet, names: &[Name]) -> bool
    requires { IsSetOf contexts.now (context_names lists.now) }
    ensures { result ≡ any_context lists.now names.now }
{
    names.iter().any(|name| contexts.has(name))
}

/// Whether the class of the app is below the context of layouts.
#[tactic(auto, unfolding(crate::specs::Clicks::is_context))]
fn is_context(app: &App, lists: &Lists, contexts: &NameSet, class: &Name) -> bool
    requires sound { SoundApp app.now }
    requires contexts { IsSetOf contexts.now (context_names lists.now) }
    ensures { result ≡ is_context app.now lists.now class.now }
{
    match class_of(app, class.as_bytes()) {
        Some(class) => any_context(lists, contexts, class.outer.as_slice()),
        None => false,
    }
}

#[tactic(auto, unfolding(app_machine::specs::Names::click_descriptor))]
fn is_of_a_view(descriptor: &Name) -> bool
    ensures { result ≡ same_name descriptor.now click_descriptor }
{
    descriptor.as_bytes() == b"(Landroid/view/View;)V".as_slice()
}

#[tactic(auto, unfolding(crate::specs::Clicks::menu_descriptor))]
fn is_of_a_menu(descriptor: &Name) -> bool
    ensures { result ≡ same_name descriptor.now menu_descriptor }
{
    descriptor.as_bytes() == b"(Landroid/view/MenuItem;)Z".as_slice()
}

/// Whether the class is of an activity or above one.
#[tactic(auto, using(crate::proofs::NameSets::among_by_set))]
fn is_above_activity(app: &App, activities: &NameSet, class: &Name) -> bool
    requires { IsSetOf activities.now (all_activity_names app.now) }
    ensures { result ≡ is_among (all_activity_names app.now) class.now }
{
    activities.has(class)
}

/// Whether a click may come there of a menu, or on what is a context and neither an activity nor above one.
#[tactic(auto, unfolding(crate::specs::Clicks::comes_elsewhere))]
fn comes_elsewhere(app: &App, lists: &Lists, asked: &Asked, class: &Name, descriptor: &Name) -> bool
    requires sound { SoundApp app.now }
    requires contexts { IsSetOf asked.now.contexts (context_names lists.now) }
    requires activities { IsSetOf asked.now.activities (all_activity_names app.now) }
    ensures { result ≡ comes_elsewhere app.now lists.now class.now descriptor.now }
{
    is_of_a_menu(descriptor)
        || (is_of_a_view(descriptor)
            && is_context(app, lists, &asked.contexts, class)
            && !is_above_activity(app, &asked.activities, class))
}

/// Whether the name is a click name of the layouts.
#[tactic(auto, using(crate::proofs::NameSets::among_by_set))]
fn is_click_name(app: &App, clicks: &NameSet, name: &Name) -> bool
    requires { IsSetOf clicks.now app.now.clicks }
    ensures { result ≡ is_among app.now.clicks name.now }
{
    clicks.has(name)
}

#[tactic(auto, unfolding(crate::specs::Clicks::is_odd_click))]
fn is_odd_click(
    app: &App,
    lists: &Lists,
    asked: &Asked,
    class: &Name,
    method: &MethodAccess,
) -> bool
    requires sound { SoundApp app.now }
    requires clicks { IsSetOf asked.now.clicks app.now.clicks }
    requires contexts { IsSetOf asked.now.contexts (context_names lists.now) }
    requires activities { IsSetOf asked.now.activities (all_activity_names app.now) }
    ensures { result ≡ is_odd_click app.now lists.now class.now method.now }
{
    is_click_name(app, &asked.clicks, &method.name)
        && comes_elsewhere(app, lists, asked, class, &method.descriptor)
}

#[tactic(auto, unfolding(crate::specs::Clicks::clicks_in))]
fn add_clicks(
    app: &App,
    lists: &Lists,
    asked: &Asked,
    name: &Name,
    class: &ClassAccess,
    found: &mut Vec<Triple>,
) -> Result<(), Memory>
    requires sound { SoundApp app.now }
    requires clicks { IsSetOf asked.now.clicks app.now.clicks }
    requires contexts { IsSetOf asked.now.contexts (context_names lists.now) }
    requires activities { IsSetOf asked.now.activities (all_activity_names app.now) }
    ensures { OnOk result (found.new.items ≡ found.old.items ++ clicks_in app.now lists.now (name.now, class.now)) }
{
    for method in class.methods.as_slice() {
        if is_odd_click(app, lists, asked, name, method) {
            found.push(method_named(name, method)?)?;
        }
    }
    Ok(())
}

/// The methods to which a click may come besides those of activities.
#[tactic(auto, unfolding(crate::specs::Clicks::odd_clicks))]
pub fn odd_clicks(
    alloc: Global,
    app: &App,
    access: &Accesses,
    lists: &Lists,
) -> Result<Vec<Triple>, Memory>
    requires { SoundApp app.now }
    ensures { IfOk result (λ v. v.items ≡ odd_clicks app.now access.now.entries lists.now) }
{
    let asked = asked_of(alloc, app, lists)?;
    let mut found = Vec::new(alloc);
    for (name, class) in access {
        add_clicks(app, lists, &asked, name, class, &mut found)?;
    }
    Ok(found)
}

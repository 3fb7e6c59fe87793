//! The app of DEX files, a manifest and layouts.

ghost use Rattle.std.specs.Prelude.{◌≡◌, ◌≢◌, ◌⊎◌, ◌<◌, ◌≤◌, ◌^◌, All, IfErr, IfOk, OnOk, length};
ghost use Rattle.vet_base.specs.Script.{Gives};
ghost use Rattle.app_machine.specs.Sound.{SoundApp};
ghost use Rattle.dex_reader.specs.Sound.{SoundDex};
ghost use Rattle.link_code.specs.Code.{ShortCodes};
ghost use Rattle.app_link.specs.FirstLinkFault.{FirstLinkFault, StopsAtFirst, limit_word, shown};
ghost use Rattle.app_link.specs.IsApp.{IsApp};
ghost use Rattle.app_link.specs.OneAnswer.{OneAnswer, OnlyApp};
ghost use Rattle.app_link.specs.Limits.{within_limits};

use crate::calls_listed::check_calls_listed;
use crate::climbs::check_climbs;
use crate::frame::{Papers, frame_of};
use app_model::{App, Layouts, Manifest, MethodRef};
use dex_code::{CodeFault, code_laws};
use dex_tables::Dex;
use link_code::{codes_of, finished};
use link_hierarchy::outers_of;
use link_listing::{Fault, Halt, Limit, Parts, gather};
use std::alloc::Global;
use vet_base::{Name, Stop};

/// Why files are no app: the first of these, in this order.
#[derive(Drop)]
pub enum LinkFault {
    /// A class of this name stands a second time.
    TwoClasses(Name),
    /// The class has two methods of one name and descriptor, or two fields of one name and type: the first member that
    /// stands a second time.
    TwoMembers(Name, Name),
    /// The application, or an activity, service or receiver, names this class, which is none of the app.
    NoClass(Name),
    /// This class is above itself, and no class before it in the order of names is.
    Circle(Name),
    /// The code of the least method that has a fault.
    Code(MethodRef, CodeFault),
    /// There are more `classes`, `methods`, `fields` or `units` than the limit.
    TooMany(Name),
    /// Memory ran out.
    Memory,
}

#[tactic(auto, unfolding(crate::specs::Limits::within_limits))]
fn check_limits(classes: usize, methods: usize, fields: usize, units: u64) -> Result<(), Halt>
    ensures value { Gives (λ x. x) result (within_limits classes methods fields units) }
    ensures classes { OnOk result (classes ≤ 100000) }
    ensures methods { OnOk result (methods ≤ 400000) }
    ensures fields { OnOk result (fields ≤ 400000) }
    ensures units { OnOk result (units ≤ 33554432) }
{
    if classes > 100_000 {
        return Err(Stop::Fault(Fault::TooMany(Limit::Classes)));
    }
    if methods > 400_000 {
        return Err(Stop::Fault(Fault::TooMany(Limit::Methods)));
    }
    if fields > 400_000 {
        return Err(Stop::Fault(Fault::TooMany(Limit::Fields)));
    }
    if units > 33_554_432 {
        return Err(Stop::Fault(Fault::TooMany(Limit::Units)));
    }
    Ok(())
}

/// How many classes, methods and fields there are.
fn counts_of(parts: &Parts) -> (usize, usize, usize)
    ensures classes { result.0 ≡ length parts.now.classes.entries }
    ensures methods { result.1 ≡ length parts.now.methods.entries }
    ensures fields { result.2 ≡ length parts.now.fields.entries }
{
    (parts.classes.len(), parts.methods.len(), parts.fields.len())
}

/// The app, or the first fault.
#[tactic(auto, using(crate::proofs::FrameSound::frame_sound, crate::proofs::Providers::few_providers, crate::proofs::FirstFaults::at_gathering))]
fn linked(alloc: Global, dexes: &[Dex], manifest: &Manifest, layouts: &Layouts) -> Result<App, Halt>
    requires codes { ShortCodes dexes.now }
    requires components { length manifest.now.components < 4294967295 }
    requires clicks { length layouts.now.clicks < 2 ^ 32 }
    requires classes { length layouts.now.classes < 2 ^ 32 }
    ensures app { IfOk result (λ app. IsApp dexes.now manifest.now layouts.now app) }
    ensures only { IfOk result (λ app. OnlyApp dexes.now manifest.now layouts.now app) }
    ensures sound { IfOk result SoundApp }
    ensures fault { IfErr result (λ halt. StopsAtFirst dexes.now manifest.now halt) }
{
    code_laws();
    let parts = gather(alloc, dexes, manifest)?;
    let outers = outers_of(alloc, &parts.classes)?;
    let (class_count, method_count, field_count) = counts_of(&parts);
    let Parts {
        classes,
        fields,
        methods,
        components,
    } = parts;
    let coding = codes_of(alloc, dexes, methods)?;
    check_limits(class_count, method_count, field_count, coding.units)?;
    check_calls_listed(dexes, &coding.methods)?;
    check_climbs(alloc, dexes, &classes, &coding.methods)?;
    let papers = Papers { manifest, layouts };
    let frame = frame_of(alloc, classes, &outers, &fields, components, &papers)?;
    let app = finished(alloc, dexes, &fields, frame, &coding)?;
    Ok(app)
}

#[tactic(auto, unfolding(crate::specs::FirstLinkFault::limit_word))]
fn word_of_limit(limit: Limit) -> &'static str
    ensures { result.now ≡ limit_word limit }
{
    match limit {
        Limit::Classes => "classes",
        Limit::Methods => "methods",
        Limit::Fields => "fields",
        Limit::Units => "units",
    }
}

/// The fault in the words of a report.
fn told_of(alloc: Global, fault: Fault) -> LinkFault
    ensures { (result ≡ LinkFault.Memory) ⊎ (result ≡ shown fault) }
{
    match fault {
        Fault::TwoClasses(class) => LinkFault::TwoClasses(class),
        Fault::TwoMembers(class, member) => LinkFault::TwoMembers(class, member),
        Fault::NoClass(class) => LinkFault::NoClass(class),
        Fault::Circle(class) => LinkFault::Circle(class),
        Fault::Code(at, fault) => LinkFault::Code(at, fault),
        Fault::TooMany(limit) => match Name::from_bytes(alloc, word_of_limit(limit).as_bytes()) {
            Ok(word) => LinkFault::TooMany(word),
            Err(_) => LinkFault::Memory,
        },
    }
}

/// Links the DEX files of an app, in their order, with its manifest and layouts.
///
/// Classes stand by name, methods by class, name and descriptor, keys and statics by class, name and type. A reference
/// to a field is looked up along superclasses, a static one then through the interfaces too.
///
/// An error is the first fault, in this order: classes, members and components in
/// file order, the hierarchy, the code by the order of methods, and then the limits
/// of 100,000 classes, 400,000 methods, 400,000 fields and 33,554,432 code units.
#[tactic(auto, using(crate::proofs::ShortCodes::short_codes, crate::proofs::OneAnswer::one_answer, crate::proofs::FirstFaults::told_first))]
pub fn link(
    alloc: Global,
    dexes: &[Dex],
    manifest: &Manifest,
    layouts: &Layouts,
) -> Result<App, LinkFault>
    requires files { All SoundDex dexes.now }
    requires components { length manifest.now.components < 4294967295 }
    requires clicks { length layouts.now.clicks < 2 ^ 32 }
    requires classes { length layouts.now.classes < 2 ^ 32 }
    ensures app { IfOk result (λ app. IsApp dexes.now manifest.now layouts.now app) }
    ensures sound { IfOk result SoundApp }
    ensures fault { IfErr result (λ f. f ≢ LinkFault.Memory → FirstLinkFault dexes.now manifest.now layouts.now f) }
    ensures one { (app : App) → IsApp dexes.now manifest.now layouts.now app → (result ≡ Ok app)
        ⊎ (result ≡ Err LinkFault.Memory) }
    ensures first { (f : LinkFault) → FirstLinkFault dexes.now manifest.now layouts.now f → (result ≡ Err f)
        ⊎ (result ≡ Err LinkFault.Memory) }

    // Files that are an app have no fault.
    ensures law { OneAnswer dexes.now manifest.now layouts.now }
{
    code_laws();
    match linked(alloc, dexes, manifest, layouts) {
        Ok(app) => Ok(app),
        Err(Stop::Memory) => Err(LinkFault::Memory),
        Err(Stop::Fault(fault)) => Err(told_of(alloc, fault)),
    }
}

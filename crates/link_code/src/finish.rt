//! The app with its statics and methods.

ghost use Rattle.std.specs.Prelude.{◌≡◌, ◌<◌, ◌≤◌, ◌^◌, IfOk, length};
ghost use Rattle.app_machine.specs.Sound.{SoundApp};
ghost use Rattle.link_code.specs.Methods.{all_methods};
ghost use Rattle.link_code.specs.StaticList.{AreStatics};
ghost use Rattle.link_code.specs.SoFar.{SoFar};
ghost use Rattle.link_code.specs.Tested.{Tested};

use crate::coded::Coding;
use crate::methods::methods_of;
use crate::static_list::statics_of;
use app_model::App;
use dex_code::code_laws;
use dex_tables::Dex;
use link_listing::Fields;
use std::alloc::Global;
use vet_base::{Memory, Seq};

/// The app with its statics and methods. Want of memory is the only error.
#[tactic(auto, using(crate::proofs::StaticsCount::statics_in_order, crate::proofs::StaticsCount::lines_in_order))]
pub fn finished(
    alloc: Global,
    dexes: &[Dex],
    fields: &Fields,
    mut app: App,
    coding: &Coding,
) -> Result<App, Memory>
    requires sound { SoundApp app }
    requires fine { SoFar coding.now.methods.items 33554432 }
    requires tested { Tested dexes.now coding.now.methods.items }
    requires few_methods { length coding.now.methods.items < 2 ^ 32 }
    ensures sound { IfOk result SoundApp }
    ensures statics { IfOk result (λ a. AreStatics app fields.now.entries dexes.now coding.now.methods.items
        a.statics) }
    ensures methods { IfOk result (λ a. a.methods ≡ all_methods app fields.now.entries a.statics dexes.now
        coding.now.methods.items) }
    ensures others { IfOk result (λ a. a ≡ record app { statics = a.statics; methods = a.methods }) }
{
    code_laws();
    let statics = statics_of(alloc, &app, fields, dexes, &coding.methods)?;
    let methods = methods_of(alloc, &app, fields, &statics, dexes, &coding.methods)?;
    app.statics = Seq::from_vec(statics);
    app.methods = Seq::from_vec(methods);
    Ok(app)
}

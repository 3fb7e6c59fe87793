//! The methods of the app, with their steps.

ghost use Rattle.std.specs.Prelude.{◌≡◌, ◌≤◌, ◌∷◌, ◌++◌, [], IfOk, map};
ghost use Rattle.dex_code.specs.Find.{Ascend};
ghost use Rattle.app_machine.specs.Sound.{SoundApp};
ghost use Rattle.link_code.specs.Methods.{InOrder, Narrow, all_methods, lifted, steps_in};
ghost use Rattle.link_code.specs.StaticsInOrder.{StaticsInOrder};

use crate::coded::{Coded, reference_copied};
use crate::lift::steps_at;
use crate::scope::Scope;
use app_model::{App, Method, Step};
use dex_tables::Dex;
use link_listing::{Fields, Triple};
use std::alloc::Global;
use vet_base::{Memory, Seq};

#[tactic(auto, unfolding(crate::specs::Methods::steps_in))]
fn steps_of_method(
    alloc: Global,
    app: &App,
    fields: &Fields,
    statics: &[Triple],
    dexes: &[Dex],
    coded: &Coded,
) -> Result<Seq<Step>, Memory>
    requires app { SoundApp app.now }
    requires statics { StaticsInOrder statics.now }
    requires lines { Ascend coded.now.decoded.lines }
    ensures { IfOk result (λ steps. steps ≡ steps_in app.now fields.now.entries statics.now dexes.now coded.now) }
{
    match dexes.get(coded.dex) {
        Some(dex) => {
            let scope = Scope {
                app,
                fields,
                statics,
                dex,
            };
            let (tries, lines) = (&coded.decoded.tries, &coded.decoded.lines);
            steps_at(alloc, &scope, tries.as_slice(), lines.as_slice())
        }
        None => Ok(Seq::new(alloc)),
    }
}

/// The method with its steps.
#[tactic(auto, unfolding(crate::specs::Methods::lifted))]
fn method_at(
    alloc: Global,
    app: &App,
    fields: &Fields,
    statics: &[Triple],
    dexes: &[Dex],
    coded: &Coded,
) -> Result<Method, Memory>
    requires app { SoundApp app.now }
    requires statics { StaticsInOrder statics.now }
    requires lines { Ascend coded.now.decoded.lines }
    ensures value { IfOk result (λ m. m ≡ lifted app.now fields.now.entries statics.now dexes.now coded.now) }
    ensures narrow { IfOk result (λ m. m.registers ≤ 65535) }
{
    let steps = steps_of_method(alloc, app, fields, statics, dexes, coded)?;
    Ok(Method {
        at: reference_copied(&coded.at)?,
        is_static: coded.is_static,
        is_native: coded.is_native,
        registers: u32::from(coded.registers),
        ins: u32::from(coded.ins),
        steps,
    })
}

/// The methods of the app, with their steps.
#[tactic(auto, unfolding(crate::specs::Methods::all_methods), using(crate::proofs::Ordered::order_at, crate::proofs::Narrowed::narrow_begins))]
pub fn methods_of(
    alloc: Global,
    app: &App,
    fields: &Fields,
    statics: &[Triple],
    dexes: &[Dex],
    coded: &[Coded],
) -> Result<Vec<Method>, Memory>
    requires app { SoundApp app.now }
    requires statics { StaticsInOrder statics.now }
    requires lines { InOrder coded.now }
    ensures value { IfOk result (λ v. v.items ≡ all_methods app.now fields.now.entries statics.now dexes.now
        coded.now) }
    ensures narrow { IfOk result (λ v. Narrow v.items) }
{
    let mut methods = Vec::new(alloc);
    for method in coded {
        methods.push(method_at(alloc, app, fields, statics, dexes, method)?)?;
    }
    Ok(methods)
}

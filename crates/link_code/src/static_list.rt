//! The static fields that instructions name.

ghost use Rattle.std.specs.Prelude.{◌≡◌, [], IfOk, flat_map, fold};
ghost use Rattle.std.specs.BTreeSet.{insert_key};
ghost use Rattle.std.specs.List.Sorted.{IsStrictlySortedBy};
ghost use Rattle.app_machine.specs.Sound.{SoundApp};
ghost use Rattle.link_listing.specs.Orders.{triple_order};
ghost use Rattle.link_code.specs.StaticList.{AreStatics, static_in_line, static_index};
ghost use Rattle.link_code.specs.StaticList.{statics_in_method, statics_named};

use crate::coded::Coded;
use crate::statics::static_at;
use app_model::App;
use dex_code::{Insn, Naming};
use dex_tables::Dex;
use link_listing::{Fields, Triple};
use std::alloc::Global;
use std::collections::BTreeSet;
use vet_base::Memory;

type Statics = BTreeSet<Triple>;

/// The field of a static that the instruction names.
#[tactic(auto, unfolding(crate::specs::StaticList::static_index))]
fn static_index_at(insn: &Insn) -> Option<u32>
    ensures { result ≡ static_index insn.now }
{
    match insn.naming() {
        Naming::StaticField(i) => Some(i),
        _ => None,
    }
}

fn with_static(mut statics: Statics, at: Triple) -> Result<Statics, Memory>
    ensures { IfOk result (λ s. s.keys ≡ insert_key triple_order statics.keys at) }
{
    statics.insert(at)?;
    Ok(statics)
}

#[tactic(auto, unfolding(crate::specs::StaticList::static_in_line))]
fn add_line(
    alloc: Global,
    app: &App,
    fields: &Fields,
    dex: &Dex,
    line: &(u32, Insn),
    statics: Statics,
) -> Result<Statics, Memory>
    requires { SoundApp app.now }
    ensures { IfOk result (λ s. s.keys ≡ fold (insert_key triple_order) statics.keys
        (static_in_line app.now fields.now.entries dex.now line.now)) }
{
    match static_index_at(&line.1) {
        Some(i) => with_static(statics, static_at(alloc, app, fields, dex, i)?),
        None => Ok(statics),
    }
}

#[tactic(auto, using(link_hierarchy::proofs::FoldsOn::each_begins, link_hierarchy::proofs::FoldsOn::each_goes_on, link_hierarchy::proofs::FoldsOn::each_is_done))]
fn add_lines(
    alloc: Global,
    app: &App,
    fields: &Fields,
    dex: &Dex,
    lines: &[(u32, Insn)],
    mut statics: Statics,
) -> Result<Statics, Memory>
    requires { SoundApp app.now }
    ensures { IfOk result (λ s. s.keys ≡ fold (insert_key triple_order) statics.keys
        (flat_map (static_in_line app.now fields.now.entries dex.now) lines.now)) }
{
    for line in lines {
        statics = add_line(alloc, app, fields, dex, line, statics)?;
    }
    Ok(statics)
}

#[tactic(auto, unfolding(crate::specs::StaticList::statics_in_method))]
fn add_method(
    alloc: Global,
    app: &App,
    fields: &Fields,
    dexes: &[Dex],
    coded: &Coded,
    statics: Statics,
) -> Result<Statics, Memory>
    requires { SoundApp app.now }
    ensures { IfOk result (λ s. s.keys ≡ fold (insert_key triple_order) statics.keys
        (statics_in_method app.now fields.now.entries dexes.now coded.now)) }
{
    match dexes.get(coded.dex) {
        Some(dex) => add_lines(
            alloc,
            app,
            fields,
            dex,
            coded.decoded.lines.as_slice(),
            statics,
        ),
        None => Ok(statics),
    }
}

#[tactic(auto, unfolding(crate::specs::StaticList::statics_named), using(link_hierarchy::proofs::FoldsOn::each_begins, link_hierarchy::proofs::FoldsOn::each_goes_on, link_hierarchy::proofs::FoldsOn::each_is_done))]
fn set_of(
    alloc: Global,
    app: &App,
    fields: &Fields,
    dexes: &[Dex],
    coded: &[Coded],
) -> Result<Statics, Memory>
    requires { SoundApp app.now }
    ensures { IfOk result (λ s. s.keys ≡ fold (insert_key triple_order) []
        (statics_named app.now fields.now.entries dexes.now coded.now)) }
{
    let mut statics = BTreeSet::new(alloc);
    for method in coded {
        statics = add_method(alloc, app, fields, dexes, method, statics)?;
    }
    Ok(statics)
}

fn listed(alloc: Global, statics: Statics) -> Result<Vec<Triple>, Memory>
    ensures list { IfOk result (λ v. v.items ≡ statics.keys) }
    ensures order { IfOk result (λ v. IsStrictlySortedBy triple_order v.items) }
{
    let list: Vec<Triple> = statics.into_iter().collect(alloc)?;
    Ok(list)
}

/// Each static field that an instruction names, as the field that it stands for, once and in order.
#[tactic(auto, using(crate::proofs::Inserted::are_statics))]
pub fn statics_of(
    alloc: Global,
    app: &App,
    fields: &Fields,
    dexes: &[Dex],
    coded: &[Coded],
) -> Result<Vec<Triple>, Memory>
    requires { SoundApp app.now }
    ensures { IfOk result (λ v. AreStatics app.now fields.now.entries dexes.now coded.now v.items) }
{
    listed(alloc, set_of(alloc, app, fields, dexes, coded)?)
}

ghost use Rattle.std.specs.Prelude.{◌≡◌, ◌<◌, ◌≤◌, ◌+◌, ◌*◌, ◌^◌, length, IfOk};
ghost use Rattle.vet_base.specs.Script.{Gives};
ghost use Rattle.dex_bodies.specs.Code.{code_head_at, units_from, units_at, code_at, maybe_code_at};

use crate::tries::{CodeHead, tries_of};
use dex_tables::{Fault, Limit, RawCode, ReadError, Totals, u2_of, u4_of};
use std::alloc::{AllocError, Global};
use vet_base::{Seq, Stop};

const UNITS: u64 = 8_388_608;

#[tactic(auto, unfolding(crate::specs::Code::code_head_at), using(vet_base::proofs::Scripts::run_bind))]
fn code_head_of(file: &[u8], code: u32) -> Result<CodeHead, ReadError>
    requires { length file.now < 2 ^ 32 }
    ensures { Gives (λ x. x) result (code_head_at file.now code) }
{
    let (registers, at) = u2_of(file, code, code)?;
    let (ins, at) = u2_of(file, at, code)?;
    let (outs, at) = u2_of(file, at, code)?;
    let (tries, at) = u2_of(file, at, code)?;
    let (_debug, at) = u4_of(file, at, code)?;
    let (units, at) = u4_of(file, at, code)?;
    Ok(CodeHead {
        registers,
        ins,
        outs,
        tries,
        units,
        at,
    })
}

/// So many units from an offset on, which lie within the file.
#[tactic(auto, unfolding(crate::specs::Code::units_from))]
fn units_in(alloc: Global, file: &[u8], at: usize, count: usize) -> Result<Vec<u16>, AllocError>
    requires { at + 2 * count ≤ length file.now }
    ensures { IfOk result (λ units. units.items ≡ units_from file.now at count) }
{
    let mut units = Vec::with_capacity(alloc, count)?;
    for i in 0..count {
        let low = at + 2 * i;
        units.push(u16::from_le_bytes([file[low], file[low + 1]]))?;
    }
    Ok(units)
}

#[tactic(auto, unfolding(crate::specs::Code::units_at), using(vet_base::proofs::Scripts::run_bind))]
fn units_of(
    alloc: Global,
    file: &[u8],
    code: u32,
    head: CodeHead,
    total: u32,
) -> Result<Seq<u16>, ReadError>
    requires { length file.now < 2 ^ 32 }
    ensures value { Gives (λ x. x) result (units_at file.now code head total) }
    ensures counted { IfOk result (λ _. total + head.units ≤ 8388608) }
{
    if head.at as usize + 2 * head.units as usize > file.len() {
        return Err(Stop::Fault(Fault::Outside(code)));
    }
    if u64::from(total) + u64::from(head.units) > UNITS {
        return Err(Stop::Fault(Fault::TooMany(Limit::Units)));
    }
    let units = units_in(alloc, file, head.at as usize, head.units as usize)?;
    Ok(Seq::from_vec(units))
}

#[tactic(auto, unfolding(crate::specs::Code::code_at), using(vet_base::proofs::Scripts::run_bind))]
fn code_of(
    alloc: Global,
    file: &[u8],
    types: u32,
    code: u32,
    totals: Totals,
) -> Result<(RawCode, Totals), ReadError>
    requires { length file.now < 2 ^ 32 }
    ensures { Gives (λ x. x) result (code_at file.now types code totals) }
{
    let head = code_head_of(file, code)?;
    let units = units_of(alloc, file, code, head, totals.units)?;
    let (tries, count) = tries_of(alloc, file, types, code, head, totals.tries)?;
    let found = RawCode {
        registers: head.registers,
        ins: head.ins,
        outs: head.outs,
        units,
        tries,
    };
    let totals = Totals {
        members: totals.members,
        units: totals.units + head.units,
        tries: count,
    };
    Ok((found, totals))
}

/// The code item at an offset, and the totals with it. Offset 0 stands for no code.
#[tactic(auto, unfolding(crate::specs::Code::maybe_code_at), using(vet_base::proofs::Scripts::run_bind))]
pub fn maybe_code_of(
    alloc: Global,
    file: &[u8],
    types: u32,
    code: u32,
    totals: Totals,
) -> Result<(Option<RawCode>, Totals), ReadError>
    requires { length file.now < 2 ^ 32 }
    ensures { Gives (λ x. x) result (maybe_code_at file.now types code totals) }
{
    if code == 0 {
        return Ok((None, totals));
    }
    let (found, totals) = code_of(alloc, file, types, code, totals)?;
    Ok((Some(found), totals))
}

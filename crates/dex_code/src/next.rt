ghost use Rattle.std.specs.Prelude.{◌≡◌, ◌<◌, ◌+◌, IfOk, OnOk, OnErr, length, drop, slice_index_or, ◌++◌};
ghost use Rattle.std.specs.Option.{option_copied};
ghost use Rattle.dex_code.specs.Find.{Ascend};
ghost use Rattle.dex_code.specs.Flow.{distances_in, found, second_parts};
ghost use Rattle.dex_code.specs.Next.{first_start, following, next_of, targets_from, targets_of};

use crate::find::line_at;
use crate::insn::Insn;
use crate::order::put_in_order;
use crate::units::target_from;
use dalvik_formats::{Kind, kind_of};
use std::alloc::{AllocError, Global};
use vet_base::Memory;

/// The pcs so far from another.
#[tactic(auto, unfolding(crate::specs::Next::targets_from))]
fn all_targets(alloc: Global, pc: u32, distances: &[i32]) -> Result<Vec<u32>, AllocError>
    ensures { IfOk result (λ v. v.items ≡ targets_from pc distances.now) }
{
    distances
        .iter()
        .map(|distance| target_from(pc, *distance))
        .collect(alloc)
}

#[tactic(auto, unfolding(crate::specs::Next::targets_from, crate::specs::Flow::second_parts))]
fn all_second_targets(alloc: Global, pc: u32, pairs: &[(i32, i32)]) -> Result<Vec<u32>, AllocError>
    ensures { IfOk result (λ v. v.items ≡ targets_from pc (second_parts pairs.now)) }
{
    pairs
        .iter()
        .map(|pair| pair.1)
        .map(|distance| target_from(pc, distance))
        .collect(alloc)
}

/// Where a switch goes by the table in its payload.
#[tactic(auto, unfolding(crate::specs::Next::targets_from))]
fn table_targets(
    alloc: Global,
    pc: u32,
    kind: Kind,
    payload: Option<&Insn>,
) -> Result<Vec<u32>, AllocError>
    ensures { IfOk result (λ v. v.items ≡ targets_from pc (distances_in kind (option_copied payload.entry))) }
{
    match kind {
        Kind::PackedSwitch => match payload {
            Some(Insn::Packed(_, distances)) => all_targets(alloc, pc, distances.as_slice()),
            _ => Ok(Vec::new(alloc)),
        },
        Kind::SparseSwitch => match payload {
            Some(Insn::Sparse(pairs)) => all_second_targets(alloc, pc, pairs.as_slice()),
            _ => Ok(Vec::new(alloc)),
        },
        _ => Ok(Vec::new(alloc)),
    }
}

/// Where a branch or a switch goes.
fn all_targets_of(
    alloc: Global,
    lines: &[(u32, Insn)],
    pc: u32,
    insn: &Insn,
) -> Result<Vec<u32>, AllocError>
    requires { Ascend lines.now }
    ensures { IfOk result (λ v. v.items ≡ targets_of lines.now pc insn.now) }
{
    match insn {
        Insn::F10t(_, target)
        | Insn::F20t(_, target)
        | Insn::F30t(_, target)
        | Insn::F21t(_, _, target)
        | Insn::F22t(_, _, _, target) => Ok(vec![in alloc; *target]?),
        Insn::F31t(op, _, payload) => {
            table_targets(alloc, pc, kind_of(*op), line_at(lines, *payload))
        }
        _ => Ok(Vec::new(alloc)),
    }
}

/// Adds the pc of the next instruction, where control may go on to it.
fn push_following(
    targets: &mut Vec<u32>,
    kind: Kind,
    rest: &[(u32, Insn)],
) -> Result<(), AllocError>
    ensures { OnOk result (targets.new.items ≡ targets.old.items ++ following kind rest.now) }
{
    if !kind.falls_through() {
        return Ok(());
    }
    match rest {
        [] => Ok(()),
        [(pc, insn), ..] => {
            if !insn.is_payload() {
                targets.push(*pc)?;
            }
            Ok(())
        }
    }
}

/// The pcs to which control goes from a line of decoded code without an exception, each once, ascending: none after a
/// return, a throw, and a `nop` that is padding before a payload.
#[tactic(auto, unfolding(crate::specs::Next::next_of))]
pub fn next_of_line(
    alloc: Global,
    lines: &[(u32, Insn)],
    line: &(u32, Insn),
    rest: &[(u32, Insn)],
) -> Result<Vec<u32>, Memory>
    requires { Ascend lines.now }
    ensures { IfOk result (λ v. v.items ≡ next_of lines.now line.now rest.now) }
{
    let (pc, insn) = line;
    let mut targets = all_targets_of(alloc, lines, *pc, insn)?;
    push_following(&mut targets, insn.kind(), rest)?;
    put_in_order(&mut targets);
    Ok(targets)
}

ghost use Rattle.std.specs.Prelude.{◌≡◌};
ghost use Rattle.std.specs.Option.{option_copied};
ghost use Rattle.vet_base.specs.Script.{Gives};
ghost use Rattle.dex_code.specs.Find.{Ascend};
ghost use Rattle.dex_code.specs.Flow.{all_start, found, flow_at, flows_at, is_followed, payload_stands};
ghost use Rattle.dex_code.specs.Flow.{second_parts, stays, targets_stand, distances_in, suits};

use crate::fault::{CodeFault, Halt};
use crate::find::{is_start, line_at};
use crate::insn::Insn;
use crate::units::target_from;
use dalvik_formats::{Kind, kind_of};
use vet_base::Stop;

/// Whether an instruction starts at each of these distances.
#[tactic(auto, unfolding(crate::specs::Flow::all_start))]
fn all_are_starts(lines: &[(u32, Insn)], pc: u32, distances: &[i32]) -> bool
    requires { Ascend lines.now }
    ensures { result ≡ all_start lines.now pc distances.now }
{
    distances.iter().all(
        |distance|
            requires { Ascend lines.now }
        { is_start(lines, target_from(pc, *distance)) },
    )
}

/// The same of the second parts of pairs.
#[tactic(auto, unfolding(crate::specs::Flow::all_start, crate::specs::Flow::second_parts))]
fn all_second_are_starts(lines: &[(u32, Insn)], pc: u32, pairs: &[(i32, i32)]) -> bool
    requires { Ascend lines.now }
    ensures { result ≡ all_start lines.now pc (second_parts pairs.now) }
{
    pairs.iter().map(|pair| pair.1).all(
        |distance|
            requires { Ascend lines.now }
        { is_start(lines, target_from(pc, distance)) },
    )
}

/// Whether an instruction starts wherever a switch goes by the table
/// in its payload. What is no table of its kind has no distances.
#[tactic(auto, unfolding(crate::specs::Flow::all_start))]
fn table_goes_to_starts(lines: &[(u32, Insn)], pc: u32, kind: Kind, payload: Option<&Insn>) -> bool
    requires { Ascend lines.now }
    ensures { result ≡ all_start lines.now pc (distances_in kind (option_copied payload.entry)) }
{
    match kind {
        Kind::PackedSwitch => match payload {
            Some(Insn::Packed(_, distances)) => all_are_starts(lines, pc, distances.as_slice()),
            _ => true,
        },
        Kind::SparseSwitch => match payload {
            Some(Insn::Sparse(pairs)) => all_second_are_starts(lines, pc, pairs.as_slice()),
            _ => true,
        },
        _ => true,
    }
}

fn goes_to_starts(lines: &[(u32, Insn)], pc: u32, insn: &Insn) -> bool
    requires { Ascend lines.now }
    ensures { result ≡ targets_stand lines.now pc insn.now }
{
    match insn {
        Insn::F10t(_, target)
        | Insn::F20t(_, target)
        | Insn::F30t(_, target)
        | Insn::F21t(_, _, target)
        | Insn::F22t(_, _, _, target) => is_start(lines, *target),
        Insn::F31t(op, _, payload) => {
            table_goes_to_starts(lines, pc, kind_of(*op), line_at(lines, *payload))
        }
        _ => true,
    }
}

/// Whether what begins there is the payload that an instruction of this kind needs.
fn suits_kind(kind: Kind, payload: Option<&Insn>) -> bool
    ensures { result ≡ suits kind (option_copied payload.entry) }
{
    match kind {
        Kind::PackedSwitch => matches!(payload, Some(Insn::Packed(..))),
        Kind::SparseSwitch => matches!(payload, Some(Insn::Sparse(..))),
        Kind::FillArrayData => matches!(payload, Some(Insn::Filled(..))),
        _ => true,
    }
}

fn has_payload(lines: &[(u32, Insn)], insn: &Insn) -> bool
    requires { Ascend lines.now }
    ensures { result ≡ payload_stands lines.now insn.now }
{
    match insn {
        Insn::F31t(op, _, payload) => suits_kind(kind_of(*op), line_at(lines, *payload)),
        _ => true,
    }
}

/// Whether an instruction follows, or the line is padding before a payload.
fn has_follower(is_padding: bool, rest: &[(u32, Insn)]) -> bool
    ensures { result ≡ is_followed is_padding rest.now }
{
    match rest {
        [] => false,
        [next, ..] => is_padding || !next.1.is_payload(),
    }
}

fn stays_within(pc: u32, insn: &Insn, rest: &[(u32, Insn)]) -> bool
    ensures { result ≡ stays pc insn.now rest.now }
{
    if insn.is_payload() {
        pc > 0
    } else {
        let kind = insn.kind();
        !kind.falls_through() || has_follower(matches!(kind, Kind::Nop), rest)
    }
}

#[tactic(auto, unfolding(crate::specs::Flow::flow_at), using(vet_base::proofs::Scripts::run_bind))]
fn check_flow(lines: &[(u32, Insn)], line: &(u32, Insn), rest: &[(u32, Insn)]) -> Result<(), Halt>
    requires { Ascend lines.now }
    ensures { Gives (λ x. x) result (flow_at lines.now line.now rest.now) }
{
    let (pc, insn) = line;
    if !goes_to_starts(lines, *pc, insn) {
        return Err(Stop::Fault(CodeFault::Target(*pc)));
    }
    if !has_payload(lines, insn) {
        return Err(Stop::Fault(CodeFault::Payload(*pc)));
    }
    if !stays_within(*pc, insn, rest) {
        return Err(Stop::Fault(CodeFault::FallsOff(*pc)));
    }
    Ok(())
}

/// Tests where control goes from each line.
#[tactic(auto, using(crate::proofs::Flows::flows_begin, crate::proofs::Flows::flows_go_on, crate::proofs::Flows::flows_fail, crate::proofs::Flows::flows_done))]
pub fn check_flows(lines: &[(u32, Insn)]) -> Result<(), Halt>
    requires { Ascend lines.now }
    ensures { Gives (λ x. x) result (flows_at lines.now lines.now) }
{
    for (i, line) in lines.iter().enumerate() {
        let (_, rest) = lines.split_at(i + 1);
        check_flow(lines, line, rest)?;
    }
    Ok(())
}

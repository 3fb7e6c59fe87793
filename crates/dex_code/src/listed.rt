//! How many targets the switches of a method list.

ghost use Rattle.std.specs.Prelude.{◌≡◌, ◌≤◌, ◌<◌, ◌*◌, ◌^◌, OnOk, OnErr, length};
ghost use Rattle.std.specs.Option.{option_copied};
ghost use Rattle.dex_code.specs.Find.{Ascend};
ghost use Rattle.dex_code.specs.Flow.{distances_in, found};
ghost use Rattle.dex_code.specs.Listed.{listed_by, listed_by_all};

use crate::find::line_at;
use crate::insn::Insn;
use dalvik_formats::{Kind, kind_of};
use vet_base::Memory;

/// Switches may list so many targets for each unit of the method.
const TARGETS: usize = 4;

/// How many entries the table in the payload of a switch has.
#[tactic(auto, unfolding(crate::specs::Flow::second_parts))]
fn table_size(kind: Kind, payload: Option<&Insn>) -> usize
    ensures { result ≡ length (distances_in kind (option_copied payload.entry)) }
{
    match kind {
        Kind::PackedSwitch => match payload {
            Some(Insn::Packed(_, distances)) => distances.len(),
            _ => 0,
        },
        Kind::SparseSwitch => match payload {
            Some(Insn::Sparse(pairs)) => pairs.len(),
            _ => 0,
        },
        _ => 0,
    }
}

/// How many targets a switch lists, and 0 for any other instruction.
fn targets_listed(lines: &[(u32, Insn)], insn: &Insn) -> usize
    requires { Ascend lines.now }
    ensures { result ≡ listed_by lines.now insn.now }
{
    match insn {
        Insn::F31t(op, _, payload) => table_size(kind_of(*op), line_at(lines, *payload)),
        _ => 0,
    }
}

/// Answers want of memory where the switches of a method of so many units list more than 4 targets a unit. An entry of
/// a table takes two units or more, so that happens only where many switches share a table.
#[tactic(auto, unfolding(crate::specs::Listed::listed_by_all), using(std::proofs::lemmas::List::Sums::sum_by_more, std::proofs::lemmas::List::Sums::sum_by_more_le))]
pub fn check_listed(lines: &[(u32, Insn)], units: usize) -> Result<(), Memory>
    requires order { Ascend lines.now }
    requires few { units < 2 ^ 32 }
    ensures ok { OnOk result (listed_by_all lines.now lines.now ≤ 4 * units) }
    ensures err { OnErr result (4 * units < listed_by_all lines.now lines.now) }
{
    let mut left = TARGETS * units;
    for line in lines {
        let count = targets_listed(lines, &line.1);
        if count > left {
            return Err(Memory);
        }
        left -= count;
    }
    Ok(())
}

//! How many handlers the lines of a method list.

ghost use Rattle.std.specs.Prelude.{◌≡◌, ◌≤◌, ◌<◌, ◌*◌, ◌^◌, ◌-◌, OnOk, OnErr, count_by, length, min, nat_lt};
ghost use Rattle.dex_code.specs.Find.{Ascend};
ghost use Rattle.dex_code.specs.Handled.{handled_by, handled_by_all};
ghost use Rattle.dex_code.specs.Lines.{Line};
ghost use Rattle.dex_code.specs.Next.{addresses, covers};

use crate::insn::Insn;
use dex_tables::RawTry;
use vet_base::Memory;

/// Lines may list so many handlers for each unit of the method.
const HANDLERS: usize = 16;

/// How many lines stand before a pc, by halving.
fn lines_before(lines: &[(u32, Insn)], pc: u64) -> usize
    requires { Ascend lines.now }
    ensures { result ≡ count_by (λ (line : Line). nat_lt line.0 pc) lines.now }
{
    lines.partition_point(|line| u64::from(line.0) < pc)
}

/// How many lines a try covers.
fn lines_covered(lines: &[(u32, Insn)], item: &RawTry) -> usize
    requires { Ascend lines.now }
    ensures { result ≡ count_by (λ (line : Line). covers item.now line.0) lines.now }
{
    let start = u64::from(item.start);
    lines_before(lines, start + u64::from(item.count)) - lines_before(lines, start)
}

/// How many handlers a try has, the catch-all included.
#[tactic(auto, unfolding(crate::specs::Next::addresses))]
fn handlers_of(item: &RawTry) -> usize
    ensures { result ≡ length (addresses item.now) }
{
    let handlers = item.handlers.as_slice().len();
    match item.catch_all {
        Some(_) => handlers + 1,
        None => handlers,
    }
}

/// How many handlers the lines that a try covers list for it, or the greatest number.
#[tactic(auto, unfolding(crate::specs::Handled::handled_by))]
fn handlers_listed(lines: &[(u32, Insn)], item: &RawTry) -> usize
    requires { Ascend lines.now }
    ensures { result ≡ min (handled_by lines.now item.now) (2 ^ 64 - 1) }
{
    lines_covered(lines, item).saturating_mul(handlers_of(item))
}

/// Answers want of memory where the lines of a method of so many units list more than 16 handlers a unit. A list is
/// counted for each line that its try covers, since an exception may go from each of them to each handler.
#[tactic(auto, unfolding(crate::specs::Handled::handled_by_all), using(std::proofs::lemmas::List::Sums::sum_by_more, std::proofs::lemmas::List::Sums::sum_by_more_le))]
pub fn check_handled(lines: &[(u32, Insn)], tries: &[RawTry], units: usize) -> Result<(), Memory>
    requires order { Ascend lines.now }
    requires few { units < 2 ^ 32 }
    ensures ok { OnOk result (handled_by_all lines.now tries.now ≤ 16 * units) }
    ensures err { OnErr result (16 * units < handled_by_all lines.now tries.now) }
{
    let mut left = HANDLERS * units;
    for item in tries {
        let count = handlers_listed(lines, item);
        if count > left {
            return Err(Memory);
        }
        left -= count;
    }
    Ok(())
}

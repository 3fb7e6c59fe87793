ghost use Rattle.std.specs.Prelude.{◌≡◌, ◌<◌, ◌≤◌, ◌^◌, ◌+◌, length, IfOk, slice_index};
ghost use Rattle.dex_maker.specs.Lines.{width_of, width_sum, starts_from};

use crate::listing::ListedLine;
use dalvik_formats::format_of;
use std::alloc::Global;
use vet_base::Memory;

/// How many units a line takes.
pub fn width_of(line: &ListedLine) -> usize
    requires { width_of line.now ≤ 33554442 }
    ensures { result ≡ width_of line.now }
{
    match line {
        ListedLine::Plain(opcode, _, _, _, _) => format_of(*opcode).units(),
        ListedLine::Packed(_, _, targets) => 4 + 2 * targets.len(),
        ListedLine::Sparse(_, pairs) => 2 + 4 * pairs.len(),
        ListedLine::Filled(_, bytes) => 4 + bytes.len() / 2 + bytes.len() % 2,
    }
}

/// Where each line begins, in units, and at the end where the last one ends.
#[tactic(auto, unfolding(crate::specs::Lines::width_sum))]
pub fn starts_of(alloc: Global, lines: &[ListedLine]) -> Result<Vec<u32>, Memory>
    requires { width_sum lines.now ≤ 8388608 }
    ensures { IfOk result (λ v. v.items ≡ starts_from 0 lines.now) }
{
    let mut starts = Vec::new(alloc);
    let mut at = 0u32;
    for line in lines {
        starts.push(at)?;
        at += width_of(line) as u32;
    }
    starts.push(at)?;
    Ok(starts)
}

/// Where a line begins.
pub fn start_of(starts: &[u32], line: u32) -> u32
    ensures { result ≡ slice_index starts.now line }
{
    starts.get(line as usize).copied().unwrap_or(0)
}

ghost use Rattle.std.specs.Prelude.{◌≡◌, IfOk, OnErr};
ghost use Rattle.std.specs.Option.{option_copied};
ghost use Rattle.dex_code.specs.Find.{Ascend, FoundAt};
ghost use Rattle.dex_code.specs.Flow.{found, starts};

use crate::insn::Insn;

/// Where the line of a pc is, by halving.
fn place_of(lines: &[(u32, Insn)], pc: u32) -> Result<usize, usize>
    requires { Ascend lines.now }
    ensures there { IfOk result (FoundAt lines.now pc) }
    ensures nowhere { OnErr result (found lines.now pc ≡ None) }
{
    lines.binary_search_by_key(&pc, |line| line.0)
}

/// What begins at a pc.
pub fn line_at(lines: &[(u32, Insn)], pc: u32) -> Option<&Insn>
    requires { Ascend lines.now }
    ensures { option_copied result ≡ found lines.now pc }
{
    match place_of(lines, pc) {
        Ok(at) => Some(&lines[at].1),
        Err(_) => None,
    }
}

/// Whether an instruction starts at a pc.
#[tactic(auto, unfolding(crate::specs::Flow::starts))]
pub fn is_start(lines: &[(u32, Insn)], pc: u32) -> bool
    requires { Ascend lines.now }
    ensures { result ≡ starts lines.now pc }
{
    match line_at(lines, pc) {
        Some(insn) => !insn.is_payload(),
        None => false,
    }
}

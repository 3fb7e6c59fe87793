ghost use Rattle.std.specs.Prelude.{◌≡◌, ◌<◌, ◌^◌, length};
ghost use Rattle.vet_base.specs.Script.{Gives};
ghost use Rattle.dex_code.specs.Find.{Ascend};
ghost use Rattle.dex_code.specs.Tries.{handlers_start, tries_at, try_stands};

use crate::fault::{CodeFault, Halt};
use crate::find::is_start;
use crate::insn::Insn;
use dex_tables::RawTry;
use vet_base::Stop;

#[tactic(auto, unfolding(crate::specs::Tries::handlers_start))]
fn are_starts(lines: &[(u32, Insn)], handlers: &[(u32, u32)]) -> bool
    requires { Ascend lines.now }
    ensures { result ≡ handlers_start lines.now handlers.now }
{
    handlers.iter().all(
        |handler|
            requires { Ascend lines.now }
        { is_start(lines, handler.1) },
    )
}

#[tactic(auto, unfolding(crate::specs::Tries::try_stands))]
fn stands(size: usize, lines: &[(u32, Insn)], item: &RawTry) -> bool
    requires { Ascend lines.now }
    ensures { result ≡ try_stands size lines.now item.now }
{
    item.start as usize + item.count as usize <= size
        && are_starts(lines, item.handlers.as_slice())
        && match item.catch_all {
            None => true,
            Some(address) => is_start(lines, address),
        }
}

/// Tests each try of a method of so many units.
#[tactic(auto, unfolding(crate::specs::Tries::tries_at))]
pub fn check_tries(size: usize, lines: &[(u32, Insn)], tries: &[RawTry]) -> Result<(), Halt>
    requires order { Ascend lines.now }
    requires few { length tries.now < 2 ^ 32 }
    ensures { Gives (λ x. x) result (tries_at size lines.now 0 tries.now) }
{
    for (n, item) in tries.iter().enumerate() {
        if !stands(size, lines, item) {
            return Err(Stop::Fault(CodeFault::Tries(n as u32)));
        }
    }
    Ok(())
}

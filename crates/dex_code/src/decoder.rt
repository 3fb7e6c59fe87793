ghost use Rattle.std.specs.Prelude.{◌≡◌, ◌<◌, ◌≤◌, ◌*◌, ◌^◌, ◌⊎◌, IfOk, IfErr, length};
ghost use Rattle.vet_base.specs.Script.{Gives};
ghost use Rattle.dex_code.specs.declared.fault.CodeFault.TheVariants as faults;
ghost use Rattle.dex_code.specs.Code.{decoding, FirstFault, IsCode};
ghost use Rattle.dex_code.specs.Find.{Ascend};
ghost use Rattle.dex_code.specs.Handled.{catches_listed};
ghost use Rattle.dex_code.specs.Listed.{listed_by_all};

use crate::fault::{CodeFault, Halt};
use crate::flow::check_flows;
use crate::handled::check_handled;
use crate::insn::Insn;
use crate::lines::lines_of;
use crate::listed::check_listed;
use crate::tries::check_tries;
use dex_tables::{RawCode, RawTry};
use std::alloc::Global;
use vet_base::{Seq, Shared, Stop};

/// How many strings, types, fields and methods a file has. An index of an instruction is below the one of its kind.
#[derive(Clone, Copy, Debug, PartialEq, Eq)]
pub struct Counts {
    pub strings: u32,
    pub types: u32,
    pub fields: u32,
    pub methods: u32,
}

/// The code of a method: each line with the pc of its first unit,
/// by ascending pc, and the try items as the file has them.
#[derive(Drop)]
pub struct Decoded {
    pub lines: Seq<(u32, Insn)>,
    pub tries: Shared<RawTry>,
}

#[tactic(auto, unfolding(crate::specs::Code::decoding), using(vet_base::proofs::Scripts::run_bind, crate::proofs::HandledLines::catches_counted))]
fn decoded_of(alloc: Global, code: &RawCode, counts: &Counts) -> Result<Decoded, Halt>
    requires units { length code.now.units < 2 ^ 32 }
    requires tries { length code.now.tries < 2 ^ 32 }
    ensures script { Gives (λ d. d) result (decoding code.now counts.now) }
    ensures listed { IfOk result (λ d. listed_by_all d.lines d.lines ≤ 4 * length code.now.units) }
    ensures handled { IfOk result (λ d. catches_listed d.tries d.lines ≤ 16 * length code.now.units) }
{
    let size = code.units.len();
    if !(0 < size || code.ins <= code.registers) {
        return Err(Stop::Fault(CodeFault::Register(0)));
    }
    let (lines, _) = lines_of(alloc, code, counts)?;
    if !(0 < size) {
        return Err(Stop::Fault(CodeFault::FallsOff(0)));
    }
    check_listed(&lines, size)?;
    check_handled(&lines, code.tries.as_slice(), size)?;
    check_flows(&lines)?;
    check_tries(size, &lines, code.tries.as_slice())?;
    Ok(Decoded {
        lines: Seq::from_vec(lines),
        tries: code.tries.copy()?,
    })
}

/// The instructions of a method, or the first fault of its units,
/// for a file with so many strings, types, fields and methods.
///
/// Three passes look for faults: `Opcode`, `Cut`, `Register` and `Index` by ascending pc and at one pc in that order;
/// then `Target`, `Payload` and `FallsOff` in the same way; then `Tries` by number. All code is tested, reachable or
/// not. Between the first two, code whose switches list more than 4 targets a unit, or whose lines list more than 16
/// handlers a unit, is answered with `Memory`.
pub fn decode(alloc: Global, code: &RawCode, counts: &Counts) -> Result<Decoded, CodeFault>
    requires units { length code.now.units < 2 ^ 32 }
    requires tries { length code.now.tries < 2 ^ 32 }
    ensures ok { IfOk result (λ d. IsCode code.now counts.now d) }
    ensures order { IfOk result (λ d. Ascend d.lines) }
    ensures listed { IfOk result (λ d. listed_by_all d.lines d.lines ≤ 4 * length code.now.units) }
    ensures handled { IfOk result (λ d. catches_listed d.tries d.lines ≤ 16 * length code.now.units) }
    ensures fault { IfErr result (λ e. (e ≡ faults.Memory) ⊎ FirstFault code.now counts.now e) }
    ensures code { (d : Decoded) → IsCode code.now counts.now d → (result ≡ Ok d) ⊎ (result ≡ Err faults.Memory) }
    ensures first { (e : CodeFault) → FirstFault code.now counts.now e → (result ≡ Err e)
        ⊎ (result ≡ Err faults.Memory) }
{
    match decoded_of(alloc, code, counts) {
        Ok(decoded) => Ok(decoded),
        Err(Stop::Memory) => Err(CodeFault::Memory),
        Err(Stop::Fault(fault)) => Err(fault),
    }
}

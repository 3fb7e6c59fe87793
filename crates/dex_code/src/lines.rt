ghost use Rattle.std.specs.Prelude.{◌≡◌, ◌≤◌, ◌<◌, ◌^◌, length, IfOk};
ghost use Rattle.vet_base.specs.Script.{Gives};
ghost use Rattle.dex_code.specs.Lines.{index_stands, line_at, lines_at, registers_stand};

use crate::decoder::Counts;
use crate::fault::{CodeFault, Halt};
use crate::insn::Insn;
use crate::insn_at::said_at;
use crate::registers::{has_few_arguments, has_index, have_registers};
use crate::shape::{Shape, shape_with};
use crate::units::unit_at;
use dex_tables::RawCode;
use std::alloc::Global;
use vet_base::Stop;

/// The line at a pc, and the pc behind it.
#[tactic(auto, unfolding(crate::specs::Lines::line_at, crate::specs::Insns::shape_at, crate::specs::Insns::width_at, crate::specs::Insns::insn_at), using(vet_base::proofs::Scripts::run_bind))]
fn line_of(
    alloc: Global,
    code: &RawCode,
    counts: &Counts,
    pc: usize,
) -> Result<((u32, Insn), usize), Halt>
    requires here { pc < length code.now.units }
    requires small { length code.now.units < 2 ^ 32 }
    ensures value { Gives (λ x. x) result (line_at code.now counts.now pc) }
    ensures within { IfOk result (λ x. (pc < x.1) × (x.1 ≤ length code.now.units)) }
{
    let units = code.units.as_slice();
    let here = pc as u32;
    let first = unit_at(units, pc);
    let shape = shape_with(first);
    if !shape.is_used() {
        return Err(Stop::Fault(CodeFault::Opcode(here)));
    }
    let next = pc + shape.width(units, pc);
    if next > units.len() {
        return Err(Stop::Fault(CodeFault::Cut(here)));
    }
    let insn = said_at(alloc, shape, units, here)?;
    if !has_few_arguments(shape, first)
        || !have_registers(code.registers, &insn)
        || !(pc > 0 || code.ins <= code.registers)
    {
        return Err(Stop::Fault(CodeFault::Register(here)));
    }
    if !has_index(counts, shape, units, pc) {
        return Err(Stop::Fault(CodeFault::Index(here)));
    }
    Ok(((here, insn), next))
}

/// All lines of a method.
#[tactic(auto, unfolding(crate::specs::Lines::lines_at), using(vet_base::proofs::Scripts::sweep_begins, vet_base::proofs::Scripts::sweep_goes_on, vet_base::proofs::Scripts::sweep_fails, vet_base::proofs::Scripts::sweep_is_done))]
pub fn lines_of(
    alloc: Global,
    code: &RawCode,
    counts: &Counts,
) -> Result<(Vec<(u32, Insn)>, usize), Halt>
    requires { length code.now.units < 2 ^ 32 }
    ensures { Gives (λ x. (x.0.items, x.1)) result (lines_at code.now counts.now) }
{
    let mut lines = Vec::new(alloc);
    let mut pc = 0;
    for _ in 0..code.units.len() {
        if pc >= code.units.len() {
            return Ok((lines, pc));
        }
        let (line, next) = line_of(alloc, code, counts, pc)?;
        lines.push(line)?;
        pc = next;
    }
    Ok((lines, pc))
}

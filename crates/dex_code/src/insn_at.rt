ghost use Rattle.std.specs.Prelude.{◌≡◌, ◌+◌, ◌<◌, ◌^◌, IfOk, slice_index, take};
ghost use Rattle.dex_code.specs.Units.{fourth_nibble};
ghost use Rattle.dex_code.specs.Insns.{five, said_by, said_with};

use crate::insn::Insn;
use crate::payload_at::{int_pairs_from, ints_from};
use crate::shape::Shape;
use crate::units::{int32_at, int64_at, long_at, target_from, unit_at, with_sign};
use dalvik_formats::Format;
use std::alloc::{AllocError, Global};
use vet_base::Seq;

/// The argument registers of format `35c`, by its first and third unit.
fn arguments(alloc: Global, first: u16, third: u16) -> Result<Vec<u16>, AllocError>
    ensures { IfOk result (λ v. v.items ≡ take (fourth_nibble first) (five first third)) }
{
    let five = [
        third % 16,
        third / 16 % 16,
        third / 256 % 16,
        third / 4096,
        first / 256 % 16,
    ];
    let count = (first / 4096) as usize;
    five[..count.min(5)].to_vec(alloc)
}

/// What the instruction of that format at a pc says.
fn instruction_at(alloc: Global, format: Format, units: &[u16], pc: u32) -> Result<Insn, AllocError>
    ensures { IfOk result (λ i. i ≡ said_with (slice_index units.now pc) (slice_index units.now (pc + 1)) format
        units.now pc) }
{
    let at = pc as usize;
    let u = unit_at(units, at);
    let v = unit_at(units, at + 1);
    let op = (u % 256) as u8;
    let (a, b, aa) = (u / 256 % 16, u / 4096, u / 256);
    Ok(match format {
        Format::Unused | Format::F10x => Insn::F10x(op),
        Format::F12x => Insn::F12x(op, a, b),
        Format::F11n => Insn::F11n(op, a, i64::from(with_sign(8, b))),
        Format::F11x => Insn::F11x(op, aa),
        Format::F10t => Insn::F10t(op, target_from(pc, with_sign(128, aa))),
        Format::F20t => Insn::F20t(op, target_from(pc, with_sign(32768, v))),
        Format::F22x => Insn::F22x(op, aa, v),
        Format::F21t => Insn::F21t(op, aa, target_from(pc, with_sign(32768, v))),
        Format::F21s => Insn::F21s(op, aa, i64::from(with_sign(32768, v))),
        Format::F21h => Insn::F21h(op, aa, i64::from(with_sign(32768, v))),
        Format::F21c(_) => Insn::F21c(op, aa, u32::from(v)),
        Format::F23x => Insn::F23x(op, aa, v % 256, v / 256),
        Format::F22b => Insn::F22b(op, aa, v % 256, i64::from(with_sign(128, v / 256))),
        Format::F22t => Insn::F22t(op, a, b, target_from(pc, with_sign(32768, v))),
        Format::F22s => Insn::F22s(op, a, b, i64::from(with_sign(32768, v))),
        Format::F22c(_) => Insn::F22c(op, a, b, u32::from(v)),
        Format::F32x => Insn::F32x(op, v, unit_at(units, at + 2)),
        Format::F30t => Insn::F30t(op, target_from(pc, int32_at(units, at + 1))),
        Format::F31t => Insn::F31t(op, aa, target_from(pc, int32_at(units, at + 1))),
        Format::F31i => Insn::F31i(op, aa, i64::from(int32_at(units, at + 1))),
        Format::F31c => Insn::F31c(op, aa, long_at(units, at + 1)),
        Format::F35c(_) => {
            let registers = arguments(alloc, u, unit_at(units, at + 2))?;
            Insn::F35c(op, u32::from(v), Seq::from_vec(registers))
        }
        Format::F3rc(_) => Insn::F3rc(op, u32::from(v), unit_at(units, at + 2), aa),
        Format::F51l => Insn::F51l(op, aa, int64_at(units, at + 1)),
    })
}

/// What stands at a pc.
pub fn said_at(alloc: Global, shape: Shape, units: &[u16], pc: u32) -> Result<Insn, AllocError>
    ensures { IfOk result (λ i. i ≡ said_by shape units.now pc) }
{
    let at = pc as usize;
    Ok(match shape {
        Shape::Instruction(format) => instruction_at(alloc, format, units, pc)?,
        Shape::Packed => {
            let distances = ints_from(alloc, units, at + 4, unit_at(units, at + 1))?;
            Insn::Packed(int32_at(units, at + 2), Seq::from_vec(distances))
        }
        Shape::Sparse => {
            let count = unit_at(units, at + 1);
            let values = at + 2 + 2 * count as usize;
            let pairs = int_pairs_from(alloc, units, at + 2, values, count)?;
            Insn::Sparse(Seq::from_vec(pairs))
        }
        Shape::Filled => Insn::Filled(unit_at(units, at + 1), long_at(units, at + 2)),
    })
}

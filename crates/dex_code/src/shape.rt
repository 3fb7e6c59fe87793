ghost use Rattle.std.specs.Prelude.{◌≡◌, ◌≤◌, ◌<◌, ◌^◌};
ghost use Rattle.dex_code.specs.Insns.{shape_of, width_of, is_used};

use crate::units::{long_at, unit_at};
use dalvik_formats::{Format, format_of};

/// What begins at a unit: an instruction of a format, or a payload.
#[derive(Clone, Copy)]
pub enum Shape {
    Instruction(Format),
    Packed,
    Sparse,
    Filled,
}

/// What begins with this unit.
#[tactic(auto, unfolding(crate::specs::Insns::shape_of))]
pub fn shape_with(unit: u16) -> Shape
    ensures { result ≡ shape_of unit }
{
    if unit == 0x0100 {
        Shape::Packed
    } else if unit == 0x0200 {
        Shape::Sparse
    } else if unit == 0x0300 {
        Shape::Filled
    } else {
        Shape::Instruction(format_of((unit % 256) as u8))
    }
}

impl Shape {
    /// Whether it is a payload or an instruction of a used opcode.
    pub fn is_used(self) -> bool
        ensures { result ≡ is_used self }
    {
        !matches!(self, Shape::Instruction(Format::Unused))
    }

    /// How many units it takes, by its first units where it is a payload.
    pub fn width(self, units: &[u16], pc: usize) -> usize
        requires { pc < 2 ^ 32 }
        ensures value { result ≡ width_of self units.now pc }
        ensures some { 1 ≤ result }
        ensures few { result < 2 ^ 50 }
    {
        match self {
            Shape::Instruction(format) => format.units(),
            Shape::Packed => 4 + 2 * unit_at(units, pc + 1) as usize,
            Shape::Sparse => 2 + 4 * unit_at(units, pc + 1) as usize,
            Shape::Filled => {
                let bytes = unit_at(units, pc + 1) as usize * long_at(units, pc + 2) as usize;
                4 + bytes.div_ceil(2)
            }
        }
    }
}

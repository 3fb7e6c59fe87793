ghost use Rattle.std.specs.Prelude.{◌≡◌, ◌∷◌, ◌++◌, ◌<◌, OnOk, slice_index};
ghost use Rattle.dalvik_formats.specs.Layouts.{layout_of};
ghost use Rattle.dex_maker.specs.Spelling.{unit_of, with_byte, with_halves, two_units};
ghost use Rattle.dex_maker.specs.Spelling.{four_units, four_halves, listed_units, plain_units};

use dalvik_formats::{Format, format_of};
use vet_base::Memory;

/// Sixteen bits of a number, from the one of that value on.
pub fn unit_of(number: u64, value: u64) -> u16
    requires { 0 < value }
    ensures { result ≡ unit_of number value }
{
    (number / value % 65536) as u16
}

/// A register, 0 where there is none.
pub fn register(registers: &[u16], i: usize) -> u64
    ensures value { result ≡ slice_index registers.now i }
    ensures small { result < 65536 }
{
    u64::from(registers.get(i).copied().unwrap_or(0))
}

fn with_byte(low: u64, a: u64) -> u16
    requires { low < 256 }
    ensures { result ≡ with_byte low a }
{
    (low + 256 * (a % 256)) as u16
}

fn with_halves(low: u64, a: u64, b: u64) -> u16
    requires { low < 256 }
    ensures { result ≡ with_halves low a b }
{
    (low + 256 * (a % 16) + 4096 * (b % 16)) as u16
}

fn four_halves(a: u64, b: u64, c: u64, d: u64) -> u16
    ensures { result ≡ four_halves a b c d }
{
    (a % 16 + 16 * (b % 16) + 256 * (c % 16) + 4096 * (d % 16)) as u16
}

fn put(units: &mut Vec<u16>, more: &[u16]) -> Result<(), Memory>
    ensures { OnOk result (units.new.items ≡ units.old.items ++ more.now) }
{
    units.extend_from_slice(more)?;
    Ok(())
}

/// Puts a unit, and then a number in two more, the low one first.
fn put_double(units: &mut Vec<u16>, first: u16, number: u64) -> Result<(), Memory>
    ensures { OnOk result (units.new.items ≡ units.old.items ++ first ∷ two_units number) }
{
    let low = unit_of(number, 1);
    let high = unit_of(number, 65536);
    put(units, &[first, low, high])
}

/// Puts a unit, and then a number in four more, the low one first.
fn put_quadruple(units: &mut Vec<u16>, first: u16, number: u64) -> Result<(), Memory>
    ensures { OnOk result (units.new.items ≡ units.old.items ++ first ∷ four_units number) }
{
    let a = unit_of(number, 1);
    let b = unit_of(number, 65536);
    let c = unit_of(number, 0x1_0000_0000);
    let d = unit_of(number, 0x1_0000_0000_0000);
    put(units, &[first, a, b, c, d])
}

/// Puts an instruction of format 35c, whose registers are up to five.
fn put_listed(units: &mut Vec<u16>, op: u64, registers: &[u16], index: u64) -> Result<(), Memory>
    requires { op < 256 }
    ensures { OnOk result (units.new.items ≡ units.old.items ++ listed_units op registers.now index) }
{
    let count = registers.len() as u64;
    let low = with_halves(op, register(registers, 4), count);
    let a = register(registers, 0);
    let b = register(registers, 1);
    let c = register(registers, 2);
    let d = register(registers, 3);
    put(units, &[low, unit_of(index, 1), four_halves(a, b, c, d)])
}

/// Puts one instruction: of each part the low bits that its format has room for.
#[tactic(auto, unfolding(crate::specs::Spelling::plain_units))]
pub fn put_plain(
    units: &mut Vec<u16>,
    opcode: u8,
    registers: &[u16],
    literal: u64,
    index: u64,
    distance: u64,
) -> Result<(), Memory>
    ensures { OnOk result (units.new.items ≡ units.old.items ++ plain_units (layout_of opcode) opcode registers.now
        literal index distance) }
{
    let op = u64::from(opcode);
    let a = register(registers, 0);
    let b = register(registers, 1);
    let c = register(registers, 2);
    match format_of(opcode) {
        Format::Unused | Format::F10x => put(units, &[u16::from(opcode)]),
        Format::F12x => put(units, &[with_halves(op, a, b)]),
        Format::F11n => put(units, &[with_halves(op, a, literal)]),
        Format::F11x => put(units, &[with_byte(op, a)]),
        Format::F10t => put(units, &[with_byte(op, distance)]),
        Format::F20t => put(units, &[u16::from(opcode), unit_of(distance, 1)]),
        Format::F22x => put(units, &[with_byte(op, a), unit_of(b, 1)]),
        Format::F21t => put(units, &[with_byte(op, a), unit_of(distance, 1)]),
        Format::F21s | Format::F21h => put(units, &[with_byte(op, a), unit_of(literal, 1)]),
        Format::F21c(_) => put(units, &[with_byte(op, a), unit_of(index, 1)]),
        Format::F23x => put(units, &[with_byte(op, a), with_byte(b % 256, c)]),
        Format::F22b => put(units, &[with_byte(op, a), with_byte(b % 256, literal)]),
        Format::F22t => put(units, &[with_halves(op, a, b), unit_of(distance, 1)]),
        Format::F22s => put(units, &[with_halves(op, a, b), unit_of(literal, 1)]),
        Format::F22c(_) => put(units, &[with_halves(op, a, b), unit_of(index, 1)]),
        Format::F32x => put(units, &[u16::from(opcode), unit_of(a, 1), unit_of(b, 1)]),
        Format::F30t => put_double(units, u16::from(opcode), distance),
        Format::F31t => put_double(units, with_byte(op, a), distance),
        Format::F31i => put_double(units, with_byte(op, a), literal),
        Format::F31c => put_double(units, with_byte(op, a), index),
        Format::F35c(_) => put_listed(units, op, registers, index),
        Format::F3rc(_) => put(units, &[with_byte(op, b), unit_of(index, 1), unit_of(a, 1)]),
        Format::F51l => put_quadruple(units, with_byte(op, a), literal),
    }
}

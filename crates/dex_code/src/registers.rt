ghost use Rattle.std.specs.Prelude.{◌≡◌, ◌<◌, ◌^◌};
ghost use Rattle.dex_code.specs.Registers.{all_below, count_fits, count_of, first_more, index_fits, one_fits};
ghost use Rattle.dex_code.specs.Registers.{registers_fit, second_more, third_more, three_fit, two_fit};

use crate::decoder::Counts;
use crate::insn::Insn;
use crate::shape::Shape;
use crate::units::{long_at, unit_at};
use dalvik_formats::{Format, Pairs, Pool, pairs_of};

/// How many registers more than the first the first operand has.
fn more_of_first(pairs: Pairs) -> u32
    ensures value { result ≡ first_more pairs }
    ensures small { result < 2 }
{
    match pairs {
        Pairs::First | Pairs::FirstTwo | Pairs::All => 1,
        Pairs::NoPair | Pairs::Second | Pairs::LastTwo => 0,
    }
}

fn more_of_second(pairs: Pairs) -> u32
    ensures value { result ≡ second_more pairs }
    ensures small { result < 2 }
{
    match pairs {
        Pairs::Second | Pairs::FirstTwo | Pairs::LastTwo | Pairs::All => 1,
        Pairs::NoPair | Pairs::First => 0,
    }
}

fn more_of_third(pairs: Pairs) -> u32
    ensures value { result ≡ third_more pairs }
    ensures small { result < 2 }
{
    match pairs {
        Pairs::LastTwo | Pairs::All => 1,
        Pairs::NoPair | Pairs::First | Pairs::Second | Pairs::FirstTwo => 0,
    }
}

#[tactic(auto, unfolding(crate::specs::Registers::one_fits))]
fn has_one(limit: u16, op: u8, a: u16) -> bool
    ensures { result ≡ one_fits limit op a }
{
    u32::from(a) + more_of_first(pairs_of(op)) < u32::from(limit)
}

#[tactic(auto, unfolding(crate::specs::Registers::two_fit))]
fn has_two(limit: u16, op: u8, a: u16, b: u16) -> bool
    ensures { result ≡ two_fit limit op a b }
{
    let pairs = pairs_of(op);
    let limit = u32::from(limit);
    u32::from(a) + more_of_first(pairs) < limit && u32::from(b) + more_of_second(pairs) < limit
}

#[tactic(auto, unfolding(crate::specs::Registers::three_fit))]
fn has_three(limit: u16, op: u8, a: u16, b: u16, c: u16) -> bool
    ensures { result ≡ three_fit limit op a b c }
{
    let pairs = pairs_of(op);
    let limit = u32::from(limit);
    u32::from(a) + more_of_first(pairs) < limit
        && u32::from(b) + more_of_second(pairs) < limit
        && u32::from(c) + more_of_third(pairs) < limit
}

#[tactic(auto, unfolding(crate::specs::Registers::all_below))]
fn are_below(limit: u16, registers: &[u16]) -> bool
    ensures { result ≡ all_below limit registers.now }
{
    registers.iter().all(|register| *register < limit)
}

/// Whether each register of an instruction, and the second of each pair, is below the limit.
pub fn have_registers(limit: u16, insn: &Insn) -> bool
    ensures { result ≡ registers_fit limit insn.now }
{
    match insn {
        Insn::F10x(_)
        | Insn::F10t(..)
        | Insn::F20t(..)
        | Insn::F30t(..)
        | Insn::Packed(..)
        | Insn::Sparse(..)
        | Insn::Filled(..) => true,
        Insn::F11x(op, a)
        | Insn::F11n(op, a, _)
        | Insn::F21s(op, a, _)
        | Insn::F21h(op, a, _)
        | Insn::F31i(op, a, _)
        | Insn::F51l(op, a, _)
        | Insn::F21t(op, a, _)
        | Insn::F21c(op, a, _)
        | Insn::F31t(op, a, _)
        | Insn::F31c(op, a, _) => has_one(limit, *op, *a),
        Insn::F12x(op, a, b)
        | Insn::F22x(op, a, b)
        | Insn::F32x(op, a, b)
        | Insn::F22b(op, a, b, _)
        | Insn::F22s(op, a, b, _)
        | Insn::F22t(op, a, b, _)
        | Insn::F22c(op, a, b, _) => has_two(limit, *op, *a, *b),
        Insn::F23x(op, a, b, c) => has_three(limit, *op, *a, *b, *c),
        Insn::F35c(_, _, registers) => are_below(limit, registers.as_slice()),
        Insn::F3rc(_, _, first, count) => {
            *count == 0 || u32::from(*first) + u32::from(*count) <= u32::from(limit)
        }
    }
}

/// Whether a call outside a range has no more than five arguments.
pub fn has_few_arguments(shape: Shape, unit: u16) -> bool
    ensures { result ≡ count_fits shape unit }
{
    match shape {
        Shape::Instruction(Format::F35c(_)) => unit / 4096 <= 5,
        _ => true,
    }
}

fn size_of(counts: &Counts, pool: Pool) -> u32
    ensures { result ≡ count_of counts.now pool }
{
    match pool {
        Pool::Strings => counts.strings,
        Pool::Types => counts.types,
        Pool::Fields => counts.fields,
        Pool::Methods => counts.methods,
    }
}

/// Whether what an instruction names by an index is there.
pub fn has_index(counts: &Counts, shape: Shape, units: &[u16], pc: usize) -> bool
    requires { pc < 2 ^ 32 }
    ensures { result ≡ index_fits counts.now shape units.now pc }
{
    match shape {
        Shape::Instruction(
            Format::F21c(pool) | Format::F22c(pool) | Format::F35c(pool) | Format::F3rc(pool),
        ) => u32::from(unit_at(units, pc + 1)) < size_of(counts, pool),
        Shape::Instruction(Format::F31c) => long_at(units, pc + 1) < counts.strings,
        _ => true,
    }
}

ghost use Rattle.std.specs.Prelude.{◌≡◌, ◌≤◌, ◌<◌, ◌^◌, ◌+◌, length, nat_lt, slice_index, IfOk};
ghost use Rattle.std.specs.List.{list_all, sum_by};
ghost use Rattle.dalvik_formats.specs.Layouts.{layout_of};
ghost use Rattle.dex_maker.specs.Lines.{width_of, width_sum};
ghost use Rattle.dex_maker.specs.Classes.{code_width, method_width, unit_count, member_total};
ghost use Rattle.dex_maker.specs.Fits.{is_within, all_below, registers_fit, literal_fits, is_text};
ghost use Rattle.dex_maker.specs.Fits.{is_class, is_field, is_method, is_nothing, names_in, operand_fits};
ghost use Rattle.dex_maker.specs.Fits.{reach_of, is_line, target_fits, pair_stands, elements_fit};
ghost use Rattle.dex_maker.specs.Fits.{line_fits, misfit_from, code_misfit, misfit_in, first_misfit};

use crate::listing::{ListedClass, ListedCode, ListedLine, ListedMethod, Operand};
use crate::payloads::distance;
use crate::widths::{starts_of, width_of};
use dalvik_formats::{Format, Pool, format_of};
use std::alloc::Global;
use vet_base::Memory;

/// Whether a number is from - `half` to `half` - 1.
fn is_within(half: u64, number: i64) -> bool
    ensures { result ≡ is_within half number }
{
    if number < 0 {
        (-(number + 1)).cast_unsigned() < half
    } else {
        number.cast_unsigned() < half
    }
}

fn all_below(limit: u16, registers: &[u16]) -> bool
    ensures { result ≡ all_below limit registers.now }
{
    registers.iter().all(|r| *r < limit)
}

fn below_at(limit: u16, registers: &[u16], i: usize) -> bool
    ensures { result ≡ nat_lt (slice_index registers.now i) limit }
{
    registers.get(i).copied().unwrap_or(0) < limit
}

fn registers_fit(format: Format, registers: &[u16]) -> bool
    ensures { result ≡ registers_fit format registers.now }
{
    match format {
        Format::Unused => false,
        Format::F10x | Format::F10t | Format::F20t | Format::F30t => registers.is_empty(),
        Format::F11n => registers.len() == 1 && all_below(16, registers),
        Format::F11x
        | Format::F21t
        | Format::F21s
        | Format::F21h
        | Format::F21c(_)
        | Format::F31t
        | Format::F31i
        | Format::F31c
        | Format::F51l => registers.len() == 1 && all_below(256, registers),
        Format::F12x | Format::F22t | Format::F22s | Format::F22c(_) => {
            registers.len() == 2 && all_below(16, registers)
        }
        Format::F22b => registers.len() == 2 && all_below(256, registers),
        Format::F22x => registers.len() == 2 && below_at(256, registers, 0),
        Format::F32x => registers.len() == 2,
        Format::F23x => registers.len() == 3 && all_below(256, registers),
        Format::F35c(_) => registers.len() <= 5 && all_below(16, registers),
        Format::F3rc(_) => registers.len() == 2 && below_at(256, registers, 1),
    }
}

fn literal_fits(format: Format, literal: i64) -> bool
    ensures { result ≡ literal_fits format literal }
{
    match format {
        Format::F11n => is_within(8, literal),
        Format::F22b => is_within(128, literal),
        Format::F21s | Format::F21h | Format::F22s => is_within(32768, literal),
        Format::F31i => is_within(0x8000_0000, literal),
        Format::F51l => true,
        _ => literal == 0,
    }
}

fn names_in(pool: Pool, operand: &Operand) -> bool
    ensures { result ≡ names_in pool operand.now }
{
    match pool {
        Pool::Strings => matches!(operand, Operand::Text(_)),
        Pool::Types => matches!(operand, Operand::Class(_)),
        Pool::Fields => matches!(operand, Operand::Field(_, _, _)),
        Pool::Methods => matches!(operand, Operand::Method(_, _, _, _)),
    }
}

fn operand_fits(format: Format, operand: &Operand) -> bool
    ensures { result ≡ operand_fits format operand.now }
{
    match format {
        Format::F21c(pool) | Format::F22c(pool) | Format::F35c(pool) | Format::F3rc(pool) => {
            names_in(pool, operand)
        }
        Format::F31c => matches!(operand, Operand::Text(_)),
        _ => matches!(operand, Operand::Nothing),
    }
}

/// How far a branch reaches, as for `is_within`.
fn reach_of(format: Format) -> Option<u64>
    ensures { result ≡ reach_of format }
{
    match format {
        Format::F10t => Some(128),
        Format::F20t | Format::F21t | Format::F22t => Some(32768),
        Format::F30t | Format::F31t => Some(0x8000_0000),
        _ => None,
    }
}

/// Whether there is a line of that number among so many.
fn is_line(count: usize, line: u32) -> bool
    ensures { result ≡ is_line count line }
{
    (line as usize) < count
}

fn target_fits(
    reach: Option<u64>,
    count: usize,
    starts: &[u32],
    at: u32,
    target: Option<u32>,
) -> bool
    ensures { result ≡ target_fits reach count starts.now at target }
{
    match (reach, target) {
        (None, None) => true,
        (Some(half), Some(line)) => {
            is_line(count, line) && is_within(half, distance(starts, at, line))
        }
        (None, Some(_)) | (Some(_), None) => false,
    }
}

fn are_lines(count: usize, lines: &[u32]) -> bool
    ensures { result ≡ list_all (is_line count) lines.now }
{
    lines.iter().all(|line| is_line(count, *line))
}

fn pairs_stand(count: usize, pairs: &[(i32, u32)]) -> bool
    ensures { result ≡ list_all (pair_stands count) pairs.now }
{
    pairs.iter().all(|pair| is_line(count, pair.1))
}

fn elements_fit(width: u16, len: usize) -> bool
    ensures { result ≡ elements_fit width len }
{
    if width == 0 {
        len == 0
    } else {
        len % width as usize == 0
    }
}

/// Whether each part of a line fits its format: a line of so many, which begin at these starts, and it at that unit.
#[tactic(auto, unfolding(crate::specs::Fits::line_fits))]
fn line_fits(count: usize, starts: &[u32], at: u32, line: &ListedLine) -> bool
    ensures { result ≡ line_fits count starts.now at line.now }
{
    match line {
        ListedLine::Plain(opcode, registers, literal, operand, target) => {
            let format = format_of(*opcode);
            registers_fit(format, registers.as_slice())
                && literal_fits(format, *literal)
                && operand_fits(format, operand)
                && target_fits(reach_of(format), count, starts, at, *target)
        }
        ListedLine::Packed(switch, _, targets) => {
            is_line(count, *switch) && targets.len() < 65536 && are_lines(count, targets.as_slice())
        }
        ListedLine::Sparse(switch, pairs) => {
            is_line(count, *switch) && pairs.len() < 65536 && pairs_stand(count, pairs.as_slice())
        }
        ListedLine::Filled(width, bytes) => elements_fit(*width, bytes.len()),
    }
}

/// The first line that does not fit its format.
#[tactic(auto, unfolding(crate::specs::Lines::width_sum))]
fn misfit_of(starts: &[u32], lines: &[ListedLine]) -> Option<u32>
    requires { width_sum lines.now ≤ 8388608 }
    ensures { result ≡ misfit_from (length lines.now) starts.now 0 0 lines.now }
{
    let mut at = 0u32;
    let mut number = 0u32;
    for line in lines {
        if !line_fits(lines.len(), starts, at, line) {
            return Some(number);
        }
        at += width_of(line) as u32;
        number += 1;
    }
    None
}

fn code_misfit(alloc: Global, code: &Option<ListedCode>) -> Result<Option<u32>, Memory>
    requires { code_width code.now ≤ 8388608 }
    ensures { IfOk result (λ x. x ≡ code_misfit code.now) }
{
    let Some(code) = code else { return Ok(None) };
    let starts = starts_of(alloc, code.lines.as_slice())?;
    Ok(misfit_of(&starts, code.lines.as_slice()))
}

/// The first line of some methods, of which the first has this number, that does not fit its format, with its method.
#[tactic(auto, using(crate::proofs::Sums::term_below))]
fn misfit_in(
    alloc: Global,
    first: u32,
    methods: &[ListedMethod],
) -> Result<Option<(u32, u32)>, Memory>
    requires rows { first + length methods.now ≤ 400000 }
    requires units { sum_by method_width methods.now ≤ 8388608 }
    ensures { IfOk result (λ x. x ≡ misfit_in first methods.now) }
{
    let mut number = first;
    for method in methods {
        if let Some(line) = code_misfit(alloc, &method.code)? {
            return Ok(Some((number, line)));
        }
        number += 1;
    }
    Ok(None)
}

/// The first line of the classes that does not fit its format, with its method's number over all methods.
#[tactic(auto, unfolding(crate::specs::Classes::unit_count, crate::specs::Classes::member_total), using(crate::proofs::Sums::term_below))]
pub fn first_misfit(alloc: Global, classes: &[ListedClass]) -> Result<Option<(u32, u32)>, Memory>
    requires units { unit_count classes.now ≤ 8388608 }
    requires members { member_total classes.now ≤ 400000 }
    ensures { IfOk result (λ x. x ≡ first_misfit 0 classes.now) }
{
    let mut number = 0u32;
    for class in classes {
        if let Some(found) = misfit_in(alloc, number, class.methods.as_slice())? {
            return Ok(Some(found));
        }
        number += class.methods.len() as u32;
    }
    Ok(None)
}

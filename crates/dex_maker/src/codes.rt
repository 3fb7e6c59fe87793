ghost use Rattle.std.specs.Prelude.{◌≡◌, ◌≤◌, ◌++◌, ◌<◌, map, slice_index, OnOk, IfOk};
ghost use Rattle.std.specs.Option.{option_map};
ghost use Rattle.dalvik_formats.specs.Layouts.{layout_of};
ghost use Rattle.dex_maker.specs.Lines.{width_of, width_sum};
ghost use Rattle.dex_maker.specs.Codes.{index_for, target_bits, line_units, units_from, call_arguments};
ghost use Rattle.dex_maker.specs.Codes.{arguments_of, outs_of, handler_pair, raw_try, raw_code};

use crate::listing::{ListedCode, ListedLine, ListedTry, Operand};
use crate::payloads::{distance_bits, put_filled, put_packed, put_sparse};
use crate::spelling::{put_plain, register, unit_of};
use crate::widths::{start_of, starts_of, width_of};
use dalvik_formats::{Format, Pool, format_of};
use dex_tables::{RawCode, RawTry};
use dex_writer::Tables;
use std::alloc::Global;
use vet_base::{Memory, Name, Seq, Shared};

/// The row that an instruction's index names.
fn index_for(alloc: Global, tables: &Tables, operand: &Operand) -> Result<u32, Memory>
    ensures { IfOk result (λ i. i ≡ index_for tables.now operand.now) }
{
    match operand {
        Operand::Nothing => Ok(0),
        Operand::Text(text) => Ok(tables.string_index(text)),
        Operand::Class(class) => Ok(tables.type_index(class)),
        Operand::Field(class, name, kind) => tables.field_index(alloc, class, name, kind),
        Operand::Method(class, name, params, ret) => {
            tables.method_index(alloc, class, name, params.as_slice(), ret)
        }
    }
}

fn target_bits(starts: &[u32], at: u32, target: Option<u32>) -> u64
    ensures { result ≡ target_bits starts.now at target }
{
    match target {
        None => 0,
        Some(line) => distance_bits(starts, at, line),
    }
}

fn put_line(
    alloc: Global,
    units: &mut Vec<u16>,
    tables: &Tables,
    starts: &[u32],
    at: u32,
    line: &ListedLine,
) -> Result<(), Memory>
    ensures { OnOk result (units.new.items ≡ units.old.items ++ line_units tables.now starts.now at line.now) }
{
    match line {
        ListedLine::Plain(opcode, registers, literal, operand, target) => {
            let index = u64::from(index_for(alloc, tables, operand)?);
            let bits = target_bits(starts, at, *target);
            let literal = literal.cast_unsigned();
            put_plain(units, *opcode, registers.as_slice(), literal, index, bits)
        }
        ListedLine::Packed(switch, first_key, targets) => {
            let at = start_of(starts, *switch);
            put_packed(units, starts, at, *first_key, targets.as_slice())
        }
        ListedLine::Sparse(switch, pairs) => {
            let at = start_of(starts, *switch);
            put_sparse(units, starts, at, pairs.as_slice())
        }
        ListedLine::Filled(width, bytes) => put_filled(units, *width, bytes.as_slice()),
    }
}

/// The units that the lines are spelled by.
#[tactic(auto, unfolding(crate::specs::Lines::width_sum))]
fn units_of(
    alloc: Global,
    tables: &Tables,
    starts: &[u32],
    lines: &[ListedLine],
) -> Result<Vec<u16>, Memory>
    requires { width_sum lines.now ≤ 8388608 }
    ensures { IfOk result (λ v. v.items ≡ units_from tables.now starts.now 0 lines.now) }
{
    let mut units = Vec::new(alloc);
    let mut at = 0u32;
    for line in lines {
        put_line(alloc, &mut units, tables, starts, at, line)?;
        at += width_of(line) as u32;
    }
    Ok(units)
}

fn call_arguments(format: Format, registers: &[u16]) -> u16
    ensures { result ≡ call_arguments format registers.now }
{
    match format {
        Format::F35c(Pool::Methods) => unit_of(registers.len() as u64, 1),
        Format::F3rc(Pool::Methods) => unit_of(register(registers, 1), 1),
        _ => 0,
    }
}

fn arguments_of(line: &ListedLine) -> u16
    ensures { result ≡ arguments_of line.now }
{
    match line {
        ListedLine::Plain(opcode, registers, _, _, _) => {
            call_arguments(format_of(*opcode), registers.as_slice())
        }
        ListedLine::Packed(_, _, _) | ListedLine::Sparse(_, _) | ListedLine::Filled(_, _) => 0,
    }
}

/// The greatest number of arguments of a call.
fn outs_of(lines: &[ListedLine]) -> u16
    ensures { result ≡ outs_of lines.now }
{
    let mut outs = 0u16;
    for line in lines {
        outs = outs.max(arguments_of(line));
    }
    outs
}

fn pairs_of(
    alloc: Global,
    tables: &Tables,
    starts: &[u32],
    handlers: &[(Name, u32)],
) -> Result<Vec<(u32, u32)>, Memory>
    ensures { IfOk result (λ v. v.items ≡ map (handler_pair tables.now starts.now) handlers.now) }
{
    let mut pairs = Vec::new(alloc);
    for handler in handlers {
        let kind = tables.type_index(&handler.0);
        pairs.push((kind, start_of(starts, handler.1)))?;
    }
    Ok(pairs)
}

fn address_of(starts: &[u32], line: Option<u32>) -> Option<u32>
    ensures { result ≡ option_map (slice_index starts.now) line }
{
    match line {
        None => None,
        Some(line) => Some(start_of(starts, line)),
    }
}

#[tactic(auto, unfolding(crate::specs::Codes::raw_try))]
fn try_of(
    alloc: Global,
    tables: &Tables,
    starts: &[u32],
    item: &ListedTry,
) -> Result<RawTry, Memory>
    ensures { IfOk result (λ x. x ≡ raw_try tables.now starts.now item.now) }
{
    let start = start_of(starts, item.start);
    let len = start_of(starts, item.end).saturating_sub(start);
    let pairs = pairs_of(alloc, tables, starts, item.handlers.as_slice())?;
    Ok(RawTry {
        start,
        count: unit_of(u64::from(len), 1),
        handlers: Shared::from_vec(alloc, pairs)?,
        catch_all: address_of(starts, item.catch_all),
    })
}

fn tries_of(
    alloc: Global,
    tables: &Tables,
    starts: &[u32],
    tries: &[ListedTry],
) -> Result<Vec<RawTry>, Memory>
    ensures { IfOk result (λ v. v.items ≡ map (raw_try tables.now starts.now) tries.now) }
{
    let mut items = Vec::new(alloc);
    for item in tries {
        items.push(try_of(alloc, tables, starts, item)?)?;
    }
    Ok(items)
}

/// The code item of a method's code.
#[tactic(auto, unfolding(crate::specs::Codes::raw_code))]
pub fn code_of(alloc: Global, tables: &Tables, code: &ListedCode) -> Result<RawCode, Memory>
    requires { width_sum code.now.lines ≤ 8388608 }
    ensures { IfOk result (λ x. x ≡ raw_code tables.now code.now) }
{
    let lines = code.lines.as_slice();
    let starts = starts_of(alloc, lines)?;
    let units = units_of(alloc, tables, &starts, lines)?;
    let tries = tries_of(alloc, tables, &starts, code.tries.as_slice())?;
    Ok(RawCode {
        registers: code.registers,
        ins: code.ins,
        outs: outs_of(lines),
        units: Seq::from_vec(units),
        tries: Shared::from_vec(alloc, tries)?,
    })
}

ghost use Rattle.std.specs.Prelude.{◌≡◌, pos, [], ◌∷◌, IfOk};
ghost use Rattle.made_apps.specs.Code.{invoke_static, move_result_object, return_object, return_void};
ghost use Rattle.made_apps.specs.Code.{const_4, new_array, aget_object, aput_object, sput_object};

use dex_maker::{ListedLine, Operand};
use std::alloc::Global;
use vet_base::{Memory, Name, Seq};

/// An instruction without a target.
fn plain(
    alloc: Global,
    opcode: u8,
    registers: &[u16],
    literal: i64,
    operand: Operand,
) -> Result<ListedLine, Memory>
    ensures { IfOk result (λ l. l ≡ ListedLine.Plain opcode registers.now literal operand None) }
{
    let registers = Seq::from_vec(registers.to_vec(alloc)?);
    Ok(ListedLine::Plain(opcode, registers, literal, operand, None))
}

pub fn invoke_static(
    alloc: Global,
    arguments: &[u16],
    method: Operand,
) -> Result<ListedLine, Memory>
    ensures { IfOk result (λ l. l ≡ invoke_static arguments.now method) }
{
    plain(alloc, 0x71, arguments, 0, method)
}

pub fn move_result_object(alloc: Global, to: u16) -> Result<ListedLine, Memory>
    ensures { IfOk result (λ l. l ≡ move_result_object to) }
{
    plain(alloc, 0x0C, &[to], 0, Operand::Nothing)
}

pub fn return_object(alloc: Global, from: u16) -> Result<ListedLine, Memory>
    ensures { IfOk result (λ l. l ≡ return_object from) }
{
    plain(alloc, 0x11, &[from], 0, Operand::Nothing)
}

pub fn return_void(alloc: Global) -> Result<ListedLine, Memory>
    ensures { IfOk result (λ l. l ≡ return_void) }
{
    plain(alloc, 0x0E, &[], 0, Operand::Nothing)
}

pub fn const_4(alloc: Global, to: u16, value: u8) -> Result<ListedLine, Memory>
    ensures { IfOk result (λ l. l ≡ const_4 to value) }
{
    plain(alloc, 0x12, &[to], value as i64, Operand::Nothing)
}

pub fn new_array(alloc: Global, to: u16, size: u16, kind: Name) -> Result<ListedLine, Memory>
    ensures { IfOk result (λ l. l ≡ new_array to size kind) }
{
    plain(alloc, 0x23, &[to, size], 0, Operand::Class(kind))
}

pub fn aget_object(alloc: Global, to: u16, array: u16, index: u16) -> Result<ListedLine, Memory>
    ensures { IfOk result (λ l. l ≡ aget_object to array index) }
{
    plain(alloc, 0x46, &[to, array, index], 0, Operand::Nothing)
}

pub fn aput_object(alloc: Global, from: u16, array: u16, index: u16) -> Result<ListedLine, Memory>
    ensures { IfOk result (λ l. l ≡ aput_object from array index) }
{
    plain(alloc, 0x4D, &[from, array, index], 0, Operand::Nothing)
}

pub fn sput_object(alloc: Global, from: u16, field: Operand) -> Result<ListedLine, Memory>
    ensures { IfOk result (λ l. l ≡ sput_object from field) }
{
    plain(alloc, 0x69, &[from], 0, field)
}

ghost use Rattle.std.specs.Prelude.{◌≡◌, ◌+◌, ◌≤◌, IfOk, OnOk, OnErr, map};
ghost use Rattle.app_machine.specs.Heap.{blank};
ghost use Rattle.app_machine.specs.State.{value_or_blank, write, write_all};
ghost use Rattle.runner_state.specs.Shown.{entered_from, register_in, value_of};

use crate::value::{Held, held_or_blank};
use crate::values::Values;
use std::alloc::Global;
use vet_base::Memory;

/// The register that holds the result of the last call or filled array.
pub const RESULT: u32 = 65_536;

/// The register that holds the exception.
pub const EXCEPTION: u32 = 65_537;

/// The registers of a frame, with the result of its last call and its exception.
#[derive(Drop)]
pub struct Registers {
    values: Values,
    result: Held,
    exception: Held,
}

impl Registers {
    /// The registers of a body that is entered: the arguments in so many registers from the first on,
    /// as far as there are arguments, and blanks elsewhere.
    pub fn entered(
        alloc: Global,
        first: u32,
        count: u32,
        arguments: &[Held],
    ) -> Result<Registers, Memory>
        requires { first + count ≤ 65535 }
        ensures { IfOk result (λ registers. register_in registers
            ≡ entered_from first count (map value_of arguments.now)) }
    {
        let mut registers = Registers::blank(alloc);
        for i in 0..count {
            registers.set(first + i, argument_at(arguments, i))?;
        }
        Ok(registers)
    }

    /// Blanks alone.
    fn blank(alloc: Global) -> Registers
        ensures { register_in result ≡ (λ r. blank) }
    {
        Registers {
            values: Values::new(alloc),
            result: Held::blank(),
            exception: Held::blank(),
        }
    }

    pub fn get(&self, register: u32) -> Held
        ensures { value_of result ≡ register_in self.now register }
    {
        match register {
            RESULT => self.result,
            EXCEPTION => self.exception,
            _ => self.values.get(register),
        }
    }

    /// Writes one register. After want of memory all are as before.
    pub fn set(&mut self, register: u32, value: Held) -> Result<(), Memory>
        ensures ok { OnOk result (register_in self.new ≡ write (register_in self.old) register (value_of value)) }
        ensures err { OnErr result (register_in self.new ≡ register_in self.old) }
    {
        match register {
            RESULT => self.result = value,
            EXCEPTION => self.exception = value,
            _ => self.values.set(register, value)?,
        }
        Ok(())
    }

    /// Writes each of these registers.
    pub fn set_all(&mut self, registers: &[u32], value: Held) -> Result<(), Memory>
        ensures { OnOk result (register_in self.new
            ≡ write_all (register_in self.old) registers.now (value_of value)) }
    {
        for register in registers {
            self.set(*register, value)?;
        }
        Ok(())
    }
}

/// The argument of the index, and a blank past the last.
fn argument_at(arguments: &[Held], index: u32) -> Held
    ensures { value_of result ≡ value_or_blank (map value_of arguments.now) index }
{
    held_or_blank(arguments.get(index as usize))
}

/// A method that runs.
#[derive(Drop)]
pub struct Called {
    pub method: u32,
    pub pc: u32,
    pub registers: Registers,
    /// Whether it is an initialiser, after which the caller tries its instruction again.
    pub initialises: bool,
}

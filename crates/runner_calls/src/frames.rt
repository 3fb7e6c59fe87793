ghost use Rattle.std.specs.Prelude.{◌≡◌, ◌↔◌, ◌<◌, ◌+◌, ◌≤◌, [], IfOk, IsTrue, OnOk, drop, length, map};
ghost use Rattle.std.specs.Prelude.{option_map, slice_get};
ghost use Rattle.std.specs.Option.{option_copied};
ghost use Rattle.app_machine.specs.Sound.{SoundApp};
ghost use Rattle.app_machine.specs.State.{entered};
ghost use Rattle.played_machine.specs.Calling.{code_of};
ghost use Rattle.runner_calls.specs.Frames.{entered_with, frames_of, gone_on};
ghost use Rattle.runner_calls.specs.Landing.{down_to, landed};
ghost use Rattle.runner_state.specs.Shown.{frame_in, register_in, value_of};

use crate::bodies::code_of;
use crate::landing::Landing;
use app_machine::{App, Method};
use runner_state::{Called, EXCEPTION, Held, Registers};
use std::alloc::Global;
use vet_base::Memory;

/// How many registers all frames may have together. Beyond that the answer is want of memory, so
/// that a short script cannot ask for more than there is.
const MOST_REGISTERS: u64 = 16_777_216;

/// The frames of a run, the running one last.
#[derive(Drop)]
pub struct Frames {
    pub called: Vec<Called>,
    /// For each frame how many registers it and those below it have.
    totals: Vec<u64>,
}

impl Frames {
    /// No frame. It takes no memory.
    pub fn new(alloc: Global) -> Frames
        ensures { frames_of result ≡ [] }
    {
        Frames {
            called: Vec::new(alloc),
            totals: Vec::new(alloc),
        }
    }

    /// The running frame.
    pub fn running(&self) -> Option<&Called>
        ensures { option_map frame_in (option_copied result) ≡ slice_get (frames_of self.now) 0 }
    {
        self.called.last()
    }

    /// The frame that called the running one.
    pub fn caller(&self) -> Option<&Called>
        ensures { option_map frame_in (option_copied result) ≡ slice_get (frames_of self.now) 1 }
    {
        let count = self.called.len();
        if count < 2 {
            return None;
        }
        self.frame_at(count - 2)
    }

    fn frame_at(&self, index: usize) -> Option<&Called>
        ensures { option_copied result ≡ slice_get self.now.called.items index }
    {
        self.called.get(index)
    }

    /// The body begins with these arguments, where it has code. After want of memory, here and below, the run is to be
    /// given up: what frames are left is not said.
    pub fn enter(
        &mut self,
        alloc: Global,
        app: &App,
        body: u32,
        arguments: &[Held],
        initialises: bool,
    ) -> Result<(), Memory>
        requires { SoundApp app.now }
        ensures { OnOk result (frames_of self.new ≡ entered_with (code_of app.now body) body
            (map value_of arguments.now) initialises (frames_of self.old)) }
    {
        match code_of(app, body) {
            None => Ok(()),
            Some(method) => {
                self.count(method.registers)?;
                let registers = registers_of(alloc, method, arguments)?;
                self.called.push(Called {
                    method: body,
                    pc: 0,
                    registers,
                    initialises,
                })?;
                Ok(())
            }
        }
    }

    /// Counts the registers of a frame more.
    fn count(&mut self, registers: u32) -> Result<(), Memory>
        ensures { frames_of self.new ≡ frames_of self.old }
    {
        let below = match self.totals.last() {
            Some(total) => *total,
            None => 0,
        };
        let total = below.saturating_add(u64::from(registers));
        if total > MOST_REGISTERS {
            return Err(Memory);
        }
        self.totals.push(total)?;
        Ok(())
    }

    /// Takes the running frame away.
    pub fn leave(&mut self)
        ensures { frames_of self.new ≡ drop 1 (frames_of self.old) }
    {
        let _total = self.totals.pop();
        let _running = self.called.pop();
    }

    /// The running frame goes on at the address with the value in the register.
    pub fn go_on(&mut self, register: u32, value: Held, pc: u32) -> Result<(), Memory>
        ensures { OnOk result (frames_of self.new ≡ gone_on register (value_of value) pc (frames_of self.old)) }
    {
        let count = self.called.len();
        if count == 0 {
            return Ok(());
        }
        let running = &mut self.called[count - 1];
        running.registers.set(register, value)?;
        running.pc = pc;
        Ok(())
    }

    /// Raises the value to where it goes.
    pub fn land(&mut self, landing: Option<Landing>, value: Held) -> Result<(), Memory>
        ensures { OnOk result (frames_of self.new ≡ landed (value_of value) (frames_of self.old) landing) }
    {
        match landing {
            None => {
                self.end();
                Ok(())
            }
            Some(landing) => {
                self.go_down(landing.below);
                self.go_on(EXCEPTION, value, landing.pc)?;
                Ok(())
            }
        }
    }

    /// Takes all frames away.
    fn end(&mut self)
        ensures { frames_of self.new ≡ [] }
    {
        self.totals.clear();
        self.called.clear();
    }

    /// Takes all frames away that are above the one with so many below it.
    fn go_down(&mut self, below: usize)
        ensures { frames_of self.new ≡ down_to below (frames_of self.old) }
    {
        while self.is_above(below) {
            self.leave();
        }
    }

    /// Whether more than so many frames are below the running one.
    fn is_above(&self, below: usize) -> bool
        ensures { IsTrue result ↔ (below + 1 < length self.now.called.items) }
    {
        let count = self.called.len();
        count > 1 && count - 1 > below
    }
}

/// The registers of the method's body that begins with these arguments.
fn registers_of(alloc: Global, method: &Method, arguments: &[Held]) -> Result<Registers, Memory>
    requires within { method.now.ins ≤ method.now.registers }
    requires few { method.now.registers ≤ 65535 }
    ensures { IfOk result (λ registers. register_in registers ≡ entered method.now (map value_of arguments.now)) }
{
    let registers = Registers::entered(
        alloc,
        method.registers - method.ins,
        method.ins,
        arguments,
    )?;
    Ok(registers)
}

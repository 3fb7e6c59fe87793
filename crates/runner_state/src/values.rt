ghost use Rattle.std.specs.Prelude.{◌≡◌, ◌+◌, ◌≤◌, length, OnOk, OnErr};
ghost use Rattle.app_machine.specs.Heap.{blank};
ghost use Rattle.app_machine.specs.State.{write};
ghost use Rattle.runner_state.specs.Shown.{KeepsValues, held_at, value_of};

use crate::value::{Held, held_or_blank};
use std::alloc::Global;
use vet_base::Memory;

/// Values by number, with a blank wherever none was set.
#[derive(Drop)]
pub struct Values {
    items: Vec<Held>,
}

impl Values {
    /// Blanks alone. It takes no memory.
    pub fn new(alloc: Global) -> Values
        ensures { held_at result ≡ (λ i. blank) }
    {
        Values {
            items: Vec::new(alloc),
        }
    }

    pub fn get(&self, number: u32) -> Held
        ensures { value_of result ≡ held_at self.now number }
    {
        held_or_blank(self.items.get(number as usize))
    }

    /// Sets the value of the number. After want of memory all are as before.
    pub fn set(&mut self, number: u32, value: Held) -> Result<(), Memory>
        ensures ok { OnOk result (held_at self.new ≡ write (held_at self.old) number (value_of value)) }
        ensures err { OnErr result (held_at self.new ≡ held_at self.old) }
    {
        let at = number as usize;
        self.grow(at + 1)?;
        self.items[at] = value;
        Ok(())
    }

    /// Room for so many at least.
    fn grow(&mut self, count: usize) -> Result<(), Memory>
        ensures room { OnOk result (count ≤ length self.new.items.items) }
        ensures kept { KeepsValues self.old self.new }
    {
        while self.items.len() < count {
            self.push_blank()?;
        }
        Ok(())
    }

    fn push_blank(&mut self) -> Result<(), Memory>
        ensures longer { OnOk result (length self.new.items.items ≡ length self.old.items.items + 1) }
        ensures kept { KeepsValues self.old self.new }
    {
        self.items.push(Held::blank())?;
        Ok(())
    }
}

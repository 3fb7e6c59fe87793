ghost use Rattle.std.specs.Prelude.{◌≡◌, ◌+◌, ◌≤◌, length, OnOk, OnErr};
ghost use Rattle.app_machine.specs.Events.{set_component};
ghost use Rattle.runner_world.specs.Shown.{KeepsLives, absent, life_at, state_of};

use std::alloc::Global;
use vet_base::Memory;

/// The state of a component, and the place of its object where that is there.
#[derive(Clone, Copy, Debug)]
pub struct Life {
    pub state: u8,
    pub place: Option<u32>,
}

impl Life {
    fn absent() -> Life
        ensures { state_of result ≡ absent }
    {
        Life {
            state: 0,
            place: None,
        }
    }
}

/// The components by number. One of which nothing was said is absent.
#[derive(Drop)]
pub struct Lives {
    items: Vec<Life>,
}

impl Lives {
    /// All are absent. It takes no memory.
    pub fn new(alloc: Global) -> Lives
        ensures { life_at result ≡ (λ c. absent) }
    {
        Lives {
            items: Vec::new(alloc),
        }
    }

    pub fn get(&self, component: u32) -> Life
        ensures { state_of result ≡ life_at self.now component }
    {
        match self.items.get(component as usize) {
            Some(life) => *life,
            None => Life::absent(),
        }
    }

    /// Sets the state of one component. After want of memory all are as before.
    pub fn set(&mut self, component: u32, life: Life) -> Result<(), Memory>
        ensures ok { OnOk result (life_at self.new ≡ set_component (life_at self.old) component (state_of life)) }
        ensures err { OnErr result (life_at self.new ≡ life_at self.old) }
    {
        let at = component as usize;
        self.grow(at + 1)?;
        self.items[at] = life;
        Ok(())
    }

    /// Room for so many at least.
    fn grow(&mut self, count: usize) -> Result<(), Memory>
        ensures room { OnOk result (count ≤ length self.new.items.items) }
        ensures kept { KeepsLives self.old self.new }
    {
        while self.items.len() < count {
            self.push_absent()?;
        }
        Ok(())
    }

    fn push_absent(&mut self) -> Result<(), Memory>
        ensures longer { OnOk result (length self.new.items.items ≡ length self.old.items.items + 1) }
        ensures kept { KeepsLives self.old self.new }
    {
        self.items.push(Life::absent())?;
        Ok(())
    }
}

ghost use Rattle.std.specs.Prelude.{◌≡◌, IfOk, Some, filter_map, length, map, option_map, slice_get};
ghost use Rattle.app_machine.specs.Sound.{SoundApp};
ghost use Rattle.app_machine.specs.State.{World as AWorld};
ghost use Rattle.app_model.specs.EventBodies.{shown_callback};
ghost use Rattle.runner_choices.specs.Choices.{by_state, event_of, life_with};
ghost use Rattle.runner_choices.specs.Meeting.{MeetsAt};
ghost use Rattle.runner_choices.specs.Table.{IsTable, menu_of};
ghost use Rattle.runner_world.specs.Shown.{state_of};
ghost use Rattle.runner_world.specs.World.{world_in};

use crate::asking::comings_to;
use crate::calling::{add_clicks, called_by, initialisers_of};
use crate::choice::{Choice, Met};
use crate::lives::{LifeRow, life_of};
use crate::meeting::{called_at, count_of, initialiser_at, met};
use crate::summing::sum;
use app_machine::{App, Component, Lists};
use app_model::CalledBack;
use event_index::EventIndex;
use runner_world::{Life, World};
use std::alloc::Global;
use vet_base::{Memory, Name};

/// What may come to a component, whatever the state is.
#[derive(Drop)]
pub struct ComponentTable<'a> {
    class: &'a Name,
    /// The events in its life, in order.
    lives: Vec<LifeRow>,
    /// Its callbacks by row, and then its clicks by number.
    called: Vec<CalledBack<'a>>,
    /// The initialisers of its class, by class upward.
    initialisers: Vec<u32>,
}

impl<'a> ComponentTable<'a> {
    /// The table of this component, which is that of the number.
    pub fn of(
        alloc: Global,
        index: &EventIndex,
        app: &App,
        lists: &'a Lists,
        number: u32,
        component: &'a Component,
    ) -> Result<ComponentTable<'a>, Memory>
        requires sound { SoundApp app.now }
        requires of_app { index.now.0 ≡ app.now }
        requires of_lists { index.now.1 ≡ lists.now }
        requires there { slice_get app.now.components number ≡ Some component.now }
        ensures { IfOk result (IsTable app.now lists.entry.now number) }
    {
        let lives = life_of(alloc, app, component)?;
        let comings = comings_to(alloc, index, &component.class)?;
        let mut called = called_by(alloc, lists, comings.as_slice())?;
        add_clicks(index, app, number, &mut called)?;
        let initialisers = initialisers_of(alloc, app, number)?;
        Ok(ComponentTable {
            class: &component.class,
            lives,
            called,
            initialisers,
        })
    }

    /// How many events may come to the component of the number, which may come to life or not.
    pub fn count(&self, world: &World, number: u32, begins: bool) -> Result<usize, Memory>
        ensures { IfOk result (λ count. count ≡ length (menu_of (world_in world.now) number begins self.now)) }
    {
        let lives = self.life_count(world, number, begins);
        let others = self.other_count(world.components.get(number), begins);
        let all = sum(lives, others)?;
        Ok(all)
    }

    /// The event of the index among them.
    pub fn at(&self, world: &World, number: u32, begins: bool, index: usize) -> Met<'a>
        ensures { MeetsAt (world_in world.now) (menu_of (world_in world.now) number begins self.now) index result }
    {
        match self.life_at(world, number, begins, index) {
            Met::Here(choice) => Met::Here(choice),
            Met::Past(left) => self.other_at(world.components.get(number), begins, left),
        }
    }

    /// How many events may come in its life.
    fn life_count(&self, world: &World, number: u32, begins: bool) -> usize
        ensures { result
            ≡ length (filter_map (life_with (world_in world.now) number self.now.class.now begins)
            self.now.lives.items) }
    {
        let mut count = 0;
        for row in &self.lives {
            count += count_of(self.life_choice(world, number, begins, *row));
        }
        count
    }

    fn life_at(&self, world: &World, number: u32, begins: bool, index: usize) -> Met<'a>
        ensures { MeetsAt (world_in world.now)
            (filter_map (life_with (world_in world.now) number self.now.class.now begins) self.now.lives.items)
            index result }
    {
        let mut left = index;
        for row in &self.lives {
            match met(self.life_choice(world, number, begins, *row), left) {
                Met::Here(choice) => return Met::Here(choice),
                Met::Past(rest) => left = rest,
            }
        }
        Met::Past(left)
    }

    /// The event of the row in its life, where it may come.
    fn life_choice(
        &self,
        world: &World,
        number: u32,
        begins: bool,
        row: LifeRow,
    ) -> Option<Choice<'a>>
        ensures { option_map (event_of (world_in world.now)) result
            ≡ life_with (world_in world.now) number self.now.class.now begins row }
    {
        if row.from != world.components.get(number).state {
            return None;
        }
        if row.from != 0 {
            return Some(Choice::Lives(number, row.to, row.body));
        }
        if begins {
            Some(Choice::Born(number, self.class, row.to, row.body))
        } else {
            None
        }
    }

    /// How many other events may come: where the component is absent its initialisers, and else its
    /// callbacks and clicks.
    fn other_count(&self, life: Life, begins: bool) -> usize
        ensures { (w : AWorld) → result
            ≡ length (by_state w (state_of life) begins (map shown_callback self.now.called.items)
            self.now.initialisers.items) }
    {
        if life.state != 0 {
            self.called.len()
        } else if begins {
            self.initialisers.len()
        } else {
            0
        }
    }

    fn other_at(&self, life: Life, begins: bool, index: usize) -> Met<'a>
        ensures { (w : AWorld) → MeetsAt w
            (by_state w (state_of life) begins (map shown_callback self.now.called.items) self.now.initialisers.items)
            index result }
    {
        if life.state != 0 {
            called_at(self.called.as_slice(), life.place, index)
        } else if begins {
            initialiser_at(self.initialisers.as_slice(), index)
        } else {
            Met::Past(index)
        }
    }
}

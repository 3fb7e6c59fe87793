ghost use Rattle.std.specs.Prelude.{◌≡◌, ℕ, List, IfOk, OnOk, option_map, slice_get};
ghost use Rattle.app_machine.specs.Names.{Name as AName};
ghost use Rattle.app_machine.specs.Sound.{SoundApp};
ghost use Rattle.played_machine.specs.Coming.{events};
ghost use Rattle.played_machine.specs.Drawing.{given, one_of};
ghost use Rattle.runner_choices.specs.Choices.{event_of};
ghost use Rattle.played_growth.specs.Growth.{classes_of};
ghost use Rattle.runner_heap.specs.Objects.{heap_of};
ghost use Rattle.runner_menu.specs.Menus.{Fits, IsReady, choice_behind};
ghost use Rattle.runner_world.specs.World.{world_in};

use crate::tables::{count, event_at, tables_of};
use app_machine::{App, Lists};
use event_index::EventIndex;
use runner_choices::{Choice, ComponentTable, Met, sum};
use runner_handed::HandedMenu;
use runner_state::Script;
use runner_world::World;
use std::alloc::Global;
use vet_base::Memory;

/// What may come to components and to handed objects, as far as it is known beside the state.
#[derive(Drop)]
pub struct Menu<'a> {
    tables: Vec<ComponentTable<'a>>,
    handed: HandedMenu,
}

impl<'a> Menu<'a> {
    /// The menu of the app by the lists. It serves any state.
    pub fn of(
        alloc: Global,
        index: &EventIndex,
        app: &'a App,
        lists: &'a Lists,
    ) -> Result<Menu<'a>, Memory>
        requires sound { SoundApp app.now }
        requires of_app { index.now.0 ≡ app.now }
        requires of_lists { index.now.1 ≡ lists.now }
        ensures { IfOk result (λ menu. (classes : List AName) (handed : List ℕ) →
            Fits app.entry.now lists.entry.now classes handed menu) }
    {
        let tables = tables_of(alloc, index, app, lists)?;
        let handed = HandedMenu::new(alloc, index.callback_count())?;
        Ok(Menu { tables, handed })
    }

    /// Looks at the places that were handed since.
    pub fn catch_up(
        &mut self,
        alloc: Global,
        index: &EventIndex,
        world: &World,
    ) -> Result<(), Memory>
        requires sound { SoundApp index.now.0 }
        requires fits { Fits index.now.0 index.now.1 (classes_of (heap_of world.now.heap)) world.now.handed self.old }
        ensures fits { OnOk result (Fits index.now.0 index.now.1 (classes_of (heap_of world.now.heap)) world.now.handed
            self.new) }
        ensures ready { OnOk result (IsReady index.now.0 index.now.1 (world_in world.now) self.new) }
    {
        let places = world.handed.places();
        self.handed.catch_up(alloc, index, &world.heap, places)?;
        Ok(())
    }

    /// The event that the next byte chooses among those that may come. None exactly where there is no
    /// byte, or no event may come.
    pub fn drawn<'s>(
        &self,
        app: &App,
        lists: &'a Lists,
        world: &World,
        script: Script<'s>,
    ) -> Result<Option<(Choice<'a>, Script<'s>)>, Memory>
        requires sound { SoundApp app.now }
        requires ready { IsReady app.now lists.now (world_in world.now) self.now }
        ensures { IfOk result (λ drawn. option_map (choice_behind (world_in world.now)) drawn
            ≡ one_of (events app.now lists.entry.now (world_in world.now)) script.entry.left.now) }
    {
        let components = count(app, self.tables.as_slice(), world)?;
        let all = sum(components, self.handed.count()?)?;
        if all == 0 {
            return Ok(None);
        }
        match script.draw(all) {
            None => Ok(None),
            Some((i, left)) => Ok(self.chosen(app, lists, world, i, left)),
        }
    }

    /// The event of the index, and the bytes that are left.
    fn chosen<'s>(
        &self,
        app: &App,
        lists: &'a Lists,
        world: &World,
        index: usize,
        left: Script<'s>,
    ) -> Option<(Choice<'a>, Script<'s>)>
        requires sound { SoundApp app.now }
        requires ready { IsReady app.now lists.now (world_in world.now) self.now }
        ensures { option_map (choice_behind (world_in world.now)) result
            ≡ given (slice_get (events app.now lists.entry.now (world_in world.now)) index) left.entry.left.now }
    {
        match self.at(app, lists, world, index) {
            None => None,
            Some(choice) => Some((choice, left)),
        }
    }

    /// The event of the index.
    pub fn at(&self, app: &App, lists: &'a Lists, world: &World, index: usize) -> Option<Choice<'a>>
        requires sound { SoundApp app.now }
        requires ready { IsReady app.now lists.now (world_in world.now) self.now }
        ensures { option_map (event_of (world_in world.now)) result
            ≡ slice_get (events app.now lists.entry.now (world_in world.now)) index }
    {
        match event_at(app, self.tables.as_slice(), world, index) {
            Met::Here(choice) => Some(choice),
            Met::Past(left) => self.handed.at(lists, left),
        }
    }
}

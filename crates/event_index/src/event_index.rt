ghost use Rattle.std.specs.Prelude.{◌≡◌, IfOk, IfSome, length};
ghost use Rattle.vet_base.specs.Members.{first_given};
ghost use Rattle.app_machine.specs.Sound.{SoundApp};
ghost use Rattle.app_machine.specs.SoundLists.{SoundLists};
ghost use Rattle.app_model.specs.Above.{is_below};
ghost use Rattle.app_model.specs.EventBodies.{click, component_callback, handed_callback, life_event};
ghost use Rattle.event_index.specs.Bodies.{life_run};
ghost use Rattle.event_index.specs.Comings.{IsComing, body_if, callback_run, comings};

use crate::asked::{Asked, asked_by_all};
use crate::below_table::BelowTable;
use crate::bodies::{Event, bodies_of, known_body};
use crate::comings::{Coming, comings_of};
use crate::names::number_of;
use crate::order::{depths_of, order_of};
use crate::taker::Taker;
use app_machine::{App, Lists};
use app_model::find_body;
use std::alloc::Global;
use std::marker::Model;
use vet_base::{Memory, Name};

/// An app and the lists of the library, and tables of what is asked of events at many rows: which
/// classes are below which types, which callbacks come to objects of a class, and which bodies the
/// events of components run. Contracts see the app and the lists.
#[derive(Drop)]
pub struct EventIndex<'a> {
    table: BelowTable<'a>,
    comings: Vec<Option<Vec<Coming>>>,
    life: Vec<Vec<Option<u32>>>,
    clicks: Vec<Vec<Option<u32>>>,
    asked: Vec<Vec<Option<Asked<'a>>>>,
}

impl<'a> Model for EventIndex<'a> {
    ghost use Rattle.app_machine.specs.declared.app.App.{App};
    ghost use Rattle.app_machine.specs.declared.lists.Lists.{Lists};
    ghost use Rattle.event_index.specs.Tables.{HasTables};

    ghost Value = { App × Lists };

    ghost view = { λ x. (x.table.app.now, x.table.listed.lists.now) };

    ghost invariant = { λ x. HasTables x.table x.comings.items x.life.items x.clicks.items
        x.asked.items };
}

/// The body of the callback row, where it is among these.
#[tactic(auto, using(app_index::proofs::First::nothing_before, app_index::proofs::First::nothing_up_to, app_index::proofs::First::given_at, app_index::proofs::First::nothing_at_all))]
fn body_at(comings: &[Coming], row: u32) -> Option<u32>
    ensures { result ≡ first_given (body_if row) comings.now }
{
    for coming in comings {
        if coming.row == row {
            return Some(coming.body);
        }
    }
    None
}

impl<'a> EventIndex<'a> {
    /// The index of the app and the lists, in time near linear in both, and in the classes of the app times
    /// the callback rows. It is want of memory where the rows of types would take more than 268,435,456 bytes.
    pub fn of(alloc: Global, app: &'a App, lists: &'a Lists) -> Result<EventIndex<'a>, Memory>
        requires app { SoundApp app.now }
        requires lists { SoundLists lists.now }
        ensures app { IfOk result (λ index. index.0 ≡ app.now) }
        ensures lists { IfOk result (λ index. index.1 ≡ lists.now) }
    {
        let order = order_of(alloc, app)?;
        let depths = depths_of(alloc, app, &order)?;
        let life = bodies_of(alloc, app, &depths, Event::Life)?;
        let clicks = bodies_of(alloc, app, &depths, Event::Click)?;
        let table = BelowTable::of(alloc, app, lists, &order)?;
        let comings = comings_of(alloc, &table, &depths)?;
        let asked = asked_by_all(alloc, &table.listed.kinds, app.methods.as_slice())?;
        Ok(EventIndex {
            table,
            comings,
            life,
            clicks,
            asked,
        })
    }

    /// The app itself.
    pub fn app(&self) -> &App
        ensures { result.now ≡ self.now.0 }
    {
        self.table.app
    }

    /// The lists themselves.
    pub fn lists(&self) -> &Lists
        ensures { result.now ≡ self.now.1 }
    {
        self.table.listed.lists
    }

    /// Whether a value of the class may stand where the type `kind` is asked for.
    pub fn is_below(&self, class: &Name, kind: &Name) -> bool
        requires { SoundApp self.now.0 }
        ensures { result ≡ is_below self.now.0 self.now.1 class.now kind.now }
    {
        self.table.is_below(class, kind)
    }

    /// The class, with what is above it, as parameters are asked whether they may be objects of it.
    pub fn taker<'b>(&'b self, class: &'b Name) -> Taker<'b>
        requires { SoundApp self.now.0 }
        ensures { result ≡ (self.now.0, self.now.1, class.now) }
    {
        Taker {
            table: &self.table,
            asked: self.asked.as_slice(),
            class,
            row: self.table.row(class),
        }
    }

    /// How many callback rows the lists have.
    pub fn callback_count(&self) -> u32
        ensures { result ≡ length self.now.1.callbacks }
    {
        self.table.listed.lists.callbacks.len() as u32
    }

    /// The callbacks that are listed at the number.
    fn comings_at(&self, number: usize) -> Option<&[Coming]>
        ensures { IfSome result (λ listed. IsComing self.now.0 self.now.1 number listed.now) }
    {
        match self.comings.get(number) {
            Some(Some(comings)) => Some(comings.as_slice()),
            _ => None,
        }
    }

    /// The callbacks that come to objects of the class, by their rows, where the tables have them. They
    /// do not for classes of an app of which too many would have to be gone through.
    #[tactic(auto, using(crate::proofs::Listing::comings_there, crate::proofs::Listing::none_outside))]
    pub fn comings(&self, class: &Name) -> Option<&[Coming]>
        requires { SoundApp self.now.0 }
        ensures { IfSome result (λ listed. listed.now ≡ comings self.now.0 self.now.1 class.now) }
    {
        match number_of(self.table.app, class.as_bytes()) {
            Some(number) => self.comings_at(number),
            None => Some(&[]),
        }
    }

    /// The body that the callback row of this number runs on objects of the class.
    #[tactic(auto, using(crate::proofs::Listing::body_comes, crate::proofs::Listing::none_comes, crate::proofs::Listing::no_callback))]
    pub fn called(&self, class: &Name, row: u32) -> Option<u32>
        requires { SoundApp self.now.0 }
        ensures { result ≡ callback_run (handed_callback self.now.0 self.now.1 row class.now) }
    {
        let Some(callback) = self.lists().callbacks.get(row as usize) else {
            return None;
        };
        if self.is_below(class, &callback.class) {
            find_body(self.app(), class, &callback.name, &callback.proto)
        } else {
            None
        }
    }

    /// The body that runs at the event of this number in the life of the component.
    pub fn life_body(&self, component: u32, event: u32) -> Option<u32>
        requires { SoundApp self.now.0 }
        ensures { result ≡ life_run (life_event self.now.0 component event) }
    {
        known_body(self.table.app, &self.life, Event::Life, component, event)
    }

    /// The body that runs at the click of this number on the component.
    pub fn click_body(&self, component: u32, number: u32) -> Option<u32>
        requires { SoundApp self.now.0 }
        ensures { result ≡ click self.now.0 component number }
    {
        known_body(
            self.table.app,
            &self.clicks,
            Event::Click,
            component,
            number,
        )
    }

    /// The body that the callback row of this number runs on the component.
    #[tactic(auto, unfolding(app_model::specs::EventBodies::component_callback), using(crate::proofs::Listing::body_among))]
    pub fn callback_body(&self, component: u32, row: u32) -> Option<u32>
        requires { SoundApp self.now.0 }
        ensures { result ≡ callback_run (component_callback self.now.0 self.now.1 component row) }
    {
        match self.app().components.get(component as usize) {
            Some(component) => match self.comings(&component.class) {
                Some(comings) => body_at(comings, row),
                None => self.called(&component.class, row),
            },
            None => None,
        }
    }
}

//! To what events come.
ghost use Rattle.std.specs.Prelude.{◌≡◌};
ghost use Rattle.cell_event_rules.specs.Receivers.{callback_arrival, callback_context, callback_rule, click_arrival};
ghost use Rattle.cell_event_rules.specs.Receivers.{life_arrival, site_of, start_of, there_as};

use crate::numbers;
use begin_rules::Start;
use fact_rows::{Ctx, Row, Site};
use rule_ground::Premises;

/// To what events come: to a component in a state, or to objects of a site that were handed.
#[derive(Clone, Copy)]
pub enum Receiver {
    Live(u32, u8),
    Handed(Site),
}

impl Receiver {
    pub fn site(self) -> Site
        ensures { result ≡ site_of self }
    {
        match self {
            Receiver::Live(component, _) => Site::Component(component),
            Receiver::Handed(site) => site,
        }
    }

    /// That it is there.
    fn there(self) -> Row
        ensures { result ≡ there_as self }
    {
        match self {
            Receiver::Live(component, state) => Row::Live(component, state),
            Receiver::Handed(site) => Row::Handed(site),
        }
    }

    /// By which rule callbacks come to it.
    fn callback_rule(self) -> u8
        ensures { result ≡ callback_rule self }
    {
        match self {
            Receiver::Live(_, _) => numbers::PRESENT,
            Receiver::Handed(_) => numbers::HANDED,
        }
    }

    /// In which context the callback row runs.
    fn callback_context(self, row: u32) -> Ctx
        ensures { result ≡ callback_context self row }
    {
        match self {
            Receiver::Live(component, _) => Ctx::Callback(component, row),
            Receiver::Handed(_) => Ctx::Handed(row),
        }
    }

    /// The callback row comes to it.
    pub fn called_back(self, row: u32) -> Arrival
        ensures { result ≡ callback_arrival self row }
    {
        Arrival {
            receiver: self,
            rule: self.callback_rule(),
            ctx: self.callback_context(row),
        }
    }
}

/// An event that comes: to what, by which rule, and in which context its body runs.
#[derive(Clone, Copy)]
pub struct Arrival {
    pub receiver: Receiver,
    pub rule: u8,
    pub ctx: Ctx,
}

impl Arrival {
    /// The event of this number in the life of the component.
    pub fn lives(component: u32, state: u8, number: u32) -> Arrival
        ensures { result ≡ life_arrival component state number }
    {
        Arrival {
            receiver: Receiver::Live(component, state),
            rule: numbers::OWN_EVENT,
            ctx: Ctx::Row(component, number),
        }
    }

    /// The click of this number on it.
    pub fn clicked(component: u32, state: u8, number: u32) -> Arrival
        ensures { result ≡ click_arrival component state number }
    {
        Arrival {
            receiver: Receiver::Live(component, state),
            rule: numbers::PRESENT,
            ctx: Ctx::Click(component, number),
        }
    }

    /// Where it begins the body.
    pub fn start(&self, body: u32) -> Start
        ensures { result ≡ start_of self.now body }
    {
        Start {
            rule: self.rule,
            premises: Premises::of_one(self.receiver.there()),
            ctx: self.ctx,
            body,
        }
    }
}

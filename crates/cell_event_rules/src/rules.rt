ghost use Rattle.std.specs.Prelude.{◌≡◌, ◌++◌, OnOk, fold};
ghost use Rattle.app_machine.specs.Sound.{SoundApp};
ghost use Rattle.cell_rules.specs.EventRules.{EventRule};
ghost use Rattle.rule_ground.specs.Hits.{Among};
ghost use Rattle.cell_event_rules.specs.CellEventGiven.{handed_on, live_gives};
ghost use Rattle.cell_event_rules.specs.CellGivenBack.{handed_back};
ghost use Rattle.cell_event_rules.specs.CellRowGiven.{CellEventsReady, cell_event_given, cell_event_leads};
ghost use Rattle.cell_event_rules.specs.CellRowGiven.{reached_gives};
ghost use Rattle.cell_event_rules.specs.exact.CellEventsExact.{cell_events_exact, cell_events_led};

use crate::callbacks::call_back;
use crate::clicks::by_clicks;
use crate::events_reached::{hand_back, reach_event};
use crate::indexed::Indexed;
use crate::life::live_on;
use crate::receiver::Receiver;
use event_index::EventIndex;
use fact_rows::{Node, Row, Site};
use register_readers::RegisterReaders;
use rule_ground::{Facts, Key, Rules, Sink};

/// What follows where the component is in the state.
fn live<S: Sink>(by: &Indexed<'_>, component: u32, state: u8, out: &mut S) -> Result<(), S::Refusal>
    requires { SoundApp by.now.index.now.0 }
    ensures { OnOk result (out.new ≡ fold S.then out.old (live_gives by.now.index.now.0 by.now.readers.now
        by.now.index.now.1 component state)) }
{
    live_on(by, component, state, out)?;
    if state == 0 {
        return Ok(());
    }
    call_back(by, Receiver::Live(component, state), out)?;
    by_clicks(by, component, state, out)
}

/// What follows where objects of the site are handed.
fn hand<F: Facts, S: Sink>(
    by: &Indexed<'_>,
    facts: &F,
    site: Site,
    out: &mut S,
) -> Result<(), S::Refusal>
    requires { SoundApp by.now.index.now.0 }
    ensures { OnOk result (out.new ≡ fold S.then out.old (handed_on by.now.index.now.0 by.now.readers.now
        by.now.index.now.1 site ++ handed_back by.now.index.now.0 by.now.readers.now by.now.index.now.1
        (F.hits facts.now) site)) }
{
    call_back(by, Receiver::Handed(site), out)?;
    hand_back(by, facts, site, out)
}

/// What follows where control comes to the node.
fn reach<F: Facts, S: Sink>(
    by: &Indexed<'_>,
    facts: &F,
    node: Node,
    out: &mut S,
) -> Result<(), S::Refusal>
    requires { SoundApp by.now.index.now.0 }
    ensures { OnOk result (out.new ≡ fold S.then out.old (reached_gives by.now.index.now.0 by.now.readers.now
        by.now.index.now.1 (F.hits facts.now) node)) }
{
    if Key::EventEntries.asks(&Row::Reached(node)) {
        reach_event(by, facts, node.by, out)
    } else {
        Ok(())
    }
}

/// The rules of events of the second set in an app, with lists of the library, by their index and where the app's
/// registers are read.
#[derive(Drop)]
pub struct CellEventRules<'a> {
    pub index: &'a EventIndex<'a>,
    pub readers: &'a RegisterReaders<'a>,
}

impl<'a> CellEventRules<'a> {
    fn indexed(&self) -> Indexed<'a>
        ensures { result ≡ record { index = self.now.index; readers = self.now.readers } }
    {
        Indexed {
            index: self.index,
            readers: self.readers,
        }
    }
}

impl<'a> Rules for CellEventRules<'a> {
    ghost ready = { λ rules. CellEventsReady rules.index.now.0 rules.readers.now rules.index.now.1 };

    ghost rule = { λ rules. EventRule rules.index.now.0 rules.index.now.1 };

    ghost gives = { λ rules. cell_event_given rules.index.now.0 rules.readers.now rules.index.now.1 };

    ghost leads = { λ rules. cell_event_leads rules.index.now.0 rules.readers.now rules.index.now.1 };

    fn conclude<F: Facts, S: Sink>(
        &self,
        facts: &F,
        row: Row,
        out: &mut S,
    ) -> Result<(), S::Refusal> {
        let by = &self.indexed();
        match row {
            Row::Live(component, state) => live(by, component, state, out),
            Row::Handed(site) => hand(by, facts, site, out),
            Row::Reached(node) => reach(by, facts, node, out),
            _ => Ok(()),
        }
    }

    /// The component leads what comes to it, handed objects the callbacks on them, and the event that is reached
    /// that they come back.
    fn lead<F: Facts, S: Sink>(&self, facts: &F, row: Row, out: &mut S) -> Result<(), S::Refusal> {
        let by = &self.indexed();
        match row {
            Row::Live(component, state) => live(by, component, state, out),
            Row::Handed(site) => call_back(by, Receiver::Handed(site), out),
            Row::Reached(node) => reach(by, facts, node, out),
            _ => Ok(()),
        }
    }

    ghost exact = { λ rules rows hits ready law row there. cell_events_exact rules.index.now.0 rules.readers.now
        rules.index.now.1 ready (Among rows) hits law row there };

    ghost led = { λ rules rows hits ready law. cell_events_led rules.index.now.0 rules.readers.now rules.index.now.1
        ready (Among rows) hits law };
}

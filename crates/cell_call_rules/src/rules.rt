ghost use Rattle.std.specs.Prelude.{◌≡◌, ◌++◌, OnOk, fold};
ghost use Rattle.app_machine.specs.Sound.{SoundApp};
ghost use Rattle.cell_rules.specs.CallRules.{CallRule};
ghost use Rattle.cell_ground.specs.Ready.{Ready};
ghost use Rattle.cell_ground.specs.Steps.{step_here};
ghost use Rattle.rule_ground.specs.Hits.{Among};
ghost use Rattle.cell_call_rules.specs.CellCallGiven.{called_by as calls_back, cell_call_given, cell_call_leads};
ghost use Rattle.cell_call_rules.specs.CellCallGiven.{content_on, received_on};
ghost use Rattle.cell_call_rules.specs.exact.CellCallsExact.{cell_calls_exact, cell_calls_led};

use crate::arguments::calls;
use crate::contents::{Held, pass_content};
use crate::exits::{Leaving, exit, take};
use crate::receivers::received;
use app_index::LibraryIndex;
use app_machine::App;
use app_model::step_at;
use call_targets::Pointer;
use cell_ground::Content;
use fact_rows::{Activation, Node, Row};
use register_readers::RegisterReaders;
use rule_ground::{Facts, RETURNING, Rules, Sink, THROWING};

/// The rules of calls of the second set, but those that are kept from the first.
#[derive(Drop)]
pub struct CellCallRules<'a> {
    pub app: &'a App,
    pub readers: &'a RegisterReaders<'a>,
    pub lists: &'a LibraryIndex<'a>,
}

/// What follows for its class where an object is the receiver.
fn receive<S: Sink>(
    app: &App,
    readers: &RegisterReaders<'_>,
    lists: &LibraryIndex<'_>,
    pointer: Pointer,
    out: &mut S,
) -> Result<(), S::Refusal>
    requires { SoundApp app.now }
    ensures { OnOk result (out.new ≡ fold S.then out.old (received_on app.now readers.now lists.now pointer.node
        pointer.register pointer.site (step_here app.now pointer.node))) }
{
    match step_at(app, pointer.node.by.method, pointer.node.pc) {
        None => Ok(()),
        Some(step) => received(app, readers, lists, pointer, &step.act, out),
    }
}

/// What follows where a register holds the content.
fn pass<F: Facts, S: Sink>(
    app: &App,
    readers: &RegisterReaders<'_>,
    facts: &F,
    held: Held,
    out: &mut S,
) -> Result<(), S::Refusal>
    requires { SoundApp app.now }
    ensures { OnOk result (out.new ≡ fold S.then out.old (content_on app.now readers.now (F.hits facts.now) held.node
        held.register held.content (step_here app.now held.node))) }
{
    match step_at(app, held.node.by.method, held.node.pc) {
        None => Ok(()),
        Some(step) => pass_content(app, readers, facts, held, &step.act, out),
    }
}

/// What follows where the node called the activation.
fn called_by<F: Facts, S: Sink>(
    app: &App,
    readers: &RegisterReaders<'_>,
    facts: &F,
    by: Activation,
    node: Node,
    out: &mut S,
) -> Result<(), S::Refusal>
    requires { SoundApp app.now }
    ensures { OnOk result (out.new ≡ fold S.then out.old (calls_back app.now readers.now (F.hits facts.now) by node)) }
{
    take(app, readers, facts, by, node, RETURNING, out)?;
    take(app, readers, facts, by, node, THROWING, out)
}

impl<'a> Rules for CellCallRules<'a> {
    ghost ready = { λ rules. Ready rules.app.now rules.readers.now };

    ghost rule = { λ rules. CallRule rules.app.now rules.lists.now };

    ghost gives = { λ rules. cell_call_given rules.app.now rules.readers.now rules.lists.now };

    ghost leads = { λ rules. cell_call_leads rules.app.now rules.readers.now rules.lists.now };

    fn conclude<F: Facts, S: Sink>(
        &self,
        facts: &F,
        row: Row,
        out: &mut S,
    ) -> Result<(), S::Refusal> {
        let app = self.app;
        let readers = self.readers;
        match row {
            Row::Points(node, register, site) => {
                let pointer = Pointer {
                    node,
                    register,
                    site,
                };
                receive(app, readers, self.lists, pointer, out)?;
                let content = Content::Object(site);
                let held = Held {
                    node,
                    register,
                    content,
                };
                pass(app, readers, facts, held, out)
            }
            Row::Label(node, register, label) => {
                let content = Content::Label(label);
                let held = Held {
                    node,
                    register,
                    content,
                };
                pass(app, readers, facts, held, out)
            }
            Row::Calls(node, by) => calls(app, readers, facts, node, by, out),
            Row::CalledBy(by, node) => called_by(app, readers, facts, by, node, out),
            Row::ExitPoints(by, how, site) => {
                let content = Content::Object(site);
                exit(app, readers, facts, Leaving { by, how, content }, out)
            }
            Row::ExitLabel(by, how, label) => {
                let content = Content::Label(label);
                exit(app, readers, facts, Leaving { by, how, content }, out)
            }
            _ => Ok(()),
        }
    }

    /// A receiver leads what it comes to, a call its arguments, and what leaves an activation its callers.
    fn lead<F: Facts, S: Sink>(&self, facts: &F, row: Row, out: &mut S) -> Result<(), S::Refusal> {
        match row {
            Row::Points(node, register, site) => {
                let pointer = Pointer {
                    node,
                    register,
                    site,
                };
                receive(self.app, self.readers, self.lists, pointer, out)
            }
            Row::Calls(_, _) | Row::ExitPoints(_, _, _) | Row::ExitLabel(_, _, _) => {
                self.conclude(facts, row, out)
            }
            _ => Ok(()),
        }
    }

    ghost exact = { λ rules rows hits ready law row there. cell_calls_exact rules.app.now rules.readers.now
        rules.lists.now ready (Among rows) hits law row there };

    ghost led = { λ rules rows hits ready law. cell_calls_led rules.app.now rules.readers.now rules.lists.now ready
        (Among rows) hits law };
}

ghost use Rattle.rule_ground.specs.Hits.{Among};
ghost use Rattle.cell_ground.specs.Ready.{Ready};
ghost use Rattle.cell_step_rules.specs.CellStepGiven.{StepRule, cell_step_given, cell_step_leads};
ghost use Rattle.cell_step_rules.specs.exact.CellStepsExact.{cell_steps_exact, cell_steps_led};

use crate::cells::{InCell, from_back, from_cell, from_held, hold};
use crate::labels::{Labelled, from_label, lead_label};
use crate::objects::{Holding, from_object};
use crate::reached::reached;
use crate::statics::{InStatic, of_static};
use app_index::{LibraryIndex, StaticReaders};
use cell_ground::Content;
use fact_rows::Row;
use register_readers::RegisterReaders;
use rule_ground::{Facts, Rules, Sink};

/// The rules of steps of the second set, but those that are kept from the first.
#[derive(Drop)]
pub struct CellStepRules<'a> {
    pub app: &'a StaticReaders<'a>,
    pub readers: &'a RegisterReaders<'a>,
    pub lists: &'a LibraryIndex<'a>,
}

impl<'a> Rules for CellStepRules<'a> {
    ghost ready = { λ rules. Ready rules.app.now rules.readers.now };

    ghost rule = { λ rules. StepRule rules.app.now rules.lists.now };

    ghost gives = { λ rules. cell_step_given rules.app.now rules.readers.now rules.lists.now };

    ghost leads = { λ rules. cell_step_leads rules.app.now rules.readers.now rules.lists.now };

    fn conclude<F: Facts, S: Sink>(
        &self,
        facts: &F,
        row: Row,
        out: &mut S,
    ) -> Result<(), S::Refusal> {
        let app = self.app.app();
        let readers = self.readers;
        match row {
            Row::Reached(node) => reached(app, readers, self.lists, facts, node, out),
            Row::Points(node, register, site) => {
                let held = Holding {
                    node,
                    register,
                    site,
                };
                from_object(app, readers, facts, held, out)
            }
            Row::Label(node, register, label) => {
                let held = Labelled {
                    node,
                    register,
                    label,
                };
                from_label(app, readers, facts, held, out)
            }
            Row::Cell(site, key, held) => {
                let content = Content::Object(held);
                from_cell(app, readers, facts, InCell { site, key, content }, out)
            }
            Row::CellLabel(site, key, label) => {
                hold(site, key, label, out)?;
                let content = Content::Label(label);
                from_cell(app, readers, facts, InCell { site, key, content }, out)
            }
            Row::StaticPoints(number, site) => {
                let content = Content::Object(site);
                of_static(self.app, readers, facts, InStatic { number, content }, out)
            }
            Row::StaticLabel(number, label) => {
                let content = Content::Label(label);
                of_static(self.app, readers, facts, InStatic { number, content }, out)
            }
            Row::Holds(site, label) => from_held(facts, site, label, out),
            Row::Back(held, key, holder) => from_back(facts, held, key, holder, out),
            _ => Ok(()),
        }
    }

    /// What is read of a static is led by its reader, what is got or put by the object's register, and what is
    /// reached from an object by what it reaches.
    fn lead<F: Facts, S: Sink>(&self, facts: &F, row: Row, out: &mut S) -> Result<(), S::Refusal> {
        let app = self.app.app();
        let readers = self.readers;
        match row {
            Row::Reached(node) => reached(app, readers, self.lists, facts, node, out),
            Row::Points(node, register, site) => {
                let held = Holding {
                    node,
                    register,
                    site,
                };
                from_object(app, readers, facts, held, out)
            }
            Row::Label(node, register, label) => {
                let held = Labelled {
                    node,
                    register,
                    label,
                };
                lead_label(app, readers, held, out)
            }
            Row::CellLabel(site, key, label) => hold(site, key, label, out),
            Row::Holds(site, label) => from_held(facts, site, label, out),
            _ => Ok(()),
        }
    }

    ghost exact = { λ rules rows hits ready law row there. cell_steps_exact rules.app.now rules.readers.now
        rules.lists.now ready (Among rows) hits law row there };

    ghost led = { λ rules rows hits ready law. cell_steps_led rules.app.now rules.readers.now rules.lists.now ready
        (Among rows) hits law };
}

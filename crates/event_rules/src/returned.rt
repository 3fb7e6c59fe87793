//! Rule 46: what an event returns is handed to the library.
ghost use Rattle.std.specs.Prelude.{◌≡◌, OnOk, fold};
ghost use Rattle.event_rules.specs.EventGiven.{exit_is, exit_leads, exit_points_give};
ghost use Rattle.event_rules.specs.EventGiven.{exit_taint_gives, exit_taints, hands_over};

use crate::numbers;
use access_path::Path;
use fact_rows::{Activation, Row, Site};
use rule_ground::{Conclusion, Facts, Join, Key, Premises, RETURNING, Sink, entry, for_each_hit};

/// Whether what leaves the activation so is handed over: it is that of an event, and returns.
fn hands_over(by: Activation, how: u8) -> bool
    ensures { result ≡ hands_over by how }
{
    how == RETURNING && Key::EventEntries.asks(&Row::Reached(entry(by)))
}

/// An object that an event returns leads to a label that it returns.
fn leads(by: Activation, site: Site, path: Path, label: u8) -> Conclusion
    ensures { result ≡ exit_leads by site path label }
{
    Conclusion {
        rule: numbers::RETURNED,
        premises: Premises::of_two(
            Row::ExitPoints(by, RETURNING, site),
            Row::ExitTaint(by, RETURNING, path, label),
        ),
        row: Row::HandedTaint(site, path, label),
    }
}

/// What is returned beside the object.
#[derive(Drop)]
struct Returned {
    by: Activation,
    site: Site,
}

impl Join for Returned {
    ghost ready = { λ j. Unit {0} };

    ghost gives = { λ j row. exit_is j.by j.site row };

    fn give<S: Sink>(&self, row: Row, out: &mut S) -> Result<(), S::Refusal> {
        match row {
            Row::ExitTaint(_, _, path, label) => out.put(leads(self.by, self.site, path, label)),
            _ => Ok(()),
        }
    }
}

/// What follows where the activation returns (0) or throws (1) an object.
pub fn hand_over<F: Facts, S: Sink>(
    facts: &F,
    by: Activation,
    how: u8,
    site: Site,
    out: &mut S,
) -> Result<(), S::Refusal>
    ensures { OnOk result (out.new ≡ fold S.then out.old (exit_points_give (F.hits facts.now) by how site)) }
{
    if hands_over(by, how) {
        out.put(Conclusion {
            rule: numbers::RETURNED,
            premises: Premises::of_one(Row::ExitPoints(by, RETURNING, site)),
            row: Row::Handed(site),
        })?;
        for_each_hit(
            facts,
            &Key::ExitTaintsOf(by, RETURNING),
            &Returned { by, site },
            out,
        )
    } else {
        Ok(())
    }
}

/// The objects that are returned beside the label.
#[derive(Drop)]
struct Beside {
    by: Activation,
    path: Path,
    label: u8,
}

impl Join for Beside {
    ghost ready = { λ j. Unit {0} };

    ghost gives = { λ j row. exit_taints j.by j.path j.label row };

    fn give<S: Sink>(&self, row: Row, out: &mut S) -> Result<(), S::Refusal> {
        match row {
            Row::ExitPoints(_, _, site) => out.put(leads(self.by, site, self.path, self.label)),
            _ => Ok(()),
        }
    }
}

/// What follows where what it returns or throws leads to a label.
pub fn hand_label_over<F: Facts, S: Sink>(
    facts: &F,
    by: Activation,
    how: u8,
    path: Path,
    label: u8,
    out: &mut S,
) -> Result<(), S::Refusal>
    ensures { OnOk result (out.new ≡ fold S.then out.old (exit_taint_gives (F.hits facts.now) by how path label)) }
{
    if hands_over(by, how) {
        for_each_hit(
            facts,
            &Key::ExitPointsOf(by, RETURNING),
            &Beside { by, path, label },
            out,
        )
    } else {
        Ok(())
    }
}

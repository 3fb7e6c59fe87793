//! What rows tell.

ghost use Rattle.std.specs.Prelude.{◌≡◌, ◌++◌, IfOk};
ghost use Rattle.app_machine.specs.Sound.{SoundApp};
ghost use Rattle.outcomes.specs.Causes.{causes_of};
ghost use Rattle.outcomes.specs.Within.{AreWithin};
ghost use Rattle.flow_telling.specs.Told.{told_of};

use app_model::{App, Declaration, Lists};
use fact_rows::Row;
use outcomes::{Cause, Finding, causes_of, findings_of};
use std::alloc::Global;
use vet_base::{Memory, Seq};

/// What is told of an app: why nothing certain can be said of it, and what is found in it.
#[derive(Drop)]
pub struct Told {
    pub causes: Seq<Cause>,
    pub findings: Seq<Finding>,
}

/// The causes of rows, with those behind them that stand beside.
fn all_causes(
    alloc: Global,
    app: &App,
    mut beside: Vec<Cause>,
    rows: &[Row],
) -> Result<Vec<Cause>, Memory>
    requires sound { SoundApp app.now }
    requires within { AreWithin app.now rows.now }
    ensures { IfOk result (λ v. v.items ≡ causes_of app.now rows.now ++ beside.items) }
{
    let mut causes = causes_of(alloc, app, rows)?;
    causes.append(&mut beside)?;
    Ok(causes)
}

/// What rows tell of an app, with the causes that stand beside them behind theirs.
pub fn told_by_rows(
    alloc: Global,
    app: &App,
    lists: &Lists,
    declaration: &Declaration,
    beside: Vec<Cause>,
    rows: &[Row],
) -> Result<Told, Memory>
    requires sound { SoundApp app.now }
    requires within { AreWithin app.now rows.now }
    ensures { IfOk result (λ t. t ≡ told_of app.now lists.now declaration.now beside.items rows.now) }
{
    let causes = all_causes(alloc, app, beside, rows)?;
    let findings = findings_of(alloc, app, lists, declaration, rows)?;
    Ok(Told {
        causes: Seq::from_vec(causes),
        findings: Seq::from_vec(findings),
    })
}

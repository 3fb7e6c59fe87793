//! What the rows of a flow tell. Nothing is known of them but what methods they name, so where they tell nothing, they
//! do so by the checker's word.

ghost use Rattle.std.specs.Prelude.{◌≡◌, IfNone, IfOk, IfSome, IsFalse, IsTrue};
ghost use Rattle.app_machine.specs.Sound.{SoundApp};
ghost use Rattle.app_machine.specs.SoundLists.{SoundLists};
ghost use Rattle.flow_analyses.specs.Analyses.{GoodTableBy};
ghost use Rattle.outcomes.specs.Within.{AreWithin};
ghost use Rattle.flow_telling.specs.Told.{told_of, TellsNothing};

use crate::told::{Told, told_by_rows};
use app_flow::{FlowRows, FlowTable, is_good};
use app_model::{App, Declaration, Lists};
use outcomes::Cause;
use std::alloc::Global;
use std::marker::Sync;
use std::thread::Threads;
use vet_base::Memory;
use worker_pool::Crew;

/// What the rows of a flow tell. Those that tell something by themselves are enough for that.
fn told_by_telling(
    alloc: Global,
    app: &App,
    lists: &Lists,
    declaration: &Declaration,
    beside: Vec<Cause>,
    rows: &FlowRows,
) -> Result<Told, Memory>
    requires sound { SoundApp app.now }
    requires within { AreWithin app.now rows.now }
    ensures { IfOk result (λ t. t ≡ told_of app.now lists.now declaration.now beside.items rows.now) }
{
    let telling = rows.telling(alloc)?;
    let told = told_by_rows(alloc, app, lists, declaration, beside, telling.as_slice())?;
    Ok(told)
}

/// Whether what the rows tell may be said: that it is nothing where the checker accepts them, which it alone decides;
/// anything else without it.
fn may_be_said<T: Threads + Sync, L>(
    alloc: Global,
    app: &App,
    lists: &Lists,
    table: &FlowTable,
    told: &Told,
    crew: &Crew<'_, T, L>,
) -> Result<bool, Memory>
    requires sound { SoundApp app.now }
    requires lists { SoundLists lists.now }
    ensures nothing { IfOk result (λ may. IsTrue may → TellsNothing told.now → GoodTableBy table.now.analysis app.now
        lists.now table.now.rows) }
    ensures refused { IfOk result (λ may. IsFalse may → GoodTableBy table.now.analysis app.now lists.now table.now.rows
        → ⊥) }
{
    if told.causes.is_empty() && told.findings.is_empty() {
        is_good(alloc, app, lists, table, crew)
    } else {
        Ok(true)
    }
}

/// What the table of a flow tells of an app, with the causes that stand beside them behind theirs. None only where the
/// checker refuses the rows.
pub fn told_by_flow<T: Threads + Sync, L>(
    alloc: Global,
    app: &App,
    lists: &Lists,
    declaration: &Declaration,
    beside: Vec<Cause>,
    table: &FlowTable,
    crew: &Crew<'_, T, L>,
) -> Result<Option<Told>, Memory>
    requires sound { SoundApp app.now }
    requires lists { SoundLists lists.now }
    requires within { AreWithin app.now table.now.rows }
    ensures some { IfOk result (λ found. IfSome found (λ t. t ≡ told_of app.now lists.now declaration.now beside.items
        table.now.rows)) }
    ensures nothing { IfOk result (λ found. IfSome found (λ t. TellsNothing t → GoodTableBy table.now.analysis app.now
        lists.now table.now.rows)) }
    ensures none { IfOk result (λ found. IfNone found (GoodTableBy table.now.analysis app.now lists.now table.now.rows
        → ⊥)) }
{
    let told = told_by_telling(alloc, app, lists, declaration, beside, &table.rows)?;
    let may = may_be_said(alloc, app, lists, table, &told, crew)?;
    if may { Ok(Some(told)) } else { Ok(None) }
}

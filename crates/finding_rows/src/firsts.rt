ghost use Rattle.std.specs.Prelude.{◌≡◌, IfOk, OnOk};
ghost use Rattle.std.specs.Map.{values_of};
ghost use Rattle.app_machine.specs.Sound.{SoundApp};
ghost use Rattle.outcomes.specs.Findings.{findings_of};
ghost use Rattle.outcomes.specs.Spots.{undeclared_at};
ghost use Rattle.outcomes.specs.Within.{AreWithin};
ghost use Rattle.finding_rows.specs.Arrivals.{AreFirstArrivals};
ghost use Rattle.finding_rows.specs.Firsts.{firsts, noted};

use app_model::{App, Declaration, Lists};
use fact_rows::Row;
use outcomes::{Found, Pair, pairs_in, set_of, undeclared_at};
use std::alloc::Global;
use std::collections::{BTreeMap, BTreeSet};
use vet_base::Memory;

/// For what was found the first row that tells it.
type Firsts = BTreeMap<Found, Row>;

/// Notes a row that stands before those that were noted.
fn note(
    alloc: Global,
    lists: &Lists,
    declared: &BTreeSet<Pair>,
    row: &Row,
    firsts: &mut Firsts,
) -> Result<(), Memory>
    ensures { OnOk result (firsts.new.entries ≡ noted (undeclared_at lists.now (record { pairs = declared.now.keys })
        row.now) row.now firsts.old.entries) }
{
    if let Some(found) = undeclared_at(alloc, lists, declared, row)? {
        firsts.insert(found, *row)?;
    }
    Ok(())
}

/// What of the rows is first, from the last row on.
fn firsts_by(
    alloc: Global,
    lists: &Lists,
    declared: &BTreeSet<Pair>,
    rows: &[Row],
) -> Result<Firsts, Memory>
    ensures { IfOk result (λ m. m.entries ≡ firsts lists.now (record { pairs = declared.now.keys }) rows.now) }
{
    let mut firsts = BTreeMap::new(alloc);
    let mut place = rows.len();
    while place > 0 {
        place -= 1;
        note(alloc, lists, declared, &rows[place], &mut firsts)?;
    }
    Ok(firsts)
}

/// The same by the declaration.
fn firsts_of(
    alloc: Global,
    lists: &Lists,
    declaration: &Declaration,
    rows: &[Row],
) -> Result<Firsts, Memory>
    ensures { IfOk result (λ m. m.entries ≡ firsts lists.now declaration.now rows.now) }
{
    let declared = set_of(alloc, pairs_in(alloc, declaration)?)?;
    firsts_by(alloc, lists, &declared, rows)
}

fn rows_in(alloc: Global, firsts: Firsts) -> Result<Vec<Row>, Memory>
    ensures { IfOk result (λ v. v.items ≡ values_of firsts.entries) }
{
    let rows: Vec<Row> = firsts.into_values().collect(alloc)?;
    Ok(rows)
}

/// For each finding that rows of the app tell, in the order of the findings, the first of the rows that tells it. The app
/// is taken for the contract alone, which says of which app the rows are.
pub fn first_arrivals(
    alloc: Global,
    app: &App,
    lists: &Lists,
    declaration: &Declaration,
    rows: &[Row],
) -> Result<Vec<Row>, Memory>
    requires sound { SoundApp app.now }
    requires within { AreWithin app.now rows.now }
    ensures { IfOk result (λ v. AreFirstArrivals app.now lists.now declaration.now rows.now
        (findings_of app.now lists.now declaration.now rows.now) v.items) }
{
    let _app = app;
    let firsts = firsts_of(alloc, lists, declaration, rows)?;
    rows_in(alloc, firsts)
}

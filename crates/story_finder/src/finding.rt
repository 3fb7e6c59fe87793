ghost use Rattle.std.specs.Prelude.{◌<◌, ◌^◌, IfOk, IfSome, IfNone, length};
ghost use Rattle.vet_base.specs.Ascending.{Ascends};
ghost use Rattle.vet_base.specs.Members.{In};
ghost use Rattle.fact_rows.specs.Order.{row_cmp};
ghost use Rattle.flow_story.specs.Stories.{TellsOf};
ghost use Rattle.flow_trail.specs.Trails.{AreAll, AreSame, IsTrail};

use crate::cutting::lines_needed;
use crate::retelling::retold;
use fact_rows::Row;
use flow_story::Story;
use flow_trail::{Ascending, Places, Trail, trail_of};
use hashed_rows::HashedRows;
use rule_sets::RuleSet;
use std::alloc::Global;
use vet_base::Memory;

/// The story of the row, cut out of the trail; None where it is none of the trail's rows. The rules are taken
/// for the contract alone, which says by which ones the trail is.
pub fn story_in<R: RuleSet, P: Places>(
    alloc: Global,
    rules: &R,
    trail: &Trail<'_, P>,
    goal: &Row,
) -> Result<Option<Story>, Memory>
    requires { IsTrail (R.rule rules.now) (R.is_start rules.now) trail.now.rows trail.now }
    ensures some { IfOk result (λ story. IfSome story (TellsOf (R.rule rules.now) (R.is_start rules.now) goal.now)) }
    ensures none { IfOk result (λ story. IfNone story (In goal.now trail.now.rows → ⊥)) }
    ensures few { IfOk result (λ story. IfSome story (λ lines. length lines < 2 ^ 32)) }
{
    let _rules = rules;
    let number = trail.number_of(goal);
    if number == 0 {
        return Ok(None);
    }
    let numbers = lines_needed(alloc, trail, number)?;
    let lines = retold(alloc, trail, &numbers)?;
    Ok(Some(Story::new(lines)))
}

/// The rows of a table, found by whatever rules look for. The seed should be one that the author of the app
/// does not know; nothing depends on it but the time.
fn keyed(alloc: Global, table: &[Row], seed: u64) -> Result<HashedRows, Memory>
    ensures { IfOk result (λ rows. AreSame rows table.now) }
{
    let mut rows = HashedRows::new(alloc, seed);
    for row in table {
        rows.insert(*row)?;
    }
    Ok(rows)
}

/// The story of the row, where the table has all that is derivable, in ascending order; None where the row is
/// not in the table. The seed should be one that the author of the app does not know; nothing depends on it
/// but the time. For many rows make one trail, and cut the stories out of it.
pub fn find_story<R: RuleSet>(
    alloc: Global,
    rules: &R,
    table: &[Row],
    goal: &Row,
    seed: u64,
) -> Result<Option<Story>, Memory>
    requires ready { R.ready rules.now }
    requires ascends { Ascends row_cmp table.now }
    requires whole { AreAll (R.rule rules.now) (R.is_start rules.now) table.now }
    ensures some { IfOk result (λ story. IfSome story (TellsOf (R.rule rules.now) (R.is_start rules.now) goal.now)) }
    ensures none { IfOk result (λ story. IfNone story (In goal.now table.now → ⊥)) }
    ensures few { IfOk result (λ story. IfSome story (λ lines. length lines < 2 ^ 32)) }
{
    let rows = Ascending::new(table);
    let facts = keyed(alloc, table, seed)?;
    let trail = trail_of(alloc, rules, &facts, &rows)?;
    drop(facts);
    story_in(alloc, rules, &trail, goal)
}

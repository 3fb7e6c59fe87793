//! Whether a rule gives a row from these premises.
ghost use Rattle.std.specs.Prelude.{◌≡◌, ◌<◌, ◌↔◌, ◌==◌, ◌&&◌, ◌||◌, IsTrue, length};
ghost use Rattle.rule_ground.specs.Given.{fourth_in, from_second, from_third, rows_in};
ghost use Rattle.flow_story.specs.Looking.{are_rows, is_said};

use crate::few::{Few, row_at};
use fact_rows::Row;
use rule_ground::{Conclusion, FromSecond, FromThird, Never, Premises, Rules, Sink};

/// It looks for one conclusion among those that come.
#[derive(Drop)]
pub struct Looker<'a> {
    pub rule: u8,
    pub premises: &'a [Row],
    pub row: Row,
    pub found: bool,
}

fn is_fourth(fourth: &Option<Row>, rows: &[Row]) -> bool
    ensures { result ≡ are_rows (fourth_in fourth.now) rows.now }
{
    match (fourth, rows) {
        (None, []) => true,
        (Some(fourth), [row]) => fourth == row,
        _ => false,
    }
}

fn are_from_third(more: &Option<FromThird>, rows: &[Row]) -> bool
    ensures { result ≡ are_rows (from_third more.now) rows.now }
{
    match (more, rows) {
        (None, []) => true,
        (Some(from), [row, others @ ..]) => from.third == *row && is_fourth(&from.fourth, others),
        _ => false,
    }
}

fn are_from_second(more: &Option<FromSecond>, rows: &[Row]) -> bool
    ensures { result ≡ are_rows (from_second more.now) rows.now }
{
    match (more, rows) {
        (None, []) => true,
        (Some(from), [row, others @ ..]) => {
            from.second == *row && are_from_third(&from.more, others)
        }
        _ => false,
    }
}

fn are_premises(premises: &Premises, rows: &[Row]) -> bool
    ensures { result ≡ are_rows (rows_in premises.now) rows.now }
{
    match rows {
        [row, others @ ..] => premises.first == *row && are_from_second(&premises.more, others),
        [] => false,
    }
}

fn says(found: &Conclusion, rule: u8, premises: &[Row], row: &Row) -> bool
    ensures { result ≡ is_said rule premises.now row.now found.now }
{
    found.rule == rule && (are_premises(&found.premises, premises) && found.row == *row)
}

impl<'a> Sink for Looker<'a> {
    type Refusal = Never;

    ghost then = { λ s found. record s { found = s.found || is_said s.rule s.premises.now s.row found } };

    fn put(&mut self, found: Conclusion) -> Result<(), Never> {
        let said = says(&found, self.rule, self.premises, &self.row);
        self.found = self.found || said;
        Ok(())
    }
}

/// Whether the rule of that number gives the row from these premises, in the order in which the rule
/// names them. It takes no memory: the premises are all the facts that there are.
pub fn follows<R: Rules>(rules: &R, rule: u8, premises: &[Row], row: &Row) -> bool
    requires ready { R.ready rules.now }
    requires some { 0 < length premises.now }
    ensures { IsTrue result ↔ R.rule rules.now rule premises.now row.now }
{
    let few = Few::new(premises);
    let mut looker = Looker {
        rule,
        premises,
        row: *row,
        found: false,
    };
    let first = row_at(premises, 0);
    match rules.conclude(&few, first, &mut looker) {
        Ok(()) => looker.found,
        Err(never) => match never {},
    }
}

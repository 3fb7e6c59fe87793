//! Whether lines are a story.
ghost use Rattle.std.specs.Prelude.{◌≡◌, ◌<◌, ◌↔◌, ◌^◌, IsTrue, IsOk, IfErr, MatchOption, Some, length, slice_get};
ghost use Rattle.flow_story.specs.Looking.{Gives, IsToldStart, rows_named};
ghost use Rattle.flow_story.specs.Stories.{AreRight, IsFirstBad, IsFirstFault, IsRight, IsRightAt, IsStory, row_of};

use crate::{Numbers, Story, StoryLine, follows};
use fact_rows::Row;
use rule_sets::RuleSet;

/// Why lines are no story.
#[derive(Clone, Copy, PartialEq, Eq)]
pub enum StoryFault {
    /// There is no line.
    Empty,
    /// The line of this number is the first that is not right.
    BadLine(u32),
}

/// The row of the line of that number, the first being 1.
fn row_at(before: &[StoryLine], number: u32) -> Option<Row>
    ensures { result ≡ row_of before.now number }
{
    if number == 0 {
        return None;
    }
    match before.get(number as usize - 1) {
        Some(line) => Some(line.row),
        None => None,
    }
}

/// Whether the line's rule gives its row from the lines that it names.
fn is_given<R: RuleSet>(rules: &R, before: &[StoryLine], line: &StoryLine) -> bool
    requires { R.ready rules.now }
    ensures { IsTrue result ↔ Gives (R.rule rules.now) line.now (rows_named before.now line.now.premises) }
{
    match line.premises {
        Numbers::None => false,
        Numbers::One(a) => match row_at(before, a) {
            Some(x) => follows(rules, line.rule, &[x], &line.row),
            None => false,
        },
        Numbers::Two(a, b) => match (row_at(before, a), row_at(before, b)) {
            (Some(x), Some(y)) => follows(rules, line.rule, &[x, y], &line.row),
            _ => false,
        },
        Numbers::Three(a, b, c) => {
            match (row_at(before, a), row_at(before, b), row_at(before, c)) {
                (Some(x), Some(y), Some(z)) => follows(rules, line.rule, &[x, y, z], &line.row),
                _ => false,
            }
        }
        Numbers::Four(a, b, c, d) => {
            match (
                row_at(before, a),
                row_at(before, b),
                row_at(before, c),
                row_at(before, d),
            ) {
                (Some(x), Some(y), Some(z), Some(u)) => {
                    follows(rules, line.rule, &[x, y, z, u], &line.row)
                }
                _ => false,
            }
        }
    }
}

/// Whether the row is that of a start at the place.
fn starts_at<R: RuleSet>(rules: &R, place: usize, row: &Row) -> bool
    requires { R.ready rules.now }
    ensures { IsTrue result ↔ slice_get (R.starts rules.now) place ≡ Some row.now }
{
    match rules.start(place) {
        Some(start) => start == *row,
        None => false,
    }
}

/// Whether the row is a start. That of a component is looked for at its own place first, so that
/// lines of starts are not each compared with all of them.
fn is_start<R: RuleSet>(rules: &R, row: &Row) -> bool
    requires { R.ready rules.now }
    ensures { IsTrue result ↔ R.is_start rules.now row.now }
{
    if let Row::Live(component, _) = *row {
        if starts_at(rules, component as usize, row) {
            return true;
        }
    }
    for place in 0..rules.start_count() {
        if starts_at(rules, place, row) {
            return true;
        }
    }
    false
}

fn is_told_start<R: RuleSet>(rules: &R, line: &StoryLine) -> bool
    requires { R.ready rules.now }
    ensures { IsTrue result ↔ IsToldStart (R.is_start rules.now) line.now }
{
    match line.premises {
        Numbers::None => line.rule == 0 && is_start(rules, &line.row),
        _ => false,
    }
}

/// Whether the line is right behind those before it.
fn is_right<R: RuleSet>(rules: &R, before: &[StoryLine], line: &StoryLine) -> bool
    requires { R.ready rules.now }
    ensures { IsTrue result ↔ IsRight (R.rule rules.now) (R.is_start rules.now) before.now line.now }
{
    if is_told_start(rules, line) {
        return true;
    }
    is_given(rules, before, line)
}

/// Whether the line at the place is right behind those before it.
fn is_right_at<R: RuleSet>(rules: &R, lines: &[StoryLine], place: usize) -> bool
    requires ready { R.ready rules.now }
    requires there { place < length lines.now }
    ensures { IsTrue result ↔ IsRightAt (R.rule rules.now) (R.is_start rules.now) lines.now place }
{
    is_right(rules, &lines[..place], &lines[place])
}

/// The number of the first line that is not right.
fn first_bad<R: RuleSet>(rules: &R, lines: &[StoryLine]) -> Option<u32>
    requires ready { R.ready rules.now }
    requires few { length lines.now < 2 ^ 32 }
    ensures { MatchOption result (AreRight (R.rule rules.now) (R.is_start rules.now) (length lines.now) lines.now)
        (λ number. IsFirstBad (R.rule rules.now) (R.is_start rules.now) lines.now number) }
{
    for place in 0..lines.len() {
        if !is_right_at(rules, lines, place) {
            return Some(place as u32 + 1);
        }
    }
    None
}

/// Whether the lines are a story; if not, the first line that is not right. It takes no memory.
pub fn check_story<R: RuleSet>(rules: &R, story: &Story) -> Result<(), StoryFault>
    requires ready { R.ready rules.now }
    requires few { length story.now < 2 ^ 32 }
    ensures exact { IsOk result ↔ IsStory (R.rule rules.now) (R.is_start rules.now) story.now }
    ensures fault { IfErr result (IsFirstFault (R.rule rules.now) (R.is_start rules.now) story.now) }
{
    let lines = story.lines();
    if lines.is_empty() {
        return Err(StoryFault::Empty);
    }
    match first_bad(rules, lines) {
        None => Ok(()),
        Some(number) => Err(StoryFault::BadLine(number)),
    }
}

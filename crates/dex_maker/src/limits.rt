ghost use Rattle.std.specs.Prelude.{◌≡◌, ◌≤◌, ◌<◌, ◌+◌, ◌↔◌, false, length, IsTrue};
ghost use Rattle.std.specs.List.{sum_by};
ghost use Rattle.dex_maker.specs.Budget.{left_after};
ghost use Rattle.dex_maker.specs.Lines.{width_of, width_sum};
ghost use Rattle.dex_maker.specs.Classes.{code_width, method_width, class_width};
ghost use Rattle.dex_maker.specs.Classes.{member_count, unit_count, member_total};
ghost use Rattle.dex_maker.specs.Made.{Makeable};

use crate::listing::{ListedClass, ListedCode, ListedLine, ListedMethod, Listing};
use crate::widths::width_of;

const MOST_CLASSES: usize = 65536;

const MOST_MEMBERS: usize = 400_000;

const MOST_UNITS: usize = 8_388_608;

/// Whether a line has so few parts that its width can be told.
fn has_few_parts(line: &ListedLine) -> bool
    ensures few { IsTrue result → width_of line.now ≤ 33554442 }
    ensures many { (result ≡ false) → 8388608 < width_of line.now }
{
    match line {
        ListedLine::Plain(_, _, _, _, _) => true,
        ListedLine::Packed(_, _, targets) => targets.len() <= MOST_UNITS,
        ListedLine::Sparse(_, pairs) => pairs.len() <= MOST_UNITS,
        ListedLine::Filled(_, bytes) => bytes.len() <= 2 * MOST_UNITS,
    }
}

/// What is left of a number of units after a line.
#[tactic(auto, unfolding(crate::specs::Budget::left_after))]
fn after_line(budget: usize, line: &ListedLine) -> Option<usize>
    requires { budget ≤ 8388608 }
    ensures { result ≡ left_after budget (width_of line.now) }
{
    if !has_few_parts(line) {
        return None;
    }
    budget.checked_sub(width_of(line))
}

/// What is left of a number of units after some lines.
#[tactic(auto, unfolding(crate::specs::Budget::left_after, crate::specs::Lines::width_sum))]
fn after_lines(budget: usize, lines: &[ListedLine]) -> Option<usize>
    requires { budget ≤ 8388608 }
    ensures { result ≡ left_after budget (width_sum lines.now) }
{
    let mut left = budget;
    for line in lines {
        left = after_line(left, line)?;
    }
    Some(left)
}

#[tactic(auto, unfolding(crate::specs::Budget::left_after))]
fn after_code(budget: usize, code: &Option<ListedCode>) -> Option<usize>
    requires { budget ≤ 8388608 }
    ensures { result ≡ left_after budget (code_width code.now) }
{
    match code {
        None => Some(budget),
        Some(code) => after_lines(budget, code.lines.as_slice()),
    }
}

#[tactic(auto, unfolding(crate::specs::Budget::left_after))]
fn after_methods(budget: usize, methods: &[ListedMethod]) -> Option<usize>
    requires { budget ≤ 8388608 }
    ensures { result ≡ left_after budget (sum_by method_width methods.now) }
{
    let mut left = budget;
    for method in methods {
        left = after_code(left, &method.code)?;
    }
    Some(left)
}

#[tactic(auto, unfolding(crate::specs::Budget::left_after, crate::specs::Classes::unit_count))]
fn after_classes(budget: usize, classes: &[ListedClass]) -> Option<usize>
    requires { budget ≤ 8388608 }
    ensures { result ≡ left_after budget (unit_count classes.now) }
{
    let mut left = budget;
    for class in classes {
        left = after_methods(left, class.methods.as_slice())?;
    }
    Some(left)
}

#[tactic(auto, unfolding(crate::specs::Budget::left_after))]
fn after_members(budget: usize, class: &ListedClass) -> Option<usize>
    ensures { result ≡ left_after budget (member_count class.now) }
{
    budget
        .checked_sub(class.fields.len())?
        .checked_sub(class.methods.len())
}

#[tactic(auto, unfolding(crate::specs::Budget::left_after, crate::specs::Classes::member_total))]
fn after_all_members(budget: usize, classes: &[ListedClass]) -> Option<usize>
    ensures { result ≡ left_after budget (member_total classes.now) }
{
    let mut left = budget;
    for class in classes {
        left = after_members(left, class)?;
    }
    Some(left)
}

/// Whether a listing is within the limits that `make_dex` asks for.
#[tactic(auto, unfolding(crate::specs::Budget::left_after))]
pub fn is_makeable(listing: &Listing) -> bool
    ensures { IsTrue result ↔ Makeable listing.now }
{
    let classes = listing.classes.as_slice();
    classes.len() <= MOST_CLASSES
        && after_all_members(MOST_MEMBERS, classes).is_some()
        && after_classes(MOST_UNITS, classes).is_some()
}

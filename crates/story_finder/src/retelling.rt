//! Lines of a trail with new numbers: those of their places among the lines that are told.
ghost use Rattle.std.specs.Prelude.{◌≡◌, ◌<◌, ◌^◌, IfOk, filter_map, length};
ghost use Rattle.std.specs.Ordering.{nat_cmp};
ghost use Rattle.vet_base.specs.Ascending.{Ascends};
ghost use Rattle.flow_trail.specs.Trails.{IsNumbered, lines_of};
ghost use Rattle.story_finder.specs.Retelling.{new_number, renumbered, retell, retold};

use crate::cutting::line_of;
use flow_story::{Numbers, StoryLine};
use flow_trail::{Places, Trail};
use std::alloc::Global;
use vet_base::Memory;

/// The new number of a line: its place among those that are told, from 1; 0 where it is none of them.
fn new_number(numbers: &[u32], number: u32) -> u32
    requires ascend { Ascends nat_cmp numbers.now }
    requires few { length numbers.now < 2 ^ 32 }
    ensures { result ≡ new_number numbers.now number }
{
    match numbers.binary_search(&number) {
        Ok(place) => place as u32 + 1,
        Err(_) => 0,
    }
}

fn renumbered(numbers: &[u32], premises: Numbers) -> Numbers
    requires ascend { Ascends nat_cmp numbers.now }
    requires few { length numbers.now < 2 ^ 32 }
    ensures { result ≡ renumbered numbers.now premises }
{
    match premises {
        Numbers::None => Numbers::None,
        Numbers::One(a) => Numbers::One(new_number(numbers, a)),
        Numbers::Two(a, b) => Numbers::Two(new_number(numbers, a), new_number(numbers, b)),
        Numbers::Three(a, b, c) => Numbers::Three(
            new_number(numbers, a),
            new_number(numbers, b),
            new_number(numbers, c),
        ),
        Numbers::Four(a, b, c, d) => Numbers::Four(
            new_number(numbers, a),
            new_number(numbers, b),
            new_number(numbers, c),
            new_number(numbers, d),
        ),
    }
}

fn retell(numbers: &[u32], line: StoryLine) -> StoryLine
    requires ascend { Ascends nat_cmp numbers.now }
    requires few { length numbers.now < 2 ^ 32 }
    ensures { result ≡ retell numbers.now line }
{
    StoryLine {
        rule: line.rule,
        premises: renumbered(numbers, line.premises),
        row: line.row,
    }
}

/// The lines of the numbers, with new numbers.
pub fn retold<P: Places>(
    alloc: Global,
    trail: &Trail<'_, P>,
    numbers: &[u32],
) -> Result<Vec<StoryLine>, Memory>
    requires counts { IsNumbered trail.now }
    requires ascend { Ascends nat_cmp numbers.now }
    requires few { length numbers.now < 2 ^ 32 }
    ensures { IfOk result (λ lines. lines.items ≡ filter_map (retold (lines_of trail.now) numbers.now) numbers.now) }
{
    let mut lines = Vec::new(alloc);
    for number in numbers {
        if let Some(line) = line_of(trail, *number) {
            lines.push(retell(numbers, line))?;
        }
    }
    Ok(lines)
}

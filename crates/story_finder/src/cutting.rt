//! Which lines of a trail a line rests on.
ghost use Rattle.std.specs.Prelude.{◌≡◌, ◌<◌, ◌≤◌, IfOk, OnOk, length};
ghost use Rattle.flow_trail.specs.Trails.{IsNumbered, lines_of};
ghost use Rattle.story_finder.specs.Cutting.{AreBefore, AreNeeded, HasMore, line_named, premises_of};

use crate::wanted::{greatest, want, want_all};
use flow_story::StoryLine;
use flow_trail::{Places, Trail};
use std::alloc::Global;
use std::collections::BTreeSet;
use vet_base::Memory;

/// The line of the number, the first being 1.
pub fn line_of<P: Places>(trail: &Trail<'_, P>, number: u32) -> Option<StoryLine>
    requires { IsNumbered trail.now }
    ensures { result ≡ line_named (lines_of trail.now) number }
{
    if number == 0 {
        return None;
    }
    trail.line(number as usize - 1)
}

/// The premises of the line of the number are wanted.
fn want_premises<P: Places>(
    trail: &Trail<'_, P>,
    number: u32,
    wanted: &mut BTreeSet<u32>,
) -> Result<(), Memory>
    requires { IsNumbered trail.now }
    ensures { OnOk result (HasMore (premises_of (lines_of trail.now) number) wanted.old.keys wanted.new.keys) }
{
    match line_of(trail, number) {
        Some(line) => want_all(wanted, line.premises),
        None => Ok(()),
    }
}

/// The numbers of the lines on which the line of the number rests, and its own, ascending.
pub fn lines_needed<P: Places>(
    alloc: Global,
    trail: &Trail<'_, P>,
    goal: u32,
) -> Result<Vec<u32>, Memory>
    requires counts { IsNumbered trail.now }
    requires before { AreBefore (lines_of trail.now) }
    requires some { 0 < goal }
    requires there { goal ≤ length (lines_of trail.now) }
    ensures { IfOk result (λ numbers. AreNeeded (lines_of trail.now) goal numbers.items) }
{
    let mut wanted = BTreeSet::new(alloc);
    let mut needed = Vec::new(alloc);
    let mut upto = goal;
    want(&mut wanted, goal)?;
    while let Some(number) = greatest(&mut wanted) {
        upto = number - 1;
        want_premises(trail, number, &mut wanted)?;
        needed.push(number)?;
    }
    needed.reverse();
    Ok(needed)
}

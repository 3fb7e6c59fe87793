//! Numbers of lines that are wanted, the greatest first.
ghost use Rattle.std.specs.Prelude.{◌≡◌, ◌∷◌, [], OnOk, MatchOption};
ghost use Rattle.flow_story.specs.Stories.{listed};
ghost use Rattle.story_finder.specs.Cutting.{HasMore, IsGreatest};

use flow_story::Numbers;
use std::collections::BTreeSet;
use vet_base::Memory;

/// The number is wanted.
pub fn want(wanted: &mut BTreeSet<u32>, number: u32) -> Result<(), Memory>
    ensures { OnOk result (HasMore (number ∷ []) wanted.old.keys wanted.new.keys) }
{
    wanted.insert(number)?;
    Ok(())
}

fn want_two(wanted: &mut BTreeSet<u32>, a: u32, b: u32) -> Result<(), Memory>
    ensures { OnOk result (HasMore (a ∷ b ∷ []) wanted.old.keys wanted.new.keys) }
{
    want(wanted, a)?;
    want(wanted, b)?;
    Ok(())
}

fn want_three(wanted: &mut BTreeSet<u32>, a: u32, b: u32, c: u32) -> Result<(), Memory>
    ensures { OnOk result (HasMore (a ∷ b ∷ c ∷ []) wanted.old.keys wanted.new.keys) }
{
    want_two(wanted, a, b)?;
    want(wanted, c)?;
    Ok(())
}

fn want_four(wanted: &mut BTreeSet<u32>, a: u32, b: u32, c: u32, d: u32) -> Result<(), Memory>
    ensures { OnOk result (HasMore (a ∷ b ∷ c ∷ d ∷ []) wanted.old.keys wanted.new.keys) }
{
    want_three(wanted, a, b, c)?;
    want(wanted, d)?;
    Ok(())
}

/// Each of the numbers is wanted.
pub fn want_all(wanted: &mut BTreeSet<u32>, numbers: Numbers) -> Result<(), Memory>
    ensures { OnOk result (HasMore (listed numbers) wanted.old.keys wanted.new.keys) }
{
    match numbers {
        Numbers::None => Ok(()),
        Numbers::One(a) => want(wanted, a),
        Numbers::Two(a, b) => want_two(wanted, a, b),
        Numbers::Three(a, b, c) => want_three(wanted, a, b, c),
        Numbers::Four(a, b, c, d) => want_four(wanted, a, b, c, d),
    }
}

/// The greatest of them, which is wanted no more.
pub fn greatest(wanted: &mut BTreeSet<u32>) -> Option<u32>
    ensures { MatchOption result (wanted.old.keys ≡ []) (IsGreatest wanted.old.keys wanted.new.keys) }
{
    wanted.pop_last()
}

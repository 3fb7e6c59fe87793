//! Small facts that show that what a script draws is what it should. Each is a theorem over the
//! definitions alone, so that a slip in a definition shows.
#![tactic(auto)]

ghost use Rattle.played_witness.specs.Orders.{DrawsGoInOrder};
ghost use Rattle.played_witness.specs.Runs.{SmallAppsPlay};

/// A choice of one takes a byte; handed places and elements go by when they came; labels ascend; and a
/// raise is drawn in each frame.
pub fn draws_go_in_order()
    ensures { DrawsGoInOrder }
{}

/// What short scripts make of three small apps: how many steps, which arrivals, where the last state stands.
pub fn scripts_play_the_small_apps()
    ensures { SmallAppsPlay }
{}

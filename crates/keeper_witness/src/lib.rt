//! Small facts about a keeper over a journal and the disk below it: what their calls do not come to. Each excludes code
//! that does otherwise. This function does nothing; it is there for its contract.
#![tactic(auto)]

ghost use Rattle.keeper_witness.specs.KeeperFacts.{KeepersTell};

pub fn the_keepers_tell()
    ensures { KeepersTell }
{}

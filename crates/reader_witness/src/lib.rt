//! Small facts about the index of readers, each a theorem over what the index promises alone: what it lists of a
//! small method, and that there is none of a method in which too many steps read one value.
#![tactic(auto)]

ghost use Rattle.reader_witness.specs.Listed.{CrowdsAreRefused, ReadersAreListed};

/// An index of readers lists where rules ask each step to which the register keeps its value: behind a
/// first reader too and along handlers, but none past a write, and of EXC none along a handler.
pub fn readers_are_listed_where_rules_ask()
    ensures { ReadersAreListed }
{}

/// Of a method in which more steps than are listed of one place read what one write gave there is no index.
pub fn crowds_of_readers_are_refused()
    ensures { CrowdsAreRefused }
{}

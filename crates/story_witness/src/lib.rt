//! Small facts that show that the definitions of stories mean what they should: which lines are a story, and which line
//! is the first that is not right. Each is a theorem over the definitions that the clauses of `flow_story` name, so that
//! code which answers otherwise is refused.
#![tactic(auto)]

ghost use Rattle.story_witness.specs.StoryFacts.{StoriesTell};

/// What a story tells, and what is none.
pub fn the_stories_tell()
    ensures { StoriesTell }
{}

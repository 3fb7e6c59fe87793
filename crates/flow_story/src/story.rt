ghost use Rattle.std.specs.Prelude.{◌≡◌};

use crate::StoryLine;
use std::marker::Model;

/// Lines of which each may follow from lines before it.
#[derive(Drop)]
pub struct Story {
    lines: Vec<StoryLine>,
}

impl Model for Story {
    ghost use Rattle.std.specs.Prelude.{List};
    ghost use Rattle.flow_story.specs.declared.line.StoryLine.{StoryLine};

    ghost Value = { List StoryLine };

    ghost view = { λ s. s.lines.items };
}

impl Story {
    pub fn new(lines: Vec<StoryLine>) -> Story
        ensures { result ≡ lines.items }
    {
        Story { lines }
    }

    pub fn lines(&self) -> &[StoryLine]
        ensures { result.now ≡ self.now }
    {
        &self.lines
    }
}

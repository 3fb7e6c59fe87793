ghost use Rattle.std.specs.Prelude.{◌≡◌, ◌<◌, ◌++◌, OnOk, length, slice_index_or};
ghost use Rattle.story_report.specs.StoryText.{lines_text, line_text, numbers_text, ruled_text, stories_text, story_text, way_text};

use cert_report::put_row_text;
use flow_story::{Numbers, Story, StoryLine};
use printed_text::{put, put_number};
use std::alloc::Global;
use vet_base::Memory;

/// Adds each of the numbers behind a space.
#[tactic(auto, unfolding(crate::specs::StoryText::numbers_text))]
fn put_numbers(alloc: Global, text: &mut Vec<u8>, numbers: &[u32]) -> Result<(), Memory>
    ensures { OnOk result (text.new.items ≡ text.old.items ++ numbers_text numbers.now) }
{
    for number in numbers {
        put(text, b" ".as_slice())?;
        put_number(alloc, text, *number as usize)?;
    }
    Ok(())
}

/// Adds by what rule a line follows, and from which lines.
#[tactic(auto, unfolding(crate::specs::StoryText::ruled_text))]
fn put_ruled(alloc: Global, text: &mut Vec<u8>, rule: u8, numbers: &[u32]) -> Result<(), Memory>
    ensures { OnOk result (text.new.items ≡ text.old.items ++ ruled_text rule numbers.now) }
{
    put(text, b" rule ".as_slice())?;
    put_number(alloc, text, rule as usize)?;
    put(text, b" from".as_slice())?;
    put_numbers(alloc, text, numbers)
}

/// Adds how a line follows.
#[tactic(auto, unfolding(crate::specs::StoryText::way_text))]
fn put_way(alloc: Global, text: &mut Vec<u8>, rule: u8, premises: Numbers) -> Result<(), Memory>
    ensures { OnOk result (text.new.items ≡ text.old.items ++ way_text rule premises) }
{
    match premises {
        Numbers::None => put(text, b" start".as_slice()),
        Numbers::One(a) => put_ruled(alloc, text, rule, &[a]),
        Numbers::Two(a, b) => put_ruled(alloc, text, rule, &[a, b]),
        Numbers::Three(a, b, c) => put_ruled(alloc, text, rule, &[a, b, c]),
        Numbers::Four(a, b, c, d) => put_ruled(alloc, text, rule, &[a, b, c, d]),
    }
}

/// Adds the line of that number.
#[tactic(auto, unfolding(crate::specs::StoryText::line_text))]
fn put_line(
    alloc: Global,
    text: &mut Vec<u8>,
    number: usize,
    line: &StoryLine,
) -> Result<(), Memory>
    ensures { OnOk result (text.new.items ≡ text.old.items ++ line_text number line.now) }
{
    put_number(alloc, text, number)?;
    put_way(alloc, text, line.rule, line.premises)?;
    put_row_text(alloc, text, b": ".as_slice(), &line.row)?;
    put(text, b"\n".as_slice())
}

fn line_at(lines: &[StoryLine], place: usize) -> StoryLine
    requires { place < length lines.now }
    ensures { result ≡ slice_index_or lines.now place result }
{
    lines[place]
}

/// Adds the lines, which are numbered from 1.
fn put_lines(alloc: Global, text: &mut Vec<u8>, lines: &[StoryLine]) -> Result<(), Memory>
    ensures { OnOk result (text.new.items ≡ text.old.items ++ lines_text 1 lines.now) }
{
    for place in 0..lines.len() {
        let line = line_at(lines, place);
        put_line(alloc, text, place + 1, &line)?;
    }
    Ok(())
}

/// Adds how many lines the story has, and the lines.
#[tactic(auto, unfolding(crate::specs::StoryText::story_text))]
fn put_story(alloc: Global, text: &mut Vec<u8>, story: &Story) -> Result<(), Memory>
    ensures { OnOk result (text.new.items ≡ text.old.items ++ story_text story.now) }
{
    let lines = story.lines();
    put(text, b"story ".as_slice())?;
    put_number(alloc, text, lines.len())?;
    put(text, b"\n".as_slice())?;
    put_lines(alloc, text, lines)
}

/// Adds the stories, one behind the other: `story N` with the number of its lines, and for each of them `I start: HEX`
/// or `I rule R from A B: HEX`, with its number, that of its rule, those of the lines from which it follows, and the
/// bytes of its row as a certificate spells it, in small hexadecimal letters. Each line ends with a line feed.
#[tactic(auto, unfolding(crate::specs::StoryText::stories_text))]
pub fn put_stories(alloc: Global, text: &mut Vec<u8>, stories: &[Story]) -> Result<(), Memory>
    ensures { OnOk result (text.new.items ≡ text.old.items ++ stories_text stories.now) }
{
    for story in stories {
        put_story(alloc, text, story)?;
    }
    Ok(())
}

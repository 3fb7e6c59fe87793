//! What the words ask for.
ghost use Rattle.std.specs.Prelude.{◌≡◌, ◌↔◌, None, map, string_bytes, IfSome};
ghost use Rattle.std.specs.Option.{option_map};
ghost use Rattle.desk_words.specs.Commands.{vetting_of, serving_of, IsUsage, IsWithinCommand};
ghost use Rattle.desk_words.specs.Serve.{asked_words, serve_words, parse as parse_serve};
ghost use Rattle.desk_words.specs.Words.{folder_words, making_words, parse, story_words, vetting_words, IsWithin};

use crate::serving::{Serving, is_serve_word, serve_words};
use crate::vetting::{Vetting, folder_words, is_make_word, make_words, story_words};

/// What the words of the command line ask for.
#[derive(Clone, Copy)]
pub enum Command<'a> {
    Vetting(Vetting<'a>),
    Serving(Serving<'a>),
}

/// What two words ask for.
fn two_words<'a>(command: &str, dir: &'a str) -> Option<Command<'a>>
    ensures vetting { vetting_of result ≡ story_words command.now dir.now }
    ensures serving { serving_of result ≡ None }
    ensures within { IsWithinCommand result }
{
    let vetting = story_words(command, dir)?;
    Some(Command::Vetting(vetting))
}

/// What three words ask for.
fn three_words<'a>(command: &str, first: &'a str, last: &'a str) -> Option<Command<'a>>
    ensures vetting { vetting_of result ≡ folder_words command.now first.now last.now }
    ensures serving { serving_of result ≡ serve_words command.now first.now last.now }
    ensures within { IsWithinCommand result }
{
    if is_serve_word(command) {
        let serving = serve_words(command, first, last)?;
        Some(Command::Serving(serving))
    } else {
        let vetting = folder_words(command, first, last)?;
        Some(Command::Vetting(vetting))
    }
}

/// What four words ask for.
fn four_words<'a>(command: &str, seed: &str, size: &str, workers: &str) -> Option<Command<'a>>
    ensures vetting { vetting_of result ≡ making_words command.now seed.now size.now workers.now }
    ensures serving { serving_of result ≡ None }
    ensures within { IsWithinCommand result }
{
    if is_make_word(command) {
        let vetting = make_words(seed, size, workers)?;
        Some(Command::Vetting(vetting))
    } else {
        None
    }
}

/// The command that the words are. It takes no memory.
#[tactic(auto, using(crate::proofs::Forms::usage_is))]
pub fn command_in(words: &[String]) -> Option<Command<'_>>
    ensures vetting { vetting_of result ≡ parse (map string_bytes words.now) }
    ensures serving { serving_of result ≡ parse_serve (map string_bytes words.now) }

    // There is none exactly where the words are none of the forms.
    ensures usage { (result ≡ None) ↔ IsUsage (map string_bytes words.now) }
    ensures within { IsWithinCommand result }
{
    match words {
        [command, dir] => two_words(command.as_str(), dir.as_str()),
        [command, first, last] => three_words(command.as_str(), first.as_str(), last.as_str()),
        [command, seed, size, workers] => four_words(
            command.as_str(),
            seed.as_str(),
            size.as_str(),
            workers.as_str(),
        ),
        _ => None,
    }
}

/// The vetting that the words ask for, if they ask for one. It takes no memory.
pub fn vetting_in(words: &[String]) -> Option<Vetting<'_>>
    ensures parsed { option_map vetting_words result ≡ parse (map string_bytes words.now) }
    ensures within { IfSome result IsWithin }
{
    match command_in(words) {
        Some(Command::Vetting(vetting)) => Some(vetting),
        Some(Command::Serving(_)) => None,
        None => None,
    }
}

/// The desk that the words ask for: `None` exactly where they are no `serve OFFICE N`, with a folder of 1 to 1,024
/// bytes. It takes no memory.
pub fn serving_in(words: &[String]) -> Option<Serving<'_>>
    ensures { option_map asked_words result ≡ parse_serve (map string_bytes words.now) }
{
    match command_in(words) {
        Some(Command::Serving(serving)) => Some(serving),
        Some(Command::Vetting(_)) => None,
        None => None,
    }
}

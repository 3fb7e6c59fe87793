//! The words that hand in an app.
ghost use Rattle.std.specs.Prelude.{◌≡◌, map, string_bytes, IfSome};
ghost use Rattle.std.specs.Option.{option_map};
ghost use Rattle.desk_words.specs.Words.{is_file_name};
ghost use Rattle.client_service.specs.Words.{asked_words, is_submit, parse, submit_words, IsWithin};

use store_office::is_reference;

/// The folder of an app, of 1 to 1,024 bytes, and the reference under which it is handed in: 1 to 64 bytes of
/// `A-Z a-z 0-9 . _ -`.
#[derive(Clone, Copy)]
pub(crate) struct Submitting<'a> {
    pub(crate) dir: &'a str,
    pub(crate) reference: &'a str,
}

#[tactic(auto, unfolding(crate::specs::Words::is_submit))]
fn is_submit_word(word: &str) -> bool
    ensures { result ≡ is_submit word.now }
{
    word == "submit"
}

/// Whether a word can be the name of a folder.
#[tactic(auto, unfolding(desk_words::specs::Words::is_file_name))]
fn is_folder(word: &str) -> bool
    ensures { result ≡ is_file_name word.now }
{
    word.len() >= 1 && word.len() <= 1024
}

/// What three words ask for.
fn three_words<'a>(command: &str, dir: &'a str, reference: &'a str) -> Option<Submitting<'a>>
    ensures asked { option_map asked_words result ≡ submit_words command.now dir.now reference.now }
    ensures within { IfSome result IsWithin }
{
    if is_submit_word(command) && is_folder(dir) && is_reference(reference.as_bytes()) {
        Some(Submitting { dir, reference })
    } else {
        None
    }
}

/// The submission that the words ask for: `None` exactly where they are no `submit DIR REF`. It takes no memory.
pub(crate) fn submitting_in(words: &[String]) -> Option<Submitting<'_>>
    ensures asked { option_map asked_words result ≡ parse (map string_bytes words.now) }
    ensures within { IfSome result IsWithin }
{
    match words {
        [command, dir, reference] => {
            three_words(command.as_str(), dir.as_str(), reference.as_str())
        }
        _ => None,
    }
}

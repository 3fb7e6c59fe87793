//! The words that ask for a desk.
ghost use Rattle.std.specs.Prelude.{◌≡◌, true};
ghost use Rattle.std.specs.Option.{option_map};
ghost use Rattle.desk_words.specs.Serve.{asked_words, count_of, is_serve, serve_words};

use crate::number::positive_in;
use crate::vetting::is_name;

/// The folder of the office, and from how many connections on no more is taken, 1 to 9,999.
#[derive(Clone, Copy)]
pub struct Serving<'a> {
    pub office: &'a str,
    pub most: u32,
}

#[tactic(auto, unfolding(crate::specs::Serve::is_serve))]
pub fn is_serve_word(word: &str) -> bool
    ensures { result ≡ is_serve word.now }
{
    word == "serve"
}

/// A number from 1 to 9,999 in decimal digits, without sign and without a leading zero.
#[tactic(auto, unfolding(crate::specs::Serve::count_of))]
fn count_in(word: &str) -> Option<u32>
    ensures { result ≡ count_of word.now }
{
    positive_in(word.as_bytes(), 9999)
}

/// What the words behind `serve` ask for.
pub fn serve_words<'a>(command: &str, office: &'a str, most: &str) -> Option<Serving<'a>>
    requires { is_serve command.now ≡ true }
    ensures { option_map asked_words result ≡ serve_words command.now office.now most.now }
{
    if is_name(office) {
        let most = count_in(most)?;
        Some(Serving { office, most })
    } else {
        None
    }
}

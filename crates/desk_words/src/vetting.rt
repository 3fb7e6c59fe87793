//! The words that ask for a vetting.
ghost use Rattle.std.specs.Prelude.{◌≡◌, ◌<◌, ◌≤◌, IfSome};
ghost use Rattle.std.specs.Option.{option_map};
ghost use Rattle.desk_words.specs.Words.{is_check, is_certify, is_recheck, is_story, is_make, is_file_name, workers};
ghost use Rattle.desk_words.specs.Words.{seed_of, size_of, check_words, certify_words, recheck_words};
ghost use Rattle.desk_words.specs.Words.{folder_words, story_words, make_words, vetting_words, IsWithin};

use crate::number::{number_in, positive_in};

/// What is asked of a vetting, with names that are borrowed from the words.
#[derive(Clone, Copy)]
pub enum Vetting<'a> {
    /// The folder, and the number of workers from 1 to 16.
    Check(&'a str, u8),
    /// The folder, and the file that the certificate goes to.
    Certify(&'a str, &'a str),
    /// The folder, and the file of the certificate.
    Recheck(&'a str, &'a str),
    /// The folder.
    Story(&'a str),
    /// The seed below 2^31, the size from 1 to 2,000, and the number of workers from 1 to 16.
    Make(u32, u32, u8),
}

#[tactic(auto, unfolding(crate::specs::Words::is_check))]
fn is_check_word(word: &str) -> bool
    ensures { result ≡ is_check word.now }
{
    word == "check"
}

#[tactic(auto, unfolding(crate::specs::Words::is_certify))]
fn is_certify_word(word: &str) -> bool
    ensures { result ≡ is_certify word.now }
{
    word == "certify"
}

#[tactic(auto, unfolding(crate::specs::Words::is_recheck))]
fn is_recheck_word(word: &str) -> bool
    ensures { result ≡ is_recheck word.now }
{
    word == "recheck"
}

#[tactic(auto, unfolding(crate::specs::Words::is_story))]
fn is_story_word(word: &str) -> bool
    ensures { result ≡ is_story word.now }
{
    word == "story"
}

#[tactic(auto, unfolding(crate::specs::Words::is_make))]
pub fn is_make_word(word: &str) -> bool
    ensures { result ≡ is_make word.now }
{
    word == "make"
}

/// Whether a word can be the name of a folder or file.
#[tactic(auto, unfolding(crate::specs::Words::is_file_name))]
pub fn is_name(word: &str) -> bool
    ensures { result ≡ is_file_name word.now }
{
    word.len() >= 1 && word.len() <= 1024
}

#[tactic(auto, unfolding(crate::specs::Words::workers))]
fn workers_in(word: &str) -> Option<u8>
    ensures { result ≡ workers word.now }
{
    let n = positive_in(word.as_bytes(), 16)?;
    Some(n as u8)
}

#[tactic(auto, unfolding(crate::specs::Words::seed_of))]
fn seed_in(word: &str) -> Option<u32>
    ensures value { result ≡ seed_of word.now }
    ensures within { IfSome result (λ n. n < 2147483648) }
{
    number_in(word.as_bytes(), 2_147_483_647)
}

#[tactic(auto, unfolding(crate::specs::Words::size_of))]
fn size_in(word: &str) -> Option<u32>
    ensures value { result ≡ size_of word.now }
    ensures within { IfSome result (λ n. (1 ≤ n) × (n ≤ 2000)) }
{
    positive_in(word.as_bytes(), 2000)
}

fn check_words<'a>(dir: &'a str, workers: &str) -> Option<Vetting<'a>>
    ensures parsed { option_map vetting_words result ≡ check_words dir.now workers.now }
    ensures within { IfSome result IsWithin }
{
    if is_name(dir) {
        let workers = workers_in(workers)?;
        Some(Vetting::Check(dir, workers))
    } else {
        None
    }
}

fn certify_words<'a>(dir: &'a str, cert: &'a str) -> Option<Vetting<'a>>
    ensures parsed { option_map vetting_words result ≡ certify_words dir.now cert.now }
    ensures within { IfSome result IsWithin }
{
    if is_name(dir) && is_name(cert) {
        Some(Vetting::Certify(dir, cert))
    } else {
        None
    }
}

fn recheck_words<'a>(dir: &'a str, cert: &'a str) -> Option<Vetting<'a>>
    ensures parsed { option_map vetting_words result ≡ recheck_words dir.now cert.now }
    ensures within { IfSome result IsWithin }
{
    if is_name(dir) && is_name(cert) {
        Some(Vetting::Recheck(dir, cert))
    } else {
        None
    }
}

/// What three words ask of a vetting.
pub fn folder_words<'a>(command: &str, dir: &'a str, last: &'a str) -> Option<Vetting<'a>>
    ensures parsed { option_map vetting_words result ≡ folder_words command.now dir.now last.now }
    ensures within { IfSome result IsWithin }
{
    if is_check_word(command) {
        check_words(dir, last)
    } else if is_certify_word(command) {
        certify_words(dir, last)
    } else if is_recheck_word(command) {
        recheck_words(dir, last)
    } else {
        None
    }
}

/// What two words ask of a vetting.
pub fn story_words<'a>(command: &str, dir: &'a str) -> Option<Vetting<'a>>
    ensures parsed { option_map vetting_words result ≡ story_words command.now dir.now }
    ensures within { IfSome result IsWithin }
{
    if is_story_word(command) && is_name(dir) {
        Some(Vetting::Story(dir))
    } else {
        None
    }
}

/// What the words behind `make` ask for.
pub fn make_words(seed: &str, size: &str, workers: &str) -> Option<Vetting<'static>>
    ensures parsed { option_map vetting_words result ≡ make_words seed.now size.now workers.now }
    ensures within { IfSome result IsWithin }
{
    let seed = seed_in(seed)?;
    let size = size_in(size)?;
    let workers = workers_in(workers)?;
    Some(Vetting::Make(seed, size, workers))
}

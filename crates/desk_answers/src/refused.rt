ghost use Rattle.std.specs.Prelude.{◌≡◌, ◌++◌, decimal, IfOk, string_bytes};
ghost use Rattle.desk_answers.specs.Texts.{refusal_status, refusal_text};

use crate::words::outcome_word;
use case_rules::Refusal;
use std::alloc::{AllocError, Global};

/// The status that tells of a refusal.
pub fn refusal_status(refusal: Refusal) -> u16
    ensures { result ≡ refusal_status refusal }
{
    match refusal {
        Refusal::WrongRole | Refusal::SameReviewer => 403,
        Refusal::NoCase => 404,
        _ => 409,
    }
}

fn and_number(alloc: Global, words: &str, number: u64) -> Result<String, AllocError>
    ensures { IfOk result (λ text. string_bytes text ≡ words.now ++ decimal number) }
{
    format!(in alloc; "{words}{number}")
}

fn and_word(alloc: Global, words: &str, word: &str) -> Result<String, AllocError>
    ensures { IfOk result (λ text. string_bytes text ≡ words.now ++ word.now) }
{
    format!(in alloc; "{words}{word}")
}

/// What is told of a refusal.
#[tactic(auto, unfolding(crate::specs::Texts::refusal_text))]
pub fn refusal_text(alloc: Global, refusal: Refusal) -> Result<String, AllocError>
    ensures { IfOk result (λ text. string_bytes text ≡ refusal_text refusal) }
{
    match refusal {
        Refusal::WrongRole => String::from_str(alloc, "wrong role"),
        Refusal::NoCase => String::from_str(alloc, "no such case"),
        Refusal::OtherContent => String::from_str(alloc, "other content under this reference"),
        Refusal::TooManyOpen(limit) => {
            and_number(alloc, "too many open cases, limit ", limit as u64)
        }
        Refusal::NothingQueued => String::from_str(alloc, "nothing queued"),
        Refusal::NotDecided => String::from_str(alloc, "not decided"),
        Refusal::SameEdition => String::from_str(alloc, "decided under these lists"),
        Refusal::AppealOpen => String::from_str(alloc, "appeal open"),
        Refusal::NoAppealFor(outcome) => and_word(alloc, "no appeal for ", outcome_word(outcome)),
        Refusal::AppealedAlready => String::from_str(alloc, "appealed already"),
        Refusal::TooLate(last_day) => and_number(alloc, "too late, last day ", last_day),
        Refusal::NoAppeal => String::from_str(alloc, "no appeal"),
        Refusal::RuledAlready => String::from_str(alloc, "ruled already"),
        Refusal::SameReviewer => String::from_str(alloc, "same reviewer"),
    }
}

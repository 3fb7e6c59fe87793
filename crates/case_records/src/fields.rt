//! The words of a decision and of a ruling as bytes.
ghost use Rattle.std.specs.Prelude.{◌≡◌};
ghost use Rattle.vet_base.specs.Script.{Gives};
ghost use Rattle.case_records.specs.Reading.{outcome_of, word_of};
ghost use Rattle.case_records.specs.Spelling.{outcome_byte, word_byte};

use crate::NoPayload;
use crate::numbers::ReadError;
use case_rules::{OutcomeWord, RulingWord};
use vet_base::Stop;

pub(crate) fn outcome_byte(outcome: OutcomeWord) -> u8
    ensures { result ≡ outcome_byte outcome }
{
    match outcome {
        OutcomeWord::Clear => 0,
        OutcomeWord::Flagged => 1,
        OutcomeWord::Undecided => 2,
        OutcomeWord::Refused => 3,
    }
}

#[tactic(auto, unfolding(crate::specs::Reading::outcome_of))]
pub(crate) fn outcome_of(byte: u8) -> Result<OutcomeWord, ReadError>
    ensures { Gives (λ x. x) result (outcome_of byte) }
{
    match byte {
        0 => Ok(OutcomeWord::Clear),
        1 => Ok(OutcomeWord::Flagged),
        2 => Ok(OutcomeWord::Undecided),
        3 => Ok(OutcomeWord::Refused),
        _ => Err(Stop::Fault(NoPayload::Bad)),
    }
}

pub(crate) fn word_byte(word: RulingWord) -> u8
    ensures { result ≡ word_byte word }
{
    match word {
        RulingWord::Uphold => 0,
        RulingWord::Overturn => 1,
    }
}

#[tactic(auto, unfolding(crate::specs::Reading::word_of))]
pub(crate) fn word_of(byte: u8) -> Result<RulingWord, ReadError>
    ensures { Gives (λ x. x) result (word_of byte) }
{
    match byte {
        0 => Ok(RulingWord::Uphold),
        1 => Ok(RulingWord::Overturn),
        _ => Err(Stop::Fault(NoPayload::Bad)),
    }
}

ghost use Rattle.std.specs.Prelude.{◌≡◌};
ghost use Rattle.desk_answers.specs.Words.{state_word, outcome_word, ruling_word};

use case_rules::{OutcomeWord, RulingWord, State};

/// The word for how far a case is.
#[tactic(auto, unfolding(crate::specs::Words::state_word))]
pub fn state_word(state: State) -> &'static str
    ensures { result.now ≡ state_word state }
{
    match state {
        State::Queued => "queued",
        State::Decided => "decided",
        State::Appealed => "appealed",
        State::Ruled => "ruled",
    }
}

/// The word for an outcome.
#[tactic(auto, unfolding(crate::specs::Words::outcome_word))]
pub fn outcome_word(outcome: OutcomeWord) -> &'static str
    ensures { result.now ≡ outcome_word outcome }
{
    match outcome {
        OutcomeWord::Clear => "clear",
        OutcomeWord::Flagged => "flagged",
        OutcomeWord::Undecided => "undecided",
        OutcomeWord::Refused => "refused",
    }
}

/// The word for a ruling.
#[tactic(auto, unfolding(crate::specs::Words::ruling_word))]
pub fn ruling_word(ruling: RulingWord) -> &'static str
    ensures { result.now ≡ ruling_word ruling }
{
    match ruling {
        RulingWord::Uphold => "uphold",
        RulingWord::Overturn => "overturn",
    }
}

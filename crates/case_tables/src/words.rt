use case_rules::{OutcomeWord, RulingWord};

const OUTCOMES: [OutcomeWord; 4] = [
    OutcomeWord::Clear,
    OutcomeWord::Flagged,
    OutcomeWord::Undecided,
    OutcomeWord::Refused,
];

const RULINGS: [RulingWord; 2] = [RulingWord::Uphold, RulingWord::Overturn];

/// An outcome as the tables have it.
pub fn outcome_word(outcome: OutcomeWord) -> &'static str {
    match outcome {
        OutcomeWord::Clear => "clear",
        OutcomeWord::Flagged => "flagged",
        OutcomeWord::Undecided => "undecided",
        OutcomeWord::Refused => "refused",
    }
}

/// The word of a ruling as the tables have it.
pub fn ruling_word(ruling: RulingWord) -> &'static str {
    match ruling {
        RulingWord::Uphold => "uphold",
        RulingWord::Overturn => "overturn",
    }
}

/// The outcome of this word.
pub fn outcome_of(word: &[u8]) -> Option<OutcomeWord> {
    OUTCOMES
        .into_iter()
        .find(|outcome| outcome_word(*outcome).as_bytes() == word)
}

/// The ruling of this word.
pub fn ruling_of(word: &[u8]) -> Option<RulingWord> {
    RULINGS
        .into_iter()
        .find(|ruling| ruling_word(*ruling).as_bytes() == word)
}

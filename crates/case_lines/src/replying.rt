use case_keeper::KeepFault;
use case_rules::{Case, Line, OutcomeWord, Refusal, Reply, RulingWord, State};
use std::alloc::{AllocError, Global};
use std::str;
use vet_base::Name;

fn text(name: &Name) -> &str {
    str::from_utf8(name.as_bytes()).unwrap_or("?")
}

/// The word of an outcome.
fn outcome(word: OutcomeWord) -> &'static str {
    match word {
        OutcomeWord::Clear => "clear",
        OutcomeWord::Flagged => "flagged",
        OutcomeWord::Undecided => "undecided",
        OutcomeWord::Refused => "refused",
    }
}

fn ruling(word: RulingWord) -> &'static str {
    match word {
        RulingWord::Uphold => "uphold",
        RulingWord::Overturn => "overturn",
    }
}

fn state(state: State) -> &'static str {
    match state {
        State::Queued => "queued",
        State::Decided => "decided",
        State::Appealed => "appealed",
        State::Ruled => "ruled",
    }
}

/// Puts a word behind the others, where it is no empty one.
fn push_word(all: &mut String, word: &str) -> Result<(), AllocError> {
    if word.is_empty() {
        return Ok(());
    }
    if !all.is_empty() {
        all.push_str(" ")?;
    }
    all.push_str(word)
}

/// The words that are not empty, with a blank between them.
fn phrase(
    alloc: Global,
    first: &str,
    second: &str,
    third: &str,
    fourth: &str,
) -> Result<String, AllocError> {
    let mut all = String::from_str(alloc, first)?;
    push_word(&mut all, second)?;
    push_word(&mut all, third)?;
    push_word(&mut all, fourth)?;
    Ok(all)
}

/// The words of a refusal, without the number or outcome behind them.
fn refusal_words(refusal: Refusal) -> &'static str {
    match refusal {
        Refusal::WrongRole => "wrong role",
        Refusal::NoCase => "no such case",
        Refusal::OtherContent => "other content under this reference",
        Refusal::TooManyOpen(_) => "too many open cases, limit",
        Refusal::NothingQueued => "nothing queued",
        Refusal::NotDecided => "not decided",
        Refusal::SameEdition => "decided under these lists",
        Refusal::AppealOpen => "appeal open",
        Refusal::NoAppealFor(_) => "no appeal for",
        Refusal::AppealedAlready => "appealed already",
        Refusal::TooLate(_) => "too late, last day",
        Refusal::NoAppeal => "no appeal",
        Refusal::RuledAlready => "ruled already",
        Refusal::SameReviewer => "same reviewer",
    }
}

fn refusal(alloc: Global, refusal: Refusal) -> Result<String, AllocError> {
    let words = refusal_words(refusal);
    match refusal {
        Refusal::TooManyOpen(limit) => {
            let number = limit.to_string(alloc)?;
            phrase(alloc, words, number.as_str(), "", "")
        }
        Refusal::TooLate(last) => {
            let number = last.to_string(alloc)?;
            phrase(alloc, words, number.as_str(), "", "")
        }
        Refusal::NoAppealFor(word) => phrase(alloc, words, outcome(word), "", ""),
        _ => phrase(alloc, words, "", "", ""),
    }
}

fn shown(alloc: Global, case: &Case) -> Result<String, AllocError> {
    let entries = case.entries.len().to_string(alloc)?;
    let reference = text(&case.reference);
    phrase(
        alloc,
        "shown",
        reference,
        state(case.state()),
        entries.as_str(),
    )
}

/// Puts the words of a line behind the others.
fn push_line(alloc: Global, all: &mut String, line: &Line) -> Result<(), AllocError> {
    let (party, reference) = (text(&line.party), text(&line.reference));
    let words = phrase(alloc, party, reference, state(line.state), "")?;
    push_word(all, words.as_str())
}

fn lines(alloc: Global, lines: &[Line]) -> Result<String, AllocError> {
    let mut all = String::from_str(alloc, "lines")?;
    for line in lines {
        push_line(alloc, &mut all, line)?;
    }
    Ok(all)
}

fn said(alloc: Global, reply: &Reply) -> Result<String, AllocError> {
    match reply {
        Reply::Added(reference) => phrase(alloc, "added", text(reference), "", ""),
        Reply::Kept(reference, at) => phrase(alloc, "kept", text(reference), state(*at), ""),
        Reply::Decided(party, reference, word) => {
            phrase(
                alloc,
                "decided",
                text(party),
                text(reference),
                outcome(*word),
            )
        }
        Reply::Shown(case) => shown(alloc, case),
        Reply::Text(bytes) => {
            let report = str::from_utf8(bytes.as_slice()).unwrap_or("?");
            phrase(alloc, "report", report, "", "")
        }
        Reply::Appealed(reference) => phrase(alloc, "appealed", text(reference), "", ""),
        Reply::Ruled(party, reference, word) => {
            phrase(alloc, "ruled", text(party), text(reference), ruling(*word))
        }
        Reply::Lines(all) => lines(alloc, all.as_slice()),
        Reply::No(why) => refusal(alloc, *why),
    }
}

/// The words of what was replied.
pub fn text_of(
    alloc: Global,
    reply: &Result<Option<Reply>, KeepFault>,
) -> Result<String, AllocError> {
    match reply {
        Ok(Some(reply)) => said(alloc, reply),
        Ok(None) => phrase(alloc, "not a command", "", "", ""),
        Err(KeepFault::Failed) => phrase(alloc, "store failed", "", "", ""),
        Err(KeepFault::Memory) => phrase(alloc, "no memory", "", "", ""),
    }
}

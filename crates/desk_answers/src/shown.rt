ghost use Rattle.std.specs.Prelude.{◌≡◌, IfOk};
ghost use Rattle.std.specs.Option.{option_copied};
ghost use Rattle.desk_answers.specs.Bodies.{appeal_day, decided_day, outcome_in, ruling_in, shown_body};

use crate::put::{put_count, put_number_or_null, put_text, put_word, put_word_or_null};
use crate::words::{outcome_word, ruling_word, state_word};
use case_rules::{Case, Entry};
use json::Writer;
use std::alloc::{AllocError, Global};

fn appeal_day(entry: Option<&Entry>) -> Option<u32>
    ensures { result ≡ appeal_day (option_copied entry.entry) }
{
    match entry {
        None => None,
        Some(entry) => match &entry.appeal {
            None => None,
            Some(appeal) => Some(appeal.day),
        },
    }
}

fn decided_day(entry: Option<&Entry>) -> Option<u32>
    ensures { result ≡ decided_day (option_copied entry.entry) }
{
    match entry {
        None => None,
        Some(entry) => Some(entry.decision.day),
    }
}

fn outcome_in(entry: Option<&Entry>) -> Option<&'static str>
    ensures { option_copied result ≡ outcome_in (option_copied entry.entry) }
{
    match entry {
        None => None,
        Some(entry) => Some(outcome_word(entry.decision.outcome)),
    }
}

fn ruling_in(entry: Option<&Entry>) -> Option<&'static str>
    ensures { option_copied result ≡ ruling_in (option_copied entry.entry) }
{
    match entry {
        None => None,
        Some(entry) => match &entry.ruling {
            None => None,
            Some(ruling) => Some(ruling_word(ruling.word)),
        },
    }
}

/// A case by its last entry.
pub fn shown_body(alloc: Global, case: &Case) -> Result<Vec<u8>, AllocError>
    ensures { IfOk result (λ body. body.items ≡ shown_body case.now) }
{
    let entry = case.last_entry();
    let mut body = Writer::new(Vec::new(alloc));
    body.begin_object()?;
    put_number_or_null(&mut body, "appeal", appeal_day(entry))?;
    put_number_or_null(&mut body, "decided", decided_day(entry))?;
    put_count(&mut body, "editions", case.entries.len())?;
    put_word_or_null(&mut body, "outcome", outcome_in(entry))?;
    put_text(alloc, &mut body, "reference", case.reference.as_bytes())?;
    put_word_or_null(&mut body, "ruling", ruling_in(entry))?;
    put_word(&mut body, "state", state_word(case.state()))?;
    body.end_object()?;
    Ok(body.into_inner())
}

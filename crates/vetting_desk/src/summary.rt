//! The summary of a generated app.

ghost use Rattle.std.specs.Prelude.{◌≡◌, ◌<◌, ◌+◌, ◌++◌, length, IfOk, OnOk};
ghost use Rattle.verdict.specs.Outcome.{findings_in};
ghost use Rattle.vetting_desk.specs.Made.{outcome_word, rows_text, summary_text};

use printed_text::{put, put_number};
use std::alloc::Global;
use verdict::Outcome;
use vet_base::Memory;

#[tactic(auto, unfolding(crate::specs::Made::outcome_word))]
fn word_of(outcome: &Outcome) -> &'static [u8]
    ensures { result.now ≡ outcome_word outcome.now }
{
    match outcome {
        Outcome::Clear => b"clear".as_slice(),
        Outcome::Flagged(_) => b"flagged".as_slice(),
        Outcome::Undecided(_, _) => b"undecided".as_slice(),
        Outcome::Refused(_, _) => b"refused".as_slice(),
    }
}

#[tactic(auto, unfolding(crate::specs::Made::rows_text))]
fn put_rows(alloc: Global, text: &mut Vec<u8>, rows: Option<usize>) -> Result<(), Memory>
    ensures { OnOk result (text.new.items ≡ text.old.items ++ rows_text rows) }
{
    match rows {
        Some(n) => put_number(alloc, text, n),
        None => put(text, b"over 4000000".as_slice()),
    }
}

fn findings_of(outcome: &Outcome) -> usize
    ensures { result ≡ length (findings_in outcome.now) }
{
    match outcome {
        Outcome::Clear => 0,
        Outcome::Flagged(findings) => findings.len(),
        Outcome::Undecided(_, findings) => findings.len(),
        Outcome::Refused(_, _) => 0,
    }
}

/// The four lines on a generated app: its methods, the rows that follow, its findings and the outcome's word.
#[tactic(auto, unfolding(crate::specs::Made::summary_text))]
pub fn summary(
    alloc: Global,
    size: u32,
    rows: Option<usize>,
    outcome: &Outcome,
) -> Result<Vec<u8>, Memory>
    ensures { IfOk result (λ text. text.items ≡ summary_text size rows outcome.now) }
{
    let mut text = b"methods ".as_slice().to_vec(alloc)?;
    put_number(alloc, &mut text, size as usize + 1)?;
    put(&mut text, b"\nrows ".as_slice())?;
    put_rows(alloc, &mut text, rows)?;
    put(&mut text, b"\nfindings ".as_slice())?;
    put_number(alloc, &mut text, findings_of(outcome))?;
    put(&mut text, b"\n".as_slice())?;
    put(&mut text, word_of(outcome))?;
    put(&mut text, b"\n".as_slice())?;
    Ok(text)
}

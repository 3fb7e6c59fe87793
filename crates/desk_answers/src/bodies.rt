ghost use Rattle.std.specs.Prelude.{◌≡◌, IfOk};
ghost use Rattle.desk_answers.specs.Texts.{no_memory};
ghost use Rattle.desk_answers.specs.Bodies.{error_body, state_body, decided_body, ruled_body};

use crate::put::{put_state, put_text, put_word};
use crate::text::latin1;
use crate::words::{outcome_word, ruling_word};
use case_rules::{OutcomeWord, RulingWord, State};
use json::Writer;
use std::alloc::{AllocError, Global};

/// Why nothing was done.
#[tactic(auto, using(crate::proofs::Printed::error_printed))]
pub fn error_body(alloc: Global, text: &[u8]) -> Result<Vec<u8>, AllocError>
    ensures { IfOk result (λ body. body.items ≡ error_body text.now) }
{
    let text = latin1(alloc, text)?;
    let mut body = Writer::new(Vec::new(alloc));
    body.begin_object()?;
    body.key("error")?;
    body.string(&text)?;
    body.end_object()?;
    Ok(body.into_inner())
}

/// That memory ran out, with nothing more than these bytes.
#[tactic(auto, using(crate::proofs::Printed::no_memory_printed))]
pub fn no_memory_body(alloc: Global) -> Result<Vec<u8>, AllocError>
    ensures { IfOk result (λ body. body.items ≡ error_body no_memory) }
{
    Vec::from_slice(alloc, b"{\"error\":\"no memory\"}")
}

/// A case of the party's own, and how far it is.
pub fn state_body(alloc: Global, reference: &[u8], state: State) -> Result<Vec<u8>, AllocError>
    ensures { IfOk result (λ body. body.items ≡ state_body reference.now state) }
{
    let mut body = Writer::new(Vec::new(alloc));
    put_state(alloc, &mut body, reference, state)?;
    Ok(body.into_inner())
}

/// What was decided on a developer's case.
pub fn decided_body(
    alloc: Global,
    developer: &[u8],
    reference: &[u8],
    outcome: OutcomeWord,
) -> Result<Vec<u8>, AllocError>
    ensures { IfOk result (λ body. body.items ≡ decided_body developer.now reference.now outcome) }
{
    let mut body = Writer::new(Vec::new(alloc));
    body.begin_object()?;
    put_text(alloc, &mut body, "developer", developer)?;
    put_word(&mut body, "outcome", outcome_word(outcome))?;
    put_text(alloc, &mut body, "reference", reference)?;
    body.end_object()?;
    Ok(body.into_inner())
}

/// The ruling on a developer's case.
pub fn ruled_body(
    alloc: Global,
    developer: &[u8],
    reference: &[u8],
    ruling: RulingWord,
) -> Result<Vec<u8>, AllocError>
    ensures { IfOk result (λ body. body.items ≡ ruled_body developer.now reference.now ruling) }
{
    let mut body = Writer::new(Vec::new(alloc));
    body.begin_object()?;
    put_text(alloc, &mut body, "developer", developer)?;
    put_text(alloc, &mut body, "reference", reference)?;
    put_word(&mut body, "ruling", ruling_word(ruling))?;
    body.end_object()?;
    Ok(body.into_inner())
}

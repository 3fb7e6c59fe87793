//! What is printed. Each text is one line, which ends with one line feed.
ghost use Rattle.std.specs.Prelude.{◌≡◌, IfOk};
ghost use Rattle.client_service.specs.Texts.{accepted_text, answered_text, bad_client_text, no_answer_text};
ghost use Rattle.client_service.specs.Texts.{not_text_text, read_fault_text, refused_text, too_long_text};

use crate::ready::Refusal;
use printed_text::{put, put_name};
use std::alloc::Global;
use verdict::{Outcome, Part};
use verdict_report::{Unfit, push_part_name, put_unfit, report};
use vet_base::Memory;

#[tactic(auto, unfolding(crate::specs::Texts::bad_client_text))]
fn bad_client(alloc: Global, unfit: &Unfit) -> Result<Vec<u8>, Memory>
    ensures { IfOk result (λ text. text.items ≡ bad_client_text unfit.now) }
{
    let mut text = b"refused client.toml: ".as_slice().to_vec(alloc)?;
    put_unfit(&mut text, unfit)?;
    put(&mut text, b"\n".as_slice())?;
    Ok(text)
}

#[tactic(auto, unfolding(crate::specs::Texts::not_text_text))]
fn not_text(alloc: Global, part: Part) -> Result<Vec<u8>, Memory>
    ensures { IfOk result (λ text. text.items ≡ not_text_text part) }
{
    let mut line = String::from_str(alloc, "refused ")?;
    push_part_name(alloc, &mut line, part)?;
    line.push_str(": not text\n")?;
    Ok(line.as_bytes().to_vec(alloc)?)
}

#[tactic(auto, unfolding(crate::specs::Texts::too_long_text))]
fn too_long(alloc: Global) -> Result<Vec<u8>, Memory>
    ensures { IfOk result (λ text. text.items ≡ too_long_text) }
{
    Ok(
        b"refused submission: longer than 67108864\n"
            .as_slice()
            .to_vec(alloc)?,
    )
}

/// What is refused, and why. A file of the app is refused in the words of the report on an app.
pub(crate) fn refused(alloc: Global, refusal: Refusal) -> Result<Vec<u8>, Memory>
    ensures { IfOk result (λ text. text.items ≡ refused_text refusal) }
{
    match refusal {
        Refusal::Client(unfit) => bad_client(alloc, &unfit),
        Refusal::File(part, reason) => report(alloc, &Outcome::Refused(part, reason)),
        Refusal::NotText(part) => not_text(alloc, part),
        Refusal::TooLong => too_long(alloc),
    }
}

/// Which file could not be read.
#[tactic(auto, unfolding(crate::specs::Texts::read_fault_text))]
pub(crate) fn read_fault(alloc: Global, name: &[u8]) -> Result<Vec<u8>, Memory>
    ensures { IfOk result (λ text. text.items ≡ read_fault_text name.now) }
{
    let mut text = b"read fault ".as_slice().to_vec(alloc)?;
    put_name(&mut text, name)?;
    put(&mut text, b"\n".as_slice())?;
    Ok(text)
}

/// Under which reference the desk has the app.
#[tactic(auto, unfolding(crate::specs::Texts::accepted_text))]
pub(crate) fn accepted(alloc: Global, reference: &str) -> Result<Vec<u8>, Memory>
    ensures { IfOk result (λ text. text.items ≡ accepted_text reference.now) }
{
    let mut text = b"accepted ".as_slice().to_vec(alloc)?;
    put(&mut text, reference.as_bytes())?;
    put(&mut text, b"\n".as_slice())?;
    Ok(text)
}

/// With which status the desk answered otherwise.
#[tactic(auto, unfolding(crate::specs::Texts::answered_text))]
pub(crate) fn desk_answered(alloc: Global, status: u16) -> Result<Vec<u8>, Memory>
    ensures { IfOk result (λ text. text.items ≡ answered_text status) }
{
    let line = format!(in alloc; "desk answered {status}\n")?;
    Ok(line.as_bytes().to_vec(alloc)?)
}

/// That no answer came.
#[tactic(auto, unfolding(crate::specs::Texts::no_answer_text))]
pub(crate) fn no_answer(alloc: Global, tries: u8) -> Result<Vec<u8>, Memory>
    ensures { IfOk result (λ text. text.items ≡ no_answer_text tries) }
{
    let line = format!(in alloc; "no answer after {tries} tries\n")?;
    Ok(line.as_bytes().to_vec(alloc)?)
}

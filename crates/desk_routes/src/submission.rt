//! Commands out of the values of bodies.
ghost use Rattle.std.specs.Prelude.{◌≡◌, IfOk};
ghost use Rattle.serde_json.specs.View.{view};
ghost use Rattle.desk_routes.specs.Faults.{Gives};
ghost use Rattle.desk_routes.specs.Bodies.{submission, appeal, review, ruling};

use crate::body::{dex_at, name_at, text_at, word_at};
use crate::fault::{Fault, Field};
use case_rules::{Command, Content, is_appeal_text};
use serde_json::Value;
use std::alloc::Global;
use vet_base::{Memory, Name, Shared, Stop};

/// The bytes of a text.
fn bytes_of(alloc: Global, text: &str) -> Result<Shared<u8>, Memory>
    ensures { IfOk result (λ bytes. bytes ≡ text.now) }
{
    Shared::from_vec(alloc, text.as_bytes().to_vec(alloc)?)
}

/// A submission.
#[tactic(auto, unfolding(crate::specs::Bodies::submission))]
pub(crate) fn submission(alloc: Global, value: &Value) -> Result<Command, Stop<Fault>>
    ensures { Gives (λ command. command) result (submission (view value.now)) }
{
    let reference = name_at(value, Field::Reference)?;
    let manifest = text_at(value, Field::Manifest)?;
    let layouts = text_at(value, Field::Layouts)?;
    let declaration = text_at(value, Field::Declaration)?;
    let dex = dex_at(alloc, value)?;
    let content = Content {
        manifest: bytes_of(alloc, manifest)?,
        layouts: bytes_of(alloc, layouts)?,
        declaration: bytes_of(alloc, declaration)?,
        dex: Shared::from_vec(alloc, dex)?,
    };
    let reference = Name::from_bytes(alloc, reference.as_bytes())?;
    Ok(Command::Submit(reference, content))
}

/// An appeal against the decision on a case.
#[tactic(auto, unfolding(crate::specs::Bodies::appeal))]
pub(crate) fn appeal(alloc: Global, reference: &[u8], value: &Value) -> Result<Command, Stop<Fault>>
    ensures { Gives (λ command. command) result (appeal reference.now (view value.now)) }
{
    let text = text_at(value, Field::Text)?;
    if !is_appeal_text(text.as_bytes()) {
        return Err(Stop::Fault(Fault::Bad(Field::Text)));
    }
    let reference = Name::from_bytes(alloc, reference)?;
    Ok(Command::Appeal(reference, bytes_of(alloc, text)?))
}

/// A review of a case.
#[tactic(auto, unfolding(crate::specs::Bodies::review))]
pub(crate) fn review(alloc: Global, value: &Value) -> Result<Command, Stop<Fault>>
    ensures { Gives (λ command. command) result (review (view value.now)) }
{
    let developer = name_at(value, Field::Developer)?;
    let reference = name_at(value, Field::Reference)?;
    let developer = Name::from_bytes(alloc, developer.as_bytes())?;
    let reference = Name::from_bytes(alloc, reference.as_bytes())?;
    Ok(Command::Review(developer, reference))
}

/// A ruling on an appeal.
#[tactic(auto, unfolding(crate::specs::Bodies::ruling))]
pub(crate) fn ruling(alloc: Global, value: &Value) -> Result<Command, Stop<Fault>>
    ensures { Gives (λ command. command) result (ruling (view value.now)) }
{
    let developer = name_at(value, Field::Developer)?;
    let reference = name_at(value, Field::Reference)?;
    let word = word_at(value)?;
    let developer = Name::from_bytes(alloc, developer.as_bytes())?;
    let reference = Name::from_bytes(alloc, reference.as_bytes())?;
    Ok(Command::Rule(developer, reference, word))
}

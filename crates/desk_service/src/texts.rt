//! What is printed. Each text is one line, which ends with one line feed.
ghost use Rattle.std.specs.Prelude.{◌≡◌, codes, IfOk};
ghost use Rattle.std.specs.Fmt.{decimal};
ghost use Rattle.desk_service.specs.Texts.{refused_text, read_fault_text, served_text, door_fault_text};

use crate::opening::{Paper, name_of};
use printed_text::{put, put_name};
use std::alloc::Global;
use verdict_report::{Unfit, put_unfit};
use vet_base::Memory;

/// Which file of the office is refused, and why.
#[tactic(auto, unfolding(crate::specs::Texts::refused_text))]
pub(crate) fn refused(alloc: Global, paper: Paper, unfit: &Unfit) -> Result<Vec<u8>, Memory>
    ensures { IfOk result (λ text. text.items ≡ refused_text paper unfit.now) }
{
    let mut text = b"refused ".as_slice().to_vec(alloc)?;
    put(&mut text, name_of(paper).as_bytes())?;
    put(&mut text, b": ".as_slice())?;
    put_unfit(&mut text, unfit)?;
    put(&mut text, b"\n".as_slice())?;
    Ok(text)
}

/// Which file could not be read, by its path.
#[tactic(auto, unfolding(crate::specs::Texts::read_fault_text))]
pub(crate) fn read_fault(alloc: Global, path: &[u8]) -> Result<Vec<u8>, Memory>
    ensures { IfOk result (λ text. text.items ≡ read_fault_text path.now) }
{
    let mut text = b"read fault ".as_slice().to_vec(alloc)?;
    put_name(&mut text, path)?;
    put(&mut text, b"\n".as_slice())?;
    Ok(text)
}

/// How many connections were taken.
#[tactic(auto, unfolding(crate::specs::Texts::served_text))]
pub(crate) fn served(alloc: Global, count: u32) -> Result<Vec<u8>, Memory>
    ensures { IfOk result (λ text. text.items ≡ served_text count) }
{
    let line = format!(in alloc; "served {count}\n")?;
    Ok(line.as_bytes().to_vec(alloc)?)
}

/// That the door failed.
#[tactic(auto, unfolding(crate::specs::Texts::door_fault_text))]
pub(crate) fn door_fault(alloc: Global) -> Result<Vec<u8>, Memory>
    ensures { IfOk result (λ text. text.items ≡ door_fault_text) }
{
    Ok(b"door fault\n".as_slice().to_vec(alloc)?)
}

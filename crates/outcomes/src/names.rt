//! Copies of names.

ghost use Rattle.std.specs.Prelude.{◌≡◌, IfOk, take};

use std::alloc::Global;
use vet_base::{Memory, Name};

/// The same names. Want of memory is the only error.
pub fn copied(alloc: Global, names: &[Name]) -> Result<Vec<Name>, Memory>
    ensures { IfOk result (λ v. v.items ≡ names.now) }
{
    let mut copies = Vec::new(alloc);
    for name in names {
        copies.push(name.copy()?)?;
    }
    Ok(copies)
}

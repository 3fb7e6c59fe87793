ghost use Rattle.std.specs.Prelude.{◌≡◌, ◌⊎◌, ◌++◌, IfOk, IfErr};
ghost use Rattle.form_fields.specs.Form.{shown, IsTold};
ghost use Rattle.form_fields.specs.Words.{name_of};
ghost use Rattle.vet_base.specs.declared.stop.Stop.TheVariants as stops;

use crate::{Fault, Key, Section};
use std::alloc::Global;
use vet_base::{Memory, Name, Stop};

/// Why a text is no form: the first test that fails. A key within an array is named with the
/// array, as `component.kind`.
#[derive(Drop)]
pub enum FormFault {
    /// The text is not UTF-8, or TOML does not read it.
    NotToml,
    /// This key is not there.
    Missing(Name),
    /// What stands at this key is of another type, or none of its words.
    Wrong(Name),
    /// The table has no such key.
    Unknown(Name),
    /// What stands at this key is not of its form or length, or out of its limits.
    Range(Name),
    /// This text stands a second time.
    Twice(Name),
    /// Memory ran out.
    Memory,
}

/// The fault with its key written out, or `Memory` where there is none left for it.
pub fn told_of(alloc: Global, stop: Stop<Fault>) -> FormFault
    ensures { (result ≡ FormFault.Memory) ⊎ IsTold stop result }
{
    match stop {
        Stop::Memory => FormFault::Memory,
        Stop::Fault(fault) => match fault_of(alloc, fault) {
            Ok(told) => told,
            Err(Memory) => FormFault::Memory,
        },
    }
}

fn fault_of(alloc: Global, fault: Fault) -> Result<FormFault, Memory>
    ensures { IfOk result (λ told. told ≡ shown fault) }
{
    Ok(match fault {
        Fault::NotToml => FormFault::NotToml,
        Fault::Missing(section, key) => FormFault::Missing(key_name(alloc, section, key)?),
        Fault::Wrong(section, key) => FormFault::Wrong(key_name(alloc, section, key)?),
        Fault::Unknown(section, name) => {
            FormFault::Unknown(joined(alloc, section.prefix().as_bytes(), name.as_bytes())?)
        }
        Fault::Range(section, key) => FormFault::Range(key_name(alloc, section, key)?),
        Fault::Twice(name) => FormFault::Twice(name),
    })
}

/// The name of a key in reports.
#[tactic(auto, unfolding(crate::specs::Words::name_of))]
fn key_name(alloc: Global, section: Section, key: Key) -> Result<Name, Memory>
    ensures { IfOk result (λ n. n ≡ name_of section key) }
{
    joined(alloc, section.prefix().as_bytes(), key.text().as_bytes())
}

/// Two pieces, one after the other.
fn joined(alloc: Global, first: &[u8], second: &[u8]) -> Result<Name, Memory>
    ensures { IfOk result (λ n. n ≡ first.now ++ second.now) }
{
    let mut bytes = first.to_vec(alloc)?;
    bytes.extend_from_slice(second)?;
    Name::new(alloc, bytes)
}

ghost use Rattle.std.specs.Prelude.{◌≡◌, ◌⊎◌, IfOk};
ghost use Rattle.client_form.specs.Form.{text_of, shown, IsTold};

use form_fields::FormFault;
use std::alloc::Global;
use vet_base::{Memory, Name, Stop};

/// A key of the form.
#[derive(Clone, Copy)]
pub(crate) enum Key {
    Port,
    Token,
    Tries,
}

/// The test that the form fails.
#[derive(Drop)]
pub(crate) enum Fault {
    Unknown(Name),
    Missing(Key),
    Wrong(Key),
    Range(Key),
}

impl Key {
    /// The key as it stands in the file.
    #[tactic(auto, unfolding(crate::specs::Form::text_of))]
    pub(crate) fn text(self) -> &'static str
        ensures { result.now ≡ text_of self }
    {
        match self {
            Key::Port => "port",
            Key::Token => "token",
            Key::Tries => "tries",
        }
    }
}

fn named(alloc: Global, key: Key) -> Result<Name, Memory>
    ensures { IfOk result (λ name. name ≡ text_of key) }
{
    Name::from_bytes(alloc, key.text().as_bytes())
}

fn shown(alloc: Global, fault: Fault) -> Result<FormFault, Memory>
    ensures { IfOk result (λ told. told ≡ shown fault) }
{
    Ok(match fault {
        Fault::Unknown(name) => FormFault::Unknown(name),
        Fault::Missing(key) => FormFault::Missing(named(alloc, key)?),
        Fault::Wrong(key) => FormFault::Wrong(named(alloc, key)?),
        Fault::Range(key) => FormFault::Range(named(alloc, key)?),
    })
}

/// The fault with its key written out, or `Memory` where there is none left for it.
pub(crate) fn told_as(alloc: Global, stop: Stop<Fault>) -> FormFault
    ensures { (result ≡ FormFault.Memory) ⊎ IsTold stop result }
{
    match stop {
        Stop::Memory => FormFault::Memory,
        Stop::Fault(fault) => match shown(alloc, fault) {
            Ok(told) => told,
            Err(Memory) => FormFault::Memory,
        },
    }
}

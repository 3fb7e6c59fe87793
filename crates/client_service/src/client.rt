//! The client's file in a folder.
ghost use Rattle.std.specs.Prelude.{◌≡◌, string_bytes, IfOk};
ghost use Rattle.client_form.specs.Form.{IsSound};
ghost use Rattle.client_service.specs.Clients.{client_path, FitsClient, ReadsClient};
ghost use Rattle.client_service.specs.Reading.{Leaves};

use crate::ready::{Halt, Refusal};
use client_form::{Client, read_client};
use form_fields::FormFault;
use heard_files::Files;
use printed_text::FILE_LIMIT;
use std::alloc::{AllocError, Global};
use verdict_report::Unfit;
use vet_base::FileFault;

#[tactic(auto, unfolding(crate::specs::Clients::client_path))]
fn client_path(alloc: Global, dir: &str) -> Result<String, AllocError>
    ensures { IfOk result (λ path. string_bytes path ≡ client_path dir.now) }
{
    let mut path = String::from_str(alloc, dir)?;
    path.push_str("/client.toml")?;
    Ok(path)
}

fn refused_for(unfit: Unfit) -> Halt
    ensures { result ≡ Halt.Refused (Refusal.Client unfit) }
{
    Halt::Refused(Refusal::Client(unfit))
}

/// What a text says of the client.
fn client_of(alloc: Global, text: &[u8]) -> Result<Client, Halt>
    ensures fits { FitsClient text.now result }
    ensures sound { IfOk result IsSound }
{
    match read_client(alloc, text) {
        Ok(client) => Ok(client),
        Err(FormFault::Memory) => Err(Halt::Memory),
        Err(fault) => Err(refused_for(Unfit::Form(fault))),
    }
}

/// What the file `client.toml` of a folder says. One that is absent, too long or not of its form is refused.
pub(crate) fn client_in<F: Files>(alloc: Global, files: &mut F, dir: &str) -> Result<Client, Halt>
    ensures reads { ReadsClient (F.told files.old) dir.now result }
    ensures leaves { Leaves (F.told files.old) (F.told files.new) (F.fault_count files.old) (F.fault_count files.new)
        dir.now result }
    ensures sound { IfOk result IsSound }
{
    let path = client_path(alloc, dir)?;
    match files.read(alloc, path.as_str(), FILE_LIMIT) {
        Ok(text) => client_of(alloc, &text),
        Err(FileFault::Absent) => Err(refused_for(Unfit::Absent)),
        Err(FileFault::TooLong) => Err(refused_for(Unfit::TooLong)),
        Err(FileFault::Failed) => Err(Halt::ReadFault(path)),
        Err(FileFault::Memory) => Err(Halt::Memory),
    }
}

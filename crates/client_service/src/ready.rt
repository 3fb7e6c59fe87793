//! What a folder gives to be sent.
ghost use Rattle.std.specs.Prelude.{◌≡◌, ◌≤◌, length, IfOk, IsTrue};
ghost use Rattle.form_fields.specs.Spelling.{is_token};
ghost use Rattle.store_office.specs.Reference.{is_reference};
ghost use Rattle.client_service.specs.Posting.{text_part, HaltsAs, GivesApp, MakesRequest, Readies};
ghost use Rattle.client_service.specs.Reading.{Leaves};
ghost use Rattle.client_service.specs.Words.{asked_words, IsWithin};

use crate::client::client_in;
use crate::content::content_in;
use crate::words::Submitting;
use app_folder::Halt as FolderHalt;
use case_rules::Content;
use client_form::Client;
use client_http::{MakeFault, request_bytes};
use heard_files::Files;
use std::alloc::{AllocError, Global};
use verdict::{Part, Reason};
use verdict_report::Unfit;
use vet_base::{Memory, Name};

/// Why nothing is sent.
#[derive(Drop)]
pub enum Refusal {
    /// The client's file is refused.
    Client(Unfit),
    /// This file of the app is refused, as `check` refuses it.
    File(Part, Reason),
    /// This file of the app is not UTF-8.
    NotText(Part),
    /// The body of the request has more than 67,108,864 bytes.
    TooLong,
}

/// Why there is nothing to send.
#[derive(Drop)]
pub(crate) enum Halt {
    Refused(Refusal),
    /// The read of the file of this name failed.
    ReadFault(String),
    Memory,
}

/// What is sent, and by whom.
#[derive(Drop)]
pub(crate) struct Ready {
    pub(crate) client: Client,
    pub(crate) request: Vec<u8>,
}

impl From<AllocError> for Halt {
    ghost use Rattle.client_service.specs.declared.ready.Halt.TheVariants.{Memory};

    ghost from_gives = { λ _ e. e ≡ Memory };

    fn from(_e: AllocError) -> Halt {
        Halt::Memory
    }
}

impl From<Memory> for Halt {
    ghost use Rattle.client_service.specs.declared.ready.Halt.TheVariants.{Memory as OutOfMemory};

    ghost from_gives = { λ _ e. e ≡ OutOfMemory };

    fn from(_e: Memory) -> Halt {
        Halt::Memory
    }
}

fn halt_of(halt: FolderHalt) -> Halt
    ensures { HaltsAs halt result }
{
    match halt {
        FolderHalt::Refused(part, reason) => Halt::Refused(Refusal::File(part, reason)),
        FolderHalt::ReadFault(name) => Halt::ReadFault(name),
        FolderHalt::Memory => Halt::Memory,
    }
}

/// The manifest (0), the layouts (1) or the declaration.
fn text_part(number: u8) -> Part
    ensures { result ≡ text_part number }
{
    match number {
        0 => Part::Manifest,
        1 => Part::Layouts,
        _ => Part::Declaration,
    }
}

/// The request by which the client hands in the app.
fn request_in(
    alloc: Global,
    client: &Client,
    reference: &str,
    content: &Content,
) -> Result<Vec<u8>, Halt>
    requires token { IsTrue (is_token client.now.token) }
    requires reference { IsTrue (is_reference reference.now) }
    requires dex { (1 ≤ length content.now.dex) × (length content.now.dex ≤ 16) }
    ensures { MakesRequest client.now.token reference.now content.now result }
{
    let name = Name::from_bytes(alloc, reference.as_bytes())?;
    match request_bytes(alloc, &client.token, &name, content) {
        Ok(request) => Ok(request),
        Err(MakeFault::NotText(number)) => Err(Halt::Refused(Refusal::NotText(text_part(number)))),
        Err(MakeFault::TooLong) => Err(Halt::Refused(Refusal::TooLong)),
        Err(MakeFault::Memory) => Err(Halt::Memory),
    }
}

/// The app that is handed in; where there is none, why.
fn app_in<F: Files>(alloc: Global, files: &mut F, dir: &str) -> Result<Content, Halt>
    ensures gives { GivesApp (F.told files.old) dir.now result }
    ensures leaves { Leaves (F.told files.old) (F.told files.new) (F.fault_count files.old) (F.fault_count files.new)
        dir.now result }
    ensures dex { IfOk result (λ content. (1 ≤ length content.dex) × (length content.dex ≤ 16)) }
{
    match content_in(alloc, files, dir) {
        Ok(content) => Ok(content),
        Err(halt) => Err(halt_of(halt)),
    }
}

/// What a folder gives to be sent under a reference, or the first refusal: of `client.toml`, then of the app's files in
/// the order of `check`, then of the first of its texts that is not UTF-8, then of a body that is too long.
pub(crate) fn ready_in<F: Files>(
    alloc: Global,
    files: &mut F,
    asked: &Submitting,
) -> Result<Ready, Halt>
    requires { IsWithin asked.now }
    ensures readies { Readies (F.told files.old) (asked_words asked.now) result }
    ensures leaves { Leaves (F.told files.old) (F.told files.new) (F.fault_count files.old) (F.fault_count files.new)
        asked.now.dir.now result }
{
    let client = client_in(alloc, files, asked.dir)?;
    let content = app_in(alloc, files, asked.dir)?;
    let request = request_in(alloc, &client, asked.reference, &content)?;
    Ok(Ready { client, request })
}

//! The files of an office, read in their order: the office file, and then the lists.
ghost use Rattle.std.specs.Prelude.{◌≡◌, [], ◌∷◌, ◌++◌, string_bytes, IfOk, Ok};
ghost use Rattle.desk_service.specs.Opening.{paper_name, paper_path, ReadsPaper, Leaves};
ghost use Rattle.desk_service.specs.Opening.{GaveSaid, GaveOffice, opened_of};
ghost use Rattle.desk_service.specs.declared.opening.Paper.TheVariants.{Lists};
ghost use Rattle.desk_service.specs.Opening.{HaltsForm, OpensOffice, OpensLists, OpensDesk};

use crate::lists_judge::OfficeLists;
use desk_serving::Desk;
use form_texts::ListsText;
use heard_files::Files;
use office_forms::{FormFault, one_form_or_fault, read_office};
use printed_text::FILE_LIMIT;
use std::alloc::{AllocError, Global};
use store_office::Office;
use verdict_report::Unfit;
use vet_base::{FileFault, Memory, Shared};

/// A file of the office.
#[derive(Clone, Copy)]
pub enum Paper {
    Office,
    Lists,
}

/// Why a desk could not be opened.
#[derive(Drop)]
pub(crate) enum Halt {
    /// The first file that is refused.
    Refused(Paper, Unfit),
    /// The read of this file failed.
    ReadFault(Paper),
    Memory,
}

impl From<AllocError> for Halt {
    ghost use Rattle.desk_service.specs.declared.opening.Halt.TheVariants.{Memory};

    ghost from_gives = { λ _ e. e ≡ Memory };

    fn from(_e: AllocError) -> Halt {
        Halt::Memory
    }
}

impl From<Memory> for Halt {
    ghost use Rattle.desk_service.specs.declared.opening.Halt.TheVariants.{Memory as OutOfMemory};

    ghost from_gives = { λ _ e. e ≡ OutOfMemory };

    fn from(_e: Memory) -> Halt {
        Halt::Memory
    }
}

#[tactic(auto, unfolding(crate::specs::Opening::paper_name))]
pub(crate) fn name_of(paper: Paper) -> &'static str
    ensures { result.now ≡ paper_name paper }
{
    match paper {
        Paper::Office => "office.toml",
        Paper::Lists => "lists.toml",
    }
}

#[tactic(auto, unfolding(crate::specs::Opening::paper_path))]
pub(crate) fn path_of(alloc: Global, office: &str, paper: Paper) -> Result<String, AllocError>
    ensures { IfOk result (λ path. string_bytes path ≡ paper_path office.now paper) }
{
    let mut path = String::from_str(alloc, office)?;
    path.push_str("/")?;
    path.push_str(name_of(paper))?;
    Ok(path)
}

/// The bytes of a file of the office.
fn paper_in<F: Files>(
    alloc: Global,
    files: &mut F,
    office: &str,
    paper: Paper,
) -> Result<Vec<u8>, Halt>
    ensures reads { ReadsPaper (F.told files.old) office.now paper result }
    ensures leaves { Leaves (F.told files.old) (F.told files.new) (F.fault_count files.old) (F.fault_count files.new)
        office.now result }
    ensures heard { IfOk result (λ bytes. F.heard files.new
        ≡ F.heard files.old ++ (paper_path office.now paper, 16777216, Ok bytes.items) ∷ []) }
{
    let path = path_of(alloc, office, paper)?;
    match files.read(alloc, path.as_str(), FILE_LIMIT) {
        Ok(bytes) => Ok(bytes),
        Err(FileFault::Absent) => Err(Halt::Refused(paper, Unfit::Absent)),
        Err(FileFault::TooLong) => Err(Halt::Refused(paper, Unfit::TooLong)),
        Err(FileFault::Failed) => Err(Halt::ReadFault(paper)),
        Err(FileFault::Memory) => Err(Halt::Memory),
    }
}

fn halt_of(paper: Paper, fault: FormFault) -> Halt
    ensures { HaltsForm paper fault result }
{
    match fault {
        FormFault::Memory => Halt::Memory,
        fault => Halt::Refused(paper, Unfit::Form(fault)),
    }
}

/// The office that the office file says.
fn office_in<F: Files>(alloc: Global, files: &mut F, folder: &str) -> Result<Office, Halt>
    ensures opens { OpensOffice (F.told files.old) folder.now result }
    ensures leaves { Leaves (F.told files.old) (F.told files.new) (F.fault_count files.old) (F.fault_count files.new)
        folder.now result }
    ensures heard { IfOk result (λ office. GaveSaid (F.heard files.old) (F.heard files.new) folder.now office) }
{
    let text = paper_in(alloc, files, folder, Paper::Office)?;
    match read_office(alloc, &text) {
        Ok(office) => Ok(office),
        Err(fault) => Err(halt_of(Paper::Office, fault)),
    }
}

/// The lists, which are read here and not again.
fn lists_in<F: Files>(alloc: Global, files: &mut F, folder: &str) -> Result<ListsText, Halt>
    ensures opens { OpensLists (F.told files.old) folder.now result }
    ensures leaves { Leaves (F.told files.old) (F.told files.new) (F.fault_count files.old) (F.fault_count files.new)
        folder.now result }
    ensures heard { IfOk result (λ lists. F.heard files.new
        ≡ F.heard files.old ++ (paper_path folder.now Lists, 16777216, Ok lists) ∷ []) }
{
    let bytes = paper_in(alloc, files, folder, Paper::Lists)?;
    let text = Shared::from_vec(alloc, bytes)?;
    match ListsText::read(alloc, text) {
        Ok(lists) => Ok(lists),
        Err(fault) => Err(halt_of(Paper::Lists, fault)),
    }
}

/// The desk of the office in a folder, or the first refusal: of `office.toml`, and then of `lists.toml`. A file that is
/// absent, too long or not of its form is refused at once.
pub(crate) fn desk_in<F: Files>(
    alloc: Global,
    files: &mut F,
    folder: &str,
) -> Result<Desk<OfficeLists>, Halt>
    ensures opens { OpensDesk (F.told files.old) folder.now result }
    ensures leaves { Leaves (F.told files.old) (F.told files.new) (F.fault_count files.old) (F.fault_count files.new)
        folder.now result }
    ensures gave { IfOk result (λ desk. GaveOffice (F.heard files.old) (F.heard files.new) folder.now
        (opened_of desk)) }
{
    one_form_or_fault();
    let office = office_in(alloc, files, folder)?;
    let lists = lists_in(alloc, files, folder)?;
    let judge = OfficeLists::new(lists);
    Ok(Desk { office, judge })
}

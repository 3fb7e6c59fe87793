//! The files of a folder: the parts of an app, read in a fixed order.

ghost use Rattle.std.specs.Prelude.{◌≡◌, ◌≤◌, [], ◌∷◌, length, string_bytes, IfErr, IfOk, Ok, Err};
ghost use Rattle.std.specs.List.{AllByRecursion};
ghost use Rattle.certificate.specs.Digests.{IsShort};
ghost use Rattle.vet_base.specs.Outside.{held_by};
ghost use Rattle.app_folder.specs.Folder.{file_name, part_at, dexes_at, parts_at, IsFileIn};
ghost use Rattle.app_folder.specs.Heard.{dex_entries, dex_parts, entries_behind, parts_behind, read_of, Hears, HearsFolder};
ghost use Rattle.app_folder.specs.Reading.{ReadsAs, Leaves, FailsAt, CountsDex, GathersAs, AreShort};

use form_texts::{ListsText, ManifestText};
use heard_files::Files;
use office_forms::{FormFault, read_manifest};
use printed_text::FILE_LIMIT;
use std::alloc::{AllocError, AllocFailed, Global};
use verdict::{Part, Parts, Reason};
use verdict_report::push_part_name;
use vet_base::{FileFault, Memory, Seq, Shared};

/// Why the parts of an app could not be had.
#[derive(Drop)]
pub enum Halt {
    /// The first part that is refused.
    Refused(Part, Reason),
    /// The read of the file of this name failed.
    ReadFault(String),
    Memory,
}

impl From<AllocError> for Halt {
    ghost use Rattle.app_folder.specs.declared.folder.Halt.TheVariants.{Memory};

    ghost from_gives = { λ _ e. e ≡ Memory };

    fn from(_e: AllocError) -> Halt {
        Halt::Memory
    }
}

impl<T: Drop> From<AllocFailed<T>> for Halt {
    ghost use Rattle.app_folder.specs.declared.folder.Halt.TheVariants.{Memory};

    ghost from_gives = { λ _ e. e ≡ Memory };

    fn from(_e: AllocFailed<T>) -> Halt {
        Halt::Memory
    }
}

impl From<Memory> for Halt {
    ghost use Rattle.app_folder.specs.declared.folder.Halt.TheVariants.{Memory as OutOfMemory};

    ghost from_gives = { λ _ e. e ≡ OutOfMemory };

    fn from(_e: Memory) -> Halt {
        Halt::Memory
    }
}

/// The name of the file of a part.
#[tactic(auto, unfolding(crate::specs::Folder::file_name))]
pub fn name_of(alloc: Global, dir: &str, part: Part) -> Result<String, AllocError>
    ensures { IfOk result (λ name. string_bytes name ≡ file_name dir.now part) }
{
    let mut name = String::from_str(alloc, dir)?;
    name.push_str("/")?;
    push_part_name(alloc, &mut name, part)?;
    Ok(name)
}

/// The bytes of the file of a part.
#[tactic(auto, unfolding(crate::specs::Folder::part_at))]
fn part_in<F: Files>(
    alloc: Global,
    files: &mut F,
    dir: &str,
    part: Part,
) -> Result<Shared<u8>, Halt>
    ensures value { ReadsAs (F.told files.old) (λ bytes. bytes) result
        (part_at (held_by (F.told files.old)) dir.now part) }
    ensures leaves { Leaves (F.told files.old) (F.told files.new) (F.fault_count files.old) (F.fault_count files.new)
        result }
    ensures file { FailsAt (λ name. name ≡ file_name dir.now part) result }
    ensures short { IfOk result (λ bytes. IsShort bytes) }
    ensures heard { Hears (λ bytes. read_of dir.now part (Ok bytes) ∷ []) (part ∷ []) (F.heard files.old)
        (F.heard files.new) dir.now result }
{
    let name = name_of(alloc, dir, part)?;
    match files.read(alloc, name.as_str(), FILE_LIMIT) {
        Ok(bytes) => Ok(Shared::from_vec(alloc, bytes)?),
        Err(FileFault::Absent) => Err(Halt::Refused(part, Reason::Absent)),
        Err(FileFault::TooLong) => Err(Halt::Refused(part, Reason::TooLong(FILE_LIMIT))),
        Err(FileFault::Failed) => Err(Halt::ReadFault(name)),
        Err(FileFault::Memory) => Err(Halt::Memory),
    }
}

/// The bytes of so many DEX files.
#[tactic(auto, unfolding(crate::specs::Folder::dexes_at, crate::specs::Folder::dex_row), using(vet_base::proofs::Scripts::begins, vet_base::proofs::Scripts::goes_on, vet_base::proofs::Scripts::ends, vet_base::proofs::Scripts::is_done))]
fn dexes_in<F: Files>(
    alloc: Global,
    files: &mut F,
    dir: &str,
    count: u32,
) -> Result<Seq<Shared<u8>>, Halt>
    ensures value { ReadsAs (F.told files.old) (λ dexes. (dexes, tt)) result
        (dexes_at (held_by (F.told files.old)) dir.now count) }
    ensures leaves { Leaves (F.told files.old) (F.told files.new) (F.fault_count files.old) (F.fault_count files.new)
        result }
    ensures file { FailsAt (IsFileIn dir.now) result }
    ensures short { IfOk result (λ dexes. AllByRecursion IsShort dexes) }
    ensures count { IfOk result (λ dexes. length dexes ≡ count) }
    ensures heard { Hears (dex_entries dir.now 0) (dex_parts count 0) (F.heard files.old) (F.heard files.new) dir.now
        result }
{
    let mut dexes = Vec::new(alloc);
    for i in 0..count {
        let dex = part_in(alloc, files, dir, Part::Dex(i))?;
        dexes.push(dex)?;
    }
    Ok(Seq::from_vec(dexes))
}

/// The parts behind the manifest, which says how many DEX files there are.
#[tactic(auto, unfolding(crate::specs::Folder::parts_at), using(vet_base::proofs::Scripts::run_bind))]
fn parts_with<F: Files>(
    alloc: Global,
    files: &mut F,
    dir: &str,
    manifest: ManifestText,
    count: u32,
) -> Result<Parts, Halt>
    requires { IsShort manifest }
    ensures value { ReadsAs (F.told files.old) (λ parts. parts) result (parts_at (held_by (F.told files.old)) dir.now
        manifest count) }
    ensures leaves { Leaves (F.told files.old) (F.told files.new) (F.fault_count files.old) (F.fault_count files.new)
        result }
    ensures file { FailsAt (IsFileIn dir.now) result }
    ensures short { IfOk result AreShort }
    ensures manifest { IfOk result (λ parts. parts.manifest ≡ manifest) }
    ensures count { IfOk result (λ parts. length parts.dex ≡ count) }
    ensures heard { Hears (entries_behind dir.now) (parts_behind count) (F.heard files.old) (F.heard files.new) dir.now
        result }
{
    let layouts = part_in(alloc, files, dir, Part::Layouts)?;
    let declaration = part_in(alloc, files, dir, Part::Declaration)?;
    let lists = part_in(alloc, files, dir, Part::Lists)?;
    let dex = dexes_in(alloc, files, dir, count)?;
    Ok(Parts {
        manifest,
        layouts,
        declaration,
        lists: ListsText::new(lists),
        dex,
    })
}

/// How many DEX files the manifest says that there are.
pub fn dex_count(alloc: Global, manifest: &[u8]) -> Result<u32, Halt>
    ensures counts { CountsDex manifest.now result }
    ensures within { IfOk result (λ count. (1 ≤ count) × (count ≤ 16)) }
{
    match read_manifest(alloc, manifest) {
        Ok(manifest) => Ok(manifest.manifest.dex_files),
        Err(FormFault::Memory) => Err(Halt::Memory),
        Err(fault) => Err(Halt::Refused(Part::Manifest, Reason::Form(fault))),
    }
}

/// The manifest that a text is, which is read now and not again.
fn manifest_of(alloc: Global, text: Shared<u8>) -> Result<ManifestText, Halt>
    ensures ok { IfOk result (λ manifest. manifest ≡ text) }
    ensures err { IfErr result (λ halt. CountsDex text (Err halt)) }
{
    match ManifestText::read(alloc, text) {
        Ok(manifest) => Ok(manifest),
        Err(FormFault::Memory) => Err(Halt::Memory),
        Err(fault) => Err(Halt::Refused(Part::Manifest, Reason::Form(fault))),
    }
}

/// How many DEX files such a manifest says that there are.
fn count_of(alloc: Global, manifest: &ManifestText) -> Result<u32, Halt>
    ensures { CountsDex manifest.now result }
{
    match manifest.said(alloc) {
        Ok(said) => Ok(said.dex_files()),
        Err(FormFault::Memory) => Err(Halt::Memory),
        Err(fault) => Err(Halt::Refused(Part::Manifest, Reason::Form(fault))),
    }
}

/// The parts of the app in a folder, or the first refusal.
///
/// The order is `manifest.toml`, whose form says how many DEX files there are, `layouts.toml`, `declaration.toml`,
/// `lists.toml`, `classes.dex`, `classes2.dex` and so on. A file that is absent or too long is refused at once, and so
/// is a manifest that is not of its form. The manifest is read once: it is handed on with what it says.
pub fn parts_in<F: Files>(alloc: Global, files: &mut F, dir: &str) -> Result<Parts, Halt>
    ensures value { GathersAs (F.told files.old) dir.now result }
    ensures leaves { Leaves (F.told files.old) (F.told files.new) (F.fault_count files.old) (F.fault_count files.new)
        result }
    ensures file { FailsAt (IsFileIn dir.now) result }
    ensures short { IfOk result AreShort }

    // Reads of this very call gave these parts, or came to the file that is refused, of any files.
    ensures gave { HearsFolder (F.heard files.old) (F.heard files.new) dir.now result }
{
    let text = part_in(alloc, files, dir, Part::Manifest)?;
    let manifest = manifest_of(alloc, text)?;
    let count = count_of(alloc, &manifest)?;
    parts_with(alloc, files, dir, manifest, count)
}

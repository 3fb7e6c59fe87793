//! The files of an app that are handed in, read in the order in which `check` reads them.
ghost use Rattle.std.specs.Prelude.{◌≡◌, ◌≤◌, length, IfOk, IfErr};
ghost use Rattle.vet_base.specs.Outside.{held_by};
ghost use Rattle.app_folder.specs.Folder.{dexes_at, file_name, part_at, IsFileIn};
ghost use Rattle.app_folder.specs.Reading.{FailsAt, Leaves, ReadsAs};
ghost use Rattle.client_service.specs.Content.{content_at, GathersAs};

use app_folder::{Halt, dex_count, name_of};
use case_rules::Content;
use heard_files::Files;
use printed_text::FILE_LIMIT;
use std::alloc::Global;
use verdict::{Part, Reason};
use vet_base::{FileFault, Shared};

fn listed<T: Drop>(alloc: Global, items: Vec<T>) -> Result<Shared<T>, Halt>
    ensures ok { IfOk result (λ list. list ≡ items.items) }
    ensures err { IfErr result (λ halt. halt ≡ Halt.Memory) }
{
    match Shared::from_vec(alloc, items) {
        Ok(list) => Ok(list),
        Err(_) => Err(Halt::Memory),
    }
}

/// The bytes of the file of a part.
#[tactic(auto, unfolding(app_folder::specs::Folder::part_at))]
fn part_in<F: Files>(
    alloc: Global,
    files: &mut F,
    dir: &str,
    part: Part,
) -> Result<Shared<u8>, Halt>
    ensures value { ReadsAs (F.told files.old) (λ bytes. bytes) result
        (part_at (held_by (F.told files.old)) dir.now part) }
    ensures leaves { Leaves (F.told files.old) (F.told files.new) (F.fault_count files.old) (F.fault_count files.new)
        result }
    ensures file { FailsAt (λ name. name ≡ file_name dir.now part) result }
{
    let name = name_of(alloc, dir, part)?;
    match files.read(alloc, name.as_str(), FILE_LIMIT) {
        Ok(bytes) => listed(alloc, bytes),
        Err(FileFault::Absent) => Err(Halt::Refused(part, Reason::Absent)),
        Err(FileFault::TooLong) => Err(Halt::Refused(part, Reason::TooLong(FILE_LIMIT))),
        Err(FileFault::Failed) => Err(Halt::ReadFault(name)),
        Err(FileFault::Memory) => Err(Halt::Memory),
    }
}

/// The bytes of so many DEX files.
#[tactic(auto, unfolding(app_folder::specs::Folder::dexes_at, app_folder::specs::Folder::dex_row), using(vet_base::proofs::Scripts::begins, vet_base::proofs::Scripts::goes_on, vet_base::proofs::Scripts::ends, vet_base::proofs::Scripts::is_done))]
fn dexes_in<F: Files>(
    alloc: Global,
    files: &mut F,
    dir: &str,
    count: u32,
) -> Result<Shared<Shared<u8>>, Halt>
    ensures value { ReadsAs (F.told files.old) (λ dexes. (dexes, tt)) result
        (dexes_at (held_by (F.told files.old)) dir.now count) }
    ensures leaves { Leaves (F.told files.old) (F.told files.new) (F.fault_count files.old) (F.fault_count files.new)
        result }
    ensures file { FailsAt (IsFileIn dir.now) result }
    ensures count { IfOk result (λ dexes. length dexes ≡ count) }
{
    let mut dexes = Vec::new(alloc);
    for i in 0..count {
        let dex = part_in(alloc, files, dir, Part::Dex(i))?;
        dexes.push(dex)?;
    }
    listed(alloc, dexes)
}

/// The files behind the manifest, which says how many DEX files there are.
#[tactic(auto, unfolding(crate::specs::Content::content_at), using(vet_base::proofs::Scripts::run_bind))]
fn content_with<F: Files>(
    alloc: Global,
    files: &mut F,
    dir: &str,
    manifest: Shared<u8>,
    count: u32,
) -> Result<Content, Halt>
    ensures value { ReadsAs (F.told files.old) (λ content. content) result (content_at (held_by (F.told files.old))
        dir.now manifest count) }
    ensures leaves { Leaves (F.told files.old) (F.told files.new) (F.fault_count files.old) (F.fault_count files.new)
        result }
    ensures file { FailsAt (IsFileIn dir.now) result }
    ensures count { IfOk result (λ content. length content.dex ≡ count) }
{
    let layouts = part_in(alloc, files, dir, Part::Layouts)?;
    let declaration = part_in(alloc, files, dir, Part::Declaration)?;
    let dex = dexes_in(alloc, files, dir, count)?;
    Ok(Content {
        manifest,
        layouts,
        declaration,
        dex,
    })
}

/// The app in a folder, or the first refusal. It is what `check` reads but for the lists: `manifest.toml`, whose form
/// says how many DEX files there are, `layouts.toml`, `declaration.toml`, `classes.dex`, `classes2.dex` and so on. A
/// file that is absent or too long is refused at once, and so is a manifest that is not of its form.
pub(crate) fn content_in<F: Files>(alloc: Global, files: &mut F, dir: &str) -> Result<Content, Halt>
    ensures value { GathersAs (F.told files.old) dir.now result }
    ensures leaves { Leaves (F.told files.old) (F.told files.new) (F.fault_count files.old) (F.fault_count files.new)
        result }
    ensures file { FailsAt (IsFileIn dir.now) result }
    ensures dex { IfOk result (λ content. (1 ≤ length content.dex) × (length content.dex ≤ 16)) }
{
    let manifest = part_in(alloc, files, dir, Part::Manifest)?;
    let count = dex_count(alloc, manifest.as_slice())?;
    content_with(alloc, files, dir, manifest, count)
}

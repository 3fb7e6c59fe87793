//! What texts of forms say.
ghost use Rattle.std.specs.Prelude.{◌≡◌, ◌≢◌, IfOk, IfErr};
ghost use Rattle.app_machine.specs.SoundLists.{SoundLists};
ghost use Rattle.form_fields.specs.Form.{IsForm, FirstFormFault};
ghost use Rattle.office_forms.specs.Manifest.{manifest_form};
ghost use Rattle.office_forms.specs.Sound.{SoundManifest};
ghost use Rattle.store_lists.specs.Lists.{lists_form};
ghost use Rattle.form_texts.specs.Said.{manifest_of, lists_of};

use crate::Kept;
use app_machine::{Lists, Manifest};
use device_lists::DeviceLists;
use office_forms::{AppManifest, FormFault, Large, StoreLists, read_lists, read_manifest};
use std::alloc::Global;
use vet_base::{Memory, Name, Seq};

/// What a manifest says, kept.
#[derive(Drop)]
pub struct SaidManifest {
    /// What the machine is told.
    pub manifest: Kept<Manifest>,
    /// The classes that other attributes of the manifest or resources name.
    pub named: Kept<Seq<Name>>,
}

/// What lists say, kept.
#[derive(Drop)]
pub struct SaidLists {
    /// Of the library: what the machine is told.
    pub lists: Kept<Lists>,
    /// Of a device.
    pub device: Kept<DeviceLists>,
    /// How an app is judged of which more rows follow than the lists allow.
    pub large: Option<Large>,
}

fn kept_manifest(alloc: Global, read: AppManifest) -> Result<SaidManifest, Memory>
    ensures { IfOk result (λ said. manifest_of said ≡ read) }
{
    let AppManifest { manifest, named } = read;
    let manifest = Kept::new(alloc, manifest)?;
    let named = Kept::new(alloc, named)?;
    Ok(SaidManifest { manifest, named })
}

fn kept_lists(alloc: Global, read: StoreLists) -> Result<SaidLists, Memory>
    ensures { IfOk result (λ said. lists_of said ≡ read) }
{
    let StoreLists {
        lists,
        device,
        large,
    } = read;
    let lists = Kept::new(alloc, lists)?;
    let device = Kept::new(alloc, device)?;
    Ok(SaidLists {
        lists,
        device,
        large,
    })
}

/// What the text of a manifest says, which is read for that.
pub fn said_by_manifest(alloc: Global, text: &[u8]) -> Result<SaidManifest, FormFault>
    ensures form { IfOk result (λ said. IsForm manifest_form text.now (manifest_of said)) }
    ensures sound { IfOk result (λ said. SoundManifest said.manifest) }
    ensures err { IfErr result (λ e. e ≢ FormFault.Memory → FirstFormFault manifest_form text.now e) }
{
    let read = read_manifest(alloc, text)?;
    match kept_manifest(alloc, read) {
        Ok(said) => Ok(said),
        Err(Memory) => Err(FormFault::Memory),
    }
}

/// What the text of lists says, which is read for that.
pub fn said_by_lists(alloc: Global, text: &[u8]) -> Result<SaidLists, FormFault>
    ensures form { IfOk result (λ said. IsForm lists_form text.now (lists_of said)) }
    ensures sound { IfOk result (λ said. SoundLists said.lists) }
    ensures err { IfErr result (λ e. e ≢ FormFault.Memory → FirstFormFault lists_form text.now e) }
{
    let read = read_lists(alloc, text)?;
    match kept_lists(alloc, read) {
        Ok(said) => Ok(said),
        Err(Memory) => Err(FormFault::Memory),
    }
}

impl SaidManifest {
    /// How many DEX files there are.
    pub fn dex_files(&self) -> u32
        ensures { result ≡ self.now.manifest.dex_files }
    {
        self.manifest.get().dex_files
    }

    /// The same over the same storage. It takes no memory.
    pub fn copy(&self) -> Result<SaidManifest, Memory>
        ensures { IfOk result (λ said. said ≡ self.now) }
    {
        let manifest = self.manifest.copy()?;
        let named = self.named.copy()?;
        Ok(SaidManifest { manifest, named })
    }
}

impl SaidLists {
    /// The same over the same storage. It takes no memory.
    pub fn copy(&self) -> Result<SaidLists, Memory>
        ensures { IfOk result (λ said. said ≡ self.now) }
    {
        let lists = self.lists.copy()?;
        let device = self.device.copy()?;
        Ok(SaidLists {
            lists,
            device,
            large: self.large,
        })
    }
}

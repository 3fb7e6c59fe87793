//! The text of a manifest.
ghost use Rattle.std.specs.Prelude.{◌≡◌, ◌≢◌, IfOk, IfErr};
ghost use Rattle.form_fields.specs.Form.{IsForm, FirstFormFault};
ghost use Rattle.office_forms.specs.Manifest.{manifest_form};
ghost use Rattle.office_forms.specs.Sound.{SoundManifest};
ghost use Rattle.form_texts.specs.Said.{manifest_of};

use crate::said::{SaidManifest, said_by_manifest};
use office_forms::FormFault;
use std::alloc::Global;
use std::marker::Model;
use vet_base::{Memory, Shared};

/// The text of a manifest, with what it says where it was read. Contracts see the text.
#[derive(Drop)]
pub struct ManifestText {
    text: Shared<u8>,
    said: Option<SaidManifest>,
}

impl Model for ManifestText {
    ghost use Rattle.std.specs.Prelude.{List, ℕ, IfSome};
    ghost use Rattle.form_texts.specs.Said.{SaysManifest};

    ghost Value = { List ℕ };

    ghost view = { λ t. t.text };

    ghost invariant = { λ t. IfSome t.said (SaysManifest t.text) };
}

impl ManifestText {
    /// The text, which is not read yet.
    pub fn new(text: Shared<u8>) -> ManifestText
        ensures { result ≡ text }
    {
        ManifestText { text, said: None }
    }

    /// The text, which is read now, or its first fault.
    pub fn read(alloc: Global, text: Shared<u8>) -> Result<ManifestText, FormFault>
        ensures ok { IfOk result (λ manifest. manifest ≡ text) }
        ensures err { IfErr result (λ e. e ≢ FormFault.Memory → FirstFormFault manifest_form text e) }
    {
        match said_by_manifest(alloc, text.as_slice()) {
            Ok(said) => Ok(ManifestText {
                text,
                said: Some(said),
            }),
            Err(fault) => Err(fault),
        }
    }

    pub fn as_slice(&self) -> &[u8]
        ensures { result.now ≡ self.now }
    {
        self.text.as_slice()
    }

    /// What the text says. It is read only where it was not read before.
    pub fn said(&self, alloc: Global) -> Result<SaidManifest, FormFault>
        ensures form { IfOk result (λ said. IsForm manifest_form self.now (manifest_of said)) }
        ensures sound { IfOk result (λ said. SoundManifest said.manifest) }
        ensures err { IfErr result (λ e. e ≢ FormFault.Memory → FirstFormFault manifest_form self.now e) }
    {
        match &self.said {
            Some(said) => match said.copy() {
                Ok(said) => Ok(said),
                Err(Memory) => Err(FormFault::Memory),
            },
            None => said_by_manifest(alloc, self.text.as_slice()),
        }
    }
}

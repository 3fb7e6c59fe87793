use form_texts::{ListsText, ManifestText};
use vet_base::{Seq, Shared};

/// The bytes of the files of an app, and those of the lists by which it is judged.
#[derive(Drop)]
pub struct Parts {
    pub manifest: ManifestText,
    pub layouts: Shared<u8>,
    pub declaration: Shared<u8>,
    pub lists: ListsText,
    /// `classes.dex` first, then `classes2.dex` and so on.
    pub dex: Seq<Shared<u8>>,
}

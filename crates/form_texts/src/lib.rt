//! Texts of forms with what they say: the manifest of an app and the lists of an office, of which each is read once,
//! whoever asks for it how often.
#![tactic(auto)]

mod kept;
mod lists_text;
mod manifest_text;
mod said;

pub use kept::Kept;
pub use lists_text::ListsText;
pub use manifest_text::ManifestText;
pub use said::{SaidLists, SaidManifest};

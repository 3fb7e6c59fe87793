//! Reads the forms that a developer and the store hand in as TOML: manifest, layouts, declaration,
//! lists and the office file, each to its value or to the first test that it fails.
#![tactic(auto)]

mod declaration;
mod law;
mod layouts;
mod manifest;
mod office;

pub use declaration::read_declaration;
pub use form_fields::{Fault, FormFault, Key, Section};
pub use law::one_form_or_fault;
pub use layouts::read_layouts;
pub use manifest::{AppManifest, read_manifest};
pub use office::read_office;
pub use store_lists::{Large, StoreLists, read_lists};

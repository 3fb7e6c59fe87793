//! Generated apps: a listing drawn from a seed, the DEX file of it, and the forms that stand beside it.
#![tactic(auto)]

mod body;
mod draws;
mod forms;
mod instructions;
mod law;
mod lines;
mod listing;
mod made;
mod names;

pub use draws::Draws;
pub use forms::{declaration_text, layouts_text, lists_text, manifest_text};
pub use law::made_listings_have_files;
pub use listing::made_listing;
pub use made::made_dex;

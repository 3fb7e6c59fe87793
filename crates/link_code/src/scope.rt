//! What the names of instructions are resolved in.

use app_model::App;
use dex_tables::Dex;
use link_listing::{Fields, Triple};

/// The app before its methods are put in, the fields of the files, the statics that instructions name, and the file in
/// which the instruction stands.
#[derive(Clone, Copy)]
pub struct Scope<'a> {
    pub app: &'a App,
    pub fields: &'a Fields,
    pub statics: &'a [Triple],
    pub dex: &'a Dex,
}

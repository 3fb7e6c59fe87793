//! How the TOML text of a form is read: its tree, the keys and fields of its tables, each with its test, and names that
//! may not stand twice; and the fault of a text that is no form.
#![tactic(auto)]

mod distinct;
mod fault;
mod fields;
mod index;
mod shape;
mod spelling;
mod told;
mod tree;
mod words;

pub use distinct::{names_once, once, with_new};
pub use fault::Fault;
pub use fields::{
    maybe_text_at, maybe_texts_at, number_at, table_in, tables_at, text_at, texts_at, texts_in,
    word_at,
};
pub use index::Index;
pub use shape::{Shape, all_have, item_at};
pub use spelling::Spelling;
pub use told::{FormFault, told_of};
pub use tree::{items_in, known, read_tree, value_at};
pub use words::{Key, Section};

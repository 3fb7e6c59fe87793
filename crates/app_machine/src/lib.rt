//! What an app and the lists of the library are, and the abstract machine that runs the app.
//!
//! The types of this crate are plain data: whoever makes them decides what they hold. The
//! machine's definitions stand in `specs/`, one file a part of the machine.
#![tactic(auto)]

mod app;
mod call;
mod component;
mod lists;
mod method;
mod papers;
mod summary;

pub use app::{App, Class, Key};
pub use call::{CallKind, MethodRef, Proto};
pub use component::{Component, Kind};
pub use lists::{Callback, FallbackWord, LibClass, Lists, StaticRow, SummaryId};
pub use method::{Act, Method, Step};
pub use papers::{Declaration, Layouts, Manifest, Word};
pub use summary::{Gives, Summary};

//! Indexes that are made once and asked at each call: which row or default of the lists a library
//! call takes, which of these rows give back what the library has, and which steps of the app read a static.
#![tactic(auto)]

mod gather;
mod handed;
mod keys;
mod library_index;
mod numbers;
mod static_readers;
mod walk;

pub use library_index::LibraryIndex;
pub use static_readers::{Reader, StaticReaders};

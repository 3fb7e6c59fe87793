//! Access paths: which lists of keys lead from a value to a labelled one. This crate alone knows
//! how many keys a path has.
//!
//! Arzt et al., FlowDroid, PLDI 2014, section 4.2: access paths of bounded length.
#![tactic(auto)]

mod keys;
mod path;
mod path_keys;

ghost use Rattle.access_path.specs.Laws.{PathLaws};
ghost use Rattle.access_path.specs.Order.{PathOrder};

pub use keys::MOST_KEYS;
pub use path::{Path, covers, cut, rest};
pub use path_keys::PathKeys;

/// The laws by which everybody else knows paths.
///
/// What a path covers, the path with a key in front covers behind that key; what it covers behind a
/// key, the path without its first key covers; the empty path covers no keys; a path that covers no
/// keys has none; a path with a key in front has only that key and its own, and one without its
/// first key only its own.
pub fn paths_keep_their_laws()
    ensures { PathLaws }
{}

/// The order of paths tells all paths apart, and it is that of their numbers: how many keys, plus
/// 128 where the path is open, and then the keys.
pub fn paths_stand_in_order()
    ensures { PathOrder }
{}

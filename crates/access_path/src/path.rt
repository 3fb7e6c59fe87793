ghost use Rattle.std.specs.Prelude.{◌≡◌, ◌↔◌, ◌<◌, ◌≤◌, [], IsTrue, MatchOption, length};
ghost use Rattle.access_path.specs.PathKeys.{keys_left};
ghost use Rattle.access_path.specs.Paths.{Covers, IsPathOf, keys_of, cut as cut_path, rest as rest_of, empty_path};
ghost use Rattle.access_path.specs.declared.keys.TheConstants.{MOST_KEYS as most_keys};

use crate::PathKeys;
use crate::keys::{Keys, MOST_KEYS};
use vet_base::KeyId;

/// A closed path stands for its own keys alone, an open one for every list that begins with them.
/// It has at most `MOST_KEYS` keys.
///
/// The order is that of the path's bytes in a certificate: the number of keys, plus 128 where the
/// path is open, and then the keys.
#[derive(Clone, Copy, Debug, PartialEq, Eq, PartialOrd, Ord, Hash)]
pub struct Path {
    is_open: bool,
    keys: Keys,
}

impl Path {
    /// No keys, closed.
    pub fn empty() -> Path
        ensures { result ≡ empty_path }
    {
        Path {
            is_open: false,
            keys: Keys::Zero,
        }
    }

    /// The path of these keys; `None` exactly where they are more than `MOST_KEYS`.
    pub fn from_keys(is_open: bool, keys: &[KeyId]) -> Option<Path>
        ensures { MatchOption result (most_keys < length keys.now) (IsPathOf is_open keys.now) }
    {
        let keys = Keys::from_slice(keys)?;
        Some(Path { is_open, keys })
    }

    /// The number of keys.
    pub fn len(&self) -> usize
        ensures count { result ≡ length (keys_of self.now) }
        ensures few { result ≤ most_keys }
    {
        self.keys.len()
    }

    pub fn is_empty(&self) -> bool
        ensures { IsTrue result ↔ (keys_of self.now ≡ []) }
    {
        self.keys.len() == 0
    }

    /// Whether keys that begin with the path's are covered too.
    pub fn is_open(&self) -> bool
        ensures { result ≡ self.now.is_open }
    {
        self.is_open
    }

    /// The keys, the first one first.
    pub fn keys(&self) -> PathKeys
        ensures { keys_left result ≡ keys_of self.now }
    {
        PathKeys::new(self.keys)
    }
}

/// The path with the key in front. Where that makes one key too many, the last is dropped and the
/// path is open.
#[tactic(auto, unfolding(crate::specs::Paths::cut))]
pub fn cut(key: KeyId, path: &Path) -> Path
    ensures { result ≡ cut_path key path.now }
{
    Path {
        is_open: path.is_open || path.len() == MOST_KEYS,
        keys: path.keys.behind(key),
    }
}

/// The path without its first key, where that is this key; an open path without keys as it is.
#[tactic(auto, unfolding(crate::specs::Paths::rest))]
pub fn rest(path: &Path, key: KeyId) -> Option<Path>
    ensures { result ≡ rest_of path.now key }
{
    match path.keys.first_and_rest() {
        None => { if path.is_open { Some(*path) } else { None } }
        Some((first, keys)) => {
            if first.0 == key.0 {
                Some(Path {
                    is_open: path.is_open,
                    keys,
                })
            } else {
                None
            }
        }
    }
}

/// Whether the path stands for the list of keys.
#[tactic(auto, unfolding(crate::specs::Paths::Covers))]
pub fn covers(path: &Path, keys: &[KeyId]) -> bool
    ensures { IsTrue result ↔ Covers path.now keys.now }
{
    if path.is_open {
        path.keys.begin(keys)
    } else {
        path.keys.are_all(keys)
    }
}

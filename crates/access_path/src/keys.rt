//! The keys of a path. How many there are at most is said here alone.
ghost use Rattle.std.specs.Prelude.{◌≡◌, ◌↔◌, ◌<◌, ◌≤◌, ◌∷◌, IsTrue, MatchOption, length};
ghost use Rattle.access_path.specs.Keys.{Begins, keys_in, first_keys, first_and_rest};
ghost use Rattle.access_path.specs.declared.keys.TheConstants.{MOST_KEYS as most_keys};

use vet_base::KeyId;

/// The greatest number of keys of a path.
pub const MOST_KEYS: usize = 5;

/// At most `MOST_KEYS` keys, the first one first.
///
/// The order is that of the number of keys, and then that of the keys.
#[derive(Clone, Copy, Debug, PartialEq, Eq, PartialOrd, Ord, Hash)]
pub(crate) enum Keys {
    Zero,
    One(KeyId),
    Two(KeyId, KeyId),
    Three(KeyId, KeyId, KeyId),
    Four(KeyId, KeyId, KeyId, KeyId),
    Five(KeyId, KeyId, KeyId, KeyId, KeyId),
}

impl Keys {
    /// These keys, where they are not too many.
    pub(crate) fn from_slice(keys: &[KeyId]) -> Option<Keys>
        ensures { MatchOption result (most_keys < length keys.now) (λ own. keys_in own ≡ keys.now) }
    {
        match keys {
            [] => Some(Keys::Zero),
            [a] => Some(Keys::One(*a)),
            [a, b] => Some(Keys::Two(*a, *b)),
            [a, b, c] => Some(Keys::Three(*a, *b, *c)),
            [a, b, c, d] => Some(Keys::Four(*a, *b, *c, *d)),
            [a, b, c, d, e] => Some(Keys::Five(*a, *b, *c, *d, *e)),
            _ => None,
        }
    }

    /// How many they are.
    pub(crate) fn len(self) -> usize
        ensures count { result ≡ length (keys_in self) }
        ensures few { result ≤ most_keys }
    {
        match self {
            Keys::Zero => 0,
            Keys::One(..) => 1,
            Keys::Two(..) => 2,
            Keys::Three(..) => 3,
            Keys::Four(..) => 4,
            Keys::Five(..) => 5,
        }
    }

    /// The key in front of these. Where that makes one too many, the last is dropped.
    pub(crate) fn behind(self, key: KeyId) -> Keys
        ensures { result ≡ first_keys (key ∷ keys_in self) }
    {
        match self {
            Keys::Zero => Keys::One(key),
            Keys::One(a) => Keys::Two(key, a),
            Keys::Two(a, b) => Keys::Three(key, a, b),
            Keys::Three(a, b, c) => Keys::Four(key, a, b, c),
            Keys::Four(a, b, c, d) | Keys::Five(a, b, c, d, _) => Keys::Five(key, a, b, c, d),
        }
    }

    /// The first key, and those behind it.
    pub(crate) fn first_and_rest(self) -> Option<(KeyId, Keys)>
        ensures { result ≡ first_and_rest (keys_in self) }
    {
        match self {
            Keys::Zero => None,
            Keys::One(a) => Some((a, Keys::Zero)),
            Keys::Two(a, b) => Some((a, Keys::One(b))),
            Keys::Three(a, b, c) => Some((a, Keys::Two(b, c))),
            Keys::Four(a, b, c, d) => Some((a, Keys::Three(b, c, d))),
            Keys::Five(a, b, c, d, e) => Some((a, Keys::Four(b, c, d, e))),
        }
    }

    /// Whether the list begins with these keys.
    pub(crate) fn begin(self, keys: &[KeyId]) -> bool
        ensures { IsTrue result ↔ Begins (keys_in self) keys.now }
    {
        match (self, keys) {
            (Keys::Zero, _) => true,
            (Keys::One(a), [k, ..]) => a.0 == k.0,
            (Keys::Two(a, b), [k, l, ..]) => a.0 == k.0 && b.0 == l.0,
            (Keys::Three(a, b, c), [k, l, m, ..]) => a.0 == k.0 && b.0 == l.0 && c.0 == m.0,
            (Keys::Four(a, b, c, d), [k, l, m, n, ..]) => {
                a.0 == k.0 && b.0 == l.0 && c.0 == m.0 && d.0 == n.0
            }
            (Keys::Five(a, b, c, d, e), [k, l, m, n, o, ..]) => {
                a.0 == k.0 && b.0 == l.0 && c.0 == m.0 && d.0 == n.0 && e.0 == o.0
            }
            _ => false,
        }
    }

    /// Whether the list is these keys.
    pub(crate) fn are_all(self, keys: &[KeyId]) -> bool
        ensures { IsTrue result ↔ (keys_in self ≡ keys.now) }
    {
        self.len() == keys.len() && self.begin(keys)
    }
}

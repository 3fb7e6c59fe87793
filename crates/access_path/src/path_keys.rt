ghost use Rattle.std.specs.Prelude.{◌≡◌};
ghost use Rattle.std.specs.Iterator.{YieldsFirst, item_count};
ghost use Rattle.access_path.specs.Keys.{keys_in};
ghost use Rattle.access_path.specs.PathKeys.{keys_left};

use crate::keys::Keys;
use vet_base::KeyId;

/// The keys of a path, the first one first.
#[derive(Clone, Copy, Drop)]
pub struct PathKeys {
    left: Keys,
}

impl PathKeys {
    pub(crate) fn new(keys: Keys) -> PathKeys
        ensures { keys_left result ≡ keys_in keys }
    {
        PathKeys { left: keys }
    }
}

impl Iterator for PathKeys {
    type Item = KeyId;

    ghost next_gives = { YieldsFirst keys_left };

    ghost remaining = { item_count keys_left };

    fn next(&mut self) -> Option<KeyId> {
        let (first, left) = self.left.first_and_rest()?;
        self.left = left;
        Some(first)
    }
}

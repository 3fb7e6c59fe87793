//! Keys in their order, each found by an ordered map.
ghost use Rattle.std.specs.Prelude.{◌≡◌, ◌<◌, ◌++◌, [], ◌∷◌, length, IfOk, IfSome};
ghost use Rattle.form_fields.specs.Places.{place_of};

use std::alloc::Global;
use std::collections::BTreeMap;
use std::marker::Model;
use vet_base::Memory;

/// Keys in the order in which they were added. Contracts see the list.
#[derive(Drop)]
pub struct Index<K: Ord> {
    keys: Vec<K>,
    places: BTreeMap<K, usize>,
}

impl<K: Ord> Model for Index<K> {
    ghost use Rattle.std.specs.Prelude.{List};
    ghost use Rattle.form_fields.specs.Places.{HasPlaces};

    ghost Value = { List K };

    ghost view = { λ x. x.keys.items };

    ghost invariant = { λ x. HasPlaces K.cmp K.eq x.places x.keys.items };
}

impl<K: Ord> Index<K> {
    /// No keys.
    #[tactic(auto, unfolding(crate::specs::Places::place_of))]
    pub fn new(alloc: Global) -> Self
        ensures { result ≡ [] }
    {
        Index {
            keys: Vec::new(alloc),
            places: BTreeMap::new(alloc),
        }
    }

    /// How many keys there are.
    pub fn len(&self) -> usize
        ensures { result ≡ length self.now }
    {
        self.keys.len()
    }

    /// The keys in their order.
    pub fn as_keys(&self) -> &[K]
        ensures { result.now ≡ self.now }
    {
        &self.keys
    }

    /// Where the key stands first.
    #[tactic(auto, using(crate::proofs::Placing::is_within))]
    pub fn place_of(&self, key: &K) -> Option<usize>
        ensures place { result ≡ place_of K.eq key.now self.now }
        ensures within { IfSome result (λ i. i < length self.now) }
    {
        self.places.get(key).copied()
    }
}

impl<K: Ord + Drop> Index<K> {
    /// The keys in their order.
    pub fn into_keys(self) -> Vec<K>
        ensures { result.items ≡ self }
    {
        self.keys
    }

    /// The index with one key more, given twice.
    pub fn with(self, key: K, twin: K) -> Result<Self, Memory>
        requires { key ≡ twin }
        ensures { IfOk result (λ x. x ≡ self ++ key ∷ []) }
    {
        let Index {
            mut keys,
            mut places,
        } = self;
        if places.get(&key).is_none() {
            places.insert(key, keys.len())?;
        }
        keys.push(twin)?;
        Ok(Index { keys, places })
    }
}

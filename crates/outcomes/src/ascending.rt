//! Lists in ascending order.

ghost use Rattle.std.specs.Prelude.{◌≡◌, IfOk};
ghost use Rattle.outcomes.specs.Ascending.{ascending};

use std::alloc::Global;
use std::collections::BTreeSet;
use vet_base::Memory;

/// The set of the items. Want of memory is the only error.
#[tactic(auto, using(crate::proofs::Sorting::none_yet, crate::proofs::Sorting::one_more))]
pub fn set_of<K: Ord + Drop>(alloc: Global, items: Vec<K>) -> Result<BTreeSet<K>, Memory>
    ensures { IfOk result (λ s. s.keys ≡ ascending K.cmp items.items) }
{
    let mut set = BTreeSet::new(alloc);
    for item in items {
        set.insert(item)?;
    }
    Ok(set)
}

/// The items in ascending order, each once. Want of memory is the only error.
pub fn ascending_of<K: Ord + Drop>(alloc: Global, items: Vec<K>) -> Result<Vec<K>, Memory>
    ensures { IfOk result (λ v. v.items ≡ ascending K.cmp items.items) }
{
    let set = set_of(alloc, items)?;
    let list: Vec<K> = set.into_iter().collect(alloc)?;
    Ok(list)
}

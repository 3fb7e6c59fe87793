//! The keys of the app.

ghost use Rattle.std.specs.Prelude.{◌≡◌, ◌++◌, IfOk, OnOk};
ghost use Rattle.app_link.specs.Keys.{all_keys, key_if, key_unless};

use app_model::Key;
use link_listing::{Fields, Triple};
use std::alloc::Global;
use vet_base::{Memory, Seq};

#[tactic(auto, unfolding(crate::specs::Keys::key_if))]
fn add_key(keys: &mut Vec<Key>, field: &Triple, is_static: bool) -> Result<(), Memory>
    ensures { OnOk result (keys.new.items ≡ keys.old.items ++ key_if (field.now, is_static)) }
{
    if !is_static {
        let class = field.0.copy()?;
        let name = field.1.copy()?;
        let kind = field.2.copy()?;
        keys.push(Key::Field(class, name, kind))?;
    }
    Ok(())
}

/// The key of all elements, and then one for each instance field.
#[tactic(auto, unfolding(crate::specs::Keys::all_keys))]
pub fn keys_of(alloc: Global, fields: &Fields) -> Result<Seq<Key>, Memory>
    ensures { IfOk result (λ keys. keys ≡ all_keys fields.now.entries) }
{
    let mut keys = Vec::new(alloc);
    keys.push(Key::Elem)?;
    for (field, is_static) in fields {
        add_key(&mut keys, field, *is_static)?;
    }
    Ok(Seq::from_vec(keys))
}

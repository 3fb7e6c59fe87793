ghost use Rattle.std.specs.Prelude.{◌≡◌, ◌<◌, ◌==◌, [], length, IfOk, slice_index_or, slice_get};
ghost use Rattle.std.specs.Option.{option_copied};

use crate::Memory;
use std::alloc::Global;
use std::marker::Model;
use std::sync::Arc;

/// A list in a field, of which copies are made. Contracts see
/// the list. Copies share its storage; an empty list has none.
#[derive(Debug, Drop)]
pub struct Shared<T> {
    items: Option<Arc<Vec<T>>>,
}

impl<T> Model for Shared<T> {
    ghost use Rattle.std.specs.Prelude.{List};
    ghost use Rattle.std.specs.Coded.{coded_list};
    ghost use Rattle.vet_base.specs.Shared.{items_of};

    ghost Value = { List T };

    ghost coded = { coded_list T.code };

    ghost view = { λ s. items_of s.items };
}

impl<T> Shared<T> {
    /// The empty list. It takes no memory.
    pub fn new() -> Self
        ensures { result ≡ [] }
    {
        Shared { items: None }
    }

    /// The same list in constant time and over the same storage, so that it takes no memory. It fails only where
    /// 2^63 - 1 copies of it are held.
    pub fn copy(&self) -> Result<Shared<T>, Memory>
        ensures { IfOk result (λ s. s ≡ self.now) }
    {
        match &self.items {
            Some(items) => Ok(Shared {
                items: Some(Arc::try_clone(items)?),
            }),
            None => Ok(Shared { items: None }),
        }
    }

    pub fn len(&self) -> usize
        ensures { result ≡ length self.now }
    {
        self.as_slice().len()
    }

    pub fn is_empty(&self) -> bool
        ensures { result ≡ (length self.now == 0) }
    {
        self.as_slice().is_empty()
    }

    pub fn as_slice(&self) -> &[T]
        ensures { result.now ≡ self.now }
    {
        match &self.items {
            Some(items) => items.as_slice(),
            None => &[],
        }
    }

    /// The item at an index that is known to be there.
    pub fn at(&self, i: usize) -> &T
        requires { i < length self.now }
        ensures { result.now ≡ slice_index_or self.now i result.now }
    {
        &self.as_slice()[i]
    }

    /// The item at an index, where there is one.
    pub fn get(&self, i: usize) -> Option<&T>
        ensures { option_copied result ≡ slice_get self.now i }
    {
        self.as_slice().get(i)
    }
}

impl<T: Drop> Shared<T> {
    /// The list of these items.
    pub fn from_vec(alloc: Global, items: Vec<T>) -> Result<Shared<T>, Memory>
        ensures { IfOk result (λ s. s ≡ items.items) }
    {
        if items.is_empty() {
            return Ok(Shared { items: None });
        }
        Ok(Shared {
            items: Some(Arc::new(alloc, items)?),
        })
    }
}

ghost use Rattle.std.specs.Prelude.{◌≡◌, IfOk};

use std::alloc::Global;
use std::marker::Model;
use std::sync::Arc;
use vet_base::Memory;

/// A value of which copies are made. Contracts see the value. Copies share its storage.
#[derive(Drop)]
pub struct Kept<T> {
    value: Arc<T>,
}

impl<T> Model for Kept<T> {
    ghost Value = { T };

    ghost coded = { T.code };

    ghost view = { λ k. k.value.value };
}

impl<T> Kept<T> {
    pub fn get(&self) -> &T
        ensures { result.now ≡ self.now }
    {
        &self.value
    }

    /// The same value in constant time and over the same storage, so that it takes no memory. It fails only where
    /// 2^63 - 1 copies of it are held.
    pub fn copy(&self) -> Result<Kept<T>, Memory>
        ensures { IfOk result (λ k. k ≡ self.now) }
    {
        Ok(Kept {
            value: Arc::try_clone(&self.value)?,
        })
    }
}

impl<T: Drop> Kept<T> {
    pub fn new(alloc: Global, value: T) -> Result<Kept<T>, Memory>
        ensures { IfOk result (λ k. k ≡ value) }
    {
        Ok(Kept {
            value: Arc::new(alloc, value)?,
        })
    }
}

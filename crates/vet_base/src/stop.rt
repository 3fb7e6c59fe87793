ghost use Rattle.std.specs.Prelude.{◌≡◌};
ghost use Rattle.vet_base.specs.declared.stop.Stop.TheVariants.{Memory as OutOfMemory};

use crate::Memory;
use std::alloc::{AllocError, AllocFailed};

/// Why a reading stopped: want of memory, or its first fault.
#[derive(Drop)]
pub enum Stop<F> {
    Memory,
    Fault(F),
}

impl<F> From<AllocError> for Stop<F> {
    ghost from_gives = { λ _ e. e ≡ OutOfMemory };

    fn from(_e: AllocError) -> Stop<F> {
        Stop::Memory
    }
}

impl<F, T: Drop> From<AllocFailed<T>> for Stop<F> {
    ghost from_gives = { λ _ e. e ≡ OutOfMemory };

    fn from(_e: AllocFailed<T>) -> Stop<F> {
        Stop::Memory
    }
}

impl<F> From<Memory> for Stop<F> {
    ghost from_gives = { λ _ e. e ≡ OutOfMemory };

    fn from(_e: Memory) -> Stop<F> {
        Stop::Memory
    }
}

ghost use Rattle.std.specs.Prelude.{◌≡◌};
ghost use Rattle.dex_maker.specs.declared.fault.MakeFault.TheVariants.{Memory as make_memory};

use std::alloc::{AllocError, AllocFailed};
use vet_base::{Memory, Name};

/// An id table of a DEX file.
#[derive(Clone, Copy)]
pub enum IdTable {
    Strings,
    Types,
    Protos,
    Fields,
    Methods,
}

/// Why no file was made of a listing.
#[derive(Drop)]
pub enum MakeFault {
    /// The table of that name, the first such one in the order of the header, needs more rows than it may have.
    TooMany(Name),
    /// This line of this method, numbered from 0 over all methods
    /// of the listing, does not fit its instruction's format.
    Range(u32, u32),
    /// Memory ran out.
    Memory,
}

impl From<Memory> for MakeFault {
    ghost from_gives = { λ _ e. e ≡ make_memory };

    fn from(_e: Memory) -> MakeFault {
        MakeFault::Memory
    }
}

impl From<AllocError> for MakeFault {
    ghost from_gives = { λ _ e. e ≡ make_memory };

    fn from(_e: AllocError) -> MakeFault {
        MakeFault::Memory
    }
}

impl<T: Drop> From<AllocFailed<T>> for MakeFault {
    ghost from_gives = { λ _ e. e ≡ make_memory };

    fn from(_e: AllocFailed<T>) -> MakeFault {
        MakeFault::Memory
    }
}

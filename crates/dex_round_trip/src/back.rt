ghost use Rattle.std.specs.Prelude.{◌≡◌, ◌⊎◌, Some, IfOk, IfErr};
ghost use Rattle.dex_maker.specs.declared.fault.MakeFault.TheVariants.{Memory as want_of_memory};
ghost use Rattle.dex_maker.specs.Made.{fault_of};
ghost use Rattle.dex_round_trip.specs.Listings.{dex_of, CanBeRead};

use crate::law::listings_read_again;
use dex_maker::{Listing, MakeFault, make_dex};
use dex_reader::{DexFault, read_dex};
use dex_tables::Dex;
use std::alloc::Global;

/// The one fault of the reader that a made file leaves.
fn memory_alone(fault: DexFault) -> MakeFault
    requires { fault ≡ DexFault.Memory }
    ensures { result ≡ MakeFault.Memory }
{
    match fault {
        DexFault::Memory => MakeFault::Memory,
        _ => unreachable!(),
    }
}

/// Makes the file of a listing and reads it: what is read is the listing's tables, and its classes in its order.
///
/// The faults are those of `make_dex`: no made file is refused.
pub fn read_back(alloc: Global, listing: &Listing) -> Result<Dex, MakeFault>
    requires { CanBeRead listing.now }
    ensures read { IfOk result (λ dex. dex ≡ dex_of listing.now) }
    ensures fault { IfErr result (λ e. (e ≡ want_of_memory) ⊎ (fault_of listing.now ≡ Some e)) }
{
    let bytes = make_dex(alloc, listing)?;
    listings_read_again();
    match read_dex(alloc, &bytes) {
        Ok(dex) => Ok(dex),
        Err(fault) => Err(memory_alone(fault)),
    }
}

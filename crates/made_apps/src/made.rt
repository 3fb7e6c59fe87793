ghost use Rattle.std.specs.Prelude.{◌≡◌, ◌<◌, ◌≤◌, IfOk};
ghost use Rattle.dex_maker.specs.declared.fault.MakeFault.TheVariants.{Memory as want_of_memory};
ghost use Rattle.dex_maker.specs.Made.{dex_bytes};
ghost use Rattle.made_apps.specs.Made.{made};

use crate::law::made_listings_have_files;
use crate::listing::made_listing;
use dex_maker::{MakeFault, make_dex};
use std::alloc::Global;
use vet_base::Memory;

/// The one fault that a generated listing leaves.
fn memory_alone(fault: MakeFault) -> Memory
    requires { fault ≡ want_of_memory }
{
    match fault {
        MakeFault::Memory => Memory,
        _ => unreachable!(),
    }
}

/// The DEX file of the app that is drawn from a seed, with so many drawn methods. It fails for want of memory alone.
pub fn made_dex(alloc: Global, seed: u32, size: u32) -> Result<Vec<u8>, Memory>
    requires seed { seed < 2147483648 }
    requires some { 1 ≤ size }
    requires most { size ≤ 2000 }
    ensures { IfOk result (λ bytes. bytes.items ≡ dex_bytes (made seed size)) }
{
    let listing = made_listing(alloc, seed, size)?;
    made_listings_have_files();
    match make_dex(alloc, &listing) {
        Ok(bytes) => Ok(bytes),
        Err(fault) => Err(memory_alone(fault)),
    }
}

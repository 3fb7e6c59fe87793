ghost use Rattle.std.specs.Prelude.{◌≡◌, IfOk, IfErr, OnErr};
ghost use Rattle.dex_tables.specs.declared.dex.Dex.{Dex as DexValue};
ghost use Rattle.dex_reader.specs.Dex.{IsDex, ExactlyOne};
ghost use Rattle.dex_reader.specs.Sound.{SoundDex};
ghost use Rattle.dex_reader.specs.Told.{IsToldOf};

use crate::reading::dex_of;
use crate::told::{DexFault, told_of};
use dex_tables::Dex;
use std::alloc::Global;
use vet_base::Stop;

/// Reads the bytes of one DEX file of version 035 (Android documentation, "Dalvik executable format").
///
/// Bytes behind the file's own size are not looked at, nor are checksum, signature, link and map, debug data,
/// annotations, static values, the lengths of strings and their MUTF-8 form. Items may overlap. Limits: 65,536 classes,
/// 400,000 fields and methods in class data, 4,000,000 entries of type lists, 33,554,432 bytes of names, 8,388,608 code
/// units, and 1,000,000 try items, handlers and pairs, each pair once more for each try that it belongs to.
///
/// An error is the fault of the first test that fails, in the order of the file: header, tables with their names and
/// type lists, then class data with the code items.
pub fn read_dex(alloc: Global, bytes: &[u8]) -> Result<Dex, DexFault>
    ensures found { IfOk result (λ d. IsDex bytes.now d) }
    ensures sound { IfOk result (λ d. SoundDex d) }
    ensures fault { IfErr result (λ e. IsToldOf bytes.now e) }

    // A file in which this stands is read, unless memory runs out.
    ensures only { (d : DexValue) → IsDex bytes.now d → OnErr result (result ≡ Err DexFault.Memory) }

    // Bytes that are no DEX file have one first fault, and no bytes are both.
    ensures law { ExactlyOne bytes.now }
{
    match dex_of(alloc, bytes) {
        Ok(dex) => Ok(dex),
        Err(Stop::Memory) => Err(DexFault::Memory),
        Err(Stop::Fault(fault)) => Err(told_of(alloc, fault)),
    }
}

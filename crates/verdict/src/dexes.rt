//! What stands in the DEX files.

ghost use Rattle.std.specs.Prelude.{◌≡◌, ◌<◌, ◌+◌, ◌++◌, [], ◌∷◌, All, IfOk, IfErr, length, take};
ghost use Rattle.dex_reader.specs.Sound.{SoundDex};
ghost use Rattle.verdict.specs.Halts.{Halts, HaltsFault};
ghost use Rattle.verdict.specs.OneVerdict.{RefusesOnly};
ghost use Rattle.verdict.specs.Refuses.{AreDex, HasPapers};

use crate::laws::lower_laws;
use crate::papers::{Halt, Papers, Refusal};
use crate::{Part, Parts, Reason};
use dex_reader::{DexFault, read_dex};
use dex_tables::Dex;
use std::alloc::Global;
use vet_base::Stop;

fn halt_of(i: u32, fault: DexFault) -> Halt
    ensures { HaltsFault i fault result }
{
    match fault {
        DexFault::Memory => Stop::Memory,
        fault => Stop::Fault(Refusal {
            part: Part::Dex(i),
            reason: Reason::Dex(fault),
        }),
    }
}

/// What stands in the DEX file of that number, behind those before it.
#[tactic(auto, using(crate::proofs::Halting::of_dex, crate::proofs::Halting::one_more))]
fn dex_at(
    alloc: Global,
    parts: &Parts,
    papers: &Papers,
    before: &[Dex],
    i: u32,
) -> Result<Dex, Halt>
    requires papers { HasPapers parts.now papers.now }
    requires before { AreDex (take i parts.now.dex) before.now }
    requires within { i < length parts.now.dex }
    ensures ok { IfOk result (λ d. AreDex (take (i + 1) parts.now.dex) (before.now ++ d ∷ [])) }
    ensures sound { IfOk result SoundDex }
    ensures err { IfErr result (λ h. Halts (RefusesOnly parts.now) h) }
{
    lower_laws();
    let file = parts.dex.at(i as usize);
    match read_dex(alloc, file.as_slice()) {
        Ok(dex) => Ok(dex),
        Err(fault) => Err(halt_of(i, fault)),
    }
}

/// What stands in the DEX files, or the refusal of the first that is none.
pub fn dexes_of(alloc: Global, parts: &Parts, papers: &Papers) -> Result<Vec<Dex>, Halt>
    requires { HasPapers parts.now papers.now }
    ensures ok { IfOk result (λ ds. AreDex parts.now.dex ds.items) }
    ensures sound { IfOk result (λ ds. All SoundDex ds.items) }
    ensures err { IfErr result (λ h. Halts (RefusesOnly parts.now) h) }
{
    let mut dexes = Vec::new(alloc);
    let count = papers.dex_files();
    for i in 0..count {
        let dex = dex_at(alloc, parts, papers, &dexes, i)?;
        dexes.push(dex)?;
    }
    Ok(dexes)
}

//! The app that the parts are.

ghost use Rattle.std.specs.Prelude.{◌≡◌, ◌⊎◌, All, IfOk, IfErr, OnOk};
ghost use Rattle.app_link.specs.IsApp.{IsApp};
ghost use Rattle.app_link.specs.OneAnswer.{OnlyApp};
ghost use Rattle.app_machine.specs.Sound.{SoundApp};
ghost use Rattle.app_machine.specs.SoundLists.{SoundLists};
ghost use Rattle.dex_reader.specs.Sound.{SoundDex};
ghost use Rattle.link_access.specs.Access.{accesses_in};
ghost use Rattle.office_forms.specs.Sound.{SoundManifest, SoundLayouts};
ghost use Rattle.verdict.specs.Halts.{Halts, HaltsLink};
ghost use Rattle.verdict.specs.Linked.{IsLinked};
ghost use Rattle.verdict.specs.OneVerdict.{RefusesOnly};
ghost use Rattle.verdict.specs.Refuses.{AreDex, HasPapers};

use crate::dexes::dexes_of;
use crate::laws::lower_laws;
use crate::papers::{Halt, Papers, Refusal, papers_of};
use crate::{Part, Parts, Reason};
use app_link::{LinkFault, link};
use app_model::App;
use dex_tables::Dex;
use link_access::{Accesses, accesses_of};
use std::alloc::Global;
use vet_base::Stop;

/// What the forms say, and the app.
#[derive(Drop)]
pub struct Linked {
    pub papers: Papers,
    pub app: App,
    /// Who sees the members of its classes.
    pub access: Accesses,
}

/// An app, and who sees the members of its classes.
#[derive(Drop)]
struct SeenApp {
    app: App,
    access: Accesses,
}

/// Gives back the memory of an app and of its papers. Where that stands beside what is known of them, it is dear to
/// prove.
pub(crate) fn give_back(_linked: Linked) {}

/// Likewise of the files.
fn give_back_files(_dexes: Vec<Dex>) {}

fn halt_of(fault: LinkFault) -> Halt
    ensures { HaltsLink fault result }
{
    match fault {
        LinkFault::Memory => Stop::Memory,
        fault => Stop::Fault(Refusal {
            part: Part::App,
            reason: Reason::Link(fault),
        }),
    }
}

/// The app that the files are.
#[tactic(auto, using(crate::proofs::Halting::few_components, crate::proofs::Halting::few_clicks, crate::proofs::Halting::few_classes))]
fn linked_app(alloc: Global, parts: &Parts, papers: &Papers, dexes: &[Dex]) -> Result<App, Halt>
    requires papers { HasPapers parts.now papers.now }
    requires files { AreDex parts.now.dex dexes.now }
    requires manifest { SoundManifest papers.now.manifest }
    requires layouts { SoundLayouts papers.now.layouts }
    requires sound { All SoundDex dexes.now }
    ensures app { IfOk result (λ app. IsApp dexes.now papers.now.manifest papers.now.layouts app) }
    ensures only { IfOk result (λ app. OnlyApp dexes.now papers.now.manifest papers.now.layouts app) }
    ensures sound { IfOk result SoundApp }
    ensures err { IfErr result (λ h. Halts (RefusesOnly parts.now) h) }
{
    lower_laws();
    match link(alloc, dexes, papers.manifest.get(), &papers.layouts) {
        Ok(app) => Ok(app),
        Err(fault) => Err(halt_of(fault)),
    }
}

/// The app that the files are, and who sees the members of its classes.
fn seen_app(alloc: Global, parts: &Parts, papers: &Papers, dexes: &[Dex]) -> Result<SeenApp, Halt>
    requires papers { HasPapers parts.now papers.now }
    requires files { AreDex parts.now.dex dexes.now }
    requires manifest { SoundManifest papers.now.manifest }
    requires layouts { SoundLayouts papers.now.layouts }
    requires sound { All SoundDex dexes.now }
    ensures app { IfOk result (λ seen. IsApp dexes.now papers.now.manifest papers.now.layouts seen.app) }
    ensures only { IfOk result (λ seen. OnlyApp dexes.now papers.now.manifest papers.now.layouts seen.app) }
    ensures sound { IfOk result (λ seen. SoundApp seen.app) }
    ensures access { IfOk result (λ seen. seen.access.entries ≡ accesses_in dexes.now) }
    ensures err { IfErr result (λ h. Halts (RefusesOnly parts.now) h) }
{
    let app = linked_app(alloc, parts, papers, dexes)?;
    let access = accesses_of(alloc, dexes)?;
    Ok(SeenApp { app, access })
}

/// The app that the files are by these papers, and who sees the members of its classes.
fn app_by(alloc: Global, parts: &Parts, papers: &Papers) -> Result<SeenApp, Halt>
    requires papers { HasPapers parts.now papers.now }
    requires manifest { SoundManifest papers.now.manifest }
    requires layouts { SoundLayouts papers.now.layouts }
    ensures linked { IfOk result (λ seen. IsLinked parts.now
        (record { papers = papers.now; app = seen.app; access = seen.access })) }
    ensures sound { IfOk result (λ seen. SoundApp seen.app) }
    ensures err { IfErr result (λ h. Halts (RefusesOnly parts.now) h) }
{
    let dexes = dexes_of(alloc, parts, papers)?;
    let seen = seen_app(alloc, parts, papers, &dexes);
    give_back_files(dexes);
    seen
}

/// What the forms say, and the app that the files are, or the first refusal.
pub fn linked_parts(alloc: Global, parts: &Parts) -> Result<Linked, Halt>
    ensures linked { IfOk result (λ l. IsLinked parts.now l) }
    ensures sound { IfOk result (λ l. SoundApp l.app) }
    ensures lists { IfOk result (λ l. SoundLists l.papers.lists) }
    ensures err { IfErr result (λ h. Halts (RefusesOnly parts.now) h) }
{
    let papers = papers_of(alloc, parts)?;
    let SeenApp { app, access } = app_by(alloc, parts, &papers)?;
    Ok(Linked {
        papers,
        app,
        access,
    })
}

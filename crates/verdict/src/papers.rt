//! What the forms say: manifest, layouts, declaration and lists.

ghost use Rattle.std.specs.Prelude.{◌≡◌, IfOk, IfErr};
ghost use Rattle.app_machine.specs.SoundLists.{SoundLists};
ghost use Rattle.form_fields.specs.Form.{IsForm};
ghost use Rattle.form_texts.specs.Said.{manifest_of, lists_of};
ghost use Rattle.office_forms.specs.Manifest.{manifest_form};
ghost use Rattle.office_forms.specs.Layouts.{layouts_form};
ghost use Rattle.office_forms.specs.Declaration.{declaration_form};
ghost use Rattle.store_lists.specs.Lists.{lists_form};
ghost use Rattle.office_forms.specs.Sound.{SoundManifest, SoundLayouts};
ghost use Rattle.verdict.specs.Halts.{Halts, HaltsForm, StopsWith};
ghost use Rattle.verdict.specs.OneVerdict.{RefusesOnly};
ghost use Rattle.verdict.specs.Refuses.{HasManifest, HasPapers};

use crate::laws::lower_laws;
use crate::{Part, Parts, Reason};
use app_model::{Declaration, Layouts, Lists, Manifest};
use device_lists::DeviceLists;
use form_texts::{Kept, SaidLists, SaidManifest};
use office_forms::{FormFault, Large, read_declaration, read_layouts};
use std::alloc::Global;
use vet_base::{Name, Seq, Stop};

/// What the forms say.
#[derive(Drop)]
pub struct Papers {
    pub manifest: Kept<Manifest>,
    pub layouts: Layouts,
    pub declaration: Declaration,
    pub lists: Kept<Lists>,
    /// What the lists say of a device.
    pub device: Kept<DeviceLists>,
    /// How an app is judged of which more rows follow than the lists allow.
    pub large: Option<Large>,
    /// The classes that the manifest says are named elsewhere.
    pub named: Kept<Seq<Name>>,
}

impl Papers {
    /// How many DEX files the manifest says that there are.
    pub(crate) fn dex_files(&self) -> u32
        ensures { result ≡ self.now.manifest.dex_files }
    {
        self.manifest.get().dex_files
    }
}

/// What is refused, and why.
#[derive(Drop)]
pub struct Refusal {
    pub part: Part,
    pub reason: Reason,
}

pub type Halt = Stop<Refusal>;

/// What stops the reading of a form: want of memory, or its fault.
fn stop_of(fault: FormFault) -> Stop<FormFault>
    ensures { StopsWith fault result }
{
    match fault {
        FormFault::Memory => Stop::Memory,
        fault => Stop::Fault(fault),
    }
}

fn halt_of(part: Part, fault: FormFault) -> Halt
    ensures { HaltsForm part fault result }
{
    match stop_of(fault) {
        Stop::Memory => Stop::Memory,
        Stop::Fault(fault) => Stop::Fault(Refusal {
            part,
            reason: Reason::Form(fault),
        }),
    }
}

#[tactic(auto, using(crate::proofs::Halting::of_manifest))]
fn manifest_form_of(alloc: Global, parts: &Parts) -> Result<SaidManifest, Halt>
    ensures ok { IfOk result (λ m. IsForm manifest_form parts.now.manifest (manifest_of m)) }
    ensures sound { IfOk result (λ m. SoundManifest m.manifest) }
    ensures err { IfErr result (λ h. Halts (RefusesOnly parts.now) h) }
{
    lower_laws();
    match parts.manifest.said(alloc) {
        Ok(manifest) => Ok(manifest),
        Err(fault) => Err(halt_of(Part::Manifest, fault)),
    }
}

/// The manifest, which tells the number of DEX files.
#[tactic(auto, using(crate::proofs::Halting::of_count))]
fn manifest_of(alloc: Global, parts: &Parts) -> Result<SaidManifest, Halt>
    ensures ok { IfOk result (λ m. HasManifest parts.now (manifest_of m)) }
    ensures sound { IfOk result (λ m. SoundManifest m.manifest) }
    ensures err { IfErr result (λ h. Halts (RefusesOnly parts.now) h) }
{
    lower_laws();
    let manifest = manifest_form_of(alloc, parts)?;
    let count = manifest.dex_files();
    if count as usize != parts.dex.len() {
        let key = Name::from_bytes(alloc, b"dex_files".as_slice())?;
        return Err(Stop::Fault(Refusal {
            part: Part::Manifest,
            reason: Reason::Form(FormFault::Range(key)),
        }));
    }
    Ok(manifest)
}

fn layouts_of(alloc: Global, parts: &Parts, manifest: &SaidManifest) -> Result<Layouts, Halt>
    requires { HasManifest parts.now (manifest_of manifest.now) }
    ensures ok { IfOk result (λ l. IsForm layouts_form parts.now.layouts l) }
    ensures sound { IfOk result SoundLayouts }
    ensures err { IfErr result (λ h. Halts (RefusesOnly parts.now) h) }
{
    lower_laws();
    match read_layouts(alloc, parts.layouts.as_slice()) {
        Ok(layouts) => Ok(layouts),
        Err(fault) => Err(halt_of(Part::Layouts, fault)),
    }
}

fn declaration_of(
    alloc: Global,
    parts: &Parts,
    manifest: &SaidManifest,
    layouts: &Layouts,
) -> Result<Declaration, Halt>
    requires manifest { HasManifest parts.now (manifest_of manifest.now) }
    requires layouts { IsForm layouts_form parts.now.layouts layouts.now }
    ensures ok { IfOk result (λ d. IsForm declaration_form parts.now.declaration d) }
    ensures err { IfErr result (λ h. Halts (RefusesOnly parts.now) h) }
{
    lower_laws();
    match read_declaration(alloc, parts.declaration.as_slice()) {
        Ok(declaration) => Ok(declaration),
        Err(fault) => Err(halt_of(Part::Declaration, fault)),
    }
}

fn lists_of(
    alloc: Global,
    parts: &Parts,
    manifest: &SaidManifest,
    layouts: &Layouts,
    declaration: &Declaration,
) -> Result<SaidLists, Halt>
    requires manifest { HasManifest parts.now (manifest_of manifest.now) }
    requires layouts { IsForm layouts_form parts.now.layouts layouts.now }
    requires declaration { IsForm declaration_form parts.now.declaration declaration.now }
    ensures ok { IfOk result (λ ls. IsForm lists_form parts.now.lists (lists_of ls)) }
    ensures lists { IfOk result (λ ls. SoundLists ls.lists) }
    ensures err { IfErr result (λ h. Halts (RefusesOnly parts.now) h) }
{
    lower_laws();
    match parts.lists.said(alloc) {
        Ok(lists) => Ok(lists),
        Err(fault) => Err(halt_of(Part::Lists, fault)),
    }
}

/// What manifest and layouts say.
#[derive(Drop)]
struct AppForms {
    manifest: SaidManifest,
    layouts: Layouts,
}

/// What declaration and lists say.
#[derive(Drop)]
struct FlowForms {
    declaration: Declaration,
    lists: SaidLists,
}

fn app_forms_of(alloc: Global, parts: &Parts) -> Result<AppForms, Halt>
    ensures manifest { IfOk result (λ f. HasManifest parts.now (manifest_of f.manifest)) }
    ensures layouts { IfOk result (λ f. IsForm layouts_form parts.now.layouts f.layouts) }
    ensures of_app { IfOk result (λ f. SoundManifest f.manifest.manifest) }
    ensures of_layouts { IfOk result (λ f. SoundLayouts f.layouts) }
    ensures err { IfErr result (λ h. Halts (RefusesOnly parts.now) h) }
{
    let manifest = manifest_of(alloc, parts)?;
    let layouts = layouts_of(alloc, parts, &manifest)?;
    Ok(AppForms { manifest, layouts })
}

fn flow_forms_of(alloc: Global, parts: &Parts, app: &AppForms) -> Result<FlowForms, Halt>
    requires manifest { HasManifest parts.now (manifest_of app.now.manifest) }
    requires layouts { IsForm layouts_form parts.now.layouts app.now.layouts }
    ensures declaration { IfOk result (λ f. IsForm declaration_form parts.now.declaration f.declaration) }
    ensures lists { IfOk result (λ f. IsForm lists_form parts.now.lists (lists_of f.lists)) }
    ensures sound { IfOk result (λ f. SoundLists f.lists.lists) }
    ensures err { IfErr result (λ h. Halts (RefusesOnly parts.now) h) }
{
    let declaration = declaration_of(alloc, parts, &app.manifest, &app.layouts)?;
    let lists = lists_of(alloc, parts, &app.manifest, &app.layouts, &declaration)?;
    Ok(FlowForms { declaration, lists })
}

fn joined(app: AppForms, flow: FlowForms) -> Papers
    ensures { result ≡ record {
      manifest = app.manifest.manifest;
      layouts = app.layouts;
      declaration = flow.declaration;
      lists = flow.lists.lists;
      device = flow.lists.device;
      large = flow.lists.large;
      named = app.manifest.named;
    } }
{
    let AppForms { manifest, layouts } = app;
    let FlowForms { declaration, lists } = flow;
    let SaidManifest { manifest, named } = manifest;
    let SaidLists {
        lists,
        device,
        large,
    } = lists;
    Papers {
        manifest,
        layouts,
        declaration,
        lists,
        device,
        large,
        named,
    }
}

/// What the forms say, or the first refusal.
pub fn papers_of(alloc: Global, parts: &Parts) -> Result<Papers, Halt>
    ensures ok { IfOk result (λ p. HasPapers parts.now p) }
    ensures manifest { IfOk result (λ p. SoundManifest p.manifest) }
    ensures layouts { IfOk result (λ p. SoundLayouts p.layouts) }
    ensures lists { IfOk result (λ p. SoundLists p.lists) }
    ensures err { IfErr result (λ h. Halts (RefusesOnly parts.now) h) }
{
    let app = app_forms_of(alloc, parts)?;
    let flow = flow_forms_of(alloc, parts, &app)?;
    Ok(joined(app, flow))
}

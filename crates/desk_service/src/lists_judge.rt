//! The lists of the office, and one who judges apps by them.
ghost use Rattle.std.specs.Prelude.{◌≡◌, ℕ, List, IfOk};
ghost use Rattle.sha2.specs.Sha256.{sha256};
ghost use Rattle.case_rules.specs.declared.case.Content.{Content};
ghost use Rattle.case_rules.specs.Desk.{Judgement};
ghost use Rattle.desk_serving.specs.Obeying.{judgement_of};
ghost use Rattle.verdict_report.specs.Report.{report_text};
ghost use Rattle.desk_service.specs.Judging.{IsJudged, JudgesApps, parts_of, word_of, FindsBy};

use case_rules::{Content, OutcomeWord};
use desk_serving::{Judge, Judged};
use form_texts::{ListsText, ManifestText};
use sha2::{Digest, Sha256};
use std::alloc::Global;
use std::marker::Sync;
use std::sync::Wait;
use std::thread::Threads;
use verdict::{Judged as JudgedApp, Outcome, Parts, judge};
use verdict_report::report;
use vet_base::{Memory, Seq, Shared};
use worker_pool::{Crew, Lookout};

/// The lists of the office.
#[derive(Drop)]
pub struct OfficeLists {
    /// The bytes of `lists.toml`, with what they say.
    pub(crate) lists: ListsText,
    /// The SHA-256 of these bytes.
    pub(crate) edition: [u8; 32],
}

/// One who judges apps by the lists of the office.
#[derive(Drop)]
pub struct ListsJudge<F> {
    pub(crate) lists: OfficeLists,
    /// What the parts of an app come to.
    pub(crate) by: F,
}

/// The edition of lists: the SHA-256 of their bytes (FIPS 180-4).
fn edition_of(lists: &[u8]) -> [u8; 32]
    ensures { result ≡ sha256 lists.now }
{
    let mut hasher = Sha256::new();
    hasher.update(lists);
    hasher.finalize()
}

impl OfficeLists {
    /// These lists, with their edition.
    pub fn new(lists: ListsText) -> OfficeLists
        ensures lists { result.lists ≡ lists }
        ensures edition { result.edition ≡ sha256 lists }
    {
        let edition = edition_of(lists.as_slice());
        OfficeLists { lists, edition }
    }
}

/// The same files, of which none is copied.
fn all_lent(alloc: Global, files: &[Shared<u8>]) -> Result<Seq<Shared<u8>>, Memory>
    ensures { IfOk result (λ seq. seq ≡ files.now) }
{
    let mut all = Vec::new(alloc);
    for file in files {
        all.push(file.copy()?)?;
    }
    Ok(Seq::from_vec(all))
}

/// Manifest and layouts.
#[derive(Drop)]
struct AppTexts {
    manifest: ManifestText,
    layouts: Shared<u8>,
}

/// Declaration and lists.
#[derive(Drop)]
struct FlowTexts {
    declaration: Shared<u8>,
    lists: ListsText,
}

fn app_texts_of(content: &Content) -> Result<AppTexts, Memory>
    ensures manifest { IfOk result (λ texts. texts.manifest ≡ content.now.manifest) }
    ensures layouts { IfOk result (λ texts. texts.layouts ≡ content.now.layouts) }
{
    let manifest = ManifestText::new(content.manifest.copy()?);
    let layouts = content.layouts.copy()?;
    Ok(AppTexts { manifest, layouts })
}

fn flow_texts_of(lists: &ListsText, content: &Content) -> Result<FlowTexts, Memory>
    ensures declaration { IfOk result (λ texts. texts.declaration ≡ content.now.declaration) }
    ensures lists { IfOk result (λ texts. texts.lists ≡ lists.now) }
{
    let declaration = content.declaration.copy()?;
    let lists = lists.copy()?;
    Ok(FlowTexts { declaration, lists })
}

fn joined(app: AppTexts, flow: FlowTexts, dex: Seq<Shared<u8>>) -> Parts
    ensures { result ≡ record {
      manifest = app.manifest;
      layouts = app.layouts;
      declaration = flow.declaration;
      lists = flow.lists;
      dex = dex;
    } }
{
    Parts {
        manifest: app.manifest,
        layouts: app.layouts,
        declaration: flow.declaration,
        lists: flow.lists,
        dex,
    }
}

/// The parts of an app, with the lists by which it is judged. No content is copied, and no list is read anew.
fn parts_of(alloc: Global, lists: &ListsText, content: &Content) -> Result<Parts, Memory>
    ensures { IfOk result (λ parts. parts ≡ parts_of lists.now content.now) }
{
    let app = app_texts_of(content)?;
    let flow = flow_texts_of(lists, content)?;
    let dex = all_lent(alloc, content.dex.as_slice())?;
    Ok(joined(app, flow, dex))
}

/// The first word of the report of an outcome.
fn word_of(outcome: &Outcome) -> OutcomeWord
    ensures { result ≡ word_of outcome.now }
{
    match outcome {
        Outcome::Clear => OutcomeWord::Clear,
        Outcome::Flagged(_) => OutcomeWord::Flagged,
        Outcome::Undecided(_, _) => OutcomeWord::Undecided,
        Outcome::Refused(_, _) => OutcomeWord::Refused,
    }
}

/// The first word and the report of an outcome.
fn told_of(alloc: Global, outcome: &Outcome) -> Result<Judged, Memory>
    ensures word { IfOk result (λ judged. judged.outcome ≡ word_of outcome.now) }
    ensures report { IfOk result (λ judged. judged.report ≡ report_text outcome.now) }
{
    let text = report(alloc, outcome)?;
    Ok(Judged {
        outcome: word_of(outcome),
        report: Shared::from_vec(alloc, text)?,
    })
}

/// What the parts of an app come to.
pub(crate) fn judged<T: Threads + Wait + Sync, L: Lookout>(
    alloc: Global,
    parts: &Parts,
    crew: &Crew<'_, T, L>,
) -> Result<JudgedApp, Memory>
    ensures { IfOk result (IsJudged parts.now) }
{
    judge(alloc, parts, crew)
}

/// Gives back the memory of parts. Where that stands beside what is known of them, it is dear to prove.
fn give_parts_back(_parts: Parts) {}

/// Likewise of what they came to.
fn give_back(_judged: JudgedApp) {}

fn judged_by<F: Fn(&Parts) -> Result<JudgedApp, Memory>>(
    by: &F,
    parts: Parts,
) -> Result<JudgedApp, Memory>
    requires { JudgesApps F.Fn by.now }
    ensures { IfOk result (IsJudged parts) }
{
    let judged = by(&parts);
    give_parts_back(parts);
    judged
}

/// The first word and the report of what an app came to.
fn told_by(alloc: Global, judged: JudgedApp) -> Result<Judged, Memory>
    ensures word { IfOk result (λ told. told.outcome ≡ word_of judged.outcome) }
    ensures report { IfOk result (λ told. told.report ≡ report_text judged.outcome) }
{
    let told = told_of(alloc, &judged.outcome);
    give_back(judged);
    told
}

impl<F: Fn(&Parts) -> Result<JudgedApp, Memory>> Judge for ListsJudge<F> {
    ghost ready = { λ j. JudgesApps F.Fn j.by };

    ghost finds = { λ j. FindsBy j.lists.lists };

    ghost edition = { λ j. j.lists.edition };

    fn edition(&self) -> &[u8; 32] {
        &self.lists.edition
    }

    fn judge(&self, alloc: Global, content: &Content) -> Result<Judged, Memory>
        requires { JudgesApps F.Fn self.now.by }
        ensures { IfOk result (λ judged. FindsBy self.now.lists.lists content.now (judgement_of judged)) }
    {
        let parts = parts_of(alloc, &self.lists.lists, content)?;
        let judged = judged_by(&self.by, parts)?;
        let told = told_by(alloc, judged)?;
        Ok(told)
    }
}

//! What the parts of an app come to, by what is asked of them.

ghost use Rattle.std.specs.Prelude.{◌≡◌, ℕ, List, IfOk, IfSome, string_bytes};
ghost use Rattle.certificate.specs.Cert.{IsCert};
ghost use Rattle.verdict.specs.Table.{IsTable};
ghost use Rattle.verdict.specs.Verdict.{Verdict};
ghost use Rattle.vetting_desk.specs.Answer.{ComesByRows};
ghost use Rattle.vetting_desk.specs.Due.{due_of};
ghost use Rattle.vetting_desk.specs.Sets.{set_of};
ghost use Rattle.app_folder.specs.FolderDue.{Checks};
ghost use Rattle.vetting_desk.specs.PartsDue.{Certifies, RechecksBy, digest_of, refusal_of, rechecked};
ghost use Rattle.vetting_desk.specs.Found.{FindsOfParts, FindsStories, CertifiedAs, IsUnreadable};
ghost use Rattle.app_folder.specs.Reading.{AreShort};

use crate::answer::Answer;
use crate::certificates::{analysis_of, certificate_of, digest_of, same_digest};
use app_stories::judge_with_stories;
use cert_report::CertRefusal;
use certificate::{Cert, CertFault, certificates_keep_their_laws, read_cert};
use std::alloc::Global;
use std::marker::Sync;
use std::sync::Wait;
use std::thread::Threads;
use verdict::{
    FlowTable, Judged, Outcome, Parts, Rechecked, RowDefect, TableDefect, judge, judge_table,
};
use vet_base::{Memory, Seq, Stop};
use worker_pool::{Crew, Lookout};

/// What parts come to.
pub fn checked<T: Threads + Wait + Sync, L: Lookout>(
    alloc: Global,
    parts: &Parts,
    crew: &Crew<'_, T, L>,
) -> Result<Answer, Memory>
    ensures { IfOk result (λ a. FindsOfParts (Unit {0}) Checks Verdict parts.now (due_of a)) }
{
    let judged = judge(alloc, parts, crew)?;
    Ok(Answer::Vetted(judged.outcome))
}

/// What parts come to, with a story for each finding.
pub fn storied<T: Threads + Wait + Sync, L: Lookout>(
    alloc: Global,
    parts: &Parts,
    crew: &Crew<'_, T, L>,
) -> Result<Answer, Memory>
    ensures { IfOk result (λ a. FindsStories parts.now (due_of a)) }
{
    let told = judge_with_stories(alloc, parts, crew)?;
    Ok(Answer::Storied(told.outcome, told.stories))
}

/// The path of a certificate and its bytes.
#[derive(Drop)]
struct CertFile {
    path: String,
    bytes: Seq<u8>,
}

/// The certificate of the table, for the file at this path.
fn cert_file_of(
    alloc: Global,
    parts: &Parts,
    path: &str,
    table: FlowTable,
) -> Result<CertFile, Memory>
    requires short { AreShort parts.now }
    requires table { IsTable table }
    ensures path { IfOk result (λ file. string_bytes file.path ≡ path.now) }
    ensures bytes { IfOk result (λ file. IsCert file.bytes (set_of table.analysis) (digest_of parts.now) table.rows) }
{
    let FlowTable { analysis, rows } = table;
    let rows = rows.into_ascending(alloc)?;
    let bytes = certificate_of(alloc, parts, analysis, rows.as_slice())?;
    let path = String::from_str(alloc, path)?;
    Ok(CertFile {
        path,
        bytes: Seq::from_vec(bytes),
    })
}

/// The answer to parts that were judged so, with the certificate of their table where there is one.
fn with_certificate(
    alloc: Global,
    parts: &Parts,
    path: &str,
    judged: Judged,
) -> Result<Answer, Memory>
    requires short { AreShort parts.now }
    requires table { IfSome judged.table IsTable }
    ensures { IfOk result (λ a. CertifiedAs path.now parts.now judged.outcome judged.table (due_of a)) }
{
    let Judged { outcome, table } = judged;
    match table {
        None => Ok(Answer::Vetted(outcome)),
        Some(table) => {
            let CertFile { path, bytes } = cert_file_of(alloc, parts, path, table)?;
            Ok(Answer::Certified(outcome, path, bytes))
        }
    }
}

/// What parts come to, with the certificate of their table for the file at this path.
pub fn certified<T: Threads + Wait + Sync, L: Lookout>(
    alloc: Global,
    parts: &Parts,
    path: &str,
    crew: &Crew<'_, T, L>,
) -> Result<Answer, Memory>
    requires { AreShort parts.now }
    ensures { IfOk result (λ a. FindsOfParts (Unit {0}) (Certifies path.now) Verdict parts.now (due_of a)) }
{
    let judged = judge(alloc, parts, crew)?;
    let answer = with_certificate(alloc, parts, path, judged)?;
    Ok(answer)
}

/// Why the certificate of a table with this defect is refused.
fn refusal_for(defect: TableDefect) -> CertRefusal
    ensures { result ≡ refusal_of defect }
{
    match defect {
        TableDefect::At(RowDefect::Stranger, row) => CertRefusal::Stranger(row),
        TableDefect::At(RowDefect::NoStart, row) => CertRefusal::NoStart(row),
        TableDefect::NotClosed(row) => CertRefusal::NotClosed(row),
    }
}

fn answer_by(by: Rechecked) -> Answer
    ensures { due_of result ≡ rechecked by }
{
    match by {
        Rechecked::Refused(part, reason) => Answer::Vetted(Outcome::Refused(part, reason)),
        Rechecked::Unasked => Answer::Uncertified(CertRefusal::Fault(CertFault::Magic)),
        Rechecked::Defect(defect) => Answer::Uncertified(refusal_for(defect)),
        Rechecked::By(outcome) => Answer::Vetted(outcome),
    }
}

fn unreadable(stop: Stop<CertFault>) -> Result<Answer, Memory>
    ensures { IfOk result (λ a. IsUnreadable stop a) }
{
    match stop {
        Stop::Memory => Err(Memory),
        Stop::Fault(fault) => Ok(Answer::Uncertified(CertRefusal::Fault(fault))),
    }
}

/// What parts come to by a certificate.
fn rechecked_by(alloc: Global, parts: &Parts, cert: &Cert, seed: u64) -> Result<Answer, Memory>
    requires { AreShort parts.now }
    ensures { (bytes : List ℕ) → IsCert bytes cert.now.set cert.now.digest cert.now.rows
        → IfOk result (λ a. FindsOfParts (Unit {0}) (RechecksBy bytes) ComesByRows parts.now (due_of a)) }
{
    certificates_keep_their_laws();
    let digest = digest_of(parts);
    if !same_digest(&cert.digest, &digest) {
        return Ok(Answer::Uncertified(CertRefusal::Digest(cert.digest, digest)));
    }
    let by = judge_table(
        alloc,
        parts,
        analysis_of(cert.set),
        cert.rows.as_slice(),
        seed,
    )?;
    Ok(answer_by(by))
}

/// What parts come to by the certificate of these bytes.
pub fn rechecked(alloc: Global, parts: &Parts, bytes: &[u8], seed: u64) -> Result<Answer, Memory>
    requires { AreShort parts.now }
    ensures { IfOk result (λ a. FindsOfParts (Unit {0}) (RechecksBy bytes.now) ComesByRows parts.now (due_of a)) }
{
    certificates_keep_their_laws();
    match read_cert(alloc, bytes) {
        Ok(cert) => rechecked_by(alloc, parts, &cert, seed),
        Err(stop) => unreadable(stop),
    }
}

//! The text that says an outcome.

ghost use Rattle.std.specs.Prelude.{◌≡◌, ◌++◌, length, take, codes, OnOk, IfOk};
ghost use Rattle.verdict_report.specs.Report.{cause_line, cause_lines, finding_lines, clear_text};
ghost use Rattle.verdict_report.specs.Report.{flagged_text, undecided_text, refused_text, report_text};

use crate::printed::{put_class_line, put_counted, put_finding, put_method_line, put_place_line};
use crate::reasons::{put_part, put_reason};
use printed_text::put;
use std::alloc::Global;
use verdict::{Cause, Finding, Outcome, Part, Reason};
use vet_base::Memory;

type Text = Vec<u8>;

#[tactic(auto, unfolding(crate::specs::Report::finding_lines))]
fn put_findings(alloc: Global, text: &mut Text, findings: &[Finding]) -> Result<(), Memory>
    ensures { OnOk result (text.new.items ≡ text.old.items ++ finding_lines findings.now) }
{
    for finding in findings {
        put_finding(alloc, text, finding)?;
    }
    Ok(())
}

#[tactic(auto, unfolding(crate::specs::Report::cause_line))]
fn put_cause(alloc: Global, text: &mut Text, cause: &Cause) -> Result<(), Memory>
    ensures { OnOk result (text.new.items ≡ text.old.items ++ cause_line cause.now) }
{
    match cause {
        Cause::NoSummary(place) => put_place_line(alloc, text, b"no summary: ".as_slice(), place),
        Cause::Native(place) => put_place_line(alloc, text, b"native: ".as_slice(), place),
        Cause::Reflective(place) => put_place_line(alloc, text, b"reflective: ".as_slice(), place),
        Cause::Provider(class) => put_class_line(text, b"provider: ".as_slice(), class),
        Cause::LayoutClass(class) => put_class_line(text, b"layout class: ".as_slice(), class),
        Cause::TooLarge(limit) => put_counted(
            alloc,
            text,
            b"too large: ".as_slice(),
            *limit as usize,
        ),
        Cause::Hidden(method) => put_method_line(text, b"hidden: ".as_slice(), method),
        Cause::InterfaceCode(method) => {
            put_method_line(text, b"interface code: ".as_slice(), method)
        }
        Cause::PlatformClass(class) => put_class_line(text, b"platform class: ".as_slice(), class),
        Cause::UnlistedClass(class) => put_class_line(text, b"unlisted class: ".as_slice(), class),
        Cause::LibraryStatic(place) => {
            put_place_line(alloc, text, b"library static: ".as_slice(), place)
        }
        Cause::Click(method) => put_method_line(text, b"click: ".as_slice(), method),
        Cause::NamedClass(class) => put_class_line(text, b"named class: ".as_slice(), class),
    }
}

#[tactic(auto, unfolding(crate::specs::Report::cause_lines))]
fn put_causes(alloc: Global, text: &mut Text, causes: &[Cause]) -> Result<(), Memory>
    ensures { OnOk result (text.new.items ≡ text.old.items ++ cause_lines causes.now) }
{
    for cause in causes {
        put_cause(alloc, text, cause)?;
    }
    Ok(())
}

#[tactic(auto, unfolding(crate::specs::Report::undecided_text))]
fn put_undecided(
    alloc: Global,
    text: &mut Text,
    causes: &[Cause],
    findings: &[Finding],
) -> Result<(), Memory>
    ensures { OnOk result (text.new.items ≡ text.old.items ++ undecided_text causes.now findings.now) }
{
    put_counted(alloc, text, b"undecided ".as_slice(), causes.len())?;
    put_causes(alloc, text, causes)?;
    put_findings(alloc, text, findings)
}

#[tactic(auto, unfolding(crate::specs::Report::flagged_text))]
fn put_flagged(alloc: Global, text: &mut Text, findings: &[Finding]) -> Result<(), Memory>
    ensures { OnOk result (text.new.items ≡ text.old.items ++ flagged_text findings.now) }
{
    put_counted(alloc, text, b"flagged ".as_slice(), findings.len())?;
    put_findings(alloc, text, findings)
}

#[tactic(auto, unfolding(crate::specs::Report::refused_text))]
fn put_refused(alloc: Global, text: &mut Text, part: Part, reason: &Reason) -> Result<(), Memory>
    ensures { OnOk result (text.new.items ≡ text.old.items ++ refused_text part reason.now) }
{
    put(text, b"refused ".as_slice())?;
    put_part(alloc, text, part)?;
    put(text, b": ".as_slice())?;
    put_reason(alloc, text, reason)?;
    put(text, b"\n".as_slice())
}

#[tactic(auto, unfolding(crate::specs::Report::clear_text))]
fn put_outcome(alloc: Global, text: &mut Text, outcome: &Outcome) -> Result<(), Memory>
    ensures { OnOk result (text.new.items ≡ text.old.items ++ report_text outcome.now) }
{
    match outcome {
        Outcome::Clear => put(text, b"clear\n".as_slice()),
        Outcome::Flagged(findings) => put_flagged(alloc, text, findings.as_slice()),
        Outcome::Undecided(causes, findings) => {
            put_undecided(alloc, text, causes.as_slice(), findings.as_slice())
        }
        Outcome::Refused(part, reason) => put_refused(alloc, text, *part, reason),
    }
}

/// The text that says the outcome: `clear`; `flagged N` and a line for each finding; `undecided N`, a line for each
/// cause and for each finding; or `refused PART: REASON`. Each line ends with a line feed. In names a byte that is no
/// visible ASCII, and the backslash, is printed as `\x` and two hexadecimal digits.
pub fn report(alloc: Global, outcome: &Outcome) -> Result<Vec<u8>, Memory>
    ensures { IfOk result (λ t. t.items ≡ report_text outcome.now) }
{
    let mut text = Vec::new(alloc);
    put_outcome(alloc, &mut text, outcome)?;
    Ok(text)
}

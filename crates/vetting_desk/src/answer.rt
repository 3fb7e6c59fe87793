//! What the words and the files come to, with the status and the text that say so.

ghost use Rattle.std.specs.Prelude.{◌≡◌, IfOk};
ghost use Rattle.vetting_desk.specs.Due.{usage_text, read_fault_text, behind_slashes};
ghost use Rattle.vetting_desk.specs.Due.{last_part, absent_text, too_long_text, storied_text, due_of};

use crate::summary::summary;
use cert_report::{CertRefusal, report_refusal};
use flow_story::Story;
use printed_text::{put, put_name};
use std::alloc::Global;
use story_report::put_stories;
use verdict::{Outcome, status_for};
use verdict_report::report;
use vet_base::{Memory, Seq};

/// The exit status of the program: 0 clear, 1 flagged, 2 undecided, 3 refused, 4 the words are no command, 5 a file
/// could not be read, 6 a text could not be printed or a file not be written, 7 want of memory, 9 a certificate is
/// refused. `vet` says when each comes.
#[derive(Clone, Copy, Debug, PartialEq, Eq)]
pub struct Status(pub u8);

/// What the words and the files come to.
#[derive(Drop)]
pub enum Answer {
    /// The words are none of the forms.
    Usage,
    /// What the folder comes to.
    Vetted(Outcome),
    /// The same, with the path that the certificate of its table goes to, and its bytes.
    Certified(Outcome, String, Seq<u8>),
    /// There is no certificate at this path.
    NoCertificate(String),
    /// What stands at this path is too long for a certificate.
    LongCertificate(String),
    /// The certificate is refused.
    Uncertified(CertRefusal),
    /// What the folder comes to, and a story for each finding, where there is a table.
    Storied(Outcome, Option<Seq<Story>>),
    /// What a generated app with so many drawn methods comes to, and how many rows follow, unless they are too many.
    Made(u32, Option<usize>, Outcome),
}

/// The status that says the answer.
pub fn status_saying(answer: &Answer) -> Status
    ensures { result.0 ≡ (due_of answer.now).status }
{
    match answer {
        Answer::Usage => Status(4),
        Answer::Vetted(outcome) => Status(status_for(outcome)),
        Answer::Certified(outcome, _, _) => Status(status_for(outcome)),
        Answer::NoCertificate(_) => Status(3),
        Answer::LongCertificate(_) => Status(3),
        Answer::Uncertified(_) => Status(9),
        Answer::Storied(outcome, _) => Status(status_for(outcome)),
        Answer::Made(_, _, outcome) => Status(status_for(outcome)),
    }
}

#[tactic(auto, unfolding(crate::specs::Due::usage_text))]
fn usage(alloc: Global) -> Result<Vec<u8>, Memory>
    ensures { IfOk result (λ text. text.items ≡ usage_text) }
{
    Ok(b"unknown command or argument\n".as_slice().to_vec(alloc)?)
}

/// What is left of a part where each slash in the rest begins a new one.
fn behind_slashes<'a>(part: &'a [u8], rest: &'a [u8]) -> &'a [u8]
    ensures { result.now ≡ behind_slashes part.now rest.now }
{
    match rest {
        [] => part,
        [b'/', more @ ..] => behind_slashes(more, more),
        [_, more @ ..] => behind_slashes(part, more),
    }
}

/// The last part of a path.
#[tactic(auto, unfolding(crate::specs::Due::last_part))]
fn last_part(path: &[u8]) -> &[u8]
    ensures { result.now ≡ last_part path.now }
{
    behind_slashes(path, path)
}

#[tactic(auto, unfolding(crate::specs::Due::absent_text))]
fn absent(alloc: Global, path: &str) -> Result<Vec<u8>, Memory>
    ensures { IfOk result (λ text. text.items ≡ absent_text path.now) }
{
    let mut text = b"refused ".as_slice().to_vec(alloc)?;
    put_name(&mut text, last_part(path.as_bytes()))?;
    put(&mut text, b": absent\n".as_slice())?;
    Ok(text)
}

#[tactic(auto, unfolding(crate::specs::Due::too_long_text))]
fn too_long(alloc: Global, path: &str) -> Result<Vec<u8>, Memory>
    ensures { IfOk result (λ text. text.items ≡ too_long_text path.now) }
{
    let mut text = b"refused ".as_slice().to_vec(alloc)?;
    put_name(&mut text, last_part(path.as_bytes()))?;
    put(&mut text, b": longer than 536870912\n".as_slice())?;
    Ok(text)
}

/// The report, and the stories, if there are any to be told.
fn storied(
    alloc: Global,
    outcome: &Outcome,
    stories: &Option<Seq<Story>>,
) -> Result<Vec<u8>, Memory>
    ensures { IfOk result (λ text. text.items ≡ storied_text outcome.now stories.now) }
{
    let mut text = report(alloc, outcome)?;
    if let Some(stories) = stories {
        put_stories(alloc, &mut text, stories.as_slice())?;
    }
    Ok(text)
}

/// The text that says the answer. It ends with one line feed.
pub fn text_saying(alloc: Global, answer: &Answer) -> Result<Vec<u8>, Memory>
    ensures { IfOk result (λ text. text.items ≡ (due_of answer.now).text) }
{
    match answer {
        Answer::Usage => usage(alloc),
        Answer::Vetted(outcome) => report(alloc, outcome),
        Answer::Certified(outcome, _, _) => report(alloc, outcome),
        Answer::NoCertificate(path) => absent(alloc, path.as_str()),
        Answer::LongCertificate(path) => too_long(alloc, path.as_str()),
        Answer::Uncertified(refusal) => report_refusal(alloc, refusal),
        Answer::Storied(outcome, stories) => storied(alloc, outcome, stories),
        Answer::Made(size, rows, outcome) => summary(alloc, *size, *rows, outcome),
    }
}

/// The text that says which file could not be read.
#[tactic(auto, unfolding(crate::specs::Due::read_fault_text))]
pub fn read_fault(alloc: Global, name: &[u8]) -> Result<Vec<u8>, Memory>
    ensures { IfOk result (λ text. text.items ≡ read_fault_text name.now) }
{
    let mut text = b"read fault ".as_slice().to_vec(alloc)?;
    put_name(&mut text, name)?;
    put(&mut text, b"\n".as_slice())?;
    Ok(text)
}

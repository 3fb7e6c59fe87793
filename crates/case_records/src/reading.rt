ghost use Rattle.std.specs.Prelude.{◌≡◌, [], IfOk};
ghost use Rattle.case_rules.specs.Cases.{new_case};
ghost use Rattle.vet_base.specs.Script.{Gives, repeat};
ghost use Rattle.case_records.specs.Reading.{text_from, texts_of, content_of, decision_of, appeal_of, ruling_of};
ghost use Rattle.case_records.specs.Reading.{named_change, change_of};
ghost use Rattle.case_records.specs.Into.{GivesInto};

use crate::NoPayload;
use crate::fields::{outcome_of, word_of};
use crate::numbers::{ReadError, byte_from, bytes_from, end_from, text_from, u4_from, u8_from};
use case_rules::{Appeal, Case, Change, Content, Decision, Ruling};
use std::alloc::Global;
use vet_base::{Memory, Name, Shared, Stop};

/// A list of these bytes.
fn kept(alloc: Global, bytes: &[u8]) -> Result<Shared<u8>, Memory>
    ensures { IfOk result (λ list. list ≡ bytes.now) }
{
    let copied = bytes.to_vec(alloc)?;
    Shared::from_vec(alloc, copied)
}

/// Puts so many texts into an empty list, and gives the bytes behind them. No memory is taken before there is a text.
#[tactic(auto, using(vet_base::proofs::Repeats::repeat_begins, vet_base::proofs::Repeats::repeat_goes_on, vet_base::proofs::Repeats::repeat_fails, vet_base::proofs::Repeats::repeat_is_done))]
fn texts_into<'a>(
    alloc: Global,
    count: u64,
    bytes: &'a [u8],
    texts: &mut Vec<Shared<u8>>,
) -> Result<&'a [u8], ReadError>
    requires { texts.old.items ≡ [] }
    ensures { GivesInto texts.new.items (λ x. x.now) result (repeat count text_from bytes.now) }
{
    let mut rest = bytes;
    for _ in 0..count {
        let (text, next) = text_from(rest)?;
        let text = kept(alloc, text)?;
        texts.push(text)?;
        rest = next;
    }
    Ok(rest)
}

#[tactic(auto, unfolding(crate::specs::Reading::texts_of), using(vet_base::proofs::Scripts::run_bind))]
fn texts_of(alloc: Global, bytes: &[u8]) -> Result<Shared<Shared<u8>>, ReadError>
    ensures { Gives (λ x. x) result (texts_of bytes.now) }
{
    let (count, rest) = u8_from(bytes)?;
    let mut texts = Vec::new(alloc);
    let rest = texts_into(alloc, count, rest, &mut texts)?;
    end_from(rest)?;
    Ok(Shared::from_vec(alloc, texts)?)
}

#[tactic(auto, unfolding(crate::specs::Reading::content_of), using(vet_base::proofs::Scripts::run_bind))]
fn content_of(alloc: Global, bytes: &[u8]) -> Result<Content, ReadError>
    ensures { Gives (λ x. x) result (content_of bytes.now) }
{
    let (manifest, rest) = text_from(bytes)?;
    let (layouts, rest) = text_from(rest)?;
    let (declaration, rest) = text_from(rest)?;
    let dex = texts_of(alloc, rest)?;
    let manifest = kept(alloc, manifest)?;
    let layouts = kept(alloc, layouts)?;
    let declaration = kept(alloc, declaration)?;
    Ok(Content {
        manifest,
        layouts,
        declaration,
        dex,
    })
}

#[tactic(auto, unfolding(crate::specs::Reading::decision_of), using(vet_base::proofs::Scripts::run_bind))]
fn decision_of(alloc: Global, bytes: &[u8]) -> Result<Decision, ReadError>
    ensures { Gives (λ x. x) result (decision_of bytes.now) }
{
    let (byte, rest) = byte_from(bytes)?;
    let outcome = outcome_of(byte)?;
    let (report, rest) = text_from(rest)?;
    let (edition, rest) = bytes_from(32, rest)?;
    let (reviewer, rest) = text_from(rest)?;
    let (day, rest) = u4_from(rest)?;
    end_from(rest)?;
    let mut lists = [0; 32];
    lists.copy_from_slice(edition);
    let report = kept(alloc, report)?;
    let reviewer = Name::from_bytes(alloc, reviewer)?;
    Ok(Decision {
        outcome,
        report,
        lists,
        reviewer,
        day,
    })
}

#[tactic(auto, unfolding(crate::specs::Reading::appeal_of), using(vet_base::proofs::Scripts::run_bind))]
fn appeal_of(alloc: Global, bytes: &[u8]) -> Result<Appeal, ReadError>
    ensures { Gives (λ x. x) result (appeal_of bytes.now) }
{
    let (day, rest) = u4_from(bytes)?;
    let (text, rest) = text_from(rest)?;
    end_from(rest)?;
    let text = kept(alloc, text)?;
    Ok(Appeal { day, text })
}

#[tactic(auto, unfolding(crate::specs::Reading::ruling_of), using(vet_base::proofs::Scripts::run_bind))]
fn ruling_of(alloc: Global, bytes: &[u8]) -> Result<Ruling, ReadError>
    ensures { Gives (λ x. x) result (ruling_of bytes.now) }
{
    let (reviewer, rest) = text_from(bytes)?;
    let (day, rest) = u4_from(rest)?;
    let (byte, rest) = byte_from(rest)?;
    let word = word_of(byte)?;
    end_from(rest)?;
    let reviewer = Name::from_bytes(alloc, reviewer)?;
    Ok(Ruling {
        reviewer,
        day,
        word,
    })
}

fn added(party: Name, reference: Name, content: Content) -> Change
    ensures { result ≡ Change.Add (new_case party reference content) }
{
    Change::Add(Case {
        party,
        reference,
        content,
        entries: Shared::new(),
    })
}

#[tactic(auto, unfolding(crate::specs::Reading::named_change), using(vet_base::proofs::Scripts::run_bind))]
fn named_change(
    alloc: Global,
    kind: u8,
    party: &[u8],
    reference: &[u8],
    bytes: &[u8],
) -> Result<Change, ReadError>
    ensures { Gives (λ x. x) result (named_change kind party.now reference.now bytes.now) }
{
    let party = Name::from_bytes(alloc, party)?;
    let reference = Name::from_bytes(alloc, reference)?;
    match kind {
        0 => {
            let content = content_of(alloc, bytes)?;
            Ok(added(party, reference, content))
        }
        1 => {
            let decision = decision_of(alloc, bytes)?;
            Ok(Change::Decide(party, reference, decision))
        }
        2 => {
            let appeal = appeal_of(alloc, bytes)?;
            Ok(Change::Appeal(party, reference, appeal))
        }
        3 => {
            let ruling = ruling_of(alloc, bytes)?;
            Ok(Change::Rule(party, reference, ruling))
        }
        _ => Err(Stop::Fault(NoPayload::Bad)),
    }
}

/// The change whose bytes these are, or why they are none: the first of their tests that fails, in the order of the
/// bytes. Beside the change no memory is taken.
#[tactic(auto, unfolding(crate::specs::Reading::change_of), using(vet_base::proofs::Scripts::run_bind))]
pub fn change_of(alloc: Global, bytes: &[u8]) -> Result<Change, Stop<NoPayload>>
    ensures { Gives (λ x. x) result (change_of bytes.now) }
{
    let (kind, rest) = byte_from(bytes)?;
    let (party, rest) = text_from(rest)?;
    let (reference, rest) = text_from(rest)?;
    named_change(alloc, kind, party, reference, rest)
}

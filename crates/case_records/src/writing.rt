ghost use Rattle.std.specs.Prelude.{◌≡◌, ◌<◌, ◌++◌, [], OnOk, length};
ghost use Rattle.std.specs.List.{flat_map};
ghost use Rattle.case_records.specs.Fitting.{TextFits, AllFit, ContentFits, DecisionFits, AppealFits, RulingFits};
ghost use Rattle.case_records.specs.Fitting.{NamesFit, FieldsFit};
ghost use Rattle.case_records.specs.Spelling.{text_bytes, texts_bytes, content_bytes, decision_bytes, appeal_bytes};
ghost use Rattle.case_records.specs.Spelling.{ruling_bytes, named_bytes, change_bytes};

use crate::fields::{outcome_byte, word_byte};
use crate::numbers::{put_text, put_u4, put_u8};
use case_rules::{Appeal, Change, Content, Decision, Ruling};
use vet_base::{Memory, Name, Shared};

fn put_shared(out: &mut Vec<u8>, text: &Shared<u8>) -> Result<(), Memory>
    ensures bytes { OnOk result (out.new.items ≡ out.old.items ++ text_bytes text.now) }
    ensures fits { OnOk result (TextFits text.now) }
{
    put_text(out, text.as_slice())
}

fn put_each(out: &mut Vec<u8>, texts: &[Shared<u8>]) -> Result<(), Memory>
    ensures bytes { OnOk result (out.new.items ≡ out.old.items ++ flat_map text_bytes texts.now) }
    ensures fits { OnOk result (AllFit texts.now) }
{
    for text in texts {
        put_shared(out, text)?;
    }
    Ok(())
}

#[tactic(auto, unfolding(crate::specs::Spelling::texts_bytes))]
fn put_texts(out: &mut Vec<u8>, texts: &[Shared<u8>]) -> Result<(), Memory>
    ensures bytes { OnOk result (out.new.items ≡ out.old.items ++ texts_bytes texts.now) }
    ensures fits { OnOk result (AllFit texts.now) }
    ensures count { length texts.now < 18446744073709551616 }
{
    put_u8(out, texts.len() as u64)?;
    put_each(out, texts)
}

#[tactic(auto, unfolding(crate::specs::Spelling::content_bytes))]
fn put_content(out: &mut Vec<u8>, content: &Content) -> Result<(), Memory>
    ensures bytes { OnOk result (out.new.items ≡ out.old.items ++ content_bytes content.now) }
    ensures fits { OnOk result (ContentFits content.now) }
{
    put_shared(out, &content.manifest)?;
    put_shared(out, &content.layouts)?;
    put_shared(out, &content.declaration)?;
    put_texts(out, content.dex.as_slice())
}

#[tactic(auto, unfolding(crate::specs::Spelling::decision_bytes))]
fn put_decision(out: &mut Vec<u8>, decision: &Decision) -> Result<(), Memory>
    ensures bytes { OnOk result (out.new.items ≡ out.old.items ++ decision_bytes decision.now) }
    ensures fits { OnOk result (DecisionFits decision.now) }
{
    out.push(outcome_byte(decision.outcome))?;
    put_shared(out, &decision.report)?;
    out.extend_from_slice(&decision.lists)?;
    put_text(out, decision.reviewer.as_bytes())?;
    put_u4(out, decision.day)
}

#[tactic(auto, unfolding(crate::specs::Spelling::appeal_bytes))]
fn put_appeal(out: &mut Vec<u8>, appeal: &Appeal) -> Result<(), Memory>
    ensures bytes { OnOk result (out.new.items ≡ out.old.items ++ appeal_bytes appeal.now) }
    ensures fits { OnOk result (AppealFits appeal.now) }
{
    put_u4(out, appeal.day)?;
    put_shared(out, &appeal.text)
}

#[tactic(auto, unfolding(crate::specs::Spelling::ruling_bytes))]
fn put_ruling(out: &mut Vec<u8>, ruling: &Ruling) -> Result<(), Memory>
    ensures bytes { OnOk result (out.new.items ≡ out.old.items ++ ruling_bytes ruling.now) }
    ensures fits { OnOk result (RulingFits ruling.now) }
{
    put_text(out, ruling.reviewer.as_bytes())?;
    put_u4(out, ruling.day)?;
    out.push(word_byte(ruling.word))?;
    Ok(())
}

/// Puts a kind and the name of a case.
fn put_name(out: &mut Vec<u8>, kind: u8, party: &Name, reference: &Name) -> Result<(), Memory>
    ensures bytes { OnOk result (out.new.items ≡ out.old.items ++ named_bytes kind party.now reference.now []) }
    ensures fits { OnOk result (NamesFit party.now reference.now) }
{
    out.push(kind)?;
    put_text(out, party.as_bytes())?;
    put_text(out, reference.as_bytes())
}

/// Puts the bytes of a change behind others; after want of memory they may be there in part. The entries of a case that
/// is added are not written: it has none.
#[tactic(auto, unfolding(crate::specs::Spelling::change_bytes))]
pub fn put_change(out: &mut Vec<u8>, change: &Change) -> Result<(), Memory>
    ensures bytes { OnOk result (out.new.items ≡ out.old.items ++ change_bytes change.now) }
    ensures fits { OnOk result (FieldsFit change.now) }
{
    match change {
        Change::Add(case) => {
            put_name(out, 0, &case.party, &case.reference)?;
            put_content(out, &case.content)
        }
        Change::Decide(party, reference, decision) => {
            put_name(out, 1, party, reference)?;
            put_decision(out, decision)
        }
        Change::Appeal(party, reference, appeal) => {
            put_name(out, 2, party, reference)?;
            put_appeal(out, appeal)
        }
        Change::Rule(party, reference, ruling) => {
            put_name(out, 3, party, reference)?;
            put_ruling(out, ruling)
        }
    }
}

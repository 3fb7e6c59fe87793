ghost use Rattle.std.specs.Prelude.{◌≡◌, IfOk};

use crate::{Appeal, Case, Content, Decision, Entry, Line, Ruling};
use vet_base::Memory;

impl Content {
    /// The same content over the same storage.
    pub fn copy(&self) -> Result<Content, Memory>
        ensures { IfOk result (λ copy. copy ≡ self.now) }
    {
        Ok(Content {
            manifest: self.manifest.copy()?,
            layouts: self.layouts.copy()?,
            declaration: self.declaration.copy()?,
            dex: self.dex.copy()?,
        })
    }
}

impl Decision {
    /// The same decision over the same storage.
    pub fn copy(&self) -> Result<Decision, Memory>
        ensures { IfOk result (λ copy. copy ≡ self.now) }
    {
        Ok(Decision {
            outcome: self.outcome,
            report: self.report.copy()?,
            lists: self.lists,
            reviewer: self.reviewer.copy()?,
            day: self.day,
        })
    }
}

impl Appeal {
    /// The same appeal over the same storage.
    pub fn copy(&self) -> Result<Appeal, Memory>
        ensures { IfOk result (λ copy. copy ≡ self.now) }
    {
        Ok(Appeal {
            day: self.day,
            text: self.text.copy()?,
        })
    }
}

impl Ruling {
    /// The same ruling over the same storage.
    pub fn copy(&self) -> Result<Ruling, Memory>
        ensures { IfOk result (λ copy. copy ≡ self.now) }
    {
        Ok(Ruling {
            reviewer: self.reviewer.copy()?,
            day: self.day,
            word: self.word,
        })
    }
}

fn appeal_copied(appeal: &Option<Appeal>) -> Result<Option<Appeal>, Memory>
    ensures { IfOk result (λ copy. copy ≡ appeal.now) }
{
    match appeal {
        None => Ok(None),
        Some(appeal) => Ok(Some(appeal.copy()?)),
    }
}

fn ruling_copied(ruling: &Option<Ruling>) -> Result<Option<Ruling>, Memory>
    ensures { IfOk result (λ copy. copy ≡ ruling.now) }
{
    match ruling {
        None => Ok(None),
        Some(ruling) => Ok(Some(ruling.copy()?)),
    }
}

impl Entry {
    /// The same entry over the same storage.
    pub fn copy(&self) -> Result<Entry, Memory>
        ensures { IfOk result (λ copy. copy ≡ self.now) }
    {
        Ok(Entry {
            decision: self.decision.copy()?,
            appeal: appeal_copied(&self.appeal)?,
            ruling: ruling_copied(&self.ruling)?,
        })
    }
}

impl Line {
    /// The same line over the same storage.
    pub fn copy(&self) -> Result<Line, Memory>
        ensures { IfOk result (λ copy. copy ≡ self.now) }
    {
        Ok(Line {
            party: self.party.copy()?,
            reference: self.reference.copy()?,
            state: self.state,
        })
    }
}

impl Case {
    /// The same case over the same storage.
    pub fn copy(&self) -> Result<Case, Memory>
        ensures { IfOk result (λ copy. copy ≡ self.now) }
    {
        Ok(Case {
            party: self.party.copy()?,
            reference: self.reference.copy()?,
            content: self.content.copy()?,
            entries: self.entries.copy()?,
        })
    }
}

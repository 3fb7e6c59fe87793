ghost use Rattle.std.specs.Prelude.{◌≡◌, nat_eq};
ghost use Rattle.std.specs.Option.{option_copied};
ghost use Rattle.std.specs.Cmp.Lexicographic.{pointwise};
ghost use Rattle.case_rules.specs.Cases.{same_content, last, is_named, is_open, is_under, is_queued};
ghost use Rattle.case_rules.specs.Cases.{has_edition, has_open_appeal, stage, state_of};

use crate::{Appeal, Case, Content, Entry, Ruling, State};
use vet_base::{Name, Shared};

fn same_parts(a: &[Shared<u8>], b: &[Shared<u8>]) -> bool
    ensures { result ≡ pointwise (pointwise nat_eq) a.now b.now }
{
    if a.len() != b.len() {
        return false;
    }
    for i in 0..a.len() {
        if a[i].as_slice() != b[i].as_slice() {
            return false;
        }
    }
    true
}

impl Content {
    /// Whether the files have the same bytes.
    pub fn is_same(&self, other: &Content) -> bool
        ensures { result ≡ same_content self.now other.now }
    {
        self.manifest.as_slice() == other.manifest.as_slice()
            && self.layouts.as_slice() == other.layouts.as_slice()
            && self.declaration.as_slice() == other.declaration.as_slice()
            && same_parts(self.dex.as_slice(), other.dex.as_slice())
    }
}

fn stage(appeal: &Option<Appeal>, ruling: &Option<Ruling>) -> State
    ensures { result ≡ stage appeal.now ruling.now }
{
    match (appeal, ruling) {
        (None, _) => State::Decided,
        (Some(_), None) => State::Appealed,
        (Some(_), Some(_)) => State::Ruled,
    }
}

impl Entry {
    /// Whether there is an appeal and no ruling.
    pub fn is_open(&self) -> bool
        ensures { result ≡ is_open self.now }
    {
        self.appeal.is_some() && self.ruling.is_none()
    }

    fn is_under(&self, lists: &[u8; 32]) -> bool
        ensures { result ≡ is_under lists.now self.now }
    {
        self.decision.lists == *lists
    }
}

impl Case {
    /// The last entry, where there is one.
    pub fn last_entry(&self) -> Option<&Entry>
        ensures { option_copied result ≡ last self.now.entries }
    {
        self.entries.as_slice().last()
    }

    /// How far the case is.
    pub fn state(&self) -> State
        ensures { result ≡ state_of self.now }
    {
        match self.last_entry() {
            None => State::Queued,
            Some(entry) => stage(&entry.appeal, &entry.ruling),
        }
    }

    /// Whether this is the case of this developer and reference.
    pub fn is_named(&self, party: &Name, reference: &Name) -> bool
        ensures { result ≡ is_named party.now reference.now self.now }
    {
        self.party == *party && self.reference == *reference
    }

    /// Whether the case has no entry.
    pub fn is_queued(&self) -> bool
        ensures { result ≡ is_queued self.now }
    {
        self.entries.is_empty()
    }

    /// Whether the last entry has an appeal and no ruling.
    pub fn has_open_appeal(&self) -> bool
        ensures { result ≡ has_open_appeal self.now }
    {
        match self.last_entry() {
            None => false,
            Some(entry) => entry.is_open(),
        }
    }

    /// Whether the case was decided under this edition of the lists.
    pub fn has_edition(&self, lists: &[u8; 32]) -> bool
        ensures { result ≡ has_edition lists.now self.now }
    {
        self.entries
            .as_slice()
            .iter()
            .any(|entry| entry.is_under(lists))
    }
}

//! The text of the lists of an office.
ghost use Rattle.std.specs.Prelude.{◌≡◌, ◌≢◌, IfOk, IfErr};
ghost use Rattle.app_machine.specs.SoundLists.{SoundLists};
ghost use Rattle.form_fields.specs.Form.{IsForm, FirstFormFault};
ghost use Rattle.store_lists.specs.Lists.{lists_form};
ghost use Rattle.store_lists.specs.declared.lists.StoreLists.{StoreLists};
ghost use Rattle.form_texts.specs.Said.{SaysLists, lists_of};

use crate::said::{SaidLists, said_by_lists};
use office_forms::FormFault;
use std::alloc::Global;
use std::marker::Model;
use vet_base::{Memory, Shared};

/// The text of lists, with what they say where it was read. Contracts see the text.
#[derive(Drop)]
pub struct ListsText {
    text: Shared<u8>,
    said: Option<SaidLists>,
}

impl Model for ListsText {
    ghost use Rattle.std.specs.Prelude.{List, ℕ, IfSome};
    ghost use Rattle.form_texts.specs.Said.{SaysLists};

    ghost Value = { List ℕ };

    ghost view = { λ t. t.text };

    ghost invariant = { λ t. IfSome t.said (SaysLists t.text) };
}

fn both_copied(text: &Shared<u8>, said: &SaidLists) -> Result<ListsText, Memory>
    requires { SaysLists text.now said.now }
    ensures { IfOk result (λ copy. copy ≡ text.now) }
{
    let text = text.copy()?;
    let said = said.copy()?;
    Ok(ListsText {
        text,
        said: Some(said),
    })
}

impl ListsText {
    /// The text, which is not read yet.
    pub fn new(text: Shared<u8>) -> ListsText
        ensures { result ≡ text }
    {
        ListsText { text, said: None }
    }

    /// The text, which is read now, or its first fault.
    pub fn read(alloc: Global, text: Shared<u8>) -> Result<ListsText, FormFault>
        ensures ok { IfOk result (λ lists. lists ≡ text) }
        ensures form { IfOk result (λ _. (said : StoreLists) × IsForm lists_form text said) }
        ensures err { IfErr result (λ e. e ≢ FormFault.Memory → FirstFormFault lists_form text e) }
    {
        match said_by_lists(alloc, text.as_slice()) {
            Ok(said) => Ok(ListsText {
                text,
                said: Some(said),
            }),
            Err(fault) => Err(fault),
        }
    }

    pub fn as_slice(&self) -> &[u8]
        ensures { result.now ≡ self.now }
    {
        self.text.as_slice()
    }

    /// The same text with what it says, over the same storage. It takes no memory, and fails only where 2^63 - 1
    /// copies of it are held.
    pub fn copy(&self) -> Result<ListsText, Memory>
        ensures { IfOk result (λ lists. lists ≡ self.now) }
    {
        match &self.said {
            Some(said) => both_copied(&self.text, said),
            None => Ok(ListsText::new(self.text.copy()?)),
        }
    }

    /// What the text says. It is read only where it was not read before.
    pub fn said(&self, alloc: Global) -> Result<SaidLists, FormFault>
        ensures form { IfOk result (λ said. IsForm lists_form self.now (lists_of said)) }
        ensures sound { IfOk result (λ said. SoundLists said.lists) }
        ensures err { IfErr result (λ e. e ≢ FormFault.Memory → FirstFormFault lists_form self.now e) }
    {
        match &self.said {
            Some(said) => match said.copy() {
                Ok(said) => Ok(said),
                Err(Memory) => Err(FormFault::Memory),
            },
            None => said_by_lists(alloc, self.text.as_slice()),
        }
    }
}

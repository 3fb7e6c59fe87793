ghost use Rattle.std.specs.Prelude.{◌≡◌, ◌↔◌, IsTrue};
ghost use Rattle.case_rules.specs.Docket.{is_appeal_text, IsFormed};

use crate::Command;
use store_office::is_reference;

/// Whether the bytes have the form of an appeal's text: 1 to 4,000 bytes.
pub fn is_appeal_text(bytes: &[u8]) -> bool
    ensures { result ≡ is_appeal_text bytes.now }
{
    1 <= bytes.len() && bytes.len() <= 4000
}

impl Command {
    /// Whether the reference of a submission and the text of an appeal have their form.
    pub fn is_formed(&self) -> bool
        ensures { IsTrue result ↔ IsFormed self.now }
    {
        match self {
            Command::Submit(reference, _) => is_reference(reference.as_bytes()),
            Command::Appeal(_, text) => is_appeal_text(text.as_slice()),
            _ => true,
        }
    }
}

//! Why a file that stands beside those of an app is refused.

ghost use Rattle.std.specs.Prelude.{◌≡◌, ◌++◌, OnOk};
ghost use Rattle.verdict_report.specs.Reasons.{unfit_text};

use crate::reasons::put_form_reason;
use form_fields::FormFault;
use printed_text::put;
use vet_base::Memory;

/// Why a file of an office, or the one of a developer, is refused.
#[derive(Drop)]
pub enum Unfit {
    /// The file is not there.
    Absent,
    /// The file has more than 16,777,216 bytes.
    TooLong,
    Form(FormFault),
}

/// Adds why it is refused.
#[tactic(auto, unfolding(crate::specs::Reasons::unfit_text))]
pub fn put_unfit(text: &mut Vec<u8>, unfit: &Unfit) -> Result<(), Memory>
    ensures { OnOk result (text.new.items ≡ text.old.items ++ unfit_text unfit.now) }
{
    match unfit {
        Unfit::Absent => put(text, b"absent".as_slice()),
        Unfit::TooLong => put(text, b"longer than 16777216".as_slice()),
        Unfit::Form(fault) => put_form_reason(text, fault),
    }
}

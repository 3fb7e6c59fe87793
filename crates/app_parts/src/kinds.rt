ghost use Rattle.std.specs.Prelude.{◌≡◌};
ghost use Rattle.app_machine.specs.Lookups.{is_by_receiver, is_static_call};

use app_machine::CallKind;

/// Whether the class of the receiver's object counts in a call of the kind.
#[tactic(auto, unfolding(app_machine::specs::Lookups::is_by_receiver))]
pub fn is_by_receiver(kind: CallKind) -> bool
    ensures { result ≡ is_by_receiver kind }
{
    match kind {
        CallKind::Virtual | CallKind::Interface => true,
        CallKind::Super | CallKind::Direct | CallKind::Static => false,
    }
}

/// Whether a call of the kind has no receiver.
pub fn is_static_call(kind: CallKind) -> bool
    ensures { result ≡ is_static_call kind }
{
    match kind {
        CallKind::Static => true,
        CallKind::Virtual | CallKind::Interface | CallKind::Super | CallKind::Direct => false,
    }
}

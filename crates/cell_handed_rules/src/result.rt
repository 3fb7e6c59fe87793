//! What a call gives to its result of what the library may have.
ghost use Rattle.std.specs.Prelude.{◌≡◌, OnOk, fold};
ghost use Rattle.app_machine.specs.Sound.{SoundApp};
ghost use Rattle.library_ground.specs.CallRow.{shown_call};
ghost use Rattle.handed_rules.specs.HandedGiven.{is_handed, takes};
ghost use Rattle.cell_handed_rules.specs.CellHandedGiven.{object_back, offered};

use crate::numbers;
use crate::offer::Offer;
use app_parts::{CallResult, RESULT};
use cell_ground::{Content, come_to};
use event_index::EventIndex;
use library_ground::LibraryCall;
use register_readers::RegisterReaders;
use rule_ground::{Inference, Premises, Sink};
use vet_base::Name;

/// Whether results of this kind are what the library has.
pub fn is_handed(kind: CallResult) -> bool
    ensures { result ≡ is_handed kind }
{
    match kind {
        CallResult::Handed => true,
        _ => false,
    }
}

/// Whether the result of the call may be an object of the class.
fn takes(index: &EventIndex<'_>, call: &LibraryCall<'_>, class: &Name) -> bool
    requires { SoundApp index.now.0 }
    ensures { result ≡ takes index.now.0 index.now.1 (shown_call call.now) class.now }
{
    is_handed(call.gives()) && call.has_reference() && index.is_below(class, &call.at.proto.ret)
}

/// What is offered comes to the result.
fn give_object<S: Sink>(
    readers: &RegisterReaders<'_>,
    call: &LibraryCall<'_>,
    offer: Offer,
    out: &mut S,
) -> Result<(), S::Refusal>
    ensures { OnOk result (out.new ≡ fold S.then out.old (object_back readers.now (shown_call call.now) offer)) }
{
    let inference = Inference {
        rule: numbers::GIVEN_BACK,
        premises: Premises::of_two(call.premise(), offer.there()),
    };
    let object = Content::Object(offer.site());
    come_to(
        readers, inference, object, call.node, RESULT, call.next, out,
    )
}

/// An offer, and its class.
#[derive(Clone, Copy)]
pub struct Offered<'a> {
    pub index: &'a EventIndex<'a>,
    pub readers: &'a RegisterReaders<'a>,
    pub offer: Offer,
    pub class: &'a Name,
}

/// It comes back from the call, where the result may be of the class.
pub fn give_back<S: Sink>(
    with: &Offered<'_>,
    call: &LibraryCall<'_>,
    out: &mut S,
) -> Result<(), S::Refusal>
    requires { SoundApp with.now.index.now.0 }
    ensures { OnOk result (out.new ≡ fold S.then out.old
        (offered with.now.index.now.0 with.now.readers.now with.now.index.now.1 with.now.offer with.now.class.now
        (shown_call call.now))) }
{
    if takes(with.index, call, with.class) {
        give_object(with.readers, call, with.offer, out)
    } else {
        Ok(())
    }
}

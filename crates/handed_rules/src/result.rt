//! What a call gives to its result of what the library may have.
ghost use Rattle.std.specs.Prelude.{◌≡◌, OnOk, fold};
ghost use Rattle.app_machine.specs.Sound.{SoundApp};
ghost use Rattle.library_ground.specs.CallRow.{shown_call};
ghost use Rattle.handed_rules.specs.HandedGiven.{is_handed, known_gives, label_back, label_row, object_back};
ghost use Rattle.handed_rules.specs.HandedGiven.{offered, takes};

use crate::numbers;
use crate::offer::{Known, Offer};
use access_path::Path;
use app_parts::{CallResult, RESULT};
use event_index::EventIndex;
use fact_rows::Row;
use library_ground::LibraryCall;
use rule_ground::{Content, Facts, Inference, Join, Premises, Sink, for_each_hit, put_each};
use vet_base::Name;

/// Whether results of this kind are what the library has.
pub fn is_handed(kind: CallResult) -> bool
    ensures { result ≡ is_handed kind }
{
    match kind {
        CallResult::Handed => true,
        _ => false,
    }
}

/// Whether the result of the call may be an object of the class.
fn takes(index: &EventIndex<'_>, call: &LibraryCall<'_>, class: &Name) -> bool
    requires { SoundApp index.now.0 }
    ensures { result ≡ takes index.now.0 index.now.1 (shown_call call.now) class.now }
{
    is_handed(call.gives()) && call.has_reference() && index.is_below(class, &call.at.proto.ret)
}

/// The result is what is offered.
fn give_object<S: Sink>(call: &LibraryCall<'_>, offer: Offer, out: &mut S) -> Result<(), S::Refusal>
    ensures { OnOk result (out.new ≡ fold S.then out.old (object_back (shown_call call.now) offer)) }
{
    let inference = Inference {
        rule: numbers::GIVEN_BACK,
        premises: Premises::of_two(call.premise(), offer.there()),
    };
    let object = Content::Object(offer.site());
    put_each(inference, object, call.node, RESULT, call.next, out)
}

/// The result has a label to which what is offered leads.
fn give_label<S: Sink>(
    call: &LibraryCall<'_>,
    offer: Offer,
    path: Path,
    label: u8,
    out: &mut S,
) -> Result<(), S::Refusal>
    ensures { OnOk result (out.new ≡ fold S.then out.old (label_back (shown_call call.now) offer path label)) }
{
    let leads = offer.leads(path, label);
    let inference = Inference {
        rule: numbers::GIVEN_BACK,
        premises: Premises::of_three(call.premise(), offer.there(), leads),
    };
    let content = Content::Label(path, label);
    put_each(inference, content, call.node, RESULT, call.next, out)
}

/// Each label to which it leads.
#[derive(Drop)]
struct Labels<'a> {
    call: LibraryCall<'a>,
    offer: Offer,
}

impl<'a> Join for Labels<'a> {
    ghost ready = { λ j. Unit {0} };

    ghost gives = { λ j row. label_row (shown_call j.call) j.offer row };

    fn give<S: Sink>(&self, row: Row, out: &mut S) -> Result<(), S::Refusal> {
        match row {
            Row::HandedTaint(_, path, label) => {
                give_label(&self.call, self.offer, path, label, out)
            }
            Row::CompTaint(_, _, path, label) => {
                give_label(&self.call, self.offer, path, label, out)
            }
            _ => Ok(()),
        }
    }
}

/// What is known of the offer comes back from the call.
fn give_known<F: Facts, S: Sink>(
    facts: &F,
    call: &LibraryCall<'_>,
    offer: Offer,
    known: Known,
    out: &mut S,
) -> Result<(), S::Refusal>
    ensures { OnOk result (out.new ≡ fold S.then out.old
        (known_gives (F.hits facts.now) (shown_call call.now) offer known)) }
{
    match known {
        Known::There => {
            give_object(call, offer, out)?;
            let with = Labels { call: *call, offer };
            for_each_hit(facts, &offer.labels_key(), &with, out)
        }
        Known::Leads(path, label) => give_label(call, offer, path, label, out),
    }
}

/// What is known of an offer, and its class.
#[derive(Clone, Copy)]
pub struct Offered<'a> {
    pub index: &'a EventIndex<'a>,
    pub offer: Offer,
    pub known: Known,
    pub class: &'a Name,
}

/// It comes back from the call, where the result may be of the class.
pub fn give_back<F: Facts, S: Sink>(
    facts: &F,
    with: &Offered<'_>,
    call: &LibraryCall<'_>,
    out: &mut S,
) -> Result<(), S::Refusal>
    requires { SoundApp with.now.index.now.0 }
    ensures { OnOk result (out.new ≡ fold S.then out.old
        (offered with.now.index.now.0 with.now.index.now.1 (F.hits facts.now) with.now.offer with.now.known
        with.now.class.now (shown_call call.now))) }
{
    if takes(with.index, call, with.class) {
        give_known(facts, call, with.offer, with.known, out)
    } else {
        Ok(())
    }
}

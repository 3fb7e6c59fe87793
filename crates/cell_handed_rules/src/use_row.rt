//! What follows from the use of a row: all that the library may have comes back, where it fits.
ghost use Rattle.std.specs.Prelude.{◌≡◌, OnOk, fold};
ghost use Rattle.app_machine.specs.Sound.{SoundApp};
ghost use Rattle.app_machine.specs.SoundLists.{SoundLists};
ghost use Rattle.flow_rules.specs.Sites.{site_class};
ghost use Rattle.library_ground.specs.CallRow.{call_row, shown_call};
ghost use Rattle.cell_handed_rules.specs.CellHandedGiven.{call_gives, offer_row, offered_as, use_gives};
ghost use Rattle.cell_handed_rules.specs.Offers.{site_of};

use crate::offer::Offer;
use crate::result::{Offered, give_back, is_handed};
use app_machine::SummaryId;
use event_index::EventIndex;
use fact_rows::{Node, Row};
use library_ground::{LibraryCall, call_row};
use register_readers::RegisterReaders;
use rule_ground::{Facts, Join, Key, Sink, for_each_hit};
use site_classes::site_class;

/// The offer comes back from the call.
fn give_offer<S: Sink>(
    index: &EventIndex<'_>,
    readers: &RegisterReaders<'_>,
    call: &LibraryCall<'_>,
    offer: Offer,
    out: &mut S,
) -> Result<(), S::Refusal>
    requires { SoundApp index.now.0 }
    ensures { OnOk result (out.new ≡ fold S.then out.old (offered_as index.now.0 readers.now index.now.1 offer
        (site_class index.now.0 index.now.1 (site_of offer)) (shown_call call.now))) }
{
    match site_class(index.app(), index.lists(), offer.site()) {
        None => Ok(()),
        Some(class) => {
            let with = Offered {
                index,
                readers,
                offer,
                class,
            };
            give_back(&with, call, out)
        }
    }
}

/// Each offer comes back from the call.
#[derive(Drop)]
struct Offers<'a> {
    index: &'a EventIndex<'a>,
    readers: &'a RegisterReaders<'a>,
    call: LibraryCall<'a>,
}

impl<'a> Join for Offers<'a> {
    ghost ready = { λ j. SoundApp j.index.now.0 };

    ghost gives = { λ j row. offer_row j.index.now.0 j.readers.now j.index.now.1 (shown_call j.call) row };

    fn give<S: Sink>(&self, row: Row, out: &mut S) -> Result<(), S::Refusal> {
        match row {
            Row::Handed(site) => {
                let offer = Offer::Handed(site);
                give_offer(self.index, self.readers, &self.call, offer, out)
            }
            Row::Live(component, state) => {
                if state == 0 {
                    return Ok(());
                }
                let offer = Offer::Live(component, state);
                give_offer(self.index, self.readers, &self.call, offer, out)
            }
            _ => Ok(()),
        }
    }
}

/// What follows from the call.
fn of_call<F: Facts, S: Sink>(
    index: &EventIndex<'_>,
    readers: &RegisterReaders<'_>,
    facts: &F,
    call: &LibraryCall<'_>,
    out: &mut S,
) -> Result<(), S::Refusal>
    requires { SoundApp index.now.0 }
    ensures { OnOk result (out.new ≡ fold S.then out.old (call_gives index.now.0 readers.now index.now.1
        (F.hits facts.now) (shown_call call.now))) }
{
    if is_handed(call.gives()) {
        let with = Offers {
            index,
            readers,
            call: *call,
        };
        for_each_hit(facts, &Key::AnyHanded, &with, out)?;
        for_each_hit(facts, &Key::AnyLive, &with, out)
    } else {
        Ok(())
    }
}

/// What follows from the use of the row at the node.
pub fn of_use<F: Facts, S: Sink>(
    index: &EventIndex<'_>,
    readers: &RegisterReaders<'_>,
    facts: &F,
    node: Node,
    uses: SummaryId,
    out: &mut S,
) -> Result<(), S::Refusal>
    requires sound { SoundApp index.now.0 }
    requires lists { SoundLists index.now.1 }
    ensures { OnOk result (out.new ≡ fold S.then out.old (use_gives index.now.0 readers.now index.now.1
        (F.hits facts.now) (call_row index.now.0 index.now.1 node uses))) }
{
    match call_row(index.app(), index.lists(), node, uses) {
        None => Ok(()),
        Some(call) => of_call(index, readers, facts, &call, out),
    }
}

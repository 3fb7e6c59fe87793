ghost use Rattle.std.specs.Prelude.{◌≡◌, Bool, option_map};
ghost use Rattle.std.specs.Option.{option_copied};
ghost use Rattle.app_machine.specs.declared.call.MethodRef.{MethodRef};
ghost use Rattle.app_machine.specs.Names.{object_class};
ghost use Rattle.app_machine.specs.Summaries.{listed_class, listed_above, summary};
ghost use Rattle.app_model.specs.Above.{is_among, is_listed_below};
ghost use Rattle.app_parts.specs.Views.{shown_summary};

use crate::{LibClass, Lists, SummaryId};
use app_parts::SummaryView;
use vet_base::Name;

/// What the lists say under the key. None exactly where they have no such row or default.
#[tactic(auto, unfolding(app_machine::specs::Summaries::summary))]
pub fn summary_of(lists: &Lists, key: SummaryId) -> Option<SummaryView<'_>>
    ensures { (at : MethodRef) (is_static : Bool) → option_map (λ s. shown_summary s at is_static) result
        ≡ summary lists.now key at is_static }
{
    match key {
        SummaryId::Row(row) => match lists.methods.get(row as usize) {
            Some(row) => Some(SummaryView::Row(row)),
            None => None,
        },
        SummaryId::Fallback(class) => match lists.classes.get(class as usize) {
            Some(class) => match class.fallback {
                Some(word) => Some(SummaryView::Default(word)),
                None => None,
            },
            None => None,
        },
    }
}

/// Whether the two names are the same, or the lists have the second one above the first.
#[tactic(auto, unfolding(crate::specs::Above::is_listed_below, crate::specs::Above::is_among, app_machine::specs::Summaries::listed_above))]
pub(super) fn is_listed_below(lists: &Lists, class: &[u8], kind: &[u8]) -> bool
    ensures { result ≡ is_listed_below lists.now class.now kind.now }
{
    if class == kind {
        return true;
    }
    match listed(lists, class) {
        Some(class) => is_among(class.above.as_slice(), kind),
        None => false,
    }
}

/// Whether the name is one of these.
#[tactic(auto, unfolding(crate::specs::Above::is_among))]
fn is_among(names: &[Name], name: &[u8]) -> bool
    ensures { result ≡ is_among names.now name.now }
{
    names.iter().any(|other| other.as_bytes() == name)
}

/// The listed class of this name.
#[tactic(auto, unfolding(app_machine::specs::Summaries::listed_class), using(crate::proofs::First::none_before, crate::proofs::First::none_up_to, crate::proofs::First::first_at, crate::proofs::First::none_at_all))]
fn listed<'a>(lists: &'a Lists, name: &[u8]) -> Option<&'a LibClass>
    ensures { option_copied result ≡ listed_class lists.now name.now }
{
    for class in lists.classes.as_slice() {
        if class.name.as_bytes() == name {
            return Some(class);
        }
    }
    None
}

#[tactic(auto, unfolding(app_machine::specs::Names::object_class))]
pub(super) fn object_name() -> &'static [u8]
    ensures { result.now ≡ object_class }
{
    b"Ljava/lang/Object;"
}

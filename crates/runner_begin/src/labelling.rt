ghost use Rattle.std.specs.Prelude.{◌≡◌, ◌↔◌, ◌⊎◌, ℕ, IsTrue, [], ◌∷◌, if◌then◌else◌, None, Some, option_to_list};
ghost use Rattle.app_machine.specs.Events.{labels_at};
ghost use Rattle.played_machine.specs.Ordered.{ascending};
ghost use Rattle.runner_state.specs.Shown.{labels_of};
ghost use Rattle.vet_base.specs.Members.{In};

use runner_state::Labels;

/// The categories with which the value of the position comes.
pub fn labels_at(sources: &[(u32, u8)], position: u32) -> Labels
    ensures { labels_of result ≡ ascending (labels_at sources.now position) }
{
    let mut labels = Labels::none();
    for source in sources {
        labels = with_category(labels, source.0 == position, source.1);
    }
    labels
}

/// The labels with the category, where it is of the position.
fn with_category(labels: Labels, is_of: bool, category: u8) -> Labels
    ensures { (l : ℕ) → In l (labels_of result)
        ↔ (In l (labels_of labels) ⊎ In l (option_to_list (if is_of then Some category else None))) }
{
    if is_of {
        labels.joined(Labels::one(category))
    } else {
        labels
    }
}

/// Whether there is no label.
pub fn is_none(labels: Labels) -> bool
    ensures { IsTrue result ↔ (labels_of labels ≡ []) }
{
    for label in 0..256u32 {
        if labels.has(label as u8) {
            return false;
        }
    }
    true
}

ghost use Rattle.std.specs.Prelude.{◌≤◌, ℕ, List, length};
ghost use Rattle.std.specs.List.{sum_by};
ghost use Rattle.client_body.specs.Bodies.{body_of};

use case_rules::Content;
use vet_base::Shared;

/// How many bytes the files have, or fewer where a `usize` has no room for it.
fn size_of(files: &[Shared<u8>]) -> usize
    ensures { result ≤ sum_by length files.now }
{
    let mut size = 0usize;
    for file in files {
        size = size.saturating_add(file.len());
    }
    size
}

/// A length that the body of the app's submission has at least, whatever its
/// reference, found without making it: how many bytes its files have together.
#[tactic(auto, using(crate::proofs::Sizes::body_is_longer))]
pub fn least_size(content: &Content) -> usize
    ensures { (reference : List ℕ) → result ≤ length (body_of reference content.now) }
{
    let dex = size_of(content.dex.as_slice());
    dex.saturating_add(content.manifest.len())
        .saturating_add(content.layouts.len())
        .saturating_add(content.declaration.len())
}

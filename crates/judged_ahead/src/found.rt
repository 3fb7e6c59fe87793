//! What was found, and where it stands.
ghost use Rattle.std.specs.Prelude.{◌≡◌, ◌++◌, ◌∷◌, [], ◌<◌, ◌⊎◌, length, IfSome, slice_index_or};
ghost use Rattle.vet_base.specs.Members.{In};
ghost use Rattle.judged_ahead.specs.declared.found.Found.{Found as FoundApp};

use case_rules::Content;
use desk_serving::Judged;

/// The most contents that wait, and the most of which is kept what was found.
const MOST: usize = 64;

/// With so many bytes, 64 MiB, contents are too many for one more.
const MANY_BYTES: u64 = 67_108_864;

/// What a content came to.
#[derive(Drop)]
pub struct Found {
    pub content: Content,
    pub judged: Judged,
}

/// How many bytes a content has.
fn size_of(content: &Content) -> u64 {
    let texts = [
        content.manifest.len(),
        content.layouts.len(),
        content.declaration.len(),
    ];
    let mut size = 0u64;
    for text in texts {
        size = size.saturating_add(text as u64);
    }
    for file in content.dex.as_slice() {
        size = size.saturating_add(file.len() as u64);
    }
    size
}

/// Whether no further content may wait.
pub fn are_many(wanted: &[Content]) -> bool {
    let mut size = 0u64;
    for content in wanted {
        size = size.saturating_add(size_of(content));
    }
    wanted.len() >= MOST || size >= MANY_BYTES
}

/// Whether there is no room for what a further content comes to.
pub fn is_full(found: &[Found]) -> bool {
    let mut size = 0u64;
    for one in found {
        size = size.saturating_add(size_of(&one.content));
    }
    found.len() >= MOST || size >= MANY_BYTES
}

/// Lets a content wait, unless many do or there is no memory for it.
pub fn note(wanted: &mut Vec<Content>, content: &Content) {
    if are_many(wanted) {
        return;
    }
    if let Ok(copy) = content.copy() {
        let _ = wanted.push(copy);
    }
}

/// The first of those that wait, which waits no more.
pub fn next_of(wanted: &mut Vec<Content>) -> Option<Content> {
    if wanted.is_empty() {
        None
    } else {
        Some(wanted.remove(0))
    }
}

/// Lets a content wait no more.
pub fn forget(wanted: &mut Vec<Content>, content: &Content) {
    for i in 0..wanted.len() {
        if wanted[i].is_same(content) {
            wanted.remove(i);
            return;
        }
    }
}

/// Where the first stands that was found of a content.
#[tactic(auto, using(crate::proofs::Removed::content_equal))]
fn place_of(found: &[Found], content: &Content) -> Option<usize>
    ensures there { IfSome result (λ i. i < length found.now) }
    ensures same { IfSome result (λ i. (f : FoundApp) → (slice_index_or found.now i f).content ≡ content.now) }
{
    for i in 0..found.len() {
        if found[i].content.is_same(content) {
            return Some(i);
        }
    }
    None
}

/// What was found of a content, which is taken out.
pub fn taken(found: &mut Vec<Found>, content: &Content) -> Option<Found>
    ensures content { IfSome result (λ f. f.content ≡ content.now) }
    ensures there { IfSome result (λ f. In f found.old.items) }
    ensures left { (f : FoundApp) → In f found.new.items → In f found.old.items }
{
    match place_of(found, content) {
        Some(i) => Some(found.remove(i)),
        None => None,
    }
}

/// Adds what was found, where there is memory for it.
pub fn add(found: &mut Vec<Found>, one: Found)
    ensures { (f : FoundApp) → In f found.new.items → In f found.old.items ⊎ (f ≡ one) }
{
    let _ = found.push(one);
}

/// The judgement of a content, whose bytes are given back.
pub fn judgement_in(found: Found) -> Judged
    ensures { result ≡ found.judged }
{
    let Found { content: _, judged } = found;
    judged
}

//! The memo that server and worker share.
ghost use Rattle.std.specs.Prelude.{◌≡◌, ◌⊎◌, IfSome};
ghost use Rattle.vet_base.specs.Members.{In};
ghost use Rattle.desk_serving.specs.Obeying.{judgement_of};
ghost use Rattle.judged_ahead.specs.declared.found.Found.{Found as FoundApp};

use crate::finding::Finding;
use crate::found::{Found, add, forget, is_full, judgement_in, next_of, note, taken};
use case_rules::Content;
use desk_serving::Judged;
use std::alloc::Global;
use std::marker::{Model, PhantomData};

/// The contents that wait to be judged, in the order in which they came to the queue; what was found of others; and
/// whether it is over. Contracts see what was found, each of which is what its content comes to.
#[derive(Drop)]
pub struct Memo<B: Finding> {
    wanted: Vec<Content>,
    found: Vec<Found>,
    is_over: bool,
    of: PhantomData<B>,
}

impl<B: Finding> Model for Memo<B> {
    ghost use Rattle.std.specs.Prelude.{List};
    ghost use Rattle.judged_ahead.specs.declared.found.Found.{Found as FoundOne};
    ghost use Rattle.judged_ahead.specs.Memos.{AreFound};

    ghost Value = { List FoundOne };

    ghost view = { λ m. m.found.items };

    ghost invariant = { λ m. AreFound B.finds m.found.items };
}

impl<B: Finding> Memo<B> {
    pub fn new(alloc: Global) -> Memo<B> {
        Memo {
            wanted: Vec::new(alloc),
            found: Vec::new(alloc),
            is_over: false,
            of: PhantomData,
        }
    }

    /// Lets a content wait, unless many do.
    pub fn want(&mut self, content: &Content)
        ensures { self.new ≡ self.old }
    {
        note(&mut self.wanted, content);
    }

    /// The first content that waits, which waits no more.
    pub fn next(&mut self) -> Option<Content>
        ensures { self.new ≡ self.old }
    {
        next_of(&mut self.wanted)
    }

    /// Lets a content wait no more.
    pub fn forget(&mut self, content: &Content)
        ensures { self.new ≡ self.old }
    {
        forget(&mut self.wanted, content);
    }

    /// Keeps what a content comes to, where there is memory for it.
    pub fn put(&mut self, content: Content, judged: Judged)
        requires { B.finds content (judgement_of judged) }
        ensures { (f : FoundApp) → In f self.new → In f self.old ⊎ (f ≡ record { content = content; judged = judged }) }
    {
        add(&mut self.found, Found { content, judged });
    }

    /// What was found of a content, which is taken out: a content that is asked for twice is judged twice.
    pub fn take(&mut self, content: &Content) -> Option<Judged>
        ensures found { IfSome result (λ judged. B.finds content.now (judgement_of judged)) }
        ensures left { (f : FoundApp) → In f self.new → In f self.old }
    {
        match taken(&mut self.found, content) {
            Some(found) => Some(judgement_in(found)),
            None => None,
        }
    }

    /// Ends it: nothing more is to be judged ahead.
    pub fn end(&mut self)
        ensures { self.new ≡ self.old }
    {
        self.is_over = true;
    }

    pub fn is_over(&self) -> bool {
        self.is_over
    }

    /// Whether a worker has to wait: nothing waits to be judged, or there is no room for what it comes to.
    pub fn is_idle(&self) -> bool {
        !self.is_over && (self.wanted.is_empty() || is_full(&self.found))
    }
}

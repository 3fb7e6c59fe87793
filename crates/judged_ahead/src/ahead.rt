ghost use Rattle.std.specs.Prelude.{◌≡◌, IfOk};
ghost use Rattle.case_rules.specs.declared.case.Content.{Content as Files};
ghost use Rattle.case_rules.specs.Desk.{Judgement};
ghost use Rattle.desk_serving.specs.Obeying.{judgement_of};

use crate::finding::Finding;
use crate::shelf::Shelf;
use case_rules::Content;
use desk_serving::{Judge, Judged};
use std::alloc::Global;
use std::sync::Wait;
use vet_base::Memory;

/// One who judges apps as another does, and looks first at what was found ahead.
#[derive(Drop)]
pub struct Ahead<'a, 'b, J, B: Finding, T> {
    pub rt: &'a T,
    pub judge: &'b J,
    pub shelf: &'b Shelf<B>,
}

impl<'a, 'b, J: Judge, B: Finding, T: Wait> Judge for Ahead<'a, 'b, J, B, T> {
    ghost ready = { λ a. J.ready a.judge.now
        × ((content : Files) (found : Judgement) → B.finds content found → J.finds a.judge.now content found) };

    ghost finds = { λ a. J.finds a.judge.now };

    ghost edition = { λ a. J.edition a.judge.now };

    fn edition(&self) -> &[u8; 32]
        ensures { result.now ≡ J.edition self.now.judge.now }
    {
        self.judge.edition()
    }

    fn judge(&self, alloc: Global, content: &Content) -> Result<Judged, Memory>
        requires { J.ready self.now.judge.now
            × ((content : Files) (found : Judgement) → B.finds content found → J.finds self.now.judge.now content found) }
        ensures { IfOk result (λ judged. J.finds self.now.judge.now content.now (judgement_of judged)) }
    {
        self.shelf.judged(self.rt, alloc, self.judge, content)
    }

    fn ahead(&self, content: &Content) {
        self.shelf.want(self.rt, content);
    }
}

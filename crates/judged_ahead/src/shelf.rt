//! A memo where server and worker reach it.
ghost use Rattle.std.specs.Prelude.{IfOk, IfSome};
ghost use Rattle.case_rules.specs.declared.case.Content.{Content as Files};
ghost use Rattle.case_rules.specs.Desk.{Judgement};
ghost use Rattle.desk_serving.specs.Obeying.{judgement_of};

use crate::finding::Finding;
use crate::memo::Memo;
use case_rules::Content;
use desk_serving::{Judge, Judged};
use std::alloc::Global;
use std::sync::{Condvar, Mutex, Wait};
use vet_base::Memory;

/// The memo, who waits for a change of it, and whose turn it is to judge: one app is judged at a time. Who has the turn
/// may reach for the memo, and nobody waits for the turn who has the memo.
#[derive(Drop)]
pub struct Shelf<B: Finding> {
    memo: Mutex<Memo<B>>,
    changed: Condvar,
    turn: Mutex<()>,
}

impl<B: Finding> Shelf<B> {
    pub fn new(alloc: Global) -> Shelf<B> {
        Shelf {
            memo: Mutex::new(Memo::new(alloc)),
            changed: Condvar::new(),
            turn: Mutex::new(()),
        }
    }

    /// Lets a content wait, unless many do.
    pub fn want<R: Wait>(&self, rt: &R, content: &Content) {
        self.memo.lock(rt).want(content);
        self.changed.notify_all();
    }

    /// What was found of a content, which is taken out.
    fn take<R: Wait>(&self, rt: &R, content: &Content) -> Option<Judged>
        ensures { IfSome result (λ judged. B.finds content.now (judgement_of judged)) }
    {
        let taken = self.memo.lock(rt).take(content);
        self.changed.notify_all();
        taken
    }

    /// The same, and where nothing was found, the content waits no more.
    fn take_or_forget<R: Wait>(&self, rt: &R, content: &Content) -> Option<Judged>
        ensures { IfSome result (λ judged. B.finds content.now (judgement_of judged)) }
    {
        let taken = self.take(rt, content);
        if taken.is_none() {
            self.memo.lock(rt).forget(content);
        }
        taken
    }

    /// What a content comes to: what was found of it, or what is found now, when it is the caller's turn. While an app
    /// is judged ahead it is waited for.
    pub fn judged<J: Judge, R: Wait>(
        &self,
        rt: &R,
        alloc: Global,
        judge: &J,
        content: &Content,
    ) -> Result<Judged, Memory>
        requires ready { J.ready judge.now }
        requires back { (content : Files) (found : Judgement) → B.finds content found → J.finds judge.now content found }
        ensures { IfOk result (λ judged. J.finds judge.now content.now (judgement_of judged)) }
    {
        if let Some(judged) = self.take(rt, content) {
            return Ok(judged);
        }
        let _turn = self.turn.lock(rt);
        match self.take_or_forget(rt, content) {
            Some(judged) => Ok(judged),
            None => judge.judge(alloc, content),
        }
    }

    /// Nothing more is to be judged ahead.
    pub fn end<R: Wait>(&self, rt: &R) {
        self.memo.lock(rt).end();
        self.changed.notify_all();
    }

    /// Waits until there is something to judge, and room for what it comes to; false where it is over.
    fn goes_on<R: Wait>(&self, rt: &R) -> bool {
        let memo = self
            .changed
            .wait_while(rt, self.memo.lock(rt), |memo| memo.is_idle());
        !memo.is_over()
    }

    /// Judges the first content that waits, and keeps what it comes to, unless there was no memory.
    fn judge_next<J: Judge, R: Wait>(&self, rt: &R, alloc: Global, judge: &J)
        requires ready { J.ready judge.now }
        requires there { (content : Files) (found : Judgement) → J.finds judge.now content found → B.finds content found }
    {
        let _turn = self.turn.lock(rt);
        let next = self.memo.lock(rt).next();
        let Some(content) = next else {
            return;
        };
        if let Ok(judged) = judge.judge(alloc, &content) {
            self.memo.lock(rt).put(content, judged);
        }
    }

    /// Judges what waits, one after the other, until it is over.
    pub fn work<J: Judge, R: Wait>(&self, rt: &R, alloc: Global, judge: &J)
        requires ready { J.ready judge.now }
        requires there { (content : Files) (found : Judgement) → J.finds judge.now content found → B.finds content found }
    {
        for _ in rt.forever() {
            if !self.goes_on(rt) {
                break;
            }
            self.judge_next(rt, alloc, judge);
        }
    }
}

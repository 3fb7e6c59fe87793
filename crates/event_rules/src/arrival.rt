ghost use Rattle.std.specs.Prelude.{◌≡◌, OnOk, fold, flat_map, option_map};
ghost use Rattle.app_machine.specs.Sound.{SoundApp};
ghost use Rattle.app_model.specs.EventBodies.{shown_callback};
ghost use Rattle.event_rules.specs.Calling.{call_gives, calls_give, context_on, row_gives, sources_at};
ghost use Rattle.event_rules.specs.EventGiven.{is_called, runs};

use app_machine::{App, Lists};
use app_model::CalledBack;
use begin_rules::{Start, enter};
use event_index::{Coming, EventIndex};
use fact_rows::Ctx;
use rule_ground::{Content, Premises, Sink};
use vet_base::Name;

/// On what callbacks come.
#[derive(Clone, Copy)]
pub enum On {
    Handed,
    Component(u32),
}

impl On {
    /// The context of the callback row.
    fn context(self, row: u32) -> Ctx
        ensures { result ≡ context_on self row }
    {
        match self {
            On::Handed => Ctx::Handed(row),
            On::Component(component) => Ctx::Callback(component, row),
        }
    }
}

/// The labelled positions of the callback row.
fn sources_of(lists: &Lists, row: u32) -> &[(u32, u8)]
    ensures { result.now ≡ sources_at lists.now row }
{
    match lists.callbacks.get(row as usize) {
        Some(callback) => callback.sources.as_slice(),
        None => &[],
    }
}

/// By which rule and premises events come to an object, and what their receiver then holds.
#[derive(Clone, Copy)]
pub struct Arrival {
    pub rule: u8,
    pub premises: Premises,
    pub content: Content,
}

impl Arrival {
    fn start(&self, ctx: Ctx, body: u32) -> Start
        ensures { result ≡ record { rule = self.now.rule; premises = self.now.premises; ctx = ctx; body = body } }
    {
        Start {
            rule: self.rule,
            premises: self.premises,
            ctx,
            body,
        }
    }

    /// The event runs the body, where there is one.
    pub fn run<S: Sink>(
        &self,
        app: &App,
        ctx: Ctx,
        body: Option<u32>,
        out: &mut S,
    ) -> Result<(), S::Refusal>
        requires { SoundApp app.now }
        ensures { OnOk result (out.new ≡ fold S.then out.old (runs app.now self.now ctx body)) }
    {
        match body {
            None => Ok(()),
            Some(body) => enter(app, &self.start(ctx, body), &[], self.content, out),
        }
    }

    /// The callback, where there is one, comes with its labelled parameters.
    pub fn call_back<S: Sink>(
        &self,
        app: &App,
        ctx: Ctx,
        found: Option<CalledBack<'_>>,
        out: &mut S,
    ) -> Result<(), S::Refusal>
        requires { SoundApp app.now }
        ensures { OnOk result
            (out.new ≡ fold S.then out.old (is_called app.now self.now ctx (option_map shown_callback found.entry))) }
    {
        match found {
            None => Ok(()),
            Some(found) => enter(
                app,
                &self.start(ctx, found.body),
                found.sources,
                self.content,
                out,
            ),
        }
    }

    /// The callback comes with its labelled parameters.
    fn call<S: Sink>(
        &self,
        index: &EventIndex<'_>,
        on: On,
        coming: Coming,
        out: &mut S,
    ) -> Result<(), S::Refusal>
        requires { SoundApp index.now.0 }
        ensures { OnOk result (out.new ≡ fold S.then out.old (call_gives index.now.0 index.now.1 self.now on coming)) }
    {
        let found = CalledBack {
            sources: sources_of(index.lists(), coming.row),
            body: coming.body,
        };
        self.call_back(index.app(), on.context(coming.row), Some(found), out)
    }

    fn call_each<S: Sink>(
        &self,
        index: &EventIndex<'_>,
        on: On,
        comings: &[Coming],
        out: &mut S,
    ) -> Result<(), S::Refusal>
        requires { SoundApp index.now.0 }
        ensures { OnOk result (out.new ≡ fold S.then out.old (flat_map (call_gives index.now.0 index.now.1 self.now on)
            comings.now)) }
    {
        for coming in comings {
            self.call(index, on, *coming, out)?;
        }
        Ok(())
    }

    /// The callback row comes, where it comes to objects of the class.
    #[tactic(auto, using(crate::proofs::Calling::row_calls, crate::proofs::Calling::row_calls_none))]
    fn call_row<S: Sink>(
        &self,
        index: &EventIndex<'_>,
        on: On,
        class: &Name,
        row: u32,
        out: &mut S,
    ) -> Result<(), S::Refusal>
        requires { SoundApp index.now.0 }
        ensures { OnOk result (out.new ≡ fold S.then out.old (row_gives index.now.0 index.now.1 self.now on class.now
            row)) }
    {
        match index.called(class, row) {
            None => Ok(()),
            Some(body) => self.call(index, on, Coming { row, body }, out),
        }
    }

    fn call_rows<S: Sink>(
        &self,
        index: &EventIndex<'_>,
        on: On,
        class: &Name,
        out: &mut S,
    ) -> Result<(), S::Refusal>
        requires { SoundApp index.now.0 }
        ensures { OnOk result (out.new ≡ fold S.then out.old
            (calls_give index.now.0 index.now.1 self.now on class.now)) }
    {
        for row in 0..index.callback_count() {
            self.call_row(index, on, class, row, out)?;
        }
        Ok(())
    }

    /// Each callback comes that comes to objects of the class.
    #[tactic(auto, using(crate::proofs::Calling::all_called))]
    pub fn call_all<S: Sink>(
        &self,
        index: &EventIndex<'_>,
        on: On,
        class: &Name,
        out: &mut S,
    ) -> Result<(), S::Refusal>
        requires { SoundApp index.now.0 }
        ensures { OnOk result (out.new ≡ fold S.then out.old
            (calls_give index.now.0 index.now.1 self.now on class.now)) }
    {
        match index.comings(class) {
            Some(comings) => self.call_each(index, on, comings, out),
            None => self.call_rows(index, on, class, out),
        }
    }
}

//! Rule 36 from what the static of a shared object may lead to.
ghost use Rattle.std.specs.Prelude.{◌≡◌, ◌==◌, Some, OnOk, fold, length, slice_get};
ghost use Rattle.std.specs.Option.{option_copied};
ghost use Rattle.app_machine.specs.Sound.{SoundApp};
ghost use Rattle.app_machine.specs.SoundLists.{SoundLists};
ghost use Rattle.app_machine.specs.State.{shared_static};
ghost use Rattle.rule_ground.specs.Below.{for_below};
ghost use Rattle.library_ground.specs.CallRow.{call_row, shown_call};
ghost use Rattle.library_value_rules.specs.StaticGiven.{gives_shared, is_shared_of, row_shares, static_call};
ghost use Rattle.library_value_rules.specs.StaticGiven.{static_gives, static_row, static_user};

use crate::numbers;
use crate::result::give_result;
use access_path::Path;
use app_machine::{App, Gives, Lists, Summary, SummaryId};
use app_parts::CallResult;
use fact_rows::Row;
use library_ground::{LibraryCall, call_row};
use rule_ground::{Content, Facts, Join, Key, Premises, Sink, for_each_hit};

/// What a static may lead to, and the app and the lists.
#[derive(Clone, Copy)]
pub struct StaticLabel<'a> {
    pub app: &'a App,
    pub lists: &'a Lists,
    pub number: u32,
    pub path: Path,
    pub label: u8,
}

/// Whether it is the static of the shared object.
fn is_static_of(app: &App, shared: u32, number: u32) -> bool
    requires { SoundApp app.now }
    ensures { result ≡ (shared_static app.now shared == number) }
{
    app.statics.len() + shared as usize == number as usize
}

/// Whether a result of this kind is the shared object of the static.
fn is_shared_of(app: &App, number: u32, kind: CallResult) -> bool
    requires { SoundApp app.now }
    ensures { result ≡ is_shared_of app.now number kind }
{
    match kind {
        CallResult::Shared(shared) => is_static_of(app, shared, number),
        _ => false,
    }
}

fn gives_shared(app: &App, number: u32, gives: &Gives) -> bool
    requires { SoundApp app.now }
    ensures { result ≡ gives_shared app.now number gives.now }
{
    match gives {
        Gives::Shared(shared) => is_static_of(app, *shared, number),
        _ => false,
    }
}

/// Whether the result of the method of this row is that object.
fn row_shares(app: &App, number: u32, row: Option<&Summary>) -> bool
    requires { SoundApp app.now }
    ensures { result ≡ row_shares app.now number (option_copied row.entry) }
{
    match row {
        None => false,
        Some(row) => gives_shared(app, number, &row.gives),
    }
}

/// The result of the call leads to what the static leads to.
fn label_call<S: Sink>(
    from: &StaticLabel<'_>,
    call: &LibraryCall<'_>,
    out: &mut S,
) -> Result<(), S::Refusal>
    requires { SoundApp from.now.app.now }
    ensures { OnOk result (out.new ≡ fold S.then out.old (static_call from.now.app.now from.now.number from.now.path
        from.now.label (Some (shown_call call.now)))) }
{
    if call.has_result() && is_shared_of(from.app, from.number, call.gives()) {
        let premises = Premises::of_two(
            call.premise(),
            Row::StaticTaint(from.number, from.path, from.label),
        );
        give_result(
            numbers::SHARE,
            premises,
            Content::Label(from.path, from.label),
            call,
            out,
        )
    } else {
        Ok(())
    }
}

impl<'a> Join for StaticLabel<'a> {
    ghost ready = { λ j. SoundApp j.app.now × SoundLists j.lists.now };

    ghost gives = { λ j row. static_user j.app.now j.lists.now j.number j.path j.label row };

    fn give<S: Sink>(&self, row: Row, out: &mut S) -> Result<(), S::Refusal> {
        match row {
            Row::Uses(node, uses) => match call_row(self.app, self.lists, node, uses) {
                None => Ok(()),
                Some(call) => label_call(self, &call, out),
            },
            _ => Ok(()),
        }
    }
}

/// Whoever uses the row of this number.
fn users_of<F: Facts, S: Sink>(
    facts: &F,
    from: &StaticLabel<'_>,
    row: u32,
    out: &mut S,
) -> Result<(), S::Refusal>
    requires sound { SoundApp from.now.app.now }
    requires lists { SoundLists from.now.lists.now }
    ensures { OnOk result (out.new ≡ fold S.then out.old (static_row from.now.app.now from.now.lists.now
        (F.hits facts.now) from.now.number from.now.path from.now.label row)) }
{
    if row_shares(from.app, from.number, from.lists.methods.get(row as usize)) {
        for_each_hit(facts, &Key::UsesOf(SummaryId::Row(row)), from, out)
    } else {
        Ok(())
    }
}

/// How many method rows the lists have.
fn row_count(lists: &Lists) -> u32
    requires { SoundLists lists.now }
    ensures { result ≡ length lists.now.methods }
{
    lists.methods.len() as u32
}

/// What follows by rule 36 where the static may lead to a label.
pub fn static_label<F: Facts, S: Sink>(
    facts: &F,
    from: &StaticLabel<'_>,
    out: &mut S,
) -> Result<(), S::Refusal>
    requires sound { SoundApp from.now.app.now }
    requires lists { SoundLists from.now.lists.now }
    ensures { OnOk result (out.new ≡ fold S.then out.old (static_gives from.now.app.now from.now.lists.now
        (F.hits facts.now) from.now.number from.now.path from.now.label)) }
{
    if (from.number as usize) < from.app.statics.len() {
        Ok(())
    } else {
        to_users(facts, from, out)
    }
}

/// What follows for each row of the lists.
fn to_users<F: Facts, S: Sink>(
    facts: &F,
    from: &StaticLabel<'_>,
    out: &mut S,
) -> Result<(), S::Refusal>
    requires sound { SoundApp from.now.app.now }
    requires lists { SoundLists from.now.lists.now }
    ensures { OnOk result
        (out.new ≡ fold S.then out.old
        (for_below (λ i. static_row from.now.app.now from.now.lists.now (F.hits facts.now) from.now.number from.now.path
        from.now.label i) (length from.now.lists.now.methods))) }
{
    for row in 0..row_count(from.lists) {
        users_of(facts, from, row, out)?;
    }
    Ok(())
}

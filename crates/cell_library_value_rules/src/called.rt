//! A call, and what comes to its result.
ghost use Rattle.std.specs.Prelude.{◌≡◌, OnOk, fold};
ghost use Rattle.library_ground.specs.CallRow.{shown_call};
ghost use Rattle.cell_library_value_rules.specs.CellValueGiven.{results};

use app_machine::App;
use app_parts::RESULT;
use cell_ground::{Content, come_to};
use library_ground::LibraryCall;
use register_readers::RegisterReaders;
use rule_ground::{Inference, Premises, Sink};

/// A library call in an app, and where the registers of the app are read.
#[derive(Clone, Copy)]
pub struct Called<'a> {
    pub app: &'a App,
    pub readers: &'a RegisterReaders<'a>,
    pub call: LibraryCall<'a>,
}

/// The content comes to the result of the call.
pub fn give_result<S: Sink>(
    called: &Called<'_>,
    rule: u8,
    premises: Premises,
    content: Content,
    out: &mut S,
) -> Result<(), S::Refusal>
    ensures { OnOk result (out.new ≡ fold S.then out.old (results called.now.readers.now rule premises content
        (shown_call called.now.call))) }
{
    let inference = Inference { rule, premises };
    let call = &called.call;
    come_to(
        called.readers,
        inference,
        content,
        call.node,
        RESULT,
        call.next,
        out,
    )
}

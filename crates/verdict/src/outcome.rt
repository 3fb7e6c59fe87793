//! What the parts of an app come to.

ghost use Rattle.std.specs.Prelude.{◌≡◌};
ghost use Rattle.verdict.specs.Outcome.{status_of};

use crate::{Cause, Finding};
use app_flow::{FlowTable, TableDefect};
use app_link::LinkFault;
use dex_reader::DexFault;
use fact_rows::Row;
use office_forms::FormFault;
use vet_base::Seq;

/// What is refused.
#[derive(Clone, Copy, Debug, PartialEq, Eq)]
pub enum Part {
    Manifest,
    Layouts,
    Declaration,
    Lists,
    /// The DEX file of this number; `classes.dex` has the number 0.
    Dex(u32),
    /// The app that the DEX files make.
    App,
}

/// Why it is refused.
#[derive(Drop)]
pub enum Reason {
    /// The file is not there.
    Absent,
    /// The file is longer than this limit.
    TooLong(u64),
    Form(FormFault),
    Dex(DexFault),
    Link(LinkFault),
}

/// What the parts of an app come to.
#[derive(Drop)]
pub enum Outcome {
    /// No run brings a value of a source category to a sink category, unless that pair is declared.
    Clear,
    /// One finding at least.
    Flagged(Seq<Finding>),
    /// One cause at least, and the findings, if any.
    Undecided(Seq<Cause>, Seq<Finding>),
    Refused(Part, Reason),
}

/// What the parts of an app come to, with all that follows in the app.
#[derive(Drop)]
pub struct Judged {
    pub outcome: Outcome,
    /// The rows that are derivable by an analysis, in ascending order: there just where the parts make an app and it is
    /// not too large.
    pub table: Option<FlowTable>,
}

/// What the parts of an app come to by rows that anyone made.
#[derive(Drop)]
pub enum Rechecked {
    /// The parts are refused, whatever the rows are.
    Refused(Part, Reason),
    /// The rows are those of an analysis for which the lists do not ask.
    Unasked,
    /// The rows are no good table of the app by their analysis.
    Defect(TableDefect),
    /// They are one, and say this of the app.
    By(Outcome),
}

/// The exit status that says the outcome: 0 clear, 1 flagged, 2 undecided, 3 refused.
pub fn status_for(outcome: &Outcome) -> u8
    ensures { result ≡ status_of outcome.now }
{
    match outcome {
        Outcome::Clear => 0,
        Outcome::Flagged(_) => 1,
        Outcome::Undecided(_, _) => 2,
        Outcome::Refused(_, _) => 3,
    }
}

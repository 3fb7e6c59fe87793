//! That an outcome leaves out nothing that a run of the app does, whoever came to it.
#![tactic(auto)]

ghost use Rattle.outcome_law.specs.TellsAll.{EachOutcomeTellsAll};

use app_flow::one_flow;
use app_link::one_app_or_fault;
use dex_reader::one_dex_or_fault;
use flow_analyses::{all_derived_rows_are_good, each_good_table_covers_every_run};
use office_forms::one_form_or_fault;
use outcomes::nothing_is_left_out;

/// What the parts of an app come to leaves out nothing that a run of it does, unless the app is too large; and so does
/// what they come to by rows of an analysis that anyone made. So the very outcome that is due does, and not one with
/// the same text.
pub fn each_outcome_tells_all()
    ensures { EachOutcomeTellsAll }
{
    one_form_or_fault();
    one_dex_or_fault();
    one_app_or_fault();
    one_flow();
    nothing_is_left_out();
    each_good_table_covers_every_run();
    all_derived_rows_are_good();
}

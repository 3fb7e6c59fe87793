ghost use Rattle.verdict.specs.Clear.{ClearIsSafe};
ghost use Rattle.verdict.specs.OneVerdict.{LowerLaws};

use app_flow::one_flow;
use app_link::one_app_or_fault;
use dex_reader::one_dex_or_fault;
use flow_analyses::{all_derived_rows_are_good, each_good_table_covers_every_run};
use office_forms::one_form_or_fault;
use outcomes::nothing_is_left_out;

/// A form, a DEX file and the files of an app each have one value, or one first fault, and not both;
/// and an app has one flow.
pub fn lower_laws()
    ensures { LowerLaws }
{
    one_form_or_fault();
    one_dex_or_fault();
    one_app_or_fault();
    one_flow();
}

/// Parts of which the verdict is clear make a safe app, where they were linked: this is so of every verdict, whoever
/// came to it, and nothing is judged here.
pub fn a_clear_verdict_is_of_a_safe_app()
    ensures { ClearIsSafe }
{
    lower_laws();
    nothing_is_left_out();
    each_good_table_covers_every_run();
    all_derived_rows_are_good();
}

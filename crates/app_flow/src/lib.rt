//! The flow in an app: the solver and the checker over the rules of its analysis.
#![tactic(auto)]

ghost use Rattle.app_flow.specs.Defect.{OneDefect};
ghost use Rattle.app_flow.specs.Flow.{OneFlow};

mod defect;
mod flow;
mod flow_rows;

pub use cert_checker::{RowDefect, TableDefect};
pub use defect::defect_of;
use fact_rows::rows_stand_in_order;
pub use flow::{Flow, flow_of, is_good};
pub use flow_analyses::Analysis;
pub use flow_rows::{FlowRows, FlowTable};

/// An app has one flow by its lists.
pub fn one_flow()
    ensures { OneFlow }
{
    rows_stand_in_order();
}

/// Rows are a good table of an app, or have one defect, and not both.
pub fn one_defect()
    ensures { OneDefect }
{
    rows_stand_in_order();
}

ghost use Rattle.desk_service.specs.Adding.{CommandsAddVerdicts, RunsAddVerdicts};
ghost use Rattle.desk_service.specs.Safety.{CommandsStaySafe, RunsStaySafe};

/// Whatever commands are carried out and connections served by some lists, each decision that they add is a verdict by
/// these lists, on the content of its case. Those that were there before may be anything, and stay.
pub fn an_added_decision_is_a_verdict()
    ensures commands { CommandsAddVerdicts }
    ensures runs { RunsAddVerdicts }
{}

/// Where each app that is called clear under some lists is safe by them, that is, no run of
/// its machine brings a value of a listed source to a listed sink unless the declaration
/// names that pair, or comes to what is not modelled, so it stays, whatever commands are
/// carried out and connections served by these lists. At a desk without cases it begins so.
pub fn a_clear_decision_is_of_a_safe_app()
    ensures commands { CommandsStaySafe }
    ensures runs { RunsStaySafe }
{}

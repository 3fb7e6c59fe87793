ghost use Rattle.app_link.specs.OneAnswer.{OneAppOrFault};

use dex_code::code_laws;

/// Files that are an app have no fault, and no two faults of files are the first.
pub fn one_app_or_fault()
    ensures { OneAppOrFault }
{
    code_laws();
}

ghost use Rattle.office_forms.specs.OneForm.{OneFormOrFault};

/// Whatever the text: no two manifests are what it says, no two faults are that of the first test that fails, and there
/// is not both a manifest that it says and such a fault; so it is with layouts, declaration, lists and the office file.
/// That there is one of the two is the law `forms_have_one_answer` of the crate `one_answer`.
pub fn one_form_or_fault()
    ensures { OneFormOrFault }
{}

ghost use Rattle.one_answer.specs.Answers.{ClientHasOneAnswer, DecodingHasOneAnswer, FormsHaveOneAnswer};

use dex_code::code_laws;
use office_forms::one_form_or_fault;

/// Whatever the units of a method, and however many strings, types, fields and methods its file has: they are the code
/// of one list of lines, or one fault is that of the first test that fails, and not both. So `decode` gives this one
/// answer, unless memory runs out.
pub fn decoding_has_one_answer()
    ensures { DecodingHasOneAnswer }
{
    code_laws();
}

/// Whatever the text: it is one manifest, or one fault is that of the first test that fails, and not both; so it is
/// with layouts, declaration, lists and the office file. So the reader of each form gives this one answer, unless
/// memory runs out.
pub fn forms_have_one_answer()
    ensures { FormsHaveOneAnswer }
{
    one_form_or_fault();
}

/// Whatever the text: it is one developer's file, or one fault is that of the first test that fails, and not both. So
/// `read_client` gives this one answer, unless memory runs out.
pub fn one_client_or_fault()
    ensures { ClientHasOneAnswer }
{}

//! Small facts that show that the definitions of texts mean what they should: words that are taken
//! apart, tokens that are compared, answers of the desk, lines of refusal. Each is a theorem over the
//! definitions alone, so that a slip in a definition shows.
#![tactic(auto)]

ghost use Rattle.text_witness.specs.Answers.{AnswersTell};
ghost use Rattle.text_witness.specs.Refusals.{RefusalsTell};
ghost use Rattle.text_witness.specs.Tokens.{TokensTell};
ghost use Rattle.text_witness.specs.Words.{WordsTell};

/// What words of the command line ask for: numbers, seeds, a desk and the file of its cases.
pub fn the_words_tell()
    ensures { WordsTell }
{}

/// A token is compared whole, and a reference has at most 64 bytes.
pub fn the_tokens_tell()
    ensures { TokensTell }
{}

/// What a party is told of a reply, byte for byte.
pub fn the_answers_tell()
    ensures { AnswersTell }
{}

/// Why a certificate is refused, byte for byte.
pub fn the_refusals_tell()
    ensures { RefusalsTell }
{}

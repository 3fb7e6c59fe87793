//! Small facts that show that the definitions by which a client makes a submission, reads replies and tries again mean
//! what they should. Each is a theorem over the definitions that the clauses of `client_http`, `client_replies`,
//! `desk_client` and `client_law` name, so that code which answers otherwise is refused.
#![tactic(auto)]

ghost use Rattle.client_witness.specs.OneCase.{OneCase};
ghost use Rattle.client_witness.specs.Replies.{RepliesTell};
ghost use Rattle.client_witness.specs.Requests.{RequestsTell};
ghost use Rattle.client_witness.specs.Tries.{TriesTell};

use desk_serving::Judge;

/// What some replies are answered.
pub fn the_replies_tell()
    ensures { RepliesTell }
{}

/// What a submission's bytes are.
pub fn the_requests_tell()
    ensures { RequestsTell }
{}

/// How often one tries, what is written, and what ends it.
pub fn the_tries_tell()
    ensures { TriesTell }
{}

/// Whoever judges: a submission that comes again, since its reply was lost, is one case.
pub fn a_lost_reply_makes_one_case<J: Judge>()
    ensures { (judge : J) → OneCase (J.finds judge) (J.edition judge) }
{}

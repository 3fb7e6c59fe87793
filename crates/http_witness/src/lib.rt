//! Small facts that show that the definitions of links, requests and replies mean what they should. Each is a
//! theorem over the definitions alone, so that a slip in a definition shows.
#![tactic(auto)]

ghost use Rattle.http_witness.specs.Calls.{CallsOwe};
ghost use Rattle.http_witness.specs.Fields.{FieldsTell};
ghost use Rattle.http_witness.specs.Links.{LinksTell};
ghost use Rattle.http_witness.specs.Replies.{RepliesTell};
ghost use Rattle.http_witness.specs.Requests.{RequestsTell};
ghost use Rattle.http_witness.specs.Turns.{TurnsTell};

/// What links, doors, callers and clocks tell of calls.
pub fn the_links_tell()
    ensures { LinksTell }
{}

/// What a call of a link owes, whatever it tells.
pub fn the_calls_owe()
    ensures { CallsOwe }
{}

/// Which length the fields of a head announce.
pub fn the_fields_tell()
    ensures { FieldsTell }
{}

/// Where a head ends, which request is whole, and what is a big head.
pub fn the_requests_tell()
    ensures { RequestsTell }
{}

/// The bytes of replies, and what a failure to write them says.
pub fn the_replies_tell()
    ensures { RepliesTell }
{}

/// What requests come to: the party's command, or the first test that they fail.
pub fn the_turns_tell()
    ensures { TurnsTell }
{}

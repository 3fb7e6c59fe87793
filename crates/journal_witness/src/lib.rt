//! Small facts about journals: what the bytes of a change are not, which changes do not fit, and what bytes do not
//! hold. Each excludes code that answers otherwise. These functions do nothing; they are there for their contracts.
#![tactic(auto)]

ghost use Rattle.journal_witness.specs.JournalFacts.{JournalsTell};
ghost use Rattle.journal_witness.specs.RecordFacts.{RecordsTell};

pub fn the_records_tell()
    ensures { RecordsTell }
{}

pub fn the_journals_tell()
    ensures { JournalsTell }
{}

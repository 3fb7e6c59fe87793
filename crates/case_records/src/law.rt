ghost use Rattle.case_records.specs.Laws.{ChangesAreReadAgain, ChangesAreFound};

/// A change that can be written is read from its bytes. This function does nothing; it is there for its contract.
pub fn changes_are_read_again()
    ensures { ChangesAreReadAgain }
{}

/// Bytes of which a change is read are those that are written for it, so each change has one spelling. This function
/// does nothing; it is there for its contract.
pub fn changes_are_found()
    ensures { ChangesAreFound }
{}

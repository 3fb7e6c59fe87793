ghost use Rattle.std.specs.Prelude.{◌↔◌, List, IsTrue};
ghost use Rattle.case_rules.specs.Docket.{Fits};
ghost use Rattle.journal_law.specs.Journal.{HaveOneReading};
ghost use Rattle.journal_law.specs.Reading.{TellsTheCases, fits};

use case_rules::{Case, Change};

/// Bytes hold one list of cases, or are foreign, or are bad at one place; and what is told of them is the cases that
/// they hold, or none. This function does nothing; it is there for its contract.
pub fn a_journal_has_one_reading()
    ensures one { HaveOneReading }
    ensures told { TellsTheCases }
{}

/// The test by which a change is taken says whether it fits. This function does nothing; it is there for its contract.
pub fn the_test_says_what_fits()
    ensures { (change : Change) (cases : List Case) → IsTrue (fits change cases) ↔ Fits change cases }
{}

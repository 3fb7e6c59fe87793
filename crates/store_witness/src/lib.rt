//! Small facts that show that the definitions by which disks, logs and keepers keep what they are given mean what they
//! should. Each is a theorem over the definitions that the clauses of `disks`, `gated_log`, `case_keeper` and
//! `sqlite_keeper` name, so that code which answers otherwise is refused.
#![tactic(auto)]

ghost use Rattle.store_witness.specs.CaseFacts.{CasesAreKept};
ghost use Rattle.store_witness.specs.DiskFacts.{DisksTell};
ghost use Rattle.store_witness.specs.KeeperFacts.{KeepersTell};
ghost use Rattle.store_witness.specs.LogFacts.{LogsTell};

/// What calls of a disk in memory do not come to.
pub fn the_disks_tell()
    ensures { DisksTell }
{}

/// What calls of a log in a disk do not come to.
pub fn the_logs_tell()
    ensures { LogsTell }
{}

/// What a keeper in a database does not find, and how it does not count.
pub fn the_keepers_tell()
    ensures { KeepersTell }
{}

/// What a keeper in memory does with its cases.
pub fn the_cases_are_kept()
    ensures { CasesAreKept }
{}

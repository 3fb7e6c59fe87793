//! Small facts that show what the ground floor keeps: numbers and names as bytes, files and a sink, and
//! rows in ascending tables. Each is a theorem over the definitions that the clauses of `vet_base` and
//! `sorted_table` name, so that code which answers otherwise is refused.
#![tactic(auto)]

ghost use Rattle.base_witness.specs.ByteFacts.{BytesAreKept};
ghost use Rattle.base_witness.specs.OutsideFacts.{OutsideTells};
ghost use Rattle.base_witness.specs.TableFacts.{TablesKeepRows};

/// Numbers are read whole and from their own bytes alone, names keep all bytes and feed them to a
/// hasher, and a list without storage is empty.
pub fn the_bytes_are_kept()
    ensures { BytesAreKept }
{}

/// What is put or written is there, and a failure is counted.
pub fn the_outside_tells()
    ensures { OutsideTells }
{}

/// A row goes in at its place, and once; a stretch ends behind its last row; and parts are not empty
/// and know how many rows stand before them.
pub fn the_tables_keep_rows()
    ensures { TablesKeepRows }
{}

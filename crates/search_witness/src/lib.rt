//! Small facts that show that the definitions by which rows are kept and searched for mean
//! what they should: what rows by hash and by key do not come to, and what no search and
//! no worker ends with. Each is a theorem over the definitions that the clauses of
//! `chained_rows` and `worker_pool` name, so that code which answers otherwise is refused.
#![tactic(auto)]

ghost use Rattle.search_witness.specs.RowsKept.{RowsAreKept};
ghost use Rattle.search_witness.specs.Searches.{SearchesEnd};

/// What adding, looking up and sorting of rows do not come to, and what a hash does not forget.
pub fn the_rows_are_kept()
    ensures { RowsAreKept }
{}

/// What a search that has ended has not left out, and what a worker does not hand in.
pub fn the_searches_end()
    ensures { SearchesEnd }
{}

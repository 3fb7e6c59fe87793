ghost use Rattle.dex_writer.specs.Law.{AddedRowsAreFound, TriesAreAligned};

/// A row of numbers that was added to an id table is found, at a place where it stands.
pub fn added_rows_are_found()
    ensures { AddedRowsAreFound }
{}

/// The tries of a code item stand at a multiple of four bytes of it, and their handlers behind them.
pub fn tries_are_aligned()
    ensures { TriesAreAligned }
{}

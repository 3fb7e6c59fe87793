ghost use Rattle.cert_rows.specs.Laws.{RowsAreFound, RowsAreReadAgain};

/// Each row that certificates of a set can have is read as it was written, whatever stands behind it.
pub fn rows_are_read_again()
    ensures { RowsAreReadAgain }
{}

/// Where a row is read of bytes, they are the row as it is written and the bytes that are left.
pub fn rows_are_found()
    ensures { RowsAreFound }
{}

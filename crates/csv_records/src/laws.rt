//! The laws of records and rows: what holds of all of them, whatever calls gave them.
//!
//! These functions do nothing when they run. The contract of each is a law over the definitions in
//! `specs/`, and its proof is the law's proof.

ghost use Rattle.csv_records.specs.Laws.{CutsRows, RecordsAreParts, RowsAreRead};

/// The rows of a text are what `csv` reads, one record after another.
pub fn rows_are_read()
    ensures { RowsAreRead }
{}

/// Where a record may start, the rows of a text are those of what is before and of what follows.
pub fn rows_are_cut()
    ensures { CutsRows }
{}

/// A text is its records, one after another.
pub fn records_are_parts()
    ensures { RecordsAreParts }
{}

//! The rows of a column.

ghost use Rattle.std.specs.Prelude.{◌≡◌, IfErr, IfOk};
ghost use Rattle.column_cells.specs.Words.{AreRowsOf, HasTexts, IsErrorOf, contents_of_column, contents_of_rows};
ghost use Rattle.column_cells.specs.Words.{type_of_column, type_of_rows};

use arrow_columns::{Column, ColumnError, Rows};

/// The rows of a column, or why it cannot be read.
pub fn rows_of(column: Column) -> Result<Rows, ColumnError>
    ensures rows { IfOk result (λ rows. AreRowsOf column.entry rows) }
    ensures typed { IfOk result (λ rows. type_of_rows rows ≡ type_of_column column.entry) }
    ensures contents { IfOk result (λ rows. contents_of_rows rows ≡ contents_of_column column.entry) }
    ensures texts { IfOk result HasTexts }
    ensures fault { IfErr result (λ fault. IsErrorOf column.entry fault) }
{
    column.check()
}

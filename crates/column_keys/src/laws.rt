//! The laws of the way back, as the contracts of functions that do nothing.

ghost use Rattle.column_keys.specs.Words.{ColumnsComeBack, TablesComeBack};

use column_cells::laws::contents_are_of_type;
use vortex_row::laws::{keys_are_apart, values_have_no_typed};

/// What the keys of a table's rows give for a column are the cells of the table's column, and no
/// others.
pub fn columns_come_back()
    ensures { ColumnsComeBack }
{
    keys_are_apart();
    values_have_no_typed();
}

/// The same of columns in Arrow's layout that have keys: what the keys of their rows give for one of
/// them are its cells, and no others.
pub fn tables_come_back()
    ensures { TablesComeBack }
{
    keys_are_apart();
    values_have_no_typed();
    contents_are_of_type();
}

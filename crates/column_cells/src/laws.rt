//! The law of the cells of columns, as the contract of a function that does nothing.

ghost use Rattle.column_cells.specs.Words.{ContentsAreOfType};

/// The contents of a column that can be read are those of valid values of its type.
pub fn contents_are_of_type()
    ensures { ContentsAreOfType }
{}

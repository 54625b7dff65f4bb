//! The columns that a filter speaks of.

use vortex_dtype::DType;

/// A column: its name, and the type of its cells.
#[derive(Debug, Drop)]
pub struct Column {
    /// The name.
    pub name: String,
    /// The type of the cells.
    pub dtype: DType,
}

//! A filter with the types of its columns.

use vortex_dtype::DType;
use vortex_filter::Filter;

/// A filter with the types of its columns.
#[derive(Debug, Drop)]
pub struct PreparedFilter {
    /// The types of the columns.
    pub columns: Vec<DType>,
    /// The filter.
    pub filter: Filter,
}

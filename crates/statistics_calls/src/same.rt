//! Exact sameness of statistics, to see whether a call changed what it borrowed.

use case_lines::same_scalar;
use vortex_statistics::{Bound, ColumnStatistics};

/// Whether two statistics are exactly the same.
pub fn same_statistics(a: &ColumnStatistics, b: &ColumnStatistics) -> bool {
    a.row_count == b.row_count
        && a.null_count == b.null_count
        && same_bound(a.lower.as_ref(), b.lower.as_ref())
        && same_bound(a.upper.as_ref(), b.upper.as_ref())
}

fn same_bound(a: Option<&Bound>, b: Option<&Bound>) -> bool {
    match (a, b) {
        (Some(x), Some(y)) => x.is_exact == y.is_exact && same_scalar(&x.value, &y.value),
        (None, None) => true,
        _ => false,
    }
}

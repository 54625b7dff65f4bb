//! Exact sameness of what calls of filters borrow, to see whether a call changed what it borrowed.

use case_lines::{same_scalar, same_scalars};
use filter_sql::Column;
use like_patterns::Pattern;
use statistics_calls::same_statistics;
use vortex_filter::Filter;
use vortex_statistics::ColumnStatistics;

/// Whether two filters are exactly the same.
pub fn same_filter(a: &Filter, b: &Filter) -> bool {
    match (a, b) {
        (Filter::And(x, y), Filter::And(v, w)) | (Filter::Or(x, y), Filter::Or(v, w)) => {
            same_filter(x, v) && same_filter(y, w)
        }
        (Filter::Not(x), Filter::Not(y)) => same_filter(x, y),
        _ => same_test(a, b),
    }
}

/// Whether two filters without parts are exactly the same.
fn same_test(a: &Filter, b: &Filter) -> bool {
    match (a, b) {
        (Filter::Constant(x), Filter::Constant(y)) => x == y,
        (
            Filter::Compare {
                column: x,
                operator,
                literal,
            },
            Filter::Compare {
                column: y,
                operator: other,
                literal: copy,
            },
        ) => x == y && operator == other && same_scalar(literal, copy),
        (Filter::IsNull { column: x }, Filter::IsNull { column: y }) => x == y,
        (
            Filter::In {
                column: x,
                literals,
            },
            Filter::In {
                column: y,
                literals: copies,
            },
        ) => x == y && same_scalars(literals, copies),
        (
            Filter::Between {
                column: x,
                lower,
                upper,
            },
            Filter::Between {
                column: y,
                lower: least,
                upper: most,
            },
        ) => x == y && same_scalar(lower, least) && same_scalar(upper, most),
        (
            Filter::StartsWith { column: x, prefix },
            Filter::StartsWith {
                column: y,
                prefix: copy,
            },
        ) => x == y && same_scalar(prefix, copy),
        (
            Filter::Like {
                column: x,
                pattern,
                case,
            },
            Filter::Like {
                column: y,
                pattern: copy,
                case: other,
            },
        ) => x == y && same_pattern(pattern, copy) && case == other,
        _ => false,
    }
}

/// Whether two patterns have as many parts, and the same ones before the first wildcard.
fn same_pattern(a: &Pattern, b: &Pattern) -> bool {
    a.count_parts() == b.count_parts()
        && a.prefix() == b.prefix()
        && a.needs_escape() == b.needs_escape()
}

/// Whether two slices have exactly the same statistics.
pub fn same_zones(a: &[ColumnStatistics], b: &[ColumnStatistics]) -> bool {
    a.len() == b.len() && a.iter().zip(b).all(|(x, y)| same_statistics(x, y))
}

/// Whether two slices have the same columns.
pub fn same_columns(a: &[Column], b: &[Column]) -> bool {
    a.len() == b.len()
        && a.iter()
            .zip(b)
            .all(|(x, y)| x.name == y.name && x.dtype == y.dtype)
}

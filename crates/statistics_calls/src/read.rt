//! Reads statistics of columns.

use case_lines::{Tokens, copy_type, read_natural, read_type, read_value};
use vortex_dtype::DType;
use vortex_statistics::{Bound, ColumnStatistics};
use vortex_value::Scalar;

/// The statistics of a column, and the column's type.
#[derive(Drop)]
pub struct TypedStatistics {
    pub dtype: DType,
    pub statistics: ColumnStatistics,
}

/// Reads a type, a colon and statistics, as `i32?:(4 rows, 1 null, 3i32 exact, _)`.
pub fn read_typed_statistics(tokens: &mut Tokens<'_>) -> TypedStatistics {
    let dtype = read_type(tokens);
    tokens.expect(b':');
    let statistics = read_statistics(tokens, &dtype);
    TypedStatistics { dtype, statistics }
}

/// Reads statistics of a column of this type.
pub fn read_statistics(tokens: &mut Tokens<'_>, dtype: &DType) -> ColumnStatistics {
    tokens.expect(b'(');
    let row_count = read_count(tokens, b"row", b"rows");
    tokens.expect(b',');
    let null_count = read_null_count(tokens);
    tokens.expect(b',');
    let lower = read_bound(tokens, dtype);
    tokens.expect(b',');
    let upper = read_bound(tokens, dtype);
    tokens.expect(b')');
    ColumnStatistics {
        row_count,
        null_count,
        lower,
        upper,
    }
}

/// Reads a number, and the word for one or for several.
fn read_count(tokens: &mut Tokens<'_>, one: &[u8], several: &[u8]) -> u64 {
    let count = read_natural(tokens, u64::MAX);
    if !tokens.takes_word(several) && !tokens.takes_word(one) {
        tokens.bad_line();
    }
    count
}

/// Reads how many nulls there are, or the underscore for a number that is not known.
fn read_null_count(tokens: &mut Tokens<'_>) -> Option<u64> {
    if tokens.takes(b'_') {
        None
    } else {
        Some(read_count(tokens, b"null", b"nulls"))
    }
}

/// Reads a bound, or the underscore for one that is not there.
fn read_bound(tokens: &mut Tokens<'_>, dtype: &DType) -> Option<Bound> {
    if tokens.takes(b'_') {
        return None;
    }
    let value = read_value(tokens);
    let dtype = read_bound_type(tokens, dtype);
    let is_exact = tokens.takes_word(b"exact");
    Some(Bound {
        value: Scalar { dtype, value },
        is_exact,
    })
}

/// Reads a bound's type, after the word `of`; without that word it is the column's.
fn read_bound_type(tokens: &mut Tokens<'_>, dtype: &DType) -> DType {
    if tokens.takes_word(b"of") {
        return read_type(tokens);
    }
    copy_type(tokens, dtype)
}

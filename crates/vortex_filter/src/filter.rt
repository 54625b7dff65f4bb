//! Filters over rows of scalars.

use crate::operator::CompareOperator;
use crate::truth::Truth;
use like_patterns::{Case, Pattern};
use vortex_value::Scalar;

/// A filter over rows. It names a column by its place, and a row that ends before the column has a
/// null there.
#[derive(Debug, Drop)]
pub enum Filter {
    /// The same on every row.
    Constant(Truth),
    /// Whether the cell stands so to the literal. Unknown if one of the two is null, or if they have
    /// no order.
    Compare {
        column: usize,
        operator: CompareOperator,
        literal: Scalar,
    },
    /// Whether the cell is null. Never Unknown.
    IsNull {
        column: usize,
    },
    /// Whether the cell is equal to one of the literals: an Or of comparisons. Of none: False.
    In {
        column: usize,
        literals: Vec<Scalar>,
    },
    /// Whether the cell is between the two, or equal to one of them: `>=` And `<=`.
    Between {
        column: usize,
        lower: Scalar,
        upper: Scalar,
    },
    /// Whether the cell, a string or bytes, begins with the prefix. Unknown if one of the two is
    /// null, or if they are not of one type.
    StartsWith {
        column: usize,
        prefix: Scalar,
    },
    /// Whether the cell, a string, matches the pattern. Unknown if it is null, or no string.
    Like {
        column: usize,
        pattern: Pattern,
        case: Case,
    },
    /// False if one of the two is, else Unknown if one is.
    And(Box<Filter>, Box<Filter>),
    /// True if one of the two is, else Unknown if one is.
    Or(Box<Filter>, Box<Filter>),
    /// True for False, and False for True; Unknown stays.
    Not(Box<Filter>),
}

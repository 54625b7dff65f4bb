//! What is known of the cells of a column.

ghost use Rattle.std.specs.Prelude.{◌≡◌, [], false};
ghost use Rattle.vortex_statistics.specs.Words.{AreComplete, LeaveNoNull, LeaveNoValue, empty_statistics, known};
ghost use Rattle.vortex_statistics.specs.Words.{may_be_null, may_be_value};

use vortex_value::Scalar;

/// A bound of the values of a column.
#[derive(Debug, Drop)]
pub struct Bound {
    /// No value of the column is on the other side of it.
    pub value: Scalar,
    /// Whether some value of the column is equal to it; else it is only a bound.
    pub is_exact: bool,
}

/// What is known of the cells of a column, or of a piece of one: how many there are, how many are
/// null, and bounds of the others.
///
/// The fields may come from anywhere, such as a file. Nothing is asked of them: the contracts say
/// what stays right if these statistics were right.
#[derive(Debug, Drop)]
pub struct ColumnStatistics {
    /// How many rows there are.
    pub row_count: u64,
    /// In how many rows the cell is null; `None` if that is not known.
    pub null_count: Option<u64>,
    /// No value is below it; `None` if no such bound is known.
    pub lower: Option<Bound>,
    /// No value is above it; `None` if no such bound is known.
    pub upper: Option<Bound>,
}

impl ColumnStatistics {
    /// The statistics of no rows. Merged with others, on either side, they change nothing.
    pub fn empty() -> ColumnStatistics
        ensures value { result ≡ empty_statistics }
        ensures complete { AreComplete (known result) [] }
    {
        ColumnStatistics {
            row_count: 0,
            null_count: Some(0),
            lower: None,
            upper: None,
        }
    }

    /// Whether some cell may be null. False only if no cell is, provided that the statistics are
    /// right.
    pub fn may_be_null(&self) -> bool
        ensures value { result ≡ may_be_null (known self.now) }
        ensures none { result ≡ false → LeaveNoNull (known self.now) }
    {
        match self.null_count {
            Some(nulls) => 0 < nulls,
            None => 0 < self.row_count,
        }
    }

    /// Whether some cell may have a value. False only if each is null, provided that the statistics
    /// are right.
    pub fn may_be_value(&self) -> bool
        ensures value { result ≡ may_be_value (known self.now) }
        ensures none { result ≡ false → LeaveNoValue (known self.now) }
    {
        match self.null_count {
            Some(nulls) => nulls < self.row_count,
            None => 0 < self.row_count,
        }
    }
}

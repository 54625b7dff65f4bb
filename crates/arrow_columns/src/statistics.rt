//! Statistics of columns.

/// The least and the greatest integer of a column.
#[derive(Clone, Copy, Debug, PartialEq, Eq)]
pub struct IntegerExtremes {
    pub least: i128,
    pub greatest: i128,
}

/// How many cells of a column of integers are null, and the least and the greatest value of the
/// others.
#[derive(Clone, Copy, Debug, PartialEq, Eq)]
pub struct IntegerStatistics {
    pub null_count: usize,
    pub extremes: Option<IntegerExtremes>,
}

/// How many cells of a column of booleans are null, false and true.
#[derive(Clone, Copy, Debug, PartialEq, Eq)]
pub struct BooleanStatistics {
    pub null_count: usize,
    pub false_count: usize,
    pub true_count: usize,
}

/// The rows of the least and of the greatest value of a column of strings or bytes.
#[derive(Clone, Copy, Debug, PartialEq, Eq)]
pub struct ByteExtremes {
    pub least: usize,
    pub greatest: usize,
}

/// How many cells of a column of strings or bytes are null, and where the least and the greatest
/// value of the others stand.
#[derive(Clone, Copy, Debug, PartialEq, Eq)]
pub struct ByteStatistics {
    pub null_count: usize,
    pub extremes: Option<ByteExtremes>,
}

//! How wide offsets are.

/// How wide the offsets of a column of strings are.
#[derive(Clone, Copy, Debug, PartialEq, Eq)]
pub enum OffsetWidth {
    Bits32,
    Bits64,
}

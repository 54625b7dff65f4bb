//! Why there is no filter.

/// Why bytes are no filter, or two filters have no union.
#[derive(Clone, Copy, Debug, PartialEq, Eq)]
pub enum BloomFilterError {
    /// The bytes are none, are no whole blocks of 32, or are more than `MAX_BLOCKS` blocks.
    BadLength,
    /// The filters have different numbers of blocks.
    DifferentLengths,
}

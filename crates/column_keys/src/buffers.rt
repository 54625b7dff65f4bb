//! Where a column is written.

/// The buffers that a column in Arrow's layout is written to, and how many bytes its values have.
#[derive(Drop)]
#[repr(C)]
pub struct ColumnBuffers<'a> {
    /// The bits: one for each row, 0 for a null.
    pub validity: &'a mut [u8],
    /// The values: 0, false or an empty string for a null.
    pub values: &'a mut [u8],
    /// Of strings or bytes, the offset where each begins, and where the last one ends.
    pub offsets: &'a mut [u64],
    /// How many bytes the values have: this is written. It is the greatest `usize` if they have as
    /// many or more.
    pub count: usize,
}

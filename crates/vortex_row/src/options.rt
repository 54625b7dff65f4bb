//! How a column is sorted.

ghost use Rattle.std.specs.Prelude.{◌≡◌, false, true};

/// How a column is sorted, by arrow's names and with their meaning for the values of a column: a
/// null inside a value is the least, and so comes last where `descending` is set.
#[derive(Clone, Copy, Debug, PartialEq, Eq)]
pub struct SortOptions {
    /// Whether greater values come first.
    pub descending: bool,
    /// Whether nulls come before all values, in either direction.
    pub nulls_first: bool,
}

/// Ascending, with nulls first, as arrow's default is.
impl Default for SortOptions {
    ghost is_default = { λ options. (options.descending ≡ false) × (options.nulls_first ≡ true) };

    fn default() -> SortOptions {
        SortOptions {
            descending: false,
            nulls_first: true,
        }
    }
}

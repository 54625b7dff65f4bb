//! The columns that a filter names.

ghost use Rattle.std.specs.Prelude.{◌≡◌, IfOk, false, replicate, slice_index_or};
ghost use Rattle.column_filters.specs.Words.{AreMarked, formula};

use std::alloc::{AllocError, Global};
use vortex_filter::Filter;

/// Whether a filter names a column, for each of so many.
pub(crate) fn named_columns(
    alloc: Global,
    filter: &Filter,
    count: usize,
) -> Result<Vec<bool>, AllocError>
    ensures { IfOk result
        (λ named. AreMarked (formula filter.now) (replicate count false) named.items) }
{
    let mut named = vec![in alloc; false; count]?;
    filter.mark_columns(&mut named);
    Ok(named)
}

/// Whether the flag of a column is set.
pub(crate) fn is_set(flags: &[bool], place: usize) -> bool
    ensures { result ≡ slice_index_or flags.now place false }
{
    if place < flags.len() {
        flags[place]
    } else {
        false
    }
}

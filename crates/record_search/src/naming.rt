//! The columns that a filter names.

ghost use Rattle.std.specs.Prelude.{IfOk, OnOk, false, replicate};
ghost use Rattle.record_search.specs.Words.{AreMarked, formula};

use std::alloc::{AllocError, Global};
use vortex_filter::Filter;

/// Whether a filter names a column, for each of so many columns.
pub fn named_columns(
    alloc: Global,
    filter: &Filter,
    columns: usize,
) -> Result<Vec<bool>, AllocError>
    ensures { IfOk result (λ named. AreMarked (formula filter.now) (replicate columns false) named.items) }
{
    let mut named = Vec::new(alloc);
    mark_named(filter, columns, &mut named)?;
    Ok(named)
}

/// Whether a filter names a column, for each of so many columns, in a vector that is used again.
pub(crate) fn mark_named(
    filter: &Filter,
    columns: usize,
    named: &mut Vec<bool>,
) -> Result<(), AllocError>
    ensures { OnOk result (AreMarked (formula filter.now) (replicate columns false) named.new.items) }
{
    named.clear();
    named.resize(columns, false)?;
    filter.mark_columns(named);
    Ok(())
}

//! Records that are asked one by one, as a search without an index asks them.

ghost use Rattle.std.specs.Prelude.{◌≡◌, IfOk};
ghost use Rattle.vortex_filter.specs.Formula.{formula};
ghost use Rattle.record_search.specs.Searched.{matches_record};

use record_rows::{RowReadError, Schema, read_row};
use record_search::laws::rows_are_read;
use std::alloc::Global;
use vortex_filter::Filter;

/// Whether the filter is True on the row of this record. A search by an index finds the record
/// exactly if it is.
pub fn matches_line(
    alloc: Global,
    schema: &Schema,
    filter: &Filter,
    line: &[u8],
) -> Result<bool, RowReadError>
    ensures { IfOk result (λ matches. matches ≡ matches_record schema.now (formula filter.now) line.now) }
{
    rows_are_read();
    let mut row = Vec::new(alloc);
    let refused = read_row(alloc, schema, line, &mut row)?;
    Ok(refused.is_some() && filter.matches(&row))
}

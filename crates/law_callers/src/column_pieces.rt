//! A column in two pieces. The statistics of each are written as bytes, merged and read back, and a
//! filter is asked whether it can match a cell.

ghost use Rattle.std.specs.Prelude.{◌≡◌, ◌++◌, [], ◌∷◌, Contains, IfSome, Some, true};
ghost use Rattle.arrow_columns.specs.Columns.{kind_in};
ghost use Rattle.column_cells.specs.Types.{type_of_kind};
ghost use Rattle.column_statistics.specs.Cells.{HasBoundsIn, cells_of_column};
ghost use Rattle.vortex_cells.specs.Cells.{Cell};
ghost use Rattle.vortex_filter.specs.Formula.{formula, truth};
ghost use Rattle.vortex_filter.specs.declared.truth.Truth.TheVariants.{True};
ghost use Rattle.vortex_statistics.specs.Statistics.{AreRight, known};

use arrow_columns::{Column, Kind};
use column_statistics::laws::encodings_stay_right;
use column_statistics::{column_encoding, merged_encoding, read_encoding};
use filter_pruning::may_match;
use std::alloc::Global;
use vortex_filter::Filter;
use vortex_statistics::ColumnStatistics;

/// The statistics of both pieces together, by the bytes that are written of each: right for the
/// cells of both, with bounds that are valid values of the column's type. `None` if a piece cannot
/// be read, or if there is no memory.
pub fn statistics_of_pieces(
    alloc: Global,
    kind: Kind,
    first: Column,
    second: Column,
    limit: usize,
) -> Option<ColumnStatistics>
    requires first { kind_in first ≡ Some kind }
    requires second { kind_in second ≡ Some kind }
    ensures right { IfSome result (λ s. AreRight (known s)
        (cells_of_column first.entry ++ cells_of_column second.entry)) }
    ensures typed { IfSome result (HasBoundsIn (type_of_kind kind)) }
{
    encodings_stay_right();
    let Ok(one) = column_encoding(alloc, first, limit) else {
        return None;
    };
    let Ok(other) = column_encoding(alloc, second, limit) else {
        return None;
    };
    let Ok(both) = merged_encoding(alloc, kind, &one, &other) else {
        return None;
    };
    match read_encoding(alloc, kind, &both) {
        Ok(statistics) => Some(statistics),
        Err(_) => None,
    }
}

/// Whether both pieces can be skipped by the filter. If so, it matches none of their cells.
pub fn can_skip_pieces(
    alloc: Global,
    filter: &Filter,
    kind: Kind,
    first: Column,
    second: Column,
    limit: usize,
) -> Option<bool>
    requires first { kind_in first ≡ Some kind }
    requires second { kind_in second ≡ Some kind }
    ensures { IfSome result (λ skip. skip ≡ true → (x : Cell)
        → Contains (cells_of_column first.entry ++ cells_of_column second.entry) x
        → ¬ (truth (formula filter.now) (x ∷ []) ≡ True)) }
{
    let statistics = [statistics_of_pieces(alloc, kind, first, second, limit)?];
    Some(!may_match(filter, &statistics))
}

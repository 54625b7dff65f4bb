//! What a search in zones of floats leaves out, by the order of floats.

ghost use Rattle.std.specs.Float.{binary64};
ghost use Rattle.std.specs.Ordering.{nan_last_cmp};
ghost use Rattle.std.specs.Prelude.{◌≡◌, Contains, List, false, map, true};
ghost use Rattle.float_storage.specs.Storage.{storage_of};
ghost use Rattle.logical_scalars.specs.Stored.{Holds};
ghost use Rattle.logical_types.specs.declared.logical.LogicalType.TheVariants as LogicalTypes;
ghost use Rattle.vortex_cells.specs.Cells.{Cell, cell_of};
ghost use Rattle.vortex_dtype.specs.Words.{Same};
ghost use Rattle.vortex_filter.specs.Formula.{cell_at};
ghost use Rattle.vortex_filter.specs.Operators.{holds};
ghost use Rattle.vortex_statistics.specs.Statistics.{known};
ghost use Rattle.vortex_value.specs.Words.{scalar_type};
ghost use Rattle.vortex_value.specs.declared.scalars.Scalar.{Scalar as Scalars};
ghost use Rattle.filter_pruning.specs.Pruning.{AreStatisticsOf};

use filter_pruning::may_match;
use float_storage::laws::storages_sort_as_f64;
use logical_scalars::laws::scalars_sort_as_storages;
use logical_types::LogicalType;
use vortex_filter::{CompareOperator, Filter};
use vortex_statistics::ColumnStatistics;
use vortex_value::Scalar;

/// Whether a zone can be skipped where floats are sought that compare so with a number. If so, no float
/// of the zone does, in the order of floats: all NaNs are one, above all others, and so are both zeros.
pub fn can_skip_floats(
    statistics: &[ColumnStatistics],
    column: usize,
    operator: CompareOperator,
    literal: Scalar,
    number: f64,
    float: f64,
) -> bool
    requires { Holds LogicalTypes.Float64 (storage_of binary64 number) literal }
    ensures { (rows : List (List Cell)) → AreStatisticsOf (map known statistics.now) rows
        → (row : List Cell) → Contains rows row
        → (x : Scalars) → cell_at row column ≡ cell_of x → Same (scalar_type x) (scalar_type literal)
        → Holds LogicalTypes.Float64 (storage_of binary64 float) x
        → result ≡ true → holds operator (nan_last_cmp float number) ≡ false }
{
    storages_sort_as_f64(float, number);
    scalars_sort_as_storages(LogicalType::Float64);
    let filter = Filter::Compare {
        column,
        operator,
        literal,
    };
    let may_match = may_match(&filter, statistics);
    drop(filter);
    !may_match
}

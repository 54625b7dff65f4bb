//! Statistics of logical types in bytes, which name their type.

ghost use Rattle.std.specs.Prelude.{◌≡◌, IfOk};
ghost use Rattle.logical_scalars.specs.Stored.{IsOfLogicalType};
ghost use Rattle.logical_types.specs.declared.logical.LogicalType.{LogicalType};
ghost use Rattle.named_statistics.specs.Named.{named_encoding};
ghost use Rattle.vortex_dtype.specs.TypeOf.{type_of};
ghost use Rattle.vortex_dtype.specs.TypeTree.{TypeTree};
ghost use Rattle.vortex_statistics.specs.Statistics.{Known};

use named_statistics::decode_named_statistics;
use named_statistics::laws::{names_tell_types, statistics_tell_names};
use std::alloc::Global;
use vortex_dtype::DType;
use vortex_statistics::{ColumnStatistics, StatisticsError};

/// The statistics of a column of the type in these bytes. If they were written as of one logical type,
/// and are read as of another, then the two are one: no statistics of dates are read as of times.
pub fn read_of_type(
    alloc: Global,
    dtype: &DType,
    bytes: &[u8],
) -> Result<ColumnStatistics, StatisticsError>
    ensures { IfOk result (λ _. (t : TypeTree) (s : Known) (written read : LogicalType)
        → IsOfLogicalType t written → IsOfLogicalType (type_of dtype.now) read
        → bytes.now ≡ named_encoding t s → IsOfLogicalType (type_of dtype.now) written) }
{
    names_tell_types();
    statistics_tell_names();
    decode_named_statistics(alloc, dtype, bytes)
}

//! The nulls of a column, and the least and the greatest of its values as scalars.

ghost use Rattle.std.specs.Prelude.{Bool, IfErr, IfOk, List, Option};
ghost use Rattle.column_statistics.specs.Words.{AreBooleanStatisticsOf, AreExtremesAt, AreExtremesOf, ArePlacesOf};
ghost use Rattle.column_statistics.specs.Words.{AreSummaryOf, AreTruthsOf, HasTexts, Nullable, bool_type};
ghost use Rattle.column_statistics.specs.Words.{boolean_contents, contents_of_rows, integer_contents, integer_type};
ghost use Rattle.column_statistics.specs.Words.{IsScalarOf, IsSound, IsValueOf, TakeMemory, Values, ptype_of_kind};
ghost use Rattle.column_statistics.specs.Words.{type_of_format, type_of_rows, value_contents};

use arrow_columns::{
    BooleanRows, BooleanStatistics, ByteExtremes, ByteStatistics, Format, IntegerExtremes,
    IntegerRows, LogicalRows, Rows, items_are_bytes,
};
use column_cells::{bool_scalar, integer_scalar, scalar_at, value_scalar};
use logical_types::laws::decimal_bytes_sort_as_numbers;
use std::alloc::Global;
use vortex_dtype::VortexError;
use vortex_value::Scalar;

/// The least and the greatest value of a column.
#[derive(Drop)]
pub(crate) struct Extremes {
    pub(crate) least: Scalar,
    pub(crate) greatest: Scalar,
}

/// How many cells of a column are null, and the least and the greatest value of the others.
#[derive(Drop)]
pub(crate) struct Summary {
    pub(crate) null_count: usize,
    pub(crate) extremes: Option<Extremes>,
}

/// The summary of a column.
///
/// It is refused only for want of memory, for a value of more than 22 bytes or of a logical type.
pub(crate) fn summary_of(alloc: Global, rows: &Rows) -> Result<Summary, VortexError>
    requires { HasTexts rows.now }
    ensures summary { IfOk result
        (AreSummaryOf (type_of_rows rows.now) (contents_of_rows rows.now)) }
    ensures refused { IfErr result (λ _. TakeMemory rows.now) }
{
    match rows {
        Rows::Integers(integers) => Ok(summary_of_integers(integers)),
        Rows::Booleans(booleans) => Ok(summary_of_booleans(booleans)),
        Rows::Strings(strings) => summary_at(alloc, rows, strings.statistics()),
        Rows::Bytes(bytes) => summary_at(alloc, rows, bytes.statistics()),
        Rows::Nulls(count) => Ok(Summary {
            null_count: *count,
            extremes: None,
        }),
        Rows::Values(values) => summary_of_values(alloc, values),
    }
}

/// The summary of a column of a logical type: its values sort as their numbers do.
///
/// It is refused only for want of memory, for the type of the two values.
fn summary_of_values(alloc: Global, rows: &LogicalRows) -> Result<Summary, VortexError>
    requires { HasTexts (Values rows.now) }
    ensures summary { IfOk result (AreSummaryOf (type_of_format rows.now.format)
        (value_contents rows.now.format rows.now.column)) }
{
    decimal_bytes_sort_as_numbers();
    let statistics = rows.numbers().statistics();
    match statistics.extremes {
        Some(extremes) => {
            let extremes = value_extremes(alloc, rows.format, extremes)?;
            Ok(Summary {
                null_count: statistics.null_count,
                extremes: Some(extremes),
            })
        }
        None => Ok(Summary {
            null_count: statistics.null_count,
            extremes: None,
        }),
    }
}

/// Two values of a format, by their numbers.
fn value_extremes(
    alloc: Global,
    format: Format,
    numbers: IntegerExtremes,
) -> Result<Extremes, VortexError>
    requires sound { IsSound format }
    requires least { IsValueOf format numbers.least }
    requires greatest { IsValueOf format numbers.greatest }
    ensures least { IfOk result (λ e. IsScalarOf format numbers.least e.least) }
    ensures greatest { IfOk result (λ e. IsScalarOf format numbers.greatest e.greatest) }
{
    let least = value_scalar(alloc, format, Some(numbers.least))?;
    match value_scalar(alloc, format, Some(numbers.greatest)) {
        Ok(greatest) => Ok(Extremes { least, greatest }),
        Err(cause) => {
            drop(least);
            Err(cause)
        }
    }
}

/// The summary of a column of integers.
fn summary_of_integers(rows: &IntegerRows) -> Summary
    ensures { AreSummaryOf (integer_type (ptype_of_kind rows.now.kind) Nullable)
        (integer_contents rows.now.kind rows.now.column) result }
{
    items_are_bytes(rows.column.values);
    let statistics = rows.statistics();
    match statistics.extremes {
        Some(extremes) => Summary {
            null_count: statistics.null_count,
            extremes: Some(Extremes {
                least: integer_scalar(rows.kind, Some(extremes.least)),
                greatest: integer_scalar(rows.kind, Some(extremes.greatest)),
            }),
        },
        None => Summary {
            null_count: statistics.null_count,
            extremes: None,
        },
    }
}

/// The least and the greatest of two truth values, if they are there.
#[derive(Clone, Copy)]
pub(crate) struct Truths {
    pub(crate) least: bool,
    pub(crate) greatest: bool,
}

/// The least and the greatest value of a column of booleans: false is below true.
fn truths_of(statistics: BooleanStatistics) -> Option<Truths>
    ensures { (cells : List (Option Bool)) → AreBooleanStatisticsOf cells statistics
        → AreTruthsOf cells result }
{
    match (statistics.false_count, statistics.true_count) {
        (0, 0) => None,
        (0, _) => Some(Truths {
            least: true,
            greatest: true,
        }),
        (_, 0) => Some(Truths {
            least: false,
            greatest: false,
        }),
        _ => Some(Truths {
            least: false,
            greatest: true,
        }),
    }
}

/// The summary of a column of booleans.
fn summary_of_booleans(rows: &BooleanRows) -> Summary
    ensures { AreSummaryOf (bool_type Nullable) (boolean_contents rows.now.column) result }
{
    let statistics = rows.statistics();
    match truths_of(statistics) {
        Some(truths) => Summary {
            null_count: statistics.null_count,
            extremes: Some(Extremes {
                least: bool_scalar(Some(truths.least)),
                greatest: bool_scalar(Some(truths.greatest)),
            }),
        },
        None => Summary {
            null_count: statistics.null_count,
            extremes: None,
        },
    }
}

/// The summary of a column whose least and greatest value stand in these rows.
fn summary_at(alloc: Global, rows: &Rows, places: ByteStatistics) -> Result<Summary, VortexError>
    requires texts { HasTexts rows.now }
    requires places { ArePlacesOf (contents_of_rows rows.now) places }
    ensures summary { IfOk result
        (AreSummaryOf (type_of_rows rows.now) (contents_of_rows rows.now)) }
    ensures refused { IfErr result (λ _. TakeMemory rows.now) }
{
    match places.extremes {
        Some(extremes) => {
            let extremes = extremes_at(alloc, rows, extremes)?;
            Ok(Summary {
                null_count: places.null_count,
                extremes: Some(extremes),
            })
        }
        None => Ok(Summary {
            null_count: places.null_count,
            extremes: None,
        }),
    }
}

/// The values of these rows.
fn extremes_at(alloc: Global, rows: &Rows, places: ByteExtremes) -> Result<Extremes, VortexError>
    requires texts { HasTexts rows.now }
    requires places { AreExtremesAt (contents_of_rows rows.now) places }
    ensures extremes { IfOk result
        (AreExtremesOf (type_of_rows rows.now) (contents_of_rows rows.now)) }
    ensures refused { IfErr result (λ _. TakeMemory rows.now) }
{
    let least = scalar_at(alloc, rows, places.least)?;
    match scalar_at(alloc, rows, places.greatest) {
        Ok(greatest) => Ok(Extremes { least, greatest }),
        Err(cause) => {
            drop(least);
            Err(cause)
        }
    }
}

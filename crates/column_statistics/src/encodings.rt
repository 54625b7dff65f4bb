//! The statistics of columns as bytes, and those of two pieces as of both.

ghost use Rattle.std.specs.Prelude.{◌≡◌, IfErr, IfOk, IfSome, MatchBool, option_map};
ghost use Rattle.vortex_statistics.specs.Statistics.{Known};
ghost use Rattle.column_statistics.specs.Words.{HasBoundsIn, HasNoVariants, HasValueIn, HaveValues, IsColumnEncoding};
ghost use Rattle.column_statistics.specs.Words.{IsEncodingAs, IsEncodingError, IsHeldKnown, IsMergeError};
ghost use Rattle.column_statistics.specs.Words.{IsMergedEncoding, IsReadError, ReadsNamed, fault_of_piece, known};
ghost use Rattle.column_statistics.specs.Words.{known_bound, named_encoding, option_copied, read_fault, type_of};
ghost use Rattle.column_statistics.specs.Words.{type_of_column, type_of_kind};

use crate::errors::{ColumnStatisticsError, MergeError, ReadError};
use crate::statistics::statistics_of;
use arrow_columns::{Column, Kind};
use column_cells::dtype_of;
use column_items::has_value;
use named_statistics::{append_named_statistics, decode_named_statistics};
use std::alloc::Global;
use vortex_dtype::{DType, VortexError};
use vortex_statistics::{Bound, ColumnStatistics, StatisticsError};

/// The statistics of a column in their stable encoding, with bounds that are cut to `limit` bytes. Those
/// of a logical type begin with its name.
///
/// `OutOfMemory` may come of each column that can be read.
#[tactic(auto, using(crate::proofs::EncodingLaws::shown))]
pub fn column_encoding(
    alloc: Global,
    column: Column,
    limit: usize,
) -> Result<Vec<u8>, ColumnStatisticsError>
    ensures encoding { IfOk result (λ bytes. IsColumnEncoding column.entry limit bytes.items) }
    ensures refused { IfErr result (IsEncodingError column.entry) }
{
    let statistics = match statistics_of(alloc, column, limit) {
        Ok(statistics) => statistics,
        Err(fault) => return Err(fault),
    };
    let Ok(dtype) = dtype_of_column(alloc, column) else {
        return Err(ColumnStatisticsError::OutOfMemory);
    };
    match written(alloc, &dtype, &statistics) {
        Some(bytes) => Ok(bytes),
        None => Err(ColumnStatisticsError::OutOfMemory),
    }
}

/// The type of the cells of a column, by its codes; of no kind, that of nulls.
fn dtype_of_column(alloc: Global, column: Column) -> Result<DType, VortexError>
    ensures { IfOk result (λ dtype. type_of dtype ≡ type_of_column column.entry) }
{
    match Kind::with_code(column.kind, column.precision, column.scale) {
        Some(kind) => dtype_of(alloc, kind),
        None => Ok(DType::Null),
    }
}

/// The statistics of a piece of a column and then of another, in their stable encoding, of the
/// encodings of both. The kind is that of the column.
///
/// `BadBytes` has the first piece that is no encoding, before `TooManyRows`, and `NotAValue` the first
/// with a bound that is no value of the logical type. Of the second piece something is told only behind
/// a first one that is well. `OutOfMemory` comes only in place of what takes memory: a logical type, the
/// bounds of the first piece, those of the second if the first is well, and the bytes of both if they
/// can be merged.
#[tactic(auto, using(crate::proofs::EncodingLaws::shown))]
pub fn merged_encoding(
    alloc: Global,
    kind: Kind,
    one: &[u8],
    other: &[u8],
) -> Result<Vec<u8>, MergeError>
    ensures encoding { IfOk result
        (λ bytes. IsMergedEncoding kind one.now other.now bytes.items) }
    ensures refused { IfErr result (IsMergeError kind one.now other.now) }
{
    let Ok(dtype) = dtype_of(alloc, kind) else {
        return Err(MergeError::OutOfMemory);
    };
    let first = match read_as(alloc, kind, &dtype, one) {
        Ok(first) => first,
        Err(fault) => return Err(fault_of_piece(0, fault)),
    };
    let second = match read_as(alloc, kind, &dtype, other) {
        Ok(second) => second,
        Err(fault) => {
            drop(first);
            return Err(fault_of_piece(1, fault));
        }
    };
    let both = match first.merge(second) {
        Ok(both) => both,
        Err(_) => return Err(MergeError::TooManyRows),
    };
    match written(alloc, &dtype, &both) {
        Some(bytes) => Ok(bytes),
        None => Err(MergeError::OutOfMemory),
    }
}

/// The statistics of a column of this kind that have this encoding: its counts, its bounds, and
/// whether each is exact. The bounds are valid values of the column's type.
///
/// `BadBytes` comes only if they are no such encoding, `NotAValue` only if a bound is no value of the
/// logical type, and `OutOfMemory` only if they say a bound, or if the kind is of a logical type. In
/// bytes from anywhere a bound may be null.
#[tactic(auto, using(crate::proofs::EncodingLaws::shown))]
pub fn read_encoding(alloc: Global, kind: Kind, bytes: &[u8]) -> Result<ColumnStatistics, ReadError>
    ensures read { IfOk result (λ s. IsEncodingAs (type_of_kind kind) bytes.now (known s)) }
    ensures typed { IfOk result (HasBoundsIn (type_of_kind kind)) }
    ensures values { IfOk result (λ s. HaveValues kind (known s)) }
    ensures whole { (s : Known) → IsEncodingAs (type_of_kind kind) bytes.now s
        → IfOk result (λ t. known t ≡ s) }
    ensures right { IfOk result
        (λ s. ReadsNamed (type_of_kind kind) bytes.now (known s)) }
    ensures refused { IfErr result (IsReadError kind bytes.now) }
{
    let Ok(dtype) = dtype_of(alloc, kind) else {
        return Err(ReadError::OutOfMemory);
    };
    read_as(alloc, kind, &dtype, bytes)
}

/// The same, of the type of the kind.
#[tactic(auto, using(crate::proofs::EncodingLaws::shown))]
fn read_as(
    alloc: Global,
    kind: Kind,
    dtype: &DType,
    bytes: &[u8],
) -> Result<ColumnStatistics, ReadError>
    requires { type_of dtype.now ≡ type_of_kind kind }
    ensures read { IfOk result (λ s. IsEncodingAs (type_of_kind kind) bytes.now (known s)) }
    ensures typed { IfOk result (HasBoundsIn (type_of_kind kind)) }
    ensures values { IfOk result (λ s. HaveValues kind (known s)) }
    ensures whole { (s : Known) → IsEncodingAs (type_of_kind kind) bytes.now s
        → IfOk result (λ t. known t ≡ s) }
    ensures right { IfOk result
        (λ s. ReadsNamed (type_of_kind kind) bytes.now (known s)) }
    ensures refused { IfErr result (IsReadError kind bytes.now) }
{
    let statistics = match decode_named_statistics(alloc, dtype, bytes) {
        Ok(statistics) => statistics,
        Err(cause) => return Err(read_fault(cause)),
    };
    if !have_values(kind, &statistics) {
        drop(statistics);
        return Err(ReadError::NotAValue);
    }
    Ok(statistics)
}

/// Whether each bound is null, or a value of the kind.
fn have_values(kind: Kind, statistics: &ColumnStatistics) -> bool
    ensures { MatchBool result (HaveValues kind (known statistics.now))
        (¬ (HaveValues kind (known statistics.now))) }
{
    has_bound_value(kind, statistics.lower.as_ref())
        && has_bound_value(kind, statistics.upper.as_ref())
}

/// The same of a bound, if it is there.
fn has_bound_value(kind: Kind, bound: Option<&Bound>) -> bool
    ensures { MatchBool result
        (HasValueIn kind (option_map known_bound (option_copied bound.entry)))
        (¬ (HasValueIn kind (option_map known_bound (option_copied bound.entry)))) }
{
    match bound {
        Some(bound) => has_value(kind, bound.value.value()),
        None => true,
    }
}

/// Why bytes are not read.
fn read_fault(cause: StatisticsError) -> ReadError
    ensures { result ≡ read_fault cause }
{
    match cause {
        StatisticsError::BadBytes { offset } => ReadError::BadBytes { offset },
        StatisticsError::OutOfMemory | StatisticsError::TooManyRows | StatisticsError::HasVariant =>
            ReadError::OutOfMemory,
    }
}

/// The encoding of statistics of the type, whose bounds have keys. `None` if there is no memory.
fn written(alloc: Global, dtype: &DType, statistics: &ColumnStatistics) -> Option<Vec<u8>>
    requires { HasNoVariants (known statistics.now) }
    ensures written { IfSome result
        (λ bytes. bytes.items ≡ named_encoding (type_of dtype.now) (known statistics.now)) }
    ensures held { IfSome result (λ _. IsHeldKnown (known statistics.now)) }
{
    let mut bytes = Vec::new(alloc);
    match append_named_statistics(dtype, statistics, &mut bytes) {
        Ok(()) => Some(bytes),
        Err(_) => None,
    }
}

/// Why two pieces are not merged, of which one is not read.
fn fault_of_piece(piece: usize, fault: ReadError) -> MergeError
    ensures { result ≡ fault_of_piece piece fault }
{
    match fault {
        ReadError::OutOfMemory => MergeError::OutOfMemory,
        ReadError::BadBytes { offset } => MergeError::BadBytes { piece, offset },
        ReadError::NotAValue => MergeError::NotAValue { piece },
    }
}

//! Bounds of strings and bytes, cut to a length in bytes.

ghost use Rattle.std.specs.Prelude.{◌≡◌, ◌⊎◌, ◌&&◌, List, false, not, IfErr, IfOk};
ghost use Rattle.vortex_cells.specs.Cells.{Cell};
ghost use Rattle.vortex_statistics.specs.Words.{AreRight, AreTruncated, HasShortBounds, HasValidBounds, IsBestAnswer};
ghost use Rattle.vortex_statistics.specs.Words.{IsCutAt, IsLong, IsLongRaw, IsOutOfMemoryAt, IsTruncated};
ghost use Rattle.vortex_statistics.specs.Words.{IsTruncatedLower, IsTruncatedUpper, IsTypeOfKind, MayHold, is_absent};
ghost use Rattle.vortex_statistics.specs.Words.{kind_of, known, scalar_raw, scalar_type};

use crate::column_statistics::{Bound, ColumnStatistics};
use crate::error::StatisticsError;
use std::alloc::Global;
use vortex_bounds::{ScalarTruncation, lower_bound, upper_bound};
use vortex_dtype::{BufferString, ByteBuffer, Nullability, VortexError};
use vortex_value::laws::{order_is_reversed, order_is_transitive};
use vortex_value::{Scalar, ScalarValue};

impl ColumnStatistics {
    /// These statistics with each bound that is a string, or bytes, cut to at most `n` bytes. A
    /// bound that was cut is no longer exact. Other bounds stay, those of extension types too.
    ///
    /// An upper bound is dropped if `upper_bound` gives none. So it is if the first `n` bytes are
    /// all 255; of a string, if no whole character fits, or none of as many bytes follows the last.
    ///
    /// `OutOfMemory` only if a bound is longer than `n` bytes and `n` is above 22.
    pub fn truncate(self, alloc: Global, n: usize) -> Result<ColumnStatistics, StatisticsError>
        ensures value { IfOk result (AreTruncated n self) }
        ensures right { IfOk result (λ t. (cells : List Cell)
            → AreRight (known self) cells → AreRight (known t) cells) }
        ensures short { IfOk result (HasShortBounds n) }
        ensures valid { IfOk result (λ t. HasValidBounds self → HasValidBounds t) }
        ensures refused { IfErr result
            (IsOutOfMemoryAt n (IsLong n self.lower ⊎ IsLong n self.upper)) }
    {
        order_is_reversed();
        order_is_transitive();
        let ColumnStatistics {
            row_count,
            null_count,
            lower,
            upper,
        } = self;
        let (lower, upper) = truncate_bounds(alloc, lower, upper, n)?;
        Ok(ColumnStatistics {
            row_count,
            null_count,
            lower,
            upper,
        })
    }
}

/// Both bounds, cut if they are strings or bytes.
fn truncate_bounds(
    alloc: Global,
    lower: Option<Bound>,
    upper: Option<Bound>,
    n: usize,
) -> Result<(Option<Bound>, Option<Bound>), StatisticsError>
    ensures lower { IfOk result (λ bounds. IsTruncatedLower n lower bounds.0) }
    ensures upper { IfOk result (λ bounds. IsTruncatedUpper n upper bounds.1) }
    ensures refused { IfErr result (IsOutOfMemoryAt n (IsLong n lower ⊎ IsLong n upper)) }
{
    let lower = match truncate_bound(alloc, Side::Lower, lower, n) {
        Ok(lower) => lower,
        Err(cause) => {
            drop(upper);
            return Err(cause);
        }
    };
    match truncate_bound(alloc, Side::Upper, upper, n) {
        Ok(upper) => Ok((lower, upper)),
        Err(cause) => {
            drop(lower);
            Err(cause)
        }
    }
}

/// Which of the two bounds it is.
#[derive(Clone, Copy)]
enum Side {
    /// The lower one, which may become less.
    Lower,
    /// The upper one, which may become greater.
    Upper,
}

/// What a bound is cut as.
#[derive(Clone, Copy)]
enum Kind {
    /// A string of type `Utf8`.
    Text,
    /// Bytes of type `Binary`.
    Bytes,
    /// Anything else, which is not cut.
    Whole,
}

/// What a bound is cut as, by its type and its raw value.
fn kind_of(scalar: &Scalar) -> Kind
    ensures { result ≡ kind_of (scalar_type scalar.now) (scalar_raw scalar.now) }
{
    match &scalar.value {
        Some(ScalarValue::Utf8(_)) => {
            if scalar.dtype.is_utf8() {
                Kind::Text
            } else {
                Kind::Whole
            }
        }
        Some(ScalarValue::Binary(_)) => {
            if scalar.dtype.is_binary() {
                Kind::Bytes
            } else {
                Kind::Whole
            }
        }
        _ => Kind::Whole,
    }
}

/// A bound, cut if it is a string or bytes.
fn truncate_bound(
    alloc: Global,
    side: Side,
    bound: Option<Bound>,
    n: usize,
) -> Result<Option<Bound>, StatisticsError>
    ensures value { IfOk result (IsTruncated side n bound) }
    ensures refused { IfErr result (IsOutOfMemoryAt n (IsLong n bound)) }
{
    let Some(bound) = bound else {
        return Ok(None);
    };
    match kind_of(&bound.value) {
        Kind::Text => cut::<BufferString>(alloc, side, bound, n),
        Kind::Bytes => cut::<ByteBuffer>(alloc, side, bound, n),
        Kind::Whole => Ok(Some(bound)),
    }
}

/// The best bound at n bytes of a bound that is a string, or bytes.
fn cut<T: ScalarTruncation>(
    alloc: Global,
    side: Side,
    bound: Bound,
    n: usize,
) -> Result<Option<Bound>, StatisticsError>
    requires typed { IsTypeOfKind T.type_at (scalar_type bound.value) }
    requires raw { MayHold T.raw_at (scalar_raw bound.value) }
    requires some { is_absent (scalar_raw bound.value) ≡ false }
    ensures value { IfOk result
        (IsCutAt side T.IsBestLower T.IsBestUpper T.HasNoBestUpper T.raw_at n bound) }
    ensures refused { IfErr result (IsOutOfMemoryAt n (IsLongRaw T.raw_at n bound)) }
{
    let Bound { value, is_exact } = bound;
    let nullability = value.dtype().nullability();
    let Ok(value) = T::from_scalar(value) else {
        unreachable!()
    };
    match best_bound(alloc, side, value, n, nullability) {
        Ok(Some((value, cut))) => Ok(Some(bound_of(value, cut, is_exact))),
        Ok(None) => Ok(None),
        Err(cause) => {
            drop(cause);
            Err(StatisticsError::OutOfMemory)
        }
    }
}

/// The best lower or upper bound of a value at n bytes, and whether the value was cut.
fn best_bound<T: ScalarTruncation>(
    alloc: Global,
    side: Side,
    value: Option<T>,
    n: usize,
    nullability: Nullability,
) -> Result<Option<(Scalar, bool)>, VortexError>
    ensures { IsBestAnswer side T.IsBestLower T.IsBestUpper T.HasNoBestUpper T.raw_at T.type_at
        T.bytes value n nullability result }
{
    match side {
        Side::Lower => lower_bound(alloc, value, n, nullability),
        Side::Upper => upper_bound(alloc, value, n, nullability),
    }
}

/// What a bound becomes: it stays exact if it was not cut.
fn bound_of(value: Scalar, cut: bool, is_exact: bool) -> Bound
    ensures { result ≡ record { value = value; is_exact = is_exact && not cut } }
{
    Bound {
        value,
        is_exact: is_exact && !cut,
    }
}

//! The bounds of a zone.

ghost use Rattle.std.specs.Prelude.{◌≡◌, ◌≢◌, ◌≤◌, List, IfErr, IfNone, IfOk, IfSome, Err};
ghost use Rattle.vortex_zone.specs.Words.{AreBoundsOf, AreBoundsOfKind, IsLongerThan, IsOfKind, IsValid, LosesNothing};
ghost use Rattle.vortex_zone.specs.Words.{NonNullable, OutOfMemory, Same, Stops, may_hold, option_copied, refusal};
ghost use Rattle.vortex_zone.specs.Words.{scalar_type};

use std::alloc::Global;
use std::cmp::Ordering;
use std::marker::Model;
use vortex_array::{
    BufferString, ByteBuffer, INLINE_BYTES, Nullability, Scalar, ScalarTruncation, VortexError,
    lower_bound, upper_bound,
};
use vortex_value::laws::{order_is_reversed, order_is_transitive};

/// The bounds of a zone: its least and its greatest value, both cut to a length in bytes. A value
/// outside of the bounds is not in the zone.
///
/// There is no upper bound if no string, or no bytes, of that length are above the greatest value.
#[derive(Debug, Drop)]
pub struct ZoneBounds {
    lower: Scalar,
    upper: Option<Scalar>,
}

impl Model for ZoneBounds {
    ghost use Rattle.std.specs.Coded.{codes};
    ghost use Rattle.vortex_value.specs.contracts.scalars.Scalar as scalar;
    ghost use Rattle.vortex_zone.specs.Zone.{AreValidBounds, Bounds};

    ghost Value = { Bounds };

    ghost coded = { Prim.hlevel (codes, scalar.the_row.coded) };

    ghost view = { λ z. record { lower = z.lower; upper = z.upper } };

    ghost invariant = { λ z. AreValidBounds z.lower z.upper };
}

impl ZoneBounds {
    /// The bounds, cut to n bytes, of a zone whose values lie from `least` to `greatest`. Both are
    /// strings or both are bytes; they are not compared.
    ///
    /// `WrongKind` unless both types are Utf8 or both are Binary (an extension is neither); then
    /// `IsNull` if one is null. Then `OutOfMemory`, only if one is longer than n bytes and n is above
    /// 22.
    pub fn of(
        alloc: Global,
        least: Scalar,
        greatest: Scalar,
        n: usize,
    ) -> Result<ZoneBounds, VortexError>
        requires least_valid { IsValid least }
        requires greatest_valid { IsValid greatest }
        ensures bounds { IfOk result (AreBoundsOf least greatest n) }
        ensures typed { IfOk result (λ z. Same (scalar_type z.lower) (scalar_type least)) }
        ensures loses_nothing { IfOk result (LosesNothing least greatest) }
        ensures refused { IfSome (refusal least greatest) (λ e. result ≡ Err e) }
        ensures memory { IfNone (refusal least greatest)
            (IfErr result (λ e. (e ≡ OutOfMemory) × IsLongerThan n least greatest)) }
        ensures inline { n ≤ INLINE_BYTES → IfErr result (λ e. e ≢ OutOfMemory) }
    {
        order_is_reversed();
        order_is_transitive();
        if least.dtype().is_utf8() && greatest.dtype().is_utf8() {
            return of_kind::<BufferString>(alloc, least, greatest, n);
        }
        if least.dtype().is_binary() && greatest.dtype().is_binary() {
            return of_kind::<ByteBuffer>(alloc, least, greatest, n);
        }
        drop((least, greatest));
        Err(VortexError::WrongKind)
    }

    /// The lower bound: no value of the zone is below it. Its type is non-nullable.
    pub fn lower(&self) -> &Scalar
        ensures lent { result.now ≡ self.now.lower }
        ensures valid { IsValid result.now }
    {
        &self.lower
    }

    /// The upper bound, if there is one: no value of the zone is above it. Its type is that of the
    /// lower bound.
    pub fn upper(&self) -> Option<&Scalar>
        ensures lent { option_copied result ≡ self.now.upper }
        ensures valid { IfSome self.now.upper
            (λ u. IsValid u × (scalar_type u ≡ scalar_type self.now.lower)) }
    {
        self.upper.as_ref()
    }

    /// Whether the zone may hold the value. False exactly if the value is not null and is below the
    /// lower bound or above the upper one. Takes no memory.
    pub fn may_contain(&self, value: &Scalar) -> bool
        requires valid { IsValid value.now }
        requires typed { Same (scalar_type value.now) (scalar_type self.now.lower) }
        ensures { result ≡ may_hold self.now value.now }
    {
        if value.is_null() {
            return true;
        }
        if value.partial_cmp(&self.lower) == Some(Ordering::Less) {
            return false;
        }
        match &self.upper {
            Some(upper) => value.partial_cmp(upper) != Some(Ordering::Greater),
            None => true,
        }
    }
}

/// The bounds of a zone of strings, or of bytes.
fn of_kind<T: ScalarTruncation>(
    alloc: Global,
    least: Scalar,
    greatest: Scalar,
    n: usize,
) -> Result<ZoneBounds, VortexError>
    requires least_kind { IsOfKind T.type_at T.raw_at least }
    requires greatest_kind { IsOfKind T.type_at T.raw_at greatest }
    ensures bounds { IfOk result (AreBoundsOfKind T.IsBestLower T.IsBestUpper T.HasNoBestUpper
        T.raw_at (T.type_at NonNullable) least greatest n) }
    ensures refused { IfErr result (Stops T.raw_at least greatest n) }
    ensures inline { n ≤ INLINE_BYTES → IfErr result (λ e. e ≢ OutOfMemory) }
{
    let least = T::from_scalar(least)?;
    let greatest = T::from_scalar(greatest)?;
    let (Some(least), Some(greatest)) = (least, greatest) else {
        return Err(VortexError::IsNull);
    };
    let Some((lower, _)) = lower_bound(alloc, Some(least), n, Nullability::NonNullable)? else {
        unreachable!()
    };
    match upper_bound(alloc, Some(greatest), n, Nullability::NonNullable)? {
        Some((upper, _)) => Ok(ZoneBounds {
            lower,
            upper: Some(upper),
        }),
        None => Ok(ZoneBounds { lower, upper: None }),
    }
}

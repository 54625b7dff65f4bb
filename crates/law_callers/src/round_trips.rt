//! What a caller derives about several casts, from the contract of `cast` and the laws alone.

ghost use Rattle.std.specs.Prelude.{[], ◌∷◌, ◌≡◌, IfErr, IfOk};
ghost use Rattle.law_callers.specs.Words.{GivesCast, HasNoExtension, HasNoMap, IsMadeOf, IsTheOne, IsValid};
ghost use Rattle.law_callers.specs.Words.{IsValidRef, Runs, Same, integer_type, list_type, scalar_content};
ghost use Rattle.law_callers.specs.Words.{scalar_order, scalar_raw, scalar_type, type_of};

use std::alloc::Global;
use vortex_dtype::{DType, Nullability, PType, VortexError};
use vortex_value::laws::{
    calls_are_chains, chains_agree, equality_and_order_are_kept, has_by_cases,
    into_nullable_and_back, no_way_round, there_and_back,
};
use vortex_value::{Scalar, ScalarRef};

/// The type of lists of these integers.
pub fn list_of(alloc: Global, ptype: PType) -> Result<DType, VortexError>
    ensures made { IfOk result (λ made. type_of made ≡
        list_type (integer_type ptype Nullability.NonNullable) Nullability.NonNullable) }
    ensures refused { IfErr result (λ e. e ≡ VortexError.OutOfMemory) }
{
    let element = DType::Primitive(ptype, Nullability::NonNullable);
    let element = Box::new(alloc, element)?;
    Ok(DType::List(element, Nullability::NonNullable))
}

/// A list of 32-bit integers, cast to 64 bits and back: the same list.
///
/// `OutOfMemory` is its only refusal.
pub fn widened_and_back(alloc: Global, list: &Scalar) -> Result<Scalar, VortexError>
    requires valid { IsValid list.now }
    requires typed { scalar_type list.now ≡
        list_type (integer_type PType.I32 Nullability.NonNullable) Nullability.NonNullable }
    ensures came_back { IfOk result (IsMadeOf (scalar_type list.now) (scalar_raw list.now)) }
    ensures refused { IfErr result (λ e. e ≡ VortexError.OutOfMemory) }
{
    calls_are_chains();
    there_and_back();
    has_by_cases();
    let longs = list_of(alloc, PType::I64)?;
    let widened = list.cast(alloc, &longs)?;
    widened.cast(alloc, &list.dtype)
}

/// A scalar cast by way of a type between, and cast at once: if both succeed, they give one raw
/// value.
pub fn two_ways(
    alloc: Global,
    scalar: &Scalar,
    between: &DType,
    target: &DType,
) -> Result<(Scalar, Scalar), VortexError>
    requires { IsValid scalar.now }
    ensures { IfOk result (λ made. scalar_raw made.0 ≡ scalar_raw made.1) }
{
    calls_are_chains();
    chains_agree();
    let step = scalar.cast(alloc, between)?;
    let chained = step.cast(alloc, target)?;
    let direct = scalar.cast(alloc, target)?;
    Ok((chained, direct))
}

/// A scalar that is lent, cast by way of a type between, and cast at once: if both succeed, they
/// give one raw value.
pub fn two_ways_lent(
    alloc: Global,
    lent: &ScalarRef<'_>,
    between: &DType,
    target: &DType,
) -> Result<(Scalar, Scalar), VortexError>
    requires { IsValidRef lent.now }
    ensures { IfOk result (λ made. scalar_raw made.0 ≡ scalar_raw made.1) }
{
    calls_are_chains();
    chains_agree();
    let step = lent.cast(alloc, between)?;
    let chained = step.cast(alloc, target)?;
    let direct = lent.cast(alloc, target)?;
    Ok((chained, direct))
}

/// A scalar cast by way of a type between: a chain of two casts.
pub fn by_way_of(
    alloc: Global,
    scalar: &Scalar,
    between: &DType,
    target: &DType,
) -> Result<Scalar, VortexError>
    requires { IsValid scalar.now }
    ensures { IfOk result (λ made. Runs (scalar_type scalar.now) (scalar_raw scalar.now)
        (type_of between.now) (type_of target.now ∷ []) (scalar_raw made)) }
{
    calls_are_chains();
    let step = scalar.cast(alloc, between)?;
    step.cast(alloc, target)
}

/// A scalar cast at once, after `chained` was cast by way of a type between: it has the value of
/// `chained`, or there is no memory.
pub fn at_once(
    alloc: Global,
    scalar: &Scalar,
    _between: &DType,
    target: &DType,
    chained: &Scalar,
) -> Result<Scalar, VortexError>
    requires valid { IsValid scalar.now }
    requires chain { Runs (scalar_type scalar.now) (scalar_raw scalar.now)
        (type_of _between.now) (type_of target.now ∷ []) (scalar_raw chained.now) }
    requires source { HasNoExtension (scalar_type scalar.now) × HasNoMap (scalar_type scalar.now) }
    requires last { HasNoExtension (type_of target.now) × HasNoMap (type_of target.now) }
    ensures { GivesCast (type_of target.now) (scalar_raw chained.now) result }
{
    no_way_round();
    scalar.cast(alloc, target)
}

/// A scalar made nullable and cast back to its type: the same scalar, or there is no memory.
pub fn nullable_and_back(
    alloc: Global,
    scalar: Scalar,
    dtype: &DType,
) -> Result<Scalar, VortexError>
    requires valid { IsValid scalar }
    requires typed { type_of dtype.now ≡ scalar_type scalar }
    ensures { GivesCast (scalar_type scalar) (scalar_raw scalar) result }
{
    into_nullable_and_back();
    let nullable = scalar.into_nullable();
    let back = nullable.cast(alloc, dtype);
    drop(nullable);
    back
}

/// Two scalars of one type, cast to another: they are ordered as before, and equal exactly if they
/// were.
pub fn cast_both(
    alloc: Global,
    first: &Scalar,
    second: &Scalar,
    target: &DType,
) -> Result<(Scalar, Scalar), VortexError>
    requires valid { IsValid first.now × IsValid second.now }
    requires typed { Same (scalar_type first.now) (scalar_type second.now) }
    ensures ordered { IfOk result
        (λ made. scalar_order made.0 made.1 ≡ scalar_order first.now second.now) }
    ensures equal { IfOk result (λ made. ⟦<Scalar as PartialEq>⟧.eq made.0 made.1
        ≡ ⟦<Scalar as PartialEq>⟧.eq first.now second.now) }
{
    equality_and_order_are_kept();
    let one = first.cast(alloc, target)?;
    let other = second.cast(alloc, target)?;
    Ok((one, other))
}

/// Two scalars of one type, each cast by way of a type between: they are ordered as before, and
/// equal exactly if they were.
pub fn cast_both_by_way_of(
    alloc: Global,
    first: &Scalar,
    second: &Scalar,
    between: &DType,
    target: &DType,
) -> Result<(Scalar, Scalar), VortexError>
    requires valid { IsValid first.now × IsValid second.now }
    requires typed { Same (scalar_type first.now) (scalar_type second.now) }
    ensures ordered { IfOk result
        (λ made. scalar_order made.0 made.1 ≡ scalar_order first.now second.now) }
    ensures equal { IfOk result (λ made. ⟦<Scalar as PartialEq>⟧.eq made.0 made.1
        ≡ ⟦<Scalar as PartialEq>⟧.eq first.now second.now) }
{
    equality_and_order_are_kept();
    let one = cast_through(alloc, first, between, target)?;
    let other = cast_through(alloc, second, between, target)?;
    Ok((one, other))
}

/// A scalar cast by way of a type between: the one scalar of the target with its content.
pub fn cast_through(
    alloc: Global,
    scalar: &Scalar,
    between: &DType,
    target: &DType,
) -> Result<Scalar, VortexError>
    requires { IsValid scalar.now }
    ensures { IfOk result (IsTheOne (type_of target.now) (scalar_content scalar.now)) }
{
    let step = scalar.cast(alloc, between)?;
    let made = step.cast(alloc, target);
    drop(step);
    made
}

//! What a caller derives about raw values and scalars, from the contracts of their calls and the laws
//! alone.

ghost use Rattle.std.specs.Prelude.{[], ◌↔◌, ◌≡◌, IfOk, IsTrue, Some, fold};
ghost use Rattle.law_callers.specs.Words.{EqualContents, HasNoTyped, IsMadeOf, IsValid, Same, breaches, capped};
ghost use Rattle.law_callers.specs.Words.{content, is_valid, no_contents, ptype_in, scalar_content, scalar_raw};
ghost use Rattle.law_callers.specs.Words.{scalar_type, sequence, size_of, typed_feed, value_tree};

use std::alloc::Global;
use std::hash::{Hash, Hasher};
use vortex_dtype::Nullability::NonNullable;
use vortex_dtype::{DType, PType, VortexError};
use vortex_value::laws::{
    equal_contents_feed_the_same, equality, equality_agrees_without_typed,
    equality_is_an_equivalence, equality_is_decided, one_value, scalars_reinterpret_back,
    size_is_sum, valid_exactly_without_breach, validity_is_decided, zero_by_cases,
};
use vortex_value::{Scalar, ScalarValue};

/// Whether a scalar has no breach: exactly then it is valid.
pub fn has_no_breach(scalar: &Scalar) -> bool
    ensures { IsTrue result
        ↔ (breaches (scalar_type scalar.now) (scalar_raw scalar.now) ≡ []) }
{
    valid_exactly_without_breach();
    Scalar::is_compatible(scalar.dtype(), scalar.value())
}

/// Whether a scalar is valid, as the test that proofs can compute.
pub fn passes(scalar: &Scalar) -> bool
    ensures { result ≡ is_valid (scalar_type scalar.now) (scalar_raw scalar.now) }
{
    validity_is_decided();
    Scalar::is_compatible(scalar.dtype(), scalar.value())
}

/// Whether two raw values are equal: exactly then their contents are.
pub fn have_equal_contents(first: &ScalarValue, second: &ScalarValue) -> bool
    ensures { IsTrue result
        ↔ EqualContents (content (value_tree first.now)) (content (value_tree second.now)) }
{
    equality_is_decided();
    *first == *second
}

/// Whether two valid scalars are equal: if so, and if no variant is inside, they have one raw value.
pub fn have_one_value(first: &Scalar, second: &Scalar) -> bool
    requires valid { IsValid first.now × IsValid second.now }
    requires untyped { HasNoTyped (scalar_content first.now) }
    ensures { IsTrue result → scalar_raw first.now ≡ scalar_raw second.now }
{
    equality();
    equality_agrees_without_typed();
    one_value();
    *first == *second
}

/// Whether the second scalar equals the first and the third: then these two are equal.
pub fn are_equal_through(first: &Scalar, second: &Scalar, third: &Scalar) -> bool
    ensures { IsTrue result → IsTrue (⟦<Scalar as PartialEq>⟧.eq first.now third.now) }
{
    equality_is_an_equivalence();
    *first == *second && *second == *third
}

/// Feeds the second of two scalars of one type and of equal contents: what the first feeds.
pub fn feed_equal<H: Hasher>(_first: &Scalar, second: &Scalar, state: &mut H)
    requires typed { Same (scalar_type _first.now) (scalar_type second.now) }
    requires equal { EqualContents (scalar_content _first.now) (scalar_content second.now) }
    ensures { state.new
        ≡ fold H.write state.old (typed_feed (scalar_type _first.now) (scalar_content _first.now)) }
{
    equal_contents_feed_the_same();
    second.hash(state);
}

/// The zero of a type of lists: the empty list, whatever the elements.
pub fn zero_of_list(alloc: Global, element: DType) -> Result<Scalar, VortexError>
    ensures { IfOk result (λ zero. scalar_content zero ≡ sequence no_contents) }
{
    zero_by_cases();
    let dtype = DType::List(Box::new(alloc, element)?, NonNullable);
    let zero = Scalar::zero_value(alloc, &dtype);
    drop(dtype);
    match zero? {
        Some(zero) => Ok(zero),
        None => unreachable!(),
    }
}

/// The size of the variant of a scalar: the scalar's own.
pub fn size_in_variant(alloc: Global, held: Scalar) -> Result<usize, VortexError>
    requires { IsValid held }
    ensures { IfOk result (λ size. size ≡ capped (size_of (scalar_type held) (scalar_raw held))) }
{
    size_is_sum();
    let variant = Scalar::variant(alloc, held)?;
    let size = variant.approx_nbytes();
    drop(variant);
    Ok(size)
}

/// An integer reinterpreted in another type of its width, and back in its own: what it was.
pub fn reinterpreted_and_back(
    scalar: &Scalar,
    own: PType,
    ptype: PType,
) -> Result<Scalar, VortexError>
    requires valid { IsValid scalar.now }
    requires own { ptype_in (scalar_type scalar.now) ≡ Some own }
    ensures { IfOk result (IsMadeOf (scalar_type scalar.now) (scalar_raw scalar.now)) }
{
    scalars_reinterpret_back();
    let step = scalar.primitive_reinterpret_cast(ptype)?;
    let back = step.primitive_reinterpret_cast(own);
    drop(step);
    back
}

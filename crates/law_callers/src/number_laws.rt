//! What a caller derives about integer values, from the contracts of their calls and the laws alone.

ghost use Rattle.std.specs.Prelude.{◌↔◌, ◌≡◌, ◌≤ℤ◌, IsTrue, fold, ℤ};
ghost use Rattle.law_callers.specs.Words.{IsNumber, IsWrapped, byte_width_of, greatest_of, in_range, least_of};
ghost use Rattle.law_callers.specs.Words.{ptype_of, whole_of};

use std::cmp::Ordering;
use std::hash::{Hash, Hasher};
use vortex_dtype::PType;
use vortex_pvalue::PValue;
use vortex_pvalue::laws::{
    equality, hash_agrees, one_wrapped_number, order_agrees, range_is_interval, test_is_range,
};

/// Whether a type has the number, as a test that proofs can compute.
pub fn has_number(ptype: PType, number: i128) -> bool
    ensures { result ≡ in_range ptype number }
{
    test_is_range();
    PValue::from_whole(number, ptype).is_some()
}

/// A number from a type's least to its greatest value, as a value of the type: it always fits.
pub fn value_between(number: i128, ptype: PType) -> PValue
    requires least { least_of ptype ≤ℤ number }
    requires greatest { number ≤ℤ greatest_of ptype }
    ensures { IsNumber ptype number result }
{
    range_is_interval();
    match PValue::from_whole(number, ptype) {
        Some(value) => value,
        None => unreachable!(),
    }
}

/// An integer reinterpreted in another type of its width. The result is the only number of that type
/// that differs from it by a multiple of 2 to the power of the width in bits.
pub fn reinterpret(value: &PValue, ptype: PType) -> PValue
    requires { byte_width_of ptype ≡ byte_width_of (ptype_of value.now) }
    ensures wrapped { IsWrapped ptype (whole_of value.now) (whole_of result) }
    ensures only { (r : ℤ) → IsWrapped ptype (whole_of value.now) r → r ≡ whole_of result }
{
    one_wrapped_number();
    value.reinterpret_cast(ptype)
}

/// Whether two integers are equal: exactly then they are one number, whatever their types.
pub fn are_equal(first: &PValue, second: &PValue) -> bool
    ensures { IsTrue result ↔ (whole_of first.now ≡ whole_of second.now) }
{
    equality();
    *first == *second
}

/// Whether the order says `Equal` of two integers: exactly then they are equal.
pub fn are_tied(first: &PValue, second: &PValue) -> bool
    ensures { IsTrue result ↔ IsTrue (⟦<PValue as PartialEq>⟧.eq first.now second.now) }
{
    order_agrees();
    matches!(first.partial_cmp(second), Some(Ordering::Equal))
}

/// Feeds the second of two equal integers: what the first feeds.
pub fn feed_equal<H: Hasher>(_first: &PValue, second: &PValue, state: &mut H)
    requires { IsTrue (⟦<PValue as PartialEq>⟧.eq _first.now second.now) }
    ensures { state.new ≡ fold H.write state.old (⟦<PValue as Hash>⟧.hash_input _first.now) }
{
    hash_agrees();
    second.hash(state);
}

//! Checked arithmetic on views of integers.

ghost use Rattle.std.specs.Prelude.{◌≡◌, ◌≢◌, MatchOption, None, Some};
ghost use Rattle.vortex_leaves.specs.Words.{Add, IsNumber, PType, Sub, numeric_type, outcome, ptype_in, type_of};
ghost use Rattle.vortex_leaves.specs.Words.{whole_of, within};
ghost use Rattle.vortex_leaves.specs.ViewWords.{AreOfOneType, IsOutcome, number_view_ptype, number_view_type};
ghost use Rattle.vortex_leaves.specs.ViewWords.{view_arithmetic};

use super::PrimitiveScalar;
use std::ops::{Add, Sub};
use vortex_dtype::{DType, PType};
use vortex_pvalue::{NumericOperator, PValue};

/// What the operation gives, if 128 bits hold it; else no `PType` does.
fn compute(op: NumericOperator, left: i128, right: i128) -> Option<i128>
    ensures { MatchOption result
        ((ptype : PType) → within ptype (outcome op left right) ≡ None)
        (λ number. outcome op left right ≡ Some number) }
{
    match op {
        NumericOperator::Add => left.checked_add(right),
        NumericOperator::Sub => left.checked_sub(right),
        NumericOperator::Mul => left.checked_mul(right),
        NumericOperator::Div => left.checked_div(right),
    }
}

/// What the operation gives, as an integer of the `PType`; `None` if that is out of its range.
fn compute_in(op: NumericOperator, ptype: PType, left: i128, right: i128) -> Option<PValue>
    ensures { MatchOption result
        (within ptype (outcome op left right) ≡ None)
        (λ number. (within ptype (outcome op left right) ≡ Some (whole_of number))
        × IsNumber ptype (whole_of number) number) }
{
    let number = compute(op, left, right)?;
    PValue::from_whole(number, ptype)
}

#[tactic(auto, using(crate::proofs::NumberLaws::arithmetic))]
impl<'a> PrimitiveScalar<'a> {
    /// The sum, difference, product or quotient of two integers; null if one of them is null. A
    /// quotient is cut toward zero. The result has the left type if that is nullable, and else the
    /// right type.
    ///
    /// `None` exactly if the number is out of range for the `PType`, or an integer is divided by 0.
    /// The caller knows that the types are the same up to nullability. Ports
    /// `PrimitiveScalar::checked_binary_numeric`, which panics at other types.
    pub fn checked_binary_numeric(
        &self,
        other: &PrimitiveScalar<'a>,
        op: NumericOperator,
    ) -> Option<PrimitiveScalar<'a>>
        requires { AreOfOneType self.now other.now }
        ensures { MatchOption result
            (view_arithmetic op self.now other.now ≡ None)
            (IsOutcome op self.now other.now) }
    {
        let dtype = self.outcome_dtype(other);
        let ptype = self.ptype;
        let (Some(left), Some(right)) = (self.pvalue, other.pvalue) else {
            return Some(PrimitiveScalar {
                dtype,
                ptype,
                pvalue: None,
            });
        };
        let number = compute_in(op, ptype, left.whole(), right.whole())?;
        Some(PrimitiveScalar::of(dtype, ptype, number))
    }

    /// The type of the result: the left type if that is nullable, and else the right type.
    fn outcome_dtype(&self, other: &PrimitiveScalar<'a>) -> &'a DType
        requires { AreOfOneType self.now other.now }
        ensures typed { type_of result.now
            ≡ numeric_type (number_view_type self.now) (number_view_type other.now) }
        ensures ptype { ptype_in (type_of result.now) ≡ Some (number_view_ptype self.now) }
    {
        if self.dtype.is_nullable() {
            self.dtype
        } else {
            other.dtype
        }
    }

    /// The sum of two integers; null if one of them is null. The caller knows that the types are
    /// the same up to nullability.
    ///
    /// `None` exactly if the sum is out of range for the `PType`.
    pub fn checked_add(&self, other: &PrimitiveScalar<'a>) -> Option<PrimitiveScalar<'a>>
        requires { AreOfOneType self.now other.now }
        ensures { MatchOption result
            (view_arithmetic Add self.now other.now ≡ None)
            (IsOutcome Add self.now other.now) }
    {
        self.checked_binary_numeric(other, NumericOperator::Add)
    }

    /// The first of two integers less the second; null if one of them is null. The caller knows
    /// that the types are the same up to nullability.
    ///
    /// `None` exactly if the difference is out of range for the `PType`.
    pub fn checked_sub(&self, other: &PrimitiveScalar<'a>) -> Option<PrimitiveScalar<'a>>
        requires { AreOfOneType self.now other.now }
        ensures { MatchOption result
            (view_arithmetic Sub self.now other.now ≡ None)
            (IsOutcome Sub self.now other.now) }
    {
        self.checked_binary_numeric(other, NumericOperator::Sub)
    }
}

/// The sum, or null if one side is null. The caller knows that the types are the same up to
/// nullability and that the sum is in range for the `PType`.
///
/// Ports the `Add` of `PrimitiveScalar`, which panics elsewhere.
impl<'a> Add for PrimitiveScalar<'a> {
    type Output = PrimitiveScalar<'a>;

    ghost can_add = { λ a b. AreOfOneType a b × (view_arithmetic Add a b ≢ None) };

    ghost add_gives = { IsOutcome Add };

    fn add(self, rhs: PrimitiveScalar<'a>) -> PrimitiveScalar<'a> {
        self.checked_add(&rhs).unwrap()
    }
}

/// The difference, or null if one side is null. The caller knows that the types are the same up to
/// nullability and that the difference is in range for the `PType`.
///
/// Ports the `Sub` of `PrimitiveScalar`, which panics elsewhere.
impl<'a> Sub for PrimitiveScalar<'a> {
    type Output = PrimitiveScalar<'a>;

    ghost can_sub = { λ a b. AreOfOneType a b × (view_arithmetic Sub a b ≢ None) };

    ghost sub_gives = { IsOutcome Sub };

    fn sub(self, rhs: PrimitiveScalar<'a>) -> PrimitiveScalar<'a> {
        self.checked_sub(&rhs).unwrap()
    }
}

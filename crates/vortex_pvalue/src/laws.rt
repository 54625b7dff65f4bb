//! The laws of the numbers of each `PType`, and of equality, order and hash. A law does
//! nothing when it runs.

ghost use Rattle.vortex_pvalue.specs.Words.{AgreesWithHash, AgreesWithOrder, EqualsByNumber, InRange, IsEquivalence};
ghost use Rattle.vortex_pvalue.specs.Words.{RangeIsInterval, ReinterpretsBack, TestIsRange, WrappedExists};
ghost use Rattle.vortex_pvalue.specs.Words.{WrappedIsUnique, ptype_of, whole_of};

use crate::natives::NativePType;
use crate::pvalues::PValue;
use std::hash::Hash;

/// `in_range`, the test of a range, is true exactly if the `PType` has the number.
pub fn test_is_range()
    ensures { TestIsRange }
{}

/// An integer type has the numbers from its least to its greatest, and no others.
pub fn range_is_interval()
    ensures { RangeIsInterval }
{}

/// The number of a value lies in the range of its `PType`.
pub fn is_in_range(value: &PValue)
    ensures { InRange (ptype_of value.now) (whole_of value.now) }
{
    value.whole();
}

/// The number of a Rust integer lies in the range of its `PType`.
pub fn native_is_in_range<T: NativePType>(number: T)
    ensures { InRange T.PTYPE (T.value number) }
{
    number.into_pvalue();
}

/// Each `PType` has exactly one number that differs from a given one by a multiple of 2 to the
/// power of the `PType`'s bits.
pub fn one_wrapped_number()
    ensures exists { WrappedExists }
    ensures unique { WrappedIsUnique }
{}

/// A number that is reinterpreted in a `PType` of the same width, and then back, is itself again.
pub fn reinterprets_back()
    ensures { ReinterpretsBack }
{}

/// Values are equal exactly if their numbers are, whatever their `PType`s. Equality is an
/// equivalence.
pub fn equality()
    ensures by_number { EqualsByNumber ⟦<PValue as PartialEq>⟧.eq }
    ensures equivalence { IsEquivalence ⟦<PValue as PartialEq>⟧.eq }
{}

/// `partial_cmp` answers `Equal` exactly if the values are equal.
pub fn order_agrees()
    ensures { AgreesWithOrder ⟦<PValue as PartialEq>⟧.eq ⟦<PValue as PartialOrd>⟧.partial_cmp }
{}

/// Equal values feed every hasher alike.
pub fn hash_agrees()
    ensures { AgreesWithHash ⟦<PValue as PartialEq>⟧.eq ⟦<PValue as Hash>⟧.hash_input }
{}

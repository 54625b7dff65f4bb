//! Views of integers.

ghost use Rattle.std.specs.Prelude.{◌≡◌, ◌≢◌, ◌↔◌, Err, IfErr, IfOk, IsOk, IsSome, IsSomeAnd, MatchOption, MatchResult};
ghost use Rattle.std.specs.Prelude.{Some, IfSome, option_map};
ghost use Rattle.std.proofs.Props.{props};
ghost use Rattle.vortex_leaves.specs.Words.{GivesView, HoldsNumber, InRange, IsMadeOf, IsValid, RefusesNumber, Valid};
ghost use Rattle.vortex_leaves.specs.Words.{absent, content, in_ptype_of, integer_type, is_zero_of, lent_raw};
ghost use Rattle.vortex_leaves.specs.Words.{nullability_of, ptype_in, ptype_of, raw_integer, scalar_raw, scalar_type};
ghost use Rattle.vortex_leaves.specs.Words.{type_of, whole_of};

use std::alloc::Global;
use vortex_dtype::{DType, PType, VortexError};
use vortex_pvalue::laws::is_in_range;
use vortex_pvalue::{NativePType, PValue};
use vortex_value::{Scalar, ScalarValue};

mod arithmetic;
mod comparisons;

/// An integer of a scalar, or its null, and the scalar's type. The integer has the type's `PType`.
///
/// Ports `vortex_array::scalar::PrimitiveScalar`.
#[derive(Clone, Copy, Debug)]
pub struct PrimitiveScalar<'a> {
    dtype: &'a DType,
    ptype: PType,
    pvalue: Option<PValue>,
    ghost kind: { ∥ ptype_in (type_of dtype.now) ≡ Some ptype ∥₁ },
    ghost holds: { ∥ IfSome pvalue (λ number. ptype_of number ≡ ptype) ∥₁ },
}

impl<'a> PrimitiveScalar<'a> {
    ghost use Rattle.vortex_leaves.specs.ViewWords.{IsNumberViewOf, IsValidNumberView, number_view_ptype};
    ghost use Rattle.vortex_leaves.specs.ViewWords.{number_view_raw, number_view_type, view_number};

    /// The view of a type and a raw value. `None` is the null. An integer of another `PType` is
    /// taken as the same number of the type's `PType`.
    ///
    /// `WrongKind` if the type is not a type of integers; an extension over one is not. Else
    /// `Invalid` for a null of a type that takes none, and for a value that is no integer. Else
    /// `OutOfRange` if the number is not in the range of the type's `PType`.
    pub fn try_new(
        alloc: Global,
        dtype: &'a DType,
        value: Option<&ScalarValue>,
    ) -> Result<PrimitiveScalar<'a>, VortexError>
        ensures ok { IsOk result ↔ (IsSome (ptype_in (type_of dtype.now))
            × Valid (type_of dtype.now) (in_ptype_of (type_of dtype.now) (lent_raw value.entry))) }
        ensures made { IfOk result (IsNumberViewOf (type_of dtype.now)
            (in_ptype_of (type_of dtype.now) (lent_raw value.entry))) }
        ensures valid { IfOk result IsValidNumberView }
        ensures refused { IfErr result (RefusesNumber (type_of dtype.now) (lent_raw value.entry)) }
        ensures memory { result ≢ Err VortexError.OutOfMemory }
    {
        let DType::Primitive(ptype, _) = dtype else {
            return Err(VortexError::WrongKind);
        };
        let ptype = *ptype;
        if let Some(ScalarValue::Primitive(number)) = value {
            return match PValue::from_whole(number.whole(), ptype) {
                Some(number) => Ok(PrimitiveScalar::of(dtype, ptype, number)),
                None => Err(VortexError::OutOfRange),
            };
        }
        Scalar::validate(alloc, dtype, value)?;
        Ok(PrimitiveScalar {
            dtype,
            ptype,
            pvalue: None,
        })
    }

    /// The view of a number of the type's `PType`.
    fn of(dtype: &'a DType, ptype: PType, number: PValue) -> PrimitiveScalar<'a>
        requires ptype { ptype_in (type_of dtype.now) ≡ Some ptype }
        requires number_ptype { ptype_of number ≡ ptype }
        ensures { IsNumberViewOf (type_of dtype.now) (raw_integer ptype (whole_of number)) result }
    {
        PrimitiveScalar {
            dtype,
            ptype,
            pvalue: Some(number),
        }
    }

    /// The type.
    pub fn dtype(&self) -> &'a DType
        ensures { type_of result.now ≡ number_view_type self.now }
    {
        self.dtype
    }

    /// The `PType` of the type, also of a null.
    pub fn ptype(&self) -> PType
        ensures ptype { result ≡ number_view_ptype self.now }
        ensures typed { number_view_type self.now
            ≡ integer_type result (nullability_of (number_view_type self.now)) }
    {
        self.ptype
    }

    /// The integer, of the type's `PType`; `None` for a null.
    pub fn pvalue(&self) -> Option<PValue>
        ensures { MatchOption result
            (number_view_raw self.now ≡ absent)
            (λ number. (number_view_raw self.now
            ≡ raw_integer (number_view_ptype self.now) (whole_of number))
            × (ptype_of number ≡ number_view_ptype self.now)) }
    {
        self.pvalue
    }

    /// The number as the Rust integer of the type's `PType`, which the caller knows; `None` for a
    /// null.
    ///
    /// Ports `PrimitiveScalar::typed_value`, which panics at another `PType`.
    pub fn typed_value<T: NativePType>(&self) -> Option<T>
        requires { ptype_in (number_view_type self.now) ≡ Some T.PTYPE }
        ensures { option_map T.value result ≡ view_number self.now }
    {
        let number = self.pvalue?;
        is_in_range(&number);
        T::from_pvalue(&number)
    }

    /// The number as the Rust integer of the type's `PType`; `None` for a null.
    ///
    /// `WrongPType` exactly if the type has another `PType`, also for a null.
    pub fn try_typed_value<T: NativePType>(&self) -> Result<Option<T>, VortexError>
        ensures { MatchResult result
            (λ number. (number_view_ptype self.now ≡ T.PTYPE)
            × (option_map T.value number ≡ view_number self.now))
            (λ e. (e ≡ VortexError.WrongPType) × ¬ (number_view_ptype self.now ≡ T.PTYPE)) }
    {
        if self.ptype == T::PTYPE {
            Ok(self.typed_value::<T>())
        } else {
            Err(VortexError::WrongPType)
        }
    }

    /// Whether the number is zero; `None` for a null.
    pub fn is_zero(&self) -> Option<bool>
        ensures { result
            ≡ is_zero_of (number_view_type self.now) (content (number_view_raw self.now)) }
    {
        self.pvalue.map(|number| number.is_zero())
    }

    /// The number as any Rust integer type with the number in its range, as the caller knows;
    /// `None` for a null.
    ///
    /// Ports `PrimitiveScalar::as_`, which panics if the number is out of range.
    pub fn as_<T: NativePType>(&self) -> Option<T>
        requires { IfSome (view_number self.now) (InRange T.PTYPE) }
        ensures { option_map T.value result ≡ view_number self.now }
    {
        self.as_opt::<T>().unwrap()
    }

    /// The number as any Rust integer type: `None` if it is out of range, `Some(None)` for a null.
    pub fn as_opt<T: NativePType>(&self) -> Option<Option<T>>
        ensures { MatchOption result
            (IsSomeAnd (view_number self.now) (λ number. ¬ (InRange T.PTYPE number)))
            (λ number. option_map T.value number ≡ view_number self.now) }
    {
        match self.pvalue {
            Some(number) => Some(Some(T::from_pvalue(&number)?)),
            None => Some(None),
        }
    }
}

/// The view of a scalar's type and number. It is valid if the scalar is. An integer of another
/// `PType` is taken as the same number of the type's `PType`.
///
/// `WrongKind` exactly if the type is not a type of integers, the raw value is no integer, or the
/// number is not in the range of the type's `PType`.
impl<'a> TryFrom<&'a Scalar> for PrimitiveScalar<'a> {
    ghost use Rattle.vortex_leaves.specs.ViewWords.{IsNumberViewOf};

    type Error = VortexError;

    ghost try_from_gives = { λ scalar. GivesView
        (IsNumberViewOf (scalar_type scalar.now)
        (in_ptype_of (scalar_type scalar.now) (scalar_raw scalar.now)))
        (HoldsNumber (scalar_type scalar.now) (scalar_raw scalar.now)) };

    fn try_from(scalar: &'a Scalar) -> Result<PrimitiveScalar<'a>, VortexError> {
        let dtype = scalar.dtype();
        let DType::Primitive(ptype, _) = dtype else {
            return Err(VortexError::WrongKind);
        };
        let ptype = *ptype;
        match scalar.value() {
            Some(ScalarValue::Primitive(number)) => {
                match PValue::from_whole(number.whole(), ptype) {
                    Some(number) => Ok(PrimitiveScalar::of(dtype, ptype, number)),
                    None => Err(VortexError::WrongKind),
                }
            }
            Some(_) => Err(VortexError::WrongKind),
            None => Ok(PrimitiveScalar {
                dtype,
                ptype,
                pvalue: None,
            }),
        }
    }
}

/// The scalar of the same type and number. It is valid if the view is.
impl From<PrimitiveScalar<'_>> for Scalar {
    ghost use Rattle.vortex_leaves.specs.ViewWords.{number_view_raw, number_view_type};

    ghost from_gives = { λ x y. IsMadeOf (number_view_type x) (number_view_raw x) y };

    fn from(view: PrimitiveScalar<'_>) -> Scalar {
        let nullability = view.dtype.nullability();
        Scalar {
            dtype: DType::Primitive(view.ptype(), nullability),
            value: view.pvalue.map(ScalarValue::Primitive),
        }
    }
}

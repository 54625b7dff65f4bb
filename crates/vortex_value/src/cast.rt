//! Casts of scalars to another type. A cast is made if some row of the table allows it (`Row`, in
//! specs/Casts) and the target type has a value of the content. `cast_value` goes down the value:
//!
//! | Row | Allows | Function |
//! |---|---|---|
//! | `same_type` | a type that is the same up to nullability | those below; values without parts `cast_leaf` |
//! | `a_null` | a null, but from an unsorted to a sorted map | `cast_value`, `takes_null` |
//! | `into_extension` | no null, to an extension whose storage takes it | `cast_present`, `unwrap_extension` |
//! | `integers` | a number, to an integer type | `cast_number` |
//! | `lists` | each element, between lists, of a fixed size or not | `cast_elements`, `cast_sized` |
//! | `maps` | each key and value, but from an unsorted to a sorted map | `cast_map`, `cast_entries` |
//! | `structs` | each field by its place, between equally many | `cast_fields` |
//! | `unions` | the child, between the variants with its id, if both unions have the same ids in order | `cast_union` |
//! | `from_extension` | a value, to the storage type up to nullability | `unwrap_extension` |
//!
//! Parts of lists, maps and structs are appended to their list by functions of their own. Struct
//! fields go by `push_part`, the others by `push_to_storage`, which is told once what the target
//! stores.
#![tactic(auto, using(crate::proofs::CastCode::shown))]

ghost use Rattle.std.specs.Prelude.{◌≡◌, MatchResult, None, Some};
ghost use Rattle.vortex_value.specs.Words.{AnswersCast, IsMadeOf, IsValid, IsValidRef, as_nullable, integer_type};
ghost use Rattle.vortex_value.specs.Words.{number_to, ref_raw, ref_type, scalar_raw, scalar_type, type_of, whole_of};

use crate::refs::ScalarRef;
use crate::scalars::{Scalar, with_type};
use crate::values::ScalarValue;
use std::alloc::Global;
use vortex_dtype::{DType, Nullability, PType, VortexError};
use vortex_pvalue::PValue;

mod refusals;
mod rules;
mod steps;
mod values;

/// The number as a scalar of this type of integers, if that has it. Without it a cast of a number
/// would compare two types and copy one.
#[inline(always)]
fn cast_integer(
    number: &PValue,
    ptype: PType,
    nullability: Nullability,
) -> Result<Scalar, VortexError>
    ensures { MatchResult result
        (λ made. (scalar_type made ≡ integer_type ptype nullability)
        × (number_to (whole_of number.now) (integer_type ptype nullability) ≡ Some (scalar_raw made)))
        (λ e. (e ≡ VortexError.CannotCast)
        × (number_to (whole_of number.now) (integer_type ptype nullability) ≡ None)) }
{
    match PValue::from_whole(number.whole(), ptype) {
        Some(number) => Ok(Scalar {
            dtype: DType::Primitive(ptype, nullability),
            value: Some(ScalarValue::Primitive(number)),
        }),
        None => Err(VortexError::CannotCast),
    }
}

impl Scalar {
    /// The one scalar of the target type with this scalar's content.
    ///
    /// `CannotCast` only if the table of casts does not allow the cast or the target type has no
    /// value of the content. `OutOfMemory` never for a target of nulls, truth values or integers.
    /// From an extension it comes only if the cast is possible, and so for a value that is no list,
    /// map or struct and no union of one. There is no other refusal. Ports `Scalar::cast`.
    #[inline(always)]
    pub fn cast(&self, alloc: Global, target: &DType) -> Result<Scalar, VortexError>
        requires { IsValid self.now }
        ensures { AnswersCast (scalar_type self.now) (type_of target.now) (scalar_raw self.now) result }
    {
        ScalarRef::of(self).cast(alloc, target)
    }

    /// The raw value as it is, of the type made nullable. Takes no memory.
    ///
    /// Ports `Scalar::into_nullable`.
    #[tactic(auto, using(crate::proofs::CastLaws::nullable_valid))]
    pub fn into_nullable(self) -> Scalar
        ensures made { IsMadeOf (as_nullable (scalar_type self)) (scalar_raw self) result }
        ensures valid { IsValid self → IsValid result }
    {
        let (dtype, value) = self.into_parts();
        Scalar {
            dtype: dtype.as_nullable(),
            value,
        }
    }
}

impl ScalarRef<'_> {
    /// The one scalar of the target type with this one's content. It answers and refuses as
    /// `Scalar::cast` does. Of this port alone: a view casts what it lends by it, without a copy.
    #[inline(always)]
    pub fn cast(&self, alloc: Global, target: &DType) -> Result<Scalar, VortexError>
        requires { IsValidRef self.now }
        ensures { AnswersCast (ref_type self.now) (type_of target.now) (ref_raw self.now) result }
    {
        match (self.dtype(), self.value(), target) {
            (DType::Primitive(_, _), Some(value), DType::Primitive(ptype, nullability)) => {
                cast_integer(value.as_primitive(), *ptype, *nullability)
            }
            _ => self.cast_any(alloc, target),
        }
    }

    /// The cast of any scalar.
    #[inline(never)]
    fn cast_any(&self, alloc: Global, target: &DType) -> Result<Scalar, VortexError>
        requires { IsValidRef self.now }
        ensures { AnswersCast (ref_type self.now) (type_of target.now) (ref_raw self.now) result }
    {
        let source = self.dtype();
        if source == target {
            return self.to_scalar(alloc);
        }
        let value = values::cast_value(alloc, self.value(), source, target)?;
        with_type(target.clone(alloc), value)
    }
}

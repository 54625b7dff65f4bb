//! Borrowed scalars: a type and an optional raw value, both lent by what holds them.

ghost use Rattle.std.specs.Prelude.{◌≡◌, ◌≢◌, ◌↔◌, ◌&&◌, Err, IfErr, IfOk, IsOk};
ghost use Rattle.std.proofs.lemmas.Cmp.{on_equiv};
ghost use Rattle.vortex_value.specs.Words.{IsFlat, IsMadeOf, IsRefOf, IsValid, IsValidRef, Refuses, Valid, and-Alike};
ghost use Rattle.vortex_value.specs.Words.{breaches, equal, is_absent, lent_raw, on_Alike, partial_equiv_from_equiv};
ghost use Rattle.vortex_value.specs.Words.{ref_content, ref_order, ref_raw, ref_type, same_type, scalar_raw};
ghost use Rattle.vortex_value.specs.Words.{scalar_type, type_of, typed, typed_feed};
ghost use Rattle.vortex_value.specs.Lemmas.EqualityLaws.{equal-equiv};
ghost use Rattle.vortex_value.specs.Lemmas.HashLaws.{content_feed-Alike, type_feed-Alike};

use crate::copies::copy_optional;
use crate::equality::{equal_optional, same_types};
use crate::hashing::feed;
use crate::ordering::compare;
use crate::scalars::{Scalar, with_type};
use crate::values::ScalarValue;
use std::alloc::Global;
use std::cmp::Ordering;
use std::hash::{Hash, Hasher};
use vortex_dtype::{DType, VortexError};

/// A type and an optional raw value, both borrowed; `None` is the null. Of this port alone:
/// upstream clones a part of a scalar, and this port lends it as one of these.
#[derive(Clone, Copy, Debug)]
pub struct ScalarRef<'a> {
    dtype: &'a DType,
    value: Option<&'a ScalarValue>,
}

impl<'a> ScalarRef<'a> {
    /// The type and the value of the scalar, borrowed.
    pub fn of(scalar: &'a Scalar) -> ScalarRef<'a>
        ensures made { IsRefOf (scalar_type scalar.now) (scalar_raw scalar.now) result }
        ensures valid { IsValid scalar.now → IsValidRef result }
    {
        ScalarRef {
            dtype: &scalar.dtype,
            value: scalar.value.as_ref(),
        }
    }

    /// The type and the raw value, borrowed, or `None` for a null. The value need not be valid for
    /// the type. Of this port alone: views lend their parts by it.
    pub fn from_parts(dtype: &'a DType, value: Option<&'a ScalarValue>) -> ScalarRef<'a>
        ensures made { IsRefOf (type_of dtype.now) (lent_raw value.entry) result }
        ensures valid { Valid (type_of dtype.now) (lent_raw value.entry)
            → IsValidRef result }
    {
        ScalarRef { dtype, value }
    }

    /// The type and the raw value, borrowed as a scalar; `None` is the null.
    ///
    /// `Invalid` if the raw value is not valid for the type: it has the first breach in reading
    /// order and the path to it. `OutOfMemory` comes in its place if there is no memory for the
    /// steps of the path. A valid value takes no memory, nor does any value of a type whose values
    /// take none.
    pub fn try_new(
        alloc: Global,
        dtype: &'a DType,
        value: Option<&'a ScalarValue>,
    ) -> Result<ScalarRef<'a>, VortexError>
        ensures ok { IsOk result ↔ Valid (type_of dtype.now) (lent_raw value.entry) }
        ensures made { IfOk result
            (IsRefOf (type_of dtype.now) (lent_raw value.entry)) }
        ensures valid { IfOk result IsValidRef }
        ensures refused { IfErr result
            (λ e. Refuses e (breaches (type_of dtype.now) (lent_raw value.entry))) }
        ensures flat { IsFlat (type_of dtype.now) → result ≢ Err VortexError.OutOfMemory }
    {
        Scalar::validate(alloc, dtype, value)?;
        Ok(ScalarRef { dtype, value })
    }

    /// The type.
    pub fn dtype(&self) -> &'a DType
        ensures { type_of result.now ≡ ref_type self.now }
    {
        self.dtype
    }

    /// The raw value; `None` for a null.
    pub fn value(&self) -> Option<&'a ScalarValue>
        ensures { lent_raw result ≡ ref_raw self.now }
    {
        self.value
    }

    /// Whether it is null. A union's inner null and a variant's null are not the null.
    pub fn is_null(&self) -> bool
        ensures { result ≡ is_absent (ref_raw self.now) }
    {
        self.value.is_none()
    }

    /// The order of the contents if the types are the same up to nullability, else `None`. A null
    /// is below all others, and two variants have no order.
    pub fn partial_cmp(&self, other: &ScalarRef<'_>) -> Option<Ordering>
        ensures { result ≡ ref_order self.now other.now }
    {
        if same_types(self.dtype, other.dtype) {
            compare(self.value, other.value)
        } else {
            None
        }
    }

    /// A copy with memory of its own: the exact type and the exact raw value.
    ///
    /// `OutOfMemory` is its only refusal. A valid scalar of a type whose values take no memory is
    /// never refused.
    pub fn to_scalar(&self, alloc: Global) -> Result<Scalar, VortexError>
        ensures copied { IfOk result (IsMadeOf (ref_type self.now) (ref_raw self.now)) }
        ensures refused { IfErr result (λ e. e ≡ VortexError.OutOfMemory) }
        ensures flat { IsFlat (ref_type self.now) → IsValidRef self.now → IsOk result }
    {
        let value = copy_optional(alloc, self.value)?;
        with_type(self.dtype.clone(alloc), value)
    }
}

impl PartialEq for ScalarRef<'_> {
    ghost eq = { λ a b.
        same_type (ref_type a) (ref_type b) && equal (ref_content a) (ref_content b) };

    ghost laws = { partial_equiv_from_equiv
        (on_equiv (λ x. typed (ref_type x) (ref_content x)) equal-equiv) };

    fn eq(&self, other: &ScalarRef<'_>) -> bool {
        same_types(self.dtype, other.dtype) && equal_optional(self.value, other.value)
    }
}

impl Eq for ScalarRef<'_> {
    ghost laws = { on_equiv (λ x. typed (ref_type x) (ref_content x)) equal-equiv };
}

impl Hash for ScalarRef<'_> {
    ghost hash_input = { λ x. typed_feed (ref_type x) (ref_content x) };

    ghost respects_eq = { (and-Alike (on_Alike ref_type type_feed-Alike)
        (on_Alike ref_content content_feed-Alike)).fed };

    fn hash<H: Hasher>(&self, state: &mut H) {
        self.dtype.hash_ignore_nullability(state);
        feed(self.value, state);
    }
}

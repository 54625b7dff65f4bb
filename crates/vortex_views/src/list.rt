//! Views of lists, of fixed size or not.

ghost use Rattle.std.specs.Prelude.{◌≡◌, ◌==◌, ◌<◌, Some, true, length, map, option_map, slice_get, is_some, All};
ghost use Rattle.std.specs.Prelude.{IfErr, IfOk, IfSome, IsTrue, MatchResult};
ghost use Rattle.vortex_views.specs.Words.{AnswersRefView, CopiesPartOf, GivesView, IsRefOf, IsValid, IsValidRef};
ghost use Rattle.vortex_views.specs.Words.{OutOfMemory, element_in, elements_of, is_absent, is_null_or_tuple, lent_raw};
ghost use Rattle.vortex_views.specs.Words.{parts_of, raw_of, ref_order, ref_part, ref_type, scalar_part, scalar_raw};
ghost use Rattle.vortex_views.specs.Words.{scalar_type, type_of, unless_null};

use crate::parts::{copy_part_if_any, is_null_or_tuple, items_of, part_at};
use std::alloc::Global;
use std::cmp::Ordering;
use vortex_dtype::{DType, VortexError};
use vortex_value::{Scalar, ScalarRef, ScalarValue};

mod comparisons;

/// A view of a scalar of a list type, of fixed size or not: a null, or elements of one type.
#[derive(Clone, Copy, Debug)]
pub struct ListScalar<'a> {
    scalar: ScalarRef<'a>,
    ghost kind: { is_some (element_in (ref_type scalar)) ≡ true },
}

impl<'a> ListScalar<'a> {
    ghost use Rattle.vortex_views.specs.ViewWords.{list_ref, list_view_raw, list_view_type, viewed_list};

    /// The view of a type and a raw value as a list. `None` is the null.
    ///
    /// `WrongKind` exactly if the type is no list; an extension over one is not. Else `Invalid` if
    /// the raw value is not valid for the type, with the first breach in reading order and the path
    /// to it. `OutOfMemory` comes in its place if the path has steps and there is no memory for
    /// them. A valid value takes no memory. Ports `ListScalar::try_new`, which panics at another
    /// variant of raw value and tests no part.
    pub fn try_new(
        alloc: Global,
        dtype: &'a DType,
        value: Option<&'a ScalarValue>,
    ) -> Result<ListScalar<'a>, VortexError>
        ensures { AnswersRefView list_ref (λ t. is_some (element_in t))
            (type_of dtype.now) (lent_raw value.entry) result }
    {
        if dtype.as_any_size_list_element_opt().is_none() {
            return Err(VortexError::WrongKind);
        }
        let scalar = ScalarRef::try_new(alloc, dtype, value)?;
        Ok(ListScalar { scalar })
    }

    /// The type.
    pub fn dtype(&self) -> &'a DType
        ensures { type_of result.now ≡ list_view_type self.now }
    {
        self.scalar.dtype()
    }

    /// How many elements there are; a null has none.
    pub fn len(&self) -> usize
        ensures { result ≡ length (parts_of (list_view_raw self.now)) }
    {
        self.items().len()
    }

    /// Whether there are no elements; a null has none.
    pub fn is_empty(&self) -> bool
        ensures { result ≡ (length (parts_of (list_view_raw self.now)) == 0) }
    {
        self.len() == 0
    }

    /// Whether it is null.
    pub fn is_null(&self) -> bool
        ensures { result ≡ is_absent (list_view_raw self.now) }
    {
        self.scalar.is_null()
    }

    /// The type of the elements.
    pub fn element_dtype(&self) -> &'a DType
        ensures { Some (type_of result.now) ≡ element_in (list_view_type self.now) }
    {
        self.scalar.dtype().as_any_size_list_element_opt().unwrap()
    }

    /// The element at this place, borrowed; `None` exactly past the end. A null has no elements.
    /// Upstream has no such call.
    pub fn element_ref(&self, index: usize) -> Option<ScalarRef<'a>>
        ensures lent { option_map ref_part result
            ≡ slice_get (elements_of (viewed_list self.now)) index }
        ensures valid { IsValidRef (list_ref self.now) → IfSome result IsValidRef }
    {
        part_at(self.element_dtype(), self.items(), index)
    }

    /// A copy of the element at this place; `None` exactly past the end. A null has no elements.
    ///
    /// `OutOfMemory` if there is none for the copy. A valid list of a type whose values take no
    /// memory never gives it.
    pub fn element(&self, alloc: Global, index: usize) -> Result<Option<Scalar>, VortexError>
        ensures { CopiesPartOf
            (viewed_list self.now) (λ part. slice_get (elements_of part) index) result }
    {
        copy_part_if_any(alloc, self.element_ref(index))
    }

    /// Copies of all elements, in order; `None` exactly for a null.
    ///
    /// `OutOfMemory` if there is none for the copies, and never for a null or an empty list.
    pub fn elements(&self, alloc: Global) -> Result<Option<Vec<Scalar>>, VortexError>
        ensures copies { IfOk result (λ copies. option_map (λ xs. map scalar_part xs.items) copies
            ≡ unless_null (list_view_raw self.now) (elements_of (viewed_list self.now))) }
        ensures valid { IsValidRef (list_ref self.now)
            → IfOk result (λ copies. IfSome copies (λ xs. All IsValid xs.items)) }
        ensures refused { IfErr result (λ e. (e ≡ OutOfMemory)
            × (0 < length (parts_of (list_view_raw self.now)))) }
    {
        if self.is_null() {
            return Ok(None);
        }
        let copies = copy_elements(alloc, self.element_dtype(), self.items())?;
        Ok(Some(copies))
    }

    /// The order of the contents, if the types are the same up to nullability, and else `None`. A
    /// list and a list of fixed size have no order. A null is below all others.
    ///
    /// Ports the `PartialOrd` of `ListScalar`, which compares element types alone.
    pub fn partial_cmp(&self, other: &ListScalar<'_>) -> Option<Ordering>
        ensures { result ≡ ref_order (list_ref self.now) (list_ref other.now) }
    {
        self.scalar.partial_cmp(&other.scalar)
    }

    /// The raw values of the elements.
    fn items(&self) -> &'a [Option<ScalarValue>]
        ensures { map raw_of result.now ≡ parts_of (list_view_raw self.now) }
    {
        items_of(self.scalar.value())
    }
}

/// Copies of these values, each of this type, or `OutOfMemory`, but never if there are no values.
fn copy_elements(
    alloc: Global,
    dtype: &DType,
    items: &[Option<ScalarValue>],
) -> Result<Vec<Scalar>, VortexError>
    ensures { MatchResult result
        (λ copies. map scalar_part copies.items
        ≡ map (λ v. (type_of dtype.now, v)) (map raw_of items.now))
        (λ e. (e ≡ OutOfMemory) × (0 < length items.now)) }
{
    let mut copies = Vec::with_capacity(alloc, items.len())?;
    for item in items {
        let copy = ScalarRef::from_parts(dtype, item.as_ref()).to_scalar(alloc)?;
        copies.push(copy)?;
    }
    Ok(copies)
}

/// The view of a scalar's type and raw value, even if the value is not valid for the type. It is
/// valid if the scalar is.
///
/// `WrongKind` exactly if the type is no list, or the raw value is neither a null nor a tuple.
/// Ports `TryFrom<&Scalar> for ListScalar`.
impl<'a> TryFrom<&'a Scalar> for ListScalar<'a> {
    type Error = VortexError;

    ghost use Rattle.vortex_views.specs.ViewWords.{list_ref};

    ghost try_from_gives = { λ scalar. GivesView
        (λ view. IsRefOf (scalar_type scalar.now) (scalar_raw scalar.now) (list_ref view))
        (IsTrue (is_some (element_in (scalar_type scalar.now)))
        × IsTrue (is_null_or_tuple (scalar_raw scalar.now))) };

    fn try_from(scalar: &'a Scalar) -> Result<ListScalar<'a>, VortexError> {
        if scalar.dtype().as_any_size_list_element_opt().is_none() {
            return Err(VortexError::WrongKind);
        }
        if !is_null_or_tuple(scalar.value()) {
            return Err(VortexError::WrongKind);
        }
        Ok(ListScalar {
            scalar: ScalarRef::of(scalar),
        })
    }
}

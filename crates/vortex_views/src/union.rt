//! Views of unions.

ghost use Rattle.std.specs.Prelude.{◌≡◌, true, option_map, IfNone, IfOk, IfSome, MatchOption};
ghost use Rattle.vortex_views.specs.Words.{AnswersRefView, CopiesPartOf, IsRefOf, IsValidRef, absent, is_absent};
ghost use Rattle.vortex_views.specs.Words.{is_of_union, is_union_type, lent_raw, nullability_of, ref_part, ref_raw};
ghost use Rattle.vortex_views.specs.Words.{ref_type, type_of, union_tree, union_type_of, variants_of};

use crate::parts::copy_part_if_any;
use std::alloc::Global;
use vortex_dtype::{DType, FieldName, Nullability, UnionVariants, VortexError};
use vortex_value::{Scalar, ScalarRef, ScalarValue, UnionValue};

mod comparisons;

/// A view of a scalar of a union type: a null, or a value of one of the variants.
///
/// A union with a null child (an inner null) is itself not null: it has an id, and its child is a
/// null scalar.
#[derive(Clone, Copy, Debug)]
pub struct UnionScalar<'a> {
    scalar: ScalarRef<'a>,
    ghost kind: { is_of_union (ref_type scalar) (ref_raw scalar) ≡ true },
}

#[tactic(auto, using(crate::proofs::UnionSteps::steps))]
impl<'a> UnionScalar<'a> {
    ghost use Rattle.vortex_views.specs.ViewWords.{IsNamedUnion, child_of, chosen_name, chosen_place, chosen_type};
    ghost use Rattle.vortex_views.specs.ViewWords.{id_of, union_ref, union_view_raw, union_view_type, viewed_union};

    /// The view of a type and a raw value as a union. `None` is the null.
    ///
    /// `WrongKind` exactly if the type is no union; an extension over one is not. Else `Invalid` if
    /// the raw value is not valid for the type, with the first breach in reading order and the path
    /// to it. `OutOfMemory` comes in its place if the path has steps and there is no memory for
    /// them. A valid value takes no memory.
    pub fn try_new(
        alloc: Global,
        dtype: &'a DType,
        value: Option<&'a ScalarValue>,
    ) -> Result<UnionScalar<'a>, VortexError>
        ensures { AnswersRefView union_ref is_union_type
            (type_of dtype.now) (lent_raw value.entry) result }
    {
        if !dtype.is_union() {
            return Err(VortexError::WrongKind);
        }
        let scalar = ScalarRef::try_new(alloc, dtype, value)?;
        Ok(UnionScalar { scalar })
    }

    /// A borrowed scalar, viewed as a union. The caller knows that it is one.
    ///
    /// Ports `UnionScalar::new_unchecked`.
    pub(crate) fn of(scalar: ScalarRef<'a>) -> UnionScalar<'a>
        requires { is_of_union (ref_type scalar) (ref_raw scalar) ≡ true }
        ensures { IsRefOf (ref_type scalar.entry) (ref_raw scalar.entry) (union_ref result) }
    {
        UnionScalar { scalar }
    }

    /// The type.
    pub fn dtype(&self) -> &'a DType
        ensures { type_of result.now ≡ union_view_type self.now }
    {
        self.scalar.dtype()
    }

    /// The variants of the type, also for a null.
    pub fn variants(&self) -> &'a UnionVariants
        ensures { union_type_of (variants_of result.now) (nullability_of (union_view_type self.now))
            ≡ union_view_type self.now }
    {
        match self.scalar.dtype() {
            DType::Union(variants, _) => variants,
            _ => unreachable!(),
        }
    }

    /// Whether the union itself takes a null, whatever its variants take.
    pub fn nullability(&self) -> Nullability
        ensures { result ≡ nullability_of (union_view_type self.now) }
    {
        self.scalar.dtype().nullability()
    }

    /// Whether the union itself is null; an inner null is not.
    pub fn is_null(&self) -> bool
        ensures { result ≡ is_absent (union_view_raw self.now) }
    {
        self.scalar.is_null()
    }

    /// The id of the chosen variant; `None` exactly for a null.
    pub fn type_id(&self) -> Option<u8>
        ensures id { result ≡ id_of (union_view_raw self.now) }
        ensures present { IfNone result (union_view_raw self.now ≡ absent) }
    {
        self.union_value().map(|union| union.type_id())
    }

    /// The place of the chosen variant among the variants; `None` exactly for a null.
    pub fn child_index(&self) -> Option<usize>
        requires { IsValidRef (union_ref self.now) }
        ensures place { result ≡ chosen_place (union_view_type self.now) (union_view_raw self.now) }
        ensures present { IfNone result (union_view_raw self.now ≡ absent) }
    {
        let id = self.type_id()?;
        self.variants().tag_to_child_index(id)
    }

    /// The name of the chosen variant; `None` exactly for a null. A type with fewer names than ids,
    /// which no maker of types gives, has no name for some variants.
    pub fn variant_name(&self) -> Option<&'a FieldName>
        requires { IsValidRef (union_ref self.now) }
        ensures name { option_map (λ name. name.now) result
            ≡ chosen_name (union_view_type self.now) (union_view_raw self.now) }
        ensures present { IsNamedUnion (union_view_type self.now)
            → IfNone result (union_view_raw self.now ≡ absent) }
    {
        let index = self.child_index()?;
        self.variants().names().get(index)
    }

    /// The type of the chosen variant; `None` exactly for a null.
    ///
    /// Ports `UnionScalar::variant_dtype`, which copies it.
    pub fn variant_dtype(&self) -> Option<&'a DType>
        requires { IsValidRef (union_ref self.now) }
        ensures tree { option_map (λ dtype. type_of dtype.now) result
            ≡ chosen_type (union_view_type self.now) (union_view_raw self.now) }
        ensures present { IfNone result (union_view_raw self.now ≡ absent) }
    {
        let index = self.child_index()?;
        self.variants().variant_by_index(index)
    }

    /// A copy of the child, with the type of the chosen variant; `None` exactly for a null. The
    /// copy of an inner null is a null scalar.
    ///
    /// `OutOfMemory` if there is none for the copy. A null, and a child of a type whose values take
    /// no memory, never give it.
    pub fn child(&self, alloc: Global) -> Result<Option<Scalar>, VortexError>
        requires { IsValidRef (union_ref self.now) }
        ensures copies { CopiesPartOf
            (viewed_union self.now) (λ part. child_of part.0 part.1) result }
        ensures present { IfOk result (λ child. IfNone child (union_view_raw self.now ≡ absent)) }
    {
        copy_part_if_any(alloc, self.child_ref())
    }

    /// The child, borrowed; `None` exactly for a null.
    fn child_ref(&self) -> Option<ScalarRef<'a>>
        requires { IsValidRef (union_ref self.now) }
        ensures lent { option_map ref_part result
            ≡ child_of (union_view_type self.now) (union_view_raw self.now) }
        ensures present { IfNone result (union_view_raw self.now ≡ absent) }
        ensures valid { IfSome result IsValidRef }
    {
        let union = self.union_value()?;
        let dtype = self.variant_dtype()?;
        Some(ScalarRef::from_parts(dtype, union.child_value()))
    }

    /// The id and the child; `None` exactly for a null.
    fn union_value(&self) -> Option<&'a UnionValue>
        ensures { MatchOption result (union_view_raw self.now ≡ absent)
            (λ union. union_view_raw self.now ≡ union_tree union.now) }
    {
        match self.scalar.value() {
            Some(ScalarValue::Union(union)) => Some(union),
            Some(_) => unreachable!(),
            None => None,
        }
    }
}

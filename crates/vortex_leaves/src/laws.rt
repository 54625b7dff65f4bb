//! The laws of views without parts, which hold whatever calls gave a view.
//!
//! These functions do nothing when they run. The contract of each is a law over the definitions in
//! `specs/`, and its proof is the law's proof.

ghost use Rattle.vortex_leaves.specs.Words.{AgreesWithHash, EqualsByTypeAndContent, IsEquivalence, OrderAgrees};
ghost use Rattle.vortex_leaves.specs.ViewWords.{bool_view_content, bool_view_type, bytes_view_content, bytes_view_type};
ghost use Rattle.vortex_leaves.specs.ViewWords.{number_view_content, number_view_type, text_view_content};
ghost use Rattle.vortex_leaves.specs.ViewWords.{text_view_type};

use crate::binary::BinaryScalar;
use crate::bool::BoolScalar;
use crate::primitive::PrimitiveScalar;
use crate::utf8::Utf8Scalar;
use std::hash::Hash;

/// Views are equal exactly if their types are the same up to nullability and their contents equal.
pub fn equality()
    ensures truths { EqualsByTypeAndContent
        bool_view_type bool_view_content ⟦<BoolScalar<'static> as PartialEq>⟧.eq }
    ensures strings { EqualsByTypeAndContent
        text_view_type text_view_content ⟦<Utf8Scalar<'static> as PartialEq>⟧.eq }
    ensures bytes { EqualsByTypeAndContent
        bytes_view_type bytes_view_content ⟦<BinaryScalar<'static> as PartialEq>⟧.eq }
    ensures integers { EqualsByTypeAndContent
        number_view_type number_view_content ⟦<PrimitiveScalar<'static> as PartialEq>⟧.eq }
{}

/// Equality is an equivalence: every view equals itself, equality goes both ways, and it goes on
/// from one view to the next.
pub fn equality_is_an_equivalence()
    ensures truths { IsEquivalence ⟦<BoolScalar<'static> as PartialEq>⟧.eq }
    ensures strings { IsEquivalence ⟦<Utf8Scalar<'static> as PartialEq>⟧.eq }
    ensures bytes { IsEquivalence ⟦<BinaryScalar<'static> as PartialEq>⟧.eq }
    ensures integers { IsEquivalence ⟦<PrimitiveScalar<'static> as PartialEq>⟧.eq }
{}

/// Equal views feed every hasher the same.
pub fn hash_agrees()
    ensures truths { AgreesWithHash
        ⟦<BoolScalar<'static> as PartialEq>⟧.eq ⟦<BoolScalar<'static> as Hash>⟧.hash_input }
    ensures strings { AgreesWithHash
        ⟦<Utf8Scalar<'static> as PartialEq>⟧.eq ⟦<Utf8Scalar<'static> as Hash>⟧.hash_input }
    ensures bytes { AgreesWithHash
        ⟦<BinaryScalar<'static> as PartialEq>⟧.eq ⟦<BinaryScalar<'static> as Hash>⟧.hash_input }
    ensures integers { AgreesWithHash ⟦<PrimitiveScalar<'static> as PartialEq>⟧.eq
        ⟦<PrimitiveScalar<'static> as Hash>⟧.hash_input }
{}

/// `partial_cmp` says `Equal` exactly if the two views are equal.
pub fn order_agrees_with_equality()
    ensures truths { OrderAgrees ⟦<BoolScalar<'static> as PartialOrd>⟧.partial_cmp
        ⟦<BoolScalar<'static> as PartialEq>⟧.eq }
    ensures strings { OrderAgrees ⟦<Utf8Scalar<'static> as PartialOrd>⟧.partial_cmp
        ⟦<Utf8Scalar<'static> as PartialEq>⟧.eq }
    ensures bytes { OrderAgrees ⟦<BinaryScalar<'static> as PartialOrd>⟧.partial_cmp
        ⟦<BinaryScalar<'static> as PartialEq>⟧.eq }
    ensures integers { OrderAgrees ⟦<PrimitiveScalar<'static> as PartialOrd>⟧.partial_cmp
        ⟦<PrimitiveScalar<'static> as PartialEq>⟧.eq }
{}

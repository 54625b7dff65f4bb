//! The laws of raw values, contents and casts: what holds of every value, whatever calls gave it.
//!
//! These functions do nothing when they run. The contract of each is a law over the definitions in
//! `specs/`, and its proof is the law's proof.

ghost use Rattle.vortex_value.specs.Words.{AgreesWhere, AgreesWithHash, DefaultExists, EqualFeedSame};
ghost use Rattle.vortex_value.specs.Words.{EqualityAgreesWithoutTyped, EqualityIsAnEquivalence, EqualityIsDecided};
ghost use Rattle.vortex_value.specs.Words.{EqualsByContent, EqualsByTypeAndContent, HasNoVariant, IsEquivalence};
ghost use Rattle.vortex_value.specs.Words.{IsReversed, IsTransitive, IsValid, IsValidRef, OneValue};
ghost use Rattle.vortex_value.specs.Words.{ScalarsReinterpretBack, SizeIsSum, ValidExactlyWithoutBreach};
ghost use Rattle.vortex_value.specs.Words.{ValidityIsDecided, ZeroIsZero, content, order, ref_content, ref_order};
ghost use Rattle.vortex_value.specs.Words.{ref_type, scalar_content, scalar_order, scalar_type, union_tree, value_tree};
ghost use Rattle.vortex_value.specs.Laws.CastLaws.{CallsAreChains, CastsKeepScalars, ChainsAgree, ChainsKeepValues};
ghost use Rattle.vortex_value.specs.Laws.CastLaws.{IntoNullableAndBack, NoCallFurther, NoWayRound, NullableCastsBack};
ghost use Rattle.vortex_value.specs.Laws.CastLaws.{ThereAndBack};
ghost use Rattle.vortex_value.specs.Laws.HasContent.{HasByCases};
ghost use Rattle.vortex_value.specs.Laws.ZeroCases.{DefaultByCases, ZeroByCases};

use crate::refs::ScalarRef;
use crate::scalars::Scalar;
use crate::unions::UnionValue;
use crate::values::ScalarValue;
use std::hash::Hash;

/// A raw value is valid for a type exactly if the list of its breaches is empty. So a check that
/// reports the first breach passes all valid values and no others.
pub fn valid_exactly_without_breach()
    ensures { ValidExactlyWithoutBreach }
{}

/// The test of validity in the definition of `Display` passes exactly if the value is valid.
pub fn validity_is_decided()
    ensures { ValidityIsDecided }
{}

/// Types that are the same up to nullability have at most one valid raw value of each content, so a
/// scalar's type and content say which raw value it has.
pub fn one_value()
    ensures { OneValue }
{}

/// Raw values, and those of unions, are equal exactly if their contents are. Scalars, owned and
/// borrowed, are equal exactly if their types are the same up to nullability and their contents
/// equal.
pub fn equality()
    ensures values { EqualsByContent
        (λ v. content (value_tree v)) ⟦<ScalarValue as PartialEq>⟧.eq }
    ensures unions { EqualsByContent (λ u. content (union_tree u)) ⟦<UnionValue as PartialEq>⟧.eq }
    ensures scalars { EqualsByTypeAndContent
        scalar_type scalar_content ⟦<Scalar as PartialEq>⟧.eq }
    ensures borrowed { EqualsByTypeAndContent
        ref_type ref_content ⟦<ScalarRef<'static> as PartialEq>⟧.eq }
{}

/// Equality is an equivalence, of contents and of what has them: everything equals itself, equality
/// goes both ways, and it goes on from one to the next.
pub fn equality_is_an_equivalence()
    ensures contents { EqualityIsAnEquivalence }
    ensures values { IsEquivalence ⟦<ScalarValue as PartialEq>⟧.eq }
    ensures unions { IsEquivalence ⟦<UnionValue as PartialEq>⟧.eq }
    ensures scalars { IsEquivalence ⟦<Scalar as PartialEq>⟧.eq }
    ensures borrowed { IsEquivalence ⟦<ScalarRef<'static> as PartialEq>⟧.eq }
{}

/// If a content has no variant's child at any depth, only the content itself equals it.
pub fn equality_agrees_without_typed()
    ensures { EqualityAgreesWithoutTyped }
{}

/// The test of equality in the contract of `==` passes exactly if the contents are equal.
pub fn equality_is_decided()
    ensures { EqualityIsDecided }
{}

/// The order is reversed when its two sides are swapped.
pub fn order_is_reversed()
    ensures contents { IsReversed order }
    ensures scalars { IsReversed scalar_order }
    ensures borrowed { IsReversed ref_order }
{}

/// If the first is not above the second, and the second not above the third, then the first is not
/// above the third. It is below the third if one of the two steps was below.
pub fn order_is_transitive()
    ensures contents { IsTransitive order }
    ensures scalars { IsTransitive scalar_order }
    ensures borrowed { IsTransitive ref_order }
{}

/// If the type of a valid scalar has no variant at any depth, `partial_cmp` with another scalar
/// says Equal exactly if the two are equal.
pub fn order_agrees_with_equality()
    ensures scalars { AgreesWhere (λ x. HasNoVariant (scalar_type x) × IsValid x)
        scalar_order ⟦<Scalar as PartialEq>⟧.eq }
    ensures borrowed { AgreesWhere (λ x. HasNoVariant (ref_type x) × IsValidRef x)
        ref_order ⟦<ScalarRef<'static> as PartialEq>⟧.eq }
{}

/// Equal raw values, and equal scalars, feed a hasher alike.
pub fn hash_agrees()
    ensures values { AgreesWithHash
        ⟦<ScalarValue as PartialEq>⟧.eq ⟦<ScalarValue as Hash>⟧.hash_input }
    ensures unions { AgreesWithHash
        ⟦<UnionValue as PartialEq>⟧.eq ⟦<UnionValue as Hash>⟧.hash_input }
    ensures scalars { AgreesWithHash ⟦<Scalar as PartialEq>⟧.eq ⟦<Scalar as Hash>⟧.hash_input }
    ensures borrowed { AgreesWithHash
        ⟦<ScalarRef<'static> as PartialEq>⟧.eq ⟦<ScalarRef<'static> as Hash>⟧.hash_input }
{}

/// Equal contents feed a hasher alike, and so do equal contents with types that are the same up to
/// nullability, which is not fed.
pub fn equal_contents_feed_the_same()
    ensures { EqualFeedSame }
{}

/// The zero of a type is the content of a valid value, not null, and zero. If the type has no
/// variant at any depth, no other valid value is zero.
pub fn zero_is_zero()
    ensures { ZeroIsZero }
{}

/// The zero of each type, case by case. `Null` and a union without variants have no zero. The zero of
/// a type with parts is made of the zeros of its parts.
pub fn zero_by_cases()
    ensures { ZeroByCases }
{}

/// The default of each type, case by case: the null if the type takes it, and else a value made of
/// the defaults of its parts.
pub fn default_by_cases()
    ensures { DefaultByCases }
{}

/// A type has a default if each union in it has variants. A default is the content of a valid
/// value, and null exactly if the type takes a null.
pub fn default_exists()
    ensures { DefaultExists }
{}

/// The size of a list, map or struct is the sum of its parts' sizes. A union's is one more than its
/// child's. A variant and an extension have the size of what they hold.
pub fn size_is_sum()
    ensures { SizeIsSum }
{}

/// What the contract of a cast says of a value, owned or lent, and of the scalar that it gave, is a
/// cast. It is a chain of one, and further casts go on from there. Back from a chain, its first cast
/// is possible. A call then answers the value that the cast gives, unless there is no memory.
pub fn calls_are_chains()
    ensures { CallsAreChains }
{}

/// Two chains of casts from one value give one value if their last types are the same up to
/// nullability, whatever types they go through.
pub fn chains_agree()
    ensures { ChainsAgree }
{}

/// A value that was cast, cast back to the type that it had, is the value that it was.
pub fn there_and_back()
    ensures { ThereAndBack }
{}

/// Take two values whose types are the same up to nullability, and cast both by chains to one type.
/// The results are equal exactly if the values were, and are ordered alike.
pub fn equality_and_order_are_kept()
    ensures values { ChainsKeepValues }
    ensures scalars { CastsKeepScalars ⟦<Scalar as PartialEq>⟧.eq scalar_order }
{}

/// Between two types without extensions one cast gives what a chain of casts gives, if the two
/// types have no map or the content has no null. No way round leads further. So the direct cast
/// answers what the chain gave, unless there is no memory.
pub fn no_way_round()
    ensures values { NoWayRound }
    ensures calls { NoCallFurther }
{}

/// After `into_nullable`, a `cast` to the type before gives the scalar back, unless there is no
/// memory.
pub fn into_nullable_and_back()
    ensures values { IntoNullableAndBack }
    ensures calls { NullableCastsBack }
{}

/// Some valid raw value of a type has a content exactly if the cases over types say so. Nobody has
/// to look for a value to know whether there is one.
pub fn has_by_cases()
    ensures { HasByCases }
{}

/// A valid value of an integer type, reinterpreted as another integer type of its width and back,
/// is what it was.
pub fn scalars_reinterpret_back()
    ensures { ScalarsReinterpretBack }
{
    vortex_pvalue::laws::reinterprets_back();
}

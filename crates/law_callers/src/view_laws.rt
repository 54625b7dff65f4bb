//! What a caller derives about views, from the contracts of `partial_cmp` and `==` and the laws of
//! views alone. Two that are ordered `Equal` feed hashers the same, equality is an equivalence, and
//! a map gives each key.

ghost use Rattle.std.specs.Prelude.{◌≡◌, IsTrue, length};
ghost use Rattle.law_callers.specs.Words.{EqualContents, HasNoVariant, IsValidRef, Same, list_ref, list_view_type};
ghost use Rattle.law_callers.specs.Words.{map_view_raw, parts_of, ref_content, ref_feed, text_view_content};
ghost use Rattle.law_callers.specs.Words.{text_view_type, typed_feed};

use std::alloc::Global;
use std::cmp::Ordering;
use vortex_leaves::Utf8Scalar;
use vortex_views::laws::iterators_give_each_part;
use vortex_views::{ListScalar, MapScalar};

/// Whether the order says `Equal` of two strings.
pub fn are_tied_texts(first: &Utf8Scalar<'_>, second: &Utf8Scalar<'_>) -> bool
    ensures types { IsTrue result → Same (text_view_type first.now) (text_view_type second.now) }
    ensures contents { IsTrue result
        → EqualContents (text_view_content first.now) (text_view_content second.now) }
    ensures fed { IsTrue result
        → typed_feed (text_view_type first.now) (text_view_content first.now)
        ≡ typed_feed (text_view_type second.now) (text_view_content second.now) }
{
    vortex_leaves::laws::equality();
    vortex_leaves::laws::hash_agrees();
    vortex_leaves::laws::order_agrees_with_equality();
    matches!(first.partial_cmp(second), Some(Ordering::Equal))
}

/// Whether the second string equals the first and the third: then these two are equal.
pub fn are_equal_texts_through(
    first: &Utf8Scalar<'_>,
    second: &Utf8Scalar<'_>,
    third: &Utf8Scalar<'_>,
) -> bool
    ensures { IsTrue result
        → IsTrue (⟦<Utf8Scalar<'static> as PartialEq>⟧.eq first.now third.now) }
{
    vortex_leaves::laws::equality_is_an_equivalence();
    *first == *second && *second == *third
}

/// Whether the second list equals the first and the third: then these two are equal.
pub fn are_equal_lists_through(
    first: &ListScalar<'_>,
    second: &ListScalar<'_>,
    third: &ListScalar<'_>,
) -> bool
    ensures { IsTrue result
        → IsTrue (⟦<ListScalar<'static> as PartialEq>⟧.eq first.now third.now) }
{
    vortex_views::laws::equality_is_an_equivalence();
    *first == *second && *second == *third
}

/// Whether the order says `Equal` of two lists.
pub fn are_tied_lists(first: &ListScalar<'_>, second: &ListScalar<'_>) -> bool
    requires valid { IsValidRef (list_ref first.now) }
    requires typed { HasNoVariant (list_view_type first.now) }
    ensures types { IsTrue result
        → Same (list_view_type first.now) (list_view_type second.now) }
    ensures contents { IsTrue result
        → EqualContents (ref_content (list_ref first.now)) (ref_content (list_ref second.now)) }
    ensures fed { IsTrue result → ref_feed (list_ref first.now) ≡ ref_feed (list_ref second.now) }
{
    vortex_views::laws::equality();
    vortex_views::laws::hash_agrees();
    vortex_views::laws::order_agrees_with_equality();
    matches!(first.partial_cmp(second), Some(Ordering::Equal))
}

/// How many keys a map gives: as many as it has entries.
pub fn keys_given(alloc: Global, map: MapScalar<'_>) -> usize
    ensures { result ≡ length (parts_of (map_view_raw map.entry)) }
{
    iterators_give_each_part();
    map.keys(alloc).count()
}

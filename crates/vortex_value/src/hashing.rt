//! What raw values and scalars feed a hasher: their contents, and types without their nullability.
#![tactic(auto, using(crate::proofs::HashSteps::shown))]

ghost use Rattle.std.specs.Prelude.{◌≡◌, fold};
ghost use Rattle.vortex_value.specs.Words.{and-Alike, content, content_feed, contents, counted_feed, lent_raw};
ghost use Rattle.vortex_value.specs.Words.{on_Alike, scalar_content, scalar_type, typed_feed, union_tree, value_tree};
ghost use Rattle.vortex_value.specs.Words.{value_trees};
ghost use Rattle.vortex_value.specs.Lemmas.HashLaws.{content_feed-Alike, type_feed-Alike};

use crate::scalars::Scalar;
use crate::unions::UnionValue;
use crate::values::ScalarValue;
use std::hash::{Hash, Hasher};

/// Feeds an optional raw value.
#[cycle(feed)]
pub(crate) fn feed<H: Hasher>(value: Option<&ScalarValue>, state: &mut H)
    ensures { state.new ≡ fold H.write state.old
        (content_feed (content (lent_raw value.entry))) }
{
    match value {
        Some(value) => feed_value(value, state),
        None => state.write_u8(0),
    }
}

/// Feeds the number of the variant, and then what it holds.
#[cycle(feed)]
fn feed_value<H: Hasher>(value: &ScalarValue, state: &mut H)
    ensures { state.new ≡ fold H.write state.old (content_feed (content (value_tree value.now))) }
{
    match value {
        ScalarValue::Bool(truth) => {
            state.write_u8(1);
            truth.hash(state);
        }
        ScalarValue::Primitive(number) => {
            state.write_u8(2);
            number.hash(state);
        }
        ScalarValue::Utf8(text) => {
            state.write_u8(3);
            text.hash(state);
        }
        ScalarValue::Binary(bytes) => {
            state.write_u8(4);
            bytes.hash(state);
        }
        ScalarValue::Tuple(items) => {
            state.write_u8(5);
            feed_tuple(items, state);
        }
        ScalarValue::Union(union) => feed_union(union, state),
        ScalarValue::Variant(scalar) => {
            state.write_u8(7);
            feed_scalar(scalar, state);
        }
    }
}

/// Feeds how many parts there are, and each.
#[cycle(feed)]
fn feed_tuple<H: Hasher>(items: &[Option<ScalarValue>], state: &mut H)
    ensures { state.new ≡ fold H.write state.old (counted_feed (contents (value_trees items.now))) }
{
    state.write_usize(items.len());
    for item in items {
        feed(item.as_ref(), state);
    }
}

/// Feeds the number of unions, the id and the child.
#[cycle(feed)]
fn feed_union<H: Hasher>(union: &UnionValue, state: &mut H)
    ensures { state.new ≡ fold H.write state.old (content_feed (content (union_tree union.now))) }
{
    state.write_u8(6);
    state.write_u8(union.type_id);
    feed(union.child.as_deref(), state);
}

/// Feeds the type without nullability, and the value.
#[cycle(feed)]
fn feed_scalar<H: Hasher>(scalar: &Scalar, state: &mut H)
    ensures { state.new ≡ fold H.write state.old
        (typed_feed (scalar_type scalar.now) (scalar_content scalar.now)) }
{
    scalar.dtype.hash_ignore_nullability(state);
    feed(scalar.value.as_ref(), state);
}

impl Hash for ScalarValue {
    ghost hash_input = { λ v. content_feed (content (value_tree v)) };

    ghost respects_eq = { (on_Alike (λ v. content (value_tree v)) content_feed-Alike).fed };

    fn hash<H: Hasher>(&self, state: &mut H) {
        feed_value(self, state);
    }
}

impl Hash for UnionValue {
    ghost hash_input = { λ u. content_feed (content (union_tree u)) };

    ghost respects_eq = { (on_Alike (λ u. content (union_tree u)) content_feed-Alike).fed };

    fn hash<H: Hasher>(&self, state: &mut H) {
        feed_union(self, state);
    }
}

impl Hash for Scalar {
    ghost hash_input = { λ s. typed_feed (scalar_type s) (scalar_content s) };

    ghost respects_eq = { (and-Alike (on_Alike scalar_type type_feed-Alike)
        (on_Alike scalar_content content_feed-Alike)).fed };

    fn hash<H: Hasher>(&self, state: &mut H) {
        feed_scalar(self, state);
    }
}

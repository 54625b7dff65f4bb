//! The steps of a cast that go no further down than the value.

ghost use Rattle.std.specs.Prelude.{◌≡◌, ◌++◌, [], ◌∷◌, IfErr, MatchResult, option_map};
ghost use Rattle.vortex_value.specs.Words.{Appends, Impossible, Makes, NoMemory, OutOfMemoryOnlyIfMakeable};
ghost use Rattle.vortex_value.specs.Words.{FlatNeverOutOfMemory, leaf_to, unwrapped, number_to, ptype_of, raw_integer};
ghost use Rattle.vortex_value.specs.Words.{raw_of, raw_text, raw_union, type_of, union_tree, value_tree, variant_tree};
ghost use Rattle.vortex_value.specs.Words.{whole_of};

use super::refusals::Refusal;
use super::rules::{accepts, keeps_its_kind, may_unwrap};
use crate::copies;
use crate::scalars::Scalar;
use crate::unions::UnionValue;
use crate::values::ScalarValue;
use std::alloc::{AllocError, Global};
use vortex_dtype::{BufferString, DType};
use vortex_pvalue::PValue;

/// A copy of an extension's value, if it may be cast to the target as it is and the target accepts
/// it.
#[inline(never)]
pub(super) fn unwrap_extension(
    alloc: Global,
    value: &ScalarValue,
    source: &DType,
    stored: &DType,
    target: &DType,
) -> Result<ScalarValue, Refusal>
    ensures made { Makes value_tree (unwrapped (value_tree value.now)
        (type_of source.now) (type_of stored.now) (type_of target.now)) result }
    ensures flat { FlatNeverOutOfMemory (type_of target.now) result }
    ensures whole { OutOfMemoryOnlyIfMakeable (unwrapped (value_tree value.now)
        (type_of source.now) (type_of stored.now) (type_of target.now)) result }
{
    if may_unwrap(source, stored, target) && accepts(target, value) {
        Ok(copies::copy_value(alloc, value)?)
    } else {
        Err(Refusal::Impossible)
    }
}

/// A copy of a value without parts, if the cast keeps it as it is.
#[inline(never)]
pub(super) fn cast_leaf(
    alloc: Global,
    value: &ScalarValue,
    source: &DType,
    target: &DType,
) -> Result<ScalarValue, Refusal>
    ensures made { Makes value_tree (leaf_to (value_tree value.now)
        (type_of source.now) (type_of target.now)) result }
    ensures flat { FlatNeverOutOfMemory (type_of target.now) result }
    ensures whole { OutOfMemoryOnlyIfMakeable (leaf_to (value_tree value.now)
        (type_of source.now) (type_of target.now)) result }
{
    if keeps_its_kind(value, source, target) {
        Ok(copies::copy_value(alloc, value)?)
    } else {
        Err(Refusal::Impossible)
    }
}

/// The value of a union with this id and child.
pub(super) fn union_of(type_id: u8, child: Option<Box<ScalarValue>>) -> UnionValue
    ensures { union_tree result ≡ raw_union type_id (raw_of (option_map (λ b. b.value) child)) }
{
    UnionValue { type_id, child }
}

/// The number as the target's `PType`, if the target is an integer type that has it. A number of
/// just that `PType` is not looked at.
#[inline(always)]
fn number_in(number: &PValue, target: &DType) -> Option<PValue>
    ensures { option_map (λ n. raw_integer (ptype_of n) (whole_of n)) result
        ≡ number_to (whole_of number.now) (type_of target.now) }
{
    match target {
        DType::Primitive(ptype, _) if number.ptype() == *ptype => Some(*number),
        DType::Primitive(ptype, _) => PValue::from_whole(number.whole(), *ptype),
        _ => None,
    }
}

/// The number as a raw value of the target.
pub(super) fn cast_number(number: &PValue, target: &DType) -> Result<ScalarValue, Refusal>
    ensures made { Makes value_tree (number_to (whole_of number.now) (type_of target.now)) result }
    ensures flat { IfErr result (λ e. e ≡ Impossible) }
{
    let number = number_in(number, target).ok_or(Refusal::Impossible)?;
    Ok(ScalarValue::Primitive(number))
}

/// Appends a part, or drops it if there is no memory. Mostly there is capacity for it.
#[inline(always)]
pub(super) fn push(
    part: Option<ScalarValue>,
    made: &mut Vec<Option<ScalarValue>>,
) -> Result<(), Refusal>
    ensures { MatchResult result
        (λ _. made.new.items ≡ made.old.items ++ part ∷ [])
        (λ e. e ≡ NoMemory) }
{
    if made.len() < made.capacity() {
        made.push_reserved(part);
        Ok(())
    } else {
        push_more(part, made)
    }
}

/// Appends a part to a list that may have no capacity for it.
#[inline(never)]
fn push_more(part: Option<ScalarValue>, made: &mut Vec<Option<ScalarValue>>) -> Result<(), Refusal>
    ensures { MatchResult result
        (λ _. made.new.items ≡ made.old.items ++ part ∷ [])
        (λ e. e ≡ NoMemory) }
{
    Ok(made.push(part).map_err(AllocError::from)?)
}

/// Appends the number as a raw value of the target.
#[inline(always)]
pub(super) fn push_number(
    number: &PValue,
    target: &DType,
    made: &mut Vec<Option<ScalarValue>>,
) -> Result<(), Refusal>
    ensures { Appends made.old.items made.new.items
        (number_to (whole_of number.now) (type_of target.now)) result }
{
    let number = number_in(number, target).ok_or(Refusal::Impossible)?;
    push(Some(ScalarValue::Primitive(number)), made)
}

/// Appends a copy of a value without parts, if the cast keeps it as it is.
#[inline(always)]
#[tactic(auto, using(crate::proofs::ValueSteps::shown))]
pub(super) fn push_leaf(
    alloc: Global,
    value: &ScalarValue,
    source: &DType,
    target: &DType,
    made: &mut Vec<Option<ScalarValue>>,
) -> Result<(), Refusal>
    ensures { Appends made.old.items made.new.items (leaf_to (value_tree value.now)
        (type_of source.now) (type_of target.now)) result }
{
    if !keeps_its_kind(value, source, target) {
        return Err(Refusal::Impossible);
    }
    match value {
        ScalarValue::Utf8(text) => push_text(text, made),
        ScalarValue::Variant(scalar) => push_variant(alloc, scalar, made),
        _ => push_copy(alloc, value, made),
    }
}

/// Appends a copy of the value.
#[inline(never)]
fn push_copy(
    alloc: Global,
    value: &ScalarValue,
    made: &mut Vec<Option<ScalarValue>>,
) -> Result<(), Refusal>
    ensures { Appends made.old.items made.new.items (Some (value_tree value.now)) result }
{
    push(Some(copies::copy_value(alloc, value)?), made)
}

/// Appends a copy of a string.
#[inline(never)]
fn push_text(text: &BufferString, made: &mut Vec<Option<ScalarValue>>) -> Result<(), Refusal>
    ensures { Appends made.old.items made.new.items (Some (raw_text text.now)) result }
{
    let text = copies::copy_text(text)?;
    push(Some(ScalarValue::Utf8(text)), made)
}

/// Appends a copy of a variant's scalar.
#[inline(never)]
#[tactic(auto, using(crate::proofs::ValueSteps::shown))]
fn push_variant(
    alloc: Global,
    scalar: &Scalar,
    made: &mut Vec<Option<ScalarValue>>,
) -> Result<(), Refusal>
    ensures { Appends made.old.items made.new.items (Some (variant_tree scalar.now)) result }
{
    let scalar = copies::copy_boxed(alloc, scalar)?;
    push(Some(ScalarValue::Variant(scalar)), made)
}

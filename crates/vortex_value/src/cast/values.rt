//! The recursion of a cast, down the value. Each variant of a value has a function of its own,
//! which pays for its own locals alone. Parts of tuples are appended to their list by the `push_*`
//! functions, which ask in the same order as the `cast_*` functions.
//!
//! One family would be slower, by `bench/values`. If each part were made by `cast_value` and then
//! appended, a cast of integers would take 3.0 times the instructions. Nested lists would take 1.9
//! times as many, structs 1.7, maps and unions 1.4. If each value were written to a place that the
//! caller lends, it would be 1.8, 1.3, 1.3, 1.2 and 1.06 times.

ghost use Rattle.std.specs.Prelude.{option_map};
ghost use Rattle.vortex_value.specs.Words.{Appends, IsBareTarget, Makes, MakesParts, LeafOutOfMemoryOnlyIfMakeable};
ghost use Rattle.vortex_value.specs.Words.{FlatNeverOutOfMemory, WholeOutOfMemoryOnlyIfMakeable, bare_to, cast_to};
ghost use Rattle.vortex_value.specs.Words.{count, dtype_trees, each_to, entries_to, entry_to, fields_to, lent_raw};
ghost use Rattle.vortex_value.specs.Words.{map_of, map_to, option_copied, parts_to, raw_of, raw_tuple, sized, type_of};
ghost use Rattle.vortex_value.specs.Words.{union_tree, value_tree, value_trees};

use super::refusals::Refusal;
use super::rules::{are_as_many, bare_target, takes_null, types_with, would_claim_sorted};
use super::steps::{
    cast_leaf, cast_number, push, push_leaf, push_number, union_of, unwrap_extension,
};
use crate::copies;
use crate::storage::storage_of;
use crate::unions::UnionValue;
use crate::values::ScalarValue;
use std::alloc::Global;
use vortex_dtype::{DType, MapDType};

/// The raw value that the target type has for the content of a value of the source type.
#[cycle(cast)]
pub(super) fn cast_value(
    alloc: Global,
    value: Option<&ScalarValue>,
    source: &DType,
    target: &DType,
) -> Result<Option<ScalarValue>, Refusal>
    ensures made { Makes raw_of (cast_to (lent_raw value.entry)
        (type_of source.now) (type_of target.now)) result }
    ensures flat { FlatNeverOutOfMemory (type_of target.now) result }
    ensures whole { WholeOutOfMemoryOnlyIfMakeable (lent_raw value.entry)
        (type_of source.now) (type_of target.now) result }
{
    match value {
        Some(value) => Ok(Some(cast_present(alloc, value, source, target)?)),
        None if takes_null(source, target) => Ok(None),
        None => Err(Refusal::Impossible),
    }
}

/// The raw value that the target type has for a value that is present.
#[cycle(cast)]
fn cast_present(
    alloc: Global,
    value: &ScalarValue,
    source: &DType,
    target: &DType,
) -> Result<ScalarValue, Refusal>
    ensures made { Makes value_tree (cast_to (value_tree value.now)
        (type_of source.now) (type_of target.now)) result }
    ensures flat { FlatNeverOutOfMemory (type_of target.now) result }
    ensures whole { WholeOutOfMemoryOnlyIfMakeable (value_tree value.now)
        (type_of source.now) (type_of target.now) result }
{
    match source {
        DType::Extension(extension) => {
            unwrap_extension(alloc, value, source, extension.storage_dtype(), target)
        }
        _ => cast_by_kind(alloc, value, source, storage_of(target)),
    }
}

/// What a value becomes between types that are no extensions.
#[cycle(cast)]
fn cast_by_kind(
    alloc: Global,
    value: &ScalarValue,
    source: &DType,
    target: &DType,
) -> Result<ScalarValue, Refusal>
    ensures made { Makes value_tree (bare_to (value_tree value.now)
        (type_of source.now) (type_of target.now)) result }
    ensures flat { FlatNeverOutOfMemory (type_of target.now) result }
    ensures whole { LeafOutOfMemoryOnlyIfMakeable (value_tree value.now)
        (type_of source.now) (type_of target.now) result }
{
    match value {
        ScalarValue::Primitive(number) => cast_number(number, target),
        ScalarValue::Tuple(parts) => {
            Ok(ScalarValue::Tuple(cast_parts(alloc, parts, source, target)?))
        }
        ScalarValue::Union(union) => {
            Ok(ScalarValue::Union(cast_union(alloc, union, source, target)?))
        }
        _ => cast_leaf(alloc, value, source, target),
    }
}

/// Appends what a value becomes.
#[cycle(cast)]
#[inline(always)]
fn push_part(
    alloc: Global,
    value: Option<&ScalarValue>,
    source: &DType,
    target: &DType,
    made: &mut Vec<Option<ScalarValue>>,
) -> Result<(), Refusal>
    ensures { Appends made.old.items made.new.items (cast_to (lent_raw value.entry)
        (type_of source.now) (type_of target.now)) result }
{
    push_to_storage(
        alloc,
        value,
        source,
        target,
        bare_target(source, target),
        made,
    )
}

/// Appends what a value becomes. The caller has asked once for many values what the target stores.
#[cycle(cast)]
#[inline(always)]
fn push_to_storage(
    alloc: Global,
    value: Option<&ScalarValue>,
    source: &DType,
    target: &DType,
    stored: Option<&DType>,
    made: &mut Vec<Option<ScalarValue>>,
) -> Result<(), Refusal>
    requires { IsBareTarget (type_of source.now) (type_of target.now) (option_copied stored) }
    ensures { Appends made.old.items made.new.items (cast_to (lent_raw value.entry)
        (type_of source.now) (type_of target.now)) result }
{
    match (value, stored) {
        (Some(value), Some(stored)) => push_by_kind(alloc, value, source, stored, made),
        _ => push_null_or_extension(alloc, value, source, target, made),
    }
}

/// Appends what a null becomes, or a value of an extension.
#[cycle(cast)]
#[inline(never)]
fn push_null_or_extension(
    alloc: Global,
    value: Option<&ScalarValue>,
    source: &DType,
    target: &DType,
    made: &mut Vec<Option<ScalarValue>>,
) -> Result<(), Refusal>
    ensures { Appends made.old.items made.new.items (cast_to (lent_raw value.entry)
        (type_of source.now) (type_of target.now)) result }
{
    let value = cast_value(alloc, value, source, target)?;
    push(value, made)
}

/// Appends what a value becomes between types that are no extensions.
#[cycle(cast)]
#[inline(always)]
fn push_by_kind(
    alloc: Global,
    value: &ScalarValue,
    source: &DType,
    target: &DType,
    made: &mut Vec<Option<ScalarValue>>,
) -> Result<(), Refusal>
    ensures { Appends made.old.items made.new.items (bare_to (value_tree value.now)
        (type_of source.now) (type_of target.now)) result }
{
    match value {
        ScalarValue::Primitive(number) => push_number(number, target, made),
        ScalarValue::Tuple(parts) => push_tuple(alloc, parts, source, target, made),
        ScalarValue::Union(union) => push_union(alloc, union, source, target, made),
        _ => push_leaf(alloc, value, source, target, made),
    }
}

/// Appends what a tuple of these parts becomes.
#[cycle(cast)]
#[inline(never)]
fn push_tuple(
    alloc: Global,
    parts: &[Option<ScalarValue>],
    source: &DType,
    target: &DType,
    made: &mut Vec<Option<ScalarValue>>,
) -> Result<(), Refusal>
    ensures { Appends made.old.items made.new.items (bare_to (raw_tuple (value_trees parts.now))
        (type_of source.now) (type_of target.now)) result }
{
    let parts = cast_parts(alloc, parts, source, target)?;
    push(Some(ScalarValue::Tuple(parts)), made)
}

/// Appends what a union's value becomes.
#[cycle(cast)]
#[inline(never)]
fn push_union(
    alloc: Global,
    union: &UnionValue,
    source: &DType,
    target: &DType,
    made: &mut Vec<Option<ScalarValue>>,
) -> Result<(), Refusal>
    ensures { Appends made.old.items made.new.items (bare_to (union_tree union.now)
        (type_of source.now) (type_of target.now)) result }
{
    let union = cast_union(alloc, union, source, target)?;
    push(Some(ScalarValue::Union(union)), made)
}

/// The child of a union, cast between the two variants with its id.
#[cycle(cast)]
#[inline(always)]
fn cast_union(
    alloc: Global,
    union: &UnionValue,
    source: &DType,
    target: &DType,
) -> Result<UnionValue, Refusal>
    ensures made { Makes union_tree (bare_to (union_tree union.now)
        (type_of source.now) (type_of target.now)) result }
    ensures flat { FlatNeverOutOfMemory (type_of target.now) result }
    ensures whole { LeafOutOfMemoryOnlyIfMakeable (union_tree union.now)
        (type_of source.now) (type_of target.now) result }
{
    match types_with(source, target, union.type_id) {
        Some((from, to)) => {
            let child = cast_child(alloc, union.child.as_deref(), from, to)?;
            Ok(union_of(union.type_id, child))
        }
        None => Err(Refusal::Impossible),
    }
}

/// The child of a union in a box of its own, cast between two types.
#[cycle(cast)]
#[inline(always)]
fn cast_child(
    alloc: Global,
    child: Option<&ScalarValue>,
    source: &DType,
    target: &DType,
) -> Result<Option<Box<ScalarValue>>, Refusal>
    ensures made { Makes (λ c. raw_of (option_map (λ b. b.value) c)) (cast_to (lent_raw child.entry)
        (type_of source.now) (type_of target.now)) result }
    ensures whole { WholeOutOfMemoryOnlyIfMakeable (lent_raw child.entry)
        (type_of source.now) (type_of target.now) result }
{
    match child {
        Some(child) => {
            let child = cast_present(alloc, child, source, target)?;
            Ok(Some(copies::new_box(alloc, child)?))
        }
        None if takes_null(source, target) => Ok(None),
        None => Err(Refusal::Impossible),
    }
}

/// The parts of a tuple, cast as elements, entries or fields.
#[cycle(cast)]
fn cast_parts(
    alloc: Global,
    parts: &[Option<ScalarValue>],
    source: &DType,
    target: &DType,
) -> Result<Vec<Option<ScalarValue>>, Refusal>
    ensures made { MakesParts (parts_to (value_trees parts.now)
        (type_of source.now) (type_of target.now)) result }
    ensures flat { FlatNeverOutOfMemory (type_of target.now) result }
{
    match (source, target) {
        (DType::List(from, _) | DType::FixedSizeList(from, _, _), DType::List(to, _)) => {
            cast_elements(alloc, parts, from, to)
        }
        (
            DType::List(from, _) | DType::FixedSizeList(from, _, _),
            DType::FixedSizeList(to, size, _),
        ) => cast_sized(alloc, parts, *size, from, to),
        (DType::Map(from, _), DType::Map(to, _)) => cast_map(alloc, parts, from, to),
        (DType::Struct(from, _), DType::Struct(to, _)) => {
            cast_fields(alloc, parts, from.dtypes(), to.dtypes())
        }
        _ => Err(Refusal::Impossible),
    }
}

/// The elements, cast if their number is the size.
#[cycle(cast)]
fn cast_sized(
    alloc: Global,
    elements: &[Option<ScalarValue>],
    size: u32,
    from: &DType,
    to: &DType,
) -> Result<Vec<Option<ScalarValue>>, Refusal>
    ensures { MakesParts (sized (count (value_trees elements.now)) size
        (each_to (value_trees elements.now) (type_of from.now) (type_of to.now))) result }
{
    if are_as_many(elements, size) {
        cast_elements(alloc, elements, from, to)
    } else {
        Err(Refusal::Impossible)
    }
}

/// Each element, cast to the element type of the target.
#[cycle(cast)]
fn cast_elements(
    alloc: Global,
    elements: &[Option<ScalarValue>],
    from: &DType,
    to: &DType,
) -> Result<Vec<Option<ScalarValue>>, Refusal>
    ensures { MakesParts
        (each_to (value_trees elements.now) (type_of from.now) (type_of to.now)) result }
{
    let stored = bare_target(from, to);
    let mut made = Vec::with_capacity(alloc, elements.len())?;
    for element in elements {
        push_to_storage(alloc, element.as_ref(), from, to, stored, &mut made)?;
    }
    Ok(made)
}

/// The entries, cast unless the keys would come to claim that they are sorted.
#[cycle(cast)]
fn cast_map(
    alloc: Global,
    entries: &[Option<ScalarValue>],
    from: &MapDType,
    to: &MapDType,
) -> Result<Vec<Option<ScalarValue>>, Refusal>
    ensures { MakesParts (map_to (entries_to (value_trees entries.now))
        (map_of from.now) (map_of to.now)) result }
{
    if would_claim_sorted(from, to) {
        Err(Refusal::Impossible)
    } else {
        cast_entries(alloc, entries, from, to)
    }
}

/// Each entry, cast to the key and value types of the target.
#[cycle(cast)]
fn cast_entries(
    alloc: Global,
    entries: &[Option<ScalarValue>],
    from: &MapDType,
    to: &MapDType,
) -> Result<Vec<Option<ScalarValue>>, Refusal>
    ensures { MakesParts (entries_to (value_trees entries.now)
        (map_of from.now) (map_of to.now)) result }
{
    let keys = bare_target(from.key_dtype(), to.key_dtype());
    let values = bare_target(from.value_dtype(), to.value_dtype());
    let mut made = Vec::with_capacity(alloc, entries.len())?;
    for entry in entries {
        push_entry(alloc, entry.as_ref(), from, to, keys, values, &mut made)?;
    }
    Ok(made)
}

/// Appends what an entry becomes, if it is a tuple. The caller has asked once what the key and
/// value types of the target store.
#[cycle(cast)]
#[inline(always)]
fn push_entry(
    alloc: Global,
    entry: Option<&ScalarValue>,
    from: &MapDType,
    to: &MapDType,
    keys: Option<&DType>,
    values: Option<&DType>,
    made: &mut Vec<Option<ScalarValue>>,
) -> Result<(), Refusal>
    requires keys { IsBareTarget (map_of from.now).key (map_of to.now).key (option_copied keys) }
    requires values { IsBareTarget (map_of from.now).value (map_of to.now).value
        (option_copied values) }
    ensures { Appends made.old.items made.new.items (entry_to (lent_raw entry.entry)
        (map_of from.now) (map_of to.now)) result }
{
    match entry {
        Some(ScalarValue::Tuple(parts)) => push_pair(alloc, parts, from, to, keys, values, made),
        _ => Err(Refusal::Impossible),
    }
}

/// Appends the pair of what a key and a value become.
#[cycle(cast)]
#[inline(never)]
fn push_pair(
    alloc: Global,
    parts: &[Option<ScalarValue>],
    from: &MapDType,
    to: &MapDType,
    keys: Option<&DType>,
    values: Option<&DType>,
    made: &mut Vec<Option<ScalarValue>>,
) -> Result<(), Refusal>
    requires keys { IsBareTarget (map_of from.now).key (map_of to.now).key (option_copied keys) }
    requires values { IsBareTarget (map_of from.now).value (map_of to.now).value
        (option_copied values) }
    ensures { Appends made.old.items made.new.items (entry_to (raw_tuple (value_trees parts.now))
        (map_of from.now) (map_of to.now)) result }
{
    if parts.len() != 2 {
        return Err(Refusal::Impossible);
    }
    let (key, value) = (parts[0].as_ref(), parts[1].as_ref());
    let mut pair = Vec::with_capacity(alloc, 2)?;
    push_to_storage(
        alloc,
        key,
        from.key_dtype(),
        to.key_dtype(),
        keys,
        &mut pair,
    )?;
    push_to_storage(
        alloc,
        value,
        from.value_dtype(),
        to.value_dtype(),
        values,
        &mut pair,
    )?;
    push(Some(ScalarValue::Tuple(pair)), made)
}

/// Each field, cast to the type at its place, if there are equally many.
#[cycle(cast)]
fn cast_fields(
    alloc: Global,
    fields: &[Option<ScalarValue>],
    sources: &[DType],
    targets: &[DType],
) -> Result<Vec<Option<ScalarValue>>, Refusal>
    ensures { MakesParts (fields_to (value_trees fields.now)
        (dtype_trees sources.now) (dtype_trees targets.now)) result }
{
    if fields.len() != sources.len() {
        return Err(Refusal::Impossible);
    }
    if sources.len() != targets.len() {
        return Err(Refusal::Impossible);
    }
    let mut made = Vec::with_capacity(alloc, fields.len())?;
    for (field, (source, target)) in fields.iter().zip(sources.iter().zip(targets)) {
        push_part(alloc, field.as_ref(), source, target, &mut made)?;
    }
    Ok(made)
}

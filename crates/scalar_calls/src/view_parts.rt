//! Calls of views that give parts: elements, entries, fields, children, storage.

ghost use Rattle.std.specs.Prelude.{◌≡◌, IfOk};
ghost use Rattle.scalar_calls.specs.Words.{IsValidRef, struct_ref};

use case_lines::{
    Answer, CallResult, Given, Input, Line, Named, or_none, same_as_lent, scalar_or_none, validate,
};
use std::alloc::{AllocError, Global};
use vortex_dtype::VortexError;
use vortex_value::{Scalar, ScalarRef};
use vortex_views::{Downcast, MapScalar, StructScalar};

/// What is asked of a list.
#[derive(Clone, Copy)]
enum OfList {
    Element,
    Elements,
}

const OF_LIST: [Named<OfList, Input>; 2] = [
    ("element", OfList::Element, &[Input::Scalar, Input::Number]),
    ("elements", OfList::Elements, &[Input::Scalar]),
];

/// What is asked of a map.
#[derive(Clone, Copy)]
enum OfMap {
    Entry,
    Entries,
    Keys,
    Values,
}

const OF_MAP: [Named<OfMap, Input>; 4] = [
    ("entry", OfMap::Entry, &[Input::Scalar, Input::Number]),
    ("entries", OfMap::Entries, &[Input::Scalar]),
    ("keys", OfMap::Keys, &[Input::Scalar]),
    ("values", OfMap::Values, &[Input::Scalar]),
];

/// What is asked of a struct.
#[derive(Clone, Copy)]
enum OfStruct {
    FieldAt,
    Field,
    Fields,
    Project,
    Cast,
}

const OF_STRUCT: [Named<OfStruct, Input>; 5] = [
    (
        "field_at",
        OfStruct::FieldAt,
        &[Input::Scalar, Input::Number],
    ),
    ("field", OfStruct::Field, &[Input::Scalar, Input::Text]),
    ("fields", OfStruct::Fields, &[Input::Scalar]),
    (
        "project_struct",
        OfStruct::Project,
        &[Input::Scalar, Input::Names],
    ),
    ("cast_struct", OfStruct::Cast, &[Input::Scalar, Input::Type]),
];

/// What is asked of a union.
#[derive(Clone, Copy)]
enum OfUnion {
    Child,
    ChildIndex,
    TypeId,
    VariantName,
}

const OF_UNION: [Named<OfUnion, Input>; 4] = [
    ("child", OfUnion::Child, &[Input::Scalar]),
    ("child_index", OfUnion::ChildIndex, &[Input::Scalar]),
    ("type_id", OfUnion::TypeId, &[Input::Scalar]),
    ("variant_name", OfUnion::VariantName, &[Input::Scalar]),
];

/// What is asked of a variant or an extension.
#[derive(Clone, Copy)]
enum OfOne {
    Inner,
    IsVariantNull,
    Storage,
}

const OF_ONE: [Named<OfOne, Input>; 3] = [
    ("inner", OfOne::Inner, &[Input::Scalar]),
    ("is_variant_null", OfOne::IsVariantNull, &[Input::Scalar]),
    ("storage", OfOne::Storage, &[Input::Scalar]),
];

/// Answers the line if it names one of these calls.
pub fn answer(line: &mut Line<'_>) {
    line.lend(&OF_LIST, of_list);
    line.lend(&OF_MAP, of_map);
    line.lend(&OF_STRUCT, of_struct);
    line.lend(&OF_UNION, of_union);
    line.lend(&OF_ONE, of_one);
}

/// The view of a scalar, if the scalar's type has that view.
pub fn of_kind<T>(view: Option<T>) -> Result<T, VortexError>
    ensures { IfOk result (λ given. view ≡ Some given) }
{
    view.ok_or(VortexError::WrongKind)
}

fn of_list(alloc: Global, call: OfList, given: &Given) -> CallResult {
    validate(alloc, &given.scalar)?;
    let list = of_kind(given.scalar.as_list_opt())?;
    match call {
        OfList::Element => scalar_or_none(list.element(alloc, given.number)),
        OfList::Elements => Ok(or_none(list.elements(alloc)?.map(Answer::Parts))),
    }
}

/// The items that an iterator gave. Their memory is allocated first, so that a later refusal is an
/// item's.
#[derive(Drop)]
struct Items<T> {
    items: Vec<T>,
    /// How many items came, refused ones among them.
    seen: usize,
    /// How many of them were refused.
    refused: usize,
    /// Whether one was not what the view lends at its place.
    is_wrong: bool,
}

impl<T: Drop> Items<T> {
    fn new(alloc: Global, count: usize) -> Result<Items<T>, AllocError> {
        Ok(Items {
            items: Vec::with_capacity(alloc, count)?,
            seen: 0,
            refused: 0,
            is_wrong: false,
        })
    }

    /// Keeps an item. `is_lent` says whether it is what the view lends at its place.
    fn add(&mut self, item: Result<T, VortexError>, is_lent: bool) {
        self.seen = self.seen.saturating_add(1);
        self.is_wrong = self.is_wrong || !is_lent;
        match item {
            // Never out of memory: the memory was allocated.
            Ok(item) => drop(self.items.push(item)),
            Err(refusal) => {
                self.refused = self.refused.saturating_add(1);
                drop(refusal);
            }
        }
    }

    /// What went wrong, if `count` items were due.
    fn fault(&self, count: usize) -> Option<Answer> {
        if self.is_wrong || self.seen != count {
            return Some(Answer::WrongItems);
        }
        match self.refused {
            0 => None,
            1 => Some(Answer::NoMemoryForItem),
            _ => Some(Answer::NoMemoryForItems),
        }
    }
}

/// The parts, or what went wrong, if `count` parts were due.
fn all_parts(parts: Items<Scalar>, count: usize) -> Answer {
    match parts.fault(count) {
        Some(fault) => fault,
        None => Answer::Parts(parts.items),
    }
}

/// Whether an item is what the view lends at its place. `OutOfMemory` is its only refusal.
fn is_lent(item: &Result<Scalar, VortexError>, lent: Option<ScalarRef<'_>>) -> bool {
    match (item, lent) {
        (Ok(part), Some(lent)) => same_as_lent(part, lent),
        (Err(VortexError::OutOfMemory), _) => true,
        _ => false,
    }
}

/// Whether an entry is what the view lends at its place. `OutOfMemory` is its only refusal.
fn is_lent_entry(
    item: &Result<(Scalar, Scalar), VortexError>,
    lent: Option<(ScalarRef<'_>, ScalarRef<'_>)>,
) -> bool {
    match (item, lent) {
        (Ok(entry), Some((key, value))) => {
            same_as_lent(&entry.0, key) && same_as_lent(&entry.1, value)
        }
        (Err(VortexError::OutOfMemory), _) => true,
        _ => false,
    }
}

fn of_map(alloc: Global, call: OfMap, given: &Given) -> CallResult {
    validate(alloc, &given.scalar)?;
    let map = of_kind(given.scalar.as_map_opt())?;
    match call {
        OfMap::Entry => Ok(or_none(map.entry(alloc, given.number)?.map(Answer::Entry))),
        OfMap::Entries => entries(alloc, map),
        OfMap::Keys => keys(alloc, map),
        OfMap::Values => values(alloc, map),
    }
}

fn entries(alloc: Global, map: MapScalar<'_>) -> CallResult {
    let mut entries = Items::new(alloc, map.len())?;
    for entry in map.entries(alloc) {
        let is_lent = is_lent_entry(&entry, map.entry_ref(entries.seen));
        entries.add(entry, is_lent);
    }
    Ok(match entries.fault(map.len()) {
        Some(fault) => fault,
        None => Answer::Entries(entries.items),
    })
}

fn keys(alloc: Global, map: MapScalar<'_>) -> CallResult {
    let mut parts = Items::new(alloc, map.len())?;
    for key in map.keys(alloc) {
        let lent = map.entry_ref(parts.seen).map(|entry| entry.0);
        let is_lent = is_lent(&key, lent);
        parts.add(key, is_lent);
    }
    Ok(all_parts(parts, map.len()))
}

fn values(alloc: Global, map: MapScalar<'_>) -> CallResult {
    let mut parts = Items::new(alloc, map.len())?;
    for value in map.values(alloc) {
        let lent = map.entry_ref(parts.seen).map(|entry| entry.1);
        let is_lent = is_lent(&value, lent);
        parts.add(value, is_lent);
    }
    Ok(all_parts(parts, map.len()))
}

fn of_struct(alloc: Global, call: OfStruct, given: &Given) -> CallResult {
    validate(alloc, &given.scalar)?;
    let view = of_kind(given.scalar.as_struct_opt())?;
    match call {
        OfStruct::FieldAt | OfStruct::Field if view.is_null() => Ok(Answer::Unmet),
        OfStruct::FieldAt => scalar_or_none(view.field_by_idx(alloc, given.number)),
        OfStruct::Field => scalar_or_none(view.field(alloc, given.text.as_str())),
        OfStruct::Fields => fields(alloc, view),
        OfStruct::Project => view.project(alloc, &given.fields.names).map(Answer::Scalar),
        OfStruct::Cast => view.cast(alloc, &given.dtype).map(Answer::Scalar),
    }
}

fn fields(alloc: Global, view: StructScalar<'_>) -> CallResult
    requires { IsValidRef (struct_ref view) }
{
    let Some(fields) = view.fields_iter(alloc) else {
        return Ok(Answer::None);
    };
    let mut parts = Items::new(alloc, view.names().len())?;
    for field in fields {
        let is_lent = is_lent(&field, view.field_ref_by_idx(parts.seen));
        parts.add(field, is_lent);
    }
    Ok(all_parts(parts, view.names().len()))
}

fn of_union(alloc: Global, call: OfUnion, given: &Given) -> CallResult {
    validate(alloc, &given.scalar)?;
    let union = of_kind(given.scalar.as_union_opt())?;
    match call {
        OfUnion::Child => scalar_or_none(union.child(alloc)),
        OfUnion::ChildIndex => Ok(or_none(union.child_index().map(Answer::Number))),
        OfUnion::TypeId => {
            Ok(or_none(union.type_id().map(|id| Answer::Number(usize::from(id)))))
        }
        OfUnion::VariantName => match union.variant_name() {
            Some(name) => Ok(Answer::Text(String::from_str(alloc, name.as_str())?)),
            None => Ok(Answer::None),
        },
    }
}

fn of_one(alloc: Global, call: OfOne, given: &Given) -> CallResult {
    let scalar = &given.scalar;
    validate(alloc, scalar)?;
    match call {
        OfOne::Inner => match of_kind(scalar.as_variant_opt())?.value() {
            Some(held) => held.clone(alloc).map(Answer::Scalar),
            None => Ok(Answer::None),
        },
        OfOne::IsVariantNull => {
            let variant = of_kind(scalar.as_variant_opt())?;
            Ok(or_none(variant.is_variant_null().map(Answer::Truth)))
        }
        OfOne::Storage => {
            let extension = of_kind(scalar.as_extension_opt())?;
            extension.to_storage_scalar(alloc).map(Answer::Scalar)
        }
    }
}

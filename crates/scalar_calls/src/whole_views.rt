//! Calls of whole views: how they are made and printed, their length, order and hash.

ghost use Rattle.scalar_calls.specs.Words.{IsValid};

use crate::recorder::fed;
use case_lines::{Answer, CallResult, Given, Input, Line, Named, View, or_none, text_of, validate};
use std::alloc::Global;
use std::cmp::Ordering;
use vortex_dtype::{DType, VortexError};
use vortex_value::{Scalar, ScalarRef};
use vortex_views::{
    BinaryScalar, BoolScalar, Downcast, ExtScalar, ListScalar, MapScalar, PrimitiveScalar,
    StructScalar, UnionScalar, Utf8Scalar,
};

#[derive(Clone, Copy)]
enum Call {
    View,
    TryView,
}

const CALLS: [Named<Call, Input>; 2] = [
    ("view", Call::View, &[Input::View, Input::Scalar]),
    ("try_view", Call::TryView, &[Input::View, Input::Scalar]),
];

/// What is asked of the views of valid scalars.
#[derive(Clone, Copy)]
enum OfValid {
    Text,
    Len,
    IsEmpty,
    IsNull,
    Order,
    Hash,
}

const OF_VALID: [Named<OfValid, Input>; 6] = [
    ("view_text", OfValid::Text, &[Input::Scalar]),
    ("len", OfValid::Len, &[Input::Scalar]),
    ("is_empty", OfValid::IsEmpty, &[Input::Scalar]),
    ("is_null", OfValid::IsNull, &[Input::Scalar]),
    (
        "view_order",
        OfValid::Order,
        &[Input::Scalar, Input::Second],
    ),
    ("view_hash", OfValid::Hash, &[Input::Scalar, Input::Second]),
];

/// Answers the line if it names one of these calls.
pub fn answer(line: &mut Line<'_>) {
    line.lend(&CALLS, answer_of);
    line.lend(&OF_VALID, of_valid);
}

fn answer_of(alloc: Global, call: Call, given: &Given) -> CallResult {
    match call {
        Call::View => scalar_of_view(alloc, given.view, &given.scalar),
        Call::TryView => try_view(alloc, given.view, &given.scalar),
    }
}

fn of_valid(alloc: Global, call: OfValid, given: &Given) -> CallResult {
    let scalar = &given.scalar;
    let second = &given.second;
    validate(alloc, scalar)?;
    validate(alloc, second)?;
    match call {
        OfValid::Text => text(alloc, scalar),
        OfValid::Len => Ok(or_none(length(scalar)?.map(Answer::Number))),
        OfValid::IsEmpty => Ok(or_none(is_empty(scalar)?.map(Answer::Truth))),
        OfValid::IsNull => is_null(scalar).map(Answer::Truth),
        OfValid::Order => Ok(or_none(order_of_views(scalar, second)?.map(Answer::Order))),
        OfValid::Hash => Ok(Answer::SameFeed(feed_of_view(scalar)? == feed_of_view(second)?)),
    }
}

/// The scalar that a view was made of, by `try_new`.
fn scalar_of_view(alloc: Global, view: View, scalar: &Scalar) -> CallResult {
    let dtype = scalar.dtype();
    let value = scalar.value();
    Ok(Answer::Scalar(match view {
        View::Bool => BoolScalar::try_new(alloc, dtype, value)?.into_scalar(),
        View::Primitive => Scalar::from(PrimitiveScalar::try_new(alloc, dtype, value)?),
        View::Struct | View::Extension => return Ok(Answer::Unmet),
        view => {
            let dtype = view_type(alloc, view, scalar)?;
            ScalarRef::from_parts(dtype, value).to_scalar(alloc)?
        }
    }))
}

/// The type of a view that lends its value.
fn view_type<'a>(alloc: Global, view: View, scalar: &'a Scalar) -> Result<&'a DType, VortexError> {
    let dtype = scalar.dtype();
    let value = scalar.value();
    Ok(match view {
        View::Utf8 => Utf8Scalar::try_new(alloc, dtype, value)?.dtype(),
        View::Binary => BinaryScalar::try_new(alloc, dtype, value)?.dtype(),
        View::List => ListScalar::try_new(alloc, dtype, value)?.dtype(),
        View::Map => MapScalar::try_new(alloc, dtype, value)?.dtype(),
        View::Union => UnionScalar::try_new(alloc, dtype, value)?.dtype(),
        _ => dtype,
    })
}

/// The `Display` of the view that `TryFrom<&Scalar>` gives.
fn try_view(alloc: Global, view: View, scalar: &Scalar) -> CallResult {
    match view {
        View::Bool => text_of(alloc, &BoolScalar::try_from(scalar)?),
        View::Utf8 => text_of(alloc, &Utf8Scalar::try_from(scalar)?),
        View::Binary => text_of(alloc, &BinaryScalar::try_from(scalar)?),
        View::Primitive => text_of(alloc, &PrimitiveScalar::try_from(scalar)?),
        View::List => text_of(alloc, &ListScalar::try_from(scalar)?),
        View::Map => text_of(alloc, &MapScalar::try_from(scalar)?),
        View::Struct => text_of(alloc, &StructScalar::try_from(scalar)?),
        View::Extension => text_of(alloc, &ExtScalar::try_from(scalar)?),
        View::Union => Ok(Answer::Unmet),
    }
}

/// The `Display` of the view that `Downcast` gives.
fn text(alloc: Global, scalar: &Scalar) -> CallResult
    requires { IsValid scalar.now }
{
    match scalar.dtype() {
        DType::Bool(_) => text_of(alloc, &scalar.as_bool()),
        DType::Primitive(_, _) => text_of(alloc, &scalar.as_primitive()),
        DType::Utf8(_) => text_of(alloc, &scalar.as_utf8()),
        DType::Binary(_) => text_of(alloc, &scalar.as_binary()),
        _ => text_with_parts(alloc, scalar),
    }
}

/// The `Display` of the view of a scalar with parts.
fn text_with_parts(alloc: Global, scalar: &Scalar) -> CallResult
    requires { IsValid scalar.now }
{
    match scalar.dtype() {
        DType::List(_, _) | DType::FixedSizeList(_, _, _) => text_of(alloc, &scalar.as_list()),
        DType::Map(_, _) => text_of(alloc, &scalar.as_map()),
        DType::Struct(_, _) => text_of(alloc, &scalar.as_struct()),
        DType::Union(_, _) => text_of(alloc, &scalar.as_union()),
        DType::Variant(_) => text_of(alloc, &scalar.as_variant()),
        DType::Extension(_) => text_of(alloc, &scalar.as_extension()),
        _ => Err(VortexError::WrongKind),
    }
}

/// The number of bytes, elements or entries.
fn length(scalar: &Scalar) -> Result<Option<usize>, VortexError>
    requires { IsValid scalar.now }
{
    Ok(match scalar.dtype() {
        DType::Utf8(_) => scalar.as_utf8().len(),
        DType::Binary(_) => scalar.as_binary().len(),
        DType::List(_, _) | DType::FixedSizeList(_, _, _) => Some(scalar.as_list().len()),
        DType::Map(_, _) => Some(scalar.as_map().len()),
        _ => return Err(VortexError::WrongKind),
    })
}

fn is_empty(scalar: &Scalar) -> Result<Option<bool>, VortexError>
    requires { IsValid scalar.now }
{
    Ok(match scalar.dtype() {
        DType::Utf8(_) => scalar.as_utf8().is_empty(),
        DType::Binary(_) => scalar.as_binary().is_empty(),
        DType::List(_, _) | DType::FixedSizeList(_, _, _) => Some(scalar.as_list().is_empty()),
        DType::Map(_, _) => Some(scalar.as_map().is_empty()),
        _ => return Err(VortexError::WrongKind),
    })
}

fn is_null(scalar: &Scalar) -> Result<bool, VortexError>
    requires { IsValid scalar.now }
{
    Ok(match scalar.dtype() {
        DType::List(_, _) | DType::FixedSizeList(_, _, _) => scalar.as_list().is_null(),
        DType::Map(_, _) => scalar.as_map().is_null(),
        DType::Struct(_, _) => scalar.as_struct().is_null(),
        DType::Union(_, _) => scalar.as_union().is_null(),
        DType::Variant(_) => scalar.as_variant().is_null(),
        _ => return Err(VortexError::WrongKind),
    })
}

/// The order of two views. `WrongKind` if they are not of one kind that has an order.
fn order_of_views(first: &Scalar, second: &Scalar) -> Result<Option<Ordering>, VortexError>
    requires first { IsValid first.now }
    requires second { IsValid second.now }
{
    Ok(match (first.dtype(), second.dtype()) {
        (DType::Bool(_), DType::Bool(_)) => Some(first.as_bool().cmp(&second.as_bool())),
        (DType::Utf8(_), DType::Utf8(_)) => Some(first.as_utf8().cmp(&second.as_utf8())),
        (DType::Binary(_), DType::Binary(_)) => Some(first.as_binary().cmp(&second.as_binary())),
        (DType::Primitive(_, _), DType::Primitive(_, _)) => {
            first.as_primitive().partial_cmp(&second.as_primitive())
        }
        _ => return order_with_parts(first, second),
    })
}

/// The order of two views of scalars with parts.
fn order_with_parts(first: &Scalar, second: &Scalar) -> Result<Option<Ordering>, VortexError>
    requires first { IsValid first.now }
    requires second { IsValid second.now }
{
    if let (Some(x), Some(y)) = (first.as_list_opt(), second.as_list_opt()) {
        return Ok(x.partial_cmp(&y));
    }
    if let (Some(x), Some(y)) = (first.as_struct_opt(), second.as_struct_opt()) {
        return Ok(x.partial_cmp(&y));
    }
    match (first.as_extension_opt(), second.as_extension_opt()) {
        (Some(x), Some(y)) => Ok(x.partial_cmp(&y)),
        _ => Err(VortexError::WrongKind),
    }
}

/// The digest of what the view of a scalar feeds. `WrongKind` if views of its kind have no hash.
fn feed_of_view(scalar: &Scalar) -> Result<u64, VortexError>
    requires { IsValid scalar.now }
{
    Ok(match scalar.dtype() {
        DType::Bool(_) => fed(&scalar.as_bool()),
        DType::Utf8(_) => fed(&scalar.as_utf8()),
        DType::Binary(_) => fed(&scalar.as_binary()),
        DType::Primitive(_, _) => fed(&scalar.as_primitive()),
        DType::List(_, _) | DType::FixedSizeList(_, _, _) => fed(&scalar.as_list()),
        DType::Map(_, _) => fed(&scalar.as_map()),
        DType::Struct(_, _) => fed(&scalar.as_struct()),
        DType::Extension(_) => fed(&scalar.as_extension()),
        _ => return Err(VortexError::WrongKind),
    })
}

//! Copies of raw values and of scalars, in memory of their own.
//!
//! Parts are appended by the `push_*` functions. Children of unions are boxed by the `box_*`
//! functions, and scalars of variants, with their types, by the `boxed_*` functions.
//!
//! One family would be slower, by `bench/values`. If `copy_value` and `copy_scalar` made each value
//! and it were then moved, a copy of integers would take 7.1 times the instructions. Nested lists
//! would take 2.7 times as many, structs and variants 2.2, unions 1.9 and maps 1.8. If parts were
//! written to a place that the caller lends, it would be 1.2 times for integers, and 1.1 for lists,
//! structs and maps. If only unions, variants and boxes were made first and then moved, it would be
//! 1.5 times for unions and 1.9 for variants.
//!
//! Lists and structs within variants copy their own types. If they did so by the copy of any type, a
//! copy of variants would take 1.07 times the instructions.
#![tactic(auto, using(crate::proofs::ValueSteps::shown))]

ghost use Rattle.std.specs.Prelude.{◌≡◌, ◌<◌, IfOk, MatchResult, None, Some, false, map, option_map};
ghost use Rattle.vortex_dtype.specs.TypeOf.{struct_type_of};
ghost use Rattle.vortex_dtype.specs.TypeTree.{list_type};
ghost use Rattle.vortex_value.specs.Words.{Adds, IsFlat, OutOfMemory, TakesNoMemory, absent, binary_type, bool_type};
ghost use Rattle.vortex_value.specs.Words.{fields_of, integer_type, is_none, lent_raw, null_type, option_copied};
ghost use Rattle.vortex_value.specs.Words.{ptype_of, raw_bool, raw_bytes, raw_integer, raw_of, raw_text, raw_tuple};
ghost use Rattle.vortex_value.specs.Words.{raw_variant, type_of, union_tree, utf8_type, value_tree, value_trees};
ghost use Rattle.vortex_value.specs.Words.{variant_tree, vec_capacity, vec_len, whole_of};

use crate::scalars::{Scalar, with_type};
use crate::unions::UnionValue;
use crate::values::ScalarValue;
use std::alloc::{AllocError, Global};
use vortex_dtype::{
    BufferString, ByteBuffer, DType, Nullability, PType, StructFields, VortexError,
};
use vortex_pvalue::PValue;

/// A copy of the raw value. Truth values and integers take no memory.
#[cycle(copies)]
#[inline(always)]
pub(crate) fn copy_value(alloc: Global, value: &ScalarValue) -> Result<ScalarValue, AllocError>
    ensures { MatchResult result
        (λ copy. value_tree copy ≡ value_tree value.now)
        (λ _. ¬ (TakesNoMemory (value_tree value.now))) }
{
    match value {
        ScalarValue::Bool(truth) => Ok(ScalarValue::Bool(*truth)),
        ScalarValue::Primitive(number) => Ok(ScalarValue::Primitive(*number)),
        ScalarValue::Utf8(text) => Ok(ScalarValue::Utf8(copy_text(text)?)),
        ScalarValue::Binary(bytes) => Ok(ScalarValue::Binary(copy_bytes(bytes)?)),
        ScalarValue::Tuple(values) => Ok(ScalarValue::Tuple(copy_tuple(alloc, values)?)),
        ScalarValue::Union(union) => Ok(ScalarValue::Union(copy_union(alloc, union)?)),
        ScalarValue::Variant(scalar) => Ok(ScalarValue::Variant(copy_boxed(alloc, scalar)?)),
    }
}

/// A copy of the string.
#[inline(always)]
pub(crate) fn copy_text(text: &BufferString) -> Result<BufferString, AllocError>
    ensures { IfOk result (λ copy. copy ≡ text.now) }
{
    match text.clone() {
        Ok(copy) => Ok(copy),
        Err(_) => Err(AllocError),
    }
}

/// A copy of the bytes.
#[inline(always)]
fn copy_bytes(bytes: &ByteBuffer) -> Result<ByteBuffer, AllocError>
    ensures { IfOk result (λ copy. copy ≡ bytes.now) }
{
    match bytes.clone() {
        Ok(copy) => Ok(copy),
        Err(_) => Err(AllocError),
    }
}

/// A copy of the raw value, or `None`, which takes no memory.
#[cycle(copies)]
pub(crate) fn copy_optional(
    alloc: Global,
    value: Option<&ScalarValue>,
) -> Result<Option<ScalarValue>, AllocError>
    ensures { MatchResult result
        (λ copy. option_map value_tree copy ≡ option_map value_tree (option_copied value.entry))
        (λ _. ¬ (TakesNoMemory (lent_raw value.entry))) }
{
    match value {
        Some(value) => Ok(Some(copy_value(alloc, value)?)),
        None => Ok(None),
    }
}

/// Copies of the raw values, in order.
#[cycle(copies)]
fn copy_tuple(
    alloc: Global,
    values: &[Option<ScalarValue>],
) -> Result<Vec<Option<ScalarValue>>, AllocError>
    ensures { IfOk result
        (λ copies.
        map (option_map value_tree) copies.items
        ≡ map (option_map value_tree) values.now) }
{
    let mut copies = Vec::with_capacity(alloc, values.len())?;
    for value in values {
        push_copy(alloc, value.as_ref(), &mut copies)?;
    }
    Ok(copies)
}

/// Appends a copy of the value, or `None`. Each variant of a value has a function of its own, which
/// pays for its own locals alone.
#[cycle(copies)]
#[inline(always)]
fn push_copy(
    alloc: Global,
    value: Option<&ScalarValue>,
    copies: &mut Vec<Option<ScalarValue>>,
) -> Result<(), AllocError>
    requires { vec_len copies.old < vec_capacity copies.old }
    ensures { IfOk result (λ _. Adds copies.old copies.new
        (option_map value_tree (option_copied value.entry))) }
{
    match value {
        None => push_null(copies),
        Some(ScalarValue::Bool(truth)) => push_bool(*truth, copies),
        Some(ScalarValue::Primitive(number)) => push_number(number, copies),
        Some(ScalarValue::Utf8(text)) => push_text(text, copies),
        Some(ScalarValue::Binary(bytes)) => push_bytes(bytes, copies),
        Some(ScalarValue::Tuple(values)) => push_tuple(alloc, values, copies),
        Some(ScalarValue::Union(union)) => push_union(alloc, union, copies),
        Some(ScalarValue::Variant(scalar)) => push_variant(alloc, scalar, copies),
    }
}

#[inline(never)]
fn push_null(copies: &mut Vec<Option<ScalarValue>>) -> Result<(), AllocError>
    requires { vec_len copies.old < vec_capacity copies.old }
    ensures { IfOk result (λ _. Adds copies.old copies.new None) }
{
    copies.push_reserved(None);
    Ok(())
}

#[inline(never)]
fn push_bool(truth: bool, copies: &mut Vec<Option<ScalarValue>>) -> Result<(), AllocError>
    requires { vec_len copies.old < vec_capacity copies.old }
    ensures { IfOk result (λ _. Adds copies.old copies.new (Some (raw_bool truth))) }
{
    copies.push_reserved(Some(ScalarValue::Bool(truth)));
    Ok(())
}

#[inline(always)]
fn push_number(number: &PValue, copies: &mut Vec<Option<ScalarValue>>) -> Result<(), AllocError>
    requires { vec_len copies.old < vec_capacity copies.old }
    ensures { IfOk result (λ _. Adds copies.old copies.new
        (Some (raw_integer (ptype_of number.now) (whole_of number.now)))) }
{
    copies.push_reserved(Some(ScalarValue::Primitive(*number)));
    Ok(())
}

#[inline(never)]
fn push_text(text: &BufferString, copies: &mut Vec<Option<ScalarValue>>) -> Result<(), AllocError>
    requires { vec_len copies.old < vec_capacity copies.old }
    ensures { IfOk result (λ _. Adds copies.old copies.new (Some (raw_text text.now))) }
{
    let text = copy_text(text)?;
    copies.push_reserved(Some(ScalarValue::Utf8(text)));
    Ok(())
}

#[inline(never)]
fn push_bytes(bytes: &ByteBuffer, copies: &mut Vec<Option<ScalarValue>>) -> Result<(), AllocError>
    requires { vec_len copies.old < vec_capacity copies.old }
    ensures { IfOk result (λ _. Adds copies.old copies.new (Some (raw_bytes bytes.now))) }
{
    let bytes = copy_bytes(bytes)?;
    copies.push_reserved(Some(ScalarValue::Binary(bytes)));
    Ok(())
}

#[cycle(copies)]
#[inline(never)]
fn push_tuple(
    alloc: Global,
    values: &[Option<ScalarValue>],
    copies: &mut Vec<Option<ScalarValue>>,
) -> Result<(), AllocError>
    requires { vec_len copies.old < vec_capacity copies.old }
    ensures { IfOk result (λ _. Adds copies.old copies.new
        (Some (raw_tuple (value_trees values.now)))) }
{
    let parts = copy_tuple(alloc, values)?;
    copies.push_reserved(Some(ScalarValue::Tuple(parts)));
    Ok(())
}

#[cycle(copies)]
#[inline(never)]
fn push_union(
    alloc: Global,
    union: &UnionValue,
    copies: &mut Vec<Option<ScalarValue>>,
) -> Result<(), AllocError>
    requires { vec_len copies.old < vec_capacity copies.old }
    ensures { IfOk result (λ _. Adds copies.old copies.new (Some (union_tree union.now))) }
{
    let child = copy_child(alloc, union.child.as_deref())?;
    let type_id = union.type_id;
    copies.push_reserved(Some(ScalarValue::Union(UnionValue { type_id, child })));
    Ok(())
}

#[cycle(copies)]
#[inline(never)]
fn push_variant(
    alloc: Global,
    scalar: &Scalar,
    copies: &mut Vec<Option<ScalarValue>>,
) -> Result<(), AllocError>
    requires { vec_len copies.old < vec_capacity copies.old }
    ensures { IfOk result (λ _. Adds copies.old copies.new (Some (variant_tree scalar.now))) }
{
    let scalar = copy_boxed(alloc, scalar)?;
    copies.push_reserved(Some(ScalarValue::Variant(scalar)));
    Ok(())
}

/// A copy of the id and the child. Without a child it takes no memory.
#[cycle(copies)]
pub(crate) fn copy_union(alloc: Global, union: &UnionValue) -> Result<UnionValue, AllocError>
    ensures { MatchResult result
        (λ copy. union_tree copy ≡ union_tree union.now)
        (λ _. is_none union.now.child ≡ false) }
{
    let child = copy_child(alloc, union.child.as_deref())?;
    Ok(UnionValue {
        type_id: union.type_id,
        child,
    })
}

/// The child of a union in a box of its own. Without one it takes no memory.
#[cycle(copies)]
#[inline(always)]
fn copy_child(
    alloc: Global,
    child: Option<&ScalarValue>,
) -> Result<Option<Box<ScalarValue>>, AllocError>
    ensures { MatchResult result
        (λ copy. option_map (λ b. value_tree b.value) copy ≡ option_map value_tree (option_copied child.entry))
        (λ _. is_none (option_copied child.entry) ≡ false) }
{
    match child {
        Some(child) => Ok(Some(box_copy(alloc, child)?)),
        None => Ok(None),
    }
}

/// A copy of the value in a box, with a function for each variant of a value, as in `push_copy`.
#[cycle(copies)]
#[inline(always)]
fn box_copy(alloc: Global, value: &ScalarValue) -> Result<Box<ScalarValue>, AllocError>
    ensures { IfOk result (λ copy. value_tree copy.value ≡ value_tree value.now) }
{
    match value {
        ScalarValue::Bool(truth) => box_bool(alloc, *truth),
        ScalarValue::Primitive(number) => box_number(alloc, number),
        ScalarValue::Utf8(text) => box_text(alloc, text),
        ScalarValue::Binary(bytes) => box_bytes(alloc, bytes),
        ScalarValue::Tuple(values) => box_tuple(alloc, values),
        ScalarValue::Union(union) => box_union(alloc, union),
        ScalarValue::Variant(scalar) => box_variant(alloc, scalar),
    }
}

/// The value in a box.
#[inline(always)]
pub(crate) fn new_box<T: Drop>(alloc: Global, value: T) -> Result<Box<T>, AllocError>
    ensures { IfOk result (λ made. made.value ≡ value) }
{
    Ok(Box::new(alloc, value)?)
}

#[inline(never)]
fn box_bool(alloc: Global, truth: bool) -> Result<Box<ScalarValue>, AllocError>
    ensures { IfOk result (λ made. value_tree made.value ≡ raw_bool truth) }
{
    new_box(alloc, ScalarValue::Bool(truth))
}

#[inline(never)]
fn box_number(alloc: Global, number: &PValue) -> Result<Box<ScalarValue>, AllocError>
    ensures { IfOk result (λ made. value_tree made.value ≡
        raw_integer (ptype_of number.now) (whole_of number.now)) }
{
    new_box(alloc, ScalarValue::Primitive(*number))
}

#[inline(never)]
fn box_text(alloc: Global, text: &BufferString) -> Result<Box<ScalarValue>, AllocError>
    ensures { IfOk result (λ made. value_tree made.value ≡ raw_text text.now) }
{
    new_box(alloc, ScalarValue::Utf8(copy_text(text)?))
}

#[inline(never)]
fn box_bytes(alloc: Global, bytes: &ByteBuffer) -> Result<Box<ScalarValue>, AllocError>
    ensures { IfOk result (λ made. value_tree made.value ≡ raw_bytes bytes.now) }
{
    new_box(alloc, ScalarValue::Binary(copy_bytes(bytes)?))
}

#[cycle(copies)]
#[inline(never)]
fn box_tuple(alloc: Global, values: &[Option<ScalarValue>]) -> Result<Box<ScalarValue>, AllocError>
    ensures { IfOk result (λ made. value_tree made.value ≡ raw_tuple (value_trees values.now)) }
{
    new_box(alloc, ScalarValue::Tuple(copy_tuple(alloc, values)?))
}

#[cycle(copies)]
#[inline(never)]
fn box_union(alloc: Global, union: &UnionValue) -> Result<Box<ScalarValue>, AllocError>
    ensures { IfOk result (λ made. value_tree made.value ≡ union_tree union.now) }
{
    new_box(alloc, ScalarValue::Union(copy_union(alloc, union)?))
}

#[cycle(copies)]
#[inline(never)]
fn box_variant(alloc: Global, scalar: &Scalar) -> Result<Box<ScalarValue>, AllocError>
    ensures { IfOk result (λ made. value_tree made.value ≡ variant_tree scalar.now) }
{
    new_box(alloc, ScalarValue::Variant(copy_boxed(alloc, scalar)?))
}

/// A copy of the scalar in a box. A value without parts that is of just its type costs no
/// recursion. Each variant has a function of its own, as in `push_copy`.
#[cycle(copies)]
#[tactic(auto, using(crate::proofs::ValueSteps::shown, crate::proofs::CopySteps::levels))]
#[inline(always)]
pub(crate) fn copy_boxed(alloc: Global, scalar: &Scalar) -> Result<Box<Scalar>, AllocError>
    ensures { IfOk result (λ copy. variant_tree copy.value ≡ variant_tree scalar.now) }
{
    match (&scalar.dtype, &scalar.value) {
        (DType::Null, None) => boxed_null(alloc),
        (DType::Bool(nullability), Some(ScalarValue::Bool(truth))) => boxed_bool(
            alloc,
            *nullability,
            *truth,
        ),
        (DType::Primitive(ptype, nullability), Some(ScalarValue::Primitive(number))) => {
            boxed_number(alloc, *ptype, *nullability, number)
        }
        (DType::Utf8(nullability), Some(ScalarValue::Utf8(text))) => boxed_text(
            alloc,
            *nullability,
            text,
        ),
        (DType::Binary(nullability), Some(ScalarValue::Binary(bytes))) => boxed_bytes(
            alloc,
            *nullability,
            bytes,
        ),
        (DType::List(element, nullability), Some(ScalarValue::Tuple(values))) => boxed_elements(
            alloc,
            values,
            element,
            *nullability,
        ),
        (DType::Struct(fields, nullability), Some(ScalarValue::Tuple(values))) => boxed_fields(
            alloc,
            values,
            fields,
            *nullability,
        ),
        (dtype, Some(ScalarValue::Tuple(values))) => boxed_tuple(alloc, values, dtype),
        _ => boxed_scalar(alloc, scalar),
    }
}

/// The null of the type `Null` in a box.
#[inline(never)]
fn boxed_null(alloc: Global) -> Result<Box<Scalar>, AllocError>
    ensures { IfOk result (λ made. variant_tree made.value ≡ raw_variant null_type absent) }
{
    let dtype = DType::Null;
    new_box(alloc, Scalar { dtype, value: None })
}

/// A truth value with its type in a box.
#[inline(never)]
fn boxed_bool(
    alloc: Global,
    nullability: Nullability,
    truth: bool,
) -> Result<Box<Scalar>, AllocError>
    ensures { IfOk result (λ made. variant_tree made.value
        ≡ raw_variant (bool_type nullability) (raw_bool truth)) }
{
    let value = Some(ScalarValue::Bool(truth));
    let dtype = DType::Bool(nullability);
    new_box(alloc, Scalar { dtype, value })
}

/// An integer with its type in a box.
#[inline(never)]
fn boxed_number(
    alloc: Global,
    ptype: PType,
    nullability: Nullability,
    number: &PValue,
) -> Result<Box<Scalar>, AllocError>
    ensures { IfOk result (λ made. variant_tree made.value ≡ raw_variant (integer_type ptype nullability)
        (raw_integer (ptype_of number.now) (whole_of number.now))) }
{
    let value = Some(ScalarValue::Primitive(*number));
    let dtype = DType::Primitive(ptype, nullability);
    new_box(alloc, Scalar { dtype, value })
}

/// A copy of a string with its type in a box.
#[inline(never)]
fn boxed_text(
    alloc: Global,
    nullability: Nullability,
    text: &BufferString,
) -> Result<Box<Scalar>, AllocError>
    ensures { IfOk result (λ made. variant_tree made.value
        ≡ raw_variant (utf8_type nullability) (raw_text text.now)) }
{
    let value = Some(ScalarValue::Utf8(copy_text(text)?));
    let dtype = DType::Utf8(nullability);
    new_box(alloc, Scalar { dtype, value })
}

/// A copy of bytes with their type in a box.
#[inline(never)]
fn boxed_bytes(
    alloc: Global,
    nullability: Nullability,
    bytes: &ByteBuffer,
) -> Result<Box<Scalar>, AllocError>
    ensures { IfOk result (λ made. variant_tree made.value
        ≡ raw_variant (binary_type nullability) (raw_bytes bytes.now)) }
{
    let value = Some(ScalarValue::Binary(copy_bytes(bytes)?));
    let dtype = DType::Binary(nullability);
    new_box(alloc, Scalar { dtype, value })
}

/// A copy of the elements of a list with their type in a box.
#[cycle(copies)]
#[tactic(auto, using(crate::proofs::ValueSteps::shown, crate::proofs::CopySteps::levels))]
#[inline(never)]
fn boxed_elements(
    alloc: Global,
    values: &[Option<ScalarValue>],
    element: &DType,
    nullability: Nullability,
) -> Result<Box<Scalar>, AllocError>
    ensures { IfOk result (λ made. variant_tree made.value
        ≡ raw_variant (list_type (type_of element.now) nullability) (raw_tuple (value_trees values.now))) }
{
    let element = box_type(alloc, element)?;
    let parts = copy_tuple(alloc, values)?;
    boxed_parts(alloc, DType::List(element, nullability), parts)
}

/// A copy of a type in a box. A type of integers goes through no result.
#[inline(always)]
fn box_type(alloc: Global, dtype: &DType) -> Result<Box<DType>, AllocError>
    ensures { IfOk result (λ made. type_of made.value ≡ type_of dtype.now) }
{
    match dtype {
        DType::Primitive(ptype, nullability) => {
            new_box(alloc, DType::Primitive(*ptype, *nullability))
        }
        _ => new_box(alloc, dtype.clone(alloc).map_err(|_| AllocError)?),
    }
}

/// A copy of the fields of a struct with their type in a box. Its type is a count more, and no walk.
#[cycle(copies)]
#[tactic(auto, using(crate::proofs::ValueSteps::shown, crate::proofs::CopySteps::levels))]
#[inline(never)]
fn boxed_fields(
    alloc: Global,
    values: &[Option<ScalarValue>],
    fields: &StructFields,
    nullability: Nullability,
) -> Result<Box<Scalar>, AllocError>
    ensures { IfOk result (λ made. variant_tree made.value
        ≡ raw_variant (struct_type_of (fields_of fields.now) nullability) (raw_tuple (value_trees values.now))) }
{
    let fields = fields.clone(alloc).map_err(|_| AllocError)?;
    let parts = copy_tuple(alloc, values)?;
    boxed_parts(alloc, DType::Struct(fields, nullability), parts)
}

/// A copy of the parts with their type in a box.
#[cycle(copies)]
#[inline(never)]
fn boxed_tuple(
    alloc: Global,
    values: &[Option<ScalarValue>],
    dtype: &DType,
) -> Result<Box<Scalar>, AllocError>
    ensures { IfOk result (λ made. variant_tree made.value
        ≡ raw_variant (type_of dtype.now) (raw_tuple (value_trees values.now))) }
{
    let dtype = dtype.clone(alloc).map_err(|_| AllocError)?;
    let parts = copy_tuple(alloc, values)?;
    boxed_parts(alloc, dtype, parts)
}

/// The parts with their type in a box.
#[inline(always)]
fn boxed_parts(
    alloc: Global,
    dtype: DType,
    parts: Vec<Option<ScalarValue>>,
) -> Result<Box<Scalar>, AllocError>
    ensures { IfOk result (λ made. variant_tree made.value
        ≡ raw_variant (type_of dtype) (raw_tuple (value_trees parts.items))) }
{
    let value = Some(ScalarValue::Tuple(parts));
    new_box(alloc, Scalar { dtype, value })
}

/// A copy of any scalar in a box.
#[cycle(copies)]
#[inline(never)]
fn boxed_scalar(alloc: Global, scalar: &Scalar) -> Result<Box<Scalar>, AllocError>
    ensures { IfOk result (λ copy. variant_tree copy.value ≡ variant_tree scalar.now) }
{
    let scalar = copy_scalar(alloc, scalar).map_err(|_| AllocError)?;
    new_box(alloc, scalar)
}

/// A copy of the type and the raw value. A flat type takes no memory, nor does a truth value, an
/// integer or a null.
#[cycle(copies)]
pub(crate) fn copy_scalar(alloc: Global, scalar: &Scalar) -> Result<Scalar, VortexError>
    ensures { MatchResult result
        (λ copy. (type_of copy.dtype ≡ type_of scalar.now.dtype)
        × (raw_of copy.value ≡ raw_of scalar.now.value))
        (λ e. (e ≡ OutOfMemory)
        × ¬ (IsFlat (type_of scalar.now.dtype) × TakesNoMemory (raw_of scalar.now.value))) }
{
    let value = copy_optional(alloc, scalar.value.as_ref())?;
    with_type(scalar.dtype.clone(alloc), value)
}

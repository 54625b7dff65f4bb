//! Makers of lists and of lists of a fixed size.

ghost use Rattle.std.specs.Prelude.{◌≡◌, None, Some, length, IfOk, IfErr, MatchResult};
ghost use Rattle.vortex_value.specs.Words.{All, GivesOrNoMemory, IsMadeOf, IsValid, OutOfMemory, RefusesOrNoMemory};
ghost use Rattle.vortex_value.specs.Words.{child_trees, count_cause, fixed_size_list_type, list_cause, list_type};
ghost use Rattle.vortex_value.specs.Words.{no_raws, raw_of, raw_tuple, type_of, wrong_place};

use crate::scalars::Scalar;
use crate::values::ScalarValue;
use std::alloc::Global;
use vortex_dtype::{DType, Nullability, VortexError};

impl Scalar {
    /// The list of these children.
    ///
    /// `WrongChild` with the place of the first child whose type is not exactly the element type,
    /// nullability included; else `TooMany` if there are more than `u32::MAX`. Both come before any
    /// memory is asked for. Else `OutOfMemory` if there is no memory. Ports `Scalar::list`, which
    /// panics instead.
    pub fn list(
        alloc: Global,
        element_dtype: DType,
        children: Vec<Scalar>,
        nullability: Nullability,
    ) -> Result<Scalar, VortexError>
        requires { All IsValid children.items }
        ensures refused { RefusesOrNoMemory
            (list_cause (type_of element_dtype) children.items) result }
        ensures made { IfOk result
            (IsMadeOf (list_type (type_of element_dtype) nullability)
            (raw_tuple (child_trees children.items))) }
        ensures valid { IfOk result IsValid }
    {
        let (element, _, value) = list_parts(alloc, element_dtype, children)?;
        Ok(Scalar {
            dtype: DType::List(element, nullability),
            value,
        })
    }

    /// The list of these children, of a fixed size, which is their number.
    ///
    /// It refuses as `list` does. Ports `Scalar::fixed_size_list`, which panics instead.
    pub fn fixed_size_list(
        alloc: Global,
        element_dtype: DType,
        children: Vec<Scalar>,
        nullability: Nullability,
    ) -> Result<Scalar, VortexError>
        requires { All IsValid children.items }
        ensures refused { RefusesOrNoMemory
            (list_cause (type_of element_dtype) children.items) result }
        ensures made { IfOk result
            (IsMadeOf
            (fixed_size_list_type (type_of element_dtype) (length children.items) nullability)
            (raw_tuple (child_trees children.items))) }
        ensures valid { IfOk result IsValid }
    {
        let (element, size, value) = list_parts(alloc, element_dtype, children)?;
        Ok(Scalar {
            dtype: DType::FixedSizeList(element, size, nullability),
            value,
        })
    }

    /// The empty list.
    ///
    /// `OutOfMemory` if there is no memory for the type.
    pub fn list_empty(
        alloc: Global,
        element_dtype: DType,
        nullability: Nullability,
    ) -> Result<Scalar, VortexError>
        ensures refused { IfErr result (λ e. e ≡ OutOfMemory) }
        ensures made { IfOk result
            (IsMadeOf (list_type (type_of element_dtype) nullability) (raw_tuple no_raws)) }
        ensures valid { IfOk result IsValid }
    {
        Ok(Scalar {
            dtype: DType::List(Box::new(alloc, element_dtype)?, nullability),
            value: Some(ScalarValue::Tuple(Vec::new(alloc))),
        })
    }
}

/// What a list of these children holds: its element type, its size and its raw value.
///
/// What is not kept is dropped as a whole, by a call: at an exit its drop is written out.
fn list_parts(
    alloc: Global,
    element: DType,
    children: Vec<Scalar>,
) -> Result<(Box<DType>, u32, Option<ScalarValue>), VortexError>
    ensures refused { RefusesOrNoMemory (list_cause (type_of element) children.items) result }
    ensures made { IfOk result (λ parts. (type_of parts.0.value ≡ type_of element)
        × (parts.1 ≡ length children.items)
        × (raw_of parts.2 ≡ raw_tuple (child_trees children.items))) }
{
    let size = match list_size(&element, &children) {
        Ok(size) => size,
        Err(cause) => {
            drop((element, children));
            return Err(cause);
        }
    };
    let value = match tuple_of(alloc, children) {
        Ok(value) => value,
        Err(cause) => {
            drop(element);
            return Err(cause);
        }
    };
    match Box::new(alloc, element) {
        Ok(element) => Ok((element, size, value)),
        Err(cause) => {
            drop(value);
            Err(cause.into())
        }
    }
}

/// The size of the list of these children, or why they make no list of this element type.
fn list_size(element: &DType, children: &[Scalar]) -> Result<u32, VortexError>
    ensures { MatchResult result
        (λ size. (size ≡ length children.now)
        × (list_cause (type_of element.now) children.now ≡ None))
        (λ e. list_cause (type_of element.now) children.now ≡ Some e) }
{
    match wrong_place(element, children) {
        Some(index) => Err(VortexError::WrongChild { index }),
        None => as_size(children.len()),
    }
}

/// The place of the first child whose type is not exactly the expected one.
fn wrong_place(expected: &DType, children: &[Scalar]) -> Option<usize>
    ensures { result ≡ wrong_place (type_of expected.now) children.now }
{
    children.iter().position(|child| child.dtype != *expected)
}

/// The number of children as a list's size.
fn as_size(count: usize) -> Result<u32, VortexError>
    ensures { MatchResult result
        (λ size. (size ≡ count) × (count_cause count ≡ None))
        (λ e. count_cause count ≡ Some e) }
{
    if count > u32::MAX as usize {
        return Err(VortexError::TooMany);
    }
    Ok(count as u32)
}

/// The raw value with these children as its parts.
pub(super) fn tuple_of(
    alloc: Global,
    children: Vec<Scalar>,
) -> Result<Option<ScalarValue>, VortexError>
    ensures { GivesOrNoMemory
        (λ value. raw_of value ≡ raw_tuple (child_trees children.items)) result }
{
    let mut values = Vec::with_capacity(alloc, children.len())?;
    for child in children {
        values.push(child.into_value())?;
    }
    Ok(Some(ScalarValue::Tuple(values)))
}

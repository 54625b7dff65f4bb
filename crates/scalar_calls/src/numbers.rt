//! Calls of numbers: their ranges, arithmetic, and conversions to Rust types.

ghost use Rattle.scalar_calls.specs.Words.{AreOfOneType};

use crate::view_parts::of_kind;
use case_lines::{Answer, CallResult, Given, Input, Line, Named, or_none, validate};
use std::alloc::Global;
use vortex_dtype::{PType, VortexError};
use vortex_pvalue::laws::native_is_in_range;
use vortex_pvalue::{NativePType, NumericOperator, PValue};
use vortex_value::{Scalar, ScalarValue};
use vortex_views::{Downcast, PrimitiveScalar};

#[derive(Clone, Copy)]
enum Call {
    MinValue,
    MaxValue,
    IsInstanceOf,
}

const CALLS: [Named<Call, Input>; 3] = [
    ("min_value", Call::MinValue, &[Input::PType]),
    ("max_value", Call::MaxValue, &[Input::PType]),
    (
        "is_instance_of",
        Call::IsInstanceOf,
        &[Input::Integer, Input::PType],
    ),
];

#[derive(Clone, Copy)]
enum Conversion {
    /// `as_opt`.
    Opt,
    /// `as_`, which requires that the type has the number.
    As,
    /// `typed_value`, which requires that the view is of the type.
    Typed,
    /// `try_typed_value`, which refuses another type.
    TryTyped,
}

const CONVERSIONS: [Named<Conversion, Input>; 4] = [
    ("as", Conversion::Opt, &[Input::Scalar, Input::PType]),
    ("as_", Conversion::As, &[Input::Scalar, Input::PType]),
    (
        "typed_value",
        Conversion::Typed,
        &[Input::Scalar, Input::PType],
    ),
    (
        "try_typed_value",
        Conversion::TryTyped,
        &[Input::Scalar, Input::PType],
    ),
];

/// The arithmetic of two numbers, each call of it.
#[derive(Clone, Copy)]
enum Operation {
    /// `checked_add`, which answers `None` on overflow.
    Add,
    /// `checked_sub`.
    Sub,
    /// `checked_binary_numeric`, as the next three.
    Mul,
    Div,
    NumericAdd,
    NumericSub,
    /// The operator `+`, which requires that the sum fits.
    Plus,
    /// The operator `-`, which requires that the difference fits.
    Minus,
}

const OPERATIONS: [Named<Operation, Input>; 8] = [
    ("add", Operation::Add, &[Input::Scalar, Input::Second]),
    ("sub", Operation::Sub, &[Input::Scalar, Input::Second]),
    ("mul", Operation::Mul, &[Input::Scalar, Input::Second]),
    ("div", Operation::Div, &[Input::Scalar, Input::Second]),
    (
        "numeric_add",
        Operation::NumericAdd,
        &[Input::Scalar, Input::Second],
    ),
    (
        "numeric_sub",
        Operation::NumericSub,
        &[Input::Scalar, Input::Second],
    ),
    ("plus", Operation::Plus, &[Input::Scalar, Input::Second]),
    ("minus", Operation::Minus, &[Input::Scalar, Input::Second]),
];

/// Answers the line if it names one of these calls.
pub fn answer(line: &mut Line<'_>) {
    line.lend(&CALLS, answer_of);
    line.lend(&CONVERSIONS, in_ptype);
    line.lend(&OPERATIONS, arithmetic);
}

fn answer_of(_alloc: Global, call: Call, given: &Given) -> CallResult {
    Ok(match call {
        Call::MinValue => Answer::Raw(ScalarValue::Primitive(PValue::min_value(given.ptype))),
        Call::MaxValue => Answer::Raw(ScalarValue::Primitive(PValue::max_value(given.ptype))),
        Call::IsInstanceOf => Answer::Truth(given.integer.is_instance_of(&given.ptype)),
    })
}

fn in_ptype(alloc: Global, conversion: Conversion, given: &Given) -> CallResult {
    validate(alloc, &given.scalar)?;
    let view = of_kind(given.scalar.as_primitive_opt())?;
    as_ptype(conversion, view, given.ptype)
}

fn as_ptype(conversion: Conversion, view: PrimitiveScalar<'_>, ptype: PType) -> CallResult {
    match ptype {
        PType::U8 => as_number::<u8>(conversion, view),
        PType::U16 => as_number::<u16>(conversion, view),
        PType::U32 => as_number::<u32>(conversion, view),
        PType::U64 => as_number::<u64>(conversion, view),
        PType::I8 => as_number::<i8>(conversion, view),
        PType::I16 => as_number::<i16>(conversion, view),
        PType::I32 => as_number::<i32>(conversion, view),
        PType::I64 => as_number::<i64>(conversion, view),
    }
}

fn as_number<T: NativePType>(conversion: Conversion, view: PrimitiveScalar<'_>) -> CallResult {
    Ok(match conversion {
        Conversion::Typed if view.ptype() == T::PTYPE => native(view.typed_value::<T>()),
        Conversion::Typed => Answer::Unmet,
        Conversion::TryTyped => native(view.try_typed_value::<T>()?),
        Conversion::As => as_known::<T>(view),
        Conversion::Opt => or_none(view.as_opt::<T>().map(native)),
    })
}

/// The number by `as_`, if the type has it.
fn as_known<T: NativePType>(view: PrimitiveScalar<'_>) -> Answer {
    match view.as_opt::<T>() {
        Some(Some(number)) => {
            native_is_in_range(number);
            native(view.as_::<T>())
        }
        Some(None) => native(view.as_::<T>()),
        None => Answer::Unmet,
    }
}

fn native<T: NativePType>(number: Option<T>) -> Answer {
    match number {
        Some(number) => Answer::Integer(number.into_pvalue()),
        None => Answer::Null,
    }
}

fn arithmetic(alloc: Global, operation: Operation, given: &Given) -> CallResult {
    let first = &given.scalar;
    let second = &given.second;
    validate(alloc, first)?;
    validate(alloc, second)?;
    match (first.as_primitive_opt(), second.as_primitive_opt()) {
        (Some(x), Some(y)) if first.dtype().eq_ignore_nullability(second.dtype()) => {
            Ok(operation_answer(operation, x, y))
        }
        (Some(_), Some(_)) => Ok(Answer::Unmet),
        _ => Err(VortexError::WrongKind),
    }
}

/// The number that an operation gives. The operators `+` and `-` are not called if it does not fit.
fn operation_answer(operation: Operation, x: PrimitiveScalar<'_>, y: PrimitiveScalar<'_>) -> Answer
    requires { AreOfOneType x y }
{
    let number = match operation {
        Operation::Add => x.checked_add(&y),
        Operation::Sub => x.checked_sub(&y),
        Operation::Mul => x.checked_binary_numeric(&y, NumericOperator::Mul),
        Operation::Div => x.checked_binary_numeric(&y, NumericOperator::Div),
        Operation::NumericAdd => x.checked_binary_numeric(&y, NumericOperator::Add),
        Operation::NumericSub => x.checked_binary_numeric(&y, NumericOperator::Sub),
        Operation::Plus if x.checked_add(&y).is_some() => Some(x + y),
        Operation::Minus if x.checked_sub(&y).is_some() => Some(x - y),
        Operation::Plus | Operation::Minus => return Answer::Unmet,
    };
    or_none(number.map(Scalar::from).map(Answer::Scalar))
}

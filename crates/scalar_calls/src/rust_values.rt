//! Calls that convert scalars to Rust values, and Rust values to scalars.

use case_lines::{
    Answer, CallResult, Given, Input, Line, Named, Output, RustLeaf, RustType, WriteAnswer,
    buffer_bytes, buffer_text, take_scalar,
};
use std::alloc::Global;
use vortex_array::{FromScalar, IntoScalar};
use vortex_dtype::{BufferString, ByteBuffer, PType, VortexError};
use vortex_pvalue::NativePType;
use vortex_value::{Scalar, ScalarRef, ScalarValue};

#[derive(Clone, Copy)]
enum Call {
    Take,
    Give,
    TryFrom,
    GiveLent,
    GiveOptional,
}

const CALLS: [Named<Call, Input>; 5] = [
    ("take", Call::Take, &[Input::RustType, Input::Scalar]),
    ("give", Call::Give, &[Input::RustType, Input::Scalar]),
    ("try_from", Call::TryFrom, &[Input::RustType, Input::Scalar]),
    ("give_lent", Call::GiveLent, &[Input::Value]),
    ("give_optional", Call::GiveOptional, &[Input::Value]),
];

const TRY_FROM_OWNED: [Named<(), Input>; 1] = [(
    "try_from_owned",
    (),
    &[Input::RustType, Input::Scalar],
)];

/// Answers the line if it names one of these calls.
pub fn answer(line: &mut Line<'_>) {
    line.lend(&CALLS, answer_of);
    line.give(&TRY_FROM_OWNED, try_from_owned);
}

fn answer_of(alloc: Global, call: Call, given: &Given) -> CallResult {
    match call {
        Call::Take => through_traits(alloc, false, given.rust, &given.scalar),
        Call::Give => through_traits(alloc, true, given.rust, &given.scalar),
        Call::TryFrom => try_from(alloc, given.rust, &given.scalar),
        Call::GiveLent => give_lent(alloc, given.value.as_ref()),
        Call::GiveOptional => give_optional(alloc, given.value.as_ref()),
    }
}

#[derive(Clone, Copy)]
struct Asked {
    /// Whether the Rust value is made a scalar again.
    gives: bool,
    /// How deep the vectors of the Rust type nest.
    vectors: u32,
}

/// What `FromScalar` answers, or if it `gives`, the scalar that `IntoScalar` makes of that.
fn through_traits(alloc: Global, gives: bool, rust: RustType, scalar: &Scalar) -> CallResult {
    let asked = Asked {
        gives,
        vectors: rust.vectors,
    };
    match (rust.leaf, rust.is_optional) {
        (RustLeaf::Bool, false) => nested::<bool>(alloc, asked, scalar),
        (RustLeaf::Bool, true) => nested::<Option<bool>>(alloc, asked, scalar),
        (RustLeaf::Number(ptype), false) => number(alloc, asked, scalar, ptype),
        (RustLeaf::Number(ptype), true) => optional_number(alloc, asked, scalar, ptype),
        (RustLeaf::Usize, false) => nested::<usize>(alloc, asked, scalar),
        (RustLeaf::Usize, true) => nested::<Option<usize>>(alloc, asked, scalar),
        (RustLeaf::Text, false) => nested::<String>(alloc, asked, scalar),
        (RustLeaf::Buffer, false) => nested::<BufferString>(alloc, asked, scalar),
        (RustLeaf::Text | RustLeaf::Buffer, true) => {
            nested::<Option<BufferString>>(alloc, asked, scalar)
        }
        (RustLeaf::Bytes, false) => nested::<ByteBuffer>(alloc, asked, scalar),
        (RustLeaf::Bytes, true) => nested::<Option<ByteBuffer>>(alloc, asked, scalar),
    }
}

fn number(alloc: Global, asked: Asked, scalar: &Scalar, ptype: PType) -> CallResult {
    match ptype {
        PType::U8 => nested::<u8>(alloc, asked, scalar),
        PType::U16 => nested::<u16>(alloc, asked, scalar),
        PType::U32 => nested::<u32>(alloc, asked, scalar),
        PType::U64 => nested::<u64>(alloc, asked, scalar),
        PType::I8 => nested::<i8>(alloc, asked, scalar),
        PType::I16 => nested::<i16>(alloc, asked, scalar),
        PType::I32 => nested::<i32>(alloc, asked, scalar),
        PType::I64 => nested::<i64>(alloc, asked, scalar),
    }
}

fn optional_number(alloc: Global, asked: Asked, scalar: &Scalar, ptype: PType) -> CallResult {
    match ptype {
        PType::U8 => nested::<Option<u8>>(alloc, asked, scalar),
        PType::U16 => nested::<Option<u16>>(alloc, asked, scalar),
        PType::U32 => nested::<Option<u32>>(alloc, asked, scalar),
        PType::U64 => nested::<Option<u64>>(alloc, asked, scalar),
        PType::I8 => nested::<Option<i8>>(alloc, asked, scalar),
        PType::I16 => nested::<Option<i16>>(alloc, asked, scalar),
        PType::I32 => nested::<Option<i32>>(alloc, asked, scalar),
        PType::I64 => nested::<Option<i64>>(alloc, asked, scalar),
    }
}

/// The call's answer at as many vectors around `T` as are asked for, at most `MOST_VECTORS`.
fn nested<T: FromScalar + IntoScalar + Answers + Drop>(
    alloc: Global,
    asked: Asked,
    scalar: &Scalar,
) -> CallResult {
    let gives = asked.gives;
    match asked.vectors {
        0 => taken::<T>(alloc, gives, scalar),
        1 => taken::<Vec<T>>(alloc, gives, scalar),
        2 => taken::<Vec<Vec<T>>>(alloc, gives, scalar),
        _ => taken::<Vec<Vec<Vec<T>>>>(alloc, gives, scalar),
    }
}

fn taken<T: FromScalar + IntoScalar + Answers + Drop>(
    alloc: Global,
    gives: bool,
    scalar: &Scalar,
) -> CallResult {
    let value = T::try_from_scalar(alloc, ScalarRef::of(scalar))?;
    if gives {
        Ok(Answer::Scalar(value.try_into_scalar(alloc)?))
    } else {
        value.answer(alloc)
    }
}

/// The answer of a conversion.
fn converted<T: Answers>(alloc: Global, outcome: Result<T, VortexError>) -> CallResult {
    outcome?.answer(alloc)
}

/// What `TryFrom<&Scalar>` answers. It has no `String` and no vectors.
fn try_from(alloc: Global, rust: RustType, scalar: &Scalar) -> CallResult {
    match (rust.vectors, rust.leaf, rust.is_optional) {
        (0, RustLeaf::Bool, false) => converted(alloc, bool::try_from(scalar)),
        (0, RustLeaf::Bool, true) => converted(alloc, Option::<bool>::try_from(scalar)),
        (0, RustLeaf::Number(ptype), false) => try_number(alloc, scalar, ptype),
        (0, RustLeaf::Number(ptype), true) => try_optional_number(alloc, scalar, ptype),
        (0, RustLeaf::Usize, false) => converted(alloc, usize::try_from(scalar)),
        (0, RustLeaf::Usize, true) => converted(alloc, Option::<usize>::try_from(scalar)),
        (0, RustLeaf::Buffer, false) => converted(alloc, BufferString::try_from(scalar)),
        (0, RustLeaf::Buffer, true) => converted(alloc, Option::<BufferString>::try_from(scalar)),
        (0, RustLeaf::Bytes, false) => converted(alloc, ByteBuffer::try_from(scalar)),
        (0, RustLeaf::Bytes, true) => converted(alloc, Option::<ByteBuffer>::try_from(scalar)),
        _ => Ok(Answer::Unmet),
    }
}

fn try_number(alloc: Global, scalar: &Scalar, ptype: PType) -> CallResult {
    match ptype {
        PType::U8 => converted(alloc, u8::try_from(scalar)),
        PType::U16 => converted(alloc, u16::try_from(scalar)),
        PType::U32 => converted(alloc, u32::try_from(scalar)),
        PType::U64 => converted(alloc, u64::try_from(scalar)),
        PType::I8 => converted(alloc, i8::try_from(scalar)),
        PType::I16 => converted(alloc, i16::try_from(scalar)),
        PType::I32 => converted(alloc, i32::try_from(scalar)),
        PType::I64 => converted(alloc, i64::try_from(scalar)),
    }
}

fn try_optional_number(alloc: Global, scalar: &Scalar, ptype: PType) -> CallResult {
    match ptype {
        PType::U8 => converted(alloc, Option::<u8>::try_from(scalar)),
        PType::U16 => converted(alloc, Option::<u16>::try_from(scalar)),
        PType::U32 => converted(alloc, Option::<u32>::try_from(scalar)),
        PType::U64 => converted(alloc, Option::<u64>::try_from(scalar)),
        PType::I8 => converted(alloc, Option::<i8>::try_from(scalar)),
        PType::I16 => converted(alloc, Option::<i16>::try_from(scalar)),
        PType::I32 => converted(alloc, Option::<i32>::try_from(scalar)),
        PType::I64 => converted(alloc, Option::<i64>::try_from(scalar)),
    }
}

/// What `TryFrom<Scalar>` answers. It has booleans and buffers alone.
fn try_from_owned(alloc: Global, _call: (), given: &mut Given) -> CallResult {
    let rust = given.rust;
    let scalar = take_scalar(&mut given.scalar);
    match (rust.vectors, rust.leaf, rust.is_optional) {
        (0, RustLeaf::Bool, false) => converted(alloc, bool::try_from(scalar)),
        (0, RustLeaf::Bool, true) => converted(alloc, Option::<bool>::try_from(scalar)),
        (0, RustLeaf::Buffer, false) => converted(alloc, BufferString::try_from(scalar)),
        (0, RustLeaf::Buffer, true) => converted(alloc, Option::<BufferString>::try_from(scalar)),
        (0, RustLeaf::Bytes, false) => converted(alloc, ByteBuffer::try_from(scalar)),
        (0, RustLeaf::Bytes, true) => converted(alloc, Option::<ByteBuffer>::try_from(scalar)),
        _ => {
            drop(scalar);
            Ok(Answer::Unmet)
        }
    }
}

/// The scalar of a lent string, or of lent bytes.
fn give_lent(alloc: Global, value: Option<&ScalarValue>) -> CallResult {
    match value {
        Some(ScalarValue::Utf8(text)) => given(alloc, text.as_str()),
        Some(ScalarValue::Binary(bytes)) => given(alloc, bytes.as_slice()),
        _ => Err(VortexError::WrongKind),
    }
}

/// The scalar of an optional lent string, or of optional lent bytes; a null stands for no string.
fn give_optional(alloc: Global, value: Option<&ScalarValue>) -> CallResult {
    match value {
        Some(ScalarValue::Utf8(text)) => given(alloc, Some(text.as_str())),
        Some(ScalarValue::Binary(bytes)) => given(alloc, Some(bytes.as_slice())),
        None => given(alloc, None::<&str>),
        _ => Err(VortexError::WrongKind),
    }
}

fn given<T: IntoScalar>(alloc: Global, value: T) -> CallResult {
    Ok(Answer::Scalar(value.try_into_scalar(alloc)?))
}

/// A Rust value that can be an answer.
trait Answers {
    /// The value, without a number's `PType`; `None` is `none`.
    fn answer(self, alloc: Global) -> CallResult;
}

impl Answers for bool {
    fn answer(self, _alloc: Global) -> CallResult {
        Ok(Answer::Truth(self))
    }
}

/// The eight integers. An impl for all of another crate's `NativePType` would clash with the one for
/// `bool`.
trait Whole: NativePType {}

impl Whole for u8 {}

impl Whole for u16 {}

impl Whole for u32 {}

impl Whole for u64 {}

impl Whole for i8 {}

impl Whole for i16 {}

impl Whole for i32 {}

impl Whole for i64 {}

impl<T: Whole> Answers for T {
    fn answer(self, _alloc: Global) -> CallResult {
        Ok(Answer::Integer(self.into_pvalue()))
    }
}

impl Answers for usize {
    fn answer(self, _alloc: Global) -> CallResult {
        Ok(Answer::Number(self))
    }
}

impl Answers for String {
    fn answer(self, _alloc: Global) -> CallResult {
        Ok(Answer::Text(self))
    }
}

impl Answers for BufferString {
    fn answer(self, _alloc: Global) -> CallResult {
        Ok(buffer_text(self))
    }
}

impl Answers for ByteBuffer {
    fn answer(self, _alloc: Global) -> CallResult {
        Ok(buffer_bytes(self))
    }
}

impl<T: Answers> Answers for Option<T> {
    fn answer(self, alloc: Global) -> CallResult {
        match self {
            Some(value) => value.answer(alloc),
            None => Ok(Answer::None),
        }
    }
}

/// Writes the answer at once, which takes memory.
impl<T: Answers + Drop> Answers for Vec<T> {
    fn answer(self, alloc: Global) -> CallResult {
        let mut out = Output::new(alloc);
        out.char('[');
        for (place, value) in self.into_iter().enumerate() {
            out.comma(place);
            push_answer(&mut out, value.answer(alloc));
        }
        out.char(']');
        Ok(Answer::Written(out.into_text()?))
    }
}

/// Writes the answer of an item. `OutOfMemory` is its only refusal, and the output remembers that.
fn push_answer(out: &mut Output, outcome: CallResult) {
    match &outcome {
        Ok(answer) => answer.write_answer(out),
        Err(_) => out.cut(),
    }
    drop(outcome);
}

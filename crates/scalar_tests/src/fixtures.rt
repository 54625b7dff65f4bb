//! Types and raw values for tests.

ghost use Rattle.std.specs.Prelude.{◌≡◌, length};

use std::process::Abort;
use vortex_dtype::Nullability::{NonNullable, Nullable};
use vortex_dtype::{
    BufferString, ByteBuffer, DType, FieldName, PType, StructFields, UnionVariants,
};
use vortex_pvalue::PValue;
use vortex_value::{Scalar, ScalarValue, UnionValue};

/// A raw value; `None` is a null.
pub type Raw = Option<ScalarValue>;

/// The type of 32-bit integers.
pub const I32: DType = DType::Primitive(PType::I32, NonNullable);

/// A raw 32-bit integer.
pub fn integer(number: i32) -> Raw {
    Some(ScalarValue::Primitive(PValue::I32(number)))
}

pub fn text_buffer(rt: &(impl AllocGlobal + Abort), text: &str) -> BufferString
    ensures { result ≡ text.now }
{
    BufferString::from_str(rt.alloc(), text).expect(rt, "a string")
}

pub fn byte_buffer(rt: &(impl AllocGlobal + Abort), bytes: &[u8]) -> ByteBuffer
    ensures { result ≡ bytes.now }
{
    ByteBuffer::from_slice(rt.alloc(), bytes).expect(rt, "bytes")
}

/// A raw string.
pub fn text(rt: &(impl AllocGlobal + Abort), text: &str) -> Raw {
    Some(ScalarValue::Utf8(text_buffer(rt, text)))
}

/// Raw bytes.
pub fn bytes(rt: &(impl AllocGlobal + Abort), bytes: &[u8]) -> Raw {
    Some(ScalarValue::Binary(byte_buffer(rt, bytes)))
}

/// The tuple of these parts.
pub fn tuple<const N: usize>(rt: &(impl AllocGlobal + Abort), parts: [Raw; N]) -> Raw {
    let parts = Vec::from_array(rt.alloc(), parts).expect(rt, "a tuple");
    Some(ScalarValue::Tuple(parts))
}

/// A union's raw value.
pub fn union(rt: &(impl AllocGlobal + Abort), id: u8, child: Raw) -> Raw {
    let value = UnionValue::new(rt.alloc(), id, child).expect(rt, "a union");
    Some(ScalarValue::Union(value))
}

/// A variant's raw value. The scalar inside need not be valid.
pub fn variant(rt: &(impl AllocGlobal + Abort), dtype: DType, value: Raw) -> Raw {
    let scalar = Box::new(rt.alloc(), Scalar { dtype, value }).expect(rt, "a variant");
    Some(ScalarValue::Variant(scalar))
}

/// The list type over an element type.
pub fn list(rt: &(impl AllocGlobal + Abort), element: DType) -> DType {
    let element = Box::new(rt.alloc(), element).expect(rt, "a list");
    DType::List(element, NonNullable)
}

/// The map type from integers to these values.
pub fn map(rt: &(impl AllocGlobal + Abort), value: DType) -> DType {
    let made = DType::map(rt.alloc(), I32, value, false, NonNullable);
    made.expect(rt, "a map")
}

fn name(rt: &(impl AllocGlobal + Abort), text: &str) -> FieldName {
    FieldName::new(text_buffer(rt, text))
}

fn two_names(rt: &(impl AllocGlobal + Abort), first: &str, second: &str) -> Vec<FieldName>
    ensures { length result.items ≡ 2 }
{
    vec![in rt.alloc(); name(rt, first), name(rt, second)].expect(rt, "names")
}

fn two_types(rt: &(impl AllocGlobal + Abort), first: DType, second: DType) -> Vec<DType>
    ensures { length result.items ≡ 2 }
{
    vec![in rt.alloc(); first, second].expect(rt, "types")
}

/// The struct type of the fields `a` and `b`.
pub fn struct_of_two(rt: &(impl AllocGlobal + Abort), first: DType, second: DType) -> DType {
    let names = two_names(rt, "a", "b");
    let dtypes = two_types(rt, first, second);
    let fields = StructFields::new(rt.alloc(), names, dtypes).expect(rt, "fields");
    DType::Struct(fields, NonNullable)
}

/// The nullable union type of `int` (id 5, nullable integers) and `string` (id 9).
pub fn union_of_two(rt: &(impl AllocGlobal + Abort)) -> DType {
    let names = two_names(rt, "int", "string");
    let int = DType::Primitive(PType::I32, Nullable);
    let dtypes = two_types(rt, int, DType::Utf8(NonNullable));
    let ids = Vec::from_slice(rt.alloc(), &[5, 9]).expect(rt, "ids");
    let variants = UnionVariants::try_new(rt.alloc(), names, dtypes, ids).expect(rt, "variants");
    DType::Union(variants, Nullable)
}

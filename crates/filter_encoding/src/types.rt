//! The bytes of types.

ghost use Rattle.std.specs.Prelude.{◌≡◌, ◌+◌, IfSome, MatchOption, length, map, option_map};
ghost use Rattle.std.specs.List.{AllByRecursion};
ghost use Rattle.filter_encoding.specs.Words.{AreListed, AreSo, HasByte, IsPlain, Reads, ReadsByte, ReadsType, Writes};
ghost use Rattle.filter_encoding.specs.Words.{byte_string, capped, each_bytes, integer_code, left, listed, null_code};
ghost use Rattle.filter_encoding.specs.Words.{plain_at, type_at, type_byte, type_bytes, type_of};

use crate::error::FilterEncodingError;
use crate::extensions::{
    EXTENSION, append_extension, extension_in, extension_length, read_extension,
};
use crate::places::{append_place, read_place};
use crate::reader::{FilterDecodeError, Reader};
use crate::writing::append_byte;
use std::alloc::Global;
use vortex_dtype::{DType, Nullability, PType};

/// The byte of the type of nulls.
const NULL: u8 = 29;
/// What is added to the code of a type that takes a null.
const NULLABLE: u8 = 16;

/// The code of an integer type.
fn integer_code(ptype: PType) -> u8
    ensures { result ≡ integer_code ptype }
{
    match ptype {
        PType::U8 => 0,
        PType::U16 => 1,
        PType::U32 => 2,
        PType::U64 => 3,
        PType::I8 => 4,
        PType::I16 => 5,
        PType::I32 => 6,
        PType::I64 => 7,
    }
}

/// What is added to the code of a type.
fn null_code(nullability: Nullability) -> u8
    ensures { result ≡ null_code nullability }
{
    match nullability {
        Nullability::NonNullable => 0,
        Nullability::Nullable => NULLABLE,
    }
}

/// The byte of a type. `None` exactly if it has none.
#[tactic(auto, using(crate::proofs::TypeLaws::levels))]
fn byte_of(dtype: &DType) -> Option<u8>
    ensures { MatchOption result (¬ (HasByte (type_of dtype.now)))
        (λ byte. HasByte (type_of dtype.now) × (byte ≡ type_byte (type_of dtype.now))) }
{
    match dtype {
        DType::Null => Some(NULL),
        DType::Primitive(ptype, nullability) => {
            Some(integer_code(*ptype) + null_code(*nullability))
        }
        DType::Bool(nullability) => Some(8 + null_code(*nullability)),
        DType::Utf8(nullability) => Some(9 + null_code(*nullability)),
        DType::Binary(nullability) => Some(11 + null_code(*nullability)),
        _ => None,
    }
}

/// The type with this code, other than that of nulls.
#[tactic(auto, using(crate::proofs::TypeLaws::levels))]
fn plain_from(code: u8, nullability: Nullability) -> Option<DType>
    ensures tree { option_map type_of result ≡ plain_at code nullability }
    ensures byte { IfSome result (λ dtype. HasByte (type_of dtype)
        × (type_byte (type_of dtype) ≡ code + null_code nullability)) }
{
    match code {
        0 => Some(DType::Primitive(PType::U8, nullability)),
        1 => Some(DType::Primitive(PType::U16, nullability)),
        2 => Some(DType::Primitive(PType::U32, nullability)),
        3 => Some(DType::Primitive(PType::U64, nullability)),
        4 => Some(DType::Primitive(PType::I8, nullability)),
        5 => Some(DType::Primitive(PType::I16, nullability)),
        6 => Some(DType::Primitive(PType::I32, nullability)),
        7 => Some(DType::Primitive(PType::I64, nullability)),
        8 => Some(DType::Bool(nullability)),
        9 => Some(DType::Utf8(nullability)),
        11 => Some(DType::Binary(nullability)),
        _ => None,
    }
}

/// The type with this byte.
fn type_from(byte: u8) -> Option<DType>
    ensures tree { option_map type_of result ≡ type_at byte }
    ensures byte { IfSome result (λ dtype. HasByte (type_of dtype)
        × (type_byte (type_of dtype) ≡ byte)) }
{
    if byte == NULL {
        Some(DType::Null)
    } else if byte < NULLABLE {
        plain_from(byte, Nullability::NonNullable)
    } else {
        plain_from(byte - NULLABLE, Nullability::Nullable)
    }
}

/// The next type.
pub(crate) fn read_type(alloc: Global, reader: &mut Reader<'_>) -> Result<DType, FilterDecodeError>
    ensures { ReadsType result (left reader.old) (left reader.new) }
{
    if reader.takes(EXTENSION) {
        read_extension(alloc, reader)
    } else {
        read_byte_type(reader)
    }
}

/// The next type, by its byte.
pub(crate) fn read_byte_type(reader: &mut Reader<'_>) -> Result<DType, FilterDecodeError>
    ensures { ReadsByte result (left reader.old) (left reader.new) }
{
    let Some(byte) = reader.first() else {
        return Err(FilterDecodeError::Bad);
    };
    let Some(dtype) = type_from(byte) else {
        return Err(FilterDecodeError::Bad);
    };
    reader.advance(1);
    Ok(dtype)
}

/// So many types.
fn read_so_many(
    alloc: Global,
    count: usize,
    reader: &mut Reader<'_>,
) -> Result<Vec<DType>, FilterDecodeError>
    ensures { Reads (each_bytes type_bytes) (AreSo count IsPlain) (λ v. map type_of v.items)
        result (left reader.old) (left reader.new) }
{
    let mut dtypes = Vec::new(alloc);
    for taken in 0..count {
        let dtype = read_type(alloc, reader)?;
        dtypes.push(dtype)?;
    }
    Ok(dtypes)
}

/// The next types: how many there are, and each.
pub(crate) fn read_types(
    alloc: Global,
    reader: &mut Reader<'_>,
) -> Result<Vec<DType>, FilterDecodeError>
    ensures { Reads (listed type_bytes) (AreListed IsPlain) (λ v. map type_of v.items)
        result (left reader.old) (left reader.new) }
{
    let count = read_place(reader)?;
    read_so_many(alloc, count, reader)
}

/// Appends a type.
pub(crate) fn append_type(dtype: &DType, out: &mut Vec<u8>) -> Result<(), FilterEncodingError>
    ensures { Writes (IsPlain (type_of dtype.now)) (type_bytes (type_of dtype.now))
        result out.old.items out.new.items }
{
    match extension_in(dtype) {
        Some(extension) => append_extension(extension, out),
        None => append_byte_type(dtype, out),
    }
}

/// Appends the byte of a type.
pub(crate) fn append_byte_type(dtype: &DType, out: &mut Vec<u8>) -> Result<(), FilterEncodingError>
    ensures { Writes (HasByte (type_of dtype.now)) (byte_string (type_of dtype.now))
        result out.old.items out.new.items }
{
    match byte_of(dtype) {
        Some(byte) => append_byte(byte, out),
        None => Err(FilterEncodingError::NoEncoding),
    }
}

/// How many bytes a type has.
pub(crate) fn type_length(dtype: &DType) -> usize
    ensures { result ≡ capped (length (type_bytes (type_of dtype.now))) }
{
    match extension_in(dtype) {
        Some(extension) => extension_length(extension),
        None => 1,
    }
}

/// How many bytes there are of how many types there are, and of each.
pub(crate) fn types_length(dtypes: &[DType]) -> usize
    ensures { result ≡ capped (length (listed type_bytes (map type_of dtypes.now))) }
{
    let mut total = 8usize;
    for dtype in dtypes {
        total = total.saturating_add(type_length(dtype));
    }
    total
}

/// Appends how many types there are, and each.
pub(crate) fn append_types(dtypes: &[DType], out: &mut Vec<u8>) -> Result<(), FilterEncodingError>
    ensures { Writes (AreListed IsPlain (map type_of dtypes.now))
        (listed type_bytes (map type_of dtypes.now)) result out.old.items out.new.items }
{
    append_place(dtypes.len(), out)?;
    append_each(dtypes, out)
}

/// Appends each type.
fn append_each(dtypes: &[DType], out: &mut Vec<u8>) -> Result<(), FilterEncodingError>
    ensures { Writes (AllByRecursion IsPlain (map type_of dtypes.now))
        (each_bytes type_bytes (map type_of dtypes.now)) result out.old.items out.new.items }
{
    for dtype in dtypes {
        append_type(dtype, out)?;
    }
    Ok(())
}

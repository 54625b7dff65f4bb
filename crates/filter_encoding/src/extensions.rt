//! The bytes of extensions: an id and metadata by their keys, and what stores the values.

ghost use Rattle.std.specs.Prelude.{◌≡◌, ◌≢◌, ◌∷◌, ℕ, List, MatchOption, length};
ghost use Rattle.vortex_dtype.specs.TypeTree.{TypeTree, binary_type, extension_type, utf8_type};
ghost use Rattle.vortex_dtype.specs.Words.{ext_of};
ghost use Rattle.vortex_dtype.specs.declared.nullability.Nullability.TheVariants as Nullabilities;
ghost use Rattle.vortex_row.specs.Decoded.{IsValueOf};
ghost use Rattle.vortex_value.specs.Values.Content.{string, text};
ghost use Rattle.vortex_value.specs.Values.RawTree.{raw_bytes, raw_text};
ghost use Rattle.vortex_value.specs.Values.Scalars.{scalar_raw};
ghost use Rattle.filter_encoding.specs.Words.{Appends, IsHeld, IsPlainExtension, Reads, ReadsBytes, ReadsText, Writes};
ghost use Rattle.filter_encoding.specs.Words.{IsPlain, capped, extension_bytes, key, left, type_bytes, type_of};

use crate::error::FilterEncodingError;
use crate::literals::{append_value, read_value};
use crate::reader::{FilterDecodeError, Reader};
use crate::types::{append_byte_type, read_byte_type};
use crate::writing::append_byte;
use std::alloc::Global;
use vortex_dtype::{BufferString, ByteBuffer, DType, ExtDType, Nullability};
use vortex_row::{PlainValue, plain_key_length};
use vortex_value::{Scalar, ScalarValue};

/// The first byte of an extension.
pub(crate) const EXTENSION: u8 = 32;

/// The extension that a type is, if it is one.
#[tactic(auto, using(crate::proofs::TypeLaws::levels))]
pub(crate) fn extension_in(dtype: &DType) -> Option<&ExtDType>
    ensures { MatchOption result
        ((id metadata : List ℕ) (storage : TypeTree) → type_of dtype.now ≢ extension_type id metadata storage)
        (λ e. type_of dtype.now ≡ extension_type (ext_of e.now).id (ext_of e.now).metadata (ext_of e.now).storage) }
{
    match dtype {
        DType::Extension(extension) => Some(extension),
        _ => None,
    }
}

/// The next extension, after its first byte.
pub(crate) fn read_extension(
    alloc: Global,
    reader: &mut Reader<'_>,
) -> Result<DType, FilterDecodeError>
    ensures { Reads type_bytes IsPlain type_of result (32 ∷ left reader.old) (left reader.new) }
{
    let id = read_text(alloc, reader)?;
    let metadata = read_buffer(alloc, reader)?;
    let storage = read_byte_type(reader)?;
    match ExtDType::new(alloc, id, metadata, storage) {
        Ok(extension) => Ok(DType::Extension(extension)),
        Err(_) => Err(FilterDecodeError::NoMemory),
    }
}

/// The next string, by its key.
fn read_text(alloc: Global, reader: &mut Reader<'_>) -> Result<BufferString, FilterDecodeError>
    ensures { ReadsText result (left reader.old) (left reader.new) }
{
    match read_value(alloc, &DType::Utf8(Nullability::NonNullable), reader) {
        Ok(scalar) => Ok(text_in(scalar)),
        Err(fault) => Err(fault),
    }
}

/// The string that a scalar is.
fn text_in(scalar: Scalar) -> BufferString
    requires { IsValueOf (utf8_type Nullabilities.NonNullable) (scalar_raw scalar) }
    ensures { raw_text result ≡ scalar_raw scalar }
{
    match scalar.into_value() {
        Some(ScalarValue::Utf8(text)) => text,
        _ => unreachable!(),
    }
}

/// The next bytes, by their key.
fn read_buffer(alloc: Global, reader: &mut Reader<'_>) -> Result<ByteBuffer, FilterDecodeError>
    ensures { ReadsBytes result (left reader.old) (left reader.new) }
{
    match read_value(alloc, &DType::Binary(Nullability::NonNullable), reader) {
        Ok(scalar) => Ok(buffer_in(scalar)),
        Err(fault) => Err(fault),
    }
}

/// The bytes that a scalar is.
fn buffer_in(scalar: Scalar) -> ByteBuffer
    requires { IsValueOf (binary_type Nullabilities.NonNullable) (scalar_raw scalar) }
    ensures { raw_bytes result ≡ scalar_raw scalar }
{
    match scalar.into_value() {
        Some(ScalarValue::Binary(bytes)) => bytes,
        _ => unreachable!(),
    }
}

/// How many bytes an extension has.
pub(crate) fn extension_length(extension: &ExtDType) -> usize
    ensures { result ≡ capped (length (extension_bytes (ext_of extension.now).id
        (ext_of extension.now).metadata (ext_of extension.now).storage)) }
{
    let id = plain_key_length(PlainValue::Utf8(extension.id().as_str()));
    let metadata = plain_key_length(PlainValue::Binary(extension.metadata().as_slice()));
    id.saturating_add(metadata).saturating_add(2)
}

/// Appends an extension.
pub(crate) fn append_extension(
    extension: &ExtDType,
    out: &mut Vec<u8>,
) -> Result<(), FilterEncodingError>
    ensures { Writes (IsPlainExtension (ext_of extension.now).id (ext_of extension.now).metadata
        (ext_of extension.now).storage)
        (extension_bytes (ext_of extension.now).id (ext_of extension.now).metadata
        (ext_of extension.now).storage)
        result out.old.items out.new.items }
{
    append_byte(EXTENSION, out)?;
    append_text(extension.id(), out)?;
    append_buffer(extension.metadata(), out)?;
    append_byte_type(extension.storage_dtype(), out)
}

/// Appends a string, by its key.
fn append_text(name: &BufferString, out: &mut Vec<u8>) -> Result<(), FilterEncodingError>
    ensures { Appends (IsHeld (text name.now)) (Unit {0}) (key (text name.now))
        result out.old.items out.new.items }
{
    match name.clone() {
        Ok(name) => append_value(&Scalar::utf8(name, Nullability::NonNullable), out),
        Err(_) => Err(FilterEncodingError::OutOfMemory),
    }
}

/// Appends bytes, by their key.
fn append_buffer(bytes: &ByteBuffer, out: &mut Vec<u8>) -> Result<(), FilterEncodingError>
    ensures { Appends (IsHeld (string bytes.now)) (Unit {0}) (key (string bytes.now))
        result out.old.items out.new.items }
{
    match bytes.clone() {
        Ok(bytes) => append_value(&Scalar::binary(bytes, Nullability::NonNullable), out),
        Err(_) => Err(FilterEncodingError::OutOfMemory),
    }
}

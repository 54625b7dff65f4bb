//! Literals: the bytes of a type, and the key of a value.

ghost use Rattle.std.specs.Prelude.{◌≡◌, ◌++◌, IfErr, IfOk, OnErr, OnOk, map};
ghost use Rattle.std.specs.List.{AllByRecursion};
ghost use Rattle.filter_encoding.specs.Words.{Appends, AreListed, AreSo, AreValid, HasNoTyped, HasNoVariant};
ghost use Rattle.filter_encoding.specs.Words.{IsFound, IsHeld, IsHeldCell, IsLiteral, IsPlain, IsPlainCell};
ghost use Rattle.filter_encoding.specs.Words.{IsRefused, IsValid};
ghost use Rattle.filter_encoding.specs.Words.{Reads, ReadsKey, ascending, cell_of, each_bytes, key, left, listed};
ghost use Rattle.filter_encoding.specs.Words.{literal_bytes, scalar_content, scalar_type, type_of};

use crate::error::FilterEncodingError;
use crate::places::{append_place, read_place};
use crate::reader::{FilterDecodeError, Reader};
use crate::types::{append_type, read_type};
use crate::values::is_logically_valid;
use std::alloc::Global;
use vortex_dtype::DType;
use vortex_row::{RowError, SortOptions, append_key, decode_key};
use vortex_value::{Scalar, ScalarRef};

/// What bytes begin with that should be the key of a value.
#[derive(Drop)]
enum Found {
    /// The key of this value, and how many bytes it has.
    Value(Scalar, usize),
    /// No key: the offset of the first byte that no key has there, or of the end.
    Wrong(usize),
    /// An allocation was refused.
    NoMemory,
}

/// Ascending, with nulls first: then the key in a column is that of the content.
fn ascending() -> SortOptions
    ensures { result ≡ ascending }
{
    SortOptions::default()
}

/// The value of the type with whose key the bytes begin.
fn find_value(alloc: Global, dtype: &DType, bytes: &[u8]) -> Found
    requires { IsPlain (type_of dtype.now) }
    ensures { IsFound (type_of dtype.now) bytes.now result }
{
    match decode_key(alloc, dtype, ascending(), bytes) {
        Ok((value, length)) => Found::Value(value, length),
        Err(RowError::BadKey { offset: bad }) => Found::Wrong(bad),
        Err(_) => Found::NoMemory,
    }
}

/// The next value of the type, by its key.
pub(crate) fn read_value(
    alloc: Global,
    dtype: &DType,
    reader: &mut Reader<'_>,
) -> Result<Scalar, FilterDecodeError>
    requires { IsPlain (type_of dtype.now) }
    ensures { ReadsKey (type_of dtype.now) result (left reader.old) (left reader.new) }
{
    match find_value(alloc, dtype, reader.rest) {
        Found::Value(value, length) => {
            reader.advance(length);
            Ok(value)
        }
        Found::Wrong(place) => {
            reader.advance(place);
            Err(FilterDecodeError::Bad)
        }
        Found::NoMemory => Err(FilterDecodeError::NoMemory),
    }
}

/// The next literal.
pub(crate) fn read_literal(
    alloc: Global,
    reader: &mut Reader<'_>,
) -> Result<Scalar, FilterDecodeError>
    ensures read { Reads literal_bytes IsLiteral cell_of result (left reader.old) (left reader.new) }
    ensures valid { IfOk result IsValid }
{
    let dtype = read_type(alloc, reader)?;
    read_value(alloc, &dtype, reader)
}

/// So many literals.
fn read_so_many(
    alloc: Global,
    count: usize,
    reader: &mut Reader<'_>,
) -> Result<Vec<Scalar>, FilterDecodeError>
    ensures read { Reads (each_bytes literal_bytes) (AreSo count IsLiteral)
        (λ v. map cell_of v.items) result (left reader.old) (left reader.new) }
    ensures valid { IfOk result (λ v. AreValid v.items) }
{
    let mut literals = Vec::new(alloc);
    for taken in 0..count {
        let literal = read_literal(alloc, reader)?;
        literals.push(literal)?;
    }
    Ok(literals)
}

/// The next literals: how many there are, and each.
pub(crate) fn read_literals(
    alloc: Global,
    reader: &mut Reader<'_>,
) -> Result<Vec<Scalar>, FilterDecodeError>
    ensures read { Reads (listed literal_bytes) (AreListed IsLiteral)
        (λ v. map cell_of v.items) result (left reader.old) (left reader.new) }
    ensures valid { IfOk result (λ v. AreValid v.items) }
{
    let count = read_place(reader)?;
    read_so_many(alloc, count, reader)
}

/// Appends the key of a scalar of such a type. `NoEncoding` if a variant stands in it.
#[tactic(auto, using(statistics_bytes::proofs::WriteSteps::keys))]
pub(crate) fn append_value(literal: &Scalar, out: &mut Vec<u8>) -> Result<(), FilterEncodingError>
    requires { HasNoVariant (scalar_type literal.now) }
    ensures appended { OnOk result
        (out.new.items ≡ out.old.items ++ key (scalar_content literal.now)) }
    ensures held { OnOk result (IsHeld (scalar_content literal.now)) }
    ensures untyped { OnOk result (HasNoTyped (scalar_content literal.now)) }
    ensures refused { IfErr result (IsRefused (HasNoTyped (scalar_content literal.now))) }
    ensures unchanged { OnErr result (out.new.items ≡ out.old.items) }
{
    match append_key(ScalarRef::of(literal), ascending(), out) {
        Ok(()) => Ok(()),
        Err(RowError::HasVariant) => Err(FilterEncodingError::NoEncoding),
        Err(_) => Err(FilterEncodingError::OutOfMemory),
    }
}

/// Appends a literal. `NoEncoding` of one that is no value of its logical type.
pub(crate) fn append_literal(literal: &Scalar, out: &mut Vec<u8>) -> Result<(), FilterEncodingError>
    ensures { Appends (IsHeldCell (cell_of literal.now)) (IsPlainCell (cell_of literal.now))
        (literal_bytes (cell_of literal.now)) result out.old.items out.new.items }
{
    if !is_logically_valid(literal) {
        return Err(FilterEncodingError::NoEncoding);
    }
    append_type(literal.dtype(), out)?;
    append_value(literal, out)
}

/// Appends how many literals there are, and each.
pub(crate) fn append_literals(
    literals: &[Scalar],
    out: &mut Vec<u8>,
) -> Result<(), FilterEncodingError>
    ensures { Appends (AreListed IsHeldCell (map cell_of literals.now))
        (AreListed IsPlainCell (map cell_of literals.now))
        (listed literal_bytes (map cell_of literals.now)) result out.old.items out.new.items }
{
    append_place(literals.len(), out)?;
    append_each(literals, out)
}

/// Appends each literal.
fn append_each(literals: &[Scalar], out: &mut Vec<u8>) -> Result<(), FilterEncodingError>
    ensures { Appends (AllByRecursion IsHeldCell (map cell_of literals.now))
        (AllByRecursion IsPlainCell (map cell_of literals.now))
        (each_bytes literal_bytes (map cell_of literals.now)) result out.old.items out.new.items }
{
    for literal in literals {
        append_literal(literal, out)?;
    }
    Ok(())
}

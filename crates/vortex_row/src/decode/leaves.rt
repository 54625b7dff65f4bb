//! Values without parts from their keys.

ghost use Rattle.vortex_row.specs.Reading.{IsPresent, Reads, ReadsInto, left};
ghost use Rattle.vortex_row.specs.Words.{NonNullable, binary_type, bool_type, integer_type, raw_of, utf8_type};
ghost use Rattle.vortex_row.specs.Words.{value_tree};

use super::numbers::read_number;
use super::strings::{read_bytes, read_text};
use crate::reader::{KeyDecodeError, Reader};
use crate::tags::{FALSE, STRING, TEXT, TRUE};
use std::alloc::Global;
use vortex_dtype::PType;
use vortex_value::ScalarValue;

/// A truth value.
#[tactic(auto, using(crate::proofs::LeafSteps::shown))]
pub(super) fn read_truth(reader: &mut Reader<'_>) -> Result<ScalarValue, KeyDecodeError>
    ensures { Reads (IsPresent (bool_type NonNullable)) value_tree
        result (left reader.old) (left reader.new) }
{
    if reader.takes(FALSE) {
        Ok(ScalarValue::Bool(false))
    } else if reader.takes(TRUE) {
        Ok(ScalarValue::Bool(true))
    } else {
        Err(KeyDecodeError::Bad)
    }
}

/// A number of the kind.
#[tactic(auto, using(crate::proofs::LeafSteps::shown))]
pub(super) fn read_primitive(
    ptype: PType,
    reader: &mut Reader<'_>,
) -> Result<ScalarValue, KeyDecodeError>
    ensures { Reads (IsPresent (integer_type ptype NonNullable)) value_tree
        result (left reader.old) (left reader.new) }
{
    match read_number(ptype, reader) {
        Ok(number) => Ok(ScalarValue::Primitive(number)),
        Err(fault) => Err(fault),
    }
}

/// A text.
#[tactic(auto, using(crate::proofs::LeafSteps::shown))]
pub(super) fn read_utf8(
    alloc: Global,
    reader: &mut Reader<'_>,
) -> Result<ScalarValue, KeyDecodeError>
    ensures { Reads (IsPresent (utf8_type NonNullable)) value_tree
        result (left reader.old) (left reader.new) }
{
    reader.take(TEXT)?;
    Ok(ScalarValue::Utf8(read_text(alloc, reader)?))
}

/// A string of bytes.
#[tactic(auto, using(crate::proofs::LeafSteps::shown))]
pub(super) fn read_binary(
    alloc: Global,
    reader: &mut Reader<'_>,
) -> Result<ScalarValue, KeyDecodeError>
    ensures { Reads (IsPresent (binary_type NonNullable)) value_tree
        result (left reader.old) (left reader.new) }
{
    reader.take(STRING)?;
    Ok(ScalarValue::Binary(read_bytes(alloc, reader)?))
}

/// Puts a number of the kind in this place.
#[inline(always)]
pub(super) fn put_number(
    ptype: PType,
    reader: &mut Reader<'_>,
    place: &mut Option<ScalarValue>,
) -> Result<(), KeyDecodeError>
    ensures { ReadsInto (IsPresent (integer_type ptype NonNullable)) result
        (raw_of place.new) (left reader.old) (left reader.new) }
{
    let number = read_number(ptype, reader)?;
    *place = Some(ScalarValue::Primitive(number));
    Ok(())
}

/// Puts a text in this place.
#[tactic(auto, using(crate::proofs::LeafSteps::shown))]
#[inline(always)]
pub(super) fn put_text(
    alloc: Global,
    reader: &mut Reader<'_>,
    place: &mut Option<ScalarValue>,
) -> Result<(), KeyDecodeError>
    ensures { ReadsInto (IsPresent (utf8_type NonNullable)) result
        (raw_of place.new) (left reader.old) (left reader.new) }
{
    reader.take(TEXT)?;
    let text = read_text(alloc, reader)?;
    *place = Some(ScalarValue::Utf8(text));
    Ok(())
}

//! The rows of answers.

ghost use Rattle.std.specs.Prelude.{◌≡◌, ◌++◌, ◌∷◌, [], OnOk, codes};
ghost use Rattle.rows.specs.Words.{bound_text, cast_text, encode_lower, ptype_text, pvalue_text, signed_decimal};
ghost use Rattle.rows.specs.Words.{whole_of};

use hex::encode_to_slice;
use itoa::Buffer;
use std::alloc::AllocError;
use vortex_dtype::{ByteBuffer, PType};
use vortex_pvalue::PValue;

/// Appends the row of a cast: the number, or `refused`.
pub fn push_number(output: &mut Vec<u8>, number: Option<PValue>) -> Result<(), AllocError>
    ensures { OnOk result (output.new.items ≡ output.old.items ++ (cast_text number ++ 10 ∷ [])) }
{
    match number {
        Some(number) => push_value(output, number),
        None => output.extend_from_slice(b"refused\n"),
    }
}

/// Appends the row of a bound: the bytes, or `none`.
pub fn push_string(output: &mut Vec<u8>, bytes: Option<ByteBuffer>) -> Result<(), AllocError>
    ensures { OnOk result (output.new.items ≡ output.old.items ++ (bound_text bytes ++ 10 ∷ [])) }
{
    match bytes {
        Some(bytes) => {
            push_hex(output, bytes.as_slice())?;
            Ok(output.push(b'\n')?)
        }
        None => output.extend_from_slice(b"none\n"),
    }
}

/// Appends the row of a line that is not a command.
#[inline(always)]
pub fn push_bad_line(output: &mut Vec<u8>) -> Result<(), AllocError>
    ensures { OnOk result (output.new.items ≡ output.old.items ++ (codes "bad line" ++ 10 ∷ [])) }
{
    output.extend_from_slice(b"bad line\n")
}

/// Appends the number with its `PType`, such as `1000i16`, and a line feed.
fn push_value(output: &mut Vec<u8>, value: PValue) -> Result<(), AllocError>
    ensures { OnOk result (output.new.items ≡ output.old.items ++ (pvalue_text value ++ 10 ∷ [])) }
{
    push_whole(output, value)?;
    push_ptype(output, value.ptype())
}

/// Appends the number. It fits 64 bits, signed if it is negative.
fn push_whole(output: &mut Vec<u8>, value: PValue) -> Result<(), AllocError>
    ensures { OnOk result (output.new.items ≡ output.old.items ++ signed_decimal (whole_of value)) }
{
    let number = value.whole();
    let mut buffer = Buffer::new();
    if number < 0 {
        output.extend_from_slice(buffer.format(number as i64).as_bytes())
    } else {
        output.extend_from_slice(buffer.format(number as u64).as_bytes())
    }
}

/// Appends the name of the `PType` and a line feed. Each is one literal, which is stored at once.
fn push_ptype(output: &mut Vec<u8>, ptype: PType) -> Result<(), AllocError>
    ensures { OnOk result (output.new.items ≡ output.old.items ++ (ptype_text ptype ++ 10 ∷ [])) }
{
    match ptype {
        PType::U8 => output.extend_from_slice(b"u8\n"),
        PType::U16 => output.extend_from_slice(b"u16\n"),
        PType::U32 => output.extend_from_slice(b"u32\n"),
        PType::U64 => output.extend_from_slice(b"u64\n"),
        PType::I8 => output.extend_from_slice(b"i8\n"),
        PType::I16 => output.extend_from_slice(b"i16\n"),
        PType::I32 => output.extend_from_slice(b"i32\n"),
        PType::I64 => output.extend_from_slice(b"i64\n"),
    }
}

/// Appends the bytes in lower case, two hexadecimal digits each.
fn push_hex(output: &mut Vec<u8>, bytes: &[u8]) -> Result<(), AllocError>
    ensures { OnOk result (output.new.items ≡ output.old.items ++ encode_lower bytes.now) }
{
    let start = output.len();
    let Some(end) = start.checked_add(2 * bytes.len()) else {
        return Err(AllocError);
    };
    output.resize(end, 0)?;
    let Ok(()) = encode_to_slice(bytes, &mut output[start..]) else {
        unreachable!()
    };
    Ok(())
}

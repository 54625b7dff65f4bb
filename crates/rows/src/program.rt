//! The whole program: from the input to the rows that are written.

ghost use Rattle.std.specs.Prelude.{◌≡◌, ◌≢◌, ◌++◌, ◌∷◌, [], Some, IfErr, IfOk, IfSome, OnOk};
ghost use Rattle.rows.specs.Words.{Appends, GoesOn, IsAtEnd, bound_request, cast, hex_named, ptype_of, request_in};
ghost use Rattle.rows.specs.Words.{request_text, row_text, rows_of, whole_of};

use crate::answers::{bound_at, number_in_ptype};
use crate::commands::{Command, Side, command_in};
use crate::faults::RowsError;
use crate::hexadecimal::hex_named;
use crate::input::{PIECE, READS};
use crate::output::write_out;
use crate::print::{push_bad_line, push_number, push_string};
use crate::words::first_line;
use memchr::memrchr;
use std::alloc::{AllocError, Global};
use std::io::{Read, Write};
use vortex_dtype::PType;
use vortex_pvalue::PValue;

/// Reads the whole input, and writes one row for each of its lines.
///
/// `Read` for every error of the reader, and if the input has not ended within 1,048,576 reads.
/// `Memory` if no memory is left. After both nothing was written. `Write` for every error of the
/// writer: how much was written is then not known.
pub fn run<R: Read, W: Write>(
    alloc: Global,
    reader: &mut R,
    writer: &mut W,
) -> Result<(), RowsError>
    // The output is the rows of the whole input.
    ensures rows { OnOk result (IfSome (R.remaining reader.old) (λ input.
        Appends (W.contents writer.old) (W.contents writer.new) (rows_of input))) }
    ensures end { OnOk result (IsAtEnd (R.remaining reader.new)) }
    // After an error other than one of the writer, nothing was written.
    ensures untouched { IfErr result (λ e. e ≢ RowsError.Write → writer.new ≡ writer.old) }
{
    let output = rows(alloc, reader)?;
    write_out(writer, &output)
}

/// The rows of all lines that the reader gives. They are made as it is read, so that of the input
/// only the line that has not ended is kept.
fn rows<R: Read>(alloc: Global, reader: &mut R) -> Result<Vec<u8>, RowsError>
    ensures rows { IfOk result
        (λ output. IfSome (R.remaining reader.old) (λ input. output.items ≡ rows_of input)) }
    ensures end { OnOk result (IsAtEnd (R.remaining reader.new)) }
    ensures fault { IfErr result (λ e. e ≢ RowsError.Write) }
{
    let mut output = Vec::new(alloc);
    let mut pending = Vec::new(alloc);
    let mut piece = [0u8; PIECE];
    for _turn in 0..READS {
        let count = reader.read(&mut piece).map_err(|_| RowsError::Read)?;
        if count == 0 {
            push_rows(alloc, &mut output, &pending)?;
            return Ok(output);
        }
        push_piece(alloc, &mut output, &mut pending, &piece[..count])?;
    }
    Err(RowsError::Read)
}

/// Appends the rows of what is pending and of the piece, up to its last line feed. What follows that
/// is pending then.
fn push_piece(
    alloc: Global,
    output: &mut Vec<u8>,
    pending: &mut Vec<u8>,
    piece: &[u8],
) -> Result<(), AllocError>
    ensures { OnOk result (GoesOn output.old.items pending.old.items piece.now
        output.new.items pending.new.items) }
{
    let Some(end) = memrchr(b'\n', piece) else {
        return pending.extend_from_slice(piece);
    };
    pending.extend_from_slice(&piece[..end + 1])?;
    push_rows(alloc, output, pending)?;
    pending.clear();
    pending.extend_from_slice(&piece[end + 1..])
}

/// Appends the rows of all lines of a text.
fn push_rows(alloc: Global, output: &mut Vec<u8>, text: &[u8]) -> Result<(), AllocError>
    ensures { OnOk result (output.new.items ≡ output.old.items ++ rows_of text.now) }
{
    let mut rest = text;
    while !rest.is_empty() {
        let (line, after) = first_line(rest);
        push_row(alloc, output, line)?;
        rest = after;
    }
    Ok(())
}

/// Appends the row of a line.
#[inline(always)]
fn push_row(alloc: Global, output: &mut Vec<u8>, line: &[u8]) -> Result<(), AllocError>
    ensures { OnOk result (output.new.items ≡
        output.old.items ++ (row_text (request_in line.now) ++ 10 ∷ [])) }
{
    match command_in(line) {
        Some(Command::Cast { number, to }) => push_cast(alloc, output, number, to),
        Some(
            Command::Bound {
                side,
                length,
                digits,
            },
        ) => push_bound(alloc, output, side, length, digits),
        None => push_bad_line(output),
    }
}

/// Appends the row of a cast.
fn push_cast(
    alloc: Global,
    output: &mut Vec<u8>,
    number: PValue,
    to: PType,
) -> Result<(), AllocError>
    ensures { OnOk result (output.new.items ≡ output.old.items
        ++ (request_text (cast (ptype_of number) (whole_of number) to) ++ 10 ∷ [])) }
{
    push_number(output, number_in_ptype(alloc, number, to))
}

/// Appends the row of a bound. A function of its own, so that a cast does not pay for its locals.
#[inline(never)]
fn push_bound(
    alloc: Global,
    output: &mut Vec<u8>,
    side: Side,
    length: u64,
    digits: &[u8],
) -> Result<(), AllocError>
    ensures { OnOk result (output.new.items ≡ output.old.items
        ++ (row_text (bound_request side (Some length) (hex_named digits.now)) ++ 10 ∷ [])) }
{
    match hex_named(alloc, digits)? {
        Some(value) => push_string(output, bound_at(alloc, side, length, value)?),
        None => push_bad_line(output),
    }
}

//! The command on a line.
#![tactic(auto, using(crate::proofs::Operands::requests))]

ghost use Rattle.std.specs.Prelude.{◌≡◌, Some};
ghost use Rattle.rows.specs.Words.{asked_by, bound_operands, cast_operands, cast_request, ptype_named, request_in};
ghost use Rattle.rows.specs.Words.{words_of};

use crate::numbers::{cut_number, cut_ptype, ptype_named, size_named};
use crate::words::{after_word, cut_word};
use vortex_dtype::PType;
use vortex_pvalue::PValue;

/// What a line asks for. The bytes of a bound are still hexadecimal digits, which may be wrong.
#[derive(Clone, Copy, Debug)]
pub enum Command<'a> {
    /// The cast of a number to a `PType`.
    Cast {
        number: PValue,
        to: PType,
    },
    /// The bound of the bytes at this length.
    Bound {
        side: Side,
        length: u64,
        digits: &'a [u8],
    },
}

/// Which bound a command asks for.
#[derive(Clone, Copy, Debug)]
pub enum Side {
    /// The one that is not above the bytes.
    Lower,
    /// The one that is above the bytes.
    Upper,
}

/// The command on the line, if there is one. It does not look at the hexadecimal digits.
pub fn command_in(line: &[u8]) -> Option<Command<'_>>
    ensures { asked_by result ≡ request_in line.now }
{
    if let Some(operands) = after_word(line, b"cast") {
        return cast_of(operands);
    }
    if let Some(operands) = after_word(line, b"lower") {
        return bound_of(Side::Lower, operands);
    }
    if let Some(operands) = after_word(line, b"upper") {
        return bound_of(Side::Upper, operands);
    }
    None
}

/// The command of the words after `lower` or `upper`.
fn bound_of(side: Side, operands: &[u8]) -> Option<Command<'_>>
    ensures { asked_by result ≡ bound_operands side (words_of operands.now) }
{
    let (size, digits) = cut_word(operands)?;
    if cut_word(digits).is_some() {
        return None;
    }
    let length = size_named(size)?;
    Some(Command::Bound {
        side,
        length,
        digits,
    })
}

/// The command of the words after `cast`.
fn cast_of(operands: &[u8]) -> Option<Command<'_>>
    ensures { asked_by result ≡ cast_operands (words_of operands.now) }
{
    let (from, others) = cut_ptype(operands)?;
    let (number, to) = cut_number(others)?;
    cast_of_words(from, number, to)
}

/// The cast of the number, if `from` has it and `to` names a `PType`. More than one word names none.
fn cast_of_words<'a>(from: PType, number: i128, to: &[u8]) -> Option<Command<'a>>
    ensures { asked_by result ≡ cast_request (Some from) (Some number) (ptype_named to.now) }
{
    let to = ptype_named(to)?;
    let number = PValue::from_whole(number, from)?;
    Some(Command::Cast { number, to })
}

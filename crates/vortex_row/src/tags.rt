//! The bytes that tell in a key what it is the key of, in the order of the values.

ghost use Rattle.std.specs.Prelude.{◌≡◌};
ghost use Rattle.vortex_row.specs.Words.{null_byte, truth_byte};

/// The end of a string, and of a sequence. It is below the first byte of each key.
pub(crate) const END: u8 = 0;
/// The first of the two bytes that stand in a string for `END` or for `ESCAPE`. The second is one
/// more than what they stand for.
pub(crate) const ESCAPE: u8 = 1;
/// The least byte of a string that stands for itself.
pub(crate) const PLAIN: u8 = 2;

/// A null, which is the key itself.
pub(crate) const NULL: u8 = 1;
/// False, which is the key itself.
pub(crate) const FALSE: u8 = 2;
/// True, which is the key itself.
pub(crate) const TRUE: u8 = 3;
/// The first byte of the numbers that are furthest below 0, with eight bytes.
pub(crate) const LEAST: u8 = 4;
/// The key of 0. Those of numbers above it begin with one more for each of their bytes, and those
/// of numbers below it with one less.
pub(crate) const ZERO: u8 = 12;
/// The first byte of the numbers that are furthest above 0, with eight bytes.
pub(crate) const GREATEST: u8 = 20;
/// The first byte of a text.
pub(crate) const TEXT: u8 = 21;
/// The first byte of a string of bytes.
pub(crate) const STRING: u8 = 22;
/// The first byte of a sequence.
pub(crate) const SEQUENCE: u8 = 23;
/// The first byte of a tagged child.
pub(crate) const TAGGED: u8 = 24;
/// A value with a type of its own, which has no order.
pub(crate) const TYPED: u8 = 25;
/// A null in a column whose nulls come last.
pub(crate) const LAST_NULL: u8 = 255;

/// The key of a null in a column.
#[inline(always)]
pub(crate) fn null_byte(nulls_first: bool) -> u8
    ensures { result ≡ null_byte nulls_first }
{
    if nulls_first { NULL } else { LAST_NULL }
}

/// The key of a truth value.
#[inline(always)]
pub(crate) fn truth_byte(truth: bool) -> u8
    ensures { result ≡ truth_byte truth }
{
    if truth { TRUE } else { FALSE }
}

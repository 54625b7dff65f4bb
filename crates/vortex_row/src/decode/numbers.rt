//! Numbers from their keys.

ghost use Rattle.std.specs.Prelude.{◌≡◌, ◌-◌, ◌≤◌, ◌<◌, ℕ, List, IfErr, IfSome, MatchOption, MatchResult, drop, false};
ghost use Rattle.std.specs.Prelude.{length, take, true};
ghost use Rattle.vortex_row.specs.Numbers.{GoesOnAs, HasDistance, HasLimits, HasMagnitude, IsMagnitude, IsSide};
ghost use Rattle.vortex_row.specs.Numbers.{number_tree, whole_at};
ghost use Rattle.vortex_row.specs.Reading.{HasRead, IsInverted, IsKey, IsPresent, IsStuck, NoneBegins, Reads, left};
ghost use Rattle.vortex_row.specs.Words.{InRange, IsNumber, NonNullable, big_endian, integer_type, inverted, ptype_of};
ghost use Rattle.vortex_row.specs.Words.{raw_integer, whole_of};

use crate::reader::{
    KeyDecodeError, Reader, are_bytes, bytes_from, inverted_again, inverted_if, inverted_word,
};
use crate::tags::{GREATEST, LEAST, ZERO};
use vortex_dtype::PType;
use vortex_pvalue::PValue;

/// How a number goes on after its first byte.
#[derive(Clone, Copy)]
struct Form {
    /// Whether it is below 0; its bytes are then inverted.
    below: bool,
    /// How many bytes there are of how far it is from 0.
    width: u8,
    /// How far it is from 0 at most.
    limit: u64,
}

/// The greatest number of the kind, and how far below 0 its least one is.
fn limits(ptype: PType) -> (u64, u64)
    ensures { HasLimits ptype result.0 result.1 }
{
    match ptype {
        PType::U8 => (0xff, 0),
        PType::U16 => (0xffff, 0),
        PType::U32 => (0xffff_ffff, 0),
        PType::U64 => (0xffff_ffff_ffff_ffff, 0),
        PType::I8 => (0x7f, 0x80),
        PType::I16 => (0x7fff, 0x8000),
        PType::I32 => (0x7fff_ffff, 0x8000_0000),
        PType::I64 => (0x7fff_ffff_ffff_ffff, 0x8000_0000_0000_0000),
    }
}

/// Whether a number up to the limit has so many bytes, the first of them not 0.
#[tactic(auto, using(crate::proofs::NumberSteps::widths))]
fn has_width(width: u8, limit: u64) -> bool
    ensures some { result ≡ true → (bs : List ℕ) × IsMagnitude width limit bs }
    ensures none { result ≡ false → (bs : List ℕ) → ¬ (IsMagnitude width limit bs) }
{
    width <= 8 && (width == 0 || limit >> (8 * (width - 1)) > 0)
}

/// Whether the number is below 0, and how many bytes there are of how far it is from 0, by the first
/// byte of its key. `None` if no number begins with it.
#[inline(always)]
fn side_of(head: u8) -> Option<(bool, u8)>
    ensures { IfSome result (λ p. IsSide head p.0 p.1) }
{
    match head {
        LEAST..ZERO => Some((true, ZERO - head)),
        ZERO..=GREATEST => Some((false, head - ZERO)),
        _ => None,
    }
}

/// How a number of the kind goes on after this first byte. `None` if none begins with it.
fn form_after(head: u8, ptype: PType) -> Option<Form>
    ensures { MatchOption result
        (NoneBegins (IsKey (IsPresent (integer_type ptype NonNullable))) head)
        (λ form. GoesOnAs ptype head form.below form.width form.limit) }
{
    let (above, below) = limits(ptype);
    if head < ZERO {
        let width = ZERO - head;
        if has_width(width, below) {
            return Some(Form {
                below: true,
                width,
                limit: below,
            });
        }
    } else {
        let width = head - ZERO;
        if has_width(width, above) {
            return Some(Form {
                below: false,
                width,
                limit: above,
            });
        }
    }
    None
}

/// The number of so many bytes, the highest first, that is up to the limit and does not begin with
/// 0. Else the offset of the first byte that such a number does not have.
#[inline(never)]
fn magnitude_by_bytes(bytes: &[u8], invert: bool, width: u8, limit: u64) -> Result<u64, usize>
    requires { width ≤ 8 }
    ensures within { IfErr result (λ place. place ≤ length bytes.now) }
    ensures read { MatchResult result
        (λ number. HasMagnitude width limit (inverted invert bytes.now) number)
        (λ place. IsStuck (IsMagnitude width limit) (inverted invert bytes.now)
        (drop place (inverted invert bytes.now))) }
{
    let mut number = 0u64;
    for taken in 0..width {
        let place = taken as usize;
        if place >= bytes.len() {
            return Err(place);
        }
        let most = limit >> (8 * (width - 1 - taken));
        let longer = number * 256 + u64::from(inverted_if(invert, bytes[place]));
        if longer == 0 || longer > most {
            return Err(place);
        }
        number = longer;
    }
    Ok(number)
}

/// The first eight bytes as a number, the highest first. `None` if there are fewer.
#[inline(always)]
fn first_word(bytes: &[u8]) -> Option<u64>
    ensures { IfSome result (λ word. (8 ≤ length bytes.now)
        × (take 8 bytes.now ≡ big_endian 8 word)) }
{
    match bytes {
        [a, b, c, d, e, f, g, h, ..] => {
            Some(u64::from_be_bytes([*a, *b, *c, *d, *e, *f, *g, *h]))
        }
        _ => None,
    }
}

/// The number of so many bytes, the highest first, if they are there and do not begin with 0. `None`
/// says nothing.
#[inline(always)]
fn magnitude_of_few(bytes: &[u8], invert: bool, width: u8) -> Option<u64>
    requires { width ≤ 8 }
    ensures { IfSome result
        (λ number. HasMagnitude width u64.MAX (inverted invert bytes.now) number) }
{
    if bytes.len() < width as usize {
        return None;
    }
    let mut number = 0u64;
    for taken in 0..width {
        let longer = number * 256 + u64::from(inverted_if(invert, bytes[taken as usize]));
        if longer == 0 {
            return None;
        }
        number = longer;
    }
    Some(number)
}

/// The number of so many bytes, as `magnitude_by_bytes` without a limit, at once if there are eight.
/// `None` says nothing: it comes for bytes that are refused.
#[inline(always)]
fn magnitude_at_once(bytes: &[u8], invert: bool, width: u8) -> Option<u64>
    requires { width ≤ 8 }
    ensures { IfSome result
        (λ number. HasMagnitude width u64.MAX (inverted invert bytes.now) number) }
{
    if width == 0 {
        return Some(0);
    }
    let Some(word) = first_word(bytes) else {
        return magnitude_of_few(bytes, invert, width);
    };
    let word = inverted_word(invert, word);
    let number = word >> (8 * (8 - width));
    if number >> (8 * (width - 1)) > 0 {
        Some(number)
    } else {
        None
    }
}

/// How far the number is from 0.
fn read_distance(form: Form, reader: &mut Reader<'_>) -> Result<u64, KeyDecodeError>
    requires { form.width ≤ 8 }
    ensures { MatchResult result
        (λ number. HasDistance form.below form.width form.limit number
        (left reader.old) (left reader.new))
        (λ e. IsStuck (IsInverted form.below (IsMagnitude form.width form.limit))
        (left reader.old) (left reader.new)) }
{
    are_bytes(reader.rest);
    let invert = inverted_again(reader.invert, form.below);
    match magnitude_by_bytes(reader.rest, invert, form.width, form.limit) {
        Ok(number) => {
            reader.advance(form.width as usize);
            Ok(number)
        }
        Err(place) => {
            reader.advance(place);
            Err(KeyDecodeError::Bad)
        }
    }
}

/// The number that is so far above 0, or below it.
#[inline(always)]
fn whole_number(below: bool, distance: u64) -> i128
    requires { below ≡ true → 0 < distance }
    ensures { result ≡ whole_at below distance }
{
    if below {
        -1 - i128::from(distance - 1)
    } else {
        i128::from(distance)
    }
}

/// The number of the kind that is so far above 0, or below it. `None` exactly if the kind has none.
#[inline(always)]
fn number_of(ptype: PType, below: bool, distance: u64) -> Option<PValue>
    requires { below ≡ true → 0 < distance }
    ensures { MatchOption result (¬ (InRange ptype (whole_at below distance)))
        (IsNumber ptype (whole_at below distance)) }
{
    PValue::from_whole(whole_number(below, distance), ptype)
}

/// The number of a kind at a distance from 0, without 128 bits for the commonest kind.
#[inline(always)]
fn common_number_of(ptype: PType, below: bool, distance: u64) -> Option<PValue>
    requires { below ≡ true → 0 < distance }
    ensures { MatchOption result (¬ (InRange ptype (whole_at below distance)))
        (IsNumber ptype (whole_at below distance)) }
{
    match ptype {
        PType::I64 if !below && distance <= 0x7fff_ffff_ffff_ffff => {
            Some(PValue::I64(distance as i64))
        }
        _ => number_of(ptype, below, distance),
    }
}

/// A number of the kind, and how many bytes its key has, from one word if there is one. `None` says
/// nothing: it comes for bytes that are refused.
#[inline(always)]
fn number_at_once(ptype: PType, bytes: &[u8], invert: bool) -> Option<(PValue, usize)>
    ensures { IfSome result (λ p. (p.1 ≤ length bytes.now)
        × HasRead (IsPresent (integer_type ptype NonNullable))
        (raw_integer (ptype_of p.0) (whole_of p.0))
        (inverted invert bytes.now) (drop p.1 (inverted invert bytes.now))) }
{
    let head = inverted_if(invert, *bytes.first()?);
    let (below, width) = side_of(head)?;
    let rest = bytes_from(bytes, 1);
    let distance = magnitude_at_once(rest, inverted_again(invert, below), width)?;
    let number = common_number_of(ptype, below, distance)?;
    Some((number, 1 + usize::from(width)))
}

/// A number of the kind, byte by byte.
#[inline(never)]
fn number_by_bytes(ptype: PType, reader: &mut Reader<'_>) -> Result<PValue, KeyDecodeError>
    ensures { Reads (IsPresent (integer_type ptype NonNullable)) number_tree
        result (left reader.old) (left reader.new) }
{
    let Some(head) = reader.first() else {
        return Err(KeyDecodeError::Bad);
    };
    let Some(form) = form_after(head, ptype) else {
        return Err(KeyDecodeError::Bad);
    };
    reader.advance(1);
    let distance = read_distance(form, reader)?;
    match number_of(ptype, form.below, distance) {
        Some(number) => Ok(number),
        None => unreachable!(),
    }
}

/// A number of the kind.
#[inline(always)]
pub(super) fn read_number(ptype: PType, reader: &mut Reader<'_>) -> Result<PValue, KeyDecodeError>
    ensures { Reads (IsPresent (integer_type ptype NonNullable)) number_tree
        result (left reader.old) (left reader.new) }
{
    match number_at_once(ptype, reader.rest, reader.invert) {
        Some((number, taken)) => {
            reader.advance(taken);
            Ok(number)
        }
        None => number_by_bytes(ptype, reader),
    }
}

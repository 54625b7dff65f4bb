//! Fields are cut from the front of a record.

ghost use Rattle.std.specs.Prelude.{◌≡◌, ◌≢◌, ◌⊎◌, ◌∷◌, ◌++◌, ◌≤◌, [], ℕ, List, Bool, true, false, IfNone, IfOk};
ghost use Rattle.std.specs.Prelude.{IfSome, IsOk, drop, length, take, if◌then◌else◌};
ghost use Rattle.csv.specs.declared.parser.State.TheVariants.{AfterQuote, InField, InQuoted, StartField};
ghost use Rattle.csv_records.specs.Words.{AreBare, BeginsBare, HasNoFront, IsCut, field_rows, rows_of};

use crate::delimiter::Delimiter;
use crate::ends::first_end;
use memchr::memchr;
use std::alloc::AllocError;

/// The first field of a text that begins where a field does.
#[derive(Clone, Copy, Debug)]
pub struct CutField<'a> {
    /// The bytes of a field that did not begin with a quote.
    pub bare: &'a [u8],
    /// Whether it began with a quote: its bytes then stand in the buffer that was lent.
    pub is_quoted: bool,
    /// What follows it.
    pub follows: Follows<'a>,
}

/// What follows a field.
#[derive(Clone, Copy, Debug)]
pub enum Follows<'a> {
    /// Another field, with which these bytes begin.
    Another(&'a [u8]),
    /// Nothing: the row ends, and no other row follows.
    Nothing,
    /// Another row.
    Row,
}

/// A record from where its row begins. Nothing where it has none, as an empty line.
pub fn row_start(line: &[u8]) -> &[u8]
    ensures none { result.now ≡ [] → (delimiter : ℕ) → rows_of delimiter line.now ≡ [] }
    ensures row { result.now ≢ [] → (delimiter : ℕ) →
        rows_of delimiter line.now ≡ field_rows delimiter result.now }
    ensures shorter { length result.now ≤ length line.now }
{
    let mut rest = line;
    while let [byte, after @ ..] = rest {
        if *byte != b'\r' && *byte != b'\n' {
            return rest;
        }
        rest = after;
    }
    rest
}

/// Cuts the first field of a text that begins where a field does. The bytes of one in quotes go to
/// the buffer, without the quotes around them and with one quote for two. No other field is refused.
#[inline(always)]
pub fn cut_field<'a>(
    delimiter: Delimiter,
    text: &'a [u8],
    buffer: &mut Vec<u8>,
) -> Result<CutField<'a>, AllocError>
    ensures cut { IfOk result (λ cut. IsCut delimiter.byte StartField [] false text.now
        (record {
          text = if cut.is_quoted then buffer.new.items else cut.bare.now;
          is_quoted = cut.is_quoted;
        }) cut.follows) }
    // A field without quotes takes no memory.
    ensures bare { BeginsBare text.now → IsOk result }
{
    match after_quote(text) {
        Some(rest) => {
            buffer.clear();
            let follows = cut_quoted(delimiter, rest, buffer)?;
            Ok(CutField {
                bare: &[],
                is_quoted: true,
                follows,
            })
        }
        None => {
            let (bare, follows) = cut_bare(delimiter, text);
            Ok(CutField {
                bare,
                is_quoted: false,
                follows,
            })
        }
    }
}

/// What stands after a quote, if the text begins with one.
fn after_quote(text: &[u8]) -> Option<&[u8]>
    ensures some { IfSome result (λ rest. text.now ≡ 34 ∷ rest.now) }
    ensures none { IfNone result (BeginsBare text.now) }
{
    match text {
        [byte, rest @ ..] if *byte == b'"' => Some(rest),
        _ => None,
    }
}

/// The bytes up to the end of a field without quotes, and what follows it.
fn cut_bare(delimiter: Delimiter, text: &[u8]) -> (&[u8], Follows<'_>)
    ensures { (before : List ℕ) (quoted : Bool) → IsCut delimiter.byte InField before quoted text.now
        (record { text = before ++ result.0.now; is_quoted = quoted }) result.1 }
{
    let end = bare_end(delimiter, text);
    (&text[..end], after_bare(delimiter, &text[end..]))
}

/// Where a field without quotes ends.
fn bare_end(delimiter: Delimiter, text: &[u8]) -> usize
    ensures within { result ≤ length text.now }
    ensures joins { AreBare delimiter.byte (take result text.now) }
    ensures ends { HasNoFront delimiter.byte (drop result text.now) }
{
    match first_end(delimiter, text) {
        Some(end) => end,
        None => text.len(),
    }
}

/// What follows a field that ends where these bytes begin.
fn after_bare(delimiter: Delimiter, text: &[u8]) -> Follows<'_>
    requires { HasNoFront delimiter.byte text.now }
    ensures { (before : List ℕ) (quoted : Bool) → IsCut delimiter.byte InField before quoted text.now
        (record { text = before; is_quoted = quoted }) result }
{
    match text {
        [] => Follows::Nothing,
        [byte, rest @ ..] => {
            if *byte == delimiter.byte {
                Follows::Another(rest)
            } else {
                after_row(delimiter, *byte, rest)
            }
        }
    }
}

/// What follows a row that ends with this byte.
fn after_row(delimiter: Delimiter, byte: u8, rest: &[u8]) -> Follows<'_>
    requires other { byte ≢ delimiter.byte }
    requires ends { (byte ≡ 13) ⊎ (byte ≡ 10) }
    ensures { (before : List ℕ) (quoted : Bool) → IsCut delimiter.byte InField before quoted (byte ∷ rest.now)
        (record { text = before; is_quoted = quoted }) result }
{
    if row_start(rest).is_empty() {
        Follows::Nothing
    } else {
        Follows::Row
    }
}

/// Takes the bytes of a field inside of its quotes, and says what follows it.
fn cut_quoted<'a>(
    delimiter: Delimiter,
    text: &'a [u8],
    buffer: &mut Vec<u8>,
) -> Result<Follows<'a>, AllocError>
    requires { buffer.old.items ≡ [] }
    ensures { IfOk result (λ follows. IsCut delimiter.byte InQuoted [] true text.now
        (record { text = buffer.new.items; is_quoted = true }) follows) }
{
    let mut rest = text;
    while let Some(quote) = memchr(b'"', rest) {
        buffer.extend_from_slice(&rest[..quote])?;
        let after = &rest[quote + 1..];
        match after_quote(after) {
            Some(next) => {
                buffer.push(b'"')?;
                rest = next;
            }
            None => {
                let follows = after_quotes(delimiter, after, buffer)?;
                return Ok(follows);
            }
        }
    }
    buffer.extend_from_slice(rest)?;
    Ok(Follows::Nothing)
}

/// Takes the bytes that stand after the last quote of a field.
fn after_quotes<'a>(
    delimiter: Delimiter,
    text: &'a [u8],
    buffer: &mut Vec<u8>,
) -> Result<Follows<'a>, AllocError>
    requires { BeginsBare text.now }
    ensures { IfOk result (λ follows. IsCut delimiter.byte AfterQuote buffer.old.items true text.now
        (record { text = buffer.new.items; is_quoted = true }) follows) }
{
    let (bare, follows) = cut_bare(delimiter, text);
    buffer.extend_from_slice(bare)?;
    Ok(follows)
}

//! Bytes that are read from the front.

ghost use Rattle.std.specs.Prelude.{◌≡◌, ◌≤◌, ◌≢◌, ℕ, List, [], ◌∷◌, MatchOption, MatchResult, drop, false, true};
ghost use Rattle.std.specs.Prelude.{length, take};
ghost use Rattle.vortex_row.specs.Held.{AreBytes};
ghost use Rattle.vortex_row.specs.Bytes.{inverted_again, inverted_byte};
ghost use Rattle.vortex_row.specs.Steps.{inverted_word};

use std::alloc::{AllocError, AllocFailed};

/// Why nothing was read.
#[derive(Clone, Copy)]
pub(crate) enum KeyDecodeError {
    /// An allocation was refused.
    NoMemory,
    /// The next byte, or the end, comes next in no key of the type.
    Bad,
}

impl From<AllocError> for KeyDecodeError {
    ghost use Rattle.vortex_row.specs.declared.reader.KeyDecodeError.TheVariants.{NoMemory};

    ghost from_gives = { λ _ e. e ≡ NoMemory };

    fn from(_error: AllocError) -> KeyDecodeError {
        KeyDecodeError::NoMemory
    }
}

impl<T: Drop> From<AllocFailed<T>> for KeyDecodeError {
    ghost use Rattle.vortex_row.specs.declared.reader.KeyDecodeError.TheVariants.{NoMemory};

    ghost from_gives = { λ _ e. e ≡ NoMemory };

    fn from(_error: AllocFailed<T>) -> KeyDecodeError {
        KeyDecodeError::NoMemory
    }
}

/// Why no value of a type was read.
#[derive(Clone, Copy)]
pub(crate) enum ValueError {
    /// The type has values, but none was read.
    Key(KeyDecodeError),
    /// The type has no value.
    NoValue,
}

impl From<KeyDecodeError> for ValueError {
    ghost use Rattle.vortex_row.specs.declared.reader.ValueError.TheVariants.{Key};

    ghost from_gives = { λ error e. e ≡ Key error };

    fn from(error: KeyDecodeError) -> ValueError {
        ValueError::Key(error)
    }
}

/// Bytes that are read from the front, each inverted if the column is descending.
#[derive(Clone, Copy)]
pub(crate) struct Reader<'a> {
    /// What is left.
    pub(crate) rest: &'a [u8],
    /// Whether each byte is inverted.
    pub(crate) invert: bool,
}

/// A byte, inverted if that is asked for.
#[inline(always)]
pub(crate) fn inverted_if(invert: bool, byte: u8) -> u8
    ensures { result ≡ inverted_byte invert byte }
{
    if invert { 255 - byte } else { byte }
}

/// Whether bytes are to be inverted that perhaps were inverted once more.
#[inline(always)]
pub(crate) fn inverted_again(invert: bool, again: bool) -> bool
    ensures { result ≡ inverted_again invert again }
{
    if again { !invert } else { invert }
}

/// The number, each of its bits inverted if that is asked for.
#[inline(always)]
pub(crate) fn inverted_word(invert: bool, number: u64) -> u64
    ensures { result ≡ inverted_word invert number }
{
    if invert { !number } else { number }
}

/// Does nothing: its contract says that they are bytes, for lists behind a reader.
#[inline(always)]
pub(crate) fn are_bytes(bytes: &[u8])
    ensures { AreBytes bytes.now }
{
    let _ = bytes;
}

/// The bytes before this offset.
#[inline(always)]
pub(crate) fn bytes_to(bytes: &[u8], place: usize) -> &[u8]
    requires { place ≤ length bytes.now }
    ensures { result.now ≡ take place bytes.now }
{
    &bytes[..place]
}

/// The bytes from this offset on.
#[inline(always)]
pub(crate) fn bytes_from(bytes: &[u8], place: usize) -> &[u8]
    requires { place ≤ length bytes.now }
    ensures { result.now ≡ drop place bytes.now }
{
    &bytes[place..]
}

#[tactic(auto, using(crate::proofs::ReaderSteps::shown))]
impl Reader<'_> {
    ghost use Rattle.vortex_row.specs.Reading.{left};

    /// The next byte, which is not taken. `None` at the end.
    #[inline(always)]
    pub(crate) fn first(&self) -> Option<u8>
        ensures { MatchOption result (left self.now ≡ [])
            (λ b. (bs : List ℕ) × (left self.now ≡ b ∷ bs)) }
    {
        match self.rest {
            [byte, ..] => Some(inverted_if(self.invert, *byte)),
            [] => None,
        }
    }

    /// Whether this byte comes next; it is then taken.
    #[inline(always)]
    pub(crate) fn takes(&mut self, byte: u8) -> bool
        ensures taken { result ≡ true → left self.old ≡ byte ∷ left self.new }
        ensures unchanged { result ≡ false → left self.new ≡ left self.old }
        ensures other { result ≡ false → (bs : List ℕ) → left self.old ≢ byte ∷ bs }
    {
        match self.rest {
            [first, rest @ ..] if inverted_if(self.invert, *first) == byte => {
                self.rest = rest;
                true
            }
            _ => false,
        }
    }

    /// Takes this byte. `Bad` if another comes next, or none.
    #[inline(always)]
    pub(crate) fn take(&mut self, byte: u8) -> Result<(), KeyDecodeError>
        ensures { MatchResult result (λ _. left self.old ≡ byte ∷ left self.new)
            (λ e. (left self.new ≡ left self.old)
            × ((bs : List ℕ) → left self.old ≢ byte ∷ bs)) }
    {
        if self.takes(byte) {
            Ok(())
        } else {
            Err(KeyDecodeError::Bad)
        }
    }

    /// Takes so many bytes, which are there.
    #[inline(always)]
    pub(crate) fn advance(&mut self, count: usize)
        requires { count ≤ length (left self.old) }
        ensures { left self.new ≡ drop count (left self.old) }
    {
        self.rest = bytes_from(self.rest, count);
    }
}

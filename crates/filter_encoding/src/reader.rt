//! Bytes that are read from the front.

ghost use Rattle.std.specs.Prelude.{◌≡◌, ◌≢◌, ◌≤◌, ℕ, List, [], ◌∷◌, MatchOption, drop, false, length, true};

use std::alloc::{AllocError, AllocFailed};

/// Why nothing was read.
#[derive(Clone, Copy)]
pub(crate) enum FilterDecodeError {
    /// An allocation was refused.
    NoMemory,
    /// The next byte, or the end, comes next in no encoding.
    Bad,
}

impl From<AllocError> for FilterDecodeError {
    ghost use Rattle.filter_encoding.specs.declared.reader.FilterDecodeError.TheVariants.{NoMemory};

    ghost from_gives = { λ _ e. e ≡ NoMemory };

    fn from(_error: AllocError) -> FilterDecodeError {
        FilterDecodeError::NoMemory
    }
}

impl<T: Drop> From<AllocFailed<T>> for FilterDecodeError {
    ghost use Rattle.filter_encoding.specs.declared.reader.FilterDecodeError.TheVariants.{NoMemory};

    ghost from_gives = { λ _ e. e ≡ NoMemory };

    fn from(_error: AllocFailed<T>) -> FilterDecodeError {
        FilterDecodeError::NoMemory
    }
}

/// Bytes that are read from the front.
#[derive(Clone, Copy)]
pub(crate) struct Reader<'a> {
    /// What is left.
    pub(crate) rest: &'a [u8],
}

impl Reader<'_> {
    ghost use Rattle.filter_encoding.specs.Strings.{left};

    /// The next byte, which is not taken. `None` at the end.
    pub(crate) fn first(&self) -> Option<u8>
        ensures { MatchOption result (left self.now ≡ [])
            (λ b. (bs : List ℕ) × (left self.now ≡ b ∷ bs)) }
    {
        match self.rest {
            [byte, ..] => Some(*byte),
            [] => None,
        }
    }

    /// Whether this byte comes next; it is then taken.
    pub(crate) fn takes(&mut self, byte: u8) -> bool
        ensures taken { result ≡ true → left self.old ≡ byte ∷ left self.new }
        ensures unchanged { result ≡ false → left self.new ≡ left self.old }
        ensures other { result ≡ false → (bs : List ℕ) → left self.old ≢ byte ∷ bs }
    {
        match self.rest {
            [first, rest @ ..] if *first == byte => {
                self.rest = rest;
                true
            }
            _ => false,
        }
    }

    /// Takes so many bytes, which are there.
    pub(crate) fn advance(&mut self, count: usize)
        requires { count ≤ length (left self.old) }
        ensures { left self.new ≡ drop count (left self.old) }
    {
        self.rest = &self.rest[count..];
    }
}

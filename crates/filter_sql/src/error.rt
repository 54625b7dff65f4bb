//! Why SQL text was refused.

ghost use Rattle.std.specs.Prelude.{◌≡◌};
ghost use Rattle.filter_sql.specs.declared.error.ParseError.TheVariants.{OutOfMemory};

use std::alloc::{AllocError, AllocFailed};
use thiserror::Error;

/// What had to come next. Texts are for people and are not promised.
#[derive(Clone, Copy, Debug, PartialEq, Eq, Error)]
pub enum Expected {
    /// `(`, `not`, a column, `starts_with` or a constant.
    #[error("a filter")]
    Filter,
    /// The name of a column.
    #[error("a column")]
    Column,
    /// A comparison, `is`, `in`, `between`, `like` or `ilike`, the last four perhaps after `not`.
    #[error("an operator")]
    Operator,
    /// `null`, `true`, `false`, a number, a string or bytes.
    #[error("a literal")]
    Literal,
    /// A pattern of `like`: a string that does not end with the escape.
    #[error("a pattern that its escape does not end")]
    Pattern,
    /// The escape of a pattern: a string of one character.
    #[error("a string of one character")]
    Escape,
    /// `null`.
    #[error("null")]
    Null,
    /// `and`.
    #[error("and")]
    And,
    /// `(`.
    #[error("(")]
    Opening,
    /// `)`.
    #[error(")")]
    Closing,
    /// A comma.
    #[error("a comma")]
    Comma,
    /// The end of the text.
    #[error("the end")]
    End,
}

/// Why text is no filter. An offset is that of a byte of the text, or its end. Texts are for people
/// and are not promised.
#[derive(Clone, Copy, Debug, PartialEq, Eq, Error)]
pub enum ParseError {
    /// An allocation was refused.
    #[error("out of memory")]
    OutOfMemory,
    /// Something else had to come here.
    #[error("byte {offset}: expected {expected}")]
    Expected { offset: usize, expected: Expected },
    /// No column has this name.
    #[error("byte {offset}: no such column")]
    NoColumn { offset: usize },
    /// The column's type has no value like this literal: a string for a number.
    #[error("byte {offset}: a literal of another type than the column")]
    TypesDiffer { offset: usize },
    /// No literal but `null` can be written for values of the column's type.
    #[error("byte {offset}: no literal is of the column's type")]
    NoLiteral { offset: usize },
    /// The column's type takes no such number: it has more than 38 digits, an exponent that only
    /// floats take, or is a float that no finite one is near.
    #[error("byte {offset}: a number as no value of the column's type is written")]
    NumberTooLong { offset: usize },
    /// No token begins so, or what begins here does not end.
    #[error("byte {offset}: no token")]
    BadText { offset: usize },
    /// Parentheses and operators nest deeper than is read.
    #[error("byte {offset}: nested too deep")]
    TooDeep { offset: usize },
}

/// Out of memory, whatever was asked for.
impl From<AllocError> for ParseError {
    ghost from_gives = { λ _ e. e ≡ OutOfMemory };

    fn from(_error: AllocError) -> ParseError {
        ParseError::OutOfMemory
    }
}

/// Out of memory; what was to be kept is dropped.
impl<T: Drop> From<AllocFailed<T>> for ParseError {
    ghost from_gives = { λ _ e. e ≡ OutOfMemory };

    fn from(_error: AllocFailed<T>) -> ParseError {
        ParseError::OutOfMemory
    }
}

impl ParseError {
    ghost use Rattle.std.specs.Prelude.{◌≡◌};
    ghost use Rattle.filter_sql.specs.Faults.{place_of};

    /// The offset in the text, if the error has one.
    pub fn offset(&self) -> Option<usize>
        ensures { result ≡ place_of self.now }
    {
        match self {
            ParseError::OutOfMemory => None,
            ParseError::Expected {
                offset,
                expected: _,
            }
            | ParseError::NoColumn { offset }
            | ParseError::TypesDiffer { offset }
            | ParseError::NoLiteral { offset }
            | ParseError::NumberTooLong { offset }
            | ParseError::BadText { offset }
            | ParseError::TooDeep { offset } => Some(*offset),
        }
    }
}

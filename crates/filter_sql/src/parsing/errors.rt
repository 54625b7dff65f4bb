//! What is wrong with a text, by its tokens.

ghost use Rattle.std.specs.Prelude.{◌≡◌};
ghost use Rattle.filter_sql.specs.declared.parsing.errors.TokenError.TheVariants.{NoMemory};

use crate::error::Expected;
use std::alloc::{AllocError, AllocFailed};
use vortex_filter::FilterError;

/// What is wrong with a token.
#[derive(Clone, Copy, Debug)]
pub(crate) enum Cause {
    /// Something else had to come here.
    Expected(Expected),
    /// No column has this name.
    NoColumn,
    /// The column's type has no value like this literal.
    TypesDiffer,
    /// No literal but `null` can be written for values of the column's type.
    NoLiteral,
    /// The column's type takes no such number.
    NumberTooLong,
    /// Parentheses and connectives nest too deep.
    TooDeep,
}

/// Why nothing was read of the tokens: no memory, or what is wrong at which of them.
#[derive(Clone, Copy, Debug)]
pub(crate) enum TokenError {
    /// An allocation was refused.
    NoMemory,
    /// Where so many tokens were left.
    At(usize, Cause),
}

/// Always `NoMemory`.
impl From<AllocError> for TokenError {
    ghost from_gives = { λ _ e. e ≡ NoMemory };

    fn from(_error: AllocError) -> TokenError {
        TokenError::NoMemory
    }
}

/// Always `NoMemory`. The value that could not be stored is dropped.
impl<T: Drop> From<AllocFailed<T>> for TokenError {
    ghost from_gives = { λ _ e. e ≡ NoMemory };

    fn from(_error: AllocFailed<T>) -> TokenError {
        TokenError::NoMemory
    }
}

/// Always `NoMemory`: what the parser makes is refused for no other cause.
impl From<FilterError> for TokenError {
    ghost from_gives = { λ _ e. e ≡ NoMemory };

    fn from(_error: FilterError) -> TokenError {
        TokenError::NoMemory
    }
}

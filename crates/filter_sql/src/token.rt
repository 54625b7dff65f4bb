//! The tokens of SQL text.

use vortex_filter::CompareOperator;

/// A word that SQL keeps for itself, in any case.
#[derive(Clone, Copy, Debug, PartialEq, Eq)]
pub(crate) enum Keyword {
    And,
    Or,
    Not,
    In,
    Is,
    Null,
    Between,
    Like,
    Ilike,
    Escape,
    True,
    False,
    StartsWith,
}

/// The least part of SQL text that has a meaning of its own.
#[derive(Debug, Drop)]
pub(crate) enum Token {
    /// A word that SQL keeps for itself.
    Keyword(Keyword),
    /// A name: a bare word, or anything in double quotes.
    Name(String),
    /// A number, as it is written: `10`, `-0.5`, `1e30`.
    Number(String),
    /// A string, in single quotes.
    Text(String),
    /// Bytes, as in `x'00ff'`.
    Bytes(Vec<u8>),
    /// `=`, `<>` or `!=`, `>`, `>=`, `<`, `<=`.
    Operator(CompareOperator),
    /// `(`.
    Open,
    /// `)`.
    Close,
    /// `,`.
    Comma,
}

/// A token, and the offset of its first byte in the text.
#[derive(Debug, Drop)]
pub(crate) struct Placed {
    pub(crate) token: Token,
    pub(crate) place: usize,
}

//! Reads what stands in a line.

pub mod lists;
pub mod numbers;
pub mod texts;
pub mod types;
pub mod values;
pub mod words;

use crate::tokens::Tokens;

/// The meaning of a word in a table, if it stands there.
pub fn named<T: Copy>(table: &[(&str, T)], word: &[u8]) -> Option<T> {
    let (_, meaning) = table.iter().find(|(name, _)| name.as_bytes() == word)?;
    Some(*meaning)
}

/// Reads a word of a table. Any other word makes the line bad, and `otherwise` stands for it.
pub fn read_named<T: Copy>(tokens: &mut Tokens<'_>, table: &[(&str, T)], otherwise: T) -> T {
    let meaning = named(table, tokens.word());
    tokens.or_bad(meaning, otherwise)
}

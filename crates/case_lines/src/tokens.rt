//! The bytes of a line, taken from the front.

use std::alloc::{AllocError, Global};
use vortex_dtype::{Nullability, VortexError};

/// Why reading a line stopped before its end.
#[derive(Clone, Copy)]
enum LineError {
    /// The line is not in the language.
    BadLine,
    /// More brackets, or levels of a filter, nest than may.
    TooDeep,
    /// There is no memory for what it holds.
    NoMemory,
}

/// Why the call of a line is not made.
#[derive(Drop)]
pub enum NoCall {
    /// The line is not in the language.
    BadLine,
    /// More brackets, or levels of a filter, nest than may.
    TooDeep,
    /// A maker of types refused.
    Refused(VortexError),
}

/// What is left to read of a line.
///
/// If the line is not in the language, nests too deep, or memory runs out, that error is kept and
/// nothing is left to read; what is read from then on means nothing. The first refusal of a maker of
/// types is kept too, but the line is read on.
#[derive(Drop)]
pub struct Tokens<'a> {
    /// The allocator that the line is read with.
    pub alloc: Global,
    /// How many brackets may nest in a type, in a value and in the text of a filter.
    pub room: usize,
    rest: &'a [u8],
    error: Option<LineError>,
    refusal: Option<VortexError>,
    expected: Option<&'a [u8]>,
}

impl<'a> Tokens<'a> {
    /// A line that is not read yet, in which so many brackets may nest.
    pub fn of(alloc: Global, room: usize, line: &'a [u8]) -> Tokens<'a> {
        Tokens {
            alloc,
            room,
            rest: line,
            error: None,
            refusal: None,
            expected: None,
        }
    }

    /// How many bytes are left. No more items than that can follow.
    pub fn left(&self) -> usize {
        self.rest.len()
    }

    /// The bytes that are left.
    pub fn rest(&self) -> &'a [u8] {
        self.rest
    }

    /// Keeps the error if it is the first, and leaves nothing to read.
    fn fail(&mut self, error: LineError) {
        if self.error.is_none() {
            self.error = Some(error);
        }
        self.rest = &[];
    }

    /// Marks the line as not in the language.
    pub fn bad_line(&mut self) {
        self.fail(LineError::BadLine);
    }

    /// Marks the line as one that nests too deep.
    pub fn too_deep(&mut self) {
        self.fail(LineError::TooDeep);
    }

    /// Reads the arrow and the expected answer, if there are any. Returns why the call is not made, if
    /// so: the line is bad, or nests too deep, or by the first refusal of a maker of types. `AllocError`
    /// if there was no memory to read the line.
    pub fn end(&mut self) -> Result<Option<NoCall>, AllocError> {
        self.read_expected();
        match self.error {
            Some(LineError::BadLine) => Ok(Some(NoCall::BadLine)),
            Some(LineError::TooDeep) => Ok(Some(NoCall::TooDeep)),
            Some(LineError::NoMemory) => Err(AllocError),
            None => Ok(self.refusal.take().map(NoCall::Refused)),
        }
    }

    fn read_expected(&mut self) {
        if self.rest.is_empty() {
            return;
        }
        self.spaces();
        match self.rest {
            [] => {}
            [b'=', b'>', b' ', expected @ ..] => self.expected = Some(expected),
            _ => self.bad_line(),
        }
    }

    /// The expected answer, once it is read: all that follows the arrow and a space.
    pub fn expected(&self) -> Option<&'a [u8]> {
        self.expected
    }

    /// Takes the next byte.
    pub fn byte(&mut self) -> Option<u8> {
        let (first, others) = self.rest.split_first()?;
        self.rest = others;
        Some(*first)
    }

    /// Takes spaces, and returns the byte after them without taking it.
    pub fn peek(&mut self) -> Option<u8> {
        self.rest = after_spaces(self.rest);
        self.rest.first().copied()
    }

    /// Takes this byte and the spaces before it, if it comes next; else takes nothing.
    pub fn takes(&mut self, byte: u8) -> bool {
        match after_spaces(self.rest).split_first() {
            Some((first, others)) if *first == byte => {
                self.rest = others;
                true
            }
            _ => false,
        }
    }

    /// Takes this byte and the spaces before it. Any other byte makes the line bad.
    pub fn expect(&mut self, byte: u8) {
        if !self.takes(byte) {
            self.bad_line();
        }
    }

    /// Whether another item of a list comes next, after `before` items. Takes the comma before it; if
    /// there is no other item, takes the bracket that closes the list.
    pub fn has_item(&mut self, before: usize, close: u8) -> bool {
        if before == 0 {
            return !self.takes(close);
        }
        if self.takes(b',') {
            return true;
        }
        self.expect(close);
        false
    }

    /// Whether another item comes next, after `before` items, of a list that goes to a semicolon or to
    /// the end of the line. Takes the comma before it.
    pub fn has_more(&mut self, before: usize) -> bool {
        if before == 0 {
            !matches!(after_spaces(self.rest), [] | [b'=' | b';', ..])
        } else {
            self.takes(b',')
        }
    }

    /// Takes the spaces before an argument, at least one.
    pub fn spaces(&mut self) {
        match self.rest.first() {
            Some(b' ') => self.rest = after_spaces(self.rest),
            _ => self.bad_line(),
        }
    }

    /// Takes spaces, and then the letters, digits and `_` that come next; there may be none.
    pub fn word(&mut self) -> &'a [u8] {
        let (word, others) = split_front(after_spaces(self.rest), |byte| {
            byte.is_ascii_alphanumeric() || byte == b'_'
        });
        self.rest = others;
        word
    }

    /// Takes spaces and this word, if it comes next; else takes nothing.
    pub fn takes_word(&mut self, word: &[u8]) -> bool {
        let before = self.rest;
        let takes = self.word() == word;
        if !takes {
            self.rest = before;
        }
        takes
    }

    /// Takes SQL text, and the semicolon after it. One in quotes is part of the text.
    pub fn sql(&mut self) -> &'a [u8] {
        match split_sql(self.rest) {
            Some((sql, others)) => {
                self.rest = others;
                self.expect(b';');
                sql
            }
            None => {
                self.bad_line();
                &[]
            }
        }
    }

    /// Takes the question mark of a nullable type, if there is one.
    pub fn nullability(&mut self) -> Nullability {
        if self.takes(b'?') {
            Nullability::Nullable
        } else {
            Nullability::NonNullable
        }
    }

    /// What was read. If that is nothing, the line is bad, and `otherwise` stands for it.
    pub fn or_bad<T: Copy>(&mut self, read: Option<T>, otherwise: T) -> T {
        if read.is_none() {
            self.bad_line();
        }
        read.unwrap_or(otherwise)
    }

    /// Adds an item to the ones before it.
    pub fn push<T: Drop>(&mut self, items: &mut Vec<T>, item: T) {
        if items.push(item).is_err() {
            self.fail(LineError::NoMemory);
        }
    }

    /// What a maker made. If it refused, the refusal is kept, unless there was one before.
    pub fn made<T>(&mut self, made: Result<T, VortexError>) -> Option<T> {
        match made {
            Ok(made) => return Some(made),
            Err(VortexError::OutOfMemory) => self.fail(LineError::NoMemory),
            Err(refusal) => drop(self.refusal.get_or_insert(refusal)),
        }
        None
    }
}

/// The bytes after any spaces in front.
fn after_spaces(text: &[u8]) -> &[u8] {
    split_front(text, |byte| byte == b' ').1
}

/// Splits the longest prefix whose bytes all pass the test from the rest.
pub fn split_front<F: Fn(u8) -> bool>(text: &[u8], holds: F) -> (&[u8], &[u8])
    requires { F.IsAlwaysCallable holds }
{
    match text.iter().position(|byte| !holds(*byte)) {
        Some(place) => text.split_at(place),
        None => (text, &[]),
    }
}

/// Splits a text before its first semicolon outside of quotes. A quote that is doubled within quotes
/// ends them and begins others.
fn split_sql(text: &[u8]) -> Option<(&[u8], &[u8])> {
    let mut open = None;
    for (place, byte) in text.iter().enumerate() {
        match open {
            None if *byte == b';' => return Some(text.split_at(place)),
            None if *byte == b'\'' || *byte == b'"' => open = Some(*byte),
            Some(quote) if quote == *byte => open = None,
            _ => {}
        }
    }
    None
}

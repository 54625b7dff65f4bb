//! A string that is written piece by piece.

use hex::encode_to_slice;
use itoa::{Buffer, Integer};
use std::alloc::{AllocError, Global};

/// A string that is written piece by piece. If memory runs out, or a piece is left out, that is
/// remembered, and `into_text` refuses.
#[derive(Drop)]
pub struct Output {
    text: String,
    is_short: bool,
}

impl Output {
    /// An empty string.
    pub fn new(alloc: Global) -> Output {
        Output {
            text: String::new(alloc),
            is_short: false,
        }
    }

    /// What was written. `AllocError` if a piece is missing.
    pub fn into_text(self) -> Result<String, AllocError> {
        if self.is_short {
            return Err(AllocError);
        }
        Ok(self.text)
    }

    /// Remembers that a piece is missing.
    pub fn cut(&mut self) {
        self.is_short = true;
    }

    /// Adds a character unescaped.
    pub fn char(&mut self, character: char) {
        if self.text.push(character).is_err() {
            self.cut();
        }
    }

    /// Adds a string unescaped.
    pub fn word(&mut self, word: &str) {
        if self.text.push_str(word).is_err() {
            self.cut();
        }
    }

    pub fn number<N: Integer>(&mut self, number: N) {
        let mut buffer = Buffer::new();
        self.word(buffer.format(number));
    }

    /// Adds two hexadecimal digits for each byte.
    pub fn hex(&mut self, bytes: &[u8]) {
        for byte in bytes {
            for digit in digits_of(*byte) {
                self.char(char::from(digit));
            }
        }
    }

    /// Adds the comma before the part at this place; the first has none.
    pub fn comma(&mut self, place: usize) {
        if place > 0 {
            self.word(", ");
        }
    }
}

/// The two hexadecimal digits of a byte.
pub fn digits_of(byte: u8) -> [u8; 2] {
    let mut digits = [0; 2];
    let Ok(()) = encode_to_slice([byte], &mut digits) else {
        unreachable!()
    };
    digits
}

//! Strings, or bytes, that are to be among a few.

ghost use Rattle.std.specs.Prelude.{◌≡◌, length};
ghost use Rattle.column_kernels.specs.Words.{bytes_eq, is_alike, list_any};

use crate::needles::Needle;
use crate::spans::ByteTest;
use arrow_columns::{items_are_bytes, word_between};

/// The test whether bytes are those of one of a few needles.
#[derive(Clone, Copy)]
pub(crate) struct Listed<'a> {
    pub(crate) needles: [Needle<'a>; 8],
}

impl Listed<'_> {
    /// Whether one of the needles begins with this number, and has so many bytes. All are compared, since the
    /// processor does not foresee which one it is.
    #[inline(always)]
    fn has_alike(&self, word: u64, size: usize) -> bool
        ensures { result ≡ list_any (λ needle. is_alike word size needle.word needle.bytes.now) self.now.needles }
    {
        let mut has_alike = false;
        for needle in &self.needles[..] {
            has_alike |= needle.is_alike(word, size);
        }
        has_alike
    }

    /// Whether these are the bytes of one of the needles.
    fn has(&self, value: &[u8]) -> bool
        ensures { result ≡ list_any (λ needle. bytes_eq value.now needle.bytes.now) self.now.needles }
    {
        self.needles[..]
            .iter()
            .any(|needle| value == needle.bytes())
    }
}

impl ByteTest for Listed<'_> {
    ghost says = { λ test bytes. list_any (λ needle. bytes_eq bytes needle.bytes.now) test.needles };

    #[inline(always)]
    fn is_met(&self, bytes: &[u8], begin: usize, stop: usize) -> bool {
        let value = &bytes[begin..stop];
        items_are_bytes(value);
        let has_alike = self.has_alike(word_between(bytes, begin, stop), value.len());
        if has_alike & (value.len() > 8) {
            return self.has(value);
        }
        has_alike
    }
}

//! Bytes with which many others are compared.

ghost use Rattle.std.specs.Prelude.{◌≡◌, ◌↔◌, ◌+◌, ◌-◌, ◌^◌, ◌≤◌, ℕ, IsTrue, List, length, min, nat_eq, slice_range};
ghost use Rattle.std.specs.Prelude.{take};
ghost use Rattle.column_kernels.specs.Words.{AreBytes, beginning, holds, is_alike, is_eq, is_ne, nat_cmp};
ghost use Rattle.column_kernels.specs.Words.{slice_cmp, starts_with};

use crate::spans::ByteTest;
use arrow_columns::{items_are_bytes, word_between};
use vortex_filter::CompareOperator;

/// Bytes with which many others are compared: by the length and the number of the first eight bytes, and only
/// where both are the same by the other bytes.
#[derive(Clone, Copy)]
pub(crate) struct Needle<'a> {
    bytes: &'a [u8],
    /// The number of the first eight bytes, with zeros after the last one.
    word: u64,
    /// The greatest number of the bytes, up to eight, that such a number has behind these.
    rest: u64,
    ghost is_word: { word ≡ beginning 8 bytes.now },
    ghost is_rest: { rest + 1 ≡ 256 ^ (8 - min (length bytes.now) 8) },
    ghost are_bytes: { AreBytes bytes.now },
}

impl<'a> Needle<'a> {
    /// These bytes.
    pub(crate) fn of(bytes: &'a [u8]) -> Needle<'a>
        ensures { result.bytes.now ≡ bytes.now }
    {
        items_are_bytes(bytes);
        let word = word_between(bytes, 0, bytes.len());
        let rest = greatest_behind(bytes.len().min(8));
        Needle { bytes, word, rest }
    }

    /// The bytes.
    pub(crate) fn bytes(&self) -> &'a [u8]
        ensures { result.now ≡ self.now.bytes.now }
    {
        self.bytes
    }

    /// Whether the bytes from `begin` to `stop` are these.
    #[inline(always)]
    fn is_between(&self, bytes: &[u8], begin: usize, stop: usize) -> bool
        requires order { begin ≤ stop }
        requires within { stop ≤ length bytes.now }
        ensures { IsTrue result ↔ (slice_range bytes.now begin stop ≡ self.now.bytes.now) }
    {
        self.is_at(bytes, begin, stop - begin == self.bytes.len())
    }

    /// Whether these bytes lie at a place, if as many do. Both are tested, since the processor does not foresee
    /// which one fails. The eight bytes at the place are read at once, whatever lies behind the last one.
    #[inline(always)]
    fn is_at(&self, bytes: &[u8], place: usize, fits: bool) -> bool
        requires place { place ≤ length bytes.now }
        requires fits { IsTrue fits → place + length self.now.bytes.now ≤ length bytes.now }
        ensures { IsTrue result ↔ (IsTrue fits
            × (slice_range bytes.now place (place + length self.now.bytes.now) ≡ self.now.bytes.now)) }
    {
        items_are_bytes(bytes);
        let begins = self.has_front(word_between(bytes, place, bytes.len()));
        let size = self.bytes.len();
        (fits & begins) && (size <= 8 || bytes[place + 8..place + size] == self.bytes[8..])
    }

    /// Whether bytes whose first eight have this number begin as these do, up to eight.
    #[inline(always)]
    fn has_front(&self, word: u64) -> bool
        ensures { (bytes : List ℕ) → AreBytes bytes → word ≡ beginning 8 bytes
            → IsTrue result ↔ (beginning 8 (take (length self.now.bytes.now) bytes) ≡ self.now.word) }
    {
        word - (word & self.rest) == self.word
    }

    /// Whether this is the number of the first eight bytes, and so many they all are. Both are compared, since the
    /// processor does not foresee which one differs.
    #[inline(always)]
    pub(crate) fn is_alike(&self, word: u64, size: usize) -> bool
        ensures { result ≡ is_alike word size self.now.word self.now.bytes.now }
    {
        (word == self.word) & (size == self.bytes.len())
    }
}

/// The greatest number of the bytes behind so many of eight.
fn greatest_behind(count: usize) -> u64
    requires { count ≤ 8 }
    ensures { result + 1 ≡ 256 ^ (8 - count) }
{
    match count {
        0 => 0xffff_ffff_ffff_ffff,
        1 => 0x00ff_ffff_ffff_ffff,
        2 => 0x0000_ffff_ffff_ffff,
        3 => 0x0000_00ff_ffff_ffff,
        4 => 0x0000_0000_ffff_ffff,
        5 => 0x0000_0000_00ff_ffff,
        6 => 0x0000_0000_0000_ffff,
        7 => 0x0000_0000_0000_00ff,
        _ => 0,
    }
}

/// The test whether bytes are these.
#[derive(Clone, Copy)]
pub(crate) struct Equal<'a> {
    pub(crate) needle: Needle<'a>,
}

impl ByteTest for Equal<'_> {
    ghost says = { λ test bytes. is_eq (slice_cmp nat_cmp bytes test.needle.bytes.now) };

    #[inline(always)]
    fn is_met(&self, bytes: &[u8], begin: usize, stop: usize) -> bool {
        self.needle.is_between(bytes, begin, stop)
    }
}

/// The test whether bytes are others than these.
#[derive(Clone, Copy)]
pub(crate) struct Unequal<'a> {
    pub(crate) needle: Needle<'a>,
}

impl ByteTest for Unequal<'_> {
    ghost says = { λ test bytes. is_ne (slice_cmp nat_cmp bytes test.needle.bytes.now) };

    #[inline(always)]
    fn is_met(&self, bytes: &[u8], begin: usize, stop: usize) -> bool {
        !self.needle.is_between(bytes, begin, stop)
    }
}

/// The test of any comparison with bytes.
#[derive(Clone, Copy)]
pub(crate) struct Comparison<'a> {
    pub(crate) operator: CompareOperator,
    pub(crate) literal: &'a [u8],
}

impl ByteTest for Comparison<'_> {
    ghost says = { λ test bytes. holds test.operator (slice_cmp nat_cmp bytes test.literal.now) };

    #[inline(always)]
    fn is_met(&self, bytes: &[u8], begin: usize, stop: usize) -> bool {
        self.operator.holds(bytes[begin..stop].cmp(self.literal))
    }
}

/// The test whether bytes begin with these.
#[derive(Clone, Copy)]
pub(crate) struct Beginning<'a> {
    pub(crate) needle: Needle<'a>,
}

impl ByteTest for Beginning<'_> {
    ghost says = { λ test bytes. starts_with nat_eq bytes test.needle.bytes.now };

    #[inline(always)]
    fn is_met(&self, bytes: &[u8], begin: usize, stop: usize) -> bool {
        let fits = self.needle.bytes.len() <= stop - begin;
        self.needle.is_at(bytes, begin, fits)
    }
}

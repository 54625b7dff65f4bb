//! Shared, immutable bytes and strings. A contract sees each as its list of bytes.

ghost use Rattle.std.specs.Prelude.{◌≡◌, ◌≤◌, ◌==◌, [], length, slice_range, IfOk, IsOk, IsUtf8, nat_eq, refl};
ghost use Rattle.std.specs.Prelude.{string_bytes, Some};
ghost use Rattle.std.specs.Hash as fed;
ghost use Rattle.vortex_dtype.specs.Words.{GivesOrNoMemory, IsCharBoundary, IsTextOf, hashing, nat_cmp};
ghost use Rattle.vortex_dtype.specs.Words.{nat_list_cmp_total, nat_list_eq_equiv, partial_equiv_from_equiv, pointwise};
ghost use Rattle.vortex_dtype.specs.Words.{rules, slice_cmp, texts_po, texts_ties};

use crate::error::VortexError;
use arrayvec::ArrayVec;
use bytes::Bytes;
use std::alloc::{AllocError, Global};
use std::cmp::Ordering;
use std::hash::{Hash, Hasher};
use std::marker::Model;
use std::ops::Range;
use std::str;

/// How many bytes a buffer holds inline, without an allocation.
pub const INLINE_BYTES: usize = 22;

/// Immutable bytes. At most 22 are held inline; more are shared by copies and slices.
///
/// Ports `vortex_buffer::ByteBuffer`. A buffer keeps its allocator, so `clone` and `slice` need
/// no argument for it.
#[derive(Debug, Drop)]
pub struct ByteBuffer {
    held: Held,
    alloc: Global,
}

/// The two ways to hold bytes.
#[derive(Debug, Drop)]
enum Held {
    Inline(ArrayVec<u8, INLINE_BYTES>),
    Shared(Bytes),
}

impl Model for ByteBuffer {
    ghost use Rattle.std.specs.Prelude.{ℕ, List};

    ghost Value = { List ℕ };

    ghost use Rattle.vortex_dtype.specs.HeldBytes.{held_bytes};

    ghost view = { λ buffer. held_bytes buffer.held };
}

impl ByteBuffer {
    /// The empty buffer. Takes no memory.
    ///
    /// Ports `ByteBuffer::empty`.
    pub fn empty(alloc: Global) -> Result<ByteBuffer, VortexError>
        ensures given { GivesOrNoMemory (λ buffer. buffer ≡ []) result }
        ensures inline { IsOk result }
    {
        ByteBuffer::from_slice(alloc, &[])
    }

    /// Copies these bytes into a buffer. `OutOfMemory` only for more than 22.
    ///
    /// Ports `ByteBuffer::copy_from`.
    pub fn from_slice(alloc: Global, bytes: &[u8]) -> Result<ByteBuffer, VortexError>
        ensures given { GivesOrNoMemory (λ buffer. buffer ≡ bytes.now) result }
        ensures inline { length bytes.now ≤ INLINE_BYTES → IsOk result }
    {
        let held = match ArrayVec::try_from(bytes) {
            Ok(inline) => Held::Inline(inline),
            Err(_) => Held::Shared(Bytes::copy_from_slice(alloc, bytes)?),
        };
        Ok(ByteBuffer { held, alloc })
    }

    /// Moves these bytes into a buffer, or copies them inline if they are at most 22.
    /// `OutOfMemory` only for more. Of this port alone.
    pub fn from_vec(bytes: Vec<u8>) -> Result<ByteBuffer, VortexError>
        ensures given { GivesOrNoMemory (λ buffer. buffer ≡ bytes.items) result }
        ensures inline { length bytes.items ≤ INLINE_BYTES → IsOk result }
    {
        let alloc = *bytes.allocator();
        if bytes.len() <= INLINE_BYTES {
            return ByteBuffer::from_slice(alloc, bytes.as_slice());
        }
        let shared = Bytes::from_vec(bytes)?;
        Ok(ByteBuffer {
            held: Held::Shared(shared),
            alloc,
        })
    }

    /// The bytes.
    ///
    /// Ports `ByteBuffer::as_slice`.
    pub fn as_slice(&self) -> &[u8]
        ensures { result.now ≡ self.now }
    {
        match &self.held {
            Held::Inline(bytes) => bytes.as_slice(),
            Held::Shared(bytes) => bytes.as_slice(),
        }
    }

    /// How many bytes there are.
    ///
    /// Ports `ByteBuffer::len`.
    pub fn len(&self) -> usize
        ensures { result ≡ length self.now }
    {
        self.as_slice().len()
    }

    /// Whether there are no bytes.
    ///
    /// Ports `ByteBuffer::is_empty`.
    pub fn is_empty(&self) -> bool
        ensures { result ≡ (length self.now == 0) }
    {
        self.as_slice().is_empty()
    }

    /// The allocator that the buffer was made with. Its copies and slices use it too. Of this port
    /// alone.
    pub fn allocator(&self) -> Global {
        self.alloc
    }

    /// The bytes of a range, which must lie within the buffer. More than 22 are shared; they are
    /// copied only if no further owner can be counted. Only that copy can answer `OutOfMemory`.
    ///
    /// Ports `ByteBuffer::slice`, which panics outside the buffer.
    pub fn slice(&self, range: Range<usize>) -> Result<ByteBuffer, VortexError>
        requires ordered { range.start ≤ range.end }
        requires within { range.end ≤ length self.now }
        ensures given { GivesOrNoMemory
            (λ buffer. buffer ≡ slice_range self.now range.start range.end) result }
        ensures inline { length (slice_range self.now range.start range.end) ≤ INLINE_BYTES → IsOk result }
    {
        let part = &self.as_slice()[range.start..range.end];
        if let Held::Shared(bytes) = &self.held
            && INLINE_BYTES < part.len()
            && let Ok(shared) = bytes.slice(range)
        {
            return Ok(ByteBuffer {
                held: Held::Shared(shared),
                alloc: self.alloc,
            });
        }
        ByteBuffer::from_slice(self.alloc, part)
    }

    /// A buffer with the same bytes. More than 22 are shared; they are copied only if no further
    /// owner can be counted. Only that copy can answer `OutOfMemory`.
    ///
    /// Ports `ByteBuffer::clone`.
    pub fn clone(&self) -> Result<ByteBuffer, VortexError>
        ensures given { GivesOrNoMemory (λ buffer. buffer ≡ self.now) result }
        ensures inline { length self.now ≤ INLINE_BYTES → IsOk result }
    {
        match &self.held {
            Held::Inline(bytes) => Ok(ByteBuffer {
                held: Held::Inline(copy_inline(bytes)),
                alloc: self.alloc,
            }),
            Held::Shared(bytes) => Ok(share(self.alloc, bytes)?),
        }
    }
}

/// A copy of inline bytes, which takes no memory.
#[inline(always)]
fn copy_inline(bytes: &ArrayVec<u8, INLINE_BYTES>) -> ArrayVec<u8, INLINE_BYTES>
    ensures { result.items ≡ bytes.now.items }
{
    match ArrayVec::try_from(bytes.as_slice()) {
        Ok(copy) => copy,
        Err(_) => unreachable!(),
    }
}

/// Another owner of shared bytes, or a copy of them if no further owner can be counted. It is a
/// function of its own, and its error a byte, so that a copy of inline bytes pays for its own
/// locals alone.
#[inline(never)]
fn share(alloc: Global, bytes: &Bytes) -> Result<ByteBuffer, AllocError>
    ensures given { IfOk result (λ buffer. buffer ≡ bytes.now) }
    ensures inline { length bytes.now ≤ INLINE_BYTES → IsOk result }
{
    match bytes.clone() {
        Ok(shared) => Ok(ByteBuffer {
            held: Held::Shared(shared),
            alloc,
        }),
        Err(_) => ByteBuffer::from_slice(alloc, bytes.as_slice()).map_err(|_| AllocError),
    }
}

impl PartialEq for ByteBuffer {
    ghost eq = { pointwise nat_eq };

    ghost laws = { partial_equiv_from_equiv nat_list_eq_equiv };

    fn eq(&self, other: &ByteBuffer) -> bool {
        self.as_slice() == other.as_slice()
    }
}

impl Eq for ByteBuffer {
    ghost laws = { nat_list_eq_equiv };
}

impl PartialOrd for ByteBuffer {
    ghost partial_cmp = { λ x y. Some (slice_cmp nat_cmp x y) };

    ghost laws = { texts_po };

    fn partial_cmp(&self, other: &ByteBuffer) -> Option<Ordering> {
        Some(self.cmp(other))
    }
}

impl Ord for ByteBuffer {
    ghost cmp = { slice_cmp nat_cmp };

    ghost total = { nat_list_cmp_total };

    ghost matches_partial_cmp = { λ x y. refl };

    ghost matches_eq = { texts_ties };

    fn cmp(&self, other: &ByteBuffer) -> Ordering {
        self.as_slice().cmp(other.as_slice())
    }
}

impl Hash for ByteBuffer {
    ghost hash_input = { fed.slice fed.u8 };

    ghost respects_eq = { Prim.search (hashing, rules) };

    fn hash<H: Hasher>(&self, state: &mut H) {
        self.as_slice().hash(state);
    }
}

/// An immutable string: a buffer whose bytes are UTF-8.
///
/// Ports `vortex_buffer::BufferString`.
#[derive(Debug, Drop)]
pub struct BufferString {
    buffer: ByteBuffer,
}

impl Model for BufferString {
    ghost use Rattle.std.specs.Prelude.{ℕ, List, IsUtf8};

    ghost Value = { List ℕ };

    ghost view = { λ string. string.buffer };

    ghost invariant = { λ string. IsUtf8 string.buffer };
}

impl BufferString {
    /// The empty string. Takes no memory.
    ///
    /// Ports `BufferString::empty`.
    pub fn empty(alloc: Global) -> Result<BufferString, VortexError>
        ensures given { GivesOrNoMemory (λ string. string ≡ []) result }
        ensures inline { IsOk result }
    {
        BufferString::from_str(alloc, "")
    }

    /// Copies this string into a buffer. `OutOfMemory` only for more than 22 bytes.
    ///
    /// Ports `BufferString::from`, of a `&str`.
    pub fn from_str(alloc: Global, text: &str) -> Result<BufferString, VortexError>
        ensures given { GivesOrNoMemory (λ string. string ≡ text.now) result }
        ensures inline { length text.now ≤ INLINE_BYTES → IsOk result }
    {
        let buffer = ByteBuffer::from_slice(alloc, text.as_bytes())?;
        Ok(BufferString { buffer })
    }

    /// Moves this string into a buffer, or copies it inline if it has at most 22 bytes.
    /// `OutOfMemory` only for more. Of this port alone.
    pub fn from_string(text: String) -> Result<BufferString, VortexError>
        ensures given { GivesOrNoMemory (λ string. string ≡ string_bytes text) result }
        ensures inline { length (string_bytes text) ≤ INLINE_BYTES → IsOk result }
    {
        let buffer = ByteBuffer::from_vec(text.into_bytes())?;
        Ok(BufferString { buffer })
    }

    /// The string.
    ///
    /// Ports `BufferString::as_str`.
    pub fn as_str(&self) -> &str
        ensures { result.now ≡ self.now }
    {
        // The invariant of the type: the bytes are UTF-8.
        unsafe { str::from_utf8_unchecked(self.buffer.as_slice()) }
    }

    /// How many bytes the string has.
    ///
    /// Ports `str::len`, which upstream's `BufferString` reaches by `Deref`.
    pub fn len(&self) -> usize
        ensures { result ≡ length self.now }
    {
        self.buffer.len()
    }

    /// Whether the string is empty.
    ///
    /// Ports `str::is_empty`, which upstream's `BufferString` reaches by `Deref`.
    pub fn is_empty(&self) -> bool
        ensures { result ≡ (length self.now == 0) }
    {
        self.buffer.is_empty()
    }

    /// The buffer of the string's bytes.
    ///
    /// Ports `BufferString::inner`.
    pub fn inner(&self) -> &ByteBuffer
        ensures content { result.now ≡ self.now }
        ensures utf8 { IsUtf8 result.now }
    {
        &self.buffer
    }

    /// The buffer of the string's bytes, by value.
    ///
    /// Ports `BufferString::into_inner`.
    pub fn into_inner(self) -> ByteBuffer
        ensures content { result ≡ self }
        ensures utf8 { IsUtf8 result }
    {
        let BufferString { buffer } = self;
        buffer
    }

    /// The string in a range of bytes, which must lie within the string and cut no character. More
    /// than 22 bytes are shared; they are copied only if no further owner can be counted. Only that
    /// copy can answer `OutOfMemory`. Of this port alone.
    pub fn slice(&self, range: Range<usize>) -> Result<BufferString, VortexError>
        requires ordered { range.start ≤ range.end }
        requires within { range.end ≤ length self.now }
        requires starts { IsCharBoundary self.now range.start }
        requires ends { IsCharBoundary self.now range.end }
        ensures given { GivesOrNoMemory
            (λ string. string ≡ slice_range self.now range.start range.end) result }
        ensures inline { length (slice_range self.now range.start range.end) ≤ INLINE_BYTES → IsOk result }
    {
        let buffer = self.buffer.slice(range)?;
        Ok(BufferString { buffer })
    }

    /// A buffer with the same string. More than 22 bytes are shared; they are copied only if no
    /// further owner can be counted. Only that copy can answer `OutOfMemory`.
    ///
    /// Ports `BufferString::clone`.
    pub fn clone(&self) -> Result<BufferString, VortexError>
        ensures given { GivesOrNoMemory (λ string. string ≡ self.now) result }
        ensures inline { length self.now ≤ INLINE_BYTES → IsOk result }
    {
        // An error that is passed on is moved, with all its words.
        match self.buffer.clone() {
            Ok(buffer) => Ok(BufferString { buffer }),
            Err(_) => Err(VortexError::OutOfMemory),
        }
    }
}

/// The string that the bytes of a buffer are. `NotUtf8` exactly if they are not UTF-8. Takes no
/// memory.
///
/// Ports `TryFrom<ByteBuffer> for BufferString`.
impl TryFrom<ByteBuffer> for BufferString {
    type Error = VortexError;

    ghost try_from_gives = { IsTextOf };

    fn try_from(buffer: ByteBuffer) -> Result<BufferString, VortexError> {
        match str::from_utf8(buffer.as_slice()) {
            Ok(_) => Ok(BufferString { buffer }),
            Err(_) => Err(VortexError::NotUtf8),
        }
    }
}

impl PartialEq for BufferString {
    ghost eq = { pointwise nat_eq };

    ghost laws = { partial_equiv_from_equiv nat_list_eq_equiv };

    fn eq(&self, other: &BufferString) -> bool {
        self.buffer == other.buffer
    }
}

impl Eq for BufferString {
    ghost laws = { nat_list_eq_equiv };
}

impl PartialOrd for BufferString {
    ghost partial_cmp = { λ x y. Some (slice_cmp nat_cmp x y) };

    ghost laws = { texts_po };

    fn partial_cmp(&self, other: &BufferString) -> Option<Ordering> {
        Some(self.cmp(other))
    }
}

impl Ord for BufferString {
    ghost cmp = { slice_cmp nat_cmp };

    ghost total = { nat_list_cmp_total };

    ghost matches_partial_cmp = { λ x y. refl };

    ghost matches_eq = { texts_ties };

    fn cmp(&self, other: &BufferString) -> Ordering {
        self.buffer.cmp(&other.buffer)
    }
}

impl Hash for BufferString {
    ghost hash_input = { fed.slice fed.u8 };

    ghost respects_eq = { Prim.search (hashing, rules) };

    fn hash<H: Hasher>(&self, state: &mut H) {
        self.buffer.hash(state);
    }
}

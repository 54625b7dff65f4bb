//! An index, and what its encoding in bytes has.
//!
//! The encoding is a root and then blocks. The root has all but the statistics, and of each block
//! its length and digest. The first block has the first piece of each zone's statistics, the second
//! block the second pieces, and so on: so a reader reads the pieces alone that it wants.

ghost use Rattle.std.specs.Prelude.{◌≡◌};
ghost use Rattle.zone_index.specs.declared.encoding.ReadError.TheVariants.{Memory};
ghost use Rattle.zone_index.specs.declared.encoding.WriteError.TheVariants.{Memory as NoMemory};

use crate::zones::Zone;
use std::alloc::{AllocError, AllocFailed};

/// The first four bytes of an index: ZMAP.
pub const MAGIC: u32 = 0x5041_4D5A;

/// The version of its encoding.
pub const VERSION: u32 = 2;

/// How many bytes a digest has.
pub(crate) const DIGEST: usize = 32;

/// The index of a file.
#[derive(Debug, Drop)]
pub struct Index {
    /// How many bytes the file had.
    pub file_length: u64,
    /// When it was changed last: nanoseconds since 1970.
    pub changed: u64,
    /// How its records are read: bytes whose meaning is the caller's.
    pub setup: Vec<u8>,
    /// The offset of the first zone.
    pub start: u64,
    /// The zones.
    pub zones: Vec<Zone>,
}

/// What the root of an index says of a block.
#[derive(Debug, Drop)]
pub struct Block {
    /// How many bytes it has.
    pub length: u64,
    /// Their digest.
    pub digest: Vec<u8>,
}

/// The root of an index.
#[derive(Debug, Drop)]
pub struct Root {
    /// The index, its zones without statistics.
    pub index: Index,
    /// Its blocks.
    pub blocks: Vec<Block>,
}

/// What is wrong with the bytes: the first error from left to right.
#[derive(Clone, Copy, Debug, PartialEq, Eq)]
pub enum EncodingError {
    /// A field passes the end.
    Short,
    /// The bytes are of no index.
    Magic,
    /// They are of an index of another version.
    Version,
    /// The root or a block is not what was written: its digest is another.
    Damaged,
    /// Bytes stand after the last field of the root, the last piece of a block, or the last block.
    Trailing,
}

/// Why no index was read.
#[derive(Debug, Drop)]
pub enum ReadError {
    /// No memory was left.
    Memory,
    /// The bytes are no index.
    Fault(EncodingError),
}

impl From<AllocError> for ReadError {
    ghost from_gives = { λ _ e. e ≡ Memory };

    fn from(_e: AllocError) -> ReadError {
        ReadError::Memory
    }
}

impl<T: Drop> From<AllocFailed<T>> for ReadError {
    ghost from_gives = { λ _ e. e ≡ Memory };

    fn from(_e: AllocFailed<T>) -> ReadError {
        ReadError::Memory
    }
}

/// Why no index was written.
#[derive(Clone, Copy, Debug, PartialEq, Eq)]
pub enum WriteError {
    /// No memory was left.
    Memory,
    /// The statistics of a zone are not so many pieces, each after its length.
    Pieces,
}

impl From<AllocError> for WriteError {
    ghost from_gives = { λ _ e. e ≡ NoMemory };

    fn from(_e: AllocError) -> WriteError {
        WriteError::Memory
    }
}

impl<T: Drop> From<AllocFailed<T>> for WriteError {
    ghost from_gives = { λ _ e. e ≡ NoMemory };

    fn from(_e: AllocFailed<T>) -> WriteError {
        WriteError::Memory
    }
}

//! An index is read from its file: the root, and the blocks that are wanted.

ghost use Rattle.std.specs.Prelude.{◌≡◌, ◌<◌, ◌≤◌, ◌+◌, ◌++◌, ◌-◌, ◌^◌, ℕ, List, IfOk, IfSome, Ok, OnOk, drop, length};
ghost use Rattle.std.specs.Prelude.{map, min, take};
ghost use Rattle.zone_index.specs.Encoding.{RootValue, block_value, content_encoding, index_value, root_encoding};
ghost use Rattle.zone_index.specs.Encoding.{root_value};
ghost use Rattle.zone_index.specs.EncodingReading.{index_at};
ghost use Rattle.zone_scans.specs.Ranges.{bytes_of};
ghost use Rattle.zone_scans.specs.Roots.{BeginsAsIndex};
ghost use Rattle.zone_scans.specs.Wanted.{length_of_blocks};

use std::alloc::{AllocError, AllocFailed, Global};
use std::io;
use zone_index::{Block, EncodingError, Index, ReadAt, ReadError, Root, read_root};
use zone_scans::{ByteRange, HEAD_LENGTH, block_ranges, read_wanted, root_length};

/// The file of an index.
#[derive(Drop)]
pub struct IndexFile<R> {
    /// Its bytes.
    pub reader: R,
    /// How many they are.
    pub length: u64,
    /// How many were read, as far as 64 bits count.
    pub read: u64,
}

/// Why no index was read from a file.
#[derive(Drop)]
pub enum IndexError {
    /// The file cannot be read.
    System(io::Error),
    /// No memory was left, or the bytes are no index.
    Read(ReadError),
}

impl From<ReadError> for IndexError {
    fn from(error: ReadError) -> IndexError {
        IndexError::Read(error)
    }
}

impl From<AllocError> for IndexError {
    fn from(_error: AllocError) -> IndexError {
        IndexError::Read(ReadError::Memory)
    }
}

impl<T: Drop> From<AllocFailed<T>> for IndexError {
    fn from(_error: AllocFailed<T>) -> IndexError {
        IndexError::Read(ReadError::Memory)
    }
}

impl<R: ReadAt> IndexFile<R> {
    /// The file with so many bytes, of which none was read.
    pub fn new(reader: R, length: u64) -> IndexFile<R> {
        IndexFile {
            reader,
            length,
            read: 0,
        }
    }

    /// The root, and the place of the first block.
    pub fn root(&mut self, alloc: Global) -> Result<(Root, u64), IndexError>
        ensures kept { R.bytes self.new.reader ≡ R.bytes self.old.reader }
        ensures long { self.new.length ≡ self.old.length }
    {
        let mut bytes = self.piece(alloc, 0, HEAD_LENGTH as u64)?;
        let left = left_of_root(&bytes);
        let rest = self.piece(alloc, HEAD_LENGTH as u64, left)?;
        bytes.extend_from_slice(&rest)?;
        let (root, _) = read_root(alloc, &bytes)?;
        Ok((root, bytes.len() as u64))
    }

    /// The index of a root whose first block begins at this place, with the statistics of the columns
    /// that are wanted. The other blocks are not read.
    pub fn index(
        &mut self,
        alloc: Global,
        root: Root,
        start: u64,
        wanted: &[bool],
    ) -> Result<Index, IndexError>
        // It is what is read of all that follows the root.
        ensures found { IfOk result (λ index. IfSome (R.bytes self.old.reader) (λ xs. length xs ≡ self.old.length
            → index_at wanted.now (root_value root) (drop start xs) ≡ Ok (index_value index))) }
        ensures kept { R.bytes self.new.reader ≡ R.bytes self.old.reader }
    {
        check_length(&root.blocks, self.length.saturating_sub(start))?;
        let ranges = block_ranges(alloc, &root.blocks, start, wanted)?;
        let bytes = self.pieces(alloc, &ranges)?;
        Ok(read_wanted(root, &bytes, wanted)?)
    }

    /// The bytes of these ranges, one after another, as far as there are any.
    fn pieces(&mut self, alloc: Global, ranges: &[ByteRange]) -> Result<Vec<u8>, IndexError>
        ensures read { IfOk result (λ bytes. IfSome (R.bytes self.old.reader) (λ xs.
            length xs ≡ self.old.length → bytes.items ≡ bytes_of xs ranges.now)) }
        ensures kept { R.bytes self.new.reader ≡ R.bytes self.old.reader }
    {
        let mut bytes = Vec::new(alloc);
        for range in ranges {
            let piece = self.piece(alloc, range.place, range.length)?;
            bytes.extend_from_slice(&piece)?;
        }
        Ok(bytes)
    }

    /// So many bytes from this place on, or as many as there are.
    fn piece(&mut self, alloc: Global, place: u64, count: u64) -> Result<Vec<u8>, IndexError>
        ensures read { IfOk result (λ piece. IfSome (R.bytes self.old.reader) (λ xs.
            piece.items ≡ take (min count (self.old.length - place)) (drop place xs))) }
        ensures kept { R.bytes self.new.reader ≡ R.bytes self.old.reader }
        ensures long { self.new.length ≡ self.old.length }
    {
        let count = count_from(self.length, place, count) as usize;
        let mut piece = vec![in alloc; 0u8; count]?;
        let done = self.fill(place, &mut piece)?;
        piece.truncate(done);
        self.read = self.read.saturating_add(done as u64);
        Ok(piece)
    }

    /// Fills what there is room for with the bytes from this place on, and says how many there were.
    fn fill(&mut self, place: u64, into: &mut [u8]) -> Result<usize, IndexError>
        requires { place + length into.old < 2 ^ 64 }
        ensures within { IfOk result (λ done. done ≤ length into.old) }
        ensures filled { IfOk result (λ done. IfSome (R.bytes self.old.reader) (λ xs.
            take done into.new ≡ take (length into.old) (drop place xs))) }
        ensures kept { R.bytes self.new.reader ≡ R.bytes self.old.reader }
        ensures long { self.new.length ≡ self.old.length }
    {
        let mut done = 0;
        while done < into.len() {
            match self.reader.read_at(place + done as u64, &mut into[done..]) {
                Ok(0) => return Ok(done),
                Ok(count) => done += count,
                Err(error) => return Err(IndexError::System(error)),
            }
        }
        Ok(done)
    }
}

/// How many bytes of a file with this length there are from a place on, up to so many.
fn count_from(length: u64, place: u64, count: u64) -> u64
    ensures count { result ≡ min count (length - place) }
    ensures near { place + result < 2 ^ 64 }
{
    count.min(length.saturating_sub(place))
}

/// How many bytes of a root follow its first ones, which are these. Behind others none are asked for: they
/// begin no index.
fn left_of_root(head: &[u8]) -> u64
    ensures none { ¬ (BeginsAsIndex head.now) → result ≡ 0 }
    ensures long { (r : RootValue) (more rest : List ℕ) → length (content_encoding r) < 2 ^ 64
        → head.now ++ more ≡ root_encoding r ++ rest → result ≤ length (root_encoding r) - 16 }
{
    match root_length(head) {
        Ok(length) => length.saturating_sub(HEAD_LENGTH as u64),
        Err(_) => 0,
    }
}

/// Refuses so many bytes if they are not as many as the blocks of a root have.
fn check_length(blocks: &[Block], length: u64) -> Result<(), ReadError>
    ensures right { OnOk result (length ≡ length_of_blocks (map block_value blocks.now)) }
{
    let mut left = length;
    for block in blocks {
        match left.checked_sub(block.length) {
            Some(rest) => left = rest,
            None => return Err(ReadError::Fault(EncodingError::Short)),
        }
    }
    if left == 0 {
        Ok(())
    } else {
        Err(ReadError::Fault(EncodingError::Trailing))
    }
}

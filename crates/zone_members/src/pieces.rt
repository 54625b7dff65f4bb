//! Filters in pieces, and how a hash is looked up in these.

ghost use Rattle.std.specs.Prelude.{◌≡◌, ◌+◌, ◌<◌, ◌≤◌, ◌++◌, ◌^◌, ℕ, IsErr, List, MatchOption, Ok, OnOk, length};
ghost use Rattle.std.specs.Prelude.{slice_get};
ghost use Rattle.std.specs.List.{flat_map};
ghost use Rattle.std.specs.Option.{option_copied};
ghost use Rattle.zone_index.specs.Encoding.{ArePieces, bytes_encoding};
ghost use Rattle.zone_index.specs.EncodingReading.{bytes_at};
ghost use Rattle.zone_members.specs.Words.{block_may_contain, block_of, blocks_in, max_blocks, piece_may_contain};

use membership::{SplitBlockBloomFilter, SplitBlockBloomFilterRef};
use std::alloc::AllocError;

/// How many bytes a block of a filter has.
const BLOCK: usize = 32;

/// Appends the blocks of a filter as pieces, each after its length.
pub fn push_blocks(filter: &SplitBlockBloomFilter, output: &mut Vec<u8>) -> Result<(), AllocError>
    ensures { OnOk result (output.new.items
        ≡ output.old.items ++ flat_map bytes_encoding (blocks_in filter.now)) }
{
    let filter = filter.as_ref();
    let (blocks, _) = filter.as_bytes().as_chunks::<BLOCK>();
    for block in blocks {
        push_piece(block, output)?;
    }
    Ok(())
}

/// Appends a piece, after its length.
fn push_piece(piece: &[u8], output: &mut Vec<u8>) -> Result<(), AllocError>
    ensures { OnOk result (output.new.items ≡ output.old.items ++ bytes_encoding piece.now) }
{
    output.extend_from_slice(&(piece.len() as u64).to_le_bytes())?;
    output.extend_from_slice(piece)
}

/// Which piece a hash is looked up in, of a filter of so many blocks whose first piece is the one with the
/// number `first`.
pub fn piece_of(first: usize, blocks: usize, hash: u64) -> usize
    requires some { 0 < blocks }
    requires fits { blocks ≤ max_blocks }
    requires near { first + blocks < 2 ^ 64 }
    ensures value { result ≡ first + block_of blocks hash }
    ensures within { result < first + blocks }
{
    first + (((hash >> 32) * blocks as u64) >> 32) as usize
}

/// Whether a filter may contain a hash, by its pieces among those of a zone: it has so many blocks, and the
/// first piece is the one with the number `first`.
///
/// Where the piece is missing, or has not the length of a block, the hash may be contained. Of bytes that
/// are no pieces the answer may be either.
pub fn may_contain_in(pieces: &[u8], first: usize, blocks: usize, hash: u64) -> bool
    requires some { 0 < blocks }
    requires fits { blocks ≤ max_blocks }
    requires near { first + blocks < 2 ^ 64 }
    ensures { (count : ℕ) (all : List (List ℕ)) → ArePieces count pieces.now all
        → result ≡ piece_may_contain (slice_get all (first + block_of blocks hash)) hash }
{
    match piece_at(pieces, piece_of(first, blocks, hash)) {
        Some(piece) => block_may_contain(piece, hash),
        None => true,
    }
}

/// Whether a block may contain a hash: what has another length may.
fn block_may_contain(piece: &[u8], hash: u64) -> bool
    ensures { result ≡ block_may_contain piece.now hash }
{
    if piece.len() != BLOCK {
        return true;
    }
    match SplitBlockBloomFilterRef::from_bytes(piece) {
        Ok(filter) => filter.may_contain_hash(hash),
        Err(_) => unreachable!(),
    }
}

/// The piece with this number, if there are so many.
fn piece_at(pieces: &[u8], place: usize) -> Option<&[u8]>
    ensures { (count : ℕ) (all : List (List ℕ)) → ArePieces count pieces.now all
        → option_copied result ≡ slice_get all place }
{
    let mut rest = pieces;
    for _ in 0..place {
        let (_, after) = first_piece(rest)?;
        rest = after;
    }
    let (piece, _) = first_piece(rest)?;
    Some(piece)
}

/// The first piece, and what follows it. `None` if there is none.
#[tactic(auto, unfolding(zone_index::specs::EncodingReading::bytes_at))]
fn first_piece(pieces: &[u8]) -> Option<(&[u8], &[u8])>
    ensures { MatchOption result (IsErr (bytes_at pieces.now))
        (λ parts. bytes_at pieces.now ≡ Ok (parts.0.now, parts.1.now)) }
{
    if pieces.len() < 8 {
        return None;
    }
    let (front, rest) = pieces.split_at(8);
    let length = u64::from_le_bytes([
        front[0], front[1], front[2], front[3], front[4], front[5], front[6], front[7],
    ]);
    let length = length as usize;
    if rest.len() < length {
        return None;
    }
    Some(rest.split_at(length))
}

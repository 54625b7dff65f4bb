//! An index is read from bytes.

ghost use Rattle.std.specs.Prelude.{◌≡◌, ◌≢◌, ◌++◌, ℕ, List, IfErr, IfOk, Ok, map};
ghost use Rattle.std.specs.List.{concat};
ghost use Rattle.zone_index.specs.Encoding.{AddBlocks, FitsEncoding, IndexValue, block_value, blocks_of};
ghost use Rattle.zone_index.specs.Encoding.{index_encoding, index_value, root_encoding, root_of, root_value, wanted_of};
ghost use Rattle.zone_index.specs.Encoding.{zone_value, zone_values};
ghost use Rattle.zone_index.specs.EncodingReading.{Gives, IsSigned, block_at, content_at, counted_at, file_at};
ghost use Rattle.zone_index.specs.EncodingReading.{index_at, many_at, root_at, signed_at, zone_at};
ghost use Rattle.zone_index.specs.declared.encoding.ReadError.TheVariants.{Memory};

use crate::blocks::add_blocks;
use crate::encoding::{Block, DIGEST, EncodingError, Index, MAGIC, ReadError, Root, VERSION};
use crate::fields::{after_known, bytes_in, front_in, u64_at};
use crate::zones::Zone;
use sha2::{Digest, Sha256};
use std::alloc::Global;

/// The bytes before a digest, if it is theirs, and what follows it.
#[tactic(auto, unfolding(crate::specs::EncodingReading::signed_at))]
fn signed_in(bytes: &[u8]) -> Result<(&[u8], &[u8]), ReadError>
    ensures read { Gives (λ x. (x.0.now, x.1.now)) result (signed_at bytes.now) }
    ensures memory { IfErr result (λ e. e ≢ Memory) }
{
    let (content, rest) = bytes_in(bytes)?;
    let (digest, after) = front_in(DIGEST as u64, rest)?;
    if Sha256::digest(content).as_slice() == digest {
        Ok((content, after))
    } else {
        Err(ReadError::Fault(EncodingError::Damaged))
    }
}

/// A zone, without statistics.
#[tactic(auto, unfolding(crate::specs::EncodingReading::zone_at))]
fn zone_in(alloc: Global, bytes: &[u8]) -> Result<(Zone, &[u8]), ReadError>
    ensures { Gives (λ x. (zone_value x.0, x.1.now)) result (zone_at bytes.now) }
{
    let (first, rest) = u64_at(bytes)?;
    let (length, rest) = u64_at(rest)?;
    let (records, rest) = u64_at(rest)?;
    let (rows, rest) = u64_at(rest)?;
    let zone = Zone {
        first,
        length,
        records,
        rows,
        statistics: Vec::new(alloc),
    };
    Ok((zone, rest))
}

/// So many zones.
fn zones_in(alloc: Global, count: u64, bytes: &[u8]) -> Result<(Vec<Zone>, &[u8]), ReadError>
    ensures { Gives (λ x. (zone_values x.0.items, x.1.now)) result (many_at zone_at count bytes.now) }
{
    let mut zones = Vec::new(alloc);
    let mut rest = bytes;
    for _ in 0..count {
        let (zone, after) = zone_in(alloc, rest)?;
        zones.push(zone)?;
        rest = after;
    }
    Ok((zones, rest))
}

/// What is said of a block.
#[tactic(auto, unfolding(crate::specs::EncodingReading::block_at))]
fn block_in(alloc: Global, bytes: &[u8]) -> Result<(Block, &[u8]), ReadError>
    ensures { Gives (λ x. (block_value x.0, x.1.now)) result (block_at bytes.now) }
{
    let (length, rest) = u64_at(bytes)?;
    let (digest, rest) = front_in(DIGEST as u64, rest)?;
    let block = Block {
        length,
        digest: Vec::from_slice(alloc, digest)?,
    };
    Ok((block, rest))
}

/// What is said of so many blocks.
fn blocks_in(alloc: Global, count: u64, bytes: &[u8]) -> Result<(Vec<Block>, &[u8]), ReadError>
    ensures { Gives (λ x. (map block_value x.0.items, x.1.now)) result (many_at block_at count bytes.now) }
{
    let mut blocks = Vec::new(alloc);
    let mut rest = bytes;
    for _ in 0..count {
        let (block, after) = block_in(alloc, rest)?;
        blocks.push(block)?;
        rest = after;
    }
    Ok((blocks, rest))
}

/// What is said of the file: an index without zones.
#[tactic(auto, unfolding(crate::specs::EncodingReading::file_at))]
fn file_in(alloc: Global, bytes: &[u8]) -> Result<(Index, &[u8]), ReadError>
    ensures { Gives (λ x. (index_value x.0, x.1.now)) result (file_at bytes.now) }
{
    let (file_length, rest) = u64_at(bytes)?;
    let (changed, rest) = u64_at(rest)?;
    let (start, rest) = u64_at(rest)?;
    let (setup, rest) = bytes_in(rest)?;
    let index = Index {
        file_length,
        changed,
        setup: Vec::from_slice(alloc, setup)?,
        start,
        zones: Vec::new(alloc),
    };
    Ok((index, rest))
}

/// How many zones there are, and these.
#[tactic(auto, unfolding(crate::specs::EncodingReading::counted_at))]
fn counted_zones_in(alloc: Global, bytes: &[u8]) -> Result<(Vec<Zone>, &[u8]), ReadError>
    ensures { Gives (λ x. (zone_values x.0.items, x.1.now)) result (counted_at zone_at bytes.now) }
{
    let (count, rest) = u64_at(bytes)?;
    zones_in(alloc, count, rest)
}

/// How many blocks there are, and what is said of these.
#[tactic(auto, unfolding(crate::specs::EncodingReading::counted_at))]
fn counted_blocks_in(alloc: Global, bytes: &[u8]) -> Result<(Vec<Block>, &[u8]), ReadError>
    ensures { Gives (λ x. (map block_value x.0.items, x.1.now)) result (counted_at block_at bytes.now) }
{
    let (count, rest) = u64_at(bytes)?;
    blocks_in(alloc, count, rest)
}

/// The root whose content these bytes are.
#[tactic(auto, unfolding(crate::specs::EncodingReading::content_at))]
fn content_in(alloc: Global, bytes: &[u8]) -> Result<Root, ReadError>
    ensures { Gives root_value result (content_at bytes.now) }
{
    let (mut index, rest) = file_in(alloc, bytes)?;
    let (zones, rest) = counted_zones_in(alloc, rest)?;
    let (blocks, rest) = counted_blocks_in(alloc, rest)?;
    if !rest.is_empty() {
        return Err(ReadError::Fault(EncodingError::Trailing));
    }
    index.zones = zones;
    Ok(Root { index, blocks })
}

/// The root, and the bytes of the blocks.
#[tactic(auto, unfolding(crate::specs::EncodingReading::root_at, crate::specs::EncodingReading::signed_root_at))]
fn root_in(alloc: Global, bytes: &[u8]) -> Result<(Root, &[u8]), ReadError>
    ensures exact { Gives (λ x. (root_value x.0, x.1.now)) result (root_at bytes.now) }
    ensures signed { IfErr result (λ e. e ≡ Memory → IsSigned bytes.now) }
{
    let rest = after_known(EncodingError::Magic, MAGIC, bytes)?;
    let rest = after_known(EncodingError::Version, VERSION, rest)?;
    let (content, rest) = signed_in(rest)?;
    let root = content_in(alloc, content)?;
    Ok((root, rest))
}

/// The root of an index, and the bytes of its blocks, on which the root does not depend.
pub fn read_root(alloc: Global, bytes: &[u8]) -> Result<(Root, &[u8]), ReadError>
    // What is read has this encoding.
    ensures found { IfOk result (λ read. bytes.now ≡ root_encoding (root_value read.0) ++ read.1.now) }
    // What was written is read, unless memory runs out.
    ensures only { (n : ℕ) (x : IndexValue) (pieces : List (List (List ℕ))) → FitsEncoding n x pieces
        → bytes.now ≡ index_encoding n x pieces → IfOk result (λ read.
        (root_value read.0 ≡ root_of x (blocks_of n pieces))
        × (read.1.now ≡ concat (blocks_of n pieces))) }
    ensures memory { (n : ℕ) (x : IndexValue) (pieces : List (List (List ℕ))) → FitsEncoding n x pieces
        → bytes.now ≡ index_encoding n x pieces → IfErr result (λ e. e ≡ Memory) }
    // Which error it is.
    ensures exact { Gives (λ read. (root_value read.0, read.1.now)) result (root_at bytes.now) }
    // Memory is asked for once the digest was found right.
    ensures signed { IfErr result (λ e. e ≡ Memory → IsSigned bytes.now) }
{
    root_in(alloc, bytes)
}

/// The index of a root, with the statistics that its blocks have.
fn index_in(root: Root, bytes: &[u8], wanted: &[bool]) -> Result<Index, ReadError>
    ensures { Gives index_value result
        (index_at wanted.now (root_value root) bytes.now) }
{
    let Root { mut index, blocks } = root;
    add_blocks(&mut index.zones, &blocks, bytes, wanted)?;
    Ok(index)
}

/// The index of a root, with the statistics that its blocks have: these bytes.
///
/// A block at whose place the list has `false` is not wanted. The answer does not depend on its bytes, and
/// each zone has an empty piece of it.
pub fn read_blocks(root: Root, bytes: &[u8], wanted: &[bool]) -> Result<Index, ReadError>
    // What is read has this encoding.
    ensures found { IfOk result (λ index. AddBlocks wanted.now 0
        (map block_value root.blocks.items) bytes.now
        (zone_values root.index.zones.items) (zone_values index.zones.items)) }
    // What was written is read, unless memory runs out.
    ensures only { (n : ℕ) (x : IndexValue) (pieces : List (List (List ℕ))) → FitsEncoding n x pieces
        → root_value root ≡ root_of x (blocks_of n pieces) → bytes.now ≡ concat (blocks_of n pieces)
        → Gives index_value result (Ok (wanted_of wanted.now x pieces)) }
    // Which error it is, and what is read.
    ensures exact { Gives index_value result
        (index_at wanted.now (root_value root) bytes.now) }
{
    index_in(root, bytes, wanted)
}

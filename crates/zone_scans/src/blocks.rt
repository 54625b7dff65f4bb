//! The blocks of an index that a search wants.

ghost use Rattle.std.specs.Prelude.{◌≡◌, ◌≢◌, ◌≤◌, ◌+◌, ◌^◌, ℕ, List, IfErr, IfOk, drop, if◌then◌else◌, length, map};
ghost use Rattle.zone_index.specs.Encoding.{block_value, index_value, is_wanted, root_value};
ghost use Rattle.zone_index.specs.EncodingReading.{Gives, index_at};
ghost use Rattle.zone_index.specs.declared.encoding.ReadError.TheVariants.{Fault, Memory};
ghost use Rattle.zone_index.specs.declared.encoding.EncodingError.TheVariants.{Short};
ghost use Rattle.zone_scans.specs.Ranges.{AreJoined, bytes_of};
ghost use Rattle.zone_scans.specs.Wanted.{length_of_blocks, wanted_blocks, wanted_bytes, wanted_root};

use crate::ranges::{ByteRange, push_range};
use std::alloc::Global;
use zone_index::{Block, EncodingError, Index, ReadError, Root, read_blocks};

/// Where in an index the blocks stand that are wanted: each but those at whose place the list has
/// `false`. The first block begins at `start`, behind the root.
pub fn block_ranges(
    alloc: Global,
    blocks: &[Block],
    start: u64,
    wanted: &[bool],
) -> Result<Vec<ByteRange>, ReadError>
    // What they cover, in order, is what the blocks do that are wanted.
    ensures covers { IfOk result (λ ranges. (bytes : List ℕ) → bytes_of bytes ranges.items
        ≡ wanted_bytes wanted.now 0 (map block_value blocks.now) (drop start bytes)) }
    // None is empty, and none begins where the one before it ends.
    ensures joined { IfOk result (λ ranges. AreJoined ranges.items) }
    // No index is so long: reading it finds that it is too short.
    ensures far { IfErr result (λ e. e ≢ Memory → (e ≡ Fault Short)
        × (2 ^ 64 ≤ start + length_of_blocks (map block_value blocks.now))) }
{
    let mut ranges = Vec::new(alloc);
    let mut place = start;
    for column in 0..blocks.len() {
        let range = ByteRange {
            place,
            length: blocks[column].length,
        };
        let Some(end) = range.end() else {
            return Err(ReadError::Fault(EncodingError::Short));
        };
        push_range(is_wanted(wanted, column), range, &mut ranges)?;
        place = end;
    }
    Ok(ranges)
}

/// The index of a root, with the statistics that the blocks have that are wanted: these bytes.
pub fn read_wanted(root: Root, bytes: &[u8], wanted: &[bool]) -> Result<Index, ReadError>
    // It is what is read of all blocks, whatever stands in the others.
    ensures same { (all : List ℕ) → length all ≡ length_of_blocks (map block_value root.blocks.items)
        → bytes.now ≡ wanted_bytes wanted.now 0 (map block_value root.blocks.items) all
        → Gives index_value result (index_at wanted.now (root_value root) all) }
    // Of any bytes it is as if the others had none.
    ensures exact { Gives index_value result
        (index_at wanted.now (wanted_root wanted.now (root_value root)) bytes.now) }
{
    let Root { index, mut blocks } = root;
    leave_out(&mut blocks, wanted);
    read_blocks(Root { index, blocks }, bytes, wanted)
}

/// Takes the bytes of the blocks that are not wanted for none.
fn leave_out(blocks: &mut [Block], wanted: &[bool])
    ensures { map block_value blocks.new ≡ wanted_blocks wanted.now 0 (map block_value blocks.old) }
{
    for column in 0..blocks.len() {
        let length = blocks[column].length;
        blocks[column].length = length_if(is_wanted(wanted, column), length);
    }
}

/// The length of a block, if it is wanted, and else none.
fn length_if(is_wanted: bool, length: u64) -> u64
    ensures { result ≡ (if is_wanted then length else 0) }
{
    if is_wanted { length } else { 0 }
}

/// Whether a block is wanted.
fn is_wanted(wanted: &[bool], place: usize) -> bool
    ensures { result ≡ is_wanted wanted.now place }
{
    place >= wanted.len() || wanted[place]
}

//! The blocks of an index: pieces of the statistics of its zones.

ghost use Rattle.std.specs.Prelude.{◌≡◌, ◌++◌, [], OnOk, map};
ghost use Rattle.zone_index.specs.Encoding.{block_value, bytes_encoding, is_wanted, with_statistics, with_unread};
ghost use Rattle.zone_index.specs.Encoding.{zone_values};
ghost use Rattle.zone_index.specs.EncodingReading.{Gives, added_at, blocks_at, dealt_at};

use crate::encoding::{Block, EncodingError, ReadError};
use crate::fields::{front_in, piece_in};
use crate::zones::Zone;
use sha2::{Digest, Sha256};
use std::alloc::AllocError;

/// Adds to each zone the pieces that blocks have of it: these bytes.
pub(crate) fn add_blocks(
    zones: &mut [Zone],
    blocks: &[Block],
    bytes: &[u8],
    wanted: &[bool],
) -> Result<(), ReadError>
    ensures { Gives (λ _. zone_values zones.new) result (blocks_at wanted.now 0
        (map block_value blocks.now) (zone_values zones.old) bytes.now) }
{
    let mut rest = bytes;
    for (place, block) in blocks.iter().enumerate() {
        let (front, after) = front_in(block.length, rest)?;
        add_block(zones, block, front, is_wanted(wanted, place))?;
        rest = after;
    }
    if rest.is_empty() {
        Ok(())
    } else {
        Err(ReadError::Fault(EncodingError::Trailing))
    }
}

/// Whether a block is wanted.
fn is_wanted(wanted: &[bool], place: usize) -> bool
    ensures { result ≡ is_wanted wanted.now place }
{
    place >= wanted.len() || wanted[place]
}

/// Adds to each zone the piece that a block has of it, or an empty one.
#[tactic(auto, unfolding(crate::specs::EncodingReading::added_at))]
fn add_block(
    zones: &mut [Zone],
    block: &Block,
    bytes: &[u8],
    is_wanted: bool,
) -> Result<(), ReadError>
    ensures { Gives (λ _. zone_values zones.new) result (added_at is_wanted
        (block_value block.now) (zone_values zones.old) bytes.now) }
{
    if !is_wanted {
        add_unread(zones)?;
        return Ok(());
    }
    if Sha256::digest(bytes).as_slice() != block.digest.as_slice() {
        return Err(ReadError::Fault(EncodingError::Damaged));
    }
    add_pieces(zones, bytes)
}

/// Adds to each zone an empty piece.
fn add_unread(zones: &mut [Zone]) -> Result<(), AllocError>
    ensures { OnOk result (zone_values zones.new ≡ with_unread (zone_values zones.old)) }
{
    for zone in zones.iter_mut() {
        push_empty(&mut zone.statistics)?;
    }
    Ok(())
}

/// Appends an empty piece: its length, which is 0.
fn push_empty(output: &mut Vec<u8>) -> Result<(), AllocError>
    ensures { OnOk result (output.new.items ≡ output.old.items ++ bytes_encoding []) }
{
    output.extend_from_slice(&0u64.to_le_bytes())
}

/// Adds to each zone the piece that these bytes have of it.
fn add_pieces(zones: &mut [Zone], bytes: &[u8]) -> Result<(), ReadError>
    ensures { Gives (λ _. zone_values zones.new) result
        (dealt_at with_statistics (zone_values zones.old) bytes.now) }
{
    let mut rest = bytes;
    for zone in zones.iter_mut() {
        let (piece, after) = piece_in(rest)?;
        zone.statistics.extend_from_slice(piece)?;
        rest = after;
    }
    if rest.is_empty() {
        Ok(())
    } else {
        Err(ReadError::Fault(EncodingError::Trailing))
    }
}

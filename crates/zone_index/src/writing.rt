//! An index is written as bytes.

ghost use Rattle.std.specs.Prelude.{◌≡◌, ◌++◌, ◌<◌, ◌^◌, ℕ, List, [], IfErr, IfOk, OnOk, false, length, map, true};
ghost use Rattle.std.specs.Int.{to_le_bytes, w64};
ghost use Rattle.std.specs.List.{AllByRecursion, concat, flat_map};
ghost use Rattle.sha2.specs.Sha256.{sha256};
ghost use Rattle.zone_index.specs.Encoding.{AreDealt, FitsContent, FitsFile, FitsEncoding, FitsZone, HavePieces};
ghost use Rattle.zone_index.specs.Encoding.{block_encoding, block_of, blocks_of, bytes_encoding, content_encoding};
ghost use Rattle.zone_index.specs.Encoding.{file_encoding, index_encoding, index_value, root_of, zone_encoding};
ghost use Rattle.zone_index.specs.Encoding.{zone_value, zone_values};
ghost use Rattle.zone_index.specs.EncodingReading.{Gives, dealt_at};
ghost use Rattle.zone_index.specs.declared.encoding.WriteError.TheVariants.{Memory, Pieces};

use crate::encoding::{EncodingError, Index, MAGIC, ReadError, VERSION, WriteError};
use crate::fields::{are_pieces, piece_in};
use crate::zones::Zone;
use sha2::{Digest, Sha256};
use std::alloc::{AllocError, Global};

/// Appends the eight bytes of a number.
fn push_number(output: &mut Vec<u8>, number: u64) -> Result<(), AllocError>
    ensures pushed { OnOk result (output.new.items ≡ output.old.items ++ to_le_bytes w64 number) }
    ensures fits { number < 2 ^ 64 }
{
    output.extend_from_slice(&number.to_le_bytes())
}

/// Appends bytes, after how many they are.
fn push_bytes(output: &mut Vec<u8>, bytes: &[u8]) -> Result<(), AllocError>
    ensures pushed { OnOk result (output.new.items ≡ output.old.items ++ bytes_encoding bytes.now) }
    ensures fits { length bytes.now < 2 ^ 64 }
{
    push_number(output, bytes.len() as u64)?;
    output.extend_from_slice(bytes)
}

/// Appends a zone, without statistics.
fn push_zone(output: &mut Vec<u8>, zone: &Zone) -> Result<(), AllocError>
    ensures pushed { OnOk result (output.new.items ≡ output.old.items ++ zone_encoding (zone_value zone.now)) }
    ensures fits { OnOk result (FitsZone (zone_value zone.now)) }
{
    push_number(output, zone.first)?;
    push_number(output, zone.length)?;
    push_number(output, zone.records)?;
    push_number(output, zone.rows)?;
    Ok(())
}

/// Appends what is said of the file.
fn push_file(output: &mut Vec<u8>, index: &Index) -> Result<(), AllocError>
    ensures pushed { OnOk result (output.new.items ≡
        output.old.items ++ file_encoding (index_value index.now)) }
    ensures fits { OnOk result (FitsFile (index_value index.now)) }
{
    push_number(output, index.file_length)?;
    push_number(output, index.changed)?;
    push_number(output, index.start)?;
    push_bytes(output, &index.setup)?;
    Ok(())
}

/// Appends zones.
fn push_zones(output: &mut Vec<u8>, zones: &[Zone]) -> Result<(), AllocError>
    ensures pushed { OnOk result (output.new.items ≡
        output.old.items ++ flat_map zone_encoding (zone_values zones.now)) }
    ensures fits { OnOk result (AllByRecursion FitsZone (zone_values zones.now)) }
{
    for zone in zones {
        push_zone(output, zone)?;
    }
    Ok(())
}

/// Appends what the root says of a block.
fn push_block(output: &mut Vec<u8>, bytes: &[u8]) -> Result<(), AllocError>
    ensures pushed { OnOk result (output.new.items ≡ output.old.items ++ block_encoding (block_of bytes.now)) }
    ensures fits { length bytes.now < 2 ^ 64 }
{
    push_number(output, bytes.len() as u64)?;
    output.extend_from_slice(&Sha256::digest(bytes))
}

/// Appends what the root says of blocks.
fn push_blocks(output: &mut Vec<u8>, blocks: &[Vec<u8>]) -> Result<(), AllocError>
    ensures pushed { OnOk result (output.new.items ≡
        output.old.items ++ flat_map block_encoding (map block_of (map (λ b. b.items) blocks.now))) }
    ensures fits { OnOk result (AllByRecursion (λ b. length b < 2 ^ 64) (map (λ b. b.items) blocks.now)) }
{
    for block in blocks {
        push_block(output, block)?;
    }
    Ok(())
}

/// Appends how many zones there are, and these.
fn push_counted_zones(output: &mut Vec<u8>, zones: &[Zone]) -> Result<(), AllocError>
    ensures pushed { OnOk result (output.new.items ≡ output.old.items
        ++ (to_le_bytes w64 (length zones.now) ++ flat_map zone_encoding (zone_values zones.now))) }
    ensures count { length zones.now < 2 ^ 64 }
    ensures fits { OnOk result (AllByRecursion FitsZone (zone_values zones.now)) }
{
    push_number(output, zones.len() as u64)?;
    push_zones(output, zones)
}

/// Appends how many blocks there are, and what the root says of these.
fn push_counted_blocks(output: &mut Vec<u8>, blocks: &[Vec<u8>]) -> Result<(), AllocError>
    ensures pushed { OnOk result (output.new.items ≡ output.old.items
        ++ (to_le_bytes w64 (length blocks.now)
        ++ flat_map block_encoding (map block_of (map (λ b. b.items) blocks.now)))) }
    ensures count { length blocks.now < 2 ^ 64 }
    ensures fits { OnOk result (AllByRecursion (λ b. length b < 2 ^ 64) (map (λ b. b.items) blocks.now)) }
{
    push_number(output, blocks.len() as u64)?;
    push_blocks(output, blocks)
}

/// The content of the root.
fn content_of(alloc: Global, index: &Index, blocks: &[Vec<u8>]) -> Result<Vec<u8>, AllocError>
    ensures content { IfOk result (λ v. v.items ≡ content_encoding
        (root_of (index_value index.now) (map (λ b. b.items) blocks.now))) }
    ensures fits { OnOk result (FitsContent (index_value index.now) (map (λ b. b.items) blocks.now)) }
{
    let mut output = Vec::new(alloc);
    push_file(&mut output, index)?;
    push_counted_zones(&mut output, &index.zones)?;
    push_counted_blocks(&mut output, blocks)?;
    Ok(output)
}

/// Adds to each block the piece that these bytes have for it.
fn deal(bytes: &[u8], blocks: &mut [Vec<u8>]) -> Result<(), ReadError>
    ensures dealt { OnOk result (AreDealt (λ b piece. b ++ piece) (map (λ b. b.items) blocks.old)
        bytes.now (map (λ b. b.items) blocks.new)) }
    ensures exact { Gives (λ _. map (λ b. b.items) blocks.new) result
        (dealt_at (λ b piece. b ++ piece) (map (λ b. b.items) blocks.old) bytes.now) }
{
    let mut rest = bytes;
    for block in blocks.iter_mut() {
        let (piece, after) = piece_in(rest)?;
        block.extend_from_slice(piece)?;
        rest = after;
    }
    if rest.is_empty() {
        Ok(())
    } else {
        Err(ReadError::Fault(EncodingError::Trailing))
    }
}

/// Whether the statistics of each zone are so many pieces.
fn have_pieces(columns: usize, zones: &[Zone]) -> bool
    ensures have { result ≡ true → (pieces : List (List (List ℕ)))
        × HavePieces columns (zone_values zones.now) pieces }
    ensures none { result ≡ false → (pieces : List (List (List ℕ)))
        → ¬ (HavePieces columns (zone_values zones.now) pieces) }
{
    for zone in zones {
        if !are_pieces(columns, &zone.statistics) {
            return false;
        }
    }
    true
}

/// The blocks of zones, so many.
fn blocks_of(alloc: Global, columns: usize, zones: &[Zone]) -> Result<Vec<Vec<u8>>, AllocError>
    requires { (pieces : List (List (List ℕ))) × HavePieces columns (zone_values zones.now) pieces }
    ensures { IfOk result (λ blocks. (pieces : List (List (List ℕ)))
        × HavePieces columns (zone_values zones.now) pieces
        × (map (λ b. b.items) blocks.items ≡ blocks_of columns pieces)) }
{
    let mut blocks = empty_blocks(alloc, columns)?;
    for zone in zones {
        match deal(&zone.statistics, &mut blocks) {
            Ok(()) => {}
            Err(ReadError::Memory) => return Err(AllocError),
            Err(ReadError::Fault(_)) => unreachable!(),
        }
    }
    Ok(blocks)
}

/// So many blocks with nothing in them.
fn empty_blocks(alloc: Global, count: usize) -> Result<Vec<Vec<u8>>, AllocError>
    ensures { IfOk result (λ blocks. map (λ b. b.items) blocks.items ≡ blocks_of count []) }
{
    let mut blocks = Vec::with_capacity(alloc, count)?;
    for _ in 0..count {
        blocks.push(Vec::new(alloc))?;
    }
    Ok(blocks)
}

/// Appends all of these, one after another.
fn push_all(output: &mut Vec<u8>, blocks: &[Vec<u8>]) -> Result<(), AllocError>
    ensures { OnOk result (output.new.items ≡
        output.old.items ++ concat (map (λ b. b.items) blocks.now)) }
{
    for block in blocks {
        output.extend_from_slice(block)?;
    }
    Ok(())
}

/// Appends what is signed after its length, and its digest.
fn push_signed(output: &mut Vec<u8>, content: &[u8]) -> Result<(), AllocError>
    ensures pushed { OnOk result (output.new.items ≡
        output.old.items ++ (bytes_encoding content.now ++ sha256 content.now)) }
    ensures fits { length content.now < 2 ^ 64 }
{
    push_bytes(output, content)?;
    output.extend_from_slice(&Sha256::digest(content))
}

/// The encoding of an index, where the statistics of each zone are so many pieces.
fn encoding_of(alloc: Global, columns: usize, index: &Index) -> Result<Vec<u8>, AllocError>
    requires { (pieces : List (List (List ℕ)))
        × HavePieces columns (zone_values index.now.zones.items) pieces }
    ensures { IfOk result (λ v. (pieces : List (List (List ℕ)))
        × FitsEncoding columns (index_value index.now) pieces
        × (v.items ≡ index_encoding columns (index_value index.now) pieces)) }
{
    let blocks = blocks_of(alloc, columns, &index.zones)?;
    let content = content_of(alloc, index, &blocks)?;
    let mut output = Vec::new(alloc);
    output.extend_from_slice(&MAGIC.to_le_bytes())?;
    output.extend_from_slice(&VERSION.to_le_bytes())?;
    push_signed(&mut output, &content)?;
    push_all(&mut output, &blocks)?;
    Ok(output)
}

/// The encoding of an index, the statistics of whose zones are so many pieces, each after its
/// length. Whether they are is tested before memory is asked for.
pub fn write_index(alloc: Global, columns: usize, index: &Index) -> Result<Vec<u8>, WriteError>
    // It is the encoding of these pieces, and so is read back.
    ensures written { IfOk result (λ v. (pieces : List (List (List ℕ)))
        × FitsEncoding columns (index_value index.now) pieces
        × (v.items ≡ index_encoding columns (index_value index.now) pieces)) }
    // It is refused exactly if they are no such pieces.
    ensures refused { IfErr result (λ e. e ≡ Pieces → (pieces : List (List (List ℕ)))
        → ¬ (HavePieces columns (zone_values index.now.zones.items) pieces)) }
    ensures memory { IfErr result (λ e. e ≡ Memory → (pieces : List (List (List ℕ)))
        × HavePieces columns (zone_values index.now.zones.items) pieces) }
{
    if !have_pieces(columns, &index.zones) {
        return Err(WriteError::Pieces);
    }
    let output = encoding_of(alloc, columns, index)?;
    Ok(output)
}

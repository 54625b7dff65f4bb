//! Zones of an index in numbers, and its bytes.

ghost use Rattle.std.specs.Prelude.{◌≡◌, ◌≢◌, ℕ, IfErr, IfOk, List, MatchBool, length, map, sum_by};
ghost use Rattle.std.specs.List.{flat_map};
ghost use Rattle.vortex_c.specs.IndexWords.{HavePieces, IsWritten, Pieces, index_of, index_zone, zone_values};
ghost use Rattle.vortex_c.specs.IndexWords.{zones_cut};

use std::alloc::{AllocError, Global};
use zone_index::{Index, WriteError, Zone, write_index};

/// A zone of an index, in numbers.
#[derive(Clone, Copy)]
#[repr(C)]
pub struct IndexZone {
    /// The offset of its first byte.
    pub first: u64,
    /// How many bytes it has.
    pub length: u64,
    /// How many records.
    pub records: u64,
    /// How many of them have a row.
    pub rows: u64,
    /// How many bytes its statistics have.
    pub statistics: usize,
}

/// What is said of a file, beside its zones.
#[derive(Clone, Copy)]
pub(crate) struct FileParts {
    /// How many bytes it has.
    pub file_length: u64,
    /// When it was changed last.
    pub changed: u64,
    /// The offset of its first record.
    pub start: u64,
}

/// The zones in numbers.
pub(crate) fn zone_numbers(alloc: Global, zones: &[Zone]) -> Result<Vec<IndexZone>, AllocError>
    ensures { IfOk result (λ numbers. numbers.items ≡ map index_zone zones.now) }
{
    let mut numbers = Vec::new(alloc);
    for zone in zones {
        numbers.push(IndexZone {
            first: zone.first,
            length: zone.length,
            records: zone.records,
            rows: zone.rows,
            statistics: zone.statistics.len(),
        })?;
    }
    Ok(numbers)
}

/// The statistics of zones, one behind another.
pub(crate) fn statistics_of(alloc: Global, zones: &[Zone]) -> Result<Vec<u8>, AllocError>
    ensures { IfOk result (λ bytes. bytes.items ≡ flat_map (λ z. z.statistics.items) zones.now) }
{
    let mut bytes = Vec::new(alloc);
    for zone in zones {
        bytes.extend_from_slice(&zone.statistics)?;
    }
    Ok(bytes)
}

/// Whether the statistics of zones have so many bytes together.
pub(crate) fn have_length(zones: &[IndexZone], count: usize) -> bool
    ensures { MatchBool result (sum_by (λ z. z.statistics) zones.now ≡ count) (¬ (sum_by (λ z. z.statistics) zones.now ≡ count)) }
{
    let mut left = count;
    for zone in zones {
        if left < zone.statistics {
            return false;
        }
        left -= zone.statistics;
    }
    left == 0
}

/// The zones that are told in numbers, with their statistics, which stand one behind another.
fn zones_with(
    alloc: Global,
    zones: &[IndexZone],
    statistics: &[u8],
) -> Result<Vec<Zone>, AllocError>
    requires { sum_by (λ z. z.statistics) zones.now ≡ length statistics.now }
    ensures { IfOk result (λ made. zone_values made.items ≡ zones_cut zones.now statistics.now) }
{
    let mut made = Vec::new(alloc);
    let mut rest = statistics;
    for zone in zones {
        let (own, after) = rest.split_at(zone.statistics);
        made.push(zone_with(alloc, *zone, own)?)?;
        rest = after;
    }
    Ok(made)
}

/// A zone with its statistics.
fn zone_with(alloc: Global, zone: IndexZone, statistics: &[u8]) -> Result<Zone, AllocError>
    ensures first { IfOk result (λ made. made.first ≡ zone.first) }
    ensures length { IfOk result (λ made. made.length ≡ zone.length) }
    ensures records { IfOk result (λ made. made.records ≡ zone.records) }
    ensures rows { IfOk result (λ made. made.rows ≡ zone.rows) }
    ensures statistics { IfOk result (λ made. made.statistics.items ≡ statistics.now) }
{
    let statistics = Vec::from_slice(alloc, statistics)?;
    Ok(Zone {
        first: zone.first,
        length: zone.length,
        records: zone.records,
        rows: zone.rows,
        statistics,
    })
}

/// The bytes of an index.
pub(crate) fn index_bytes(
    alloc: Global,
    columns: usize,
    setup: &[u8],
    file: FileParts,
    zones: &[IndexZone],
    statistics: &[u8],
) -> Result<Vec<u8>, WriteError>
    requires { sum_by (λ z. z.statistics) zones.now ≡ length statistics.now }
    ensures written { IfOk result (λ bytes. IsWritten columns (index_of setup.now file.file_length file.changed file.start zones.now statistics.now) bytes.items) }
    ensures refused { IfErr result (λ e. e ≡ Pieces → (pieces : List (List (List ℕ)))
        → ¬ (HavePieces columns (zones_cut zones.now statistics.now) pieces)) }
{
    let index = Index {
        file_length: file.file_length,
        changed: file.changed,
        setup: Vec::from_slice(alloc, setup)?,
        start: file.start,
        zones: zones_with(alloc, zones, statistics)?,
    };
    write_index(alloc, columns, &index)
}

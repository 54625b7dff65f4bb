//! The zones that a text has, in numbers.

ghost use Rattle.std.specs.Prelude.{◌≡◌, ◌<◌, IfErr, IfOk, map};
ghost use Rattle.std.specs.List.{flat_map};
ghost use Rattle.vortex_c.specs.IndexWords.{AreToldZones, IsRefusedZone, index_zone};

use crate::index_cuts::taken_length;
use crate::index_zones::{IndexZone, statistics_of, zone_numbers};
use std::alloc::{AllocError, Global};
use zone_index::{Describer, Indexed, SearchError, index_records};

/// The zones of a text, in numbers, and their statistics.
#[derive(Drop)]
pub(crate) struct ToldZones {
    /// The zones.
    pub zones: Vec<IndexZone>,
    /// The statistics of all, one behind another.
    pub statistics: Vec<u8>,
    /// How many bytes of the text they have.
    pub taken: usize,
    /// How many fields stand as a null since their columns do not take them, as far as 64 bits count.
    pub nulls: u64,
    /// How many records have more fields than columns, as far as 64 bits count.
    pub longer: u64,
}

/// The zones of so many records that a text begins with, which stands at `start` in the file. Where the file
/// ends with it, they are all of it, and the last one may have fewer.
pub(crate) fn told_zones<D: Describer>(
    alloc: Global,
    describer: &D,
    size: u64,
    start: u64,
    text: &[u8],
    is_end: bool,
) -> Result<ToldZones, SearchError>
    requires { 0 < size }
    ensures told { IfOk result (λ told. AreToldZones (D.delimiter describer.now) (D.has_row describer.now)
        (D.DescribesFully describer.now) (D.is_refused describer.now) (D.nulls_of describer.now)
        (D.longer_of describer.now) size start text.now is_end told.zones.items told.statistics.items
        told.taken told.nulls told.longer) }
    ensures refused { IfErr result (IsRefusedZone (D.delimiter describer.now) (D.Refuses describer.now)
        (D.is_refused describer.now) size start text.now is_end) }
{
    let taken = taken_length(describer.delimiter_byte(), size, text, is_end);
    let mut front = &text[..taken];
    match index_records(alloc, size, start, describer, &mut front) {
        Ok(indexed) => match in_numbers(alloc, &indexed, taken) {
            Ok(told) => Ok(told),
            Err(_) => Err(SearchError::Memory),
        },
        Err(cause) => Err(cause),
    }
}

/// The same zones in numbers.
fn in_numbers(alloc: Global, indexed: &Indexed, taken: usize) -> Result<ToldZones, AllocError>
    ensures zones { IfOk result (λ told. told.zones.items ≡ map index_zone indexed.now.zones.items) }
    ensures statistics { IfOk result (λ told. told.statistics.items
        ≡ flat_map (λ z. z.statistics.items) indexed.now.zones.items) }
    ensures taken { IfOk result (λ told. told.taken ≡ taken) }
    ensures nulls { IfOk result (λ told. told.nulls ≡ indexed.now.nulls) }
    ensures longer { IfOk result (λ told. told.longer ≡ indexed.now.longer) }
{
    Ok(ToldZones {
        zones: zone_numbers(alloc, &indexed.zones)?,
        statistics: statistics_of(alloc, &indexed.zones)?,
        taken,
        nulls: indexed.nulls,
        longer: indexed.longer,
    })
}

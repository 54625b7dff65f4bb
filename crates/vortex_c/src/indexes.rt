//! Indexes of files, which are made piece by piece, and their bytes.

ghost use Rattle.std.specs.Prelude.{◌≡◌, ◌≢◌, ◌+◌, ◌<◌, ◌≤◌, ◌^◌, ◌⊎◌, ℕ, IfErr, IfOk, List, drop, length, take};
ghost use Rattle.vortex_c.specs.IndexWords.{AnswersEncoding, AreIndexBytes, AreRowZones, AreZonesBy, HasAnswer};
ghost use Rattle.vortex_c.specs.IndexWords.{IndexZone, IsIndexBy, IsSchema, IsSetupOf, IsUnread, SaysWhyNoBytes};
ghost use Rattle.vortex_c.specs.IndexWords.{SaysWhyNoZones, SaysWhyNotIndexed, SaysWhyNotWritten};

use crate::giving::give;
use crate::index_zones::{FileParts, IndexZone, have_length, index_bytes};
use crate::search_faults::{SearchFault, tell, tell_search, tell_sought};
use crate::status::{BAD_BYTES, BAD_OFFSETS, BUFFER_TOO_SMALL, GIVEN, NO_MEMORY, WRONG_LENGTH};
use crate::zone_making::{ToldZones, told_zones};
use csv_columns::{Numbers, Setup};
use file_search::SoughtError;
use record_rows::Schema;
use record_search::RowDescriber;
use std::alloc::Global;
use zone_index::WriteError;

/// How much there is of zones that were made.
#[derive(Clone, Copy)]
#[repr(C)]
pub struct IndexLengths {
    /// How many zones.
    pub zones: usize,
    /// How many bytes of statistics.
    pub statistics: usize,
    /// How many bytes of the text they have: the next text begins behind these.
    pub taken: usize,
    /// How many fields stand as a null since their columns do not take them.
    pub nulls: u64,
    /// How many records have more fields than columns.
    pub longer: u64,
}

/// The statistics of zones, by which bytes are told that are not as they are to be.
const STATISTICS: u64 = 3;

/// The zones that a text begins with, which stands at `start` in the file. Each has as many records as the
/// setup says, at least one, and behind it another may start. Where the file ends with the text, `is_end`, they
/// are all of it, and the last one may have fewer. The statistics of the zones stand one behind another.
///
/// - `BUFFER_TOO_SMALL`: `lengths` says how many zones and bytes there are.
/// - `BAD_BYTES`: the setup is none.
/// - `BAD_OFFSETS`: the text ends past all that 64 bits tell.
/// - `REFUSED`: a record of the zones has fields that are no row, and `fault` says which: the first one.
/// - `NO_MEMORY`: `fault` is not written.
#[unsafe(no_mangle)]
pub extern "C" fn doqallin_index_records(
    alloc: Global,
    setup: &[u8],
    start: u64,
    text: &[u8],
    is_end: bool,
    zones: &mut [IndexZone],
    statistics: &mut [u8],
    lengths: &mut IndexLengths,
    fault: &mut SearchFault,
) -> u32
    ensures given { result ≡ GIVEN → AreZonesBy setup.now start text.now is_end
        (take lengths.new.zones zones.new) (take lengths.new.statistics statistics.new) lengths.new }
    ensures within { result ≡ GIVEN → (lengths.new.zones ≤ length zones.old)
        × (lengths.new.statistics ≤ length statistics.old) }
    ensures small { result ≡ BUFFER_TOO_SMALL → (length zones.old < lengths.new.zones)
        ⊎ (length statistics.old < lengths.new.statistics) }
    ensures needed { HasAnswer result → (all : List IndexZone) × (bytes : List ℕ)
        × AreZonesBy setup.now start text.now is_end all bytes lengths.new
        × (lengths.new.zones ≡ length all) × (lengths.new.statistics ≡ length bytes) }
    ensures refused { (HasAnswer result) ⊎ SaysWhyNotIndexed setup.now start text.now is_end
        fault.old fault.new result }

    // What is not said to be written stays.
    ensures rest { result ≡ GIVEN → (drop lengths.new.zones zones.new ≡ drop lengths.new.zones zones.old)
        × (drop lengths.new.statistics statistics.new ≡ drop lengths.new.statistics statistics.old) }
    ensures kept { result ≢ GIVEN → (zones.new ≡ zones.old) × (statistics.new ≡ statistics.old) }
    ensures kept_lengths { (HasAnswer result) ⊎ (lengths.new ≡ lengths.old) }
    ensures kept_fault { HasAnswer result → fault.new ≡ fault.old }
{
    match read_setup(alloc, setup) {
        Ok((setup, schema)) => index_into(
            alloc,
            setup.numbers,
            &schema,
            start,
            text,
            is_end,
            zones,
            statistics,
            lengths,
            fault,
        ),
        Err(cause) => tell_sought(cause, fault),
    }
}

/// The setup that a text is, and the schema of it.
fn read_setup(alloc: Global, text: &[u8]) -> Result<(Setup, Schema), SoughtError>
    ensures is { IfOk result (λ read. IsSetupOf text.now read.0) }
    ensures schema { IfOk result (λ read. IsSchema read.0 read.1) }
    ensures refused { IfErr result (IsUnread text.now) }
{
    let Some(setup) = Setup::from_text(alloc, text)? else {
        return Err(SoughtError::NoSetup);
    };
    match setup.schema(alloc)? {
        Some(schema) => Ok((setup, schema)),
        None => Err(SoughtError::NoSetup),
    }
}

/// The same, of what a setup says.
fn index_into(
    alloc: Global,
    numbers: Numbers,
    schema: &Schema,
    start: u64,
    text: &[u8],
    is_end: bool,
    zones: &mut [IndexZone],
    statistics: &mut [u8],
    lengths: &mut IndexLengths,
    fault: &mut SearchFault,
) -> u32
    ensures given { result ≡ GIVEN → AreRowZones numbers schema.now start text.now is_end
        (take lengths.new.zones zones.new) (take lengths.new.statistics statistics.new) lengths.new }
    ensures near { HasAnswer result → start + length text.now < 2 ^ 64 }
    ensures within { result ≡ GIVEN → (lengths.new.zones ≤ length zones.old)
        × (lengths.new.statistics ≤ length statistics.old) }
    ensures small { result ≡ BUFFER_TOO_SMALL → (length zones.old < lengths.new.zones)
        ⊎ (length statistics.old < lengths.new.statistics) }
    ensures needed { HasAnswer result → (all : List IndexZone) × (bytes : List ℕ)
        × AreRowZones numbers schema.now start text.now is_end all bytes lengths.new
        × (lengths.new.zones ≡ length all) × (lengths.new.statistics ≡ length bytes) }
    ensures refused { (HasAnswer result) ⊎ SaysWhyNoZones numbers schema.now start text.now is_end
        fault.old fault.new result }
    ensures rest { result ≡ GIVEN → (drop lengths.new.zones zones.new ≡ drop lengths.new.zones zones.old)
        × (drop lengths.new.statistics statistics.new ≡ drop lengths.new.statistics statistics.old) }
    ensures kept { result ≢ GIVEN → (zones.new ≡ zones.old) × (statistics.new ≡ statistics.old) }
    ensures kept_lengths { (HasAnswer result) ⊎ (lengths.new ≡ lengths.old) }
    ensures kept_fault { HasAnswer result → fault.new ≡ fault.old }
{
    if start > u64::MAX - text.len() as u64 {
        return tell(0, 0, 0, fault, BAD_OFFSETS);
    }
    let describer = RowDescriber {
        schema,
        bound_length: numbers.bound_length,
    };
    match told_zones(
        alloc,
        &describer,
        numbers.zone_rows.max(1),
        start,
        text,
        is_end,
    ) {
        Ok(told) => give_told(&told, zones, statistics, lengths),
        Err(cause) => tell_search(cause, fault),
    }
}

/// Writes zones and their statistics, and how much there is of them; only that if a buffer is too small.
fn give_told(
    told: &ToldZones,
    zones: &mut [IndexZone],
    statistics: &mut [u8],
    lengths: &mut IndexLengths,
) -> u32
    ensures statuses { (result ≡ GIVEN) ⊎ (result ≡ BUFFER_TOO_SMALL) }
    ensures zones { lengths.new.zones ≡ length told.now.zones.items }
    ensures statistics { lengths.new.statistics ≡ length told.now.statistics.items }
    ensures taken { lengths.new.taken ≡ told.now.taken }
    ensures nulls { lengths.new.nulls ≡ told.now.nulls }
    ensures longer { lengths.new.longer ≡ told.now.longer }
    ensures zones_given { result ≡ GIVEN → take lengths.new.zones zones.new ≡ told.now.zones.items }
    ensures statistics_given { result ≡ GIVEN
        → take lengths.new.statistics statistics.new ≡ told.now.statistics.items }
    ensures within { result ≡ GIVEN → (lengths.new.zones ≤ length zones.old)
        × (lengths.new.statistics ≤ length statistics.old) }
    ensures small { result ≡ BUFFER_TOO_SMALL → (length zones.old < lengths.new.zones)
        ⊎ (length statistics.old < lengths.new.statistics) }
    ensures rest { result ≡ GIVEN → (drop lengths.new.zones zones.new ≡ drop lengths.new.zones zones.old)
        × (drop lengths.new.statistics statistics.new ≡ drop lengths.new.statistics statistics.old) }
    ensures kept { result ≢ GIVEN → (zones.new ≡ zones.old) × (statistics.new ≡ statistics.old) }
{
    *lengths = IndexLengths {
        zones: told.zones.len(),
        statistics: told.statistics.len(),
        taken: told.taken,
        nulls: told.nulls,
        longer: told.longer,
    };
    if statistics.len() < lengths.statistics {
        return BUFFER_TOO_SMALL;
    }
    let status = give(told.zones.as_slice(), zones, &mut lengths.zones);
    if status == GIVEN {
        statistics[..told.statistics.len()].copy_from_slice(&told.statistics);
    }
    status
}

/// The bytes of the index of a file that has so many bytes, was changed last then, and whose first record
/// stands at `start`. It has these zones with their statistics, as `doqallin_index_records` gives them.
///
/// - `BUFFER_TOO_SMALL`: `count` says how many bytes there are.
/// - `BAD_BYTES`: the setup is none, or the statistics of a zone are not a piece for each column.
/// - `WRONG_LENGTH`: there are more or fewer bytes of statistics than the zones say. `fault` is not written.
/// - `NO_MEMORY`: `fault` is not written.
#[unsafe(no_mangle)]
pub extern "C" fn doqallin_write_index(
    alloc: Global,
    setup: &[u8],
    file_length: u64,
    changed: u64,
    start: u64,
    zones: &[IndexZone],
    statistics: &[u8],
    buffer: &mut [u8],
    count: &mut usize,
    fault: &mut SearchFault,
) -> u32
    ensures answer { AnswersEncoding (IsIndexBy setup.now file_length changed start zones.now statistics.now)
        buffer.old buffer.new count.old count.new result }
    ensures refused { (HasAnswer result) ⊎ SaysWhyNotWritten setup.now zones.now statistics.now
        fault.old fault.new result }
    ensures kept_fault { HasAnswer result → fault.new ≡ fault.old }
{
    let file = FileParts {
        file_length,
        changed,
        start,
    };
    match read_setup(alloc, setup) {
        Ok((read, _)) => write_into(
            alloc,
            read.columns.len(),
            setup,
            file,
            zones,
            statistics,
            buffer,
            count,
            fault,
        ),
        Err(cause) => tell_sought(cause, fault),
    }
}

/// The same, where the setup has so many columns.
fn write_into(
    alloc: Global,
    columns: usize,
    setup: &[u8],
    file: FileParts,
    zones: &[IndexZone],
    statistics: &[u8],
    buffer: &mut [u8],
    count: &mut usize,
    fault: &mut SearchFault,
) -> u32
    ensures answer { AnswersEncoding (AreIndexBytes columns setup.now file.file_length file.changed file.start
        zones.now statistics.now) buffer.old buffer.new count.old count.new result }
    ensures refused { (HasAnswer result) ⊎ SaysWhyNoBytes columns zones.now statistics.now
        fault.old fault.new result }
    ensures kept_fault { HasAnswer result → fault.new ≡ fault.old }
{
    if !have_length(zones, statistics.len()) {
        return WRONG_LENGTH;
    }
    match index_bytes(alloc, columns, setup, file, zones, statistics) {
        Ok(bytes) => give(bytes.as_slice(), buffer, count),
        Err(WriteError::Memory) => NO_MEMORY,
        Err(WriteError::Pieces) => tell(0, STATISTICS, 0, fault, BAD_BYTES),
    }
}

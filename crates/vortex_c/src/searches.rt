//! Searches in files: what to read of an index and of a file, and which records match.

ghost use Rattle.std.specs.Prelude.{◌≡◌, ◌≢◌, ◌<◌, ◌≤◌, ◌⊎◌, List, drop, length, map, take};
ghost use Rattle.vortex_c.specs.SearchWords.{AnswersEncoding, AreBlocksFor, AreFoundBefore, AreFoundBy, AreSomeFound};
ghost use Rattle.vortex_c.specs.SearchWords.{ByteRange, HasAnswer, IsFoundIn, IsPartIn, IsPartsOf, IsRootLength};
ghost use Rattle.vortex_c.specs.SearchWords.{IsSetupOfRoot, IsToldPlan, Memory, Refusal, Refused, SaysWhyNoBlocks};
ghost use Rattle.vortex_c.specs.SearchWords.{SaysWhyNoPlan, SaysWhyNoRoot, SaysWhyNotFound, SaysWhyNotRead};
ghost use Rattle.vortex_c.specs.SearchWords.{SaysWhyRefused, TellsFound, ZoneParts, formula, index_parts};
ghost use Rattle.vortex_c.specs.SearchWords.{purpose_of, root_value, searched_at, zone_parts};

use crate::giving::give;
use crate::search_faults::{SearchFault, tell_plan, tell_root, tell_search, tell_sought};
use crate::status::{BUFFER_TOO_SMALL, GIVEN, NO_MEMORY, REFUSED};
use file_search::{
    Plan, Sought, blocks_to_read, find_rows_until_fault, plan_by_bytes, read_index_root,
};
use std::alloc::Global;
use zone_index::{Decision, Position, Root, Way};
use zone_scans::{
    ByteRange, FoundRecord, PlannedZone, Purpose, Searched, SearchedUntilFault, root_length,
};

/// What the root of an index says, but for its setup.
#[derive(Clone, Copy)]
#[repr(C)]
pub struct IndexParts {
    /// How many bytes the file had.
    pub file_length: u64,
    /// When it was changed last: nanoseconds since 1970.
    pub changed: u64,
    /// The offset of its first record.
    pub start: u64,
    /// How many zones there are.
    pub zone_count: usize,
    /// How many blocks there are: one for each column.
    pub block_count: usize,
}

/// A zone of an index, and what becomes of it in a search.
#[derive(Clone, Copy)]
#[repr(C)]
pub struct ZoneParts {
    /// The offset of its first byte.
    pub place: u64,
    /// How many bytes it has.
    pub length: u64,
    /// How many records.
    pub records: u64,
    /// How many of them have a row.
    pub rows: u64,
    /// How many records come before it.
    pub number: u64,
    /// What becomes of it: 0 it is skipped, 1 each of its records matches, 2 it is to be searched.
    pub way: u8,
    /// What its statistics decide: 0 no row matches, 1 each row does, 2 nothing.
    pub decision: u8,
}

/// How many zones and ranges a plan has.
#[derive(Clone, Copy)]
#[repr(C)]
pub struct PlanLengths {
    /// How many zones.
    pub zones: usize,
    /// How many ranges.
    pub ranges: usize,
}

/// Where a record begins: its offset in the file, and its number.
#[derive(Clone, Copy)]
#[repr(C)]
pub struct RecordPosition {
    /// The offset.
    pub place: u64,
    /// The number.
    pub number: u64,
}

/// How many bytes the root of an index has that begins so. Takes no memory.
///
/// - `BAD_BYTES`: there are fewer than 16, or they are of no index of this version.
#[unsafe(no_mangle)]
pub extern "C" fn doqallin_index_root_length(
    head: &[u8],
    count: &mut u64,
    fault: &mut SearchFault,
) -> u32
    ensures given { result ≡ GIVEN → IsRootLength head.now count.new }
    ensures refused { result ≢ GIVEN → SaysWhyNoRoot head.now fault.old fault.new result }
    ensures kept { result ≢ GIVEN → count.new ≡ count.old }
    ensures kept_fault { result ≡ GIVEN → fault.new ≡ fault.old }
{
    match root_length(head) {
        Ok(needed) => {
            *count = needed;
            GIVEN
        }
        Err(cause) => tell_root(cause, fault),
    }
}

/// What the root of an index says, and the text of its setup. What follows the root is not looked at.
///
/// - `BUFFER_TOO_SMALL`: `count` says how many bytes the text has. The parts are written all the same.
/// - `BAD_BYTES`: the bytes do not begin with a root.
/// - `NO_MEMORY`: `fault` is not written.
#[unsafe(no_mangle)]
pub extern "C" fn doqallin_index_root(
    alloc: Global,
    root: &[u8],
    buffer: &mut [u8],
    count: &mut usize,
    parts: &mut IndexParts,
    fault: &mut SearchFault,
) -> u32
    ensures answer { AnswersEncoding (IsSetupOfRoot root.now) buffer.old buffer.new count.old count.new result }
    ensures parts { HasAnswer result → IsPartsOf root.now parts.new }
    ensures refused { (HasAnswer result) ⊎ SaysWhyNotRead root.now fault.old fault.new result }
    ensures kept_parts { (HasAnswer result) ⊎ (parts.new ≡ parts.old) }
    ensures kept_fault { HasAnswer result → fault.new ≡ fault.old }
{
    match read_index_root(alloc, root) {
        Ok((root, _)) => {
            *parts = parts_of(&root);
            give(root.index.setup.as_slice(), buffer, count)
        }
        Err(cause) => tell_plan(cause, fault),
    }
}

/// What a root says, but for its setup.
fn parts_of(root: &Root) -> IndexParts
    ensures { result ≡ index_parts (root_value root.now) }
{
    IndexParts {
        file_length: root.index.file_length,
        changed: root.index.changed,
        start: root.index.start,
        zone_count: root.index.zones.len(),
        block_count: root.blocks.len(),
    }
}

/// Which pieces of an index the words of a filter need, beside the root.
///
/// - `BUFFER_TOO_SMALL`: `count` says how many there are.
/// - `BAD_BYTES`, `NOT_UTF8`, `BAD_FILTER`: `fault` says where.
/// - `NO_MEMORY`: `fault` is not written.
#[unsafe(no_mangle)]
pub extern "C" fn doqallin_search_blocks(
    alloc: Global,
    root: &[u8],
    words: &[u8],
    depth: usize,
    ranges: &mut [ByteRange],
    count: &mut usize,
    fault: &mut SearchFault,
) -> u32
    ensures given { result ≡ GIVEN → AreBlocksFor depth root.now words.now (take count.new ranges.new) }
    ensures within { result ≡ GIVEN → count.new ≤ length ranges.old }
    ensures small { result ≡ BUFFER_TOO_SMALL → length ranges.old < count.new }
    ensures needed { HasAnswer result → (all : List ByteRange) × AreBlocksFor depth root.now words.now all
        × (count.new ≡ length all) }
    ensures refused { (HasAnswer result) ⊎ SaysWhyNoBlocks depth root.now words.now fault.old fault.new result }

    // What is not said to be written stays.
    ensures rest { result ≡ GIVEN → drop count.new ranges.new ≡ drop count.new ranges.old }
    ensures kept { result ≢ GIVEN → ranges.new ≡ ranges.old }
    ensures kept_count { (HasAnswer result) ⊎ (count.new ≡ count.old) }
    ensures kept_fault { HasAnswer result → fault.new ≡ fault.old }
{
    match blocks_to_read(alloc, root, words, depth) {
        Ok(blocks) => give(blocks.as_slice(), ranges, count),
        Err(cause) => tell_plan(cause, fault),
    }
}

/// What becomes of each zone of an index in a search for the words of a filter, and what is to be read of
/// the file. The blocks are the bytes of the pieces that `doqallin_search_blocks` gives, one behind another.
///
/// - `BUFFER_TOO_SMALL`: `lengths` says how many zones and ranges there are.
/// - `BAD_BYTES`, `NOT_UTF8`, `BAD_FILTER`, `BAD_OFFSETS`: `fault` says where.
/// - `NO_MEMORY`: `fault` is not written.
#[unsafe(no_mangle)]
pub extern "C" fn doqallin_search_plan(
    alloc: Global,
    root: &[u8],
    blocks: &[u8],
    words: &[u8],
    depth: usize,
    is_count: bool,
    zones: &mut [ZoneParts],
    ranges: &mut [ByteRange],
    lengths: &mut PlanLengths,
    fault: &mut SearchFault,
) -> u32
    ensures given { result ≡ GIVEN → IsToldPlan depth root.now blocks.now words.now (purpose_of is_count)
        (take lengths.new.zones zones.new) (take lengths.new.ranges ranges.new) }
    ensures within { result ≡ GIVEN → (lengths.new.zones ≤ length zones.old)
        × (lengths.new.ranges ≤ length ranges.old) }
    ensures small { result ≡ BUFFER_TOO_SMALL → (length zones.old < lengths.new.zones)
        ⊎ (length ranges.old < lengths.new.ranges) }
    ensures needed { HasAnswer result → (all : List ZoneParts) × (read : List ByteRange)
        × IsToldPlan depth root.now blocks.now words.now (purpose_of is_count) all read
        × (lengths.new.zones ≡ length all) × (lengths.new.ranges ≡ length read) }
    ensures refused { (HasAnswer result) ⊎ SaysWhyNoPlan depth root.now blocks.now words.now
        (purpose_of is_count) fault.old fault.new result }

    // What is not said to be written stays.
    ensures rest { result ≡ GIVEN → (drop lengths.new.zones zones.new ≡ drop lengths.new.zones zones.old)
        × (drop lengths.new.ranges ranges.new ≡ drop lengths.new.ranges ranges.old) }
    ensures kept { result ≢ GIVEN → (zones.new ≡ zones.old) × (ranges.new ≡ ranges.old) }
    ensures kept_lengths { (HasAnswer result) ⊎ (lengths.new ≡ lengths.old) }
    ensures kept_fault { HasAnswer result → fault.new ≡ fault.old }
{
    match plan_by_bytes(alloc, root, blocks, words, depth, purpose_of(is_count)) {
        Ok(plan) => give_plan(&plan, zones, ranges, lengths),
        Err(cause) => tell_plan(cause, fault),
    }
}

/// What a search is for.
fn purpose_of(is_count: bool) -> Purpose
    ensures { result ≡ purpose_of is_count }
{
    if is_count {
        Purpose::Count
    } else {
        Purpose::Find
    }
}

/// Writes a plan, and how many zones and ranges it has; only that if a buffer is too small.
fn give_plan(
    plan: &Plan,
    zones: &mut [ZoneParts],
    ranges: &mut [ByteRange],
    lengths: &mut PlanLengths,
) -> u32
    ensures statuses { (result ≡ GIVEN) ⊎ (result ≡ BUFFER_TOO_SMALL) }
    ensures zones { lengths.new.zones ≡ length plan.now.zones.items }
    ensures ranges { lengths.new.ranges ≡ length plan.now.ranges.items }
    ensures zones_given { result ≡ GIVEN → take lengths.new.zones zones.new ≡ map zone_parts plan.now.zones.items }
    ensures ranges_given { result ≡ GIVEN → take lengths.new.ranges ranges.new ≡ plan.now.ranges.items }
    ensures within { result ≡ GIVEN → (lengths.new.zones ≤ length zones.old)
        × (lengths.new.ranges ≤ length ranges.old) }
    ensures small { result ≡ BUFFER_TOO_SMALL → (length zones.old < lengths.new.zones)
        ⊎ (length ranges.old < lengths.new.ranges) }
    ensures rest { result ≡ GIVEN → (drop lengths.new.zones zones.new ≡ drop lengths.new.zones zones.old)
        × (drop lengths.new.ranges ranges.new ≡ drop lengths.new.ranges ranges.old) }
    ensures kept { result ≢ GIVEN → (zones.new ≡ zones.old) × (ranges.new ≡ ranges.old) }
{
    *lengths = PlanLengths {
        zones: plan.zones.len(),
        ranges: plan.ranges.len(),
    };
    if zones.len() < lengths.zones {
        return BUFFER_TOO_SMALL;
    }
    let status = give(plan.ranges.as_slice(), ranges, &mut lengths.ranges);
    if status == GIVEN {
        put_zones(plan.zones.as_slice(), zones);
    }
    status
}

/// Writes zones to a buffer that is long enough.
fn put_zones(planned: &[PlannedZone], zones: &mut [ZoneParts])
    requires { length planned.now ≤ length zones.old }
    ensures put { take (length planned.now) zones.new ≡ map zone_parts planned.now }
    ensures rest { drop (length planned.now) zones.new ≡ drop (length planned.now) zones.old }
{
    for place in 0..planned.len() {
        zones[place] = zone_parts(planned[place]);
    }
}

/// A zone and what becomes of it, in numbers.
fn zone_parts(zone: PlannedZone) -> ZoneParts
    ensures { result ≡ zone_parts zone }
{
    ZoneParts {
        place: zone.range.place,
        length: zone.range.length,
        records: zone.records,
        rows: zone.rows,
        number: zone.number,
        way: match zone.way {
            Way::Skip => 0,
            Way::Copy => 1,
            Way::Search => 2,
        },
        decision: match zone.decision {
            Decision::NoneMatch => 0,
            Decision::AllMatch => 1,
            Decision::Unknown => 2,
        },
    }
}

/// Where the records of a text stand that match, as many as there is room for. The text begins at the
/// position, which goes on to the first record that was not judged. Where the file goes on behind the
/// text, without `is_end`, its last record is left, since it may be cut.
///
/// - `BAD_BYTES`: the setup is none. `NOT_UTF8`, `BAD_FILTER`: of the words. `fault` says where.
/// - `REFUSED`: a record that was met has fields that are no row, and `fault` says which. The records that are
///   found before it are told as under `GIVEN`, and the position goes on to it.
/// - `NO_MEMORY`: `fault` is not written.
#[unsafe(no_mangle)]
pub extern "C" fn doqallin_search_records(
    alloc: Global,
    setup: &[u8],
    words: &[u8],
    depth: usize,
    text: &[u8],
    is_end: bool,
    position: &mut RecordPosition,
    found: &mut [FoundRecord],
    count: &mut usize,
    fault: &mut SearchFault,
) -> u32
    ensures given { result ≡ GIVEN → AreFoundBy depth setup.now words.now position.old text.now is_end
        found.new count.new position.new }
    ensures within { TellsFound result → count.new ≤ length found.new }
    ensures refused { result ≢ GIVEN → SaysWhyNotFound depth setup.now words.now position.old text.now
        fault.old fault.new result }

    // Of those before a record that is refused, each is told that matches, and here it begins.
    ensures part { result ≡ REFUSED → AreFoundBefore depth setup.now words.now position.old text.now is_end
        found.old found.new count.new position.new }
    ensures place { result ≡ REFUSED → fault.new.place ≡ position.new.place }
    ensures some { result ≡ NO_MEMORY → (found.new ≡ found.old) ⊎ AreSomeFound depth setup.now words.now
        position.old text.now is_end found.old found.new }

    // What is not said to be written stays.
    ensures rest { TellsFound result → drop count.new found.new ≡ drop count.new found.old }
    ensures kept { (TellsFound result) ⊎ ((position.new ≡ position.old) × (count.new ≡ count.old)) }
    ensures kept_found { (TellsFound result) ⊎ ((result ≡ NO_MEMORY) ⊎ (found.new ≡ found.old)) }
    ensures kept_fault { result ≡ GIVEN → fault.new ≡ fault.old }
{
    match Sought::from_bytes(alloc, setup, words, depth) {
        Ok(sought) => find_into(alloc, &sought, text, is_end, position, found, count, fault),
        Err(cause) => tell_sought(cause, fault),
    }
}

/// The same, of what is sought.
fn find_into(
    alloc: Global,
    sought: &Sought,
    text: &[u8],
    is_end: bool,
    position: &mut RecordPosition,
    found: &mut [FoundRecord],
    count: &mut usize,
    fault: &mut SearchFault,
) -> u32
    ensures statuses { (TellsFound result) ⊎ (result ≡ NO_MEMORY) }
    ensures given { result ≡ GIVEN → IsFoundIn sought.now.schema (formula sought.now.filter) position.old text.now
        is_end found.new count.new position.new }
    ensures within { TellsFound result → count.new ≤ length found.new }
    ensures refused { result ≢ GIVEN → SaysWhyRefused sought.now.schema position.old text.now
        fault.old fault.new result }
    ensures part { result ≡ REFUSED → (refusal : Refusal) × IsPartIn sought.now.schema (formula sought.now.filter)
        position.old text.now is_end found.old found.new (searched_at count.new position.new) (Refused refusal) }
    ensures place { result ≡ REFUSED → fault.new.place ≡ position.new.place }
    ensures some { result ≡ NO_MEMORY → (searched : Searched) × IsPartIn sought.now.schema
        (formula sought.now.filter) position.old text.now is_end found.old found.new searched Memory }
    ensures rest { TellsFound result → drop count.new found.new ≡ drop count.new found.old }
    ensures kept { (TellsFound result) ⊎ ((position.new ≡ position.old) × (count.new ≡ count.old)) }
    ensures kept_fault { result ≡ GIVEN → fault.new ≡ fault.old }
{
    let start = Position {
        place: position.place,
        number: position.number,
    };
    let SearchedUntilFault {
        searched,
        fault: cause,
    } = find_rows_until_fault(alloc, sought, start, text, is_end, found);
    match cause {
        None => {
            tell_searched(searched, position, count);
            GIVEN
        }
        Some(cause) => {
            let status = tell_search(cause, fault);
            if status != REFUSED {
                return status;
            }
            tell_searched(searched, position, count);
            status
        }
    }
}

/// Tells how many records were found, and where the first one stands that was not judged.
fn tell_searched(searched: Searched, position: &mut RecordPosition, count: &mut usize)
    ensures { searched_at count.new position.new ≡ searched }
{
    *count = searched.count;
    *position = RecordPosition {
        place: searched.next.place,
        number: searched.next.number,
    };
}

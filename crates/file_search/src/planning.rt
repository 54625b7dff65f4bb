//! What is to be read for a search, and what is found in the bytes that came.

ghost use Rattle.std.specs.Prelude.{◌≡◌, ◌≤◌, ℕ, List, IfErr, IfNone, IfOk, IfSome, drop, filter, length, map};
ghost use Rattle.file_search.specs.Words.{AreJoined, IfRefused, IsFarZone, IsFoundBefore, IsOfRecord, IsSearched};
ghost use Rattle.file_search.specs.Words.{RefusesRecord, TellsOffset, TellsOneOf, before_refused, bytes_of, formula};
ghost use Rattle.file_search.specs.Words.{is_read, is_refused, matches_record, planned_rows, records_under};

use crate::sought::Sought;
use std::alloc::Global;
use zone_index::{Position, SearchError, Zone};
use zone_scans::{
    ByteRange, FoundRecord, PlannedZone, Purpose, RangeError, Searched, SearchedUntilFault,
    find_records, find_records_until_fault, plan_zones, ranges_to_read,
};

/// The number of the first record of a file.
const FIRST_NUMBER: u64 = 0;

/// What becomes of each zone, and what is to be read.
#[derive(Drop)]
pub struct Plan {
    /// The zones.
    pub zones: Vec<PlannedZone>,
    /// What is to be read, zones next to each other at one go.
    pub ranges: Vec<ByteRange>,
}

/// What becomes of each zone of an index in a search, and what is to be read of the file. Records are
/// counted from 0.
pub fn plan_search(
    alloc: Global,
    sought: &Sought,
    zones: &[Zone],
    purpose: Purpose,
) -> Result<Plan, RangeError>
    ensures zones { IfOk result (λ plan. plan.zones.items
        ≡ planned_rows sought.now.schema (formula sought.now.filter) zones.now) }
    // What is covered, in order, is what the zones cover that are to be read.
    ensures covers { IfOk result (λ plan. (bytes : List ℕ) → bytes_of bytes plan.ranges.items
        ≡ bytes_of bytes (map (λ z. z.range) (filter (is_read purpose) plan.zones.items))) }
    // None is empty, and none begins where the one before it ends.
    ensures joined { IfOk result (λ plan. AreJoined plan.ranges.items) }
    ensures far { IfErr result (IsFarZone purpose
        (planned_rows sought.now.schema (formula sought.now.filter) zones.now)) }
{
    let zones = plan_zones(alloc, zones, FIRST_NUMBER, &sought.matcher())?;
    let ranges = ranges_to_read(alloc, purpose, &zones)?;
    Ok(Plan { zones, ranges })
}

/// Writes where the records of a text stand that match, as many as there is room for. The text stands at
/// `start` in the file, and its first record has the number there.
///
/// It stops at a record that matches and for which there is no room, and else at the end of the text. Where
/// the file goes on behind the text, `is_end` is `false`: then the last record of the text is left, since it
/// may be cut. `Refused` with the first record that has fields that are no row, if that is met. What was found
/// before it is written all the same: `find_rows_until_fault` says how many these are.
pub fn find_rows_in(
    alloc: Global,
    sought: &Sought,
    start: Position,
    text: &[u8],
    is_end: bool,
    found: &mut [FoundRecord],
) -> Result<Searched, SearchError>
    ensures searched { IfOk result (IsSearched sought.now.schema.delimiter.byte
        (matches_record sought.now.schema (formula sought.now.filter)) (is_refused sought.now.schema)
        start text.now is_end found.new) }
    ensures within { IfOk result (λ searched. searched.count ≤ length found.new) }
    ensures why { IfErr result IsOfRecord }
    ensures refused { IfErr result (IfRefused (TellsOneOf (RefusesRecord sought.now.schema) start.place
        (records_under sought.now.schema text.now))) }
    ensures first { IfErr result (IfRefused (TellsOffset start.place (before_refused (is_refused sought.now.schema)
        (records_under sought.now.schema text.now)))) }

    // Of those before a fault that match, each is written, in order.
    ensures part { IfErr result (λ fault. (searched : Searched) × IsFoundBefore sought.now.schema.delimiter.byte
        (matches_record sought.now.schema (formula sought.now.filter)) (is_refused sought.now.schema)
        start text.now is_end found.old found.new searched fault) }

    // What is not said to be written stays.
    ensures rest { IfOk result (λ searched. drop searched.count found.new ≡ drop searched.count found.old) }
    ensures long { length found.new ≡ length found.old }
{
    find_records(alloc, &sought.matcher(), start, text, is_end, found)
}

/// The same, which also says after a fault how far the text was searched.
pub fn find_rows_until_fault(
    alloc: Global,
    sought: &Sought,
    start: Position,
    text: &[u8],
    is_end: bool,
    found: &mut [FoundRecord],
) -> SearchedUntilFault
    ensures searched { IfNone result.fault (IsSearched sought.now.schema.delimiter.byte
        (matches_record sought.now.schema (formula sought.now.filter)) (is_refused sought.now.schema)
        start text.now is_end found.new result.searched) }
    ensures within { result.searched.count ≤ length found.new }
    ensures why { IfSome result.fault IsOfRecord }
    ensures refused { IfSome result.fault (IfRefused (TellsOneOf (RefusesRecord sought.now.schema) start.place
        (records_under sought.now.schema text.now))) }
    ensures first { IfSome result.fault (IfRefused (TellsOffset start.place
        (before_refused (is_refused sought.now.schema) (records_under sought.now.schema text.now)))) }

    // Of those before a fault that match, each is written, in order.
    ensures part { IfSome result.fault (IsFoundBefore sought.now.schema.delimiter.byte
        (matches_record sought.now.schema (formula sought.now.filter)) (is_refused sought.now.schema)
        start text.now is_end found.old found.new result.searched) }

    // What is not said to be written stays.
    ensures rest { drop result.searched.count found.new ≡ drop result.searched.count found.old }
    ensures long { length found.new ≡ length found.old }
{
    find_records_until_fault(alloc, &sought.matcher(), start, text, is_end, found)
}

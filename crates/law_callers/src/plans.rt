//! A plan, and a search by the same index.

ghost use Rattle.std.specs.Prelude.{◌≡◌, ◌<◌, ◌^◌, ℕ, List, Some, IfOk, length};
ghost use Rattle.std.specs.Io.KnownBytes.{Appends};
ghost use Rattle.std.specs.List.{flat_map};
ghost use Rattle.record_search.specs.Searched.{IsRowIndex, matches_record};
ghost use Rattle.vortex_filter.specs.Formula.{formula};
ghost use Rattle.zone_scans.specs.Laws.{found_in_zones, record_bytes};

use file_search::laws::plans_find_rows;
use file_search::{Plan, Sought, plan_search};
use record_search::find_rows;
use std::alloc::Global;
use std::io::Write;
use zone_index::{PlainSink, ReadAt, SearchError, Zone};
use zone_scans::{Purpose, RangeError};

/// The number of the first record.
const FIRST: u64 = 0;

/// Plans a search in a file, and writes the records that match by the index alone: what is written is what
/// stands at the places that are found in the zones of the plan, each searched by itself.
pub fn find_and_plan<R: ReadAt, W: Write>(
    alloc: Global,
    sought: &Sought,
    zones: &[Zone],
    file: &mut R,
    sink: &mut PlainSink<W>,
) -> Result<Plan, SearchError>
    ensures { IfOk result (λ plan. (start : ℕ) (bytes : List ℕ) → R.bytes file.old ≡ Some bytes
        → length bytes < 2 ^ 64 → IsRowIndex sought.now.schema start zones.now bytes
        → Appends (W.contents sink.old.writer) (W.contents sink.new.writer) (flat_map (record_bytes bytes)
        (found_in_zones sought.now.schema.delimiter.byte
        (matches_record sought.now.schema (formula sought.now.filter)) bytes plan.zones.items))) }
{
    plans_find_rows();
    let plan = match plan_search(alloc, sought, zones, Purpose::Find) {
        Ok(plan) => plan,
        Err(RangeError::Memory) => return Err(SearchError::Memory),
        Err(RangeError::TooFar { zone: _ }) => return Err(SearchError::TooFar),
    };
    find_rows(
        alloc,
        &sought.schema,
        &sought.filter,
        zones,
        FIRST,
        file,
        sink,
    )?;
    Ok(plan)
}

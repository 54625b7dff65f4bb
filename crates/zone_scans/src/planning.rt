//! What becomes of each zone.

ghost use Rattle.std.specs.Prelude.{◌≡◌, IfOk};
ghost use Rattle.zone_index.specs.Sinks.{told};
ghost use Rattle.zone_index.specs.Zones.{way_by};
ghost use Rattle.zone_scans.specs.Planning.{planned_at, planned_from};

use crate::ranges::ByteRange;
use std::alloc::{AllocError, Global};
use zone_index::{Decision, Matcher, Way, Zone};

/// What a zone is read for.
#[derive(Clone, Copy, Debug, PartialEq, Eq)]
pub enum Purpose {
    /// For the records that match.
    Find,
    /// For how many they are.
    Count,
}

/// A zone, and what a search does with it.
#[derive(Clone, Copy, Debug, PartialEq, Eq)]
pub struct PlannedZone {
    /// Where it lies.
    pub range: ByteRange,
    /// How many records it has.
    pub records: u64,
    /// How many of them have a row.
    pub rows: u64,
    /// The number of its first record, as far as 64 bits tell.
    pub number: u64,
    /// What its statistics decide.
    pub decision: Decision,
    /// What becomes of it where records are to be found.
    pub way: Way,
}

impl PlannedZone {
    ghost use Rattle.std.specs.Prelude.{◌≡◌};
    ghost use Rattle.zone_scans.specs.Planning.{is_read};

    /// Whether it is to be read: to find records all are that are not skipped, and to count them those
    /// whose statistics decide nothing.
    pub fn is_read(&self, purpose: Purpose) -> bool
        ensures { result ≡ is_read purpose self.now }
    {
        match purpose {
            Purpose::Find => !matches!(self.way, Way::Skip),
            Purpose::Count => matches!(self.decision, Decision::Unknown),
        }
    }
}

/// What becomes of each zone in a search. The first record of the first one has the number `first`.
pub fn plan_zones<M: Matcher>(
    alloc: Global,
    zones: &[Zone],
    first: u64,
    matcher: &M,
) -> Result<Vec<PlannedZone>, AllocError>
    ensures { IfOk result (λ planned. planned.items ≡ planned_from (M.decides matcher.now) first zones.now) }
{
    let mut planned = Vec::new(alloc);
    let mut number = first;
    for zone in zones {
        planned.push(plan_zone(alloc, zone, number, matcher)?)?;
        number = number.saturating_add(zone.records);
    }
    Ok(planned)
}

/// What becomes of a zone, whose first record has this number.
fn plan_zone<M: Matcher>(
    alloc: Global,
    zone: &Zone,
    number: u64,
    matcher: &M,
) -> Result<PlannedZone, AllocError>
    ensures { IfOk result (λ planned. planned ≡ planned_at (M.decides matcher.now) number zone.now) }
{
    let decision = matcher.decide(alloc, &zone.statistics)?;
    let range = ByteRange {
        place: zone.first,
        length: zone.length,
    };
    Ok(PlannedZone {
        range,
        records: zone.records,
        rows: zone.rows,
        number,
        decision,
        way: way_by(decision, zone.records, zone.rows),
    })
}

/// What becomes of a zone of which statistics decide so. One with empty lines is not written whole.
fn way_by(decision: Decision, records: u64, rows: u64) -> Way
    ensures { result ≡ way_by decision records rows }
{
    match decision {
        Decision::NoneMatch => Way::Skip,
        Decision::AllMatch if records == rows => Way::Copy,
        Decision::AllMatch | Decision::Unknown => Way::Search,
    }
}

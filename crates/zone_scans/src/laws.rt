//! The laws of searches zone by zone: what holds of all of them, whatever calls gave them.
//!
//! These functions do nothing when they run. The contract of each is a law over the definitions in
//! `specs/`, and its proof is the law's proof.

ghost use Rattle.zone_scans.specs.Laws.{FoundRecordsAreKept, PlansCountAll, PlansFindAll};

use zone_index::Matcher;

/// What is found in the zones that are to be read, each searched alone, is what is found in all records of
/// a file for which the index is right: no record less, none more, and in the same order.
pub fn plans_find_all<M: Matcher>(matcher: &M)
    ensures { PlansFindAll (M.delimiter matcher.now) (M.has_row matcher.now) (M.matches matcher.now)
        (M.Describes matcher.now) (M.decides matcher.now) }
{
    let _ = matcher;
}

/// As many match in a file as its zones have: of those that are decided, the rows or none, and of the
/// others as many as match.
pub fn plans_count_all<M: Matcher>(matcher: &M)
    ensures { PlansCountAll (M.delimiter matcher.now) (M.has_row matcher.now) (M.matches matcher.now)
        (M.Describes matcher.now) (M.decides matcher.now) }
{
    let _ = matcher;
}

/// The bytes at the places that are found, one after another, are those of the records that match.
pub fn found_records_are_kept()
    ensures { FoundRecordsAreKept }
{}

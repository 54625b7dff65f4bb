//! The laws of an index: what holds of all of them, whatever calls gave them.
//!
//! These functions do nothing when they run. The contract of each is a law over the definitions in
//! `specs/`, and its proof is the law's proof.

ghost use Rattle.zone_index.specs.Laws.{IndexesAreJoined, IndexesAreParted};

use crate::records::{Describer, Records};

/// The zones of a file's front, and those of what stands behind it, are together an index of the file. No
/// record may go on from one to the other.
pub fn indexes_are_joined<R: Records>(records: &R)
    ensures { IndexesAreJoined (R.delimiter records.now) (R.has_row records.now) (R.Describes records.now) }
{
    let _ = records;
}

/// The same of zones whose statistics are those that a describer gives.
pub fn full_indexes_are_joined<D: Describer>(describer: &D)
    ensures { IndexesAreJoined (D.delimiter describer.now) (D.has_row describer.now)
        (D.DescribesFully describer.now) }
{
    let _ = describer;
}

/// The first zones of an index are one of the bytes up to where they end, and the others of what stands
/// behind these.
pub fn indexes_are_parted<R: Records>(records: &R)
    ensures { IndexesAreParted (R.delimiter records.now) (R.has_row records.now) (R.Describes records.now) }
{
    let _ = records;
}

/// The same of zones whose statistics are those that a describer gives.
pub fn full_indexes_are_parted<D: Describer>(describer: &D)
    ensures { IndexesAreParted (D.delimiter describer.now) (D.has_row describer.now)
        (D.DescribesFully describer.now) }
{
    let _ = describer;
}

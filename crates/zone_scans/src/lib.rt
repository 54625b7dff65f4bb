// SPDX-License-Identifier: Apache-2.0
// SPDX-FileCopyrightText: Copyright the Vortex contributors; ported to Rattle and changed
//! What a search by an index reads, for callers who read it themselves: the pieces of the index and of
//! the file, and the records that match in the bytes that came.
#![tactic(auto)]

mod blocks;
mod finding;
pub mod laws;
mod planning;
mod ranges;
mod roots;

pub use blocks::{block_ranges, read_wanted};
pub use finding::{
    FoundRecord, Searched, SearchedUntilFault, find_records, find_records_until_fault,
};
pub use planning::{PlannedZone, Purpose, plan_zones};
pub use ranges::{ByteRange, RangeError, ranges_to_read};
pub use roots::{HEAD_LENGTH, root_length};

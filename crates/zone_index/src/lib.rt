// SPDX-License-Identifier: Apache-2.0
// SPDX-FileCopyrightText: Copyright the Vortex contributors; ported to Rattle and changed
//! An index of the zones of a file of records, and a search that reads only the zones it must.
//!
//! What a record's row is, and what the statistics of a zone say of its rows, are a caller's: of
//! the traits `Records`, `Describer` and `Matcher`.
#![tactic(auto)]

mod blocks;
mod counting;
mod encoding;
mod errors;
mod fields;
mod indexing;
pub mod laws;
mod lines;
mod read_at;
mod reading;
mod records;
mod search;
mod sinks;
mod streaming;
mod taking;
mod writing;
mod zones;

pub use counting::count;
pub use encoding::{Block, EncodingError, Index, MAGIC, ReadError, Root, VERSION, WriteError};
pub use errors::{Cause, RecordError, Refusal, SearchError};
pub use fields::are_pieces;
pub use indexing::{Indexed, index_records};
pub use read_at::{Asked, Logged, ReadAt, fill_from};
pub use reading::{read_blocks, read_root};
pub use records::{Decision, Described, Describer, Matcher, Records};
pub use search::{Tally, find};
pub use sinks::{NumberedSink, PlainSink, Sink};
pub use streaming::{count_rest, find_rest};
pub use taking::take_records;
pub use writing::write_index;
pub use zones::{Position, Way, Zone, number_after};

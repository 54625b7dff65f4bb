// SPDX-License-Identifier: Apache-2.0
//! Which values a set may contain, in a few bits a value: split block Bloom filters as Parquet has them.
//!
//! A filter answers `false` only if a value was never inserted. It answers `true` for a value that was
//! not at the rate that its number of blocks is chosen for.
#![tactic(auto)]

mod bitmaps;
mod capacities;
mod error;
mod filters;
mod hashing;
pub mod laws;

pub use capacities::{MAX_BLOCKS, blocks_for};
pub use error::BloomFilterError;
pub use filters::{SplitBlockBloomFilter, SplitBlockBloomFilterRef};
pub use hashing::xxh64;

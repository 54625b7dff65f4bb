// SPDX-License-Identifier: Apache-2.0
// SPDX-FileCopyrightText: Copyright the Vortex contributors; ported to Rattle and changed
//! Keys of scalars and of rows: bytes that sort as the scalars do, and from which they come back.
#![tactic(auto)]

mod decode;
mod encode;
mod error;
mod keys;
pub mod laws;
mod lengths;
mod options;
mod plain;
mod reader;
mod rows;
mod tags;
mod variants;

pub use decode::{decode_key, decode_key_into, decode_row_key};
pub use error::RowError;
pub use keys::{append_key, compare_keys, has_key, key_length};
pub use options::SortOptions;
pub use plain::{PlainValue, plain_key_length, write_plain_key};
pub use rows::{RowEncoder, append_row_key};

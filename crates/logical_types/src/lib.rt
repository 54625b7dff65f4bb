// SPDX-License-Identifier: Apache-2.0
//! Logical types over integers: floats, decimals, dates, times and timestamps, and the words of their values.
#![tactic(auto)]

mod clock;
mod dates;
mod decimals;
mod extensions;
mod floats;
pub mod laws;
mod logical;
mod names;
mod plain;
mod times;
mod values;
mod words;

pub use clock::{time_of_word, word_of_time};
pub use dates::{day_of_word, word_of_day};
pub use decimals::{
    DecimalPlace, bytes_of_decimal, decimal_of_bytes, decimal_of_word, place_among_values,
    place_of_word, text_of_decimal,
};
pub use extensions::{
    StorageType, extension_id, extension_metadata, is_extension_of, logical_type_of_extension,
    storage_type,
};
pub use floats::{
    f32_storage_of_parts, f32_storage_of_word, f64_storage_of_parts, f64_storage_of_word,
    word_of_f32_storage, word_of_f64_storage,
};
pub use logical::{DecimalType, LogicalType};
pub use names::{logical_type_named, name_of_logical_type};
pub use times::{TimeUnit, timestamp_of_word, word_of_timestamp};
pub use values::{is_value_of, storages_of};
pub use words::{storage_of_word, word_of_storage};

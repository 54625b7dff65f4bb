// SPDX-License-Identifier: Apache-2.0
//! Floats as integers that sort as they do: the storage of a value of a column of floats.
//!
//! Both zeros have the storage 0. All NaNs have one storage, next above that of infinity. So the storages
//! are one interval, and the order of values is PostgreSQL's: NaN equals NaN, and is above infinity.
#![tactic(auto)]

mod binary32;
mod binary64;
pub mod laws;

pub use binary32::{
    f32_bits_of_storage, f32_of_storage, is_f32_storage, storage_of_f32, storage_of_f32_bits,
};
pub use binary64::{
    f64_bits_of_storage, f64_of_storage, is_f64_storage, storage_of_f64, storage_of_f64_bits,
};

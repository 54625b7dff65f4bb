// SPDX-License-Identifier: Apache-2.0
//! Scalars of logical types: extensions over the storages of their values.
#![tactic(auto)]

mod floats;
pub mod laws;
mod scalars;
mod types;

pub use floats::{f32_of_scalar, f64_of_scalar, scalar_of_f32, scalar_of_f64};
pub use scalars::{
    scalar_of_column, scalar_of_storage, scalar_of_word, storage_of_scalar, word_of_scalar,
};
pub use types::{dtype_of_logical_type, is_of_logical_type, logical_type_of};

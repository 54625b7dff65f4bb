// SPDX-License-Identifier: Apache-2.0
//! Constant arrays: columns that have the same scalar in each row. What such a column is asked is asked
//! once, of its scalar, whatever its length.
//!
//! `ConstantArray` stands for upstream's array of that name, as far as it is here. Errors, comparisons,
//! filters and keys are of this port alone.
#![tactic(auto)]

mod array;
mod casting;
mod error;
mod filtering;
mod folding;
mod keys;
pub mod laws;
mod statistics;

pub use array::ConstantArray;
pub use error::ConstantArrayError;
pub use folding::fold_constants;

//! What calls answer, and how it is written: a file for each family.

pub mod keys;
pub mod statistics;

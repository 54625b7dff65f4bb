//! Writes answers, each in one form.

pub mod output;
pub mod refusals;
pub mod texts;
pub mod types;
pub mod values;
pub mod words;

// SPDX-License-Identifier: Apache-2.0
//! Whether rows of a zone may match a filter, by Bloom filters of the values of its columns.
//!
//! `=` and `in` ask whether a column may have a literal. So a zone can be skipped that has none of them,
//! also where its least and greatest values exclude nothing.
#![tactic(auto)]

pub mod laws;
mod members;
mod predicate;
mod preparing;

pub use members::{ColumnFilters, Members};
pub use predicate::MembershipPredicate;

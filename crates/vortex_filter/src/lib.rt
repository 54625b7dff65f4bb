// SPDX-License-Identifier: Apache-2.0
// SPDX-FileCopyrightText: Copyright the Vortex contributors; ported to Rattle and changed
//! Filters over rows of scalars, by SQL's three-valued logic.
#![tactic(auto)]

mod building;
mod check;
mod coerce;
mod copies;
mod error;
mod evaluation;
mod extensions;
mod filter;
pub mod laws;
mod literals;
mod logical_values;
mod naming;
mod operator;
mod pattern;
mod positions;
mod prefix;
mod truth;

pub use building::{both, conjoin, disjoin, either, negate, negation};
pub use error::FilterError;
pub use filter::Filter;
pub use literals::{Literal, Position};
pub use logical_values::logical_value;
pub use operator::CompareOperator;
pub use positions::{comparison_of, member_of, prefix_of, range_of, with_position};
pub use prefix::order_of_prefix;
pub use truth::Truth;

// SPDX-License-Identifier: Apache-2.0
// SPDX-FileCopyrightText: Copyright the Vortex contributors; ported to Rattle and changed
//! Integer values: a `PType` and a whole number in its range.
//!
//! A public item ports upstream's item of the same name. If its comment names another item, it
//! ports that one; if the comment says that it is of this port alone, upstream has none.
#![tactic(auto)]

mod conversions;
pub mod laws;
mod natives;
mod operators;
mod pvalues;

pub use natives::NativePType;
pub use operators::NumericOperator;
pub use pvalues::PValue;

// SPDX-License-Identifier: Apache-2.0
// SPDX-FileCopyrightText: Copyright the Vortex contributors; ported to Rattle and changed
//! Raw values and scalars: a valid scalar is one type and one content.
//!
//! A public item ports upstream's of the same name, unless it names another or says that it, or its
//! type, is of this port alone.
#![tactic(auto)]

mod cast;
mod constructor;
mod convert;
mod copies;
mod display;
mod equality;
mod hashing;
pub mod laws;
mod ordering;
mod refs;
mod reinterpret;
mod scalars;
mod size;
mod storage;
mod unions;
mod validate;
mod values;
mod zero;

pub use refs::ScalarRef;
pub use scalars::Scalar;
pub use storage::storage_of;
pub use unions::UnionValue;
pub use values::ScalarValue;

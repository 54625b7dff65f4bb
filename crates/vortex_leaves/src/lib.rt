// SPDX-License-Identifier: Apache-2.0
// SPDX-FileCopyrightText: Copyright the Vortex contributors; ported to Rattle and changed

//! Views of scalars without parts: booleans, integers, strings and bytes.
//!
//! A public item ports upstream's item of the same name. Its comment says so if the name differs,
//! or if upstream has no such item.
#![tactic(auto)]

mod binary;
mod bool;
pub mod laws;
mod primitive;
mod utf8;

pub use binary::BinaryScalar;
pub use bool::BoolScalar;
pub use primitive::PrimitiveScalar;
pub use utf8::Utf8Scalar;

// SPDX-License-Identifier: Apache-2.0
// SPDX-FileCopyrightText: Copyright the Vortex contributors; ported to Rattle and changed

//! Views of scalars with parts: lists, maps, structs, unions, variants and extensions. A call lends
//! a part or copies it.
//!
//! A public item ports upstream's item of the same name. Its comment says so if the name differs,
//! or if upstream has no such item.
#![tactic(auto)]

mod downcast;
mod extension;
mod iterators;
pub mod laws;
mod list;
mod map;
mod parts;
mod struct_;
mod union;
mod variant;

pub use downcast::Downcast;
pub use extension::ExtScalar;
pub use iterators::{Entries, Fields, Keys, Values};
pub use list::ListScalar;
pub use map::MapScalar;
pub use struct_::StructScalar;
pub use union::UnionScalar;
pub use variant::VariantScalar;
pub use vortex_leaves::{BinaryScalar, BoolScalar, PrimitiveScalar, Utf8Scalar};

// SPDX-License-Identifier: Apache-2.0
// SPDX-FileCopyrightText: Copyright the Vortex contributors; ported to Rattle and changed
//! The types of scalars, the buffers that hold their values, and the reasons for refusing a call.
//!
//! A contract sees a type as a tree (`specs/TypeTree`), and a buffer as its list of bytes. Types
//! are equal and hashed with or without nullability.
//!
//! A public item ports upstream's item of the same name. If its comment names another item, it
//! ports that one; if the comment says that it is of this port alone, upstream has none.
#![tactic(auto)]

mod buffer;
mod error;
pub mod laws;
mod names;
mod native;
mod nullability;
mod ptype;
#[tactic(auto, using(crate::proofs::HeldParts::type_parts))]
mod types;

pub use buffer::{BufferString, ByteBuffer, INLINE_BYTES};
pub use error::{Breach, Path, Step, TypeCause, VortexError};
pub use names::{FieldName, FieldNames};
pub use native::NativeDType;
pub use nullability::Nullability;
pub use ptype::PType;
pub use types::variants::TypeIds;
pub use types::{DType, ExtDType, MapDType, StructFields, UnionVariants};

// SPDX-License-Identifier: Apache-2.0
// SPDX-FileCopyrightText: Copyright the Vortex contributors; ported to Rattle and changed
//! Scalars for callers: conversions between Rust values and scalars, and what the crates below have,
//! views and truncation to bounds among it.
#![tactic(auto)]

mod from_scalar;
mod integers;
mod into_scalar;
pub mod laws;
mod round_trip;

pub use from_scalar::FromScalar;
pub use into_scalar::IntoScalar;
pub use round_trip::RoundTrip;
pub use vortex_bounds::{IncrementError, ScalarTruncation, StringLike, lower_bound, upper_bound};
pub use vortex_dtype::{
    Breach, BufferString, ByteBuffer, DType, ExtDType, FieldName, FieldNames, INLINE_BYTES,
    MapDType, NativeDType, Nullability, PType, Path, Step, StructFields, TypeCause, TypeIds,
    UnionVariants, VortexError,
};
pub use vortex_leaves::{BinaryScalar, BoolScalar, PrimitiveScalar, Utf8Scalar};
pub use vortex_pvalue::{NativePType, NumericOperator, PValue};
pub use vortex_value::{Scalar, ScalarRef, ScalarValue, UnionValue};
pub use vortex_views::{
    Downcast, Entries, ExtScalar, Fields, Keys, ListScalar, MapScalar, StructScalar, UnionScalar,
    Values, VariantScalar,
};

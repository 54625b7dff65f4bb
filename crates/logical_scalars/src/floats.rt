// SPDX-License-Identifier: Apache-2.0
//! Scalars of floats, from and to Rust's.

ghost use Rattle.std.specs.Prelude.{◌≡◌, ℤ, IfNone, IfOk, IfSome};
ghost use Rattle.std.specs.Float.{binary32, binary64};
ghost use Rattle.vortex_value.specs.Words.{GivesOrNoMemory, IsMadeOf, IsValid};
ghost use Rattle.float_storage.specs.Storage.{float_of_storage, storage_of};
ghost use Rattle.logical_scalars.specs.Stored.{Holds, logical_tree, raw_storage};
ghost use Rattle.logical_types.specs.declared.extensions.StorageType.TheVariants as StorageTypes;
ghost use Rattle.logical_types.specs.declared.logical.LogicalType.TheVariants as LogicalTypes;

use crate::scalars::storage_of_scalar;
use crate::types::extension_of;
use float_storage::{f32_of_storage, f64_of_storage, storage_of_f32, storage_of_f64};
use logical_types::LogicalType;
use std::alloc::Global;
use vortex_dtype::{Nullability, VortexError};
use vortex_value::Scalar;

/// The scalar of an f64. `OutOfMemory` if there is no memory for its type.
pub fn scalar_of_f64(
    alloc: Global,
    number: f64,
    nullability: Nullability,
) -> Result<Scalar, VortexError>
    ensures made { GivesOrNoMemory (IsMadeOf (logical_tree LogicalTypes.Float64 nullability)
        (raw_storage StorageTypes.I64 (storage_of binary64 number))) result }
    ensures valid { IfOk result IsValid }
{
    let extension = extension_of(alloc, LogicalType::Float64, nullability)?;
    let stored = Scalar::primitive(storage_of_f64(number), nullability);
    Scalar::extension_ref(extension, stored)
}

/// The scalar of an f32. `OutOfMemory` if there is no memory for its type.
pub fn scalar_of_f32(
    alloc: Global,
    number: f32,
    nullability: Nullability,
) -> Result<Scalar, VortexError>
    ensures made { GivesOrNoMemory (IsMadeOf (logical_tree LogicalTypes.Float32 nullability)
        (raw_storage StorageTypes.I32 (storage_of binary32 number))) result }
    ensures valid { IfOk result IsValid }
{
    let extension = extension_of(alloc, LogicalType::Float32, nullability)?;
    let stored = Scalar::primitive(storage_of_f32(number), nullability);
    Scalar::extension_ref(extension, stored)
}

/// The f64 of a scalar. None of a null, and of a scalar of another type.
pub fn f64_of_scalar(scalar: &Scalar) -> Option<f64>
    ensures some { IfSome result (λ x. (z : ℤ) × Holds LogicalTypes.Float64 z scalar.now
        × (x ≡ float_of_storage binary64 z)) }
    ensures none { IfNone result ((z : ℤ) → ¬ (Holds LogicalTypes.Float64 z scalar.now)) }
{
    match storage_of_scalar(LogicalType::Float64, scalar) {
        Some(storage) => Some(f64_of_storage(storage as i64)),
        None => None,
    }
}

/// The f32 of a scalar. None of a null, and of a scalar of another type.
pub fn f32_of_scalar(scalar: &Scalar) -> Option<f32>
    ensures some { IfSome result (λ x. (z : ℤ) × Holds LogicalTypes.Float32 z scalar.now
        × (x ≡ float_of_storage binary32 z)) }
    ensures none { IfNone result ((z : ℤ) → ¬ (Holds LogicalTypes.Float32 z scalar.now)) }
{
    match storage_of_scalar(LogicalType::Float32, scalar) {
        Some(storage) => Some(f32_of_storage(storage as i32)),
        None => None,
    }
}

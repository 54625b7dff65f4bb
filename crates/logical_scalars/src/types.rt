// SPDX-License-Identifier: Apache-2.0
//! The types of columns of logical types.

ghost use Rattle.std.specs.Prelude.{◌≡◌, ◌≢◌, ◌↔◌, IfNone, IfSome, IsTrue};
ghost use Rattle.vortex_dtype.specs.Words.{GivesOrNoMemory, ext_of, type_of};
ghost use Rattle.vortex_dtype.specs.declared.nullability.Nullability.{Nullability};
ghost use Rattle.logical_scalars.specs.Stored.{IsOfLogicalType, logical_tree, storage_tree};
ghost use Rattle.logical_types.specs.Extensions.{id_of, metadata_of, storage_type_of};
ghost use Rattle.logical_types.specs.declared.extensions.StorageType.{StorageType};
ghost use Rattle.logical_types.specs.declared.logical.LogicalType.{LogicalType};

use logical_types::{
    LogicalType, StorageType, extension_id, extension_metadata, is_extension_of,
    logical_type_of_extension, storage_type,
};
use std::alloc::Global;
use vortex_dtype::{BufferString, ByteBuffer, DType, ExtDType, Nullability, PType, VortexError};

/// The type of a column of a logical type. `OutOfMemory` if there is no memory for it.
pub fn dtype_of_logical_type(
    alloc: Global,
    logical: LogicalType,
    nullability: Nullability,
) -> Result<DType, VortexError>
    ensures { GivesOrNoMemory (λ dtype. type_of dtype ≡ logical_tree logical nullability) result }
{
    Ok(DType::Extension(extension_of(alloc, logical, nullability)?))
}

/// The extension of a logical type.
pub(crate) fn extension_of(
    alloc: Global,
    logical: LogicalType,
    nullability: Nullability,
) -> Result<ExtDType, VortexError>
    ensures { GivesOrNoMemory (λ extension. ext_of extension ≡ record {
      id = id_of logical;
      metadata = metadata_of logical;
      storage = storage_tree (storage_type_of logical) nullability;
    }) result }
{
    let id = BufferString::from_str(alloc, extension_id(logical))?;
    let metadata = ByteBuffer::from_slice(alloc, extension_metadata(logical).as_slice())?;
    ExtDType::new(
        alloc,
        id,
        metadata,
        storage_dtype(storage_type(logical), nullability),
    )
}

/// The type of storages.
fn storage_dtype(storage: StorageType, nullability: Nullability) -> DType
    ensures { type_of result ≡ storage_tree storage nullability }
{
    match storage {
        StorageType::I32 => DType::Primitive(PType::I32, nullability),
        StorageType::I64 => DType::Primitive(PType::I64, nullability),
        StorageType::Bytes => DType::Binary(nullability),
    }
}

/// The logical type of a column's type, if it is one. A zone may have any name.
pub fn logical_type_of(dtype: &DType) -> Option<LogicalType>
    ensures some { IfSome result (IsOfLogicalType (type_of dtype.now)) }
    ensures none { IfNone result ((l : LogicalType) → ¬ (IsOfLogicalType (type_of dtype.now) l)) }
{
    let DType::Extension(extension) = dtype else {
        return None;
    };
    let storage = storage_type_in(extension.storage_dtype())?;
    let metadata = extension.metadata().as_slice();
    logical_type_of_extension(extension.id().as_str(), metadata, storage)
}

/// Whether a column's type is that of a logical type. A zone may have any name.
pub fn is_of_logical_type(logical: LogicalType, dtype: &DType) -> bool
    ensures { IsTrue result ↔ IsOfLogicalType (type_of dtype.now) logical }
{
    let DType::Extension(extension) = dtype else {
        return false;
    };
    match storage_type_in(extension.storage_dtype()) {
        Some(storage) => {
            let metadata = extension.metadata().as_slice();
            is_extension_of(logical, extension.id().as_str(), metadata, storage)
        }
        None => false,
    }
}

/// What a type of storages stores.
fn storage_type_in(dtype: &DType) -> Option<StorageType>
    ensures some { IfSome result (λ kind. (n : Nullability) × (type_of dtype.now ≡ storage_tree kind n)) }
    ensures none { IfNone result ((kind : StorageType) (n : Nullability) → type_of dtype.now ≢ storage_tree kind n) }
{
    match dtype {
        DType::Primitive(PType::I32, _) => Some(StorageType::I32),
        DType::Primitive(PType::I64, _) => Some(StorageType::I64),
        DType::Binary(_) => Some(StorageType::Bytes),
        _ => None,
    }
}

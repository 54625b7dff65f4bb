//! The values of logical types that scalars are.

ghost use Rattle.std.specs.Prelude.{◌≡◌, ◌≢◌, ℤ, IfNone, IfSome};
ghost use Rattle.logical_scalars.specs.Stored.{IsOfLogicalType};
ghost use Rattle.logical_types.specs.declared.logical.LogicalType.{LogicalType as LogicalTypes};
ghost use Rattle.vortex_filter.specs.Literals.{storage_content};
ghost use Rattle.vortex_filter.specs.LogicalValues.{IsLogicalValue};
ghost use Rattle.vortex_filter.specs.Words.{cell_of, scalar_content, type_of};

use logical_scalars::laws::shapes_say_types;
use logical_scalars::logical_type_of;
use logical_types::{LogicalType, StorageType, decimal_of_bytes, is_value_of, laws, storage_type};
use vortex_value::{Scalar, ScalarValue};

/// The logical type and the storage of the value that a scalar is. None of a null, of a scalar of
/// another type, and of one that is no value of its logical type.
#[tactic(auto, using(crate::proofs::LogicalValueLaws::values))]
pub fn logical_value(scalar: &Scalar) -> Option<(LogicalType, i128)>
    ensures some { IfSome result (λ found. IsLogicalValue found.0 found.1 (cell_of scalar.now)) }
    ensures none { IfNone result ((l : LogicalTypes) (z : ℤ)
        → ¬ (IsLogicalValue l z (cell_of scalar.now))) }
{
    shapes_say_types();
    let Some(logical) = logical_type_of(&scalar.dtype) else {
        return None;
    };
    match value_in(logical, scalar) {
        Some(storage) => Some((logical, storage)),
        None => None,
    }
}

/// The storage of the value that a scalar of a logical type is.
fn value_in(logical: LogicalType, scalar: &Scalar) -> Option<i128>
    requires { IsOfLogicalType (type_of scalar.now.dtype) logical }
    ensures some { IfSome result (λ z. IsLogicalValue logical z (cell_of scalar.now)) }
    ensures none { IfNone result ((z : ℤ) → ¬ (IsLogicalValue logical z (cell_of scalar.now))) }
{
    laws::storages_fit(logical);
    laws::decimal_bytes_sort_as_numbers();
    let storage = storage_in(storage_type(logical), scalar)?;
    if is_value_of(logical, storage) {
        Some(storage)
    } else {
        None
    }
}

/// The number that a scalar stores.
fn storage_in(kind: StorageType, scalar: &Scalar) -> Option<i128>
    ensures some { IfSome result (λ z. scalar_content scalar.now ≡ storage_content kind z) }
    ensures none { IfNone result ((z : ℤ) → scalar_content scalar.now ≢ storage_content kind z) }
{
    match (kind, scalar.value()) {
        (StorageType::I32 | StorageType::I64, Some(ScalarValue::Primitive(number))) => {
            Some(number.whole())
        }
        (StorageType::Bytes, Some(ScalarValue::Binary(bytes))) => {
            decimal_of_bytes(bytes.as_slice())
        }
        _ => None,
    }
}

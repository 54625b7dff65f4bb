//! Scalars from their keys.

mod columns;
mod inhabited;
mod leaves;
mod numbers;
mod strings;
mod texts;
mod values;

ghost use Rattle.std.specs.Prelude.{◌≡◌, ◌≢◌, ◌↔◌, ◌⊎◌, ℕ, List, Err, IfErr, IfOk, OnOk, length};
ghost use Rattle.vortex_row.specs.Decoded.{BeginsWithKey, BeginsWithRow, DecodesInto, DecodesRowTo, DecodesTo};
ghost use Rattle.vortex_row.specs.Decoded.{IsDecoded, IsDecodedRow, IsFirstBad, IsKeyOf, IsRowKeyOf};
ghost use Rattle.vortex_row.specs.Words.{BadKey, HasNoVariant, HasVariant, HaveNoVariant, OutOfMemory};
ghost use Rattle.vortex_row.specs.Words.{RawTree, WrongLength, dtype_trees, type_of};

use crate::error::RowError;
use crate::options::SortOptions;
use crate::rows::expect_length;
use crate::variants::{expect_no_variant, expect_no_variants};
use columns::{decode_column, decode_column_into, decode_columns};
use std::alloc::Global;
use vortex_dtype::DType;
use vortex_value::Scalar;
use vortex_value::laws::one_value;

/// The scalar of the type that the bytes begin with the key of, in a column that is sorted so, and
/// how many bytes its key has. What follows the key does not matter.
///
/// `HasVariant` exactly if a variant stands in the type, at any depth. Else `BadKey` if the bytes
/// begin with no key of a value of the type: its offset is that of the first byte that no such key
/// has there, or of the end if they end too early. `OutOfMemory` may come in place of each answer
/// but `HasVariant`.
#[tactic(auto, using(crate::proofs::DecodeSteps::answers))]
pub fn decode_key(
    alloc: Global,
    dtype: &DType,
    options: SortOptions,
    bytes: &[u8],
) -> Result<(Scalar, usize), RowError>
    ensures decoded { IfOk result
        (λ p. IsDecoded options (type_of dtype.now) bytes.now p.0 p.1) }
    ensures whole { (v : RawTree) (rest : List ℕ) → HasNoVariant (type_of dtype.now)
        → BeginsWithKey options (type_of dtype.now) bytes.now v rest
        → DecodesTo options (type_of dtype.now) v result }
    ensures ordered { OnOk result (HasNoVariant (type_of dtype.now)) }
    ensures variant { (result ≡ Err HasVariant) ↔ ¬ (HasNoVariant (type_of dtype.now)) }
    ensures bad { (place : ℕ) → result ≡ Err (BadKey place)
        → IsFirstBad (IsKeyOf options (type_of dtype.now)) bytes.now place }
    ensures refused { IfErr result (λ e. (e ≡ HasVariant) ⊎ ((e ≡ OutOfMemory)
        ⊎ ((place : ℕ) × (e ≡ BadKey place)))) }
{
    expect_no_variant(dtype)?;
    one_value();
    decode_column(alloc, dtype, options, bytes)
}

/// Puts the scalar that `decode_key` gives in the place of this one, and answers how many bytes the
/// key has. It spares the moves of a result, and a copy of the type if this one has it already.
///
/// Each refusal comes as from `decode_key`. After one the scalar may be any.
#[tactic(auto, using(crate::proofs::DecodeSteps::answers))]
#[inline(always)]
pub fn decode_key_into(
    alloc: Global,
    dtype: &DType,
    options: SortOptions,
    bytes: &[u8],
    scalar: &mut Scalar,
) -> Result<usize, RowError>
    ensures decoded { IfOk result
        (λ n. IsDecoded options (type_of dtype.now) bytes.now scalar.new n) }
    ensures whole { (v : RawTree) (rest : List ℕ) → HasNoVariant (type_of dtype.now)
        → BeginsWithKey options (type_of dtype.now) bytes.now v rest
        → DecodesInto options (type_of dtype.now) v scalar.new result }
    ensures ordered { OnOk result (HasNoVariant (type_of dtype.now)) }
    ensures variant { (result ≡ Err HasVariant) ↔ ¬ (HasNoVariant (type_of dtype.now)) }
    ensures bad { (place : ℕ) → result ≡ Err (BadKey place)
        → IsFirstBad (IsKeyOf options (type_of dtype.now)) bytes.now place }
    ensures refused { IfErr result (λ e. (e ≡ HasVariant) ⊎ ((e ≡ OutOfMemory)
        ⊎ ((place : ℕ) × (e ≡ BadKey place)))) }
{
    expect_no_variant(dtype)?;
    one_value();
    decode_column_into(alloc, dtype, options, bytes, scalar)
}

/// The scalars of the types that the bytes begin with the key of the row of, in columns that are
/// sorted so, and how many bytes that key has. What follows the key does not matter.
///
/// `WrongLength` exactly if there are not as many types as options, before all else; then
/// `HasVariant` exactly if a variant stands in one of the types, at any depth. Else `BadKey` if the
/// bytes begin with no key of a row of values of the types: its offset is that of the first byte
/// that no such key has there, or of the end if they end too early. `OutOfMemory` may come in place
/// of each answer but the first two refusals.
#[tactic(auto, using(crate::proofs::RowDecodeSteps::answers))]
pub fn decode_row_key(
    alloc: Global,
    dtypes: &[DType],
    options: &[SortOptions],
    bytes: &[u8],
) -> Result<(Vec<Scalar>, usize), RowError>
    ensures decoded { IfOk result (λ p. IsDecodedRow options.now (dtype_trees dtypes.now)
        bytes.now p.0.items p.1) }
    ensures whole { (vs : List RawTree) (rest : List ℕ) → length dtypes.now ≡ length options.now
        → HaveNoVariant (dtype_trees dtypes.now)
        → BeginsWithRow options.now (dtype_trees dtypes.now) bytes.now vs rest
        → DecodesRowTo options.now (dtype_trees dtypes.now) vs result }
    ensures ordered { OnOk result (HaveNoVariant (dtype_trees dtypes.now)) }
    ensures lengths { (result ≡ Err (WrongLength (length options.now) (length dtypes.now)))
        ↔ (length dtypes.now ≢ length options.now) }
    ensures variant { (result ≡ Err HasVariant) ↔ ((length dtypes.now ≡ length options.now)
        × ¬ (HaveNoVariant (dtype_trees dtypes.now))) }
    ensures bad { (place : ℕ) → result ≡ Err (BadKey place)
        → IsFirstBad (IsRowKeyOf options.now (dtype_trees dtypes.now)) bytes.now place }
    ensures refused { IfErr result (λ e.
        (e ≡ WrongLength (length options.now) (length dtypes.now))
        ⊎ ((e ≡ HasVariant) ⊎ ((e ≡ OutOfMemory) ⊎ ((place : ℕ) × (e ≡ BadKey place))))) }
{
    expect_length(options.len(), dtypes.len())?;
    expect_no_variants(dtypes)?;
    one_value();
    decode_columns(alloc, dtypes, options, bytes)
}

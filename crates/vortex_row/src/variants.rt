//! The refusal of types in which a variant stands, and of values in which a variant's child does: they
//! have no keys.

ghost use Rattle.std.specs.Prelude.{◌≡◌, Err, OnOk, IfErr, false};
ghost use Rattle.vortex_row.specs.Words.{HasKey, HasNoTyped, HasNoVariant, HasVariant, HaveNoVariant, content};
ghost use Rattle.vortex_row.specs.Words.{contents, dtype_trees, has_typed, has_variant, have_typed, lent_raw};
ghost use Rattle.vortex_row.specs.Words.{ref_content, ref_type, type_of, value_tree, value_trees};

use crate::error::RowError;
use vortex_cells::{has_variant, have_variant};
use vortex_dtype::DType;
use vortex_value::{ScalarRef, ScalarValue};

/// Whether the type has parts or is a variant. If not, no call has to look into it.
#[inline(always)]
fn may_hold_variant(dtype: &DType) -> bool
    ensures { result ≡ false → has_variant (type_of dtype.now) ≡ false }
{
    match dtype {
        DType::Bool(_) | DType::Primitive(_, _) | DType::Utf8(_) | DType::Binary(_) => false,
        _ => true,
    }
}

/// `HasVariant` exactly if a variant stands in the type, at any depth.
#[tactic(auto, using(vortex_cells::proofs::VariantSteps::decided))]
#[inline(always)]
pub(crate) fn expect_no_variant(dtype: &DType) -> Result<(), RowError>
    ensures ordered { OnOk result (HasNoVariant (type_of dtype.now)) }
    ensures refused { IfErr result (λ e. (e ≡ HasVariant) × ¬ (HasNoVariant (type_of dtype.now))) }
{
    if may_hold_variant(dtype) && has_variant(dtype) {
        return Err(RowError::HasVariant);
    }
    Ok(())
}

/// `HasVariant` exactly if a variant stands in one of the types, at any depth.
#[tactic(auto, using(vortex_cells::proofs::VariantSteps::decided))]
pub(crate) fn expect_no_variants(dtypes: &[DType]) -> Result<(), RowError>
    ensures ordered { OnOk result (HaveNoVariant (dtype_trees dtypes.now)) }
    ensures refused { IfErr result
        (λ e. (e ≡ HasVariant) × ¬ (HaveNoVariant (dtype_trees dtypes.now))) }
{
    if have_variant(dtypes) {
        return Err(RowError::HasVariant);
    }
    Ok(())
}

/// Whether a variant's child stands in an optional raw value, at any depth.
#[cycle(typed)]
#[tactic(auto, using(crate::proofs::TypedSteps::shown))]
#[inline(always)]
fn is_typed(value: Option<&ScalarValue>) -> bool
    ensures { result ≡ has_typed (content (lent_raw value.entry)) }
{
    match value {
        Some(value) => is_value_typed(value),
        None => false,
    }
}

/// Whether a variant's child stands in a raw value. A value without parts is no more than looked at.
#[cycle(typed)]
#[tactic(auto, using(crate::proofs::TypedSteps::shown))]
#[inline(always)]
fn is_value_typed(value: &ScalarValue) -> bool
    ensures { result ≡ has_typed (content (value_tree value.now)) }
{
    match value {
        ScalarValue::Bool(_)
        | ScalarValue::Primitive(_)
        | ScalarValue::Utf8(_)
        | ScalarValue::Binary(_) => false,
        ScalarValue::Tuple(parts) => are_parts_typed(parts),
        ScalarValue::Union(union) => is_typed(union.child.as_deref()),
        ScalarValue::Variant(_) => true,
    }
}

/// Whether a variant's child stands in one of the parts.
#[cycle(typed)]
#[tactic(auto, using(crate::proofs::TypedSteps::shown))]
fn are_parts_typed(parts: &[Option<ScalarValue>]) -> bool
    ensures { result ≡ have_typed (contents (value_trees parts.now)) }
{
    for part in parts {
        if is_typed(part.as_ref()) {
            return true;
        }
    }
    false
}

/// `HasVariant` exactly if a variant's child stands in the value, at any depth.
#[tactic(auto, using(crate::proofs::TypedSteps::decided))]
#[inline(always)]
pub(crate) fn expect_untyped(value: ScalarRef<'_>) -> Result<(), RowError>
    ensures untyped { OnOk result (HasNoTyped (ref_content value.entry)) }
    ensures refused { IfErr result
        (λ e. (e ≡ HasVariant) × ¬ (HasNoTyped (ref_content value.entry))) }
{
    if is_typed(value.value()) {
        return Err(RowError::HasVariant);
    }
    Ok(())
}

/// `HasVariant` exactly if a variant stands in the type or its child in the value, at any depth.
#[tactic(auto, using(crate::proofs::TypedSteps::keyed))]
#[inline(always)]
pub(crate) fn expect_key(value: ScalarRef<'_>) -> Result<(), RowError>
    ensures ordered { OnOk result (HasNoVariant (ref_type value.entry)) }
    ensures untyped { OnOk result (HasNoTyped (ref_content value.entry)) }
    ensures keyed { OnOk result (HasKey (ref_type value.entry) (ref_content value.entry)) }
    ensures refused { IfErr result
        (λ e. (e ≡ HasVariant) × ¬ (HasKey (ref_type value.entry) (ref_content value.entry))) }
{
    expect_no_variant(value.dtype())?;
    expect_untyped(value)
}

//! The encoding of statistics in bytes, appended.

ghost use Rattle.std.specs.Prelude.{◌≡◌, ◌++◌, ◌+◌, ◌<◌, ◌≤◌, ◌^◌, ◌↔◌, ◌⊎◌, ℕ, List, Err, IfErr, IfSome, IsOk, OnErr};
ghost use Rattle.std.specs.Prelude.{OnOk, length, option_map};
ghost use Rattle.statistics_bytes.specs.Words.{Appends, HasKey, HasNoVariant, HasNoVariantIn, HasNoVariants, HasRoom};
ghost use Rattle.statistics_bytes.specs.Words.{HasVariant, IsHeld, IsHeldBound, IsHeldKnown, OutOfMemory, ascending};
ghost use Rattle.statistics_bytes.specs.Words.{bound_bytes, count_bytes, encoding, key, known, known_bound};
ghost use Rattle.statistics_bytes.specs.Words.{known_count_bytes, option_copied, scalar_content, scalar_type, type_of};
ghost use Rattle.statistics_bytes.specs.Words.{vec_capacity, vec_len};

use crate::flags::flags_of;
use vortex_cells::has_variant;
use vortex_dtype::DType;
use vortex_row::{SortOptions, append_key, append_row_key, has_key};
use vortex_statistics::{Bound, ColumnStatistics, StatisticsError};
use vortex_value::{Scalar, ScalarRef};

/// The version of the layout: the first byte of each encoding.
pub(crate) const VERSION: u8 = 1;

/// Appends the encoding of statistics in bytes, and nothing else.
///
/// `HasVariant` exactly if a variant stands in the type of a bound or in a bound, at any depth. Else
/// `OutOfMemory` is the only refusal, and never comes if `out` has capacity for the encoding. After
/// a refusal `out` has the bytes that it had. The bounds need not be valid for their types.
pub fn append_statistics(
    statistics: &ColumnStatistics,
    out: &mut Vec<u8>,
) -> Result<(), StatisticsError>
    ensures appended { OnOk result
        (out.new.items ≡ out.old.items ++ encoding (known statistics.now)) }
    ensures held { OnOk result (IsHeldKnown (known statistics.now)) }
    ensures ordered { OnOk result (HasNoVariants (known statistics.now)) }
    ensures variant { (result ≡ Err HasVariant) ↔ ¬ (HasNoVariants (known statistics.now)) }
    ensures refused { IfErr result (λ e. (e ≡ HasVariant) ⊎ (e ≡ OutOfMemory)) }
    ensures room { HasNoVariants (known statistics.now)
        → vec_len out.old + length (encoding (known statistics.now)) ≤ vec_capacity out.old
        → IsOk result }
    ensures unchanged { OnErr result (out.new.items ≡ out.old.items) }
{
    expect_no_variant(statistics.lower.as_ref())?;
    expect_no_variant(statistics.upper.as_ref())?;
    let start = out.len();
    let appended = append_encoding(statistics, out);
    if appended.is_err() {
        out.truncate(start);
    }
    appended
}

/// `HasVariant` exactly if a variant stands in the type, at any depth.
#[tactic(auto, using(vortex_cells::proofs::VariantSteps::decided))]
pub(crate) fn expect_keys(dtype: &DType) -> Result<(), StatisticsError>
    ensures ordered { OnOk result (HasNoVariant (type_of dtype.now)) }
    ensures refused { IfErr result
        (λ e. (e ≡ HasVariant) × ¬ (HasNoVariant (type_of dtype.now))) }
{
    if has_variant(dtype) {
        return Err(StatisticsError::HasVariant);
    }
    Ok(())
}

/// `HasVariant` exactly if a variant stands in the scalar or in its type, at any depth.
fn expect_key(scalar: &Scalar) -> Result<(), StatisticsError>
    ensures keyed { OnOk result (HasKey (scalar_type scalar.now) (scalar_content scalar.now)) }
    ensures refused { IfErr result (λ e. (e ≡ HasVariant)
        × ¬ (HasKey (scalar_type scalar.now) (scalar_content scalar.now))) }
{
    if !has_key(ScalarRef::of(scalar)) {
        return Err(StatisticsError::HasVariant);
    }
    Ok(())
}

/// `HasVariant` exactly if a variant stands in the bound or in its type, if there is one.
fn expect_no_variant(bound: Option<&Bound>) -> Result<(), StatisticsError>
    ensures ordered { OnOk result
        (HasNoVariantIn (option_map known_bound (option_copied bound.entry))) }
    ensures refused { IfErr result (λ e. (e ≡ HasVariant)
        × ¬ (HasNoVariantIn (option_map known_bound (option_copied bound.entry)))) }
{
    match bound {
        Some(bound) => expect_key(&bound.value),
        None => Ok(()),
    }
}

/// Appends the encoding of statistics whose bounds have keys. After a refusal a part of it may
/// stand there.
fn append_encoding(statistics: &ColumnStatistics, out: &mut Vec<u8>) -> Result<(), StatisticsError>
    requires { HasNoVariants (known statistics.now) }
    ensures appended { OnOk result
        (out.new.items ≡ out.old.items ++ encoding (known statistics.now)) }
    ensures held { OnOk result (IsHeldKnown (known statistics.now)) }
    ensures refused { IfErr result (λ e. e ≡ OutOfMemory) }
    ensures room { HasRoom out.old (encoding (known statistics.now)) → IsOk result }
    ensures begun { (more : List ℕ) × (out.new.items ≡ out.old.items ++ more) }
{
    append_all(&[VERSION, flags_of(statistics)], out)?;
    append_count(statistics.row_count, out)?;
    append_known(statistics.null_count, out)?;
    append_bounds(statistics.lower.as_ref(), statistics.upper.as_ref(), out)
}

/// Appends these bytes, or nothing if there is no memory.
fn append_all(bytes: &[u8], out: &mut Vec<u8>) -> Result<(), StatisticsError>
    ensures appended { OnOk result (Appends bytes.now out.old out.new) }
    ensures refused { IfErr result (λ e. e ≡ OutOfMemory) }
    ensures room { HasRoom out.old bytes.now → IsOk result }
    ensures unchanged { OnErr result (out.new.items ≡ out.old.items) }
{
    out.extend_from_slice(bytes)?;
    Ok(())
}

/// Appends a count, the highest byte first.
#[tactic(auto, using(crate::proofs::CountBytes::counted))]
fn append_count(count: u64, out: &mut Vec<u8>) -> Result<(), StatisticsError>
    ensures appended { OnOk result (Appends (count_bytes count) out.old out.new) }
    ensures fits { count < 2 ^ 64 }
    ensures refused { IfErr result (λ e. e ≡ OutOfMemory) }
    ensures room { HasRoom out.old (count_bytes count) → IsOk result }
    ensures unchanged { OnErr result (out.new.items ≡ out.old.items) }
{
    append_all(&count.to_be_bytes(), out)
}

/// Appends a count if it is known.
fn append_known(count: Option<u64>, out: &mut Vec<u8>) -> Result<(), StatisticsError>
    ensures appended { OnOk result (Appends (known_count_bytes count) out.old out.new) }
    ensures fits { IfSome count (λ n. n < 2 ^ 64) }
    ensures refused { IfErr result (λ e. e ≡ OutOfMemory) }
    ensures room { HasRoom out.old (known_count_bytes count) → IsOk result }
    ensures unchanged { OnErr result (out.new.items ≡ out.old.items) }
{
    match count {
        Some(count) => append_count(count, out),
        None => Ok(()),
    }
}

/// Appends the keys of the bounds that are there.
fn append_bounds(
    lower: Option<&Bound>,
    upper: Option<&Bound>,
    out: &mut Vec<u8>,
) -> Result<(), StatisticsError>
    requires lower { HasNoVariantIn (option_map known_bound (option_copied lower)) }
    requires upper { HasNoVariantIn (option_map known_bound (option_copied upper)) }
    ensures appended { OnOk result (out.new.items ≡ out.old.items
        ++ (bound_bytes (option_map known_bound (option_copied lower.entry))
        ++ bound_bytes (option_map known_bound (option_copied upper.entry)))) }
    ensures held_lower { OnOk result
        (IsHeldBound (option_map known_bound (option_copied lower.entry))) }
    ensures held_upper { OnOk result
        (IsHeldBound (option_map known_bound (option_copied upper.entry))) }
    ensures refused { IfErr result (λ e. e ≡ OutOfMemory) }
    ensures room { HasRoom out.old
        (bound_bytes (option_map known_bound (option_copied lower.entry))
        ++ bound_bytes (option_map known_bound (option_copied upper.entry))) → IsOk result }
    ensures unchanged { OnErr result (out.new.items ≡ out.old.items) }
{
    match (lower, upper) {
        (Some(lower), Some(upper)) => append_both(lower, upper, out),
        (Some(bound), None) | (None, Some(bound)) => append_one(bound, out),
        (None, None) => Ok(()),
    }
}

/// Ascending, with nulls first: then the key in a column is that of the content.
pub(crate) fn ascending() -> SortOptions
    ensures { result ≡ ascending }
{
    SortOptions::default()
}

/// Appends the key of a bound.
#[tactic(auto, using(crate::proofs::WriteSteps::keys))]
fn append_one(bound: &Bound, out: &mut Vec<u8>) -> Result<(), StatisticsError>
    requires { HasKey (scalar_type bound.now.value) (scalar_content bound.now.value) }
    ensures appended { OnOk result
        (out.new.items ≡ out.old.items ++ key (scalar_content bound.now.value)) }
    ensures held { OnOk result (IsHeld (scalar_content bound.now.value)) }
    ensures refused { IfErr result (λ e. e ≡ OutOfMemory) }
    ensures room { HasRoom out.old (key (scalar_content bound.now.value)) → IsOk result }
    ensures unchanged { OnErr result (out.new.items ≡ out.old.items) }
{
    match append_key(ScalarRef::of(&bound.value), ascending(), out) {
        Ok(()) => Ok(()),
        Err(_) => Err(StatisticsError::OutOfMemory),
    }
}

/// Appends the keys of two bounds, or nothing if there is no memory for both.
#[tactic(auto, using(crate::proofs::WriteSteps::keys))]
fn append_both(lower: &Bound, upper: &Bound, out: &mut Vec<u8>) -> Result<(), StatisticsError>
    requires lower { HasKey (scalar_type lower.now.value) (scalar_content lower.now.value) }
    requires upper { HasKey (scalar_type upper.now.value) (scalar_content upper.now.value) }
    ensures appended { OnOk result (out.new.items ≡ out.old.items
        ++ (key (scalar_content lower.now.value) ++ key (scalar_content upper.now.value))) }
    ensures held_lower { OnOk result (IsHeld (scalar_content lower.now.value)) }
    ensures held_upper { OnOk result (IsHeld (scalar_content upper.now.value)) }
    ensures refused { IfErr result (λ e. e ≡ OutOfMemory) }
    ensures room { HasRoom out.old
        (key (scalar_content lower.now.value) ++ key (scalar_content upper.now.value))
        → IsOk result }
    ensures unchanged { OnErr result (out.new.items ≡ out.old.items) }
{
    let values = [ScalarRef::of(&lower.value), ScalarRef::of(&upper.value)];
    match append_row_key(&values, &[ascending(), ascending()], out) {
        Ok(()) => Ok(()),
        Err(_) => Err(StatisticsError::OutOfMemory),
    }
}

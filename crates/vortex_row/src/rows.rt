//! The keys of rows: those of the columns, one after the other.
#![tactic(auto, using(crate::proofs::RowSteps::shown))]

ghost use Rattle.std.specs.Prelude.{◌+◌, ◌++◌, ◌<◌, ◌≡◌, ◌≢◌, ◌≤◌, ◌↔◌, ◌⊎◌, Err, IfErr, IfOk, IsOk, OnErr, OnOk};
ghost use Rattle.std.specs.Prelude.{length, map, take};
ghost use Rattle.vortex_row.specs.Words.{All, HasKey, HasNoTyped, HasNoVariant, HasSlot, HasVariant, HaveNoVariant};
ghost use Rattle.vortex_row.specs.Words.{IsHeld, OutOfMemory, WrongLength, capped, dtype_trees, encoder_options};
ghost use Rattle.vortex_row.specs.Words.{encoder_types, keys_length, ref_content, ref_type, row_key, type_of};
ghost use Rattle.vortex_row.specs.Words.{vec_capacity, vec_len, Writes};

use crate::encode::put_column;
use crate::error::RowError;
use crate::keys::extend;
use crate::lengths::{length, length_bound};
use crate::options::SortOptions;
use crate::variants::{expect_key, expect_no_variants, expect_untyped};
use vortex_dtype::DType;
use vortex_value::ScalarRef;

/// Appends the key of a row: the keys of its values, each in a column that is sorted so.
///
/// `WrongLength` exactly if there are not as many values as options, before all else; then
/// `HasVariant` exactly if a variant stands in the type of one of the values, or in one of them.
/// Else `OutOfMemory` is the only refusal, and never comes if `out` has capacity for the key. After
/// a refusal `out` has the bytes that it had. [`RowEncoder`] looks into types once for many rows.
pub fn append_row_key(
    values: &[ScalarRef<'_>],
    options: &[SortOptions],
    out: &mut Vec<u8>,
) -> Result<(), RowError>
    ensures appended { OnOk result
        (out.new.items ≡ out.old.items ++ row_key options.now (map ref_content values.now)) }
    ensures held { OnOk result (All IsHeld (map ref_content values.now)) }
    ensures ordered { OnOk result (All (λ x. HasNoVariant (ref_type x)) values.now) }
    ensures untyped { OnOk result (All HasNoTyped (map ref_content values.now)) }
    ensures lengths { (result ≡ Err (WrongLength (length options.now) (length values.now)))
        ↔ (length values.now ≢ length options.now) }
    ensures variant { (result ≡ Err HasVariant) ↔ ((length values.now ≡ length options.now)
        × ¬ (All (λ x. HasKey (ref_type x) (ref_content x)) values.now)) }
    ensures refused { IfErr result (λ e.
        (e ≡ WrongLength (length options.now) (length values.now))
        ⊎ ((e ≡ HasVariant) ⊎ (e ≡ OutOfMemory))) }
    ensures room { length values.now ≡ length options.now
        → All (λ x. HasKey (ref_type x) (ref_content x)) values.now
        → vec_len out.old + keys_length (map ref_content values.now) ≤ vec_capacity out.old
        → IsOk result }
    ensures unchanged { OnErr result (out.new.items ≡ out.old.items) }
{
    expect_length(options.len(), values.len())?;
    expect_keys(values)?;
    append_row(values, options, out)
}

/// Makes the keys of rows of one table: it knows how each column is sorted, and that no variant
/// stands in the type of any.
#[derive(Clone, Copy, Debug)]
pub struct RowEncoder<'a> {
    dtypes: &'a [DType],
    options: &'a [SortOptions],
}

impl<'a> RowEncoder<'a> {
    /// An encoder of rows whose columns have these types and are sorted so. It takes no memory.
    ///
    /// `WrongLength` exactly if there are not as many options as types, before all else; then
    /// `HasVariant` exactly if a variant stands in one of the types.
    pub fn try_new(
        dtypes: &'a [DType],
        options: &'a [SortOptions],
    ) -> Result<RowEncoder<'a>, RowError>
        ensures types { IfOk result (λ e. encoder_types e ≡ map type_of dtypes.now) }
        ensures options { IfOk result (λ e. encoder_options e ≡ options.now) }
        ensures ordered { OnOk result (HaveNoVariant (dtype_trees dtypes.now)) }
        ensures lengths { (result ≡ Err (WrongLength (length dtypes.now) (length options.now)))
            ↔ (length options.now ≢ length dtypes.now) }
        ensures variant { (result ≡ Err HasVariant) ↔ ((length options.now ≡ length dtypes.now)
            × ¬ (HaveNoVariant (dtype_trees dtypes.now))) }
        ensures refused { IfErr result (λ e.
            (e ≡ WrongLength (length dtypes.now) (length options.now)) ⊎ (e ≡ HasVariant)) }
    {
        expect_length(dtypes.len(), options.len())?;
        expect_no_variants(dtypes)?;
        Ok(RowEncoder { dtypes, options })
    }

    /// The types of the columns.
    pub fn dtypes(&self) -> &'a [DType]
        ensures { map type_of result.now ≡ encoder_types self.now }
    {
        self.dtypes
    }

    /// How each column is sorted.
    pub fn options(&self) -> &'a [SortOptions]
        ensures { result.now ≡ encoder_options self.now }
    {
        self.options
    }

    /// Appends the key of a row: the keys of its values, whatever types they have, each in the
    /// column of its place.
    ///
    /// `WrongLength` exactly if there are not as many values as columns, before all else; then
    /// `HasVariant` exactly if a variant stands in one of the values, which no valid value of the
    /// columns' types has. Else `OutOfMemory` is the only refusal, and never comes if `out` has
    /// capacity for the key. After a refusal `out` has the bytes that it had.
    pub fn append(&self, values: &[ScalarRef<'_>], out: &mut Vec<u8>) -> Result<(), RowError>
        ensures appended { OnOk result (out.new.items
            ≡ out.old.items ++ row_key (encoder_options self.now) (map ref_content values.now)) }
        ensures held { OnOk result (All IsHeld (map ref_content values.now)) }
        ensures untyped { OnOk result (All HasNoTyped (map ref_content values.now)) }
        ensures lengths { (result ≡ Err
            (WrongLength (length (encoder_options self.now)) (length values.now)))
            ↔ (length values.now ≢ length (encoder_options self.now)) }
        ensures variant { (result ≡ Err HasVariant)
            ↔ ((length values.now ≡ length (encoder_options self.now))
            × ¬ (All HasNoTyped (map ref_content values.now))) }
        ensures refused { IfErr result (λ e.
            (e ≡ WrongLength (length (encoder_options self.now)) (length values.now))
            ⊎ ((e ≡ HasVariant) ⊎ (e ≡ OutOfMemory))) }
        ensures room { length values.now ≡ length (encoder_options self.now)
            → All HasNoTyped (map ref_content values.now)
            → vec_len out.old + keys_length (map ref_content values.now) ≤ vec_capacity out.old
            → IsOk result }
        ensures unchanged { OnErr result (out.new.items ≡ out.old.items) }
    {
        expect_length(self.options.len(), values.len())?;
        expect_all_untyped(values)?;
        append_row(values, self.options, out)
    }
}

/// `WrongLength` exactly if the two numbers are not one.
pub(crate) fn expect_length(expected: usize, found: usize) -> Result<(), RowError>
    ensures same { OnOk result (found ≡ expected) }
    ensures refused { IfErr result
        (λ e. (e ≡ WrongLength expected found) × (found ≢ expected)) }
{
    if found != expected {
        return Err(RowError::WrongLength { expected, found });
    }
    Ok(())
}

/// `HasVariant` exactly if a variant stands in the type of one of the values, or in one of them.
#[tactic(auto, using(crate::proofs::TypedSteps::rows))]
fn expect_keys(values: &[ScalarRef<'_>]) -> Result<(), RowError>
    ensures ordered { OnOk result (All (λ x. HasNoVariant (ref_type x)) values.now) }
    ensures untyped { OnOk result (All HasNoTyped (map ref_content values.now)) }
    ensures keyed { OnOk result (All (λ x. HasKey (ref_type x) (ref_content x)) values.now) }
    ensures refused { IfErr result (λ e. (e ≡ HasVariant)
        × ¬ (All (λ x. HasKey (ref_type x) (ref_content x)) values.now)) }
{
    for value in values {
        expect_key(*value)?;
    }
    Ok(())
}

/// `HasVariant` exactly if a variant stands in one of the values.
fn expect_all_untyped(values: &[ScalarRef<'_>]) -> Result<(), RowError>
    ensures untyped { OnOk result (All HasNoTyped (map ref_content values.now)) }
    ensures refused { IfErr result
        (λ e. (e ≡ HasVariant) × ¬ (All HasNoTyped (map ref_content values.now))) }
{
    for value in values {
        expect_untyped(*value)?;
    }
    Ok(())
}

/// How many bytes the keys of a row's values have together, or the greatest number.
fn row_length(values: &[ScalarRef<'_>]) -> usize
    ensures { result ≡ capped (keys_length (map ref_content values.now)) }
{
    let mut total = 0usize;
    for value in values {
        total = total.saturating_add(length(value.value()));
    }
    total
}

/// No fewer bytes than the keys of a row's values have together.
fn row_bound(values: &[ScalarRef<'_>]) -> usize
    ensures { capped (keys_length (map ref_content values.now)) ≤ result }
{
    let mut total = 0usize;
    for value in values {
        total = total.saturating_add(length_bound(value.value()));
    }
    total
}

/// Appends no fewer bytes than the key of a row has. It counts the bytes of the key only if there
/// may be too little, since a count reads each byte of a string. For a string of 16 bytes and
/// a number a count takes 111 instructions, and the bound that mostly stands for it takes 43.
fn extend_for_row(values: &[ScalarRef<'_>], out: &mut Vec<u8>) -> Result<(), RowError>
    ensures begins { OnOk result (take (vec_len out.old) out.new.items ≡ out.old.items) }
    ensures enough { OnOk result (vec_len out.old
        + capped (keys_length (map ref_content values.now)) ≤ vec_len out.new) }
    ensures refused { IfErr result (λ e. (e ≡ OutOfMemory)
        × (vec_capacity out.old < vec_len out.old + keys_length (map ref_content values.now))) }
    ensures unchanged { OnErr result (out.new.items ≡ out.old.items) }
{
    let bound = row_bound(values);
    if bound <= out.capacity() - out.len() {
        return extend(bound, out);
    }
    extend(row_length(values), out)
}

/// Writes the key of a row of as many values as there are options, from an offset on.
fn put_columns(
    values: &[ScalarRef<'_>],
    options: &[SortOptions],
    start: usize,
    room: &mut [u8],
) -> usize
    requires lengths { length values.now ≡ length options.now }
    requires room { HasSlot room.old start (row_key options.now (map ref_content values.now)) }
    ensures written { Writes (row_key options.now (map ref_content values.now))
        start result room.old room.new }
    ensures held { All IsHeld (map ref_content values.now) }
{
    let mut place = start;
    for column in 0..values.len() {
        place = put_column(values[column].value(), options[column], place, room);
    }
    place
}

/// Appends the key of a row of as many values as there are options.
fn append_row(
    values: &[ScalarRef<'_>],
    options: &[SortOptions],
    out: &mut Vec<u8>,
) -> Result<(), RowError>
    requires { length values.now ≡ length options.now }
    ensures appended { OnOk result
        (out.new.items ≡ out.old.items ++ row_key options.now (map ref_content values.now)) }
    ensures held { OnOk result (All IsHeld (map ref_content values.now)) }
    ensures refused { IfErr result (λ e. e ≡ OutOfMemory) }
    ensures room { vec_len out.old + keys_length (map ref_content values.now) ≤ vec_capacity out.old
        → IsOk result }
    ensures unchanged { OnErr result (out.new.items ≡ out.old.items) }
{
    let start = out.len();
    extend_for_row(values, out)?;
    let end = put_columns(values, options, start, out.as_mut_slice());
    out.truncate(end);
    Ok(())
}

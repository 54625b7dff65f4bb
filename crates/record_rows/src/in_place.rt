//! Words whose cells are observed without a scalar of them.

ghost use Rattle.std.specs.Prelude.{◌≡◌, ◌≢◌, ◌⊎◌, Some, IfSome, false, true};
ghost use Rattle.std.specs.declared.cmp.Ordering.TheVariants.{Equal, Less};
ghost use Rattle.record_rows.specs.Cells.{column_type};
ghost use Rattle.record_rows.specs.Numbers.{raw_of_number};
ghost use Rattle.record_rows.specs.Observed.{HasBoundsOf, IsTextBound, IsTextInside, KeepsValid, ObservesWord};
ghost use Rattle.record_rows.specs.Observed.{RaisesTo, TakesWord};
ghost use Rattle.vortex_pvalue.specs.Whole.{whole_of};
ghost use Rattle.vortex_statistics.specs.Statistics.{known, known_bound};
ghost use Rattle.vortex_value.specs.Values.Content.{whole};
ghost use Rattle.vortex_value.specs.Values.Scalars.{IsMadeOf, IsValid, scalar_content, scalar_type};

use crate::ascii::is_text;
use crate::numbers::stored_number;
use crate::schema::{ColumnType, FieldReading, Kind};
use std::cmp::Ordering;
use vortex_dtype::DType;
use vortex_pvalue::PValue;
use vortex_statistics::{Bound, ColumnStatistics};
use vortex_value::ScalarValue;
use vortex_value::laws::{order_is_reversed, order_is_transitive};

/// Observes the cell of a word without a scalar of it, and says whether it did: of a value within both bounds,
/// and of one above them that an integer stores. Else nothing has changed.
pub(crate) fn observe_in_place(
    reading: &FieldReading,
    column: ColumnType,
    word: &[u8],
    statistics: &mut ColumnStatistics,
) -> bool
    requires { HasBoundsOf (column_type column) (known statistics.old) }
    ensures observed { result ≡ true →
        ObservesWord reading.now column word.now (known statistics.old) (known statistics.new) }
    ensures valid { KeepsValid statistics.old statistics.new }
    ensures unchanged { result ≡ false → statistics.new ≡ statistics.old }
{
    order_is_reversed();
    order_is_transitive();
    if word.is_empty() || reading.has_null(word) {
        return false;
    }
    if !statistics.may_be_value() {
        return false;
    }
    let Some(row_count) = statistics.row_count.checked_add(1) else {
        return false;
    };
    let Some(lower) = &statistics.lower else {
        return false;
    };
    let Some(upper) = &mut statistics.upper else {
        return false;
    };
    if !take_word(column, word, lower, upper) {
        return false;
    }
    statistics.row_count = row_count;
    true
}

/// Takes a word into the upper bound, if it is a value of its column that does not change the lower
/// one, and says whether it did.
fn take_word(column: ColumnType, word: &[u8], lower: &Bound, upper: &mut Bound) -> bool
    requires lower { scalar_type lower.now.value ≡ column_type column }
    requires upper { scalar_type upper.old.value ≡ column_type column }
    ensures taken { result ≡ true → TakesWord column word.now
        (known_bound lower.now) (known_bound upper.old) (known_bound upper.new) }
    ensures valid { IsValid upper.old.value → IsValid upper.new.value }
    ensures unchanged { result ≡ false → upper.new ≡ upper.old }
{
    match column.kind {
        Kind::Integer(_) | Kind::Logical(_) => take_number(column, word, lower, upper),
        Kind::Utf8 => is_text_inside(word, lower, upper),
        Kind::Binary | Kind::Bytes => false,
    }
}

/// Takes a word into the upper bound, if an integer stores its value that does not change the lower one. An
/// index of a file where a number grows with each record takes a third fewer instructions so.
fn take_number(column: ColumnType, word: &[u8], lower: &Bound, upper: &mut Bound) -> bool
    requires lower { scalar_type lower.now.value ≡ column_type column }
    requires upper { scalar_type upper.old.value ≡ column_type column }
    ensures taken { result ≡ true → TakesWord column word.now
        (known_bound lower.now) (known_bound upper.old) (known_bound upper.new) }
    ensures valid { IsValid upper.old.value → IsValid upper.new.value }
    ensures unchanged { result ≡ false → upper.new ≡ upper.old }
{
    let Some(least) = number_of(lower) else {
        return false;
    };
    let Some(number) = stored_number(column.kind, word) else {
        return false;
    };
    is_kept(least.partial_cmp(&number), lower.is_exact) && raise_to(number, upper)
}

/// Takes a number into the upper bound, if this is a number, and says whether it is.
fn raise_to(number: PValue, upper: &mut Bound) -> bool
    ensures raised { result ≡ true → RaisesTo number (known_bound upper.old) (known_bound upper.new) }
    ensures made { (upper.new ≡ upper.old)
        ⊎ IsMadeOf (scalar_type upper.old.value) (raw_of_number number) upper.new.value }
    ensures unchanged { result ≡ false → upper.new ≡ upper.old }
{
    match &mut upper.value.value {
        Some(ScalarValue::Primitive(greatest)) => {
            if !is_kept(number.partial_cmp(greatest), upper.is_exact) {
                *greatest = number;
                upper.is_exact = true;
            }
            true
        }
        _ => false,
    }
}

/// The number that a bound is, if it is one.
fn number_of(bound: &Bound) -> Option<&PValue>
    ensures { IfSome result (λ number. scalar_content bound.now.value ≡ whole (whole_of number.now)) }
{
    match &bound.value.value {
        Some(ScalarValue::Primitive(number)) => Some(number),
        _ => None,
    }
}

/// Whether a word is a string that lies within both bounds, and changes neither.
fn is_text_inside(word: &[u8], lower: &Bound, upper: &Bound) -> bool
    ensures { result ≡ true → IsTextInside word.now (known_bound lower.now) (known_bound upper.now) }
{
    let Some(least) = text_of(lower) else {
        return false;
    };
    let Some(greatest) = text_of(upper) else {
        return false;
    };
    is_kept(Some(least.cmp(word)), lower.is_exact)
        && is_kept(Some(word.cmp(greatest)), upper.is_exact)
        && is_text(word)
}

/// The bytes of the string that a bound is, if it is one.
fn text_of(bound: &Bound) -> Option<&[u8]>
    ensures { IfSome result (λ text. IsTextBound text.now (known_bound bound.now)) }
{
    match (&bound.value.dtype, &bound.value.value) {
        (DType::Utf8(_), Some(ScalarValue::Utf8(text))) => Some(text.as_str().as_bytes()),
        _ => None,
    }
}

/// Whether a bound stays as it is, by its order with a value: before it, or equal to it and exact.
fn is_kept(order: Option<Ordering>, is_exact: bool) -> bool
    ensures kept { result ≡ true → (order ≡ Some Less) ⊎ ((order ≡ Some Equal) × (is_exact ≡ true)) }
    ensures past { result ≡ false → order ≢ Some Less }
{
    match order {
        Some(Ordering::Less) => true,
        Some(Ordering::Equal) => is_exact,
        _ => false,
    }
}

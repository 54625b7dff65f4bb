//! A column of strings, or of bytes, that are to be among a few literals.

ghost use Rattle.std.specs.Prelude.{◌≡◌, ◌+◌, ◌-◌, ◌*◌, ◌<◌, ◌≤◌, IfSome, Some, length, map, min, slice_get};
ghost use Rattle.std.specs.Bool.{OnTrue};
ghost use Rattle.column_kernels.specs.FilterWords.{AreTruths, cell_of, cell_of_row, contents_of_rows, member_truth};
ghost use Rattle.column_kernels.specs.FilterWords.{option_of};
ghost use Rattle.column_kernels.specs.Members.{AreNeedlesOf, IsNeedleOf};
ghost use Rattle.vortex_value.specs.declared.scalars.Scalar.{Scalar};

use crate::listed::Listed;
use crate::literals::{bytes_in, text_in};
use crate::needles::Needle;
use crate::spans::test_spans;
use arrow_columns::Rows;
use column_cells::is_type_of_rows;
use truth_bitmaps::TruthWord;
use vortex_value::Scalar;

/// Writes whether each of so many rows is equal to one of the literals, all at once, if these are one to eight,
/// and each is a string as the rows are, or bytes. Else nothing is written.
pub(crate) fn write_listed(
    rows: &Rows,
    from: usize,
    count: usize,
    literals: &[Scalar],
    words: &mut [TruthWord],
) -> bool
    requires range { from + count ≤ length (contents_of_rows rows.now) }
    requires words { count ≤ 64 * length words.old }
    ensures truth { OnTrue result (AreTruths (λ row. option_of (member_truth
        (cell_of_row rows.now (from + row)) (map cell_of literals.now))) count words.new) }
    ensures size { length words.new ≡ length words.old }
{
    let Some(listed) = listed_in(rows, literals) else {
        return false;
    };
    match rows {
        Rows::Strings(spans) => {
            test_spans(spans, from, count, &listed, words);
            true
        }
        Rows::Bytes(spans) => {
            test_spans(spans, from, count, &listed, words);
            true
        }
        _ => false,
    }
}

/// The needles of the literals, if there are one to eight, and each has one.
fn listed_in<'a>(rows: &Rows, literals: &'a [Scalar]) -> Option<Listed<'a>>
    ensures { IfSome result (λ listed. AreNeedlesOf rows.now literals.now listed.needles) }
{
    if literals.is_empty() || literals.len() > 8 {
        return None;
    }
    let needles = [
        needle_at(rows, literals, 0)?,
        needle_at(rows, literals, 1)?,
        needle_at(rows, literals, 2)?,
        needle_at(rows, literals, 3)?,
        needle_at(rows, literals, 4)?,
        needle_at(rows, literals, 5)?,
        needle_at(rows, literals, 6)?,
        needle_at(rows, literals, 7)?,
    ];
    Some(Listed { needles })
}

/// The needle of the literal at a place, or of the last one if there are fewer.
fn needle_at<'a>(rows: &Rows, literals: &'a [Scalar], place: usize) -> Option<Needle<'a>>
    requires { 0 < length literals.now }
    ensures { IfSome result (λ needle. (literal : Scalar)
        → slice_get literals.now (min place (length literals.now - 1)) ≡ Some literal
        → IsNeedleOf rows.now literal needle) }
{
    needle_of(rows, &literals[place.min(literals.len() - 1)])
}

/// The needle of a literal, if that is a string as the rows are, or bytes.
fn needle_of<'a>(rows: &Rows, literal: &'a Scalar) -> Option<Needle<'a>>
    ensures { IfSome result (IsNeedleOf rows.now literal.now) }
{
    if !is_type_of_rows(rows, literal.dtype()) {
        return None;
    }
    match rows {
        Rows::Strings(_) => Some(Needle::of(text_in(literal)?)),
        Rows::Bytes(_) => Some(Needle::of(bytes_in(literal)?)),
        _ => None,
    }
}

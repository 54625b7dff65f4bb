//! Booleans that are compared with a literal.

ghost use Rattle.std.specs.Prelude.{◌≡◌, ◌+◌, ◌*◌, ◌≤◌, length};
ghost use Rattle.column_kernels.specs.Words.{AreTruths, boolean_cell, compared, truth_cmp};

use crate::validity::mark_null_rows;
use arrow_columns::BooleanRows;
use std::cmp::Ordering;
use truth_bitmaps::{TruthWord, write_bits};
use vortex_filter::CompareOperator;

/// Compares so many booleans of a column, from a row on, with a literal.
pub(crate) fn compare_booleans(
    rows: &BooleanRows,
    from: usize,
    count: usize,
    operator: CompareOperator,
    literal: bool,
    words: &mut [TruthWord],
)
    requires range { from + count ≤ rows.now.column.length }
    requires words { count ≤ 64 * length words.old }
    ensures truth { AreTruths (λ row. compared operator (λ b. truth_cmp b literal)
        (boolean_cell rows.now.column (from + row))) count words.new }
    ensures size { length words.new ≡ length words.old }
{
    let column = rows.column;
    let if_true = operator.holds(order_of(true, literal));
    let if_false = operator.holds(order_of(false, literal));
    write_bits(
        words,
        column.values,
        column.offset + from,
        count,
        if_true,
        if_false,
    );
    mark_null_rows(column, from, count, words);
}

/// How two booleans compare: false is below true.
fn order_of(a: bool, b: bool) -> Ordering
    ensures { result ≡ truth_cmp a b }
{
    match (a, b) {
        (false, true) => Ordering::Less,
        (true, false) => Ordering::Greater,
        _ => Ordering::Equal,
    }
}

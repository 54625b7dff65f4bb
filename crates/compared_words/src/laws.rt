// SPDX-License-Identifier: Apache-2.0
//! The law of words that are compared, the contract of a function that does nothing.

ghost use Rattle.compared_words.specs.Compared.{WordsAreCompared};

use logical_scalars::laws::shapes_say_types;
use logical_types::laws::{decimal_bytes_sort_as_numbers, shapes_say_words};
use record_search::laws::decisions_are_right;
use vortex_filter::laws::comparisons_stand;

/// Statistics say that no row of some records has a value in a column that compares so with what a literal
/// writes, and are right for them. Then no record has a word there that reads as a value which does.
/// Floats compare by their order: -0 is 0, and a NaN is equal to itself and above all others. A decimal
/// compares with a literal as it is written, with none of its digits cut.
pub fn words_are_compared()
    ensures { WordsAreCompared }
{
    decisions_are_right();
    comparisons_stand();
    shapes_say_words();
    shapes_say_types();
    decimal_bytes_sort_as_numbers();
}

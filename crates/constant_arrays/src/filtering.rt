// SPDX-License-Identifier: Apache-2.0
//! What comparisons and filters say of constant arrays.

ghost use Rattle.std.specs.Prelude.{◌≡◌, ◌∷◌, [], length, replicate};
ghost use Rattle.constant_arrays.specs.Words.{cell_of, compare_truth, comparisons, formula, is_null_cell, items};
ghost use Rattle.constant_arrays.specs.Words.{scalar_of, truth, truths};

use crate::array::ConstantArray;
use std::slice;
use vortex_cells::compare_scalars;
use vortex_filter::{CompareOperator, Filter, Truth};
use vortex_value::Scalar;

impl ConstantArray {
    /// How each row stands to a literal: Unknown if one of the two is null, or if they have no order.
    pub fn compare(&self, operator: CompareOperator, literal: &Scalar) -> Truth
        ensures value { result
            ≡ compare_truth operator (cell_of (scalar_of self.now)) (cell_of literal.now) }
        ensures rows { comparisons operator (cell_of literal.now) (items self.now)
            ≡ replicate (length (items self.now)) result }
    {
        truth_of_comparison(&self.scalar, operator, literal)
    }

    /// What a filter says of each row of a table whose only column is the array. In any further column
    /// that the filter names, the row has a null.
    pub fn truth_of(&self, filter: &Filter) -> Truth
        ensures value { result ≡ truth (formula filter.now) (cell_of (scalar_of self.now) ∷ []) }
        ensures rows { truths (formula filter.now) (items self.now)
            ≡ replicate (length (items self.now)) result }
    {
        filter.truth(slice::from_ref(&self.scalar))
    }
}

/// How a value stands to a literal.
fn truth_of_comparison(value: &Scalar, operator: CompareOperator, literal: &Scalar) -> Truth
    ensures { result ≡ compare_truth operator (cell_of value.now) (cell_of literal.now) }
{
    if is_null(value) || is_null(literal) {
        return Truth::Unknown;
    }
    match compare_scalars(value, literal) {
        Some(ordering) => Truth::of(operator.holds(ordering)),
        None => Truth::Unknown,
    }
}

/// Whether a scalar is null.
fn is_null(scalar: &Scalar) -> bool
    ensures { result ≡ is_null_cell (cell_of scalar.now) }
{
    scalar.is_null()
}

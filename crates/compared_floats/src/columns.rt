// SPDX-License-Identifier: Apache-2.0
//! Columns of floats that a search may leave out.

ghost use lib.Ieee.{of_bits};
ghost use Rattle.std.specs.Float.{Format as FloatFormat};
ghost use Rattle.std.specs.Ordering.{nan_last_cmp};
ghost use Rattle.std.specs.Prelude.{◌≡◌, ℕ, IsTrue, List, false};
ghost use Rattle.arrow_columns.specs.declared.columns.Column.{Column};
ghost use Rattle.compared_floats.specs.Compared.{AreOf, HasFloat, logical_of};
ghost use Rattle.filter_pruning.specs.Outcomes.{outcomes as outcomes_on};
ghost use Rattle.float_storage.specs.Storage.{storage_of_bits};
ghost use Rattle.logical_scalars.specs.Stored.{Holds};
ghost use Rattle.vortex_cells.specs.Cells.{cell_of};
ghost use Rattle.vortex_filter.specs.Formula.{comparison};
ghost use Rattle.vortex_filter.specs.Operators.{holds};
ghost use Rattle.vortex_filter.specs.declared.operator.CompareOperator.{CompareOperator};
ghost use Rattle.vortex_statistics.specs.Statistics.{Known};
ghost use Rattle.vortex_value.specs.declared.scalars.Scalar.{Scalar};

use crate::laws::floats_are_compared;
use filter_pruning::Outcomes;

/// Whether columns can be left out, by what a filter can be on them. Let it ask which floats of a column
/// compare so with a number. Then no bits in the buffer, but those of nulls, are a float that does.
pub fn can_skip(outcomes: Outcomes) -> bool
    ensures { (f : FloatFormat) (columns : List Column) (statistics : List Known)
        (k row : ℕ) (op : CompareOperator) (literal : Scalar) (bits number : ℕ)
        → AreOf columns statistics → outcomes_on (comparison k op (cell_of literal)) statistics ≡ outcomes
        → Holds (logical_of f) (storage_of_bits f number) literal → HasFloat f columns k row bits
        → IsTrue result → holds op (nan_last_cmp (of_bits f bits) (of_bits f number)) ≡ false }
{
    floats_are_compared();
    !outcomes.may_be_true
}

//! What a comparison says of a row, wherever its literal stands among the values of the column.

ghost use Rattle.std.specs.Prelude.{◌≡◌, IfOk, Some, false, map, true};
ghost use Rattle.std.specs.declared.cmp.Ordering.{Ordering};
ghost use Rattle.vortex_cells.specs.Cells.{cell_of, is_null_cell};
ghost use Rattle.vortex_dtype.specs.TypeTree.{TypeTree};
ghost use Rattle.vortex_dtype.specs.Words.{Same};
ghost use Rattle.vortex_filter.specs.Formula.{cell_at};
ghost use Rattle.vortex_filter.specs.Operators.{holds};
ghost use Rattle.vortex_filter.specs.Positions.{StandsIn, position_tree, standing};
ghost use Rattle.vortex_filter.specs.Truths.{truth_of};
ghost use Rattle.vortex_filter.specs.declared.truth.Truth.TheVariants.{Unknown};

use std::alloc::Global;
use vortex_filter::laws::comparisons_stand;
use vortex_filter::{CompareOperator, FilterError, Position, Truth, comparison_of};
use vortex_value::Scalar;

/// Compares a column of a row with a literal. Of a value the answer is what holds of values that stand
/// so to the literal, and of a null it is Unknown.
pub fn compare_with_literal(
    alloc: Global,
    column: usize,
    operator: CompareOperator,
    literal: Position,
    row: &[Scalar],
) -> Result<Truth, FilterError>
    ensures value { IfOk result (λ truth. (t : TypeTree) (o : Ordering) → StandsIn t (position_tree literal)
        → Same t (cell_at (map cell_of row.now) column).typed
        → is_null_cell (cell_at (map cell_of row.now) column) ≡ false
        → standing (cell_at (map cell_of row.now) column).content (position_tree literal) ≡ Some o
        → truth ≡ truth_of (holds operator o)) }
    ensures null { IfOk result (λ truth. is_null_cell (cell_at (map cell_of row.now) column) ≡ true
        → truth ≡ Unknown) }
{
    comparisons_stand();
    let filter = comparison_of(alloc, column, operator, literal)?;
    let truth = filter.truth(row);
    drop(filter);
    Ok(truth)
}

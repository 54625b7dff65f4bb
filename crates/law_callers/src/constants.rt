//! A column of equal scalars, asked by its constant array.

ghost use Rattle.std.specs.Prelude.{◌≡◌, ◌∷◌, [], count_by};
ghost use Rattle.constant_arrays.specs.Laws.{IsWrittenOut};
ghost use Rattle.constant_arrays.specs.Words.{cell_of, formula};
ghost use Rattle.vortex_filter.specs.Formula.{is_match};

use constant_arrays::ConstantArray;
use constant_arrays::laws::constants_equal_columns;
use vortex_filter::{Filter, Truth};
use vortex_value::Scalar;

/// How many rows of a column match a filter, if the column is a constant array, written out: all of them
/// or none, and no row is read.
pub fn count_matches(array: &ConstantArray, column: &[Scalar], filter: &Filter) -> usize
    requires { IsWrittenOut array.now column.now }
    ensures { result ≡ count_by (λ x. is_match (formula filter.now) (cell_of x ∷ [])) column.now }
{
    constants_equal_columns();
    match array.truth_of(filter) {
        Truth::True => column.len(),
        Truth::False => 0,
        Truth::Unknown => 0,
    }
}

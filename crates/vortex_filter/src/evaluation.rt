//! The truth of a filter on a row.

ghost use Rattle.std.specs.Prelude.{◌≡◌, ◌↔◌, IsTrue, map};
ghost use Rattle.vortex_filter.specs.Words.{True, cell_at, cell_of, compare_truth, formula, is_match, is_null_cell};
ghost use Rattle.vortex_filter.specs.Words.{lent_cell, member_truth, null_truth, range_truth, truth};

use crate::filter::Filter;
use crate::operator::CompareOperator;
use crate::pattern::truth_of_pattern;
use crate::prefix::truth_of_prefix;
use crate::truth::Truth;
use vortex_cells::compare_scalars;
use vortex_value::Scalar;

impl Filter {
    /// What the filter says of a row. It reads on only until a part decides.
    #[cycle(truth)]
    #[tactic(auto, using(crate::proofs::Steps::shown))]
    pub fn truth(&self, row: &[Scalar]) -> Truth
        ensures { result ≡ truth (formula self.now) (map cell_of row.now) }
    {
        match self {
            Filter::Constant(truth) => *truth,
            Filter::Compare {
                column,
                operator,
                literal,
            } => truth_of_comparison(cell_in(row, *column), *operator, literal),
            Filter::IsNull { column } => truth_of_null(cell_in(row, *column)),
            Filter::In { column, literals } => truth_of_in(cell_in(row, *column), literals),
            Filter::Between {
                column,
                lower,
                upper,
            } => truth_of_range(cell_in(row, *column), lower, upper),
            Filter::StartsWith { column, prefix } => truth_of_prefix(cell_in(row, *column), prefix),
            Filter::Like {
                column,
                pattern,
                case,
            } => truth_of_pattern(cell_in(row, *column), pattern, *case),
            Filter::And(left, right) => match left.truth(row) {
                Truth::False => Truth::False,
                truth => truth.and(right.truth(row)),
            },
            Filter::Or(left, right) => match left.truth(row) {
                Truth::True => Truth::True,
                truth => truth.or(right.truth(row)),
            },
            Filter::Not(filter) => filter.truth(row).negate(),
        }
    }

    /// Whether a row matches: only if the filter is True there, and not if it is Unknown.
    pub fn matches(&self, row: &[Scalar]) -> bool
        ensures value { result ≡ is_match (formula self.now) (map cell_of row.now) }
        ensures exactly { IsTrue result
            ↔ (truth (formula self.now) (map cell_of row.now) ≡ True) }
    {
        matches!(self.truth(row), Truth::True)
    }
}

/// The cell of a row in this column; `None` if the row ends before it.
#[tactic(auto, using(crate::proofs::Cells::cell_is))]
fn cell_in(row: &[Scalar], column: usize) -> Option<&Scalar>
    ensures { lent_cell result ≡ cell_at (map cell_of row.now) column }
{
    row.get(column)
}

/// Whether the scalar is null.
#[tactic(auto, using(crate::proofs::Cells::null_is))]
pub(crate) fn is_null(scalar: &Scalar) -> bool
    ensures { result ≡ is_null_cell (cell_of scalar.now) }
{
    scalar.is_null()
}

/// How a cell stands to a literal.
fn truth_of_comparison(cell: Option<&Scalar>, operator: CompareOperator, literal: &Scalar) -> Truth
    ensures { result ≡ compare_truth operator (lent_cell cell.entry) (cell_of literal.now) }
{
    let Some(value) = cell else {
        return Truth::Unknown;
    };
    if is_null(value) || is_null(literal) {
        return Truth::Unknown;
    }
    match compare_scalars(value, literal) {
        Some(ordering) => Truth::of(operator.holds(ordering)),
        None => Truth::Unknown,
    }
}

/// Whether a cell is null.
fn truth_of_null(cell: Option<&Scalar>) -> Truth
    ensures { result ≡ null_truth (lent_cell cell.entry) }
{
    match cell {
        Some(value) => Truth::of(is_null(value)),
        None => Truth::True,
    }
}

/// Whether a cell is equal to one of the literals.
fn truth_of_in(cell: Option<&Scalar>, literals: &[Scalar]) -> Truth
    ensures { result ≡ member_truth (lent_cell cell.entry) (map cell_of literals.now) }
{
    let mut any = Truth::False;
    for literal in literals {
        any = any.or(truth_of_comparison(cell, CompareOperator::Eq, literal));
        if let Truth::True = any {
            return Truth::True;
        }
    }
    any
}

/// Whether a cell is from the one literal up to the other.
fn truth_of_range(cell: Option<&Scalar>, lower: &Scalar, upper: &Scalar) -> Truth
    ensures { result ≡ range_truth (lent_cell cell.entry)
        (cell_of lower.now) (cell_of upper.now) }
{
    match truth_of_comparison(cell, CompareOperator::Gte, lower) {
        Truth::False => Truth::False,
        truth => truth.and(truth_of_comparison(cell, CompareOperator::Lte, upper)),
    }
}

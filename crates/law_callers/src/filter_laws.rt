//! What a caller derives of filters from the contracts and the laws alone. The rows of a zone that
//! match are counted, and read only if the statistics leave that open. Statistics tell whether some
//! cell gives a test a truth, and a filter that fits its columns compares contents.

ghost use Rattle.std.specs.Prelude.{◌≡◌, ◌↔◌, ◌⊎◌, false, IfOk, IsOk, IsSome, IsTrue, None, Some, length, map};
ghost use Rattle.std.specs.Prelude.{slice_get, true};
ghost use Rattle.vortex_dtype.specs.TypeOf.{type_of};
ghost use Rattle.vortex_dtype.specs.TypeTree.{TypeTree};
ghost use Rattle.vortex_value.specs.Laws.HasContent.{HasContent};
ghost use Rattle.vortex_value.specs.Order.{order};
ghost use Rattle.vortex_cells.specs.Cells.{cell_of, is_null_cell};
ghost use Rattle.vortex_statistics.specs.Statistics.{Known, known};
ghost use Rattle.vortex_filter.specs.Checking.{FitsColumns};
ghost use Rattle.filter_pruning.specs.Exactness.{AreExactBounds, ArePlainBounds, OnSomeCell, OnSomeOf};
ghost use Rattle.vortex_filter.specs.FitLaws.{IsPlainType};
ghost use Rattle.vortex_filter.specs.Formula.{cell_at, compare_truth, comparison, formula, truth};
ghost use Rattle.filter_pruning.specs.OutcomeSets.{allows};
ghost use Rattle.filter_pruning.specs.Outcomes.{compare_outcomes};
ghost use Rattle.vortex_filter.specs.Prefixes.{prefix_truth};
ghost use Rattle.vortex_filter.specs.Rows.{IsRowOf, untyped_cell};
ghost use Rattle.filter_pruning.specs.Searching.{IsRightZone, matching};
ghost use Rattle.vortex_filter.specs.declared.truth.Truth.TheVariants.{True, Unknown};
ghost use Rattle.vortex_filter.specs.declared.operator.CompareOperator.TheVariants.{Lt};
ghost use Rattle.law_callers.specs.RowZones.{cells_in, zone_of};

use filter_pruning::laws::{
    comparisons_are_exact, comparisons_occur, prefixes_are_exact, searches_find_all,
};
use filter_pruning::{may_match, must_match, outcomes_of};
use vortex_dtype::DType;
use vortex_filter::laws::{fitting_comparisons_decide, fitting_filters_compare_contents};
use vortex_filter::{CompareOperator, Filter, FilterError, Truth};
use vortex_statistics::ColumnStatistics;
use vortex_value::Scalar;

/// The rows of a zone, and what is known of their columns.
#[derive(Debug, Drop)]
pub struct RowZone {
    /// The rows.
    pub rows: Vec<Vec<Scalar>>,
    /// What is known of each column.
    pub statistics: Vec<ColumnStatistics>,
}

impl RowZone {
    /// How many rows match. If the statistics decide, no row is read.
    pub fn count(&self, filter: &Filter) -> usize
        requires right { IsRightZone (zone_of self.now) }
        ensures { result ≡ length (matching (formula filter.now) (zone_of self.now).rows) }
    {
        searches_find_all();
        if !may_match(filter, &self.statistics) {
            return 0;
        }
        if must_match(filter, &self.statistics) {
            return self.rows.len();
        }
        count_rows(filter, &self.rows)
    }
}

/// Whether some cell of a column of the zone is below the literal. No row is read. It is told
/// exactly if the nulls are counted, both bounds are values of the zone without parts, and the
/// literal is no null.
pub fn has_below(zone: &RowZone, column: usize, literal: Scalar) -> bool
    requires right { IsRightZone (zone_of zone.now) }
    ensures { (s : Known) → slice_get (zone_of zone.now).statistics column ≡ Some s
        → IsSome s.null_count → ArePlainBounds s.lower s.upper → AreExactBounds s.lower s.upper
        → is_null_cell (cell_of literal) ≡ false
        → IsTrue result ↔ OnSomeOf (cells_in (zone_of zone.now) column)
        (λ x. compare_truth Lt x (cell_of literal) ≡ True) }
{
    comparisons_occur();
    can_compare(
        &zone.statistics,
        column,
        CompareOperator::Lt,
        literal,
        Truth::True,
    )
}

/// Whether a comparison can have this truth. Between two bounds without parts it can exactly if some
/// cell that the statistics of the column allow gives it.
pub fn can_compare(
    statistics: &[ColumnStatistics],
    column: usize,
    operator: CompareOperator,
    literal: Scalar,
    truth: Truth,
) -> bool
    ensures value { result ≡ allows (compare_outcomes (slice_get (map known statistics.now) column)
        operator (cell_of literal)) truth }
    ensures exact { (s : Known) → slice_get (map known statistics.now) column ≡ Some s
        → ArePlainBounds s.lower s.upper
        → IsTrue result ↔ OnSomeCell s (λ x. compare_truth operator x (cell_of literal) ≡ truth) }
{
    comparisons_are_exact();
    let filter = Filter::Compare {
        column,
        operator,
        literal,
    };
    let outcomes = outcomes_of(&filter, statistics);
    drop(filter);
    outcomes.allows(truth)
}

/// Whether some cell may begin with the prefix. Between two bounds without parts it may exactly if
/// some cell that the statistics of the column allow does.
pub fn can_begin(statistics: &[ColumnStatistics], column: usize, prefix: Scalar) -> bool
    ensures { (s : Known) → slice_get (map known statistics.now) column ≡ Some s
        → ArePlainBounds s.lower s.upper
        → IsTrue result ↔ OnSomeCell s (λ x. prefix_truth x (cell_of prefix) ≡ True) }
{
    prefixes_are_exact();
    let filter = Filter::StartsWith { column, prefix };
    let can_begin = may_match(&filter, statistics);
    drop(filter);
    can_begin
}

/// What a comparison says of a row of the columns' types. It is Unknown exactly if the cell or the
/// literal is null, or if they have no order. In a column of truth values, integers, strings or bytes
/// it is so for nulls alone. It is refused as `check` refuses.
pub fn compare(
    columns: &[DType],
    row: &[Scalar],
    column: usize,
    operator: CompareOperator,
    literal: Scalar,
) -> Result<Truth, FilterError>
    requires row { IsRowOf (map type_of columns.now) (map cell_of row.now) }
    ensures fits { IsOk result ↔ FitsColumns (map type_of columns.now)
        (comparison column operator (cell_of literal)) }
    ensures value { IfOk result (λ t. t
        ≡ compare_truth operator (cell_at (map cell_of row.now) column) (cell_of literal)) }
    ensures without_order { IfOk result (λ t. (t ≡ Unknown)
        ↔ ((is_null_cell (cell_at (map cell_of row.now) column) ≡ true)
        ⊎ ((is_null_cell (cell_of literal) ≡ true)
        ⊎ (order (cell_at (map cell_of row.now) column).content (cell_of literal).content
        ≡ None)))) }
    ensures for_nulls { IfOk result (λ t. (dtype : TypeTree)
        → slice_get (map type_of columns.now) column ≡ Some dtype → IsPlainType dtype
        → HasContent (cell_of literal).typed (cell_of literal).content
        → (t ≡ Unknown) ↔ ((is_null_cell (cell_at (map cell_of row.now) column) ≡ true)
        ⊎ (is_null_cell (cell_of literal) ≡ true))) }
{
    fitting_comparisons_decide();
    let filter = Filter::Compare {
        column,
        operator,
        literal,
    };
    let truth = truth_if_fit(&filter, columns, row);
    drop(filter);
    truth
}

/// What a filter says of a row, if it fits the columns.
fn truth_if_fit(filter: &Filter, columns: &[DType], row: &[Scalar]) -> Result<Truth, FilterError>
    ensures fits { IsOk result ↔ FitsColumns (map type_of columns.now) (formula filter.now) }
    ensures value { IfOk result (λ t. t ≡ truth (formula filter.now) (map cell_of row.now)) }
{
    filter.check(columns)?;
    Ok(filter.truth(row))
}

/// Whether a filter says the same of two rows of the columns' types. It does if their cells have the
/// same contents, whatever their types are. It is refused as `check` refuses.
pub fn says_the_same(
    filter: &Filter,
    columns: &[DType],
    first: &[Scalar],
    second: &[Scalar],
) -> Result<bool, FilterError>
    requires first { IsRowOf (map type_of columns.now) (map cell_of first.now) }
    requires second { IsRowOf (map type_of columns.now) (map cell_of second.now) }
    ensures fits { IsOk result ↔ FitsColumns (map type_of columns.now) (formula filter.now) }
    ensures value { IfOk result (λ same. IsTrue same
        ↔ (truth (formula filter.now) (map cell_of first.now)
        ≡ truth (formula filter.now) (map cell_of second.now))) }
    ensures contents { IfOk result (λ same.
        map untyped_cell (map cell_of first.now) ≡ map untyped_cell (map cell_of second.now)
        → IsTrue same) }
{
    fitting_filters_compare_contents();
    filter.check(columns)?;
    Ok(are_same(filter.truth(first), filter.truth(second)))
}

fn are_same(first: Truth, second: Truth) -> bool
    ensures { IsTrue result ↔ (first ≡ second) }
{
    first == second
}

/// How many of the rows match.
fn count_rows(filter: &Filter, rows: &[Vec<Scalar>]) -> usize
    ensures { result ≡ length (matching (formula filter.now)
        (map (λ row. map cell_of row.items) rows.now)) }
{
    let mut total = 0;
    for row in rows {
        if filter.matches(row) {
            total += 1;
        }
    }
    total
}

//! The laws of filters: what holds of all of them, whatever calls gave them.
//!
//! These functions do nothing when they run. The contract of each is a law over the definitions in
//! `specs/`, and its proof is the law's proof.

ghost use Rattle.vortex_filter.specs.FilterLiterals.{FormulasSayLiterals};
ghost use Rattle.vortex_filter.specs.FitLaws.{FittingComparesContents, UnknownForNulls, UnknownWithoutOrder};
ghost use Rattle.vortex_filter.specs.Named.{NamedColumnsDecide};
ghost use Rattle.vortex_filter.specs.PatternTests.{PatternsBegin, PatternsKnow, StringsMatch};
ghost use Rattle.vortex_filter.specs.Positions.{ComparisonsStand, NullsAreUnknown};

use like_patterns::laws::matches_begin_with_prefix;
use vortex_dtype::laws::nullable_is_the_same;
use vortex_value::laws::one_value;

/// A comparison that fits its column is Unknown of a row of the columns' types exactly if the cell
/// or the literal is null, or if the two have no order. In a column of truth values, integers,
/// strings or bytes it is so exactly if one of the two is null, if the literal is a value of its
/// type.
pub fn fitting_comparisons_decide()
    ensures without_order { UnknownWithoutOrder }
    ensures for_nulls { UnknownForNulls }
{}

/// A filter that fits the columns says of each row of their types what it says by contents alone.
pub fn fitting_filters_compare_contents()
    ensures { FittingComparesContents }
{
    nullable_is_the_same();
}

/// Filters of one formula, each with valid literals, have the same literals: each with its type and
/// its raw value, the `PType` of an integer included.
pub fn formulas_say_literals()
    ensures { FormulasSayLiterals }
{
    one_value();
}

/// A comparison with a literal says of a value whether it holds of values that stand so to the
/// literal, wherever this stands among those of the column's type. Of a null it is Unknown.
pub fn comparisons_stand()
    ensures values { ComparisonsStand }
    ensures nulls { NullsAreUnknown }
{}

/// A string matches a pattern as its characters do. A test for a pattern is Unknown just where one for
/// a prefix is, and where it is True, its string begins as the pattern does.
pub fn pattern_tests_decide()
    ensures strings { StringsMatch }
    ensures unknown { PatternsKnow }
    ensures begin { PatternsBegin }
{
    matches_begin_with_prefix();
}

/// Rows that agree in the columns that a filter names have the same truth of it.
pub fn named_columns_decide()
    ensures { NamedColumnsDecide }
{}

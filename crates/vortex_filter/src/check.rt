//! Whether the tests of a filter fit the types of the columns.

ghost use Rattle.std.specs.Prelude.{◌≡◌, ◌↔◌, length, map, option_map, slice_get, IfErr, IsOk};
ghost use Rattle.vortex_filter.specs.Words.{FitsColumns, IsOfType, RefusesFirst, answer_behind, answer_of_both, behind};
ghost use Rattle.vortex_filter.specs.Words.{capped, cell_of, checked, checked_test, demand_of, formula, holds_strings};
ghost use Rattle.vortex_filter.specs.Words.{lacks_order, list_all, option_copied, same_type, scalar_type, suits, tests};
ghost use Rattle.vortex_filter.specs.Words.{type_of};

use crate::error::FilterError;
use crate::filter::Filter;
use vortex_cells::has_variant;
use vortex_dtype::DType;
use vortex_value::Scalar;

impl Filter {
    /// Whether each test of the filter fits the type of its column. The column has to be there. No
    /// variant may stand in its type, at any depth, but for `IsNull`. Each literal is of the same
    /// type up to nullability, a prefix is sought in strings or bytes alone, and a pattern is
    /// compared with strings alone.
    ///
    /// It is refused for the first test that does not fit, in reading order: `NoColumn`, else
    /// `HasVariant`, else `TypesDiffer`, with the number of the test and its column. It takes no
    /// memory.
    #[tactic(auto, using(crate::proofs::CheckLaws::shown))]
    pub fn check(&self, columns: &[DType]) -> Result<(), FilterError>
        ensures fits { IsOk result ↔ FitsColumns (map type_of columns.now) (formula self.now) }
        ensures refused { IfErr result
            (RefusesFirst IsOfType (map type_of columns.now) (tests (formula self.now))) }
    {
        check_tests(self, columns)
    }
}

/// Checks the tests of a filter.
#[tactic(auto, using(crate::proofs::Steps::shown))]
fn check_tests(filter: &Filter, columns: &[DType]) -> Result<(), FilterError>
    ensures { result ≡ checked (map type_of columns.now) (formula filter.now) }
{
    match filter {
        Filter::Constant(_) => Ok(()),
        Filter::Compare {
            column,
            literal,
            ..
        } => check_test(*column, Asked::Literal(literal), columns),
        Filter::IsNull { column } => check_test(*column, Asked::Nothing, columns),
        Filter::In { column, literals } => check_test(*column, Asked::Literals(literals), columns),
        Filter::Between {
            column,
            lower,
            upper,
        } => check_test(*column, Asked::Ends(lower, upper), columns),
        Filter::StartsWith { column, prefix } => {
            check_test(*column, Asked::Beginning(prefix), columns)
        }
        Filter::Like { column, .. } => check_test(*column, Asked::Matching, columns),
        Filter::And(left, right) => {
            let front = check_tests(left, columns);
            both_answers(left, front, check_tests(right, columns))
        }
        Filter::Or(left, right) => {
            let front = check_tests(left, columns);
            both_answers(left, front, check_tests(right, columns))
        }
        Filter::Not(inner) => check_tests(inner, columns),
    }
}

/// What a test asks of its column.
#[derive(Clone, Copy)]
pub(crate) enum Asked<'a> {
    /// Nothing.
    Nothing,
    /// To compare with the literal.
    Literal(&'a Scalar),
    /// To compare with each of the literals.
    Literals(&'a [Scalar]),
    /// To compare with both.
    Ends(&'a Scalar, &'a Scalar),
    /// To hold what may begin with the literal.
    Beginning(&'a Scalar),
    /// To hold what may match a pattern.
    Matching,
}

/// Checks one test, as the first of its filter.
fn check_test(column: usize, asked: Asked<'_>, columns: &[DType]) -> Result<(), FilterError>
    ensures { result
        ≡ checked_test (slice_get (map type_of columns.now) column) (demand_of asked.entry) column }
{
    let Some(dtype) = type_at(column, columns) else {
        return Err(FilterError::NoColumn { test: 0, column });
    };
    if lacks_order(asked, dtype) {
        return Err(FilterError::HasVariant { test: 0, column });
    }
    if !suits(asked, dtype) {
        return Err(FilterError::TypesDiffer { test: 0, column });
    }
    Ok(())
}

/// The type of a column, if it is there.
#[tactic(auto, using(crate::proofs::CheckSteps::type_is))]
pub(crate) fn type_at(column: usize, columns: &[DType]) -> Option<&DType>
    ensures { option_map (λ dtype. type_of dtype.now) result
        ≡ slice_get (map type_of columns.now) column }
{
    item_at(column, columns)
}

/// The item at a place, if there is one.
fn item_at<T>(place: usize, items: &[T]) -> Option<&T>
    ensures { option_copied result ≡ slice_get items.now place }
{
    items.get(place)
}

/// Whether an order is asked of the values of the type, and there is none.
pub(crate) fn lacks_order(asked: Asked<'_>, dtype: &DType) -> bool
    ensures { result ≡ lacks_order (demand_of asked.entry) (type_of dtype.now) }
{
    match asked {
        Asked::Nothing => false,
        _ => has_variant(dtype),
    }
}

/// Whether the literals are of the type, what may begin with one is a string, or bytes, and what may
/// match a pattern a string.
fn suits(asked: Asked<'_>, dtype: &DType) -> bool
    ensures { result ≡ suits (demand_of asked.entry) (type_of dtype.now) }
{
    match asked {
        Asked::Nothing => true,
        Asked::Literal(literal) => is_of_type(literal, dtype),
        Asked::Literals(literals) => are_of_type(literals, dtype),
        Asked::Ends(lower, upper) => is_of_type(lower, dtype) && is_of_type(upper, dtype),
        Asked::Beginning(prefix) => holds_strings(dtype) && is_of_type(prefix, dtype),
        Asked::Matching => dtype.is_utf8(),
    }
}

/// Whether the scalar is of the type, up to nullability.
pub(crate) fn is_of_type(scalar: &Scalar, dtype: &DType) -> bool
    ensures { result ≡ same_type (type_of dtype.now) (scalar_type scalar.now) }
{
    dtype.eq_ignore_nullability(&scalar.dtype)
}

/// Whether each scalar is of the type, up to nullability.
fn are_of_type(scalars: &[Scalar], dtype: &DType) -> bool
    ensures { result
        ≡ list_all (λ x. same_type (type_of dtype.now) x.typed) (map cell_of scalars.now) }
{
    all_of_type(scalars, dtype)
}

fn all_of_type(scalars: &[Scalar], dtype: &DType) -> bool
    ensures { result
        ≡ list_all (λ x. same_type (type_of dtype.now) (scalar_type x)) scalars.now }
{
    scalars.iter().all(|scalar| is_of_type(scalar, dtype))
}

/// Whether the type holds strings, or bytes.
pub(crate) fn holds_strings(dtype: &DType) -> bool
    ensures { result ≡ holds_strings (type_of dtype.now) }
{
    dtype.is_utf8() || dtype.is_binary()
}

/// How many tests stand in a filter, as far as a `usize` counts.
#[tactic(auto, using(crate::proofs::CheckSteps::counts))]
fn count_tests(filter: &Filter) -> usize
    ensures { result ≡ capped (length (tests (formula filter.now))) }
{
    match filter {
        Filter::Constant(_) => 0,
        Filter::And(left, right) => count_tests(left).saturating_add(count_tests(right)),
        Filter::Or(left, right) => count_tests(left).saturating_add(count_tests(right)),
        Filter::Not(inner) => count_tests(inner),
        _ => 1,
    }
}

impl FilterError {
    /// The refusal of the test that stands behind so many others.
    fn behind(self, count: usize) -> FilterError
        ensures { result ≡ behind count self }
    {
        match self {
            FilterError::OutOfMemory => FilterError::OutOfMemory,
            FilterError::NoColumn { test, column } => FilterError::NoColumn {
                test: count.saturating_add(test),
                column,
            },
            FilterError::HasVariant { test, column } => FilterError::HasVariant {
                test: count.saturating_add(test),
                column,
            },
            FilterError::TypesDiffer { test, column } => FilterError::TypesDiffer {
                test: count.saturating_add(test),
                column,
            },
        }
    }
}

/// The answer for a filter that stands behind another one: a refusal counts the tests of both.
#[inline(never)]
pub(crate) fn behind<T>(before: &Filter, answer: Result<T, FilterError>) -> Result<T, FilterError>
    ensures { result ≡ answer_behind (capped (length (tests (formula before.now)))) answer }
{
    match answer {
        Ok(value) => Ok(value),
        Err(cause) => Err(cause.behind(count_tests(before))),
    }
}

/// The answer for two filters; the answer for the first is given.
fn both_answers(
    before: &Filter,
    front: Result<(), FilterError>,
    rest: Result<(), FilterError>,
) -> Result<(), FilterError>
    ensures { result
        ≡ answer_of_both (capped (length (tests (formula before.now)))) front rest }
{
    match front {
        Ok(()) => behind(before, rest),
        Err(cause) => Err(cause),
    }
}

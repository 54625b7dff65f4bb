// SPDX-License-Identifier: Apache-2.0
//! What is left of a filter over a table of which some columns are constant.

ghost use Rattle.std.specs.Prelude.{◌≡◌, ◌↔◌, ℕ, IfErr, IfOk, map, slice_index_or, false};
ghost use Rattle.constant_arrays.specs.Words.{IsBare, IsNamed, IsNamedOther, SaysTheSame, cell_of, decided, folded};
ghost use Rattle.constant_arrays.specs.Words.{formula};
ghost use Rattle.vortex_filter.specs.Makes.{MakesUnlessBare};
ghost use Rattle.vortex_filter.specs.declared.error.FilterError.TheVariants.{OutOfMemory};

use std::alloc::Global;
use vortex_filter::{Filter, FilterError, conjoin, disjoin, negate};
use vortex_value::Scalar;

/// The filter that is left for a table of which some columns are constant: each test of such a column
/// is decided once, on a row that has the constants. A column is constant if its flag is set, and
/// columns without a flag are not.
///
/// What is left names the other columns alone. On the cells that a row of the table has there, it says
/// what the filter says of the row.
///
/// `OutOfMemory` is its only refusal, and comes neither if a constant nor if a test for null is left.
pub fn fold_constants(
    alloc: Global,
    filter: &Filter,
    is_constant: &[bool],
    constants: &[Scalar],
) -> Result<Filter, FilterError>
    ensures value { IfOk result (λ left. formula left
        ≡ folded is_constant.now (map cell_of constants.now) (formula filter.now)) }
    ensures same { IfOk result (λ left. SaysTheSame is_constant.now (map cell_of constants.now)
        (formula filter.now) (formula left)) }
    ensures names { IfOk result (λ left. (k : ℕ) → IsNamed (formula left) k
        ↔ IsNamedOther is_constant.now (formula filter.now) k) }
    ensures refused { IfErr result (λ e. (e ≡ OutOfMemory)
        × ¬ (IsBare (folded is_constant.now (map cell_of constants.now) (formula filter.now)))) }
{
    fold(alloc, filter, is_constant, constants)
}

/// What is left of a filter. Each part is visited once.
#[tactic(auto, using(vortex_filter::proofs::MakeSteps::shown))]
fn fold(
    alloc: Global,
    filter: &Filter,
    is_constant: &[bool],
    constants: &[Scalar],
) -> Result<Filter, FilterError>
    ensures { MakesUnlessBare
        (folded is_constant.now (map cell_of constants.now) (formula filter.now)) result }
{
    match filter {
        Filter::Constant(truth) => Ok(Filter::Constant(*truth)),
        Filter::Compare { column, .. }
        | Filter::IsNull { column }
        | Filter::In { column, .. }
        | Filter::Between { column, .. }
        | Filter::StartsWith { column, .. }
        | Filter::Like { column, .. } => {
            decide(alloc, filter, is_flagged(is_constant, *column), constants)
        }
        Filter::And(left, right) => {
            let first = fold(alloc, left, is_constant, constants);
            conjoin(alloc, first, fold(alloc, right, is_constant, constants))
        }
        Filter::Or(left, right) => {
            let first = fold(alloc, left, is_constant, constants);
            disjoin(alloc, first, fold(alloc, right, is_constant, constants))
        }
        Filter::Not(inner) => negate(alloc, fold(alloc, inner, is_constant, constants)),
    }
}

/// A test of a constant column, decided on the row of constants; a copy of any other.
#[inline(never)]
fn decide(
    alloc: Global,
    test: &Filter,
    is_constant: bool,
    constants: &[Scalar],
) -> Result<Filter, FilterError>
    ensures { MakesUnlessBare
        (decided is_constant (map cell_of constants.now) (formula test.now)) result }
{
    if is_constant {
        return Ok(Filter::Constant(test.truth(constants)));
    }
    test.clone(alloc)
}

/// Whether the column at a place is constant: not if it has no flag.
fn is_flagged(is_constant: &[bool], column: usize) -> bool
    ensures { result ≡ slice_index_or is_constant.now column false }
{
    if column < is_constant.len() {
        is_constant[column]
    } else {
        false
    }
}

//! Copies of filters, in memory of their own.

ghost use Rattle.std.specs.Prelude.{◌≡◌, ◌∷◌, [], IfErr, IfOk, MatchResult, map};
ghost use Rattle.vortex_filter.specs.FilterLiterals.{AreValid, MakesCopies, exactly_of, literals_of};
ghost use Rattle.vortex_filter.specs.Makes.{Makes, MakesUnlessBare};
ghost use Rattle.vortex_filter.specs.Words.{IsBare, OutOfMemory, cell_of, comparison};
ghost use Rattle.vortex_filter.specs.Words.{formula, membership, pattern_test};
ghost use Rattle.vortex_filter.specs.Words.{prefix_test, range};

use crate::building::{conjoin, disjoin, negate};
use crate::error::FilterError;
use crate::filter::Filter;
use crate::operator::CompareOperator;
use like_patterns::{Case, Pattern};
use std::alloc::Global;
use vortex_value::Scalar;

impl Filter {
    /// A copy with memory of its own. `OutOfMemory` is its only refusal, and comes neither of a
    /// constant nor of a test for null.
    #[tactic(auto, using(crate::proofs::LiteralSteps::copies_valid))]
    pub fn clone(&self, alloc: Global) -> Result<Filter, FilterError>
        ensures copied { IfOk result (λ copy. formula copy ≡ formula self.now) }
        // Of each literal, the `PType` of a raw integer included.
        ensures exactly { IfOk result (λ copy.
            map exactly_of (literals_of copy) ≡ map exactly_of (literals_of self.now)) }
        ensures valid { AreValid (literals_of self.now) → IfOk result (λ copy.
            AreValid (literals_of copy)) }
        ensures refused { IfErr result (λ e. (e ≡ OutOfMemory) × ¬ (IsBare (formula self.now))) }
    {
        copy(alloc, self)
    }
}

/// A copy of a filter. That of a constant or a test for null takes no memory.
#[tactic(auto, using(crate::proofs::MakeSteps::shown, crate::proofs::LiteralSteps::copied))]
fn copy(alloc: Global, filter: &Filter) -> Result<Filter, FilterError>
    ensures made { MakesUnlessBare (formula filter.now) result }
    ensures exactly { MakesCopies (literals_of filter.now) result }
{
    match filter {
        Filter::Constant(truth) => Ok(Filter::Constant(*truth)),
        Filter::Compare {
            column,
            operator,
            literal,
        } => copy_comparison(alloc, *column, *operator, literal),
        Filter::IsNull { column } => Ok(Filter::IsNull { column: *column }),
        Filter::In { column, literals } => copy_membership(alloc, *column, literals),
        Filter::Between {
            column,
            lower,
            upper,
        } => copy_range(alloc, *column, lower, upper),
        Filter::StartsWith { column, prefix } => copy_prefix(alloc, *column, prefix),
        Filter::Like {
            column,
            pattern,
            case,
        } => copy_pattern_test(alloc, *column, pattern, *case),
        Filter::And(left, right) => {
            let first = copy(alloc, left);
            conjoin(alloc, first, copy(alloc, right))
        }
        Filter::Or(left, right) => {
            let first = copy(alloc, left);
            disjoin(alloc, first, copy(alloc, right))
        }
        Filter::Not(inner) => negate(alloc, copy(alloc, inner)),
    }
}

// Each is a call of its own, so that what it needs on the stack is not taken again at each level of a
// filter.

#[tactic(auto, using(crate::proofs::Steps::shown, crate::proofs::LiteralSteps::literals))]
#[inline(never)]
fn copy_comparison(
    alloc: Global,
    column: usize,
    operator: CompareOperator,
    literal: &Scalar,
) -> Result<Filter, FilterError>
    ensures made { Makes (comparison column operator (cell_of literal.now)) result }
    ensures exactly { MakesCopies (literal.now ∷ []) result }
{
    let literal = copy_scalar(alloc, literal)?;
    Ok(Filter::Compare {
        column,
        operator,
        literal,
    })
}

#[tactic(auto, using(crate::proofs::Steps::shown, crate::proofs::LiteralSteps::literals))]
#[inline(never)]
fn copy_membership(alloc: Global, column: usize, literals: &[Scalar]) -> Result<Filter, FilterError>
    ensures made { Makes (membership column (map cell_of literals.now)) result }
    ensures exactly { MakesCopies literals.now result }
{
    let literals = copy_scalars(alloc, literals)?;
    Ok(Filter::In { column, literals })
}

#[tactic(auto, using(crate::proofs::Steps::shown, crate::proofs::LiteralSteps::literals))]
#[inline(never)]
fn copy_range(
    alloc: Global,
    column: usize,
    lower: &Scalar,
    upper: &Scalar,
) -> Result<Filter, FilterError>
    ensures made { Makes (range column (cell_of lower.now) (cell_of upper.now)) result }
    ensures exactly { MakesCopies (lower.now ∷ upper.now ∷ []) result }
{
    let lower = copy_scalar(alloc, lower)?;
    match copy_scalar(alloc, upper) {
        Ok(upper) => Ok(Filter::Between {
            column,
            lower,
            upper,
        }),
        Err(cause) => {
            drop(lower);
            Err(cause)
        }
    }
}

#[tactic(auto, using(crate::proofs::Steps::shown, crate::proofs::LiteralSteps::literals))]
#[inline(never)]
fn copy_prefix(alloc: Global, column: usize, prefix: &Scalar) -> Result<Filter, FilterError>
    ensures made { Makes (prefix_test column (cell_of prefix.now)) result }
    ensures exactly { MakesCopies (prefix.now ∷ []) result }
{
    let prefix = copy_scalar(alloc, prefix)?;
    Ok(Filter::StartsWith { column, prefix })
}

#[tactic(auto, using(crate::proofs::Steps::shown, crate::proofs::LiteralSteps::literals))]
#[inline(never)]
pub(crate) fn copy_pattern_test(
    alloc: Global,
    column: usize,
    pattern: &Pattern,
    case: Case,
) -> Result<Filter, FilterError>
    ensures made { Makes (pattern_test column case pattern.now) result }
    ensures exactly { MakesCopies [] result }
{
    let pattern = pattern.clone(alloc)?;
    Ok(Filter::Like {
        column,
        pattern,
        case,
    })
}

/// A copy of a scalar.
#[tactic(auto, using(crate::proofs::MakeSteps::copied_cell, crate::proofs::LiteralSteps::copied_exactly))]
pub(crate) fn copy_scalar(alloc: Global, scalar: &Scalar) -> Result<Scalar, FilterError>
    ensures made { MatchResult result
        (λ copy. cell_of copy ≡ cell_of scalar.now)
        (λ e. e ≡ OutOfMemory) }
    ensures exactly { IfOk result (λ copy. exactly_of copy ≡ exactly_of scalar.now) }
{
    match scalar.clone(alloc) {
        Ok(copy) => Ok(copy),
        Err(cause) => {
            drop(cause);
            Err(FilterError::OutOfMemory)
        }
    }
}

/// Copies of the scalars, in order.
fn copy_scalars(alloc: Global, scalars: &[Scalar]) -> Result<Vec<Scalar>, FilterError>
    ensures made { MatchResult result
        (λ copies. map cell_of copies.items ≡ map cell_of scalars.now)
        (λ e. e ≡ OutOfMemory) }
    ensures exactly { IfOk result (λ copies.
        map exactly_of copies.items ≡ map exactly_of scalars.now) }
{
    let mut copies = Vec::with_capacity(alloc, scalars.len())?;
    for scalar in scalars {
        copies.push(copy_scalar(alloc, scalar)?)?;
    }
    Ok(copies)
}

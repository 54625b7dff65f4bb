//! What is left of a filter on the rows of a zone, by the zone's statistics.

ghost use Rattle.std.specs.Prelude.{◌≡◌, ◌≤◌, ◌&&◌, ◌||◌, Err, IfErr, IfOk, IsOkAnd, List, MatchOption, is_none};
ghost use Rattle.std.specs.Prelude.{is_some, map};
ghost use Rattle.vortex_filter.specs.FilterLiterals.{AreValid, MakesValid, literals_of};
ghost use Rattle.filter_pruning.specs.Leaves.{LeavesValid, IsResidual, is_made_false, is_made_true, settled};
ghost use Rattle.vortex_filter.specs.Makes.{MakesUnlessBare, OfParts};
ghost use Rattle.filter_pruning.specs.Words.{IsBare, OutOfMemory, SameOnRows, both, conjunction, constant, disjunction};
ghost use Rattle.filter_pruning.specs.Words.{either, formula, is_constant, known, negation, only, outcomes, residual};
ghost use Rattle.filter_pruning.specs.Words.{same_truths, size, sole};
ghost use Rattle.vortex_statistics.specs.Statistics.{Known};
ghost use Rattle.vortex_filter.specs.declared.truth.Truth.{Truth};

use crate::outcomes::Outcomes;
use crate::pruning::{is_settled, outcomes_of};
use std::alloc::Global;
use vortex_filter::{Filter, FilterError, Truth, conjoin, disjoin, negate};
use vortex_statistics::ColumnStatistics;
use vortex_value::laws::{order_is_reversed, order_is_transitive};

/// The filter that is left for the rows of a zone, if these are right of its columns: it says the
/// same on each of them, and is never larger.
///
/// A part that can have one truth alone becomes that constant, and so does the whole filter.
/// A True is then left out of an `And`, and a False out of an `Or`. `OutOfMemory` is its only
/// refusal, and comes only if some other test or connective is left.
pub fn simplify(
    alloc: Global,
    filter: &Filter,
    statistics: &[ColumnStatistics],
) -> Result<Filter, FilterError>
    ensures value { IfOk result (λ left. formula left
        ≡ residual (map known statistics.now) (formula filter.now)) }
    ensures same { IfOk result (λ left.
        SameOnRows (map known statistics.now) (formula filter.now) (formula left)) }
    ensures smaller { IfOk result (λ left. size (formula left) ≤ size (formula filter.now)) }
    ensures decided { (t : Truth) → outcomes (formula filter.now) (map known statistics.now) ≡ only t
        → IsOkAnd result (λ left. formula left ≡ constant t) }
    ensures valid { AreValid (literals_of filter.now) → IfOk result (λ left.
        AreValid (literals_of left)) }
    ensures refused { IfErr result (λ e. (e ≡ OutOfMemory)
        × ¬ (IsBare (residual (map known statistics.now) (formula filter.now)))) }
{
    order_is_reversed();
    order_is_transitive();
    left_filter(alloc, filter, residual_of(alloc, filter, statistics))
}

/// What a filter can be, and what is left of it.
#[derive(Drop)]
struct Residual {
    outcomes: Outcomes,
    /// What stands in its place, or the refusal of its memory. `None`: the filter stays as it is.
    change: Option<Result<Filter, FilterError>>,
}

/// What is left of a filter. Each part is visited once, and takes no memory while it stays as it
/// is.
#[cycle(residual)]
#[tactic(auto, using(crate::proofs::SimplifySteps::shown, crate::proofs::LeavesSteps::shown))]
fn residual_of(alloc: Global, filter: &Filter, statistics: &[ColumnStatistics]) -> Residual
    ensures left { IsResidual (map known statistics.now) (formula filter.now) result }
    ensures valid { AreValid (literals_of filter.now) → LeavesValid result }
{
    match filter {
        Filter::And(left, right) => {
            let front = residual_of(alloc, left, statistics);
            if is_settled(front.outcomes, Truth::False) {
                return front;
            }
            conjoined(
                alloc,
                left,
                front,
                right,
                residual_of(alloc, right, statistics),
            )
        }
        Filter::Or(left, right) => {
            let front = residual_of(alloc, left, statistics);
            if is_settled(front.outcomes, Truth::True) {
                return front;
            }
            disjoined(
                alloc,
                left,
                front,
                right,
                residual_of(alloc, right, statistics),
            )
        }
        Filter::Not(inner) => negated(alloc, inner, residual_of(alloc, inner, statistics)),
        _ => settled(outcomes_of(filter, statistics)),
    }
}

/// What is left of a filter whose parts stay as they are: a constant, if one truth alone is
/// possible.
fn settled(outcomes: Outcomes) -> Residual
    ensures { result ≡ settled outcomes }
{
    let change = match sole(outcomes) {
        Some(truth) => Some(Ok(Filter::Constant(truth))),
        None => None,
    };
    Residual { outcomes, change }
}

/// What is left of both filters together.
#[tactic(auto, using(crate::proofs::SimplifySteps::pairs, crate::proofs::LeavesSteps::left))]
fn conjoined(
    alloc: Global,
    left: &Filter,
    front: Residual,
    right: &Filter,
    back: Residual,
) -> Residual
    ensures left { (ss : List Known) → IsResidual ss (formula left.now) front
        → IsResidual ss (formula right.now) back
        → IsResidual ss (both (formula left.now) (formula right.now)) result }
    ensures valid { AreValid (literals_of left.now) → LeavesValid front
        → AreValid (literals_of right.now) → LeavesValid back → LeavesValid result }
{
    let outcomes = front.outcomes.and(back.outcomes);
    if are_settled(outcomes, &front, &back) {
        drop((front, back));
        return settled(outcomes);
    }
    let front = left_filter(alloc, left, front);
    let back = left_filter(alloc, right, back);
    let change = Some(without_true(alloc, front, back));
    Residual { outcomes, change }
}

/// What is left of one filter or the other.
#[tactic(auto, using(crate::proofs::SimplifySteps::pairs, crate::proofs::LeavesSteps::left))]
fn disjoined(
    alloc: Global,
    left: &Filter,
    front: Residual,
    right: &Filter,
    back: Residual,
) -> Residual
    ensures left { (ss : List Known) → IsResidual ss (formula left.now) front
        → IsResidual ss (formula right.now) back
        → IsResidual ss (either (formula left.now) (formula right.now)) result }
    ensures valid { AreValid (literals_of left.now) → LeavesValid front
        → AreValid (literals_of right.now) → LeavesValid back → LeavesValid result }
{
    let outcomes = front.outcomes.or(back.outcomes);
    if are_settled(outcomes, &front, &back) {
        drop((front, back));
        return settled(outcomes);
    }
    let front = left_filter(alloc, left, front);
    let back = left_filter(alloc, right, back);
    let change = Some(without_false(alloc, front, back));
    Residual { outcomes, change }
}

/// What is left of a filter that is negated.
#[tactic(auto, using(crate::proofs::LeavesSteps::left))]
fn negated(alloc: Global, inner: &Filter, residual: Residual) -> Residual
    ensures left { (ss : List Known) → IsResidual ss (formula inner.now) residual
        → IsResidual ss (negation (formula inner.now)) result }
    ensures valid { AreValid (literals_of inner.now) → LeavesValid residual
        → LeavesValid result }
{
    let outcomes = residual.outcomes.negate();
    if sole(outcomes).is_some() || residual.change.is_none() {
        drop(residual);
        return settled(outcomes);
    }
    let change = Some(negate(alloc, left_filter(alloc, inner, residual)));
    Residual { outcomes, change }
}

/// Whether there is nothing to make: one truth alone is possible, or both filters stay as they are.
fn are_settled(outcomes: Outcomes, front: &Residual, back: &Residual) -> bool
    ensures { result
        ≡ (is_some (sole outcomes) || (is_none front.now.change && is_none back.now.change)) }
{
    sole(outcomes).is_some() || (front.change.is_none() && back.change.is_none())
}

/// The filter that is left: what stands in its place, or else a copy.
#[tactic(auto, using(crate::proofs::LeavesSteps::left))]
fn left_filter(alloc: Global, filter: &Filter, residual: Residual) -> Result<Filter, FilterError>
    ensures left { MatchOption residual.change
        (MakesUnlessBare (formula filter.now) result) (λ made. result ≡ made) }
    ensures valid { AreValid (literals_of filter.now) → LeavesValid residual
        → MakesValid result }
{
    match residual.change {
        Some(made) => made,
        None => filter.clone(alloc),
    }
}

/// The truth that alone is possible.
fn sole(outcomes: Outcomes) -> Option<Truth>
    ensures { result ≡ sole outcomes }
{
    match (
        outcomes.may_be_false,
        outcomes.may_be_unknown,
        outcomes.may_be_true,
    ) {
        (true, false, false) => Some(Truth::False),
        (false, true, false) => Some(Truth::Unknown),
        (false, false, true) => Some(Truth::True),
        _ => None,
    }
}

/// Both filters together, without a True; else the refusal of the first that was not made.
#[tactic(auto, using(crate::proofs::SimplifySteps::left_out, crate::proofs::LeavesSteps::left))]
fn without_true(
    alloc: Global,
    left: Result<Filter, FilterError>,
    right: Result<Filter, FilterError>,
) -> Result<Filter, FilterError>
    ensures made { OfParts (λ f g. MakesUnlessBare (conjunction (formula f) (formula g)) result)
        (λ e. result ≡ Err e) left right }
    ensures valid { MakesValid left → MakesValid right → MakesValid result }
{
    if is_true(&left) {
        drop(left);
        return right;
    }
    if is_true(&right) {
        drop(right);
        return left;
    }
    conjoin(alloc, left, right)
}

/// One filter or the other, without a False; else the refusal of the first that was not made.
#[tactic(auto, using(crate::proofs::SimplifySteps::left_out, crate::proofs::LeavesSteps::left))]
fn without_false(
    alloc: Global,
    left: Result<Filter, FilterError>,
    right: Result<Filter, FilterError>,
) -> Result<Filter, FilterError>
    ensures made { OfParts (λ f g. MakesUnlessBare (disjunction (formula f) (formula g)) result)
        (λ e. result ≡ Err e) left right }
    ensures valid { MakesValid left → MakesValid right → MakesValid result }
{
    if is_false(&left) {
        drop(left);
        return right;
    }
    if is_false(&right) {
        drop(right);
        return left;
    }
    disjoin(alloc, left, right)
}

/// Whether it is the constant True.
fn is_true(made: &Result<Filter, FilterError>) -> bool
    ensures { result ≡ is_made_true made.now }
{
    match made {
        Ok(filter) => is_constant(filter, Truth::True),
        Err(_) => false,
    }
}

/// Whether it is the constant False.
fn is_false(made: &Result<Filter, FilterError>) -> bool
    ensures { result ≡ is_made_false made.now }
{
    match made {
        Ok(filter) => is_constant(filter, Truth::False),
        Err(_) => false,
    }
}

/// Whether the filter is this constant.
#[tactic(auto, using(vortex_filter::proofs::Steps::shown))]
fn is_constant(filter: &Filter, truth: Truth) -> bool
    ensures { result ≡ is_constant truth (formula filter.now) }
{
    match filter {
        Filter::Constant(constant) => are_same(truth, *constant),
        Filter::Compare { .. } => false,
        Filter::IsNull { .. } => false,
        Filter::In { .. } => false,
        Filter::Between { .. } => false,
        Filter::StartsWith { .. } => false,
        Filter::Like { .. } => false,
        Filter::And(_, _) => false,
        Filter::Or(_, _) => false,
        Filter::Not(_) => false,
    }
}

fn are_same(truth: Truth, other: Truth) -> bool
    ensures { result ≡ same_truths truth other }
{
    match (truth, other) {
        (Truth::False, Truth::False) => true,
        (Truth::Unknown, Truth::Unknown) => true,
        (Truth::True, Truth::True) => true,
        _ => false,
    }
}

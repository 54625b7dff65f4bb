//! Filters that are made of filters.

ghost use Rattle.std.specs.Prelude.{◌≡◌, ◌++◌, Err, IfErr, IfOk, MatchResult, Ok};
ghost use Rattle.vortex_filter.specs.FilterLiterals.{literals_of};
ghost use Rattle.vortex_filter.specs.Makes.{Makes, OfParts};
ghost use Rattle.vortex_filter.specs.Words.{OutOfMemory, both, either, formula, negation};

use crate::error::FilterError;
use crate::filter::Filter;
use std::alloc::Global;

impl Filter {
    /// Both filters: False if one of the two is, else Unknown if one is.
    ///
    /// `OutOfMemory` is its only refusal.
    pub fn and(alloc: Global, left: Filter, right: Filter) -> Result<Filter, FilterError>
        ensures made { IfOk result (λ f. formula f ≡ both (formula left) (formula right)) }
        ensures literals { IfOk result (λ f.
            literals_of f ≡ literals_of left ++ literals_of right) }
        ensures refused { IfErr result (λ e. e ≡ OutOfMemory) }
    {
        let (left, right) = boxed_both(alloc, left, right)?;
        Ok(both(left, right))
    }

    /// Either filter: True if one of the two is, else Unknown if one is.
    ///
    /// `OutOfMemory` is its only refusal.
    pub fn or(alloc: Global, left: Filter, right: Filter) -> Result<Filter, FilterError>
        ensures made { IfOk result (λ f. formula f ≡ either (formula left) (formula right)) }
        ensures literals { IfOk result (λ f.
            literals_of f ≡ literals_of left ++ literals_of right) }
        ensures refused { IfErr result (λ e. e ≡ OutOfMemory) }
    {
        let (left, right) = boxed_both(alloc, left, right)?;
        Ok(either(left, right))
    }

    /// The negated filter: True for False, and False for True; Unknown stays.
    ///
    /// `OutOfMemory` is its only refusal.
    pub fn not(alloc: Global, filter: Filter) -> Result<Filter, FilterError>
        ensures made { IfOk result (λ f. formula f ≡ negation (formula filter)) }
        ensures literals { IfOk result (λ f. literals_of f ≡ literals_of filter) }
        ensures refused { IfErr result (λ e. e ≡ OutOfMemory) }
    {
        Ok(negation(boxed(alloc, filter)?))
    }
}

/// Both filters, which stand in boxes.
#[tactic(auto, using(crate::proofs::Steps::shown, crate::proofs::LiteralSteps::literals))]
pub fn both(left: Box<Filter>, right: Box<Filter>) -> Filter
    ensures made { formula result ≡ both (formula left.value) (formula right.value) }
    ensures literals { literals_of result ≡ literals_of left.value ++ literals_of right.value }
{
    Filter::And(left, right)
}

/// Either filter, which stand in boxes.
#[tactic(auto, using(crate::proofs::Steps::shown, crate::proofs::LiteralSteps::literals))]
pub fn either(left: Box<Filter>, right: Box<Filter>) -> Filter
    ensures made { formula result ≡ either (formula left.value) (formula right.value) }
    ensures literals { literals_of result ≡ literals_of left.value ++ literals_of right.value }
{
    Filter::Or(left, right)
}

/// The negated filter, which stands in a box.
#[tactic(auto, using(crate::proofs::Steps::shown, crate::proofs::LiteralSteps::literals))]
pub fn negation(inner: Box<Filter>) -> Filter
    ensures made { formula result ≡ negation (formula inner.value) }
    ensures literals { literals_of result ≡ literals_of inner.value }
{
    Filter::Not(inner)
}

/// Both parts together, if both were made; else the refusal of the first that was not.
#[tactic(auto, using(crate::proofs::Steps::shown, crate::proofs::LiteralSteps::literals))]
#[inline(never)]
pub fn conjoin(
    alloc: Global,
    left: Result<Filter, FilterError>,
    right: Result<Filter, FilterError>,
) -> Result<Filter, FilterError>
    ensures made { OfParts (λ f g. Makes (both (formula f) (formula g)) result)
        (λ e. result ≡ Err e) left right }
    ensures literals { OfParts
        (λ f g. IfOk result (λ h. literals_of h ≡ literals_of f ++ literals_of g))
        (λ e. result ≡ Err e) left right }
{
    match parts(left, right) {
        Ok((left, right)) => Filter::and(alloc, left, right),
        Err(cause) => Err(cause),
    }
}

/// One part or the other, if both were made; else the refusal of the first that was not.
#[tactic(auto, using(crate::proofs::Steps::shown, crate::proofs::LiteralSteps::literals))]
#[inline(never)]
pub fn disjoin(
    alloc: Global,
    left: Result<Filter, FilterError>,
    right: Result<Filter, FilterError>,
) -> Result<Filter, FilterError>
    ensures made { OfParts (λ f g. Makes (either (formula f) (formula g)) result)
        (λ e. result ≡ Err e) left right }
    ensures literals { OfParts
        (λ f g. IfOk result (λ h. literals_of h ≡ literals_of f ++ literals_of g))
        (λ e. result ≡ Err e) left right }
{
    match parts(left, right) {
        Ok((left, right)) => Filter::or(alloc, left, right),
        Err(cause) => Err(cause),
    }
}

/// The part negated, if it was made.
#[tactic(auto, using(crate::proofs::Steps::shown, crate::proofs::LiteralSteps::literals))]
#[inline(never)]
pub fn negate(alloc: Global, inner: Result<Filter, FilterError>) -> Result<Filter, FilterError>
    ensures made { MatchResult inner
        (λ f. Makes (negation (formula f)) result)
        (λ e. result ≡ Err e) }
    ensures literals { MatchResult inner
        (λ f. IfOk result (λ h. literals_of h ≡ literals_of f))
        (λ e. result ≡ Err e) }
{
    match inner {
        Ok(inner) => Filter::not(alloc, inner),
        Err(cause) => Err(cause),
    }
}

/// Both parts, if both were made; else the refusal of the first that was not.
fn parts(
    left: Result<Filter, FilterError>,
    right: Result<Filter, FilterError>,
) -> Result<(Filter, Filter), FilterError>
    ensures { OfParts (λ f g. result ≡ Ok (f, g)) (λ e. result ≡ Err e) left right }
{
    match left {
        Ok(left) => match right {
            Ok(right) => Ok((left, right)),
            Err(cause) => {
                drop(left);
                Err(cause)
            }
        },
        Err(cause) => {
            drop(right);
            Err(cause)
        }
    }
}

/// Both in boxes.
fn boxed_both(
    alloc: Global,
    left: Filter,
    right: Filter,
) -> Result<(Box<Filter>, Box<Filter>), FilterError>
    ensures { MatchResult result
        (λ boxes. (boxes.0.value ≡ left) × (boxes.1.value ≡ right))
        (λ e. e ≡ OutOfMemory) }
{
    match boxed(alloc, left) {
        Ok(left) => match boxed(alloc, right) {
            Ok(right) => Ok((left, right)),
            Err(cause) => {
                drop(left);
                Err(cause)
            }
        },
        Err(cause) => {
            drop(right);
            Err(cause)
        }
    }
}

fn boxed(alloc: Global, filter: Filter) -> Result<Box<Filter>, FilterError>
    ensures { MatchResult result (λ made. made.value ≡ filter) (λ e. e ≡ OutOfMemory) }
{
    Ok(Box::new(alloc, filter)?)
}

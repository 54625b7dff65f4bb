//! What a filter asks of members.

ghost use Rattle.std.specs.Prelude.{◌≡◌, IfOk, map};
ghost use Rattle.filter_membership.specs.Words.{asked, asked_by, cell_of, formula, literal_hash, predicate_tree, one_of};

use crate::predicate::MembershipPredicate;
use std::alloc::{AllocError, Global};
use std::slice;
use value_membership::hash_value;
use vortex_filter::{CompareOperator, Filter};
use vortex_row::RowError;
use vortex_value::{Scalar, ScalarRef};

impl MembershipPredicate {
    /// What a filter asks of the members of its columns. It only borrows the filter.
    pub fn new(alloc: Global, filter: &Filter) -> Result<MembershipPredicate, AllocError>
        ensures { IfOk result (λ predicate. predicate_tree predicate ≡ asked (formula filter.now)) }
    {
        let mut key = Vec::new(alloc);
        predicate_of(alloc, filter, &mut key)
    }
}

/// What a filter asks. The buffer is for keys.
#[tactic(auto, using(crate::proofs::Steps::shown, vortex_filter::proofs::Steps::shown))]
fn predicate_of(
    alloc: Global,
    filter: &Filter,
    key: &mut Vec<u8>,
) -> Result<MembershipPredicate, AllocError>
    ensures { IfOk result (λ predicate. predicate_tree predicate ≡ asked (formula filter.now)) }
{
    match filter {
        Filter::Constant(truth) => Ok(MembershipPredicate::Constant(*truth)),
        Filter::Compare {
            column,
            operator,
            literal,
        } => predicate_of_comparison(alloc, *column, *operator, literal, key),
        Filter::In { column, literals } => one_of(alloc, *column, literals, key),
        Filter::And(left, right) => {
            let left = Box::new(alloc, predicate_of(alloc, left, key)?)?;
            let right = Box::new(alloc, predicate_of(alloc, right, key)?)?;
            Ok(MembershipPredicate::And(left, right))
        }
        Filter::Or(left, right) => {
            let left = Box::new(alloc, predicate_of(alloc, left, key)?)?;
            let right = Box::new(alloc, predicate_of(alloc, right, key)?)?;
            Ok(MembershipPredicate::Or(left, right))
        }
        Filter::Not(inner) => {
            let inner = Box::new(alloc, predicate_of(alloc, inner, key)?)?;
            Ok(MembershipPredicate::Not(inner))
        }
        _ => Ok(MembershipPredicate::Open),
    }
}

/// What a comparison asks.
#[tactic(auto, using(crate::proofs::Steps::shown))]
fn predicate_of_comparison(
    alloc: Global,
    column: usize,
    operator: CompareOperator,
    literal: &Scalar,
    key: &mut Vec<u8>,
) -> Result<MembershipPredicate, AllocError>
    ensures { IfOk result (λ predicate.
        predicate_tree predicate ≡ asked_by operator column (cell_of literal.now)) }
{
    match operator {
        CompareOperator::Eq => one_of(alloc, column, slice::from_ref(literal), key),
        _ => Ok(MembershipPredicate::Open),
    }
}

/// What equality with one of the literals asks.
#[tactic(auto, using(crate::proofs::Steps::shown))]
fn one_of(
    alloc: Global,
    column: usize,
    literals: &[Scalar],
    key: &mut Vec<u8>,
) -> Result<MembershipPredicate, AllocError>
    ensures { IfOk result (λ predicate.
        predicate_tree predicate ≡ one_of column (map literal_hash (map cell_of literals.now))) }
{
    let hashes = hash_literals(alloc, literals, key)?;
    Ok(MembershipPredicate::OneOf { column, hashes })
}

/// The hash of each literal.
fn hash_literals(
    alloc: Global,
    literals: &[Scalar],
    key: &mut Vec<u8>,
) -> Result<Vec<Option<u64>>, AllocError>
    ensures { IfOk result (λ hashes. hashes.items ≡ map literal_hash (map cell_of literals.now)) }
{
    let mut hashes = Vec::with_capacity(alloc, literals.len())?;
    for literal in literals {
        let hash = hash_literal(literal, key)?;
        hashes.push_reserved(hash);
    }
    Ok(hashes)
}

/// The hash of a literal; `None` if it has no key.
fn hash_literal(literal: &Scalar, key: &mut Vec<u8>) -> Result<Option<u64>, AllocError>
    ensures { IfOk result (λ hash. hash ≡ literal_hash (cell_of literal.now)) }
{
    match hash_value(ScalarRef::of(literal), key) {
        Ok(hash) => Ok(Some(hash)),
        Err(RowError::HasVariant) => Ok(None),
        Err(_) => Err(AllocError),
    }
}

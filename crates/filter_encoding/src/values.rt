//! Which literals are values of their logical types, and where the first stands that is none.

ghost use Rattle.std.specs.Prelude.{◌≡◌, ◌∷◌, ◌↔◌, ◌+◌, ◌*◌, [], IsTrue, length, map};
ghost use Rattle.std.specs.List.{AllByRecursion};
ghost use Rattle.filter_encoding.specs.Words.{FirstAmong, FirstIn, HasValues, IsLogicallyValid, IsNoValueAt, Passes};
ghost use Rattle.filter_encoding.specs.Words.{capped, cell_of, each_bytes, formula, literal_bytes, node_bytes};

use crate::types::type_length;
use like_patterns::Pattern;
use logical_scalars::logical_type_of;
use vortex_filter::{Filter, logical_value};
use vortex_row::key_length;
use vortex_value::{Scalar, ScalarRef};

/// A literal that is no value of its logical type.
#[derive(Clone, Copy)]
pub(crate) struct NoValue {
    /// The offset of its key.
    pub(crate) offset: usize,
}

/// Whether a literal of a logical type is null, or a value of it.
#[tactic(auto, using(crate::proofs::ValueLaws::scalars))]
pub(crate) fn is_logically_valid(literal: &Scalar) -> bool
    ensures { IsTrue result ↔ IsLogicallyValid (cell_of literal.now) }
{
    let Some(_) = logical_type_of(&literal.dtype) else {
        return true;
    };
    if literal.is_null() {
        return true;
    }
    match logical_value(literal) {
        Some(_) => true,
        None => false,
    }
}

/// The offset behind a literal, which is a value of its logical type if it has one.
fn behind_literal(literal: &Scalar, offset: usize) -> Result<usize, NoValue>
    ensures { Passes (IsLogicallyValid (cell_of literal.now))
        (length (literal_bytes (cell_of literal.now))) offset
        (IsNoValueAt (cell_of literal.now)) result }
{
    let key = offset.saturating_add(type_length(&literal.dtype));
    if !is_logically_valid(literal) {
        return Err(NoValue { offset: key });
    }
    Ok(key.saturating_add(key_length(ScalarRef::of(literal))))
}

/// The offset behind two literals, which are so.
fn behind_two(first: &Scalar, second: &Scalar, offset: usize) -> Result<usize, NoValue>
    ensures { Passes (IsLogicallyValid (cell_of first.now) × IsLogicallyValid (cell_of second.now))
        (length (each_bytes literal_bytes (cell_of first.now ∷ cell_of second.now ∷ []))) offset
        (FirstAmong (cell_of first.now ∷ cell_of second.now ∷ [])) result }
{
    let middle = behind_literal(first, offset)?;
    behind_literal(second, middle)
}

/// The offset behind literals one after another, which are so.
fn behind_literals(literals: &[Scalar], offset: usize) -> Result<usize, NoValue>
    ensures { Passes (AllByRecursion IsLogicallyValid (map cell_of literals.now))
        (length (each_bytes literal_bytes (map cell_of literals.now))) offset
        (FirstAmong (map cell_of literals.now)) result }
{
    let mut end = offset;
    for literal in literals {
        end = behind_literal(literal, end)?;
    }
    Ok(end)
}

/// The offset behind a pattern, of whose parts each has three bytes.
fn behind_pattern(pattern: &Pattern, offset: usize) -> usize
    ensures { result ≡ capped (offset + 3 * length pattern.now) }
{
    offset.saturating_add(pattern.count_parts().saturating_mul(3))
}

/// The offset behind a filter, whose literals are so.
pub(crate) fn behind_filter(filter: &Filter, offset: usize) -> Result<usize, NoValue>
    ensures { Passes (HasValues (formula filter.now)) (length (node_bytes (formula filter.now)))
        offset (FirstIn (formula filter.now)) result }
{
    match filter {
        Filter::Constant(_) => Ok(offset.saturating_add(1)),
        Filter::Compare { literal, .. } => behind_literal(literal, offset.saturating_add(9)),
        Filter::IsNull { .. } => Ok(offset.saturating_add(9)),
        Filter::In { literals, .. } => behind_literals(literals, offset.saturating_add(17)),
        Filter::Between { lower, upper, .. } => behind_two(lower, upper, offset.saturating_add(9)),
        Filter::StartsWith { prefix, .. } => behind_literal(prefix, offset.saturating_add(9)),
        Filter::Like { pattern, .. } => Ok(behind_pattern(pattern, offset.saturating_add(18))),
        Filter::And(left, right) => {
            let middle = behind_filter(left, offset.saturating_add(1))?;
            behind_filter(right, middle)
        }
        Filter::Or(one, other) => {
            let middle = behind_filter(one, offset.saturating_add(1))?;
            behind_filter(other, middle)
        }
        Filter::Not(inner) => behind_filter(inner, offset.saturating_add(1)),
    }
}

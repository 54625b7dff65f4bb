//! Tests of a column with literals, by where these stand among the values of its type.

ghost use Rattle.std.specs.Prelude.{◌≡◌, ◌≢◌, ◌⊎◌, ◌∷◌, ◌++◌, [], IfErr, IfOk, IfSome, map, option_map};
ghost use Rattle.vortex_filter.specs.FilterLiterals.{literals_of};
ghost use Rattle.vortex_filter.specs.Positions.{cells_of, compared_scalars, comparison_above, comparison_of, exactly};
ghost use Rattle.vortex_filter.specs.Positions.{for_values, member_of, position_tree, prefix_of, range_of, scalars_at};
ghost use Rattle.vortex_filter.specs.Positions.{scalars_below, scalars_of};
ghost use Rattle.vortex_filter.specs.Words.{OutOfMemory, both, cell_of, formula};

use crate::error::FilterError;
use crate::filter::Filter;
use crate::literals::Position;
use crate::operator::CompareOperator;
use crate::truth::Truth;
use std::alloc::Global;
use vortex_value::Scalar;

/// A filter with one truth for each value of the column, and Unknown for a null.
#[tactic(auto, using(crate::proofs::Steps::shown, crate::proofs::LiteralSteps::literals))]
fn for_values(alloc: Global, holds: bool, column: usize) -> Result<Filter, FilterError>
    ensures made { IfOk result (λ f. formula f ≡ for_values holds column) }
    ensures literals { IfOk result (λ f. literals_of f ≡ []) }
    ensures refused { IfErr result (λ e. e ≡ OutOfMemory) }
{
    let is_null = Filter::IsNull { column };
    let unknown = Filter::Constant(Truth::Unknown);
    if holds {
        let is_value = Filter::not(alloc, is_null)?;
        Filter::or(alloc, is_value, unknown)
    } else {
        Filter::and(alloc, is_null, unknown)
    }
}

/// How the column stands to a literal. To a number that its type lacks, each value stands the same, or
/// those up to one value and those behind it.
///
/// `OutOfMemory` is its only refusal, and comes only where each value stands the same.
#[tactic(auto, using(crate::proofs::Steps::shown, crate::proofs::LiteralSteps::literals))]
pub fn comparison_of(
    alloc: Global,
    column: usize,
    operator: CompareOperator,
    literal: Position,
) -> Result<Filter, FilterError>
    ensures made { IfOk result (λ f.
        formula f ≡ comparison_of column operator (position_tree literal)) }
    ensures literals { IfOk result (λ f. literals_of f ≡ compared_scalars operator literal) }
    ensures refused { IfErr result (λ e. (e ≡ OutOfMemory) × (compared_scalars operator literal ≡ [])) }
{
    match literal {
        Position::Exactly(literal) => Ok(Filter::Compare {
            column,
            operator,
            literal,
        }),
        Position::JustAbove(value) => comparison_above(alloc, column, operator, value),
        Position::Lacking(order) => for_values(alloc, operator.holds(order), column),
    }
}

/// How the column stands to what lies between a value and the next: no value is equal to it.
#[tactic(auto, using(crate::proofs::Steps::shown, crate::proofs::LiteralSteps::literals))]
fn comparison_above(
    alloc: Global,
    column: usize,
    operator: CompareOperator,
    value: Scalar,
) -> Result<Filter, FilterError>
    ensures made { IfOk result (λ f.
        formula f ≡ comparison_above column operator (cell_of value)) }
    ensures literals { IfOk result (λ f. literals_of f ≡ scalars_below operator value) }
    ensures refused { IfErr result (λ e. (e ≡ OutOfMemory) × (scalars_below operator value ≡ [])) }
{
    match operator {
        CompareOperator::Eq => {
            drop(value);
            for_values(alloc, false, column)
        }
        CompareOperator::NotEq => {
            drop(value);
            for_values(alloc, true, column)
        }
        CompareOperator::Gt | CompareOperator::Gte => Ok(Filter::Compare {
            column,
            operator: CompareOperator::Gt,
            literal: value,
        }),
        CompareOperator::Lt | CompareOperator::Lte => Ok(Filter::Compare {
            column,
            operator: CompareOperator::Lte,
            literal: value,
        }),
    }
}

/// Whether the column lies between the literals. If its type lacks one of them, it is two
/// comparisons.
///
/// `OutOfMemory` is its only refusal, and comes only if its type lacks one of them.
pub fn range_of(
    alloc: Global,
    column: usize,
    lower: Position,
    upper: Position,
) -> Result<Filter, FilterError>
    ensures made { IfOk result (λ f.
        formula f ≡ range_of column (position_tree lower) (position_tree upper)) }
    ensures literals { IfOk result (λ f. literals_of f
        ≡ compared_scalars CompareOperator.Gte lower ++ compared_scalars CompareOperator.Lte upper) }
    ensures refused { IfErr result (λ e. (e ≡ OutOfMemory)
        × ((scalars_at lower ≡ []) ⊎ (scalars_at upper ≡ []))) }
{
    match lower {
        Position::Exactly(lower) => range_from(alloc, column, lower, upper),
        Position::JustAbove(value) => halves(alloc, column, Position::JustAbove(value), upper),
        Position::Lacking(order) => halves(alloc, column, Position::Lacking(order), upper),
    }
}

/// Whether the column lies between a value and the literal.
#[tactic(auto, using(crate::proofs::Steps::shown, crate::proofs::LiteralSteps::literals))]
fn range_from(
    alloc: Global,
    column: usize,
    lower: Scalar,
    upper: Position,
) -> Result<Filter, FilterError>
    ensures made { IfOk result (λ f.
        formula f ≡ range_of column (exactly (cell_of lower)) (position_tree upper)) }
    ensures literals { IfOk result (λ f.
        literals_of f ≡ lower ∷ compared_scalars CompareOperator.Lte upper) }
    ensures refused { IfErr result (λ e. (e ≡ OutOfMemory) × (scalars_at upper ≡ [])) }
{
    match upper {
        Position::Exactly(upper) => Ok(Filter::Between {
            column,
            lower,
            upper,
        }),
        Position::JustAbove(value) => halves(
            alloc,
            column,
            Position::Exactly(lower),
            Position::JustAbove(value),
        ),
        Position::Lacking(order) => halves(
            alloc,
            column,
            Position::Exactly(lower),
            Position::Lacking(order),
        ),
    }
}

/// Not below the one literal and not above the other.
fn halves(
    alloc: Global,
    column: usize,
    lower: Position,
    upper: Position,
) -> Result<Filter, FilterError>
    ensures made { IfOk result (λ f. formula f
        ≡ both (comparison_of column CompareOperator.Gte (position_tree lower))
        (comparison_of column CompareOperator.Lte (position_tree upper))) }
    ensures literals { IfOk result (λ f. literals_of f
        ≡ compared_scalars CompareOperator.Gte lower ++ compared_scalars CompareOperator.Lte upper) }
    ensures refused { IfErr result (λ e. e ≡ OutOfMemory) }
{
    let lower = comparison_of(alloc, column, CompareOperator::Gte, lower)?;
    let upper = comparison_of(alloc, column, CompareOperator::Lte, upper)?;
    Filter::and(alloc, lower, upper)
}

/// Whether the column is one of several literals, of which its type has these. Of none: the same for
/// each value.
///
/// `OutOfMemory` is its only refusal, and comes only of none.
#[tactic(auto, using(crate::proofs::Steps::shown, crate::proofs::LiteralSteps::literals))]
pub fn member_of(alloc: Global, column: usize, literals: Vec<Scalar>) -> Result<Filter, FilterError>
    ensures made { IfOk result (λ f. formula f
        ≡ member_of column (map cell_of literals.items)) }
    ensures literals { IfOk result (λ f. literals_of f ≡ literals.items) }
    ensures refused { IfErr result (λ e. (e ≡ OutOfMemory) × (literals.items ≡ [])) }
{
    if literals.is_empty() {
        drop(literals);
        return for_values(alloc, false, column);
    }
    Ok(Filter::In { column, literals })
}

/// The literals with one more, if the type has it.
///
/// `OutOfMemory` is its only refusal, and comes only for one more.
pub fn with_position(
    mut literals: Vec<Scalar>,
    position: Position,
) -> Result<Vec<Scalar>, FilterError>
    ensures made { IfOk result (λ v. map cell_of v.items
        ≡ map cell_of literals.items ++ cells_of (position_tree position ∷ [])) }
    ensures literals { IfOk result (λ v. v.items ≡ literals.items ++ scalars_at position) }
    ensures refused { IfErr result (λ e. (e ≡ OutOfMemory) × (scalars_at position ≢ [])) }
{
    match position {
        Position::Exactly(literal) => {
            literals.push(literal)?;
            Ok(literals)
        }
        Position::JustAbove(_) | Position::Lacking(_) => Ok(literals),
    }
}

/// Whether the column begins with the literal. `None` if its type lacks this.
#[tactic(auto, using(crate::proofs::Steps::shown, crate::proofs::LiteralSteps::literals))]
pub fn prefix_of(column: usize, literal: Position) -> Option<Filter>
    ensures made { option_map formula result ≡ prefix_of column (position_tree literal) }
    ensures literals { IfSome result (λ f. literals_of f ≡ scalars_of literal) }
{
    match literal {
        Position::Exactly(prefix) => Some(Filter::StartsWith { column, prefix }),
        Position::JustAbove(_) | Position::Lacking(_) => None,
    }
}

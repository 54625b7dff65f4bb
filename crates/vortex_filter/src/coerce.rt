//! A filter with its literals cast to the types of the columns.

ghost use Rattle.std.specs.Prelude.{◌≡◌, ◌≢◌, ◌⊎◌, ◌↔◌, ◌∷◌, [], false, IfErr, IfOk, IsTrue, List, OnOk, map};
ghost use Rattle.vortex_filter.specs.CoerceMemory.{AsksAmong, AsksIn, IsCopied, MayRunOut, RunsOutOnly, list_task};
ghost use Rattle.vortex_filter.specs.CoerceMemory.{tasks_of, test_task};
ghost use Rattle.vortex_filter.specs.Coerces.{Coerces, CoercesLiteral, CoercesLiterals, CoercesTest, GivesOrdered};
ghost use Rattle.vortex_filter.specs.Coerces.{integer_in, lacking_of, lacking_order, number_in, number_lacking};
ghost use Rattle.vortex_filter.specs.Coercing.{IsCoercible, coerced, coerced_cell, lacks, position_in};
ghost use Rattle.vortex_filter.specs.Checking.{AllFit, asks, beginning, comparing, matching, nothing};
ghost use Rattle.vortex_filter.specs.Extensions.{reinterprets};
ghost use Rattle.vortex_filter.specs.FilterLiterals.{AreValid, literal_tests, literals_of};
ghost use Rattle.vortex_filter.specs.Positions.{comparison_of, member_among, range_of};
ghost use Rattle.vortex_filter.specs.Rows.{IsRowOf, content_truth};
ghost use Rattle.vortex_filter.specs.Words.{Cell, FitsColumns, IsValid, OutOfMemory, RefusesFirst, cell_of, comparison};
ghost use Rattle.vortex_filter.specs.Words.{formula, membership, null_test};
ghost use Rattle.vortex_filter.specs.Words.{pattern_test, prefix_test, range, same_type};
ghost use Rattle.vortex_filter.specs.Words.{scalar_content, scalar_type, truth, type_of};

use crate::building::{conjoin, disjoin, negate};
use crate::check::{behind, holds_strings, is_of_type, type_at};
use crate::copies::{copy_pattern_test, copy_scalar};
use crate::error::FilterError;
use crate::extensions::reinterprets;
use crate::filter::Filter;
use crate::literals::{Position, nullable};
use crate::operator::CompareOperator;
use crate::positions::{comparison_of, member_of, prefix_of, range_of, with_position};
use like_patterns::{Case, Pattern};
use std::alloc::Global;
use std::cmp::Ordering;
use vortex_cells::has_variant;
use vortex_dtype::laws::nullable_is_the_same;
use vortex_dtype::{DType, PType, VortexError};
use vortex_pvalue::PValue;
use vortex_value::{Scalar, ScalarValue};

impl Filter {
    /// The filter with each literal cast to the type of its column, made nullable. A literal that
    /// is of the type up to nullability is copied as it is.
    ///
    /// A test with an integer that the column's integer type lacks becomes what it is: the same for
    /// each value of the column, and Unknown for a null. From an `In` such literals are left out. Of
    /// rows whose cells are of the columns' types the result says what the filter says by contents
    /// alone. A filter that passes `check` is copied with the same contents.
    ///
    /// It is refused for the first test, in reading order, with a literal that cannot be cast, or
    /// whose column is not there or has values without an order. A literal of another type than the
    /// column's that is not valid for its own counts as one that cannot be cast, and so does one whose
    /// cast would take what stores the value of an extension for the value, or the other way round: 10
    /// is not the float that 10 stores. Of valid literals it makes valid ones.
    ///
    /// `OutOfMemory` comes only where memory is asked for before a test is refused: for the copy or the
    /// cast of a literal, for a list of literals, or for the parts of a connective. It is the only
    /// refusal of a filter that passes `check`.
    ///
    /// It borrows the filter: casts are new scalars anyway, and so nothing is lost if it is refused.
    pub fn coerce(&self, alloc: Global, columns: &[DType]) -> Result<Filter, FilterError>
        ensures value { IfOk result (λ made.
            formula made ≡ coerced (map type_of columns.now) (formula self.now)) }
        ensures fits { IfOk result (λ made.
            FitsColumns (map type_of columns.now) (formula made)) }
        ensures same { IfOk result (λ made. (row : List Cell)
            → IsRowOf (map type_of columns.now) row
            → truth (formula made) row ≡ content_truth (formula self.now) row) }
        ensures unchanged { FitsColumns (map type_of columns.now) (formula self.now)
            → IfOk result (λ made. formula made ≡ formula self.now) }
        ensures fitting { FitsColumns (map type_of columns.now) (formula self.now)
            → IfErr result (λ e. e ≡ OutOfMemory) }
        ensures valid { AreValid (literals_of self.now) → IfOk result (λ made.
            AreValid (literals_of made)) }
        ensures only { OnOk result
            (AllFit IsCoercible (map type_of columns.now) (literal_tests self.now)) }
        ensures refused { IfErr result (λ e. (e ≡ OutOfMemory)
            ⊎ RefusesFirst IsCoercible (map type_of columns.now) (literal_tests self.now) e) }
        ensures memory { IfErr result (λ e. e ≡ OutOfMemory
            → MayRunOut (map type_of columns.now) (tasks_of self.now)) }
    {
        nullable_is_the_same();
        coerce_filter(alloc, self, columns)
    }
}

#[tactic(auto, using(crate::proofs::CoerceSteps::shown, crate::proofs::CoerceMemorySteps::tasks))]
fn coerce_filter(alloc: Global, filter: &Filter, columns: &[DType]) -> Result<Filter, FilterError>
    ensures made { Coerces (map type_of columns.now) (formula filter.now)
        (literal_tests filter.now) (literals_of filter.now) result }
    ensures asked { RunsOutOnly (map type_of columns.now) (tasks_of filter.now) result }
{
    match filter {
        Filter::Constant(truth) => Ok(Filter::Constant(*truth)),
        Filter::Compare {
            column,
            operator,
            literal,
        } => coerce_comparison(alloc, *column, *operator, literal, columns),
        Filter::IsNull { column } => coerce_null_test(*column, columns),
        Filter::In { column, literals } => coerce_membership(alloc, *column, literals, columns),
        Filter::Between {
            column,
            lower,
            upper,
        } => coerce_range(alloc, *column, lower, upper, columns),
        Filter::StartsWith { column, prefix } => coerce_prefix(alloc, *column, prefix, columns),
        Filter::Like {
            column,
            pattern,
            case,
        } => coerce_pattern_test(alloc, *column, pattern, *case, columns),
        Filter::And(left, right) => {
            let first = coerce_filter(alloc, left, columns);
            let second = behind(left, coerce_filter(alloc, right, columns));
            conjoin(alloc, first, second)
        }
        Filter::Or(left, right) => {
            let first = coerce_filter(alloc, left, columns);
            let second = behind(left, coerce_filter(alloc, right, columns));
            disjoin(alloc, first, second)
        }
        Filter::Not(inner) => negate(alloc, coerce_filter(alloc, inner, columns)),
    }
}

// ---- tests

// Each is a call of its own, so that what it needs on the stack is not taken again at each level of a
// filter.

#[tactic(auto, using(crate::proofs::CoerceSteps::columns, crate::proofs::CoerceMemorySteps::refusals))]
#[inline(never)]
fn coerce_null_test(column: usize, columns: &[DType]) -> Result<Filter, FilterError>
    ensures made { Coerces (map type_of columns.now) (null_test column) (asks column nothing) [] result }
    ensures asked { RunsOutOnly (map type_of columns.now) (test_task column nothing ∷ []) result }
{
    match type_at(column, columns) {
        Some(_) => Ok(Filter::IsNull { column }),
        None => Err(FilterError::NoColumn { test: 0, column }),
    }
}

#[tactic(auto, using(crate::proofs::CoerceSteps::columns, crate::proofs::CoerceMemorySteps::refusals))]
#[inline(never)]
fn coerce_comparison(
    alloc: Global,
    column: usize,
    operator: CompareOperator,
    literal: &Scalar,
    columns: &[DType],
) -> Result<Filter, FilterError>
    ensures made { Coerces (map type_of columns.now)
        (comparison column operator (cell_of literal.now))
        (asks column (comparing (literal.now ∷ []))) (literal.now ∷ []) result }
    ensures asked { RunsOutOnly (map type_of columns.now)
        (test_task column (comparing (literal.now ∷ [])) ∷ []) result }
{
    match ordered_type(column, columns) {
        Ok(dtype) => comparison_in(alloc, dtype, column, operator, literal),
        Err(cause) => Err(cause),
    }
}

#[tactic(auto, using(crate::proofs::CoerceSteps::columns, crate::proofs::CoerceMemorySteps::refusals))]
#[inline(never)]
fn coerce_membership(
    alloc: Global,
    column: usize,
    literals: &[Scalar],
    columns: &[DType],
) -> Result<Filter, FilterError>
    ensures made { Coerces (map type_of columns.now)
        (membership column (map cell_of literals.now))
        (asks column (comparing literals.now)) literals.now result }
    ensures asked { RunsOutOnly (map type_of columns.now) (list_task column literals.now ∷ []) result }
{
    match ordered_type(column, columns) {
        Ok(dtype) => membership_in(alloc, dtype, column, literals),
        Err(cause) => Err(cause),
    }
}

#[tactic(auto, using(crate::proofs::CoerceSteps::columns, crate::proofs::CoerceMemorySteps::refusals))]
#[inline(never)]
fn coerce_range(
    alloc: Global,
    column: usize,
    lower: &Scalar,
    upper: &Scalar,
    columns: &[DType],
) -> Result<Filter, FilterError>
    ensures made { Coerces (map type_of columns.now)
        (range column (cell_of lower.now) (cell_of upper.now))
        (asks column (comparing (lower.now ∷ upper.now ∷ []))) (lower.now ∷ upper.now ∷ []) result }
    ensures asked { RunsOutOnly (map type_of columns.now)
        (test_task column (comparing (lower.now ∷ upper.now ∷ [])) ∷ []) result }
{
    match ordered_type(column, columns) {
        Ok(dtype) => range_in(alloc, dtype, column, lower, upper),
        Err(cause) => Err(cause),
    }
}

#[tactic(auto, using(crate::proofs::CoerceSteps::columns, crate::proofs::CoerceMemorySteps::refusals))]
#[inline(never)]
fn coerce_prefix(
    alloc: Global,
    column: usize,
    prefix: &Scalar,
    columns: &[DType],
) -> Result<Filter, FilterError>
    ensures made { Coerces (map type_of columns.now)
        (prefix_test column (cell_of prefix.now))
        (asks column (beginning prefix.now)) (prefix.now ∷ []) result }
    ensures asked { RunsOutOnly (map type_of columns.now)
        (test_task column (beginning prefix.now) ∷ []) result }
{
    match ordered_type(column, columns) {
        Ok(dtype) => prefix_in(alloc, dtype, column, prefix),
        Err(cause) => Err(cause),
    }
}

#[tactic(auto, using(crate::proofs::CoerceSteps::columns, crate::proofs::CoerceMemorySteps::refusals))]
#[inline(never)]
fn coerce_pattern_test(
    alloc: Global,
    column: usize,
    pattern: &Pattern,
    case: Case,
    columns: &[DType],
) -> Result<Filter, FilterError>
    ensures made { Coerces (map type_of columns.now)
        (pattern_test column case pattern.now) (asks column matching) [] result }
    ensures asked { RunsOutOnly (map type_of columns.now) (test_task column matching ∷ []) result }
{
    match ordered_type(column, columns) {
        Ok(dtype) => pattern_test_in(alloc, dtype, column, pattern, case),
        Err(cause) => Err(cause),
    }
}

/// The type of a column whose values have an order.
#[tactic(auto, using(crate::proofs::CoerceSteps::variants))]
fn ordered_type(column: usize, columns: &[DType]) -> Result<&DType, FilterError>
    ensures { GivesOrdered (map type_of columns.now) column result }
{
    let Some(dtype) = type_at(column, columns) else {
        return Err(FilterError::NoColumn { test: 0, column });
    };
    if has_variant(dtype) {
        return Err(FilterError::HasVariant { test: 0, column });
    }
    Ok(dtype)
}

// ---- tests of a column of a type

fn comparison_in(
    alloc: Global,
    dtype: &DType,
    column: usize,
    operator: CompareOperator,
    literal: &Scalar,
) -> Result<Filter, FilterError>
    ensures made { CoercesTest (type_of dtype.now) (comparing (literal.now ∷ []))
        (comparison_of column operator (position_in (type_of dtype.now) (cell_of literal.now)))
        (literal.now ∷ []) column result }
    ensures asked { IfErr result (λ e. e ≡ OutOfMemory
        → AsksAmong (type_of dtype.now) (literal.now ∷ [])) }
{
    match position_in(alloc, dtype, column, literal) {
        Ok(position) => comparison_of(alloc, column, operator, position),
        Err(cause) => Err(cause),
    }
}

fn membership_in(
    alloc: Global,
    dtype: &DType,
    column: usize,
    literals: &[Scalar],
) -> Result<Filter, FilterError>
    ensures made { CoercesTest (type_of dtype.now) (comparing literals.now)
        (member_among column (map (position_in (type_of dtype.now)) (map cell_of literals.now)))
        literals.now column result }
    ensures asked { IfErr result (λ e. e ≡ OutOfMemory → literals.now ≢ []) }
{
    if literals.is_empty() {
        return Ok(Filter::In {
            column,
            literals: Vec::new(alloc),
        });
    }
    match kept_literals(alloc, dtype, column, literals) {
        Ok(kept) => member_of(alloc, column, kept),
        Err(cause) => Err(cause),
    }
}

fn range_in(
    alloc: Global,
    dtype: &DType,
    column: usize,
    lower: &Scalar,
    upper: &Scalar,
) -> Result<Filter, FilterError>
    ensures made { CoercesTest (type_of dtype.now)
        (comparing (lower.now ∷ upper.now ∷ []))
        (range_of column (position_in (type_of dtype.now) (cell_of lower.now))
        (position_in (type_of dtype.now) (cell_of upper.now)))
        (lower.now ∷ upper.now ∷ []) column result }
    ensures asked { IfErr result (λ e. e ≡ OutOfMemory
        → AsksAmong (type_of dtype.now) (lower.now ∷ upper.now ∷ [])) }
{
    match position_in(alloc, dtype, column, lower) {
        Ok(from) => match position_in(alloc, dtype, column, upper) {
            Ok(to) => range_of(alloc, column, from, to),
            Err(cause) => {
                drop(from);
                Err(cause)
            }
        },
        Err(cause) => Err(cause),
    }
}

#[tactic(auto, using(crate::proofs::CoerceSteps::prefixes, crate::proofs::CoerceMemorySteps::refusals))]
fn prefix_in(
    alloc: Global,
    dtype: &DType,
    column: usize,
    prefix: &Scalar,
) -> Result<Filter, FilterError>
    ensures made { CoercesTest (type_of dtype.now) (beginning prefix.now)
        (prefix_test column (coerced_cell (type_of dtype.now) (cell_of prefix.now)))
        (prefix.now ∷ []) column result }
    ensures asked { IfErr result (λ e. e ≡ OutOfMemory
        → AsksIn (type_of dtype.now) (beginning prefix.now)) }
{
    if holds_strings(dtype) {
        return match position_in(alloc, dtype, column, prefix) {
            Ok(position) => match prefix_of(column, position) {
                Some(filter) => Ok(filter),
                None => Err(FilterError::TypesDiffer { test: 0, column }),
            },
            Err(cause) => Err(cause),
        };
    }
    Err(FilterError::TypesDiffer { test: 0, column })
}

fn pattern_test_in(
    alloc: Global,
    dtype: &DType,
    column: usize,
    pattern: &Pattern,
    case: Case,
) -> Result<Filter, FilterError>
    ensures made { CoercesTest (type_of dtype.now) matching
        (pattern_test column case pattern.now) [] column result }
    ensures asked { IfErr result (λ e. e ≡ OutOfMemory → AsksIn (type_of dtype.now) matching) }
{
    if dtype.is_utf8() {
        copy_pattern_test(alloc, column, pattern, case)
    } else {
        Err(FilterError::TypesDiffer { test: 0, column })
    }
}

// ---- literals

/// The literals that the type does not lack, each as one of the type.
fn kept_literals(
    alloc: Global,
    dtype: &DType,
    column: usize,
    literals: &[Scalar],
) -> Result<Vec<Scalar>, FilterError>
    ensures { CoercesLiterals (type_of dtype.now) literals.now column result }
{
    let mut kept = Vec::with_capacity(alloc, literals.len())?;
    for literal in literals {
        let position = position_in(alloc, dtype, column, literal)?;
        kept = with_position(kept, position)?;
    }
    Ok(kept)
}

/// Where a literal stands among the values of the type: at a copy if it is of the type up to
/// nullability, at a number that the type lacks, or else at its cast.
#[tactic(auto, using(crate::proofs::CoerceSteps::positions, crate::proofs::CoerceMemorySteps::refusals))]
fn position_in(
    alloc: Global,
    dtype: &DType,
    column: usize,
    literal: &Scalar,
) -> Result<Position, FilterError>
    ensures made { CoercesLiteral (type_of dtype.now) literal.now column result }
    ensures asked { IfErr result (λ e. e ≡ OutOfMemory → IsCopied (type_of dtype.now) literal.now) }
{
    if is_of_type(literal, dtype) {
        return match copy_scalar(alloc, literal) {
            Ok(copy) => Ok(Position::Exactly(copy)),
            Err(cause) => Err(cause),
        };
    }
    if !is_valid(literal) {
        return Err(FilterError::TypesDiffer { test: 0, column });
    }
    match lacking(dtype, literal) {
        Some(order) => Ok(Position::Lacking(order)),
        None => cast_or_refuse(alloc, dtype, column, literal),
    }
}

/// The cast of a valid literal to the type, made nullable, unless it takes a storage for a value or a
/// value for its storage.
#[tactic(auto, using(crate::proofs::CoerceMemorySteps::refusals))]
fn cast_or_refuse(
    alloc: Global,
    dtype: &DType,
    column: usize,
    literal: &Scalar,
) -> Result<Position, FilterError>
    requires valid { IsValid literal.now }
    requires other { same_type (type_of dtype.now) (scalar_type literal.now) ≡ false }
    requires has { lacks (type_of dtype.now) (cell_of literal.now) ≡ false }
    ensures made { CoercesLiteral (type_of dtype.now) literal.now column result }
    ensures asked { IfErr result (λ e. e ≡ OutOfMemory → IsCopied (type_of dtype.now) literal.now) }
{
    if reinterprets(literal, dtype) {
        return Err(FilterError::TypesDiffer { test: 0, column });
    }
    cast_valid(alloc, dtype, column, literal)
}

/// The cast of a valid literal to the type, made nullable.
#[tactic(auto, using(crate::proofs::CoerceSteps::casts, crate::proofs::CoerceMemorySteps::refusals))]
fn cast_valid(
    alloc: Global,
    dtype: &DType,
    column: usize,
    literal: &Scalar,
) -> Result<Position, FilterError>
    requires valid { IsValid literal.now }
    requires other { same_type (type_of dtype.now) (scalar_type literal.now) ≡ false }
    requires has { lacks (type_of dtype.now) (cell_of literal.now) ≡ false }
    requires keeps { reinterprets (scalar_type literal.now) (type_of dtype.now) (scalar_content literal.now) ≡ false }
    ensures made { CoercesLiteral (type_of dtype.now) literal.now column result }
    ensures asked { IfErr result (λ e. e ≡ OutOfMemory → IsCopied (type_of dtype.now) literal.now) }
{
    let target = match nullable(alloc, dtype) {
        Ok(target) => target,
        Err(cause) => return Err(cause),
    };
    match literal.cast(alloc, &target) {
        Ok(made) => {
            drop(target);
            Ok(Position::Exactly(made))
        }
        Err(cause) => {
            drop(target);
            Err(refusal(cause, column))
        }
    }
}

/// Whether the scalar is valid for its type.
fn is_valid(scalar: &Scalar) -> bool
    ensures { IsTrue result ↔ IsValid scalar.now }
{
    Scalar::is_compatible(&scalar.dtype, scalar.value.as_ref())
}

/// Why a cast was refused.
fn refusal(cause: VortexError, column: usize) -> FilterError
    ensures { ((cause ≡ VortexError.OutOfMemory) × (result ≡ OutOfMemory))
        ⊎ ((cause ≢ VortexError.OutOfMemory) × (result ≡ FilterError.TypesDiffer 0 column)) }
{
    match cause {
        VortexError::OutOfMemory => FilterError::OutOfMemory,
        other => {
            drop(other);
            FilterError::TypesDiffer { test: 0, column }
        }
    }
}

// ---- numbers that a type lacks

/// How each number of the type stands to the literal, if that is an integer which the type lacks.
#[tactic(auto, using(crate::proofs::CoerceSteps::lacking_is))]
fn lacking(dtype: &DType, literal: &Scalar) -> Option<Ordering>
    ensures { result
        ≡ lacking_order (type_of dtype.now) (scalar_type literal.now) (scalar_content literal.now) }
{
    lacking_of(
        integer_type(dtype),
        integer_type(&literal.dtype),
        number(literal),
    )
}

fn lacking_of(
    column: Option<PType>,
    literal: Option<PType>,
    number: Option<i128>,
) -> Option<Ordering>
    ensures { result ≡ lacking_of column literal number }
{
    match (column, literal, number) {
        (Some(ptype), Some(_), Some(number)) => number_lacking(ptype, number),
        _ => None,
    }
}

/// As 0 does.
#[tactic(auto, using(crate::proofs::CoerceSteps::ranges_of))]
fn number_lacking(ptype: PType, number: i128) -> Option<Ordering>
    ensures { result ≡ number_lacking ptype number }
{
    match PValue::from_whole(number, ptype) {
        Some(_) => None,
        None => Some(0i128.cmp(&number)),
    }
}

/// The integer type that it is, if it is one.
#[tactic(auto, using(crate::proofs::CoerceSteps::levels))]
fn integer_type(dtype: &DType) -> Option<PType>
    ensures { result ≡ integer_in (type_of dtype.now) }
{
    match dtype {
        DType::Primitive(ptype, _) => Some(*ptype),
        _ => None,
    }
}

/// The number that a scalar is, if it is one.
fn number(scalar: &Scalar) -> Option<i128>
    ensures { result ≡ number_in (scalar_content scalar.now) }
{
    match scalar.value() {
        Some(ScalarValue::Primitive(number)) => Some(number.whole()),
        _ => None,
    }
}

//! The encoding of a prepared filter in bytes, appended.

ghost use Rattle.std.specs.Prelude.{◌≡◌, ◌++◌, ◌+◌, ◌<◌, ◌∷◌, ◌⊎◌, [], ℕ, suc, Err, IfErr, List, MatchResult, OnErr};
ghost use Rattle.std.specs.Prelude.{OnOk, map};
ghost use Rattle.filter_encoding.specs.Patterns.{IsCase, IsPart, case_bytes, part_bytes};
ghost use Rattle.filter_encoding.specs.Words.{Appends, AreListed, AreValid, Begins, CanBeWritten, Fits, HasEncoding};
ghost use Rattle.filter_encoding.specs.Words.{IsHeldCell, IsPlainCell, IsRefused, IsWritten, Nests, NoEncoding};
ghost use Rattle.filter_encoding.specs.Words.{OutOfMemory, Writes, cell_of, count_bytes, encoding, formula};
ghost use Rattle.filter_encoding.specs.Words.{head_byte, listed, literal_bytes, literals_of, node_bytes};
ghost use Rattle.filter_encoding.specs.Words.{operator_byte, parts_of};

use crate::error::FilterEncodingError;
use crate::heads::Head;
use crate::literals::{append_literal, append_literals};
use crate::patterns::{append_case, append_pattern};
use crate::places::append_place;
use crate::types::append_types;
use crate::versions::version_of;
use like_patterns::{Case, Pattern};
use vortex_dtype::DType;
use vortex_filter::{CompareOperator, Filter};
use vortex_value::Scalar;

/// Appends the encoding of the filter over columns of these types, and nothing else.
///
/// `NoEncoding` only if a column or a literal is of a type other than integers, bool, strings,
/// bytes, nulls and extensions over these, if a literal is no value of its logical type, if a
/// variant stands in one, or if more than `depth` connectives nest. Such a filter is never written.
/// `OutOfMemory` is the only other refusal. After a refusal `out` has the bytes that it had. The
/// literals need not be valid for their types. If they are, `read_filter` reads what is written, at
/// the same depth.
pub fn append_filter(
    filter: &Filter,
    columns: &[DType],
    depth: usize,
    out: &mut Vec<u8>,
) -> Result<(), FilterEncodingError>
    ensures appended { OnOk result
        (out.new.items ≡ out.old.items ++ encoding (parts_of columns.now filter.now)) }
    ensures written { OnOk result (CanBeWritten depth (parts_of columns.now filter.now)) }
    ensures readable { OnOk result (AreValid (literals_of filter.now)
        → HasEncoding depth (parts_of columns.now filter.now)) }
    ensures no_encoding { result ≡ Err NoEncoding → ¬ (CanBeWritten depth (parts_of columns.now filter.now)) }
    ensures refused { IfErr result (λ e. (e ≡ NoEncoding) ⊎ (e ≡ OutOfMemory)) }
    ensures unchanged { OnErr result (out.new.items ≡ out.old.items) }
{
    let start = out.len();
    let appended = append_encoding(filter, columns, depth, out);
    if appended.is_err() {
        out.truncate(start);
    }
    appended
}

/// Appends the encoding. After a refusal a part of it may stand there.
fn append_encoding(
    filter: &Filter,
    columns: &[DType],
    depth: usize,
    out: &mut Vec<u8>,
) -> Result<(), FilterEncodingError>
    ensures appended { OnOk result
        (out.new.items ≡ out.old.items ++ encoding (parts_of columns.now filter.now)) }
    ensures written { OnOk result (CanBeWritten depth (parts_of columns.now filter.now)) }
    ensures readable { OnOk result (AreValid (literals_of filter.now)
        → HasEncoding depth (parts_of columns.now filter.now)) }
    ensures no_encoding { result ≡ Err NoEncoding → ¬ (CanBeWritten depth (parts_of columns.now filter.now)) }
    ensures refused { IfErr result (λ e. (e ≡ NoEncoding) ⊎ (e ≡ OutOfMemory)) }
    ensures begun { (more : List ℕ) × (out.new.items ≡ out.old.items ++ more) }
{
    append_parts(filter, columns, depth, out)
}

/// Appends the version, the types and the filter.
fn append_parts(
    filter: &Filter,
    columns: &[DType],
    depth: usize,
    out: &mut Vec<u8>,
) -> Result<(), FilterEncodingError>
    ensures { Appends (IsWritten depth (parts_of columns.now filter.now))
        (CanBeWritten depth (parts_of columns.now filter.now))
        (encoding (parts_of columns.now filter.now)) result out.old.items out.new.items }
{
    append_byte(version_of(filter, columns), out)?;
    append_types(columns, out)?;
    append_node(filter, depth, out)
}

/// Appends these bytes.
pub(crate) fn append_all(bytes: &[u8], out: &mut Vec<u8>) -> Result<(), FilterEncodingError>
    ensures { Writes (Unit {0}) bytes.now result out.old.items out.new.items }
{
    out.extend_from_slice(bytes)?;
    Ok(())
}

/// Appends this byte.
pub(crate) fn append_byte(byte: u8, out: &mut Vec<u8>) -> Result<(), FilterEncodingError>
    ensures { Writes (Unit {0}) (byte ∷ []) result out.old.items out.new.items }
{
    append_all(&[byte], out)
}

/// Appends a filter in which at most so many connectives nest.
fn append_node(filter: &Filter, depth: usize, out: &mut Vec<u8>) -> Result<(), FilterEncodingError>
    ensures { Appends (Nests IsHeldCell depth (formula filter.now))
        (Nests IsPlainCell depth (formula filter.now))
        (node_bytes (formula filter.now)) result out.old.items out.new.items }
{
    match filter {
        Filter::Constant(truth) => append_byte(Head::Constant(*truth).byte(), out),
        Filter::Compare {
            column,
            operator,
            literal,
        } => append_comparison(*column, *operator, literal, out),
        Filter::IsNull { column } => append_test(Head::IsNull, *column, out),
        Filter::In { column, literals } => append_membership(*column, literals, out),
        Filter::Between {
            column,
            lower,
            upper,
        } => append_range(*column, lower, upper, out),
        Filter::StartsWith { column, prefix } => append_prefix(*column, prefix, out),
        Filter::Like {
            column,
            pattern,
            case,
        } => append_like(*column, pattern, *case, out),
        Filter::And(left, right) => {
            let below = append_connective(Head::And, depth, out)?;
            append_node(left, below, out)?;
            append_node(right, below, out)
        }
        Filter::Or(one, other) => {
            let under = append_connective(Head::Or, depth, out)?;
            append_node(one, under, out)?;
            append_node(other, under, out)
        }
        Filter::Not(inner) => {
            let deeper = append_connective(Head::Not, depth, out)?;
            append_node(inner, deeper, out)
        }
    }
}

/// Appends the first byte of a connective, and says how many may nest in its parts. `NoEncoding`
/// exactly if it may not stand there, as `OutOfMemory` may.
fn append_connective(
    head: Head,
    depth: usize,
    out: &mut Vec<u8>,
) -> Result<usize, FilterEncodingError>
    ensures { MatchResult result
        (λ deeper. (depth ≡ suc deeper)
        × (out.new.items ≡ out.old.items ++ head_byte head ∷ []))
        (λ e. IsRefused (0 < depth) e × Begins out.old.items out.new.items) }
{
    if depth == 0 {
        return Err(FilterEncodingError::NoEncoding);
    }
    append_byte(head.byte(), out)?;
    Ok(depth - 1)
}

/// Appends the first byte of a test, and the place of its column.
fn append_test(head: Head, column: usize, out: &mut Vec<u8>) -> Result<(), FilterEncodingError>
    ensures { Writes (Fits column) (head_byte head ∷ count_bytes column)
        result out.old.items out.new.items }
{
    append_byte(head.byte(), out)?;
    append_place(column, out)
}

/// Appends a comparison.
fn append_comparison(
    column: usize,
    operator: CompareOperator,
    literal: &Scalar,
    out: &mut Vec<u8>,
) -> Result<(), FilterEncodingError>
    ensures { Appends (Fits column × IsHeldCell (cell_of literal.now))
        (Fits column × IsPlainCell (cell_of literal.now))
        (operator_byte operator ∷ (count_bytes column ++ literal_bytes (cell_of literal.now)))
        result out.old.items out.new.items }
{
    append_test(Head::Compare(operator), column, out)?;
    append_literal(literal, out)
}

/// Appends whether a cell is equal to one of the literals.
fn append_membership(
    column: usize,
    literals: &[Scalar],
    out: &mut Vec<u8>,
) -> Result<(), FilterEncodingError>
    ensures { Appends (Fits column × AreListed IsHeldCell (map cell_of literals.now))
        (Fits column × AreListed IsPlainCell (map cell_of literals.now))
        (10 ∷ (count_bytes column ++ listed literal_bytes (map cell_of literals.now)))
        result out.old.items out.new.items }
{
    append_test(Head::In, column, out)?;
    append_literals(literals, out)
}

/// Appends whether a cell is from the one literal up to the other.
fn append_range(
    column: usize,
    lower: &Scalar,
    upper: &Scalar,
    out: &mut Vec<u8>,
) -> Result<(), FilterEncodingError>
    ensures { Appends
        (Fits column × (IsHeldCell (cell_of lower.now) × IsHeldCell (cell_of upper.now)))
        (Fits column × (IsPlainCell (cell_of lower.now) × IsPlainCell (cell_of upper.now)))
        (11 ∷ (count_bytes column
        ++ (literal_bytes (cell_of lower.now) ++ literal_bytes (cell_of upper.now))))
        result out.old.items out.new.items }
{
    append_test(Head::Between, column, out)?;
    append_ends(lower, upper, out)
}

/// Appends both literals.
fn append_ends(lower: &Scalar, upper: &Scalar, out: &mut Vec<u8>) -> Result<(), FilterEncodingError>
    ensures { Appends (IsHeldCell (cell_of lower.now) × IsHeldCell (cell_of upper.now))
        (IsPlainCell (cell_of lower.now) × IsPlainCell (cell_of upper.now))
        (literal_bytes (cell_of lower.now) ++ literal_bytes (cell_of upper.now))
        result out.old.items out.new.items }
{
    append_literal(lower, out)?;
    append_literal(upper, out)
}

/// Appends whether a cell begins with the literal.
fn append_prefix(
    column: usize,
    prefix: &Scalar,
    out: &mut Vec<u8>,
) -> Result<(), FilterEncodingError>
    ensures { Appends (Fits column × IsHeldCell (cell_of prefix.now))
        (Fits column × IsPlainCell (cell_of prefix.now))
        (12 ∷ (count_bytes column ++ literal_bytes (cell_of prefix.now)))
        result out.old.items out.new.items }
{
    append_test(Head::StartsWith, column, out)?;
    append_literal(prefix, out)
}

/// Appends whether a cell matches the pattern.
fn append_like(
    column: usize,
    pattern: &Pattern,
    case: Case,
    out: &mut Vec<u8>,
) -> Result<(), FilterEncodingError>
    ensures { Writes (Fits column × (IsCase case × AreListed IsPart pattern.now))
        (16 ∷ (count_bytes column ++ (case_bytes case ++ listed part_bytes pattern.now)))
        result out.old.items out.new.items }
{
    append_test(Head::Like, column, out)?;
    append_matching(pattern, case, out)
}

/// Appends the case and the pattern.
fn append_matching(
    pattern: &Pattern,
    case: Case,
    out: &mut Vec<u8>,
) -> Result<(), FilterEncodingError>
    ensures { Writes (IsCase case × AreListed IsPart pattern.now)
        (case_bytes case ++ listed part_bytes pattern.now) result out.old.items out.new.items }
{
    append_case(case, out)?;
    append_pattern(pattern, out)
}

//! A prepared filter from its encoding in bytes.

ghost use Rattle.std.specs.Prelude.{◌≡◌, ◌≢◌, ◌∷◌, ◌⊎◌, ◌<◌, ◌≤◌, ◌^◌, ℕ, List, Err, IfErr, IfOk, MatchOption};
ghost use Rattle.std.specs.Prelude.{MatchResult};
ghost use Rattle.filter_encoding.specs.Words.{AreValid, BadBytes, HasEncoding, HasNoValue, HasValues, HasVersion};
ghost use Rattle.filter_encoding.specs.Words.{IsEncoding, IsFirstWrong, IsNoValueOf, IsNode, IsVersion, NotAValue};
ghost use Rattle.filter_encoding.specs.Words.{OutOfMemory, Prepared, Reads, ReadsAs, ReadsBehind, ReadsBoth};
ghost use Rattle.filter_encoding.specs.Words.{ReadsEncoding, encoding_in, formula, left, literals_of, node_bytes};
ghost use Rattle.filter_encoding.specs.Words.{operator_byte, prepared};
ghost use Rattle.filter_encoding.specs.declared.reader.FilterDecodeError.TheVariants.{Bad, NoMemory};

use crate::error::FilterEncodingError;
use crate::heads::{Head, read_head};
use crate::literals::{read_literal, read_literals};
use crate::patterns::{read_case, read_pattern};
use crate::places::read_place;
use crate::prepared::PreparedFilter;
use crate::reader::{FilterDecodeError, Reader};
use crate::types::{read_types, types_length};
use crate::values::behind_filter;
use crate::versions::{EXTENDED, PLAIN};
use std::alloc::Global;
use vortex_filter::{CompareOperator, Filter, both, either, negation};

/// The prepared filter that has this encoding, in either version, in which at most `depth`
/// connectives nest.
///
/// `BadBytes` if the bytes are not, whole, the encoding of such a filter: its offset is that of the
/// first byte that no such encoding has there, or of the end if they end too early. Else `NotAValue`
/// if a literal is no value of its logical type: its offset is that of the first such value.
/// `OutOfMemory` may come in place of each answer, but only if the first byte is a version: that is
/// tested before any memory is asked for. Each literal of the filter is valid for its type, and a value
/// of its logical type.
pub fn read_filter(
    alloc: Global,
    depth: usize,
    bytes: &[u8],
) -> Result<PreparedFilter, FilterEncodingError>
    ensures read { IfOk result (λ p. (version : ℕ) × IsVersion version
        × HasEncoding depth (prepared p) × (bytes.now ≡ encoding_in version (prepared p))) }
    ensures valid { IfOk result (λ p. AreValid (literals_of p.filter)) }
    ensures whole { (version : ℕ) (p : Prepared) → IsVersion version → HasEncoding depth p
        → bytes.now ≡ encoding_in version p → ReadsAs p result }
    ensures bad { (place : ℕ) → result ≡ Err (BadBytes place)
        → IsFirstWrong (IsEncoding depth) bytes.now place }
    ensures no_value { (place : ℕ) → result ≡ Err (NotAValue place) → HasNoValue depth bytes.now place }
    ensures memory { result ≡ Err OutOfMemory → HasVersion bytes.now }
    ensures refused { IfErr result (λ e. (e ≡ OutOfMemory)
        ⊎ (((place : ℕ) × (e ≡ BadBytes place)) ⊎ ((place : ℕ) × (e ≡ NotAValue place)))) }
{
    let mut reader = Reader { rest: bytes };
    let answer = read_encoding(alloc, depth, &mut reader);
    let taken = bytes.len().saturating_sub(reader.rest.len());
    match answer {
        Ok(prepared) => whole_or_bad(prepared, taken, bytes.len()),
        Err(FilterDecodeError::NoMemory) => Err(FilterEncodingError::OutOfMemory),
        Err(FilterDecodeError::Bad) => Err(FilterEncodingError::BadBytes { offset: taken }),
    }
}

/// The prepared filter, if its encoding was all of the bytes, and each literal is a value of its
/// logical type.
fn whole_or_bad(
    found: PreparedFilter,
    taken: usize,
    length: usize,
) -> Result<PreparedFilter, FilterEncodingError>
    ensures answer { MatchResult result
        (λ p. (p ≡ found) × (length ≤ taken) × HasValues (formula found.filter))
        (λ e. ((e ≡ BadBytes taken) × (taken < length))
        ⊎ ((length ≤ taken) × IsNoValueOf (prepared found) e)) }
    ensures bound { length < 2 ^ 64 }
{
    if taken < length {
        drop(found);
        return Err(FilterEncodingError::BadBytes { offset: taken });
    }
    match first_no_value(&found) {
        None => Ok(found),
        Some(offset) => {
            drop(found);
            Err(FilterEncodingError::NotAValue { offset })
        }
    }
}

/// The offset of the key of the first literal that is no value of its logical type.
fn first_no_value(found: &PreparedFilter) -> Option<usize>
    ensures { MatchOption result (HasValues (formula found.now.filter))
        (λ offset. IsNoValueOf (prepared found.now) (NotAValue offset)) }
{
    let start = types_length(&found.columns).saturating_add(1);
    match behind_filter(&found.filter, start) {
        Ok(_) => None,
        Err(none) => Some(none.offset),
    }
}

/// The prepared filter with whose encoding the bytes begin.
fn read_encoding(
    alloc: Global,
    depth: usize,
    reader: &mut Reader<'_>,
) -> Result<PreparedFilter, FilterDecodeError>
    ensures read { ReadsEncoding depth result (left reader.old) (left reader.new) }
    ensures valid { IfOk result (λ p. AreValid (literals_of p.filter)) }
    ensures memory { result ≡ Err NoMemory → HasVersion (left reader.old) }
{
    read_version(reader)?;
    let columns = read_types(alloc, reader)?;
    let filter = read_node(alloc, depth, reader)?;
    Ok(PreparedFilter { columns, filter })
}

/// Takes the version.
fn read_version(reader: &mut Reader<'_>) -> Result<(), FilterDecodeError>
    ensures { MatchResult result
        (λ _. (version : ℕ) × IsVersion version × (left reader.old ≡ version ∷ left reader.new))
        (λ e. (e ≡ Bad) × (left reader.new ≡ left reader.old)
        × ((version : ℕ) (bs : List ℕ) → IsVersion version → left reader.old ≢ version ∷ bs)) }
{
    if reader.takes(PLAIN) {
        return Ok(());
    }
    if reader.takes(EXTENDED) {
        return Ok(());
    }
    Err(FilterDecodeError::Bad)
}

/// The next filter, in which at most so many connectives nest.
#[cycle(filters)]
#[tactic(auto, using(vortex_filter::proofs::LiteralSteps::valid))]
fn read_node(
    alloc: Global,
    depth: usize,
    reader: &mut Reader<'_>,
) -> Result<Filter, FilterDecodeError>
    ensures read { Reads node_bytes (IsNode depth) formula
        result (left reader.old) (left reader.new) }
    ensures valid { IfOk result (λ f. AreValid (literals_of f)) }
{
    let head = read_head(depth, reader)?;
    match head {
        Head::Constant(truth) => Ok(Filter::Constant(truth)),
        Head::Compare(operator) => read_comparison(alloc, operator, reader),
        Head::IsNull => read_null_test(reader),
        Head::In => read_membership(alloc, reader),
        Head::Between => read_range(alloc, reader),
        Head::StartsWith => read_prefix(alloc, reader),
        Head::Like => read_like(alloc, reader),
        Head::And => {
            let (left, right) = read_parts(alloc, depth - 1, reader)?;
            Ok(both(left, right))
        }
        Head::Or => {
            let (one, other) = read_parts(alloc, depth - 1, reader)?;
            Ok(either(one, other))
        }
        Head::Not => {
            let inner = read_part(alloc, depth - 1, reader)?;
            Ok(negation(inner))
        }
    }
}

/// The next filter, in a box.
#[cycle(filters)]
#[tactic(auto, using(vortex_filter::proofs::LiteralSteps::valid))]
fn read_part(
    alloc: Global,
    depth: usize,
    reader: &mut Reader<'_>,
) -> Result<Box<Filter>, FilterDecodeError>
    ensures read { Reads node_bytes (IsNode depth) (λ part. formula part.value)
        result (left reader.old) (left reader.new) }
    ensures valid { IfOk result (λ part. AreValid (literals_of part.value)) }
{
    let filter = read_node(alloc, depth, reader)?;
    Ok(Box::new(alloc, filter)?)
}

/// The next two filters, in boxes.
#[cycle(filters)]
#[tactic(auto, using(vortex_filter::proofs::LiteralSteps::valid))]
fn read_parts(
    alloc: Global,
    depth: usize,
    reader: &mut Reader<'_>,
) -> Result<(Box<Filter>, Box<Filter>), FilterDecodeError>
    ensures read { ReadsBoth depth result (left reader.old) (left reader.new) }
    ensures valid { IfOk result (λ parts. AreValid (literals_of parts.0.value)
        × AreValid (literals_of parts.1.value)) }
{
    let left = read_part(alloc, depth, reader)?;
    let right = read_part(alloc, depth, reader)?;
    Ok((left, right))
}

// ---- tests

/// A comparison, after its first byte.
#[tactic(auto, using(vortex_filter::proofs::LiteralSteps::valid))]
fn read_comparison(
    alloc: Global,
    operator: CompareOperator,
    reader: &mut Reader<'_>,
) -> Result<Filter, FilterDecodeError>
    ensures read { (n : ℕ) → ReadsBehind (operator_byte operator) n
        result (left reader.old) (left reader.new) }
    ensures valid { IfOk result (λ f. AreValid (literals_of f)) }
{
    let column = read_place(reader)?;
    let literal = read_literal(alloc, reader)?;
    Ok(Filter::Compare {
        column,
        operator,
        literal,
    })
}

/// A test for null, after its first byte.
#[tactic(auto, using(vortex_filter::proofs::LiteralSteps::valid))]
fn read_null_test(reader: &mut Reader<'_>) -> Result<Filter, FilterDecodeError>
    ensures read { (n : ℕ) → ReadsBehind 9 n result (left reader.old) (left reader.new) }
    ensures valid { IfOk result (λ f. AreValid (literals_of f)) }
{
    let column = read_place(reader)?;
    Ok(Filter::IsNull { column })
}

/// Whether a cell is equal to one of several literals, after its first byte.
#[tactic(auto, using(vortex_filter::proofs::LiteralSteps::valid))]
fn read_membership(alloc: Global, reader: &mut Reader<'_>) -> Result<Filter, FilterDecodeError>
    ensures read { (n : ℕ) → ReadsBehind 10 n result (left reader.old) (left reader.new) }
    ensures valid { IfOk result (λ f. AreValid (literals_of f)) }
{
    let column = read_place(reader)?;
    let literals = read_literals(alloc, reader)?;
    Ok(Filter::In { column, literals })
}

/// Whether a cell is from one literal up to another, after its first byte.
#[tactic(auto, using(vortex_filter::proofs::LiteralSteps::valid))]
fn read_range(alloc: Global, reader: &mut Reader<'_>) -> Result<Filter, FilterDecodeError>
    ensures read { (n : ℕ) → ReadsBehind 11 n result (left reader.old) (left reader.new) }
    ensures valid { IfOk result (λ f. AreValid (literals_of f)) }
{
    let column = read_place(reader)?;
    let lower = read_literal(alloc, reader)?;
    let upper = read_literal(alloc, reader)?;
    Ok(Filter::Between {
        column,
        lower,
        upper,
    })
}

/// Whether a cell begins with a literal, after its first byte.
#[tactic(auto, using(vortex_filter::proofs::LiteralSteps::valid))]
fn read_prefix(alloc: Global, reader: &mut Reader<'_>) -> Result<Filter, FilterDecodeError>
    ensures read { (n : ℕ) → ReadsBehind 12 n result (left reader.old) (left reader.new) }
    ensures valid { IfOk result (λ f. AreValid (literals_of f)) }
{
    let column = read_place(reader)?;
    let prefix = read_literal(alloc, reader)?;
    Ok(Filter::StartsWith { column, prefix })
}

/// Whether a cell matches a pattern, after its first byte.
#[tactic(auto, using(vortex_filter::proofs::LiteralSteps::valid))]
fn read_like(alloc: Global, reader: &mut Reader<'_>) -> Result<Filter, FilterDecodeError>
    ensures read { (n : ℕ) → ReadsBehind 16 n result (left reader.old) (left reader.new) }
    ensures valid { IfOk result (λ f. AreValid (literals_of f)) }
{
    let column = read_place(reader)?;
    let case = read_case(reader)?;
    let pattern = read_pattern(alloc, reader)?;
    Ok(Filter::Like {
        column,
        pattern,
        case,
    })
}

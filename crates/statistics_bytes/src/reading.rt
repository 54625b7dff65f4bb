//! Statistics from their encoding in bytes.

ghost use Rattle.std.specs.Prelude.{◌≡◌, ◌++◌, ◌∷◌, ◌+◌, ◌<◌, ◌≤◌, ◌^◌, ◌↔◌, ℕ, List, [], Err, IfErr, IfOk};
ghost use Rattle.std.specs.Prelude.{MatchOption, OnOk, Some, drop, length, option_map, true};
ghost use Rattle.vortex_statistics.specs.Statistics.{Known};
ghost use Rattle.statistics_bytes.specs.Words.{AreBoundKeys, AreBoundsRead, AreOf, BadBytes, HasNoVariant};
ghost use Rattle.statistics_bytes.specs.Words.{HasValidBounds, HasValues, HasVariant, IsBadBound, IsBadEncoding};
ghost use Rattle.statistics_bytes.specs.Words.{IsBoundKey, IsBoundRead, IsBoundReadAt, IsCountsRead, IsEncodingAs};
ghost use Rattle.statistics_bytes.specs.Words.{IsRefusal, IsValid, IsValidBound, IsWrongStart};
ghost use Rattle.statistics_bytes.specs.Words.{ReadsAs, ReadsInto, ReadsRight, SayVariant};
ghost use Rattle.statistics_bytes.specs.Words.{count_bytes, counts_length, flags_byte, encoding};
ghost use Rattle.statistics_bytes.specs.Words.{has_bound, is_there, known, known_bound, state_at, type_of};

use crate::flags::{BoundState, Flags, flags_from};
use crate::writing::{VERSION, ascending, expect_keys};
use std::alloc::Global;
use vortex_bounds::laws::items_are_bytes;
use vortex_dtype::DType;
use vortex_row::laws::{keys_are_apart, values_have_no_typed};
use vortex_row::{RowError, decode_key_into};
use vortex_statistics::{Bound, ColumnStatistics, StatisticsError};
use vortex_value::Scalar;

/// The statistics that have this encoding, of a column of the type. Their bounds are scalars of the
/// type, whatever integer or nullable type they had when they were written.
///
/// `HasVariant` exactly if a variant stands in the type, at any depth, and the bytes begin with the
/// version and with flags that say a bound. Else `BadBytes` if the bytes are not, whole, the
/// encoding of statistics of the type. Its offset is that of the first byte that no such encoding
/// has there, or of the end if they end too early. `OutOfMemory` may come in place of each answer
/// but `HasVariant`, only if the bytes begin so.
pub fn decode_statistics(
    alloc: Global,
    dtype: &DType,
    bytes: &[u8],
) -> Result<ColumnStatistics, StatisticsError>
    ensures read { IfOk result (λ s. IsEncodingAs (type_of dtype.now) bytes.now (known s)) }
    ensures valid { IfOk result HasValidBounds }
    ensures whole { (s : Known) → AreOf (type_of dtype.now) s → bytes.now ≡ encoding s
        → ReadsAs s result }
    ensures right { IfOk result
        (λ s. ReadsRight (type_of dtype.now) bytes.now (known s)) }
    ensures variant { (result ≡ Err HasVariant) ↔ SayVariant (type_of dtype.now) bytes.now }
    ensures refused { IfErr result (IsBadEncoding (type_of dtype.now) bytes.now) }
{
    let mut statistics = ColumnStatistics::empty();
    decode_statistics_into(alloc, dtype, bytes, &mut statistics)?;
    Ok(statistics)
}

/// Puts what `decode_statistics` gives in the place of statistics. It spares the moves of a
/// result, and a bound that stands here keeps its type if it is this one: so the statistics of
/// many pieces of one column are best read into the same place.
///
/// Each refusal comes as from `decode_statistics`. After one the statistics may say anything.
pub fn decode_statistics_into(
    alloc: Global,
    dtype: &DType,
    bytes: &[u8],
    statistics: &mut ColumnStatistics,
) -> Result<(), StatisticsError>
    ensures read { OnOk result
        (IsEncodingAs (type_of dtype.now) bytes.now (known statistics.new)) }
    ensures valid { OnOk result (HasValidBounds statistics.new) }
    ensures whole { (s : Known) → AreOf (type_of dtype.now) s → bytes.now ≡ encoding s
        → ReadsInto s (known statistics.new) result }
    ensures right { OnOk result
        (ReadsRight (type_of dtype.now) bytes.now (known statistics.new)) }
    ensures variant { (result ≡ Err HasVariant) ↔ SayVariant (type_of dtype.now) bytes.now }
    ensures refused { IfErr result (IsBadEncoding (type_of dtype.now) bytes.now) }
{
    keys_are_apart();
    values_have_no_typed();
    read_encoding(alloc, dtype, bytes, statistics)
}

/// Puts the statistics that have this encoding in the place of these.
fn read_encoding(
    alloc: Global,
    dtype: &DType,
    bytes: &[u8],
    statistics: &mut ColumnStatistics,
) -> Result<(), StatisticsError>
    ensures read { OnOk result
        (IsEncodingAs (type_of dtype.now) bytes.now (known statistics.new)) }
    ensures valid { OnOk result (HasValidBounds statistics.new) }
    ensures refused { IfErr result (IsBadEncoding (type_of dtype.now) bytes.now) }
{
    keys_are_apart();
    values_have_no_typed();
    items_are_bytes(bytes);
    let flags = read_flags(bytes)?;
    expect_keys_of(flags, dtype)?;
    let counts = read_counts(flags.has_null_count, bytes)?;
    let ColumnStatistics {
        row_count,
        null_count,
        lower,
        upper,
    } = statistics;
    *row_count = counts.row_count;
    *null_count = counts.null_count;
    read_bounds(alloc, dtype, flags, bytes, counts.end, lower, upper)?;
    Ok(())
}

/// Whether the type has no parts and is no variant. False says nothing.
#[inline(always)]
fn is_leaf(dtype: &DType) -> bool
    ensures { result ≡ true → HasNoVariant (type_of dtype.now) }
{
    matches!(
        dtype,
        DType::Bool(_) | DType::Primitive(_, _) | DType::Utf8(_) | DType::Binary(_)
    )
}

/// `HasVariant` exactly if the flags say a bound, and a variant stands in the type.
fn expect_keys_of(flags: Flags, dtype: &DType) -> Result<(), StatisticsError>
    ensures ordered { OnOk result (has_bound flags ≡ true → HasNoVariant (type_of dtype.now)) }
    ensures refused { IfErr result (λ e. (e ≡ HasVariant) × (has_bound flags ≡ true)
        × ¬ (HasNoVariant (type_of dtype.now))) }
{
    if flags.has_bound() && !is_leaf(dtype) {
        expect_keys(dtype)
    } else {
        Ok(())
    }
}

/// What the byte of flags says, after the version.
fn read_flags(bytes: &[u8]) -> Result<Flags, StatisticsError>
    ensures read { IfOk result
        (λ flags. (rest : List ℕ) × (bytes.now ≡ 1 ∷ flags_byte flags ∷ rest)) }
    ensures refused { IfErr result
        (λ e. (place : ℕ) × (e ≡ BadBytes place) × IsWrongStart bytes.now place) }
{
    match bytes {
        [VERSION, flags, ..] => flags_from(*flags).ok_or(StatisticsError::BadBytes { offset: 1 }),
        [VERSION] => Err(StatisticsError::BadBytes { offset: 1 }),
        _ => Err(StatisticsError::BadBytes { offset: 0 }),
    }
}

/// The counts of an encoding, and where they end.
#[derive(Clone, Copy)]
struct Counts {
    row_count: u64,
    null_count: Option<u64>,
    end: usize,
}

/// The count in the first eight bytes. `None` if there are fewer.
#[tactic(auto, using(crate::proofs::CountBytes::counted))]
fn count_in(bytes: &[u8]) -> Option<u64>
    ensures { MatchOption result (length bytes.now < 8)
        (λ n. (n < 2 ^ 64) × (bytes.now ≡ count_bytes n ++ drop 8 bytes.now)) }
{
    items_are_bytes(bytes);
    match bytes {
        [a, b, c, d, e, f, g, h, ..] => {
            Some(u64::from_be_bytes([*a, *b, *c, *d, *e, *f, *g, *h]))
        }
        _ => None,
    }
}

/// The counts, after the version and the flags.
fn read_counts(has_null_count: bool, bytes: &[u8]) -> Result<Counts, StatisticsError>
    requires { 2 ≤ length bytes.now }
    ensures read { IfOk result (λ counts. IsCountsRead has_null_count
        counts.row_count counts.null_count (drop 2 bytes.now) (drop counts.end bytes.now)
        × (counts.end ≤ length bytes.now)) }
    ensures refused { IfErr result (λ e. (e ≡ BadBytes (length bytes.now))
        × (length bytes.now < 2 + counts_length has_null_count)) }
{
    let cut_off = StatisticsError::BadBytes {
        offset: bytes.len(),
    };
    let row_count = count_in(&bytes[2..]).ok_or(cut_off)?;
    if !has_null_count {
        return Ok(Counts {
            row_count,
            null_count: None,
            end: 10,
        });
    }
    let nulls = count_in(&bytes[10..]).ok_or(cut_off)?;
    Ok(Counts {
        row_count,
        null_count: Some(nulls),
        end: 18,
    })
}

/// Puts both bounds in the places of these; after them the bytes end.
fn read_bounds(
    alloc: Global,
    dtype: &DType,
    flags: Flags,
    bytes: &[u8],
    place: usize,
    lower: &mut Option<Bound>,
    upper: &mut Option<Bound>,
) -> Result<(), StatisticsError>
    requires within { place ≤ length bytes.now }
    requires ordered { has_bound flags ≡ true → HasNoVariant (type_of dtype.now) }
    ensures read { OnOk result (AreBoundsRead (type_of dtype.now) flags
        (option_map known_bound lower.new) (option_map known_bound upper.new)
        (drop place bytes.now)) }
    ensures valid { OnOk result (IsValidBound lower.new × IsValidBound upper.new) }
    ensures refused { IfErr result (IsRefusal
        (AreBoundKeys (type_of dtype.now) flags.lower flags.upper) (has_bound flags ≡ true)
        (has_bound flags ≡ true → HasValues (type_of dtype.now))
        place (drop place bytes.now)) }
{
    keys_are_apart();
    values_have_no_typed();
    let next = read_bound(alloc, dtype, flags.lower, bytes, place, lower)?;
    read_last_bound(alloc, dtype, flags.upper, bytes, next, upper)?;
    Ok(())
}

/// Puts a bound in the place of this one; after it the bytes end.
fn read_last_bound(
    alloc: Global,
    dtype: &DType,
    state: BoundState,
    bytes: &[u8],
    place: usize,
    bound: &mut Option<Bound>,
) -> Result<(), StatisticsError>
    requires within { place ≤ length bytes.now }
    requires ordered { is_there state ≡ true → HasNoVariant (type_of dtype.now) }
    ensures read { OnOk result (IsBoundRead (type_of dtype.now) state
        (option_map known_bound bound.new) (drop place bytes.now) []) }
    ensures valid { OnOk result (IsValidBound bound.new) }
    ensures refused { IfErr result (IsRefusal (IsBoundKey (type_of dtype.now) state) (is_there state ≡ true)
        (is_there state ≡ true → HasValues (type_of dtype.now))
        place (drop place bytes.now)) }
{
    keys_are_apart();
    values_have_no_typed();
    let end = read_bound(alloc, dtype, state, bytes, place, bound)?;
    if end < bytes.len() {
        return Err(StatisticsError::BadBytes { offset: end });
    }
    Ok(())
}

/// Puts a bound from an offset on, if there is one, in the place of this one. The offset after it.
#[inline(always)]
fn read_bound(
    alloc: Global,
    dtype: &DType,
    state: BoundState,
    bytes: &[u8],
    place: usize,
    bound: &mut Option<Bound>,
) -> Result<usize, StatisticsError>
    requires within { place ≤ length bytes.now }
    requires ordered { is_there state ≡ true → HasNoVariant (type_of dtype.now) }
    ensures read { IfOk result (λ next. IsBoundReadAt (type_of dtype.now) state
        (option_map known_bound bound.new) bytes.now place next) }
    ensures valid { OnOk result (IsValidBound bound.new) }
    ensures refused { IfErr result
        (IsBadBound (type_of dtype.now) state place (drop place bytes.now)) }
{
    match state {
        BoundState::Missing => {
            *bound = None;
            Ok(place)
        }
        BoundState::Inexact | BoundState::Exact => read_there(
            alloc,
            dtype,
            matches!(state, BoundState::Exact),
            bytes,
            place,
            bound,
        ),
    }
}

/// The bytes from this offset on.
fn bytes_from(bytes: &[u8], place: usize) -> &[u8]
    requires { place ≤ length bytes.now }
    ensures { result.now ≡ drop place bytes.now }
{
    &bytes[place..]
}

/// Puts a bound that is there, from an offset on, in the place of this one. The offset after it.
#[inline(always)]
fn read_there(
    alloc: Global,
    dtype: &DType,
    is_exact: bool,
    bytes: &[u8],
    place: usize,
    bound: &mut Option<Bound>,
) -> Result<usize, StatisticsError>
    requires within { place ≤ length bytes.now }
    requires ordered { HasNoVariant (type_of dtype.now) }
    ensures read { IfOk result (λ next. IsBoundReadAt (type_of dtype.now) (state_at is_exact)
        (option_map known_bound bound.new) bytes.now place next) }
    ensures valid { OnOk result (IsValidBound bound.new) }
    ensures refused { IfErr result
        (IsBadBound (type_of dtype.now) (state_at is_exact) place (drop place bytes.now)) }
{
    match bound {
        Some(bound) => read_value(alloc, dtype, is_exact, bytes, place, bound),
        None => read_first(alloc, dtype, is_exact, bytes, place, bound),
    }
}

/// Puts a bound that is there, from an offset on, where none is. The offset after it.
#[inline(never)]
fn read_first(
    alloc: Global,
    dtype: &DType,
    is_exact: bool,
    bytes: &[u8],
    place: usize,
    bound: &mut Option<Bound>,
) -> Result<usize, StatisticsError>
    requires within { place ≤ length bytes.now }
    requires ordered { HasNoVariant (type_of dtype.now) }
    ensures read { IfOk result (λ next. IsBoundReadAt (type_of dtype.now) (state_at is_exact)
        (option_map known_bound bound.new) bytes.now place next) }
    ensures valid { OnOk result (IsValidBound bound.new) }
    ensures refused { IfErr result
        (IsBadBound (type_of dtype.now) (state_at is_exact) place (drop place bytes.now)) }
{
    let mut first = Bound {
        value: Scalar {
            dtype: DType::Null,
            value: None,
        },
        is_exact,
    };
    let end = read_value(alloc, dtype, is_exact, bytes, place, &mut first)?;
    *bound = Some(first);
    Ok(end)
}

/// Puts a bound that is there, from an offset on, over this one. The offset after it.
#[tactic(auto, using(crate::proofs::ReadSteps::states))]
fn read_value(
    alloc: Global,
    dtype: &DType,
    is_exact: bool,
    bytes: &[u8],
    place: usize,
    bound: &mut Bound,
) -> Result<usize, StatisticsError>
    requires within { place ≤ length bytes.now }
    requires ordered { HasNoVariant (type_of dtype.now) }
    ensures read { IfOk result (λ next. IsBoundReadAt (type_of dtype.now) (state_at is_exact)
        (Some (known_bound bound.new)) bytes.now place next) }
    ensures valid { OnOk result (IsValid bound.new.value) }
    ensures refused { IfErr result
        (IsBadBound (type_of dtype.now) (state_at is_exact) place (drop place bytes.now)) }
{
    bound.is_exact = is_exact;
    match decode_key_into(
        alloc,
        dtype,
        ascending(),
        bytes_from(bytes, place),
        &mut bound.value,
    ) {
        Ok(length) => Ok(place + length),
        Err(RowError::BadKey { offset: bad }) => {
            Err(StatisticsError::BadBytes {
                offset: place + bad,
            })
        }
        Err(_) => Err(StatisticsError::OutOfMemory),
    }
}

//! Literals as they are written, and where they stand among the values of a column's type.

ghost use Rattle.std.specs.Prelude.{◌≡◌, ◌<◌, ◌^◌, IfErr, IfOk, IfSome, MatchResult, Some, option_map, true, unsigned_abs};
ghost use Rattle.logical_scalars.specs.Stored.{IsOfLogicalType};
ghost use Rattle.logical_types.specs.Shapes.{IsAmong, shape_of, timestamps};
ghost use Rattle.logical_types.specs.Words.{IsStorageOf};
ghost use Rattle.vortex_dtype.specs.TypeTree.{IsFlat};
ghost use Rattle.vortex_filter.specs.FilterLiterals.{AreValid};
ghost use Rattle.logical_types.specs.declared.logical.LogicalType.TheVariants as LogicalTypes;
ghost use Rattle.vortex_filter.specs.Literals.{AsksMemory, bytes_in, decimal_at, gap_position, instant_in, integer_at, integer_in};
ghost use Rattle.vortex_filter.specs.Literals.{integer_position, literal_tree, logical_cell, null_cell};
ghost use Rattle.vortex_filter.specs.Literals.{number_in, number_of_shape, number_of_type, position_of, scalars_in};
ghost use Rattle.vortex_filter.specs.Literals.{text_cell, text_in, text_of_shape, text_of_type, truth_in};
ghost use Rattle.vortex_filter.specs.Literals.{written_value};
ghost use Rattle.vortex_filter.specs.Positions.{exactly, position_tree, scalars_of};
ghost use Rattle.vortex_filter.specs.Words.{IsValid, OutOfMemory, as_nullable, cell_of, in_range, type_of};

use crate::error::FilterError;
use logical_scalars::laws::shapes_say_types;
use logical_scalars::{logical_type_of, scalar_of_column};
use logical_types::{
    DecimalPlace, DecimalType, LogicalType, TimeUnit, laws, place_among_values, storage_of_word,
};
use std::alloc::Global;
use std::cmp::Ordering;
use vortex_dtype::{BufferString, ByteBuffer, DType, Nullability, PType};
use vortex_pvalue::PValue;
use vortex_value::{Scalar, ScalarValue};

/// A literal as it is written, before a column gives it a type.
#[derive(Clone, Copy, Debug)]
pub enum Literal<'a> {
    /// The null of any type.
    Null,
    /// A truth value.
    Bool(bool),
    /// A number, by its word: `10`, `-0.5`, `1e30`.
    Number(&'a str),
    /// A string. In a column of numbers, days or times it is the value that it writes, in one with a zone
    /// in UTC if it has neither `Z` nor an offset.
    Text(&'a str),
    /// Bytes.
    Bytes(&'a [u8]),
}

/// Where a literal stands among the values of a column's type.
#[derive(Debug, Drop)]
pub enum Position {
    /// At a value of the type, or at its null.
    Exactly(Scalar),
    /// Between this value of the type and the next.
    JustAbove(Scalar),
    /// Where each value of the type stands so to it: below all of them, or above.
    Lacking(Ordering),
}

impl Literal<'_> {
    /// Where the literal stands among the values of a type: at one that is not nullable, at the null
    /// of the type made nullable, between two values, or below or above all of them. `None` if values
    /// of the type are not written so: a number in a column of integers or decimals has no exponent
    /// and at most 38 digits, and one in a column of floats is not so great that the nearest is
    /// infinity.
    ///
    /// `OutOfMemory` is its only refusal. It never comes for a truth value or for a number in a column of
    /// integers, and never in place of `None`.
    pub fn position(self, alloc: Global, dtype: &DType) -> Result<Option<Position>, FilterError>
        ensures value { IfOk result (λ found. option_map position_tree found
            ≡ position_of (type_of dtype.now) (literal_tree self.entry)) }
        ensures valid { IfOk result (λ found. AreValid (scalars_in found)) }
        ensures refused { IfErr result (λ e. (e ≡ OutOfMemory)
            × AsksMemory (position_of (type_of dtype.now) (literal_tree self.entry))) }
    {
        match self {
            Literal::Null => null_in(alloc, dtype),
            Literal::Bool(truth) => Ok(truth_in(dtype, truth)),
            Literal::Number(word) => number_in(alloc, dtype, word),
            Literal::Text(text) => text_in(alloc, dtype, text),
            Literal::Bytes(bytes) => bytes_in(alloc, dtype, bytes),
        }
    }
}

/// The null of the type, made nullable.
fn null_in(alloc: Global, dtype: &DType) -> Result<Option<Position>, FilterError>
    ensures value { IfOk result (λ found. option_map position_tree found
        ≡ Some (exactly (null_cell (type_of dtype.now)))) }
    ensures valid { IfOk result (λ found. AreValid (scalars_in found)) }
    ensures refused { IfErr result (λ e. (e ≡ OutOfMemory)
        × AsksMemory (Some (exactly (null_cell (type_of dtype.now))))) }
{
    match nullable(alloc, dtype) {
        Ok(dtype) => Ok(Some(Position::Exactly(Scalar::null(dtype)))),
        Err(cause) => Err(cause),
    }
}

/// The type, made nullable.
pub(crate) fn nullable(alloc: Global, dtype: &DType) -> Result<DType, FilterError>
    ensures { MatchResult result
        (λ made. type_of made ≡ as_nullable (type_of dtype.now))
        (λ e. (e ≡ OutOfMemory) × ¬ (IsFlat (type_of dtype.now))) }
{
    match dtype.clone(alloc) {
        Ok(copy) => Ok(copy.as_nullable()),
        Err(cause) => {
            drop(cause);
            Err(FilterError::OutOfMemory)
        }
    }
}

/// A truth value, in a column of truth values.
fn truth_in(dtype: &DType, truth: bool) -> Option<Position>
    ensures value { option_map position_tree result ≡ truth_in (type_of dtype.now) truth }
    ensures valid { AreValid (scalars_in result) }
{
    match dtype {
        DType::Bool(_) => Some(Position::Exactly(Scalar::bool(truth, Nullability::NonNullable))),
        _ => None,
    }
}

// ---- numbers

/// A number, in a column of numbers.
fn number_in(alloc: Global, dtype: &DType, word: &str) -> Result<Option<Position>, FilterError>
    ensures value { IfOk result (λ found.
        option_map position_tree found ≡ number_in (type_of dtype.now) word.now) }
    ensures valid { IfOk result (λ found. AreValid (scalars_in found)) }
    ensures refused { IfErr result (λ e. (e ≡ OutOfMemory)
        × AsksMemory (number_in (type_of dtype.now) word.now)) }
{
    match dtype {
        DType::Primitive(ptype, _) => Ok(integer_in(*ptype, word)),
        DType::Extension(_) => number_of_type(alloc, dtype, word),
        _ => Ok(None),
    }
}

/// A number among those of an integer type.
#[tactic(auto, using(crate::proofs::LiteralTypes::places))]
fn integer_in(ptype: PType, word: &str) -> Option<Position>
    ensures value { option_map position_tree result ≡ integer_in ptype word.now }
    ensures valid { AreValid (scalars_in result) }
{
    let whole = DecimalType {
        precision: 38,
        scale: 0,
    };
    match place_among_values(whole, word.as_bytes()) {
        Some(place) => Some(integer_at(ptype, place)),
        None => None,
    }
}

/// A number among the integers of a type, by its place among all integers.
fn integer_at(ptype: PType, place: DecimalPlace) -> Position
    requires { IsAmong (10 ^ 38) place }
    ensures value { position_tree result ≡ integer_at ptype place }
    ensures valid { AreValid (scalars_of result) }
{
    match place {
        DecimalPlace::At(number) => integer_position(ptype, number),
        DecimalPlace::Behind(number) => gap_position(ptype, number),
        DecimalPlace::BelowAll => Position::Lacking(Ordering::Greater),
        DecimalPlace::AboveAll => Position::Lacking(Ordering::Less),
    }
}

/// An integer among those of a type.
fn integer_position(ptype: PType, number: i128) -> Position
    ensures value { position_tree result ≡ integer_position ptype number }
    ensures valid { AreValid (scalars_of result) }
{
    match PValue::from_whole(number, ptype) {
        Some(value) => Position::Exactly(Scalar {
            dtype: DType::Primitive(ptype, Nullability::NonNullable),
            value: Some(ScalarValue::Primitive(value)),
        }),
        None => Position::Lacking(0i128.cmp(&number)),
    }
}

/// Whether the type has the integer.
#[tactic(auto, using(crate::proofs::LiteralTypes::had))]
fn has(ptype: PType, number: i128) -> bool
    ensures { result ≡ in_range ptype number }
{
    match PValue::from_whole(number, ptype) {
        Some(_) => true,
        None => false,
    }
}

/// What lies between an integer and the next among those of a type.
#[tactic(auto, using(crate::proofs::LiteralTypes::gaps))]
fn gap_position(ptype: PType, number: i128) -> Position
    requires { unsigned_abs number < 10 ^ 38 }
    ensures value { position_tree result ≡ gap_position ptype number }
    ensures valid { AreValid (scalars_of result) }
{
    if !has(ptype, number + 1) {
        return Position::Lacking(0i128.cmp(&number));
    }
    match PValue::from_whole(number, ptype) {
        Some(value) => Position::JustAbove(Scalar {
            dtype: DType::Primitive(ptype, Nullability::NonNullable),
            value: Some(ScalarValue::Primitive(value)),
        }),
        None => Position::Lacking(0i128.cmp(&number)),
    }
}

/// A number in a column of some logical type.
fn number_of_type(alloc: Global, dtype: &DType, word: &str) -> Result<Option<Position>, FilterError>
    ensures value { IfOk result (λ found.
        option_map position_tree found ≡ number_of_type (type_of dtype.now) word.now) }
    ensures valid { IfOk result (λ found. AreValid (scalars_in found)) }
    ensures refused { IfErr result (λ e. (e ≡ OutOfMemory)
        × AsksMemory (number_of_type (type_of dtype.now) word.now)) }
{
    shapes_say_types();
    match logical_type_of(dtype) {
        Some(logical) => number_of_logical(alloc, dtype, logical, word),
        None => Ok(None),
    }
}

/// A number in a column of a logical type.
fn number_of_logical(
    alloc: Global,
    dtype: &DType,
    logical: LogicalType,
    word: &str,
) -> Result<Option<Position>, FilterError>
    requires { IsOfLogicalType (type_of dtype.now) logical }
    ensures value { IfOk result (λ found. option_map position_tree found
        ≡ number_of_shape (type_of dtype.now) (shape_of logical) word.now) }
    ensures valid { IfOk result (λ found. AreValid (scalars_in found)) }
    ensures refused { IfErr result (λ e. (e ≡ OutOfMemory)
        × AsksMemory (number_of_shape (type_of dtype.now) (shape_of logical) word.now)) }
{
    match logical {
        LogicalType::Float64 | LogicalType::Float32 => written(alloc, dtype, logical, word),
        LogicalType::Decimal(decimal) => decimal_in(alloc, dtype, decimal, word),
        LogicalType::Date | LogicalType::Time(_) | LogicalType::Timestamp { .. } => Ok(None),
    }
}

/// The value that a word writes.
fn written(
    alloc: Global,
    dtype: &DType,
    logical: LogicalType,
    word: &str,
) -> Result<Option<Position>, FilterError>
    requires { IsOfLogicalType (type_of dtype.now) logical }
    ensures value { IfOk result (λ found. option_map position_tree found
        ≡ written_value (type_of dtype.now) (shape_of logical) word.now) }
    ensures valid { IfOk result (λ found. AreValid (scalars_in found)) }
    ensures refused { IfErr result (λ e. (e ≡ OutOfMemory)
        × AsksMemory (written_value (type_of dtype.now) (shape_of logical) word.now)) }
{
    laws::shapes_say_words();
    match storage_of_word(logical, word.as_bytes()) {
        Some(storage) => match logical_scalar(alloc, dtype, logical, storage) {
            Ok(scalar) => Ok(Some(Position::Exactly(scalar))),
            Err(cause) => Err(cause),
        },
        None => Ok(None),
    }
}

/// A number among decimals.
fn decimal_in(
    alloc: Global,
    dtype: &DType,
    decimal: DecimalType,
    word: &str,
) -> Result<Option<Position>, FilterError>
    requires { IsOfLogicalType (type_of dtype.now) (LogicalTypes.Decimal decimal) }
    ensures value { IfOk result (λ found. option_map position_tree found
        ≡ number_of_shape (type_of dtype.now) (shape_of (LogicalTypes.Decimal decimal)) word.now) }
    ensures valid { IfOk result (λ found. AreValid (scalars_in found)) }
    ensures refused { IfErr result (λ e. (e ≡ OutOfMemory)
        × AsksMemory (number_of_shape (type_of dtype.now) (shape_of (LogicalTypes.Decimal decimal)) word.now)) }
{
    match place_among_values(decimal, word.as_bytes()) {
        Some(place) => decimal_at(alloc, dtype, decimal, place),
        None => Ok(None),
    }
}

/// A number among decimals, by its place.
fn decimal_at(
    alloc: Global,
    dtype: &DType,
    decimal: DecimalType,
    place: DecimalPlace,
) -> Result<Option<Position>, FilterError>
    requires is { IsOfLogicalType (type_of dtype.now) (LogicalTypes.Decimal decimal) }
    requires within { IsAmong (10 ^ decimal.precision) place }
    ensures value { IfOk result (λ found. option_map position_tree found
        ≡ Some (decimal_at (type_of dtype.now) (shape_of (LogicalTypes.Decimal decimal)) place)) }
    ensures valid { IfOk result (λ found. AreValid (scalars_in found)) }
    ensures refused { IfErr result (λ e. (e ≡ OutOfMemory)
        × AsksMemory (Some (decimal_at (type_of dtype.now) (shape_of (LogicalTypes.Decimal decimal)) place))) }
{
    let logical = LogicalType::Decimal(decimal);
    match place {
        DecimalPlace::At(storage) => match logical_scalar(alloc, dtype, logical, storage) {
            Ok(scalar) => Ok(Some(Position::Exactly(scalar))),
            Err(cause) => Err(cause),
        },
        DecimalPlace::Behind(storage) => match logical_scalar(alloc, dtype, logical, storage) {
            Ok(scalar) => Ok(Some(Position::JustAbove(scalar))),
            Err(cause) => Err(cause),
        },
        DecimalPlace::BelowAll => Ok(Some(Position::Lacking(Ordering::Greater))),
        DecimalPlace::AboveAll => Ok(Some(Position::Lacking(Ordering::Less))),
    }
}

/// The value of a logical type with this storage, as a scalar of the column's type.
fn logical_scalar(
    alloc: Global,
    dtype: &DType,
    logical: LogicalType,
    storage: i128,
) -> Result<Scalar, FilterError>
    requires is { IsOfLogicalType (type_of dtype.now) logical }
    requires value { IsStorageOf logical storage }
    ensures cell { IfOk result (λ x. cell_of x
        ≡ logical_cell (type_of dtype.now) (shape_of logical) storage) }
    ensures valid { IfOk result IsValid }
    ensures refused { IfErr result (λ e. (e ≡ OutOfMemory) × ¬ (IsFlat (type_of dtype.now))) }
{
    match scalar_of_column(alloc, dtype, logical, storage) {
        Ok(scalar) => Ok(scalar),
        Err(cause) => {
            drop(cause);
            Err(FilterError::OutOfMemory)
        }
    }
}

// ---- strings and bytes

/// A string, in a column of strings, or of values that it can write.
fn text_in(alloc: Global, dtype: &DType, text: &str) -> Result<Option<Position>, FilterError>
    ensures value { IfOk result (λ found.
        option_map position_tree found ≡ text_in (type_of dtype.now) text.now) }
    ensures valid { IfOk result (λ found. AreValid (scalars_in found)) }
    ensures refused { IfErr result (λ e. (e ≡ OutOfMemory)
        × AsksMemory (text_in (type_of dtype.now) text.now)) }
{
    match dtype {
        DType::Utf8(_) => string_in(alloc, text),
        DType::Primitive(ptype, _) => Ok(integer_in(*ptype, text)),
        DType::Extension(_) => text_of_type(alloc, dtype, text),
        _ => Ok(None),
    }
}

/// A string in a column of some logical type.
fn text_of_type(alloc: Global, dtype: &DType, text: &str) -> Result<Option<Position>, FilterError>
    ensures value { IfOk result (λ found.
        option_map position_tree found ≡ text_of_type (type_of dtype.now) text.now) }
    ensures valid { IfOk result (λ found. AreValid (scalars_in found)) }
    ensures refused { IfErr result (λ e. (e ≡ OutOfMemory)
        × AsksMemory (text_of_type (type_of dtype.now) text.now)) }
{
    shapes_say_types();
    match logical_type_of(dtype) {
        Some(logical) => text_of_logical(alloc, dtype, logical, text),
        None => Ok(None),
    }
}

/// A string in a column of a logical type: in one of numbers it is its number.
fn text_of_logical(
    alloc: Global,
    dtype: &DType,
    logical: LogicalType,
    text: &str,
) -> Result<Option<Position>, FilterError>
    requires { IsOfLogicalType (type_of dtype.now) logical }
    ensures value { IfOk result (λ found. option_map position_tree found
        ≡ text_of_shape (type_of dtype.now) (shape_of logical) text.now) }
    ensures valid { IfOk result (λ found. AreValid (scalars_in found)) }
    ensures refused { IfErr result (λ e. (e ≡ OutOfMemory)
        × AsksMemory (text_of_shape (type_of dtype.now) (shape_of logical) text.now)) }
{
    match logical {
        LogicalType::Timestamp {
            unit,
            is_zoned: true,
        } => instant(alloc, dtype, unit, text),
        LogicalType::Date | LogicalType::Time(_) | LogicalType::Timestamp { .. } => {
            written(alloc, dtype, logical, text)
        }
        LogicalType::Float64 | LogicalType::Float32 | LogicalType::Decimal(_) => {
            number_of_logical(alloc, dtype, logical, text)
        }
    }
}

/// The instant that a text writes, in a column with a zone.
fn instant(
    alloc: Global,
    dtype: &DType,
    unit: TimeUnit,
    text: &str,
) -> Result<Option<Position>, FilterError>
    requires { IsOfLogicalType (type_of dtype.now) (LogicalTypes.Timestamp unit true) }
    ensures value { IfOk result (λ found. option_map position_tree found
        ≡ text_of_shape (type_of dtype.now) (timestamps unit true) text.now) }
    ensures valid { IfOk result (λ found. AreValid (scalars_in found)) }
    ensures refused { IfErr result (λ e. (e ≡ OutOfMemory)
        × AsksMemory (text_of_shape (type_of dtype.now) (timestamps unit true) text.now)) }
{
    let zoned = LogicalType::Timestamp {
        unit,
        is_zoned: true,
    };
    match instant_in(unit, text) {
        Some(storage) => match logical_scalar(alloc, dtype, zoned, storage) {
            Ok(scalar) => Ok(Some(Position::Exactly(scalar))),
            Err(cause) => Err(cause),
        },
        None => Ok(None),
    }
}

/// The storage of the instant that a text writes: in UTC, if it has neither `Z` nor an offset.
fn instant_in(unit: TimeUnit, text: &str) -> Option<i128>
    ensures value { result ≡ instant_in unit text.now }
    ensures stored { IfSome result (IsStorageOf (LogicalTypes.Timestamp unit true)) }
{
    laws::shapes_say_words();
    let zoned = LogicalType::Timestamp {
        unit,
        is_zoned: true,
    };
    let plain = LogicalType::Timestamp {
        unit,
        is_zoned: false,
    };
    match storage_of_word(zoned, text.as_bytes()) {
        Some(storage) => Some(storage),
        None => storage_of_word(plain, text.as_bytes()),
    }
}

/// A string of a column of strings.
fn string_in(alloc: Global, text: &str) -> Result<Option<Position>, FilterError>
    ensures value { IfOk result (λ found.
        option_map position_tree found ≡ Some (exactly (text_cell text.now))) }
    ensures valid { IfOk result (λ found. AreValid (scalars_in found)) }
    ensures refused { IfErr result (λ e. (e ≡ OutOfMemory)
        × AsksMemory (Some (exactly (text_cell text.now)))) }
{
    match BufferString::from_str(alloc, text) {
        Ok(text) => {
            let scalar = Scalar::utf8(text, Nullability::NonNullable);
            Ok(Some(Position::Exactly(scalar)))
        }
        Err(cause) => {
            drop(cause);
            Err(FilterError::OutOfMemory)
        }
    }
}

/// Bytes, in a column of bytes.
fn bytes_in(alloc: Global, dtype: &DType, bytes: &[u8]) -> Result<Option<Position>, FilterError>
    ensures value { IfOk result (λ found.
        option_map position_tree found ≡ bytes_in (type_of dtype.now) bytes.now) }
    ensures valid { IfOk result (λ found. AreValid (scalars_in found)) }
    ensures refused { IfErr result (λ e. (e ≡ OutOfMemory)
        × AsksMemory (bytes_in (type_of dtype.now) bytes.now)) }
{
    match dtype {
        DType::Binary(_) => match ByteBuffer::from_slice(alloc, bytes) {
            Ok(bytes) => {
                let scalar = Scalar::binary(bytes, Nullability::NonNullable);
                Ok(Some(Position::Exactly(scalar)))
            }
            Err(cause) => {
                drop(cause);
                Err(FilterError::OutOfMemory)
            }
        },
        _ => Ok(None),
    }
}
